//! What follows from the definitions of what the slots of a table's entries have, and of verdicts.
//! Each function here carries laws, and does nothing.

ghost use Rattle.std.specs.Prelude.{◌≡◌, ℕ, None};
ghost use Rattle.bd_model.specs.Tree.{Tree};
ghost use Rattle.bd_device.specs.Blocks.{Image};
ghost use Rattle.bd_node.specs.Meaning.{Nodes};
ghost use Rattle.bd_node.specs.Tables.{IsKept, IsTable, IsStored, IsSound, references};
ghost use Rattle.bd_table.specs.Tables.{AreTableEntries};
ghost use Rattle.bd_table.specs.declared.table.Table.{Table as StoredTable};
ghost use Rattle.bd_image.specs.Stored.{HoldsNodes, table_of};
ghost use Rattle.bd_image.specs.ImageTree.{ImageStandsFor};
ghost use Rattle.bd_tally.specs.Ids.{AreIdsOf};
ghost use Rattle.bd_tally.specs.Seen.{AreRight, IsLeastWrong, named_so_far};
ghost use Rattle.bd_check.specs.Slots.{HaveGoodNodes, IsMiscounted, ids_of, nodes_in};
ghost use Rattle.bd_check.specs.Verdicts.{IsVerdictOn, IsGoodAnswer};
ghost use Rattle.bd_check.specs.declared.verdict.Verdict.{Verdict};
ghost use Rattle.bd_check.specs.declared.verdict.Verdict.TheVariants.{Yes};

use bd_command::laws::log_records_are_prefix_free;
use bd_format::laws::{images_are_decoded, images_are_of_one_node};
use bd_image::laws::trees_are_undamaged;
use bd_log::laws::batches_are_one;
use bd_represent::laws::one_represented;
use bd_super::laws::one_superblock_is_live;
use bd_table::laws::tables_are_read_again;

/// The ids of a table's entries are those of the nodes that it keeps, whatever the nodes are.
pub fn entries_have_the_ids()
    ensures table { (t : StoredTable) (nodes : Nodes)
        → AreTableEntries t.next_id t.root t.entries → IsTable (table_of t nodes) }
    ensures ids { (t : StoredTable) (nodes : Nodes)
        → AreTableEntries t.next_id t.root t.entries
        → AreIdsOf (table_of t nodes) (ids_of t.entries) }
{}

/// Where each entry's slot has a good node, the image has the nodes that its slots encode: they are
/// stored, and there are no others.
pub fn good_nodes_are_stored()
    ensures held { (image : Image) (t : StoredTable) → HaveGoodNodes image t
        → HoldsNodes image t (nodes_in image t) }
    ensures stored { (image : Image) (t : StoredTable)
        → AreTableEntries t.next_id t.root t.entries → HaveGoodNodes image t
        → (id : ℕ) → IsKept (table_of t (nodes_in image t)) id
        → IsStored (nodes_in image t) (table_of t (nodes_in image t)) id }
    ensures others { (image : Image) (t : StoredTable)
        → AreTableEntries t.next_id t.root t.entries
        → (id : ℕ) → (table_of t (nodes_in image t)).count id ≡ 0 → nodes_in image t id ≡ None }
{
    images_are_decoded();
}

/// Good nodes are sound where each entry's references are how often the nodes of the entries, and
/// the root's pointer, name its node; that is how often all nodes name it, so that else the
/// least id of a wrong one is miscounted.
pub fn right_references_are_sound()
    ensures sound { (image : Image) (t : StoredTable)
        → AreTableEntries t.next_id t.root t.entries → HaveGoodNodes image t
        → AreRight (named_so_far (nodes_in image t) t (ids_of t.entries)) t.entries
        → IsSound (nodes_in image t) (table_of t (nodes_in image t)) }
    ensures wrong { (image : Image) (t : StoredTable)
        → AreTableEntries t.next_id t.root t.entries
        → (id : ℕ)
        → IsLeastWrong (named_so_far (nodes_in image t) t (ids_of t.entries)) t.entries id
        → IsMiscounted image t id }
    ensures all { (image : Image) (t : StoredTable)
        → AreTableEntries t.next_id t.root t.entries
        → (c : ℕ) → named_so_far (nodes_in image t) t (ids_of t.entries) c
        ≡ references (nodes_in image t) t.next_id t.root c }
{
    images_are_decoded();
}

/// Where a yes is right of an image, it stands for a tree and for that count.
pub fn yes_has_a_tree()
    ensures { (image : Image) (nodes keys count : ℕ)
        → IsVerdictOn image (Yes nodes keys count)
        → (tree : Tree) × ImageStandsFor tree count image }
{}

/// Of an image that stands for a tree no verdict is right but a yes with its count, or the limit.
pub fn trees_have_a_yes()
    ensures { (image : Image) (tree : Tree) (count : ℕ) (v : Verdict)
        → ImageStandsFor tree count image → IsVerdictOn image v → IsGoodAnswer count v }
{
    trees_are_undamaged();
    images_are_decoded();
    one_superblock_is_live();
    tables_are_read_again();
    images_are_of_one_node();
    one_represented();
    batches_are_one();
    log_records_are_prefix_free();
}
