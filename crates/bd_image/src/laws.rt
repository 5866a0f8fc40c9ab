//! What follows from the definitions of what an image stands for. Each function here carries a law,
//! and does nothing.

ghost use Rattle.std.specs.Prelude.{◌≡◌, ◌+◌, ◌⊎◌, ℕ, List, [], ◌∷◌, Some, Contains};
ghost use Rattle.bd_limits.specs.Limits.{log_blocks};
ghost use Rattle.bd_model.specs.Tree.{Tree, root_only};
ghost use Rattle.bd_slots.specs.Layout.{IsSlotCount};
ghost use Rattle.bd_device.specs.Blocks.{Image};
ghost use Rattle.bd_device.specs.Changes.{SameBut, IsInRange};
ghost use Rattle.bd_node.specs.Meaning.{Nodes};
ghost use Rattle.bd_table.specs.Image.{HoldsTable};
ghost use Rattle.bd_table.specs.declared.table.Table.{Table as StoredTable};
ghost use Rattle.bd_super.specs.Live.{IsLive};
ghost use Rattle.bd_super.specs.Published.{IsOfHalf, SameLive, IsPublished};
ghost use Rattle.bd_super.specs.Superblocks.{other};
ghost use Rattle.bd_super.specs.declared.superblock.Half.{Half};
ghost use Rattle.bd_super.specs.declared.superblock.Super.{Super};
ghost use Rattle.bd_log.specs.Logs.{LogState, HasAll, HasAllOrNone, after_sync};
ghost use Rattle.bd_image.specs.Versions.{version_of};
ghost use Rattle.bd_image.specs.Stored.{HoldsNodes};
ghost use Rattle.bd_image.specs.ImageTree.{HaveTree, HasTree, ImageStandsFor};
ghost use Rattle.bd_image.specs.Used.{used_slots, IsOfSlots, SameUsed};
ghost use Rattle.bd_image.specs.Synced.{IsLogOf, HasTreeAfter};
ghost use Rattle.bd_image.specs.Damage.{IsNamedAt, IsBadAt};
ghost use Rattle.bd_image.specs.Fresh.{IsFresh, first_super, fresh_image};

use bd_command::laws::log_records_are_prefix_free;
use bd_format::laws::{images_are_of_one_node, nodes_fit_slots};
use bd_log::laws::{batches_are_one, damage_excludes_batches};
use bd_represent::laws::one_represented;
use bd_super::laws::{damage_is_exact, one_superblock_is_live};
use bd_table::laws::tables_are_read_again;

/// An image stands for at most one tree, and one count.
pub fn images_have_one_tree()
    ensures { (image : Image) (tree other : Tree) (count number : ℕ)
        → ImageStandsFor tree count image → ImageStandsFor other number image
        → (tree ≡ other) × (count ≡ number) }
{
    one_superblock_is_live();
    tables_are_read_again();
    images_are_of_one_node();
    one_represented();
    batches_are_one();
    log_records_are_prefix_free();
}

/// An image stands for a tree by its live superblock and the blocks that are used alone: where each
/// of these is the same and the superblock is live, it stands for the same tree and count. So it
/// does where only slots change that aren't used.
pub fn other_blocks_are_free()
    ensures same { (s : Super) (t : StoredTable) (place : ℕ) (tree : Tree) (count : ℕ)
        (old new : Image) → SameUsed s t old new → IsLive new s
        → HasTree s t place tree count old → HasTree s t place tree count new }
    ensures slots { (s : Super) (t : StoredTable) (place : ℕ) (tree : Tree) (count : ℕ)
        (slots : List ℕ) (old new : Image) → SameBut (IsOfSlots slots) old new
        → ((slot : ℕ) → Contains slots slot → ¬ Contains (used_slots s.table t) slot)
        → HasTree s t place tree count old → HasTree s t place tree count new }
{}

/// While a superblock is published, an image stands for what one of before stood for, or for the
/// tree of the nodes that were written.
pub fn checkpoints_lead_on()
    ensures staged { (half : Half) (s : Super) (t : StoredTable) (place : ℕ) (tree : Tree)
        (count : ℕ) (old new : Image) → s.half ≡ other half → SameBut (IsOfHalf half) old new
        → SameLive old new → HasTree s t place tree count old → HasTree s t place tree count new }
    ensures published { (s : Super) (t : StoredTable) (nodes : Nodes) (tree : Tree)
        (old new : Image) → IsPublished s (Some old) new → HoldsTable old s.slots s.table t
        → HoldsNodes old t nodes → HaveTree (version_of s) t nodes tree
        → HasTree s t 0 tree s.count new }
{}

/// After a sync an image stands for the tree that the records which waited lead to. One that a
/// crash inside it leaves stands for that, or for what it stood for.
pub fn syncs_lead_on()
    ensures synced { (s : Super) (t : StoredTable) (log : LogState) (tree : Tree) (count : ℕ)
        (old new : Image) → IsLogOf s log
        → SameBut (IsInRange log.first (log.first + log_blocks)) old new → HasAll log old new
        → HasTree s t log.place tree count old
        → HasTreeAfter log.waiting s t (after_sync log).place tree count new }
    ensures syncing { (s : Super) (t : StoredTable) (log : LogState) (tree : Tree) (count : ℕ)
        (old new : Image) → IsLogOf s log
        → SameBut (IsInRange log.first (log.first + log_blocks)) old new → HasAllOrNone log old new
        → HasTree s t log.place tree count old → HasTree s t log.place tree count new
        ⊎ HasTreeAfter log.waiting s t (after_sync log).place tree count new }
{}

/// The image that a format writes stands for the tree of `/` alone, and for a count of 0.
pub fn fresh_images_have_the_root()
    ensures { (image : Image) (s : Super) (slot : ℕ) → IsFresh image s slot
        → ImageStandsFor root_only 0 image }
{}

/// For each number of slots there is such an image, to the byte: where a format has written over
/// zeros.
pub fn fresh_images_are_there()
    ensures { (slots : ℕ) → IsSlotCount slots
        → IsFresh (fresh_image slots) (first_super slots (1 ∷ [])) 0 }
{
    nodes_fit_slots();
}

/// An image that stands for a tree has no bad block.
pub fn trees_are_undamaged()
    ensures { (image : Image) (tree : Tree) (count b : ℕ) → ImageStandsFor tree count image
        → ¬ IsBadAt image b }
{
    one_superblock_is_live();
    tables_are_read_again();
    images_are_of_one_node();
    one_represented();
    batches_are_one();
    log_records_are_prefix_free();
    damage_is_exact();
    damage_excludes_batches();
}

/// A block that is named, as found or by a command that is refused, is bad.
pub fn named_blocks_are_bad()
    ensures { (image : Image) (b : ℕ) → IsNamedAt image b → IsBadAt image b }
{
    one_superblock_is_live();
    tables_are_read_again();
    images_are_of_one_node();
    one_represented();
    batches_are_one();
    log_records_are_prefix_free();
}
