//! What follows from the definitions of counts. Each function here carries a law, and does nothing.

ghost use Rattle.std.specs.Prelude.{◌≡◌, ℕ, List, None, Some};
ghost use Rattle.bd_node.specs.declared.node.Node.{Node};
ghost use Rattle.bd_node.specs.Nodes.{buffer_size};
ghost use Rattle.bd_node.specs.Meaning.{Nodes};
ghost use Rattle.bd_node.specs.Tables.{Table, IsKept, IsTable, IsStored, IsSound};
ghost use Rattle.bd_tally.specs.Ids.{AreIdsOf, IsCounted};

/// Stored nodes are sound where each count is how often the nodes of the kept ids, and the root's
/// pointer, name the node, and the table tells the size of the messages that wait in the root.
pub fn counted_nodes_are_sound()
    ensures { (nodes : Nodes) (t : Table) (ids : List ℕ) → IsTable t → AreIdsOf t ids
        → ((id : ℕ) → IsKept t id → IsStored nodes t id)
        → ((id : ℕ) → t.count id ≡ 0 → nodes id ≡ None)
        → ((root : Node) → nodes t.root ≡ Some root → buffer_size root ≡ t.size)
        → ((id : ℕ) → IsKept t id → IsCounted nodes t ids id) → IsSound nodes t }
{}

/// Of sound nodes each count is that, also the count 0 of an id that isn't kept.
pub fn sound_nodes_are_counted()
    ensures { (nodes : Nodes) (t : Table) (ids : List ℕ) → AreIdsOf t ids → IsSound nodes t
        → (id : ℕ) → IsCounted nodes t ids id }
{}
