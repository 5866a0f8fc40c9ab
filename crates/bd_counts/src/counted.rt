//! What is asked before a step is made: counts, and the contents of nodes.

ghost use Rattle.std.specs.Prelude.{◌≡◌, ℕ, Bool, List, [], Some, IfOk};
ghost use Rattle.bd_message.specs.KeyMaps.{HasMapCause, NeverWorn};
ghost use Rattle.bd_node.specs.declared.node.Node.{Node};
ghost use Rattle.bd_node.specs.Nodes.{level_of};
ghost use Rattle.bd_node.specs.Meaning.{Nodes};
ghost use Rattle.bd_node.specs.Shape.{IsShape};
ghost use Rattle.bd_node.specs.Tables.{Table, IsKept, IsTable};
ghost use Rattle.bd_node.specs.Stores.{OnlyReadsBy};

use bd_message::MapFault;
use bd_node::Node;
use std::rc::Rc;

/// Counted nodes, by their ids. Their contents are read one by one, and nothing is changed.
pub trait Counted {
    /// Whether the nodes' contents are known: over a real file they aren't.
    ghost is_known: { Self → Type 0 };

    /// The nodes, where they are known.
    ghost nodes: { Self → Nodes };

    /// The counts, the levels, the root and the next id, which are known always.
    ghost table: { Self → Table };

    /// How many nodes were fetched or made, up to a u64's last value.
    ghost visit_count: { Self → ℕ };

    /// How often what it stands on has failed, up to a u64's last value.
    ghost fault_count: { Self → ℕ };

    /// Whether the last call that it made of what it stands on failed.
    ghost last_failed: { Self → Bool };

    /// The blocks whose bytes aren't of the format, for the node of an id.
    ghost bad: { Self → ℕ → ℕ → Type 0 };

    /// What reads may change: from the first to the second only what is kept in memory and what is
    /// counted has changed.
    ghost reads: { Self → Self → Type 0 };

    /// The loans through which calls reach the nodes, the outermost first.
    ghost loans: { Self → List ℕ } = { λ _. [] };

    /// The node of an id, without a visit. Whether it names what it may isn't tested.
    fn find(&mut self, id: u64) -> Result<Rc<Node>, MapFault>
        requires { IsKept (table self.old) id }
        ensures contents { is_known self.old
            → IfOk result (λ node. nodes self.old id ≡ Some node.value) }
        ensures shape { IfOk result (λ node. IsShape node.value) }
        ensures level { IfOk result (λ node. level_of node.value ≡ (table self.old).level id) }
        ensures left { OnlyReadsBy is_known nodes table reads loans self.old self.new }
        ensures visits { visit_count self.new ≡ visit_count self.old }
        ensures cause { HasMapCause (fault_count self.old) (fault_count self.new)
            (last_failed self.new) (bad self.new id) NeverWorn result };

    /// How often a node is named: 0 where it isn't kept.
    fn count(&self, id: u64) -> u64
        ensures { result ≡ (table self.now).count id };

    /// The root's id. It is kept, and an inner node.
    fn root(&self) -> u64
        ensures value { result ≡ (table self.now).root }
        ensures table { IsTable (table self.now) };

    /// The id that the next new node gets.
    fn next_id(&self) -> u64
        ensures value { result ≡ (table self.now).next }
        ensures table { IsTable (table self.now) };

    /// No read changes nothing.
    ghost reads_none: { (s : Self) → reads s s };

    /// What two reads change, one after the other, reads change.
    ghost reads_both: { (a b c : Self) → reads a b → reads b c → reads a c };

    /// What is known after reads was known before them.
    ghost reads_known: { (a b : Self) → reads a b → is_known b → is_known a };
}
