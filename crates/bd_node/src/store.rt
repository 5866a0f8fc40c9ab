//! The store of nodes.

ghost use Rattle.std.specs.Prelude.{◌≡◌, ℕ, ◌≤◌, Bool, List, [], ◌∷◌, length, Some, IfOk, OnOk, OnErr};
ghost use Rattle.bd_message.specs.KeyMaps.{HasMapCause, NeverWorn};
ghost use Rattle.bd_node.specs.declared.node.Node.{Node};
ghost use Rattle.bd_node.specs.Nodes.{buffer_size};
ghost use Rattle.bd_node.specs.Meaning.{Nodes};
ghost use Rattle.bd_node.specs.Tables.{Table, kept_count, IsKept, IsTable, IsNodeOf, IsSound};
ghost use Rattle.bd_node.specs.Pushes.{IsPush, CanPush, HasPushed, IsPushed};
ghost use Rattle.bd_node.specs.Steps.{IsStep, IsInPlace, IsTableAfter, IsCommitted, IsWornBy, IsWornByAdding, IsRootOf, append_step, extend_step, HasGrown};
ghost use Rattle.bd_node.specs.Stores.{visited, FitsRoot, OnlyReadsBy, StaysBy};

use crate::{Items, Messages, Node, Push, Step};
use bd_message::MapFault;
use std::rc::Rc;

/// A store of nodes, by their ids. It knows how often each is named, and keeps those that are. A
/// call that fails leaves the nodes as they were.
pub trait NodeStore {
    /// Whether the nodes' contents are known: over a real file they aren't.
    ghost is_known: { Self → Type 0 };

    /// The nodes, where they are known.
    ghost nodes: { Self → Nodes };

    /// The counts, the levels, the root and the next id, which are known always.
    ghost table: { Self → Table };

    /// How many nodes were fetched or made, up to a u64's last value.
    ghost visit_count: { Self → ℕ };

    /// How often what it stands on has failed, up to a u64's last value.
    ghost fault_count: { Self → ℕ };

    /// Whether the last call that it made of what it stands on failed.
    ghost last_failed: { Self → Bool };

    /// The blocks whose bytes aren't of the format.
    ghost bad: { Self → ℕ → Type 0 };

    /// What reads may change: from the first store to the second only what is kept in memory and
    /// what is counted has changed.
    ghost reads: { Self → Self → Type 0 };

    /// What any call may change beside the nodes: from the first store to the second nothing has
    /// changed that a loss of power or a later start could tell.
    ghost keeps: { Self → Self → Type 0 };

    /// The loans through which calls reach the store, the outermost first: none for the store
    /// itself.
    ghost loans: { Self → List ℕ } = { λ _. [] };

    /// The node of an id: well-formed, and it names kept nodes of lower levels. One visit.
    fn fetch(&mut self, id: u64) -> Result<Rc<Node>, MapFault>
        requires { IsKept (table self.old) id }
        ensures contents { is_known self.old
            → IfOk result (λ node. nodes self.old id ≡ Some node.value) }
        ensures shape { IfOk result (λ node.
            IsNodeOf (table self.old) ((table self.old).level id) node.value) }
        ensures root { IfOk result (λ node.
            id ≡ (table self.old).root → buffer_size node.value ≡ (table self.old).size) }
        ensures left { OnlyReadsBy is_known nodes table reads loans self.old self.new }
        ensures visits { visit_count self.new ≡ visited (visit_count self.old) 1 }
        ensures cause { HasMapCause (fault_count self.old) (fault_count self.new)
            (last_failed self.new) (bad self.new) NeverWorn result };

    /// Makes a step, all of it or nothing. The counts are exact after it; a node whose count has
    /// fallen to 0 goes, and what it alone named too. One visit for each made node.
    fn commit(&mut self, step: Step) -> Result<(), MapFault>
        requires step { IsStep (table self.old) step }
        requires in_place { is_known self.old → IsSound (nodes self.old) (table self.old)
            → IsInPlace (nodes self.old) (table self.old) step }
        ensures table { OnOk result (IsTableAfter (table self.old) step (table self.new)) }
        ensures committed { is_known self.old → IsSound (nodes self.old) (table self.old)
            → OnOk result (IsCommitted (nodes self.old) (table self.old) step
            (nodes self.new) (table self.new)) }
        ensures stays { StaysBy is_known keeps loans self.old self.new }
        ensures err { OnErr result
            (OnlyReadsBy is_known nodes table reads loans self.old self.new) }
        ensures visits { OnOk result
            (visit_count self.new ≡ visited (visit_count self.old) (length step.made)) }
        ensures err_visits { OnErr result (visit_count self.new ≡ visit_count self.old) }
        ensures cause { HasMapCause (fault_count self.old) (fault_count self.new)
            (last_failed self.new) (bad self.new) (IsWornBy (table self.old) step) result };

    /// Puts messages after those that wait in the root: the commit of the root changed so, for the
    /// cost of the messages alone where nobody else holds the root's node. No visit.
    fn append(&mut self, list: Messages) -> Result<(), MapFault>
        requires { FitsRoot (table self.old) list }
        ensures table { OnOk result (HasGrown (table self.old) list (table self.new)) }
        ensures committed { is_known self.old → IsSound (nodes self.old) (table self.old)
            → (root : Node) → nodes self.old (table self.old).root ≡ Some root
            → OnOk result (IsCommitted (nodes self.old) (table self.old)
            (append_step (table self.old) root list) (nodes self.new) (table self.new)) }
        ensures stays { StaysBy is_known keeps loans self.old self.new }
        ensures err { OnErr result
            (OnlyReadsBy is_known nodes table reads loans self.old self.new) }
        ensures visits { visit_count self.new ≡ visit_count self.old }
        ensures cause { HasMapCause (fault_count self.old) (fault_count self.new)
            (last_failed self.new) (bad self.new) NeverWorn result };

    /// Puts messages after those that wait in the root, and new nodes under the next ids, which the
    /// messages and one another may name: the commit of the root changed so, for the cost of the
    /// messages and the new nodes alone where nobody else holds the root's node. One visit for each
    /// new node.
    fn extend(&mut self, made: Items<Node>, list: Messages) -> Result<(), MapFault>
        requires { (root : Node) → IsRootOf (table self.old) root
            → IsStep (table self.old) (extend_step (table self.old) root made list) }
        ensures table { (root : Node) → IsRootOf (table self.old) root
            → OnOk result (IsTableAfter (table self.old)
            (extend_step (table self.old) root made list) (table self.new)) }
        ensures committed { is_known self.old → IsSound (nodes self.old) (table self.old)
            → (root : Node) → nodes self.old (table self.old).root ≡ Some root
            → OnOk result (IsCommitted (nodes self.old) (table self.old)
            (extend_step (table self.old) root made list) (nodes self.new) (table self.new)) }
        ensures stays { StaysBy is_known keeps loans self.old self.new }
        ensures err { OnErr result
            (OnlyReadsBy is_known nodes table reads loans self.old self.new) }
        ensures visits { OnOk result
            (visit_count self.new ≡ visited (visit_count self.old) (length made)) }
        ensures err_visits { OnErr result (visit_count self.new ≡ visit_count self.old) }
        ensures cause { HasMapCause (fault_count self.old) (fault_count self.new)
            (last_failed self.new) (bad self.new)
            (IsWornByAdding (table self.old) made list) result };

    /// Lets messages go down from a private node to its private child: the commit of both changed
    /// so, for the cost of what goes down and of a look at what else waits in the two where these
    /// were changed before and nobody else holds them. No visit.
    fn push_down(&mut self, push: Push) -> Result<(), MapFault>
        requires push { IsPush (table self.old) push }
        requires can { is_known self.old → IsSound (nodes self.old) (table self.old)
            → CanPush (nodes self.old) (table self.old) push }
        ensures table { OnOk result (HasPushed (table self.old) push (table self.new)) }
        ensures committed { is_known self.old → IsSound (nodes self.old) (table self.old)
            → (parent child : Node) → nodes self.old push.parent ≡ Some parent
            → nodes self.old push.child ≡ Some child
            → OnOk result (IsPushed (nodes self.old) (table self.old) push parent child
            (nodes self.new) (table self.new)) }
        ensures stays { StaysBy is_known keeps loans self.old self.new }
        ensures err { OnErr result
            (OnlyReadsBy is_known nodes table reads loans self.old self.new) }
        ensures visits { visit_count self.new ≡ visit_count self.old }
        ensures cause { HasMapCause (fault_count self.old) (fault_count self.new)
            (last_failed self.new) (bad self.new) NeverWorn result };

    /// The root's id. It is kept, and an inner node.
    fn root(&self) -> u64
        ensures value { result ≡ (table self.now).root }
        ensures table { IsTable (table self.now) };

    /// The id that the next new node gets.
    fn next_id(&self) -> u64
        ensures value { result ≡ (table self.now).next }
        ensures table { IsTable (table self.now) };

    /// How many nodes it keeps.
    fn kept(&self) -> u64
        ensures { result ≡ kept_count (table self.now) };

    /// How often a node is named.
    fn count(&self, id: u64) -> u64
        requires { IsKept (table self.now) id }
        ensures { result ≡ (table self.now).count id };

    /// A node's level.
    fn level(&self, id: u64) -> u32
        requires { IsKept (table self.now) id }
        ensures { result ≡ (table self.now).level id };

    /// The size in bytes of the messages that wait in the root.
    fn root_size(&self) -> usize
        ensures { result ≡ (table self.now).size };

    /// How many nodes were fetched or made. It stops at a u64's last value.
    fn visits(&self) -> u64
        ensures { result ≡ visit_count self.now };

    /// How often what it stands on has failed. It never falls, and stays at a u64's last value.
    fn faults(&self) -> u64
        ensures { result ≡ fault_count self.now };

    /// No read changes nothing.
    ghost reads_none: { (s : Self) → reads s s };

    /// What two reads change, one after the other, reads change.
    ghost reads_both: { (a b c : Self) → reads a b → reads b c → reads a c };

    /// What is known after reads was known before them.
    ghost reads_known: { (a b : Self) → reads a b → is_known b → is_known a };

    /// Reads change no more than any call may.
    ghost reads_keep: { (a b : Self) → reads a b → keeps a b };

    /// What two calls may change, one after the other, calls may.
    ghost keeps_both: { (a b c : Self) → keeps a b → keeps b c → keeps a c };
}

impl<S: NodeStore> NodeStore for &mut S {
    ghost is_known = { λ s. S.is_known s.now };

    ghost nodes = { λ s. S.nodes s.now };

    ghost table = { λ s. S.table s.now };

    ghost visit_count = { λ s. S.visit_count s.now };

    ghost fault_count = { λ s. S.fault_count s.now };

    ghost last_failed = { λ s. S.last_failed s.now };

    ghost bad = { λ s. S.bad s.now };

    ghost reads = { λ a b. S.reads a.now b.now };

    ghost keeps = { λ a b. S.keeps a.now b.now };

    ghost loans = { λ s. s.ghost_name ∷ S.loans s.now };

    ghost reads_none = { λ s. S.reads_none s.now };

    ghost reads_both = { λ a b c. S.reads_both a.now b.now c.now };

    ghost reads_known = { λ a b. S.reads_known a.now b.now };

    ghost reads_keep = { λ a b. S.reads_keep a.now b.now };

    ghost keeps_both = { λ a b c. S.keeps_both a.now b.now c.now };

    fn fetch(&mut self, id: u64) -> Result<Rc<Node>, MapFault> {
        NodeStore::fetch(&mut **self, id)
    }

    fn commit(&mut self, step: Step) -> Result<(), MapFault> {
        NodeStore::commit(&mut **self, step)
    }

    fn append(&mut self, list: Messages) -> Result<(), MapFault> {
        NodeStore::append(&mut **self, list)
    }

    fn extend(&mut self, made: Items<Node>, list: Messages) -> Result<(), MapFault> {
        NodeStore::extend(&mut **self, made, list)
    }

    fn push_down(&mut self, push: Push) -> Result<(), MapFault> {
        NodeStore::push_down(&mut **self, push)
    }

    fn root(&self) -> u64 {
        NodeStore::root(&**self)
    }

    fn next_id(&self) -> u64 {
        NodeStore::next_id(&**self)
    }

    fn kept(&self) -> u64 {
        NodeStore::kept(&**self)
    }

    fn count(&self, id: u64) -> u64 {
        NodeStore::count(&**self, id)
    }

    fn level(&self, id: u64) -> u32 {
        NodeStore::level(&**self, id)
    }

    fn root_size(&self) -> usize {
        NodeStore::root_size(&**self)
    }

    fn visits(&self) -> u64 {
        NodeStore::visits(&**self)
    }

    fn faults(&self) -> u64 {
        NodeStore::faults(&**self)
    }
}
