//! How a step is made in memory that is taken: nothing here fails.

ghost use Rattle.std.specs.Prelude.{◌≡◌, ℕ, ◌+◌, ◌<◌, ◌≤◌, ◌^◌, ◌⊎◌, ◌==◌, if◌then◌else◌, [], length, map, vec_len, vec_capacity, nat_eq, IsSome};
ghost use Rattle.std.specs.List.{AllByRecursion, sum_by};
ghost use Rattle.std.specs.HashMap.{hash_map_len, get, spare};
ghost use Rattle.bd_node.specs.declared.node.Node.{Node};
ghost use Rattle.bd_node.specs.Nodes.{buffer_size};
ghost use Rattle.bd_node.specs.Shape.{IsShape};
ghost use Rattle.bd_node.specs.Tables.{times_in, one_if};
ghost use Rattle.bd_node.specs.Steps.{AreOnce, after, changed_at, given_or, IsStep, StayAbove, IsTableAfter, IsCommitted};
ghost use Rattle.bd_counts.specs.Naming.{times_among, step_names};
ghost use Rattle.bd_memnodes.specs.Maps.{nodes_in, count_in, times_of};
ghost use Rattle.bd_counts.specs.Releasing.{IsReleasing};
ghost use Rattle.bd_memnodes.specs.Releasing.{IsOwing, HasRoom, SameHead};
ghost use Rattle.bd_memnodes.specs.Plans.{change_of, step_of};
ghost use Rattle.bd_memnodes.specs.Stored.{table_in, HasMemory, IsWhole};
ghost use Rattle.bd_memnodes.specs.Carried.{FitCounts, IsAdded, IsAddedTo, IsExchanged, IsReplaced};

use crate::kept::{Kept, count_of, set_count};
use crate::plan::{Addition, Exchange, Plan};
use bd_node::Node;
use std::collections::HashMap;
use std::mem;
use std::rc::Rc;

impl Kept {
    // Adds a node under the next id, with a count of 0.
    fn add(&mut self, node: Rc<Node>)
        requires nodes { 1 ≤ spare self.old.nodes }
        requires counts { 1 ≤ spare self.old.counts }
        requires next { self.old.next + 1 < 2 ^ 64 }
        requires fresh { count_in self.old.counts self.old.next ≡ 0 }
        ensures nodes { (id : ℕ) → nodes_in self.new.nodes id
            ≡ (if self.old.next == id then Some node.value else nodes_in self.old.nodes id) }
        ensures counts { (c : ℕ) → count_in self.new.counts c ≡ count_in self.old.counts c }
        ensures there { IsSome (get nat_eq self.new.counts self.old.next) }
        ensures others { (c : ℕ) → IsSome (get nat_eq self.old.counts c)
            → IsSome (get nat_eq self.new.counts c) }
        ensures spare_nodes { spare self.old.nodes ≤ spare self.new.nodes + 1 }
        ensures spare_counts { spare self.old.counts ≤ spare self.new.counts + 1 }
        ensures len { hash_map_len self.new.nodes ≤ hash_map_len self.old.nodes + 1 }
        ensures next { self.new.next ≡ self.old.next + 1 }
        ensures dead { self.new.dead ≡ self.old.dead }
        ensures root { self.new.root ≡ self.old.root }
        ensures size { self.new.size ≡ self.old.size }
    {
        match self.nodes.insert(self.next, node) {
            Ok(_) => {}
            Err(_) => unreachable!(),
        }
        match self.counts.insert(self.next, 0) {
            Ok(_) => {}
            Err(_) => unreachable!(),
        }
        self.next += 1;
    }

    // Puts another node in the place of a kept one, which waits until its names are taken back.
    fn exchange(&mut self, id: u64, node: Rc<Node>)
        requires there { IsSome (get nat_eq self.old.nodes id) }
        requires room { vec_len self.old.dead + 1 ≤ vec_capacity self.old.dead }
        ensures nodes { (i : ℕ) → nodes_in self.new.nodes i
            ≡ (if id == i then Some node.value else nodes_in self.old.nodes i) }
        ensures others { (i : ℕ) → IsSome (get nat_eq self.old.nodes i)
            → IsSome (get nat_eq self.new.nodes i) }
        ensures waits { (c : ℕ) → times_of self.new.dead.items c
            ≡ times_of self.old.dead.items c + times_in (nodes_in self.old.nodes id) c }
        ensures dead { vec_len self.new.dead ≡ vec_len self.old.dead + 1 }
        ensures capacity { vec_capacity self.old.dead ≤ vec_capacity self.new.dead }
        ensures len { hash_map_len self.new.nodes ≡ hash_map_len self.old.nodes }
        ensures counts { self.new.counts ≡ self.old.counts }
        ensures head { SameHead self.old self.new }
    {
        if let Ok(Some(old)) = self.nodes.insert(id, node) {
            match self.dead.push(old) {
                Ok(()) => {}
                Err(_) => unreachable!(),
            }
        }
    }

    // Adds nodes under the next ids, in this order.
    fn add_all(&mut self, made: Vec<Rc<Node>>)
        requires nodes { length made.items ≤ spare self.old.nodes }
        requires counts { length made.items ≤ spare self.old.counts }
        requires next { self.old.next + length made.items < 2 ^ 64 }
        requires fresh { (c : ℕ) → self.old.next ≤ c → count_in self.old.counts c ≡ 0 }
        ensures added { IsAdded self.old made.items self.new }
    {
        for node in made {
            self.add(node);
        }
    }

    // Puts other nodes in the place of kept ones, which wait until their names are taken back.
    fn exchange_all(&mut self, changes: Vec<Exchange>)
        requires there { AllByRecursion (λ change. IsSome (get nat_eq self.old.nodes change.id))
            changes.items }
        requires once { AreOnce (map change_of changes.items) }
        requires room { hash_map_len self.old.nodes + vec_len self.old.dead + length changes.items
            ≤ vec_capacity self.old.dead }
        ensures exchanged { IsExchanged self.old changes.items self.new }
        ensures room { HasRoom self.new }
    {
        for change in changes {
            let Exchange { id, node } = change;
            self.exchange(id, node);
        }
    }

    /// Puts other nodes in the place of kept ones that name what these named: no count changes.
    pub fn replace_all(&mut self, changes: Vec<Exchange>)
        requires there { AllByRecursion (λ change. IsSome (get nat_eq self.old.nodes change.id))
            changes.items }
        requires once { AreOnce (map change_of changes.items) }
        requires room { hash_map_len self.old.nodes + vec_len self.old.dead + length changes.items
            ≤ vec_capacity self.old.dead }
        requires shape { (n : Node) → given_or (changed_at (map change_of changes.items)
            self.old.root) (nodes_in self.old.nodes self.old.root) ≡ Some n → IsShape n }
        ensures { IsReplaced self.old changes.items self.new }
    {
        self.exchange_all(changes);
        self.dead.clear();
        self.size = self.root_size();
    }

    /// Puts made nodes under the next ids, and counts the names that come with them.
    pub fn add_counted(&mut self, addition: Addition)
        requires fits { FitCounts self.old (length addition.made.items) addition.names.items }
        requires nodes { length addition.made.items ≤ spare self.old.nodes }
        requires counts { length addition.made.items ≤ spare self.old.counts }
        requires fresh { (c : ℕ) → self.old.next ≤ c → count_in self.old.counts c ≡ 0 }
        requires there { (c : ℕ) → 1 ≤ times_among addition.names.items c
            → (1 ≤ count_in self.old.counts c) ⊎ ((self.old.next ≤ c)
            × (c < self.old.next + length addition.made.items)) }
        ensures { IsAddedTo self.old addition self.new }
    {
        let Addition { made, names } = addition;
        self.add_all(made);
        raise(&mut self.counts, names.as_slice());
    }

    // Puts the nodes of a plan, and counts what they name. What the old ones named, and the old
    // root's pointer, is owed still.
    fn put(&mut self, plan: Plan)
        requires whole { IsWhole self.old }
        requires step { IsStep (table_in self.old) (step_of plan) }
        requires above { StayAbove (nodes_in self.old.nodes) (table_in self.old) (step_of plan) }
        requires names { plan.names.items ≡ step_names (step_of plan) }
        requires fits { FitCounts self.old (length plan.made.items) plan.names.items }
        requires memory { HasMemory (length plan.made.items) (length plan.changes.items) self.old }
        ensures owing { IsOwing (after (nodes_in self.old.nodes) (table_in self.old)
            (step_of plan)) self.new.next self.new.root (one_if self.old.root) self.new }
        ensures room { HasRoom self.new }
        ensures root { self.new.root ≡ plan.root }
        ensures next { self.new.next ≡ self.old.next + length plan.made.items }
    {
        let Plan {
            made,
            changes,
            names,
            root,
        } = plan;
        self.add_all(made);
        raise(&mut self.counts, names.as_slice());
        self.exchange_all(changes);
        self.root = root;
    }

    // Takes back what is owed: a pointer to the old root, and the names in nodes that wait.
    fn settle(&mut self, old_root: u64)
        requires owing { IsOwing (nodes_in self.old.nodes) self.old.next self.old.root
            (one_if old_root) self.old }
        requires room { HasRoom self.old }
        ensures settled { IsReleasing (nodes_in self.old.nodes) self.new.next self.new.root
            (nodes_in self.new.nodes) (count_in self.new.counts) (λ c. 0) }
        ensures idle { self.new.dead.items ≡ [] }
        ensures size { (n : Node) → nodes_in self.new.nodes self.new.root ≡ Some n
            → buffer_size n ≡ self.new.size }
        ensures root { self.new.root ≡ self.old.root }
        ensures next { self.new.next ≡ self.old.next }
    {
        self.take_back(old_root);
        self.drop_dead();
        self.size = self.root_size();
    }

    // The size of the messages that wait in the root.
    fn root_size(&self) -> usize
        requires { (n : Node) → nodes_in self.now.nodes self.now.root ≡ Some n → IsShape n }
        ensures { (n : Node) → nodes_in self.now.nodes self.now.root ≡ Some n
            → buffer_size n ≡ result }
    {
        match self.nodes.get(&self.root) {
            Some(node) => node.buffer_size(),
            None => 0,
        }
    }

    /// Makes a planned step. Nodes that nothing names any more go.
    pub fn carry_out(&mut self, plan: Plan)
        requires whole { IsWhole self.old }
        requires step { IsStep (table_in self.old) (step_of plan) }
        requires above { StayAbove (nodes_in self.old.nodes) (table_in self.old) (step_of plan) }
        requires names { plan.names.items ≡ step_names (step_of plan) }
        requires fits { FitCounts self.old (length plan.made.items) plan.names.items }
        requires memory { HasMemory (length plan.made.items) (length plan.changes.items) self.old }
        ensures committed { IsCommitted (nodes_in self.old.nodes) (table_in self.old)
            (step_of plan) (nodes_in self.new.nodes) (table_in self.new) }
        ensures table { IsTableAfter (table_in self.old) (step_of plan) (table_in self.new) }
        ensures whole { IsWhole self.new }
    {
        let old_root = self.root;
        self.put(plan);
        self.settle(old_root);
    }
}

// Raises the count of each of these names.
fn raise(counts: &mut HashMap<u64, u64>, names: &[u64])
    requires there { (c : ℕ) → 1 ≤ times_among names.now c → IsSome (get nat_eq counts.old c) }
    requires fits { (c : ℕ) → 1 ≤ times_among names.now c
        → count_in counts.old c + times_among names.now c < 2 ^ 64 }
    ensures { (c : ℕ) → count_in counts.new c
        ≡ count_in counts.old c + times_among names.now c }
{
    for name in names {
        let count = count_of(counts, *name);
        set_count(counts, *name, count + 1);
    }
}
