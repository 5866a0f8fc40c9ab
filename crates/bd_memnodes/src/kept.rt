//! The nodes that are kept, and how often each is named.

ghost use Rattle.std.specs.Prelude.{◌≡◌, ◌+◌, ◌*◌, ◌≤◌, ℕ, [], ◌==◌, if◌then◌else◌, flat_map, vec_len, nat_eq, IsSome};
ghost use Rattle.std.specs.HashMap.{hash_map_len, get};
ghost use Rattle.bd_node.specs.Nodes.{edge_names, message_names, times};
ghost use Rattle.bd_node.specs.Tables.{one_if};
ghost use Rattle.bd_counts.specs.Naming.{times_among};
ghost use Rattle.bd_memnodes.specs.Maps.{nodes_in, count_in, times_of};
ghost use Rattle.bd_counts.specs.Releasing.{IsReleasing};
ghost use Rattle.bd_memnodes.specs.Releasing.{TakesBack, HasRoom, SameHead};

use bd_message::Message;
use bd_node::{Edge, Node};
use std::collections::HashMap;
use std::rc::Rc;

/// The nodes with the counts of their names. It has no invariant: within a step the counts are
/// those after it while nodes still go.
#[derive(Drop)]
pub struct Kept {
    pub nodes: HashMap<u64, Rc<Node>>,
    pub counts: HashMap<u64, u64>,
    /// The nodes that are gone whose names are still counted; room for all that there are.
    pub dead: Vec<Rc<Node>>,
    pub root: u64,
    /// The bytes of the messages that wait in the root.
    pub size: usize,
    pub next: u64,
}

impl Kept {
    /// Takes back one name of a node, which goes if it was the last.
    pub fn take_back(&mut self, id: u64)
        requires counted { 1 ≤ count_in self.old.counts id }
        requires room { HasRoom self.old }
        ensures counts { (c : ℕ)
            → count_in self.new.counts c + one_if id c ≡ count_in self.old.counts c }
        ensures taken { TakesBack (one_if id) self.old self.new }
        ensures room { HasRoom self.new }
        ensures moved { 2 * hash_map_len self.new.nodes + vec_len self.new.dead
            ≤ 2 * hash_map_len self.old.nodes + vec_len self.old.dead }
        ensures head { SameHead self.old self.new }
    {
        let count = count_of(&self.counts, id);
        if count > 1 {
            set_count(&mut self.counts, id, count - 1);
            return;
        }
        let _ = self.counts.remove(&id);
        if let Some(node) = self.nodes.remove(&id) {
            match self.dead.push(node) {
                Ok(()) => {}
                Err(_) => unreachable!(),
            }
        }
    }

    /// Takes back the names of edges.
    pub fn take_back_edges(&mut self, edges: &[Edge])
        requires counted { (c : ℕ)
            → times_among (flat_map edge_names edges.now) c ≤ count_in self.old.counts c }
        requires room { HasRoom self.old }
        ensures counts { (c : ℕ) → count_in self.new.counts c
            + times_among (flat_map edge_names edges.now) c ≡ count_in self.old.counts c }
        ensures taken { TakesBack (times_among (flat_map edge_names edges.now)) self.old self.new }
        ensures room { HasRoom self.new }
        ensures moved { 2 * hash_map_len self.new.nodes + vec_len self.new.dead
            ≤ 2 * hash_map_len self.old.nodes + vec_len self.old.dead }
        ensures head { SameHead self.old self.new }
    {
        for edge in edges {
            if let Some(child) = edge.child {
                self.take_back(child);
            }
        }
    }

    /// Takes back the names of messages.
    pub fn take_back_messages(&mut self, messages: &[Message])
        requires counted { (c : ℕ)
            → times_among (flat_map message_names messages.now) c ≤ count_in self.old.counts c }
        requires room { HasRoom self.old }
        ensures counts { (c : ℕ) → count_in self.new.counts c
            + times_among (flat_map message_names messages.now) c ≡ count_in self.old.counts c }
        ensures taken { TakesBack (times_among (flat_map message_names messages.now)) self.old
            self.new }
        ensures room { HasRoom self.new }
        ensures moved { 2 * hash_map_len self.new.nodes + vec_len self.new.dead
            ≤ 2 * hash_map_len self.old.nodes + vec_len self.old.dead }
        ensures head { SameHead self.old self.new }
    {
        for message in messages {
            if let Message::Goto { child, .. } = message {
                self.take_back(*child);
            }
        }
    }

    /// Takes back the names of a node.
    pub fn take_back_names(&mut self, node: &Node)
        requires counted { (c : ℕ) → times node.now c ≤ count_in self.old.counts c }
        requires room { HasRoom self.old }
        ensures taken { TakesBack (times node.now) self.old self.new }
        ensures room { HasRoom self.new }
        ensures moved { 2 * hash_map_len self.new.nodes + vec_len self.new.dead
            ≤ 2 * hash_map_len self.old.nodes + vec_len self.old.dead }
        ensures head { SameHead self.old self.new }
    {
        match node {
            Node::Leaf(_) => {}
            Node::Inner { edges, buffer, .. } => {
                self.take_back_edges(edges.as_slice());
                self.take_back_messages(buffer.as_slice());
            }
        }
    }

    /// Lets the nodes go that nothing names, and takes back their names in turn.
    pub fn drop_dead(&mut self)
        requires releasing { IsReleasing (nodes_in self.old.nodes) self.old.next self.old.root
            (nodes_in self.old.nodes) (count_in self.old.counts) (times_of self.old.dead.items) }
        requires room { HasRoom self.old }
        ensures dropped { IsReleasing (nodes_in self.old.nodes) self.old.next self.old.root
            (nodes_in self.new.nodes) (count_in self.new.counts) (λ c. 0) }
        ensures none { self.new.dead.items ≡ [] }
        ensures head { SameHead self.old self.new }
    {
        while let Some(node) = self.dead.pop() {
            self.take_back_names(&node);
        }
    }
}

/// How often a node is named.
pub fn count_of(counts: &HashMap<u64, u64>, id: u64) -> u64
    ensures { result ≡ count_in counts.now id }
{
    counts.get(&id).copied().unwrap_or(0)
}

/// Sets a count that there is.
pub fn set_count(counts: &mut HashMap<u64, u64>, id: u64, count: u64)
    requires { IsSome (get nat_eq counts.old id) }
    ensures { (c : ℕ) → get nat_eq counts.new c
        ≡ (if id == c then Some count else get nat_eq counts.old c) }
{
    if let Some(place) = counts.get_mut(&id) {
        *place = count;
    }
}
