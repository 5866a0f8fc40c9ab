//! The store in memory.

ghost use Rattle.std.specs.Prelude.{◌≡◌, ℕ, false, length, OnOk, OnErr, IfOk, ⊤};
ghost use Rattle.bd_node.specs.Tables.{IsSound};
ghost use Rattle.bd_node.specs.New.{new_root, new_nodes, new_table};
ghost use Rattle.bd_memnodes.specs.Seen.{nodes_of, table, SameNodes};
ghost use Rattle.bd_memnodes.specs.Reading.{same_nodes-none, same_nodes-both};

use crate::kept::{Kept, count_of};
use bd_keys::Bytes;
use bd_message::MapFault;
use bd_node::{Edge, Edges, Items, Messages, Node, NodeStore, Push, Step};
use std::alloc::{AllocError, Global};
use std::collections::HashMap;
use std::marker::Model;
use std::rc::Rc;

/// A store of nodes in memory. Its nodes are known, and sound from the start on. A call fails where
/// memory is wanting, or where a count or the next id would pass a u64's last value, and then
/// nothing has changed.
///
/// A fetch finds its node by hashing, and copies nothing. A commit takes the time of what the step
/// holds and names, of the nodes that go, and of the messages that wait in the root, however many
/// nodes there are. An append or an extension takes that of its messages and new nodes, unless a
/// caller holds the root. A push takes that of its two nodes, which it copies.
#[derive(Drop)]
pub struct MemNodes {
    alloc: Global,
    kept: Kept,
    visits: u64,
}

impl Model for MemNodes {
    ghost use Rattle.bd_memnodes.specs.Stored.{IsWhole};
    ghost use Rattle.bd_memnodes.specs.Seen.{Seen, seen};

    ghost Value = { Seen };

    ghost view = { λ s. seen s.kept s.visits };

    ghost invariant = { λ s. IsWhole s.kept };
}

impl MemNodes {
    /// A store that has nothing at any key: a root of level 1 without a child.
    pub fn new(alloc: Global) -> Result<MemNodes, AllocError>
        ensures nodes { IfOk result (λ store. nodes_of store ≡ new_nodes) }
        ensures table { IfOk result (λ store. table store ≡ new_table) }
        ensures visits { IfOk result (λ store. store.visits ≡ 0) }
    {
        let mut nodes = HashMap::new(alloc);
        let mut counts = HashMap::new(alloc);
        let root = Rc::new(alloc, childless_root(alloc)?)?;
        nodes.insert(1, root)?;
        counts.insert(1, 1)?;
        Ok(MemNodes {
            alloc,
            kept: Kept {
                nodes,
                counts,
                dead: Vec::new(alloc),
                root: 1,
                size: 0,
                next: 2,
            },
            visits: 0,
        })
    }

    /// How many nodes it keeps.
    pub fn node_count(&self) -> usize
        ensures { result ≡ length self.now.nodes }
    {
        self.kept.nodes.len()
    }

    /// Whatever was done with it before, the nodes are sound. It does nothing.
    pub fn nodes_are_sound(&self)
        ensures { IsSound (nodes_of self.now) (table self.now) }
    {
        let _ = &self.kept;
    }
}

impl NodeStore for MemNodes {
    ghost is_known = { λ _. ⊤ };

    ghost nodes = { nodes_of };

    ghost table = { table };

    ghost visit_count = { λ s. s.visits };

    ghost fault_count = { λ _. 0 };

    ghost last_failed = { λ _. false };

    ghost bad = { λ _ _. ⊥ };

    ghost reads = { SameNodes };

    ghost reads_none = { same_nodes-none };

    ghost reads_both = { same_nodes-both };

    ghost reads_known = { λ a b read known. known };

    ghost keeps = { λ _ _. ⊤ };

    ghost reads_keep = { λ a b read. tt };

    ghost keeps_both = { λ a b c first second. tt };

    fn fetch(&mut self, id: u64) -> Result<Rc<Node>, MapFault> {
        self.visits = self.visits.saturating_add(1);
        match self.kept.nodes.get(&id) {
            Some(node) => Ok(node.clone()?),
            None => unreachable!(),
        }
    }

    fn commit(&mut self, step: Step) -> Result<(), MapFault> {
        let made = step.made.len() as u64;
        match self.kept.commit(self.alloc, step) {
            Ok(()) => {
                self.visits = self.visits.saturating_add(made);
                Ok(())
            }
            Err(fault) => Err(fault),
        }
    }

    fn append(&mut self, list: Messages) -> Result<(), MapFault> {
        self.kept.append(self.alloc, list)
    }

    fn extend(&mut self, made: Items<Node>, list: Messages) -> Result<(), MapFault> {
        let count = made.len() as u64;
        match self.kept.extend(self.alloc, made, list) {
            Ok(()) => {
                self.visits = self.visits.saturating_add(count);
                Ok(())
            }
            Err(fault) => Err(fault),
        }
    }

    fn push_down(&mut self, push: Push) -> Result<(), MapFault> {
        self.kept.push_down(self.alloc, push)
    }

    fn root(&self) -> u64 {
        self.kept.root
    }

    fn next_id(&self) -> u64 {
        self.kept.next
    }

    fn kept(&self) -> u64 {
        self.kept.nodes.len() as u64
    }

    fn count(&self, id: u64) -> u64 {
        count_of(&self.kept.counts, id)
    }

    fn level(&self, id: u64) -> u32 {
        match self.kept.nodes.get(&id) {
            Some(node) => node.level(),
            None => 0,
        }
    }

    fn root_size(&self) -> usize {
        self.kept.size
    }

    fn visits(&self) -> u64 {
        self.visits
    }

    fn faults(&self) -> u64 {
        0
    }
}

// A root of level 1 with one edge and no child.
fn childless_root(alloc: Global) -> Result<Node, AllocError>
    ensures { IfOk result (λ node. node ≡ new_root) }
{
    let edge = Edge {
        pivot: Bytes::from_vec(Vec::new(alloc)),
        lift: 0,
        source: Bytes::from_vec(Vec::new(alloc)),
        child: None,
        seen: 0,
    };
    let mut edges = Vec::new(alloc);
    edges.push(edge)?;
    Ok(Node::Inner {
        level: 1,
        edges: Edges::from_vec(edges),
        buffer: Messages::new(alloc),
    })
}
