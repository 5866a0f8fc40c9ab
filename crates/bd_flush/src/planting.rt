//! Messages go down from a node to a new leaf.

ghost use Rattle.std.specs.Prelude.{◌≡◌, ◌<◌, ◌≤◌, length, IfOk, OnOk, OnErr};
ghost use Rattle.bd_message.specs.KeyMaps.{HasMapCause};
ghost use Rattle.bd_node.specs.Frames.{OfSound, OnlyReads, Stays};
ghost use Rattle.bd_node.specs.declared.node.Edge.{Edge};
ghost use Rattle.bd_node.specs.Shape.{IsShape};
ghost use Rattle.bd_node.specs.Stores.{visited};
ghost use Rattle.bd_node.specs.Parts.{edges_of, IsEdgeAt};
ghost use Rattle.bd_path.specs.Flushed.{IsFlushed, IsNoHigher};
ghost use Rattle.bd_path.specs.Made.{IsMadeBy, IsWornFor};
ghost use Rattle.bd_path.specs.Paths.{leaf_step};
ghost use Rattle.bd_flush.specs.Pushing.{IsWaitedFor, CanPushNew, IsWay, IsNewLeaf, IsNewStep};
ghost use Rattle.bd_path.specs.Fetching.{IsOwn};

use crate::children::with_edge;
use crate::pushing::{batch_for, seen_by};
use bd_inner::edge_to;
use bd_leaf as leaf;
use bd_message::MapFault;
use bd_node::{Change, Edge, Entries, Node, NodeStore, Step, end_of};
use bd_path::{Fetched, path_step};
use std::alloc::{AllocError, Global};

/// Moves the oldest messages that a private node's edge without a child hasn't seen, at least one
/// and at most 16,384 bytes, to a leaf that is made. The node was fetched before.
pub fn push_new<S: NodeStore>(
    alloc: Global,
    store: &mut S,
    parent: &Fetched,
    place: usize,
) -> Result<(), MapFault>
    requires can { CanPushNew (S.table store.old) parent.now place }
    requires own { OfSound S.NodeStore store.old
        (IsOwn (S.nodes store.old) (S.table store.old) parent.now) }
    ensures flushed { OfSound S.NodeStore store.old
        (OnOk result (IsFlushed (S.nodes store.old) (S.table store.old)
        (S.nodes store.new) (S.table store.new))) }
    ensures made { OfSound S.NodeStore store.old
        (OnOk result (IsMadeBy (IsNewStep (S.table store.old).root (S.table store.old).next
        parent.now place) (S.nodes store.old) (S.table store.old)
        (S.nodes store.new) (S.table store.new))) }
    ensures table { OnOk result (IsNoHigher (S.table store.old) (S.table store.new)) }
    ensures stays { Stays S.NodeStore store.old store.new }
    ensures err { OnErr result (OnlyReads S.NodeStore store.old store.new) }
    ensures visits { OnOk result
        (S.visit_count store.new ≡ visited (S.visit_count store.old) 1) }
    ensures err_visits { OnErr result (S.visit_count store.new ≡ S.visit_count store.old) }
    ensures cause { HasMapCause (S.fault_count store.old) (S.fault_count store.new)
        (S.last_failed store.new) (S.bad store.new) (IsWornFor (IsNewStep (S.table store.old).root
        (S.table store.old).next parent.now place) ⊥ (S.table store.old)) result }
{
    let root = store.root();
    let next = store.next_id();
    let step = new_step(alloc, root, next, parent, place)?;
    store.commit(step)
}

// The step of a push to a new leaf.
fn new_step(
    alloc: Global,
    root: u64,
    next: u64,
    parent: &Fetched,
    place: usize,
) -> Result<Step, AllocError>
    requires shape { IsShape parent.now.node.value }
    requires within { place < length (edges_of parent.now.node.value) }
    requires next { 1 ≤ next }
    requires waiting { (e : Edge) → IsEdgeAt parent.now.node.value place e
        → IsWaitedFor parent.now.node.value place e }
    ensures { IfOk result (λ step. IsNewStep root next parent.now place step) }
{
    let node: &Node = &parent.node;
    let (above, entries) = new_leaf(alloc, node, place, next)?;
    leaf_step(alloc, root, parent.id, above, entries)
}

// A node after messages have gone down to a new leaf, and the leaf's entries.
fn new_leaf(
    alloc: Global,
    node: &Node,
    place: usize,
    next: u64,
) -> Result<(Node, Entries), AllocError>
    requires shape { IsShape node.now }
    requires within { place < length (edges_of node.now) }
    requires next { 1 ≤ next }
    requires waiting { (e : Edge) → IsEdgeAt node.now place e → IsWaitedFor node.now place e }
    ensures { IfOk result (λ made. (e : Edge) → IsEdgeAt node.now place e
        → IsNewLeaf node.now place e next made.0 made.1) }
{
    let edge = way(alloc, node, place, next)?;
    let batch = batch_for(alloc, node, place, &edge)?;
    let entries = leaf::receive(alloc, &[], batch.messages.as_slice())?;
    let above = with_edge(alloc, node, place, seen_by(&edge, batch.count)?)?;
    Ok((above, entries))
}

// The way of a node's edge to a new child.
fn way(alloc: Global, node: &Node, place: usize, child: u64) -> Result<Edge, AllocError>
    requires shape { IsShape node.now }
    requires within { place < length (edges_of node.now) }
    ensures { IfOk result (λ f. (e : Edge) → IsEdgeAt node.now place e
        → IsWay node.now place child e f) }
{
    let edges = node.edges();
    edge_to(alloc, &edges[place], end_of(edges, place), child)
}

// The step that changes a node and makes a leaf.
fn leaf_step(
    alloc: Global,
    root: u64,
    parent: u64,
    node: Node,
    entries: Entries,
) -> Result<Step, AllocError>
    ensures { IfOk result (λ step. step ≡ leaf_step root parent node entries) }
{
    let mut made = Vec::new(alloc);
    made.push(Node::Leaf(entries))?;
    path_step(
        alloc,
        root,
        Change { id: parent, node },
        Vec::new(alloc),
        made,
    )
}
