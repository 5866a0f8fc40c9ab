//! An edge gets a child of its own.

ghost use Rattle.std.specs.Prelude.{◌≡◌, ◌∷◌, [], ◌^◌, ◌<◌, ◌≤◌, length, IfOk, OnOk, OnErr};
ghost use Rattle.bd_message.specs.KeyMaps.{HasMapCause};
ghost use Rattle.bd_node.specs.Frames.{OfSound, OnlyReads, Stays};
ghost use Rattle.bd_node.specs.declared.node.Edge.{Edge};
ghost use Rattle.bd_node.specs.Shape.{IsShape};
ghost use Rattle.bd_node.specs.Stores.{visited};
ghost use Rattle.bd_node.specs.Tables.{IsSound};
ghost use Rattle.bd_node.specs.Parts.{edges_of, IsEdgeAt};
ghost use Rattle.bd_inner.specs.Exchanging.{way_to};
ghost use Rattle.bd_path.specs.Flushed.{IsFlushed, IsNoHigher};
ghost use Rattle.bd_path.specs.Made.{IsMadeBy, IsWornFor};
ghost use Rattle.bd_path.specs.Paths.{path_step};
ghost use Rattle.bd_path.specs.Fetching.{IsOwn};
ghost use Rattle.bd_copy.specs.Copying.{CanPutCopy, IsCopyAt, IsRedirected, IsCopyStep};

use bd_inner::exchange;
use bd_keys::Bytes;
use bd_message::MapFault;
use bd_node::{Change, Edge, Items, Node, NodeStore, Step};
use bd_path::{Fetched, path_step};
use std::alloc::{AllocError, Global};

/// Makes a node the child of a private node's edge that has a child: the node has at each key what
/// that child has behind the edge's source. The edge then asks it with nothing in front of a key.
pub fn put_copy<S: NodeStore>(
    alloc: Global,
    store: &mut S,
    parent: &Fetched,
    place: usize,
    copy: Node,
) -> Result<(), MapFault>
    requires can { CanPutCopy (S.table store.old) parent.now place copy }
    requires own { OfSound S.NodeStore store.old
        (IsOwn (S.nodes store.old) (S.table store.old) parent.now) }
    requires copied { OfSound S.NodeStore store.old
        (IsCopyAt (S.nodes store.old) parent.now.node.value place copy) }
    ensures flushed { OfSound S.NodeStore store.old
        (OnOk result (IsFlushed (S.nodes store.old) (S.table store.old)
        (S.nodes store.new) (S.table store.new))) }
    ensures made { OfSound S.NodeStore store.old
        (OnOk result (IsMadeBy (IsCopyStep (S.table store.old).root (S.table store.old).next
        parent.now place copy) (S.nodes store.old) (S.table store.old)
        (S.nodes store.new) (S.table store.new))) }
    ensures table { OnOk result (IsNoHigher (S.table store.old) (S.table store.new)) }
    ensures stays { Stays S.NodeStore store.old store.new }
    ensures err { OnErr result (OnlyReads S.NodeStore store.old store.new) }
    ensures visits { OnOk result
        (S.visit_count store.new ≡ visited (S.visit_count store.old) 1) }
    ensures err_visits { OnErr result (S.visit_count store.new ≡ S.visit_count store.old) }
    ensures cause { HasMapCause (S.fault_count store.old) (S.fault_count store.new)
        (S.last_failed store.new) (S.bad store.new) (IsWornFor (IsCopyStep (S.table store.old).root
        (S.table store.old).next parent.now place copy) ⊥ (S.table store.old)) result }
{
    let root = store.root();
    let next = store.next_id();
    let step = copy_step(alloc, root, next, parent, place, copy)?;
    store.commit(step)
}

// The step that makes a copy for an edge.
fn copy_step(
    alloc: Global,
    root: u64,
    next: u64,
    parent: &Fetched,
    place: usize,
    copy: Node,
) -> Result<Step, AllocError>
    requires shape { IsShape parent.now.node.value }
    requires within { place < length (edges_of parent.now.node.value) }
    requires next { 1 ≤ next }
    ensures { IfOk result (λ step. IsCopyStep root next parent.now place copy step) }
{
    let node: &Node = &parent.node;
    let above = redirected(alloc, node, place, next)?;
    below_step(alloc, root, parent.id, above, copy)
}

// The step that changes a node, and makes one below it.
fn below_step(
    alloc: Global,
    root: u64,
    parent: u64,
    node: Node,
    copy: Node,
) -> Result<Step, AllocError>
    ensures { IfOk result (λ step. step ≡ path_step root parent node [] (copy ∷ [])) }
{
    let mut made = Vec::new(alloc);
    made.push(copy)?;
    path_step(
        alloc,
        root,
        Change { id: parent, node },
        Vec::new(alloc),
        made,
    )
}

// A copy of a node whose edge at a place asks another child, with nothing in front of a key.
fn redirected(alloc: Global, node: &Node, place: usize, child: u64) -> Result<Node, AllocError>
    requires shape { IsShape node.now }
    requires within { place < length (edges_of node.now) }
    requires child { 1 ≤ child }
    ensures { IfOk result (λ n. (e : Edge) → IsEdgeAt node.now place e
        → IsRedirected node.now place e child n) }
{
    let edge = way_to(alloc, &node.edges()[place], child)?;
    let mut list = Vec::new(alloc);
    list.push(edge)?;
    exchange(alloc, node, place, Items::from_vec(list))
}

// The way of an edge to another child, with nothing in front of what is left of a key.
fn way_to(alloc: Global, edge: &Edge, child: u64) -> Result<Edge, AllocError>
    ensures { IfOk result (λ e. e ≡ way_to edge.now edge.now.lift child) }
{
    Ok(Edge {
        pivot: edge.pivot.clone()?,
        lift: edge.lift,
        source: Bytes::from_vec(Vec::new(alloc)),
        child: Some(child),
        seen: edge.seen,
    })
}
