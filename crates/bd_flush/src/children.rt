//! A child with 15 or 16 edges is split below its parent.

ghost use Rattle.std.specs.Prelude.{◌≡◌, ◌+◌, ◌<◌, ◌≤◌, ◌∷◌, [], length, reverse, IfOk, MatchOption, OnOk, OnErr};
ghost use Rattle.std.specs.Option.{option_copied};
ghost use Rattle.std.specs.List.{AllByRecursion};
ghost use Rattle.bd_limits.specs.Limits.{room_edges, full_edges};
ghost use Rattle.bd_message.specs.KeyMaps.{HasMapCause};
ghost use Rattle.bd_node.specs.Frames.{OfSound, OnlyReads, Stays};
ghost use Rattle.bd_node.specs.declared.node.Edge.{Edge};
ghost use Rattle.bd_node.specs.Shape.{IsShape};
ghost use Rattle.bd_node.specs.Parts.{edges_of, IsEdgeAt};
ghost use Rattle.bd_node.specs.Compaction.{IsCompacted};
ghost use Rattle.bd_inner.specs.Exchanging.{FitsAt};
ghost use Rattle.bd_node.specs.Pushes.{exchanged};
ghost use Rattle.bd_path.specs.Flushed.{IsFlushed};
ghost use Rattle.bd_path.specs.Made.{IsMadeBy, IsWornFor};
ghost use Rattle.bd_flush.specs.Children.{CanSplitChild, AreFamily, parting, upper_edge, IsSide, IsOver, AreParts, IsLongPivot, IsChildStep};
ghost use Rattle.bd_path.specs.Fetching.{IsContents};
ghost use Rattle.bd_path.specs.Paths.{child_step};
ghost use Rattle.bd_path.specs.Raising.{IsWayUp};
ghost use Rattle.bd_flush.specs.Between.{IsSplitStep, IsHighSplit, IsHighAfterSplit};

use crate::between::put_between;
use bd_inner::{Halves, exchange, split};
use bd_keys::Bytes;
use bd_limits::MAX_KEY;
use bd_message::MapFault;
use bd_node::{Change, Edge, Items, Node, NodeStore, Step, end_of};
use bd_path::{Fetched, path_step};
use std::alloc::{AllocError, Global};

/// Splits a child with 15 or 16 edges, below a parent with at most 14. These and the nodes above
/// them were fetched before. The parent is private, no other node names the child, and the edge at
/// the place asks it with nothing in front of a key. The child is one half from now on, and the
/// other half is made if it has keys of the edge. Where the pivot of the halves would have more than
/// 518 bytes in the parent, the child stands between the parent and both halves, which are made, and
/// from the parent on upwards each node rises by one level that isn't above the one below it. Then a
/// root of level 1,000 can't rise, which is `Worn(Level)`.
pub fn split_child<S: NodeStore>(
    alloc: Global,
    store: &mut S,
    above: &[Fetched],
    parent: &Fetched,
    place: usize,
    child: &Fetched,
) -> Result<(), MapFault>
    requires can { CanSplitChild (S.table store.old) parent.now place child.now }
    requires way { IsWayUp (S.table store.old) parent.now.id (reverse above.now) }
    requires family { OfSound S.NodeStore store.old
        (AreFamily (S.nodes store.old) (S.table store.old) parent.now child.now) }
    requires there { OfSound S.NodeStore store.old
        (AllByRecursion (IsContents (S.nodes store.old)) (reverse above.now)) }
    ensures flushed { OfSound S.NodeStore store.old
        (OnOk result (IsFlushed (S.nodes store.old) (S.table store.old)
        (S.nodes store.new) (S.table store.new))) }
    ensures made { OfSound S.NodeStore store.old
        (OnOk result (IsMadeBy (IsSplitStep (S.table store.old) (reverse above.now) parent.now
        place child.now) (S.nodes store.old) (S.table store.old)
        (S.nodes store.new) (S.table store.new))) }
    ensures table { OnOk result (IsHighAfterSplit (S.table store.old) parent.now.node.value place
        child.now.node.value (S.table store.new)) }
    ensures stays { Stays S.NodeStore store.old store.new }
    ensures err { OnErr result (OnlyReads S.NodeStore store.old store.new) }
    ensures few_visits { S.visit_count store.new ≤ S.visit_count store.old + 2 }
    ensures cause { HasMapCause (S.fault_count store.old) (S.fault_count store.new)
        (S.last_failed store.new) (S.bad store.new) (IsWornFor (IsSplitStep (S.table store.old)
        (reverse above.now) parent.now place child.now) (IsHighSplit (reverse above.now) parent.now
        place child.now) (S.table store.old)) result }
{
    let root = store.root();
    let next = store.next_id();
    let Some(step) = child_split(alloc, root, next, parent, place, child)? else {
        let halves = split(alloc, &child.node)?;
        return put_between(alloc, store, above, parent, child, halves);
    };
    store.commit(step)?;
    Ok(())
}

// The step of a child's split, and none where the pivot would be too long in the parent.
fn child_split(
    alloc: Global,
    root: u64,
    next: u64,
    parent: &Fetched,
    place: usize,
    child: &Fetched,
) -> Result<Option<Step>, AllocError>
    requires shape { IsShape parent.now.node.value }
    requires child { IsShape child.now.node.value }
    requires room { length (edges_of parent.now.node.value) ≤ room_edges }
    requires full { full_edges ≤ length (edges_of child.now.node.value) }
    requires within { place < length (edges_of parent.now.node.value) }
    requires next { 1 ≤ next }
    ensures { IfOk result (λ found. MatchOption found
        (IsLongPivot parent.now.node.value place child.now.node.value)
        (λ step. IsChildStep root next parent.now place child.now step)) }
{
    let node: &Node = &parent.node;
    let below: &Node = &child.node;
    match split_below(alloc, node, place, below, next)? {
        Some(Parts { node, half, made }) => Ok(Some(child_step(
            alloc, root, parent.id, node, child.id, half, made,
        )?)),
        None => Ok(None),
    }
}

// A node and its child after the child's split, and what is made.
#[derive(Drop)]
pub struct Parts {
    pub node: Node,
    pub half: Node,
    pub made: Vec<Node>,
}

// A node and its child after the child's split, and none where the pivot would be too long.
fn split_below(
    alloc: Global,
    node: &Node,
    place: usize,
    child: &Node,
    next: u64,
) -> Result<Option<Parts>, AllocError>
    requires shape { IsShape node.now }
    requires child { IsShape child.now }
    requires room { length (edges_of node.now) ≤ room_edges }
    requires full { full_edges ≤ length (edges_of child.now) }
    requires within { place < length (edges_of node.now) }
    requires next { 1 ≤ next }
    ensures { IfOk result (λ found. MatchOption found (IsLongPivot node.now place child.now)
        (AreParts node.now place child.now next)) }
{
    let edge = node.edges()[place].clone()?;
    let halves = split(alloc, child)?;
    match over_halves(alloc, node, place, edge, halves, next)? {
        Halving::Short(parts) => Ok(Some(parts)),
        Halving::Long { .. } => Ok(None),
    }
}

// A node over the halves of its child, or the halves and the edge, where the pivot would be too long.
#[derive(Drop)]
pub enum Halving {
    Short(Parts),
    Long { edge: Edge, halves: Halves },
}

// A node over the halves of a child, with an edge in place of the one that it has there, and what
// is made; or the edge and the halves, where the pivot would be too long.
pub fn over_halves(
    alloc: Global,
    node: &Node,
    place: usize,
    edge: Edge,
    halves: Halves,
    next: u64,
) -> Result<Halving, AllocError>
    requires shape { IsShape node.now }
    requires room { length (edges_of node.now) ≤ room_edges }
    requires within { place < length (edges_of node.now) }
    requires next { 1 ≤ next }
    requires fits { (e : Edge) → IsEdgeAt node.now place e → FitsAt node.now place e (edge ∷ []) }
    ensures { IfOk result (IsOver node.now place edge halves next) }
{
    let Halves {
        first,
        pivot,
        second,
    } = halves;
    let key = parting(alloc, &edge, &pivot)?;
    match asked_side(&edge, end_of(node.edges(), place), key.as_slice()) {
        Side::Lower => Ok(Halving::Short(one_half(alloc, node, place, edge, first)?)),
        Side::Upper => Ok(Halving::Short(one_half(alloc, node, place, edge, second)?)),
        Side::Both => {
            if key.len() > MAX_KEY {
                return Ok(Halving::Long {
                    edge,
                    halves: Halves {
                        first,
                        pivot,
                        second,
                    },
                });
            }
            let node = with_upper(alloc, node, place, edge, key, next)?;
            let mut made = Vec::new(alloc);
            made.push(second)?;
            Ok(Halving::Short(Parts {
                node,
                half: first,
                made,
            }))
        }
    }
}

// A node with an edge in place of one, over one half of its child.
fn one_half(
    alloc: Global,
    node: &Node,
    place: usize,
    edge: Edge,
    half: Node,
) -> Result<Parts, AllocError>
    requires shape { IsShape node.now }
    requires within { place < length (edges_of node.now) }
    requires fits { (e : Edge) → IsEdgeAt node.now place e → FitsAt node.now place e (edge ∷ []) }
    ensures { IfOk result (λ parts. IsCompacted (exchanged node.now place (edge ∷ [])) parts.node
        × (parts.half ≡ half) × (parts.made.items ≡ [])) }
{
    let node = with_edge(alloc, node, place, edge)?;
    Ok(Parts {
        node,
        half,
        made: Vec::new(alloc),
    })
}

// A copy of a node with an edge in place of one.
pub fn with_edge(alloc: Global, node: &Node, place: usize, edge: Edge) -> Result<Node, AllocError>
    requires shape { IsShape node.now }
    requires within { place < length (edges_of node.now) }
    requires fits { (e : Edge) → IsEdgeAt node.now place e → FitsAt node.now place e (edge ∷ []) }
    ensures { IfOk result (IsCompacted (exchanged node.now place (edge ∷ []))) }
{
    let mut list = Vec::new(alloc);
    list.push(edge)?;
    exchange(alloc, node, place, Items::from_vec(list))
}

// Which halves have keys of an edge.
enum Side {
    Lower,
    Both,
    Upper,
}

// Which halves of its child an edge asks whose keys end at `hi`, if they part at a pivot.
fn asked_side(edge: &Edge, hi: Option<&[u8]>, pivot: &[u8]) -> Side
    ensures { IsSide edge.now (option_copied hi.entry) pivot.now result }
{
    if !edge.pivot.as_slice().cmp(pivot).is_lt() {
        return Side::Upper;
    }
    let Some(hi) = hi else {
        return Side::Both;
    };
    if pivot.cmp(hi).is_lt() {
        Side::Both
    } else {
        Side::Lower
    }
}

// A key of an edge's child as one of the edge.
fn parting(alloc: Global, edge: &Edge, pivot: &Bytes) -> Result<Bytes, AllocError>
    requires { edge.now.lift ≤ length edge.now.pivot }
    ensures { IfOk result (λ key. key ≡ parting edge.now pivot.now) }
{
    let mut key = edge.pivot.as_slice()[..edge.lift as usize].to_vec(alloc)?;
    key.extend_from_slice(pivot.as_slice())?;
    Ok(Bytes::from_vec(key))
}

// A copy of a node with an edge for its keys below a pivot in place of one, and with a new edge to
// another child for the others.
fn with_upper(
    alloc: Global,
    node: &Node,
    place: usize,
    edge: Edge,
    pivot: Bytes,
    child: u64,
) -> Result<Node, AllocError>
    requires shape { IsShape node.now }
    requires within { place < length (edges_of node.now) }
    requires fits { (e : Edge) → IsEdgeAt node.now place e
        → FitsAt node.now place e (edge ∷ upper_edge edge pivot child ∷ []) }
    ensures { IfOk result
        (IsCompacted (exchanged node.now place (edge ∷ upper_edge edge pivot child ∷ []))) }
{
    let upper = Edge {
        pivot,
        lift: edge.lift,
        source: edge.source.clone()?,
        child: Some(child),
        seen: edge.seen,
    };
    let mut list = Vec::new(alloc);
    list.push(edge)?;
    list.push(upper)?;
    exchange(alloc, node, place, Items::from_vec(list))
}

// The step that changes a child and the node above it, and makes others.
pub fn child_step(
    alloc: Global,
    root: u64,
    parent: u64,
    node: Node,
    child: u64,
    half: Node,
    made: Vec<Node>,
) -> Result<Step, AllocError>
    ensures { IfOk result (λ step. step ≡ child_step root parent node child half made.items) }
{
    let mut others = Vec::new(alloc);
    others.push(Change { id: parent, node })?;
    let change = Change {
        id: child,
        node: half,
    };
    path_step(alloc, root, change, others, made)
}
