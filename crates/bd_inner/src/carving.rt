//! Inner nodes in which the keys of a Goto have edges of their own.

ghost use Rattle.std.specs.Prelude.{◌≡◌, ◌+◌, ◌<◌, ◌≤◌, ◌^◌, false, length, IfOk};
ghost use Rattle.std.specs.Option.{option_copied, option_map};
ghost use Rattle.bd_limits.specs.Limits.{room_edges};
ghost use Rattle.bd_keys.specs.Keys.{IsKey};
ghost use Rattle.bd_message.specs.Messages.{IsMessage, IsPlain};
ghost use Rattle.bd_node.specs.Shape.{IsShape, end_before};
ghost use Rattle.bd_node.specs.Parts.{edges_of};
ghost use Rattle.bd_inner.specs.Carving.{is_below_end, has_inside, from_key, parted, is_own, owned, carved, IsGotoAt, IsGotoEdge, IsEnd, IsCarved};

use crate::compaction::sweep;
use bd_keys::{Bytes, after};
use bd_message::Message;
use bd_node::{Edge, Edges, Items, Node, end_of};
use std::alloc::{AllocError, Global};

/// A copy of an inner node in which the keys of a Goto have edges of their own to the node that it
/// names, as far as their edges haven't seen it: one edge where such edges are neighbours. The
/// messages that are then pending for no edge are left out. The Goto stands at a place of the
/// buffer. There are at most two edges more than in the node, which has at most 14.
pub fn carve(alloc: Global, node: &Node, at: usize) -> Result<Node, AllocError>
    requires shape { IsShape node.now }
    requires goto { IsGotoAt node.now at }
    requires room { length (edges_of node.now) ≤ room_edges }
    ensures node { IfOk result (λ n. IsCarved node.now at n) }
    ensures shape { IfOk result IsShape }
{
    match node {
        Node::Leaf(_) => unreachable!(),
        Node::Inner {
            level,
            edges,
            buffer,
        } => {
            let list = buffer.as_slice();
            let own = goto_edge(alloc, &list[at], at)?;
            let end = prefix_end(alloc, own.pivot.as_slice())?;
            let edges = carved(alloc, edges.as_slice(), &own, as_end(&end))?;
            sweep(alloc, *level, edges, buffer)
        }
    }
}

// The edge of the keys of a Goto that stands at a place.
fn goto_edge(alloc: Global, message: &Message, at: usize) -> Result<Edge, AllocError>
    requires message { IsMessage message.now }
    requires goto { ¬ IsPlain message.now }
    requires low { at + 1 < 2 ^ 32 }
    ensures { IfOk result (IsGotoEdge at message.now) }
{
    match message {
        Message::Goto {
            prefix,
            source,
            child,
        } => Ok(Edge {
            pivot: prefix.clone()?,
            lift: prefix.len() as u16,
            source: source.clone()?,
            child: Some(*child),
            seen: at as u32 + 1,
        }),
        _ => unreachable!(),
    }
}

// Where the keys that begin with a prefix end.
fn prefix_end(alloc: Global, prefix: &[u8]) -> Result<Option<Vec<u8>>, AllocError>
    ensures end { IfOk result (λ end. IsEnd prefix.now (option_map (λ key. key.items) end)) }
    ensures bytes { IfOk result (λ end. IsKey prefix.now) }
{
    match after(alloc, prefix)? {
        Some(end) => Ok(Some(as_key(end))),
        None => Ok(None),
    }
}

// Bytes, which are a key.
fn as_key(bytes: Vec<u8>) -> Vec<u8>
    ensures same { result.items ≡ bytes.items }
    ensures key { IsKey result.items }
{
    bytes
}

// An end as a slice.
fn as_end(end: &Option<Vec<u8>>) -> Option<&[u8]>
    ensures { option_copied result ≡ option_map (λ key. key.items) end.now }
{
    match end {
        Some(end) => Some(end.as_slice()),
        None => None,
    }
}

// The edges, with those of a Goto's own for its keys.
fn carved(
    alloc: Global,
    edges: &[Edge],
    own: &Edge,
    end: Option<&[u8]>,
) -> Result<Edges, AllocError>
    ensures { IfOk result (λ list. list ≡ carved own.now (option_copied end.entry) edges.now) }
{
    let list = parted(alloc, edges, own.seen, own.pivot.as_slice())?;
    let list = match end {
        Some(end) => parted(alloc, list.as_slice(), own.seen, end)?,
        None => list,
    };
    owned(alloc, list.as_slice(), own, end)
}

// The edges, with the one that has a key inside in two, if it has seen fewer messages than that.
fn parted(alloc: Global, edges: &[Edge], seen: u32, key: &[u8]) -> Result<Edges, AllocError>
    ensures { IfOk result (λ list. list ≡ parted seen key.now edges.now) }
{
    let mut list = Vec::new(alloc);
    for (place, edge) in edges.iter().enumerate() {
        list.push(edge.clone()?)?;
        if has_inside(edge, end_of(edges, place), seen, key) {
            list.push(from_key(alloc, edge, key)?)?;
        }
    }
    Ok(Items::from_vec(list))
}

// Whether an edge, whose keys end at `hi`, has seen fewer messages than that, and has a key after
// its first one.
fn has_inside(edge: &Edge, hi: Option<&[u8]>, seen: u32, key: &[u8]) -> bool
    ensures { result ≡ has_inside seen key.now edge.now (option_copied hi.entry) }
{
    edge.seen < seen && edge.pivot.as_slice().cmp(key).is_lt() && is_below_end(key, hi)
}

// Whether a key is below an end.
fn is_below_end(key: &[u8], hi: Option<&[u8]>) -> bool
    ensures { result ≡ is_below_end key.now (option_copied hi.entry) }
{
    match hi {
        Some(hi) => key.cmp(hi).is_lt(),
        None => true,
    }
}

// The edge from another key on.
fn from_key(alloc: Global, edge: &Edge, key: &[u8]) -> Result<Edge, AllocError>
    ensures { IfOk result (λ e. e ≡ from_key edge.now key.now) }
{
    Ok(Edge {
        pivot: Bytes::from_slice(alloc, key)?,
        lift: edge.lift,
        source: edge.source.clone()?,
        child: edge.child,
        seen: edge.seen,
    })
}

// The edges, with one of a Goto's own in place of those that begin at one of its keys and haven't
// seen it, where they are neighbours.
fn owned(alloc: Global, edges: &[Edge], own: &Edge, end: Option<&[u8]>) -> Result<Edges, AllocError>
    ensures { IfOk result (λ list.
        list ≡ owned own.now (option_copied end.entry) false edges.now) }
{
    let mut list = Vec::new(alloc);
    let mut before = false;
    for edge in edges.iter() {
        let is_own = is_own(own, end, edge);
        if !is_own {
            list.push(edge.clone()?)?;
        } else if !before {
            list.push(from_key(alloc, own, edge.pivot.as_slice())?)?;
        }
        before = is_own;
    }
    Ok(Items::from_vec(list))
}

// Whether an edge hasn't seen a Goto, and begins at one of its keys, which end at `end`.
fn is_own(own: &Edge, end: Option<&[u8]>, edge: &Edge) -> bool
    ensures { result ≡ is_own own.now (option_copied end.entry) edge.now }
{
    edge.seen < own.seen
        && edge.pivot.as_slice().starts_with(own.pivot.as_slice())
        && is_below_end(edge.pivot.as_slice(), end)
}
