//! Inner nodes with other edges in place of one.

ghost use Rattle.std.specs.Prelude.{◌+◌, ◌<◌, ◌≤◌, ◌≡◌, ◌++◌, length, take, drop, IfOk};
ghost use Rattle.std.specs.Option.{option_copied};
ghost use Rattle.bd_limits.specs.Limits.{key_limit};
ghost use Rattle.bd_keys.specs.Keys.{IsBelowEnd, IsLift};
ghost use Rattle.bd_node.specs.declared.node.Edge.{Edge};
ghost use Rattle.bd_node.specs.Shape.{IsShape};
ghost use Rattle.bd_node.specs.Compaction.{IsCompacted};
ghost use Rattle.bd_node.specs.Parts.{edges_of, IsEdgeAt};
ghost use Rattle.bd_inner.specs.Exchanging.{FitsAt, way_to};
ghost use Rattle.bd_node.specs.Pushes.{exchanged};

use crate::compaction::sweep;
use bd_keys::{Bytes, lift};
use bd_node::{Edge, Edges, Items, Node};
use std::alloc::{AllocError, Global};

/// A copy of an inner node with other edges in place of one, and without the messages that are then
/// pending for no edge. The edges have the keys of the one at the place, and there are at most 16
/// then.
pub fn exchange(alloc: Global, node: &Node, place: usize, list: Edges) -> Result<Node, AllocError>
    requires shape { IsShape node.now }
    requires within { place < length (edges_of node.now) }
    requires fits { (e : Edge) → IsEdgeAt node.now place e → FitsAt node.now place e list }
    ensures node { IfOk result (λ n. IsCompacted (exchanged node.now place list) n) }
    ensures shape { IfOk result IsShape }
{
    match node {
        Node::Leaf(_) => unreachable!(),
        Node::Inner {
            level,
            edges,
            buffer,
        } => {
            let edges = spliced(alloc, edges.as_slice(), place, list)?;
            sweep(alloc, *level, edges, buffer)
        }
    }
}

/// The way of an edge, whose keys end at `hi`, to a new child: all bytes that the edge's keys have
/// in common are left out, and nothing is put in their place.
pub fn edge_to(
    alloc: Global,
    edge: &Edge,
    hi: Option<&[u8]>,
    child: u64,
) -> Result<Edge, AllocError>
    requires rising { IsBelowEnd edge.now.pivot (option_copied hi) }
    requires short { length edge.now.pivot ≤ key_limit }
    ensures edge { IfOk result (λ e. e ≡ way_to edge.now e.lift child) }
    ensures lift { IfOk result (λ e. IsLift edge.now.pivot (option_copied hi.entry) e.lift) }
{
    Ok(Edge {
        pivot: edge.pivot.clone()?,
        lift: lift(edge.pivot.as_slice(), hi) as u16,
        source: Bytes::from_vec(Vec::new(alloc)),
        child: Some(child),
        seen: edge.seen,
    })
}

// Edges with others in place of the one at a place.
fn spliced(alloc: Global, edges: &[Edge], place: usize, list: Edges) -> Result<Edges, AllocError>
    requires { place < length edges.now }
    ensures { IfOk result (λ made.
        made ≡ take place edges.now ++ (list ++ drop (place + 1) edges.now)) }
{
    let (front, _) = edges.split_at(place);
    let (_, back) = edges.split_at(place + 1);
    let mut made = front.to_vec(alloc)?;
    made.append(&mut list.into_vec())?;
    made.append(&mut back.to_vec(alloc)?)?;
    Ok(Items::from_vec(made))
}
