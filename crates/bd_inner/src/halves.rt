//! The halves of an inner node.

ghost use Rattle.std.specs.Prelude.{◌≡◌, ◌≤◌, ◌<◌, ◌^◌, ◌++◌, ◌∷◌, [], length, IfOk};
ghost use Rattle.bd_limits.specs.Limits.{full_edges};
ghost use Rattle.bd_node.specs.declared.node.Node.TheVariants as node;
ghost use Rattle.bd_node.specs.Shape.{IsShape, IsInner};
ghost use Rattle.bd_node.specs.Parts.{edges_of};
ghost use Rattle.bd_inner.specs.Halves.{bare_edge, AreHalves};

use crate::compaction::sweep;
use bd_keys::Bytes;
use bd_node::{Edge, Edges, Items, Messages, Node};
use std::alloc::{AllocError, Global};

/// The halves of a node.
#[derive(Drop)]
pub struct Halves {
    /// The one with the keys below the pivot.
    pub first: Node,
    /// The least key of the second one.
    pub pivot: Bytes,
    /// The one with the keys from the pivot on.
    pub second: Node,
}

/// The halves of a node with 15 or 16 edges. Each half has an edge without a child for the keys of
/// the other one, so that no edge's lift changes, and only those of the messages that are pending for
/// one of its edges.
pub fn split(alloc: Global, node: &Node) -> Result<Halves, AllocError>
    requires shape { IsShape node.now }
    requires full { full_edges ≤ length (edges_of node.now) }
    ensures { IfOk result (AreHalves node.now) }
{
    match node {
        Node::Leaf(_) => unreachable!(),
        Node::Inner {
            level,
            edges,
            buffer,
        } => split_inner(alloc, *level, edges.as_slice(), buffer),
    }
}

// The same of an inner node's parts.
fn split_inner(
    alloc: Global,
    level: u32,
    edges: &[Edge],
    buffer: &Messages,
) -> Result<Halves, AllocError>
    requires inner { IsInner level edges.now buffer.now }
    requires full { full_edges ≤ length edges.now }
    ensures { IfOk result (AreHalves (node.Inner level edges.now buffer.now)) }
{
    let middle = edges.len() / 2;
    let pivot = edges[middle].pivot.clone()?;
    let seen = buffer.len() as u32;
    let (low, high) = edges.split_at(middle);
    let first = sweep(alloc, level, with_end(alloc, low, &pivot, seen)?, buffer)?;
    let second = sweep(alloc, level, with_beginning(alloc, high, seen)?, buffer)?;
    Ok(Halves {
        first,
        pivot,
        second,
    })
}

// The edges, and then one without a child from a pivot on.
fn with_end(alloc: Global, edges: &[Edge], pivot: &Bytes, seen: u32) -> Result<Edges, AllocError>
    ensures { IfOk result (λ half. half ≡ edges.now ++ bare_edge pivot.now seen ∷ []) }
{
    let mut half = edges.to_vec(alloc)?;
    half.push(bare_edge(alloc, pivot.clone()?, seen))?;
    Ok(Items::from_vec(half))
}

// An edge without a child from the empty key on, and then the edges.
fn with_beginning(alloc: Global, edges: &[Edge], seen: u32) -> Result<Edges, AllocError>
    ensures { IfOk result (λ half. half ≡ bare_edge [] seen ∷ edges.now) }
{
    let mut half = edges.to_vec(alloc)?;
    half.insert(0, bare_edge(alloc, Bytes::from_vec(Vec::new(alloc)), seen))?;
    Ok(Items::from_vec(half))
}

// An edge without a child.
fn bare_edge(alloc: Global, pivot: Bytes, seen: u32) -> Edge
    ensures { result ≡ bare_edge pivot seen }
{
    Edge {
        pivot,
        lift: 0,
        source: Bytes::from_vec(Vec::new(alloc)),
        child: None,
        seen,
    }
}
