//! Nodes without the messages that are pending for no edge.

ghost use Rattle.std.specs.Prelude.{◌≡◌, [], Some, IfOk, map};
ghost use Rattle.bd_node.specs.Keeping.{stay_count};
ghost use Rattle.bd_node.specs.Shape.{AreRising, end_before};
ghost use Rattle.bd_node.specs.Compaction.{IsLoose, IsLooseNode, IsMask, lowered, IsSwept, IsCompacted};

use bd_node::{Edge, Edges, Items, Messages, Node, is_owned_pending};
use std::alloc::{AllocError, Global};

/// The node without the messages that are pending for no edge. Each edge has then seen fewer by
/// those of them that it had seen.
pub fn compact(alloc: Global, node: &Node) -> Result<Node, AllocError>
    requires { IsLooseNode node.now }
    ensures { IfOk result (λ n. IsCompacted node.now n) }
{
    match node {
        Node::Leaf(entries) => Ok(Node::Leaf(entries.clone()?)),
        Node::Inner {
            level,
            edges,
            buffer,
        } => sweep(alloc, *level, edges.clone()?, buffer),
    }
}

/// The inner node of these edges and of those of these messages that are pending for one of them.
pub fn sweep(alloc: Global, level: u32, edges: Edges, buffer: &Messages) -> Result<Node, AllocError>
    requires { IsLoose level edges buffer.now }
    ensures { IfOk result (λ n. IsSwept level edges buffer.now n) }
{
    let mask = pending_mask(alloc, edges.as_slice(), buffer)?;
    let buffer = buffer.kept(mask.as_slice())?;
    Ok(Node::Inner {
        level,
        edges: lower(edges, &mask),
        buffer,
    })
}

// Whether each message is pending for some edge.
fn pending_mask(alloc: Global, edges: &[Edge], buffer: &Messages) -> Result<Vec<bool>, AllocError>
    requires rising { AreRising edges.now }
    requires first { end_before edges.now ≡ Some [] }
    ensures { IfOk result (λ mask. IsMask mask.items edges.now buffer.now) }
{
    let owners = buffer.owners(edges)?;
    let messages = buffer.as_slice();
    let mut mask = Vec::with_capacity(alloc, messages.len())?;
    for (place, message) in messages.iter().enumerate() {
        mask.push(is_owned_pending(place, message, edges, owners[place]))?;
    }
    Ok(mask)
}

// The edges over the messages that stay.
fn lower(edges: Edges, mask: &[bool]) -> Edges
    ensures { result ≡ map (lowered mask.now) edges }
{
    let mut edges = edges.into_vec();
    for edge in edges.iter_mut() {
        edge.seen = count_staying(mask, edge.seen);
    }
    Items::from_vec(edges)
}

// How many of the first messages stay.
fn count_staying(mask: &[bool], count: u32) -> u32
    ensures { result ≡ stay_count mask.now count }
{
    mask.iter()
        .take(count as usize)
        .filter(|stays| **stays)
        .count() as u32
}
