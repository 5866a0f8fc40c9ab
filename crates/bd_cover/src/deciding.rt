//! What messages make of edges all of whose keys they decide.

ghost use Rattle.std.specs.Prelude.{◌≡◌, ◌+◌, ◌<◌, ◌≤◌, ◌^◌, ◌∷◌, ◌++◌, length, take, drop, IfOk};
ghost use Rattle.bd_message.specs.Messages.{IsMessage};
ghost use Rattle.bd_node.specs.Parts.{edges_of};
ghost use Rattle.bd_node.specs.Shape.{AreRising, IsShape};
ghost use Rattle.bd_node.specs.Compaction.{IsLooseNode, IsCompacted};
ghost use Rattle.bd_path.specs.Paths.{change_step};
ghost use Rattle.bd_cover.specs.declared.covering.Cover.{Cover};
ghost use Rattle.bd_cover.specs.Covering.{IsCovered, decided_edge, IsRun, joined, IsDecided};
ghost use Rattle.bd_cover.specs.Reclaimed.{IsDecideStep};

use crate::Cover;
use crate::covering::newest;
use bd_inner::sweep;
use bd_keys::Bytes;
use bd_message::Message;
use bd_node::{Edge, Edges, Items, Node, Step, end_of};
use bd_path::{Fetched, change_step};
use std::alloc::{AllocError, Global};

/// The step that changes a node to what the message at a place makes of its edge at a place, and of
/// the neighbours that become one with it.
pub fn decide_step(
    alloc: Global,
    root: u64,
    node: &Fetched,
    place: usize,
    at: usize,
) -> Result<Step, AllocError>
    requires shape { IsShape node.now.node.value }
    requires covered { (cover : Cover) × IsCovered cover node.now.node.value place at }
    ensures { IfOk result (IsDecideStep root node.now place at) }
{
    let made = decided(alloc, &node.node, place, at)?;
    change_step(alloc, root, node.id, made)
}

// A copy of a node with what the message at a place makes of the edge at a place, and of the
// neighbours that become one with it.
fn decided(alloc: Global, node: &Node, place: usize, at: usize) -> Result<Node, AllocError>
    requires shape { IsShape node.now }
    requires covered { (cover : Cover) × IsCovered cover node.now place at }
    ensures { IfOk result (IsDecided node.now place at) }
{
    let edges = node.edges();
    let buffer = node.buffer();
    let edge = decided_edge(alloc, &edges[place], at, &buffer[at])?;
    let (_, after) = edges.split_at(place + 1);
    let count = run_length(after, buffer, at);
    join(alloc, node, place, count, edge)
}

// How many of the first of these edges are such that the newest Goto which decides all keys of the
// edge stands at a place of the buffer.
fn run_length(edges: &[Edge], buffer: &[Message], at: usize) -> usize
    requires { AreRising edges.now }
    ensures run { IsRun buffer.now at edges.now result }
    ensures within { result ≤ length edges.now }
{
    let [edge, rest @ ..] = edges else {
        return 0;
    };
    if newest(Cover::Elsewhere, edge, end_of(edges, 0), buffer) == Some(at) {
        1 + run_length(rest, buffer, at)
    } else {
        0
    }
}

// A copy of a node with an edge in place of the one at a place and of so many after it, and without
// the messages that are then pending for no edge.
fn join(
    alloc: Global,
    node: &Node,
    place: usize,
    count: usize,
    edge: Edge,
) -> Result<Node, AllocError>
    requires within { place + 1 + count ≤ length (edges_of node.now) }
    requires loose { IsLooseNode (joined node.now place count edge) }
    ensures { IfOk result (IsCompacted (joined node.now place count edge)) }
{
    match node {
        Node::Leaf(_) => unreachable!(),
        Node::Inner {
            level,
            edges,
            buffer,
        } => {
            let edges = joined(alloc, edges.as_slice(), place, count, edge)?;
            sweep(alloc, *level, edges, buffer)
        }
    }
}

// The edges with another one in place of the one at a place and of so many after it.
fn joined(
    alloc: Global,
    edges: &[Edge],
    place: usize,
    count: usize,
    edge: Edge,
) -> Result<Edges, AllocError>
    requires { place + 1 + count ≤ length edges.now }
    ensures { IfOk result (λ list.
        list ≡ take place edges.now ++ edge ∷ drop count (drop (place + 1) edges.now)) }
{
    let (front, _) = edges.split_at(place);
    let (_, after) = edges.split_at(place + 1);
    let (_, back) = after.split_at(count);
    let mut list = front.to_vec(alloc)?;
    list.push(edge)?;
    list.append(&mut back.to_vec(alloc)?)?;
    Ok(Items::from_vec(list))
}

// What the message at a place makes of an edge all of whose keys it decides.
fn decided_edge(
    alloc: Global,
    edge: &Edge,
    at: usize,
    message: &Message,
) -> Result<Edge, AllocError>
    requires message { IsMessage message.now }
    requires low { at + 1 < 2 ^ 32 }
    ensures { IfOk result (λ made. made ≡ decided_edge edge.now at message.now) }
{
    let seen = at as u32 + 1;
    match message {
        Message::Cut { .. } => Ok(Edge {
            pivot: edge.pivot.clone()?,
            lift: 0,
            source: Bytes::from_vec(Vec::new(alloc)),
            child: None,
            seen,
        }),
        Message::Goto {
            prefix,
            source,
            child,
        } => Ok(Edge {
            pivot: edge.pivot.clone()?,
            lift: prefix.len() as u16,
            source: source.clone()?,
            child: Some(*child),
            seen,
        }),
        Message::Put { .. } => edge.clone(),
        Message::Del { .. } => edge.clone(),
        Message::Patch { .. } => edge.clone(),
    }
}
