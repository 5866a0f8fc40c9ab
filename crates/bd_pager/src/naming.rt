//! Whether nodes name what they may.

ghost use Rattle.std.specs.Prelude.{◌↔◌, IsTrue};
ghost use Rattle.std.specs.List.{AllByRecursion};
ghost use Rattle.bd_node.specs.Nodes.{level_of, names, edge_names, message_names};
ghost use Rattle.bd_pager.specs.Places.{spots_in, IsLowerIn};

use crate::place::Spot;
use bd_message::Message;
use bd_node::{Edge, Node};
use std::collections::HashMap;

/// Whether a node names kept nodes of lower levels alone.
pub fn names_lower(spots: &HashMap<u64, Spot>, node: &Node) -> bool
    ensures { IsTrue result
        ↔ AllByRecursion (IsLowerIn (spots_in spots.now) (level_of node.now)) (names node.now) }
{
    match node {
        Node::Leaf(_) => true,
        Node::Inner {
            level,
            edges,
            buffer,
        } => {
            edges_name_lower(spots, *level, edges.as_slice())
                && messages_name_lower(spots, *level, buffer.as_slice())
        }
    }
}

// Whether each edge does.
fn edges_name_lower(spots: &HashMap<u64, Spot>, level: u32, edges: &[Edge]) -> bool
    ensures { IsTrue result ↔ AllByRecursion
        (λ edge. AllByRecursion (IsLowerIn (spots_in spots.now) level) (edge_names edge))
        edges.now }
{
    for edge in edges {
        if !edge_names_lower(spots, level, edge) {
            return false;
        }
    }
    true
}

// Whether an edge does.
fn edge_names_lower(spots: &HashMap<u64, Spot>, level: u32, edge: &Edge) -> bool
    ensures { IsTrue result
        ↔ AllByRecursion (IsLowerIn (spots_in spots.now) level) (edge_names edge.now) }
{
    match edge.child {
        Some(child) => is_lower(spots, level, child),
        None => true,
    }
}

// Whether each message does.
fn messages_name_lower(spots: &HashMap<u64, Spot>, level: u32, messages: &[Message]) -> bool
    ensures { IsTrue result ↔ AllByRecursion
        (λ message. AllByRecursion (IsLowerIn (spots_in spots.now) level) (message_names message))
        messages.now }
{
    for message in messages {
        if !message_names_lower(spots, level, message) {
            return false;
        }
    }
    true
}

// Whether a message does.
fn message_names_lower(spots: &HashMap<u64, Spot>, level: u32, message: &Message) -> bool
    ensures { IsTrue result
        ↔ AllByRecursion (IsLowerIn (spots_in spots.now) level) (message_names message.now) }
{
    match message {
        Message::Goto { child, .. } => is_lower(spots, level, *child),
        Message::Put { .. } => true,
        Message::Del { .. } => true,
        Message::Patch { .. } => true,
        Message::Cut { .. } => true,
    }
}

// Whether it is a kept node of a lower level.
fn is_lower(spots: &HashMap<u64, Spot>, level: u32, id: u64) -> bool
    ensures { IsTrue result ↔ IsLowerIn (spots_in spots.now) level id }
{
    match spots.get(&id) {
        Some(spot) => spot.refs >= 1 && spot.level < level,
        None => false,
    }
}
