//! Whether edges and messages are those of a well-formed inner node.

ghost use Rattle.std.specs.Prelude.{◌≡◌, ◌≤◌, ◌↔◌, ℕ, [], Some, IsTrue, slice_get, length, take};
ghost use Rattle.std.specs.Option.{option_copied};
ghost use Rattle.std.specs.List.{AllByRecursion, sum_by};
ghost use Rattle.bd_keys.specs.Keys.{IsBelowEnd, IsCommon};
ghost use Rattle.bd_limits.specs.Limits.{buffer_limit};
ghost use Rattle.bd_message.specs.Messages.{IsMessage, size};
ghost use Rattle.bd_message.specs.declared.message.Message.{Message};
ghost use Rattle.bd_node.specs.Shape.{IsInner, IsEdge, IsChild, IsPending, EachEdge, SomeEdge, AreRising, end_before};

use bd_keys::lift;
use bd_limits::{MAX_BUFFER, MAX_EDGES, MAX_KEY, MAX_LEVEL};
use bd_message::Message;
use bd_node::{Edge, is_pending};

/// Whether these are the level, the edges and the messages of a well-formed inner node.
pub fn is_inner(level: u32, edges: &[Edge], buffer: &[Message]) -> bool
    ensures { IsTrue result ↔ IsInner level edges.now buffer.now }
{
    level >= 1
        && level <= MAX_LEVEL
        && edges.len() <= MAX_EDGES
        && begins_empty(edges)
        && are_edges(buffer.len(), edges)
        && are_messages(buffer)
        && fits(buffer)
        && are_pending(edges, buffer)
}

// Whether there is a first edge, and its pivot is the empty key.
fn begins_empty(edges: &[Edge]) -> bool
    ensures { IsTrue result ↔ (end_before edges.now ≡ Some []) }
{
    match edges {
        [] => false,
        [first, ..] => first.pivot.is_empty(),
    }
}

// Whether each of these is an edge over a buffer of so many messages.
fn are_edges(buffered: usize, edges: &[Edge]) -> bool
    ensures { IsTrue result ↔ EachEdge (IsEdge buffered) edges.now }
{
    let Some((edge, rest)) = edges.split_first() else {
        return true;
    };
    is_edge(buffered, edge, end_before(rest)) && are_edges(buffered, rest)
}

// Where the keys of the edge before these end.
fn end_before(edges: &[Edge]) -> Option<&[u8]>
    ensures { option_copied result ≡ end_before edges.now }
{
    match edges {
        [] => None,
        [edge, ..] => Some(edge.pivot.as_slice()),
    }
}

// Whether this is an edge whose keys end there, over a buffer of so many messages.
fn is_edge(buffered: usize, edge: &Edge, hi: Option<&[u8]>) -> bool
    ensures { IsTrue result ↔ IsEdge buffered edge.now (option_copied hi.entry) }
{
    let pivot = edge.pivot.as_slice();
    pivot.len() <= MAX_KEY
        && is_below_end(pivot, hi)
        && is_common(edge.lift as usize, pivot, hi)
        && edge.source.len() <= MAX_KEY
        && is_child(edge.child, edge.source.as_slice())
        && edge.seen as usize <= buffered
}

// Whether the first bytes of a key, so many, are common to all keys from it up to an end.
fn is_common(count: usize, key: &[u8], hi: Option<&[u8]>) -> bool
    requires { IsBelowEnd key.now (option_copied hi) }
    ensures { IsTrue result ↔ ((count ≤ length key.now)
        × IsCommon key.now (option_copied hi.entry) (take count key.now)) }
{
    count <= lift(key, hi)
}

// Whether a key is below an end.
fn is_below_end(key: &[u8], hi: Option<&[u8]>) -> bool
    ensures { IsTrue result ↔ IsBelowEnd key.now (option_copied hi.entry) }
{
    match hi {
        Some(hi) => key.cmp(hi).is_lt(),
        None => true,
    }
}

// Whether a child can be asked at a source: its id isn't 0, and without one there is no source.
fn is_child(child: Option<u64>, source: &[u8]) -> bool
    ensures { IsTrue result ↔ IsChild child source.now }
{
    match child {
        Some(id) => id != 0,
        None => source.is_empty(),
    }
}

// Whether the parts of each message are as long as they may be.
fn are_messages(buffer: &[Message]) -> bool
    ensures { IsTrue result ↔ AllByRecursion IsMessage buffer.now }
{
    for message in buffer {
        if !message.is_message() {
            return false;
        }
    }
    true
}

// Whether messages count no more bytes than a node may have.
fn fits(buffer: &[Message]) -> bool
    requires { AllByRecursion IsMessage buffer.now }
    ensures { IsTrue result ↔ (sum_by size buffer.now ≤ buffer_limit) }
{
    let mut left = MAX_BUFFER;
    for message in buffer {
        let size = message.size();
        if size > left {
            return false;
        }
        left -= size;
    }
    true
}

// Whether each message is pending for some edge.
fn are_pending(edges: &[Edge], buffer: &[Message]) -> bool
    requires { AreRising edges.now }
    ensures { IsTrue result ↔ ((place : ℕ) (m : Message) → slice_get buffer.now place ≡ Some m
        → SomeEdge (IsPending place m) edges.now) }
{
    for (place, message) in buffer.iter().enumerate() {
        if !is_pending(place, message, edges) {
            return false;
        }
    }
    true
}
