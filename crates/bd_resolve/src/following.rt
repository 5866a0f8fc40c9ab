//! What answers for all keys that begin with a prefix, at one node.

ghost use Rattle.std.specs.Prelude.{◌≡◌, ◌↔◌, ℕ, List, true, IfOk, IsTrue};
ghost use Rattle.std.specs.Option.{option_copied};
ghost use Rattle.bd_keys.specs.Keys.{IsKey, IsBelowEnd, InRange};
ghost use Rattle.bd_message.specs.Effect.{begins};
ghost use Rattle.bd_node.specs.Shape.{AreRising, SomeEdge, IsShape};
ghost use Rattle.bd_resolve.specs.declared.following.Followed.TheVariants as followed;
ghost use Rattle.bd_resolve.specs.Following.{GoesOn, IsMostSeen, IsFollowed, IsSpreadOver, IsThroughEdge, IsCoverAt, IsPastCover, edge_target, LeadsTo};

use crate::covering::{covered, joined, newest_cover};
use bd_keys::{Bytes, tail};
use bd_message::Message;
use bd_node::{Edge, Node, edge_of, end_before, is_in_range};
use std::alloc::{AllocError, Global};

/// What a node has at keys that begin with a source, by what follows it.
#[derive(Debug, Drop)]
pub struct Target {
    /// The node's id.
    pub child: u64,
    /// The bytes that are put in front.
    pub source: Bytes,
}

/// Where the way of a prefix leads from a node.
#[derive(Debug, Drop)]
pub enum Followed {
    /// It ends there.
    Here,
    /// To a target, or to nothing, and what is there is changed by the node's messages from the
    /// place `newer` on.
    Past {
        newer: usize,
        target: Option<Target>,
    },
}

/// Which one message or edge answers for all keys that begin with a prefix: the newest Goto or Cut
/// that covers it and is pending for each edge with such a key, else the one edge of these keys. The
/// way ends at a leaf, where the prefix is empty, and where its keys are of several edges.
pub fn follow(alloc: Global, node: &Node, prefix: &[u8]) -> Result<Followed, AllocError>
    requires { IsShape node.now }
    ensures leads { IfOk result (LeadsTo node.now prefix.now) }
    ensures followed { IfOk result (IsFollowed node.now prefix.now) }
    ensures bytes { IsKey prefix.now }
{
    match node {
        Node::Leaf(_) => Ok(Followed::Here),
        Node::Inner { edges, buffer, .. } => {
            if prefix.is_empty() {
                return Ok(Followed::Here);
            }
            if is_spread(edges.as_slice(), prefix) {
                spread(alloc, edges.as_slice(), buffer.as_slice(), prefix)
            } else {
                let edge = edge_of(edges.as_slice(), prefix);
                through(alloc, edge, buffer.as_slice(), prefix)
            }
        }
    }
}

// Where a prefix leads whose keys are of several edges.
fn spread(
    alloc: Global,
    edges: &[Edge],
    buffer: &[Message],
    prefix: &[u8],
) -> Result<Followed, AllocError>
    requires { AreRising edges.now }
    ensures { IfOk result (IsSpreadOver edges.now buffer.now prefix.now) }
{
    let seen = most_seen(edges, prefix);
    match newest_cover(buffer, seen, prefix) {
        Some(place) => past(alloc, buffer, place, prefix),
        None => Ok(Followed::Here),
    }
}

// Where a prefix leads whose keys are of one edge.
fn through(
    alloc: Global,
    edge: &Edge,
    buffer: &[Message],
    prefix: &[u8],
) -> Result<Followed, AllocError>
    ensures { IfOk result (IsThroughEdge edge.now buffer.now prefix.now) }
{
    match newest_cover(buffer, edge.seen as usize, prefix) {
        Some(place) => past(alloc, buffer, place, prefix),
        None => asked(alloc, edge, prefix),
    }
}

// Where the message at a place leads.
fn past(
    alloc: Global,
    buffer: &[Message],
    place: usize,
    prefix: &[u8],
) -> Result<Followed, AllocError>
    requires { IsCoverAt buffer.now place prefix.now }
    ensures { IfOk result (IsPastCover buffer.now place prefix.now) }
{
    let target = covered(alloc, &buffer[place], prefix)?;
    Ok(Followed::Past {
        newer: place + 1,
        target,
    })
}

// Where an edge leads.
fn asked(alloc: Global, edge: &Edge, prefix: &[u8]) -> Result<Followed, AllocError>
    ensures { IfOk result (λ f. f ≡ followed.Past edge.now.seen (edge_target edge.now prefix.now)) }
{
    let target = match edge.child {
        Some(child) => {
            let source = joined(
                alloc,
                edge.source.as_slice(),
                tail(prefix, edge.lift as usize),
            )?;
            Some(Target { child, source })
        }
        None => None,
    };
    Ok(Followed::Past {
        newer: edge.seen as usize,
        target,
    })
}

// Whether the keys that begin with a prefix are of several edges.
fn is_spread(edges: &[Edge], prefix: &[u8]) -> bool
    ensures { IsTrue result ↔ SomeEdge (GoesOn prefix.now) edges.now }
{
    let [edge, rest @ ..] = edges else {
        return false;
    };
    let pivot = edge.pivot.as_slice();
    (pivot.starts_with(prefix) && prefix.len() < pivot.len()) || is_spread(rest, prefix)
}

// How many messages the edges with keys of a prefix have seen: the most.
fn most_seen(edges: &[Edge], prefix: &[u8]) -> usize
    requires { AreRising edges.now }
    ensures { IsMostSeen edges.now prefix.now result }
{
    let [edge, rest @ ..] = edges else {
        return 0;
    };
    let most = most_seen(rest, prefix);
    if is_under(edge.pivot.as_slice(), end_before(rest), prefix) {
        most.max(edge.seen as usize)
    } else {
        most
    }
}

// Whether some key that is at least `lo` and below `hi` begins with a prefix.
fn is_under(lo: &[u8], hi: Option<&[u8]>, prefix: &[u8]) -> bool
    requires { IsBelowEnd lo.now (option_copied hi) }
    ensures { IsTrue result ↔ ((k : List ℕ) × InRange lo.now (option_copied hi.entry) k
        × (begins k prefix.now ≡ true)) }
{
    lo.starts_with(prefix) || is_in_range(prefix, lo, hi)
}
