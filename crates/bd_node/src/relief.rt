//! What is to change in a node from which messages go down, found before it is changed.

ghost use Rattle.std.specs.Prelude.{◌≡◌, ◌↔◌, ◌⊎◌, ℕ, ◌+◌, ◌^◌, ◌<◌, ◌≤◌, Some, length, map, slice_get, IfOk, IsTrue, MatchOption};
ghost use Rattle.bd_message.specs.declared.message.Message.{Message};
ghost use Rattle.bd_message.specs.Messages.{IsPlain};
ghost use Rattle.bd_node.specs.declared.node.Edge.{Edge};
ghost use Rattle.bd_node.specs.Compaction.{IsMask};
ghost use Rattle.bd_node.specs.Keeping.{stay_count};
ghost use Rattle.bd_node.specs.Pushes.{CanRelieve, FitsNode, IsReliefOf, changed_by, with_seen};
ghost use Rattle.bd_node.specs.Reliefs.{CanSee, IsGoing, ArePlain, after_seeing};
ghost use Rattle.bd_node.specs.Shape.{AreRising, IsPending, IsShape, SomeEdge};

use crate::edge::end_of;
use crate::index::Index;
use crate::pending::is_owned_pending;
use crate::staying::stay_counts;
use crate::touching::can_touch;
use crate::{Edge, Edges, Items, Messages, Node};
use bd_message::Message;
use std::alloc::{AllocError, Global};
use std::mem;

/// What is to change in a node from which messages go down an edge: which of its messages stay, and
/// how many of these each edge has seen.
#[derive(Debug, Drop)]
pub struct Relief {
    stays: Vec<bool>,
    seens: Vec<u32>,
    // Where the messages that stay then stand, by their keys.
    index: Option<Index>,
}

impl Node {
    /// What is to change in it, for so many more of its messages to go down the edge at a place. It
    /// is `None` where there is no such edge, where fewer messages wait for it, and where one of
    /// them that can change what stands at a key of the edge names a node.
    pub fn relief(&self, place: usize, count: usize) -> Result<Option<Relief>, AllocError>
        requires { IsShape self.now }
        ensures { IfOk result (λ found. MatchOption found (¬ CanRelieve self.now place count)
            (IsReliefOf self.now place count)) }
    {
        let Node::Inner { edges, buffer, .. } = self else {
            return Ok(None);
        };
        let Some(from) = seen_at(edges.as_slice(), place, count, buffer.len()) else {
            return Ok(None);
        };
        let edges = advanced(edges, place, count)?;
        let Some(stays) = left(edges.as_slice(), place, from, buffer)? else {
            return Ok(None);
        };
        let seens = seens(buffer.allocator(), edges.as_slice(), stays.as_slice())?;
        let index = buffer.kept_index(stays.as_slice())?;
        Ok(Some(Relief {
            stays,
            seens,
            index,
        }))
    }

    /// Changes in it what is to be changed, in place and without taking memory.
    pub fn relieve(&mut self, relief: Relief)
        requires { FitsNode relief self.old }
        ensures { self.new ≡ changed_by relief self.old }
    {
        let Relief {
            stays,
            seens,
            index,
        } = relief;
        match self {
            Node::Leaf(_) => {}
            Node::Inner { edges, buffer, .. } => {
                see(buffer.allocator(), edges, seens.as_slice());
                buffer.keep(stays.as_slice(), index);
            }
        }
    }
}

// How many messages the edge at a place has seen, where it can see so many more of those that wait.
fn seen_at(edges: &[Edge], place: usize, count: usize, waiting: usize) -> Option<usize>
    requires { (e : Edge) → slice_get edges.now place ≡ Some e → e.seen ≤ waiting }
    ensures { MatchOption result ((e : Edge) → ¬ CanSee edges.now place count waiting e)
        (λ from. (e : Edge) × CanSee edges.now place count waiting e × (from ≡ e.seen)) }
{
    if edges.len() <= place {
        return None;
    }
    let from = edges[place].seen as usize;
    if waiting - from < count {
        return None;
    }
    Some(from)
}

// A copy of edges after the one at a place has seen so many more messages.
fn advanced(edges: &Edges, place: usize, count: usize) -> Result<Edges, AllocError>
    requires within { place < length edges.now }
    requires fits { (e : Edge) → slice_get edges.now place ≡ Some e → e.seen + count < 2 ^ 32 }
    ensures { IfOk result (λ made. (e : Edge) → slice_get edges.now place ≡ Some e
        → made ≡ after_seeing edges.now place count e) }
{
    let mut made = copied(edges)?.into_vec();
    made[place].seen += count as u32;
    Ok(Items::from_vec(made))
}

// A copy of edges.
fn copied(edges: &Edges) -> Result<Edges, AllocError>
    ensures { IfOk result (λ copy. copy ≡ edges.now) }
{
    edges.clone()
}

// Whether each message is pending for some edge, where each was before the edge at a place saw those
// from a place on. It is `None` where one of those, which can change what stands at a key of the
// edge, names a node.
fn left(
    edges: &[Edge],
    place: usize,
    from: usize,
    buffer: &Messages,
) -> Result<Option<Vec<bool>>, AllocError>
    requires rising { AreRising edges.now }
    requires within { place < length edges.now }
    requires pending { (at : ℕ) (m : Message) → slice_get buffer.now at ≡ Some m
        → SomeEdge (IsPending at m) edges.now ⊎ IsGoing edges.now place from at m }
    ensures { IfOk result (λ found. MatchOption found
        (¬ ArePlain edges.now place from buffer.now)
        (λ mask. ArePlain edges.now place from buffer.now
        × IsMask mask.items edges.now buffer.now)) }
{
    let messages = buffer.as_slice();
    let mut mask = Vec::with_capacity(buffer.allocator(), messages.len())?;
    for (at, message) in messages.iter().enumerate() {
        let Some(stays) = stays(edges, place, from, at, message) else {
            return Ok(None);
        };
        mask.push(stays)?;
    }
    Ok(Some(mask))
}

// The same of one message.
fn stays(edges: &[Edge], place: usize, from: usize, at: usize, message: &Message) -> Option<bool>
    requires rising { AreRising edges.now }
    requires within { place < length edges.now }
    requires pending { SomeEdge (IsPending at message.now) edges.now
        ⊎ IsGoing edges.now place from at message.now }
    ensures { MatchOption result
        (IsGoing edges.now place from at message.now × ¬ IsPlain message.now)
        (λ stays. (IsGoing edges.now place from at message.now → IsPlain message.now)
        × (IsTrue stays ↔ SomeEdge (IsPending at message.now) edges.now)) }
{
    if !goes(edges, place, from, at, message) {
        return Some(true);
    }
    if !is_plain(message) {
        return None;
    }
    Some(is_owned_pending(at, message, edges, place))
}

// Whether a message is one of those that the edge at a place has seen from a place on, and can
// change what stands at a key of the edge.
fn goes(edges: &[Edge], place: usize, from: usize, at: usize, message: &Message) -> bool
    requires rising { AreRising edges.now }
    requires within { place < length edges.now }
    ensures { IsTrue result ↔ IsGoing edges.now place from at message.now }
{
    let edge = &edges[place];
    if at < from || edge.seen as usize <= at {
        return false;
    }
    can_touch(message, edge.pivot.as_slice(), end_of(edges, place))
}

// Whether a message names no node.
fn is_plain(message: &Message) -> bool
    ensures { IsTrue result ↔ IsPlain message.now }
{
    match message {
        Message::Goto { .. } => false,
        _ => true,
    }
}

// How many of those messages that each edge has seen stay.
fn seens(alloc: Global, edges: &[Edge], mask: &[bool]) -> Result<Vec<u32>, AllocError>
    requires { (i : ℕ) (e : Edge) → slice_get edges.now i ≡ Some e → e.seen ≤ length mask.now }
    ensures { IfOk result (λ seens.
        seens.items ≡ map (λ (e : Edge). stay_count mask.now e.seen) edges.now) }
{
    let counts = stay_counts(alloc, mask)?;
    let mut seens = Vec::with_capacity(alloc, edges.len())?;
    for edge in edges {
        seens.push(counts[edge.seen as usize] as u32)?;
    }
    Ok(seens)
}

// Lets each edge have seen so many messages, in place.
fn see(alloc: Global, edges: &mut Edges, seens: &[u32])
    requires { length seens.now ≡ length edges.old }
    ensures { edges.new ≡ with_seen seens.now edges.old }
{
    let mut list = mem::replace(edges, Items::new(alloc)).into_vec();
    for (place, seen) in seens.iter().enumerate() {
        list[place].seen = *seen;
    }
    *edges = Items::from_vec(list);
}
