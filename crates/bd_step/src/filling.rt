//! For which edge most bytes of messages are pending.

ghost use Rattle.std.specs.Prelude.{◌≡◌, ℕ, ◌+◌, ◌<◌, ◌≤◌, true, [], List, Option, Some, length, get_or, IfOk};
ghost use Rattle.std.specs.Option.{option_copied};
ghost use Rattle.std.specs.List.{AllByRecursion, sum_by};
ghost use Rattle.bd_keys.specs.Keys.{IsBelowEnd, InRange};
ghost use Rattle.bd_limits.specs.Limits.{buffer_limit};
ghost use Rattle.bd_message.specs.Messages.{IsMessage, size};
ghost use Rattle.bd_node.specs.Index.{is_point, own_key};
ghost use Rattle.bd_node.specs.Owners.{IsOwner};
ghost use Rattle.bd_node.specs.Shape.{AreRising, end_before};
ghost use Rattle.bd_step.specs.Filling.{ArePendingSizes, AreRaised, IsFirstGreatest, IsWaiting, IsFullest};

use bd_message::Message;
use bd_node::{Edge, Messages, can_touch, end_of, is_point};
use std::alloc::{AllocError, Global};

/// The edge for which most bytes of messages are pending.
#[derive(Clone, Copy, Debug)]
pub struct FullEdge {
    /// Its place among the edges.
    pub place: usize,
    /// How many bytes are pending for it.
    pub bytes: usize,
}

/// The edge for which most bytes of messages are pending, the first one at a tie. The messages are
/// gone over once; of those on one key, the index tells the edges of their keys.
pub fn fullest(alloc: Global, edges: &[Edge], buffer: &Messages) -> Result<FullEdge, AllocError>
    requires first { end_before edges.now ≡ Some [] }
    requires rising { AreRising edges.now }
    requires messages { AllByRecursion IsMessage buffer.now }
    requires size { sum_by size buffer.now ≤ buffer_limit }
    ensures fullest { IfOk result (λ full.
        IsFullest edges.now buffer.now full.place full.bytes) }
    ensures within { IfOk result (λ full. full.place < length edges.now) }
{
    let sizes = pending_sizes(alloc, edges, buffer)?;
    Ok(greatest(sizes.as_slice()))
}

// The greatest of some numbers, and the first place where it stands.
fn greatest(sizes: &[usize]) -> FullEdge
    requires { 1 ≤ length sizes.now }
    ensures { IsFirstGreatest sizes.now result.place result.bytes }
{
    let mut full = FullEdge {
        place: 0,
        bytes: sizes[0],
    };
    for (place, bytes) in sizes.iter().enumerate() {
        if *bytes > full.bytes {
            full = FullEdge {
                place,
                bytes: *bytes,
            };
        }
    }
    full
}

// How many bytes of messages are pending for each edge.
fn pending_sizes(alloc: Global, edges: &[Edge], buffer: &Messages) -> Result<Vec<usize>, AllocError>
    requires first { end_before edges.now ≡ Some [] }
    requires rising { AreRising edges.now }
    requires messages { AllByRecursion IsMessage buffer.now }
    requires size { sum_by size buffer.now ≤ buffer_limit }
    ensures { IfOk result (λ sizes. ArePendingSizes buffer.now edges.now sizes.items) }
{
    let owners = buffer.owners(edges)?;
    let messages = buffer.as_slice();
    let mut sizes = vec![in alloc; 0; edges.len()]?;
    for (place, message) in messages.iter().enumerate() {
        raise(place, message, edges, owners[place], &mut sizes);
    }
    Ok(sizes)
}

// Adds the size of the message at a place to the bytes of each edge for which it is pending. Of one
// on one key, the place of the edge of the key is known.
fn raise(place: usize, message: &Message, edges: &[Edge], owner: usize, sizes: &mut Vec<usize>)
    requires rising { AreRising edges.now }
    requires message { IsMessage message.now }
    requires owner { is_point message.now ≡ true → IsOwner edges.now (own_key message.now) owner }
    requires long { length sizes.old.items ≡ length edges.now }
    requires room { (j : ℕ) → j < length edges.now
        → get_or sizes.old.items j 0 + size message.now ≤ buffer_limit }
    ensures { AreRaised place message.now edges.now sizes.old.items sizes.new.items }
{
    if is_point(message) {
        raise_one(place, message, edges, owner, sizes);
    } else {
        raise_each(place, message, edges, sizes);
    }
}

// Adds the size of the message on one key at a place to the bytes of the edge of the key, if it is
// pending for that edge.
fn raise_one(place: usize, message: &Message, edges: &[Edge], owner: usize, sizes: &mut Vec<usize>)
    requires rising { AreRising edges.now }
    requires message { IsMessage message.now }
    requires point { is_point message.now ≡ true }
    requires owner { IsOwner edges.now (own_key message.now) owner }
    requires long { length sizes.old.items ≡ length edges.now }
    requires room { (j : ℕ) → j < length edges.now
        → get_or sizes.old.items j 0 + size message.now ≤ buffer_limit }
    ensures { AreRaised place message.now edges.now sizes.old.items sizes.new.items }
{
    sizes[owner] += own_size(place, message, &edges[owner]);
}

// The same of any message: each edge is asked.
fn raise_each(place: usize, message: &Message, edges: &[Edge], sizes: &mut Vec<usize>)
    requires rising { AreRising edges.now }
    requires message { IsMessage message.now }
    requires long { length sizes.old.items ≡ length edges.now }
    requires room { (j : ℕ) → j < length edges.now
        → get_or sizes.old.items j 0 + size message.now ≤ buffer_limit }
    ensures { AreRaised place message.now edges.now sizes.old.items sizes.new.items }
{
    for at in 0..edges.len() {
        sizes[at] += waiting_size(place, message, &edges[at], end_of(edges, at));
    }
}

// The size of the message at a place, which is on a key of the edge, where the edge hasn't seen it,
// and else 0.
fn own_size(place: usize, message: &Message, edge: &Edge) -> usize
    requires message { IsMessage message.now }
    requires point { is_point message.now ≡ true }
    ensures { (hi : Option (List ℕ)) → InRange edge.now.pivot hi (own_key message.now)
        → IsWaiting place message.now edge.now hi result }
{
    if edge.seen as usize <= place {
        message.size()
    } else {
        0
    }
}

// The size of the message at a place where it is pending for the edge, and else 0.
fn waiting_size(place: usize, message: &Message, edge: &Edge, hi: Option<&[u8]>) -> usize
    requires rising { IsBelowEnd edge.now.pivot (option_copied hi) }
    requires message { IsMessage message.now }
    ensures { IsWaiting place message.now edge.now (option_copied hi.entry) result }
{
    if edge.seen as usize <= place && can_touch(message, edge.pivot.as_slice(), hi) {
        message.size()
    } else {
        0
    }
}
