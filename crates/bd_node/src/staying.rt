//! Messages of which some stay, with the index of these.

ghost use Rattle.std.specs.Prelude.{◌≡◌, ℕ, ◌+◌, ◌<◌, ◌≤◌, length, slice_index, IfOk};
ghost use Rattle.bd_node.specs.Keeping.{moved, stay_count, staying};

use crate::index::Index;
use bd_message::Message;
use std::alloc::{AllocError, Global};

/// A copy of the messages of which the mask says that they stay.
pub fn staying(alloc: Global, items: &[Message], mask: &[bool]) -> Result<Vec<Message>, AllocError>
    requires { length mask.now ≡ length items.now }
    ensures { IfOk result (λ list. list.items ≡ staying mask.now items.now) }
{
    let count = mask.iter().filter(|stays| **stays).count();
    let mut list = Vec::with_capacity(alloc, count)?;
    for (place, message) in items.iter().enumerate() {
        if mask[place] {
            list.push(copy(message)?)?;
        }
    }
    Ok(list)
}

/// Keeps those of the messages of which the mask says that they stay, in place.
pub fn keep(items: &mut Vec<Message>, mask: &[bool])
    requires { length mask.now ≡ length items.old.items }
    ensures { items.new.items ≡ staying mask.now items.old.items }
{
    let mut kept = 0;
    for (place, stays) in mask.iter().enumerate() {
        if *stays {
            items.swap(kept, place);
            kept += 1;
        }
    }
    items.truncate(kept);
}

fn copy(message: &Message) -> Result<Message, AllocError>
    ensures { IfOk result (λ copy. copy ≡ message.now) }
{
    message.clone()
}

/// The places of an index whose messages stay, once the others are gone: without a look at their
/// keys.
pub fn moved_index(alloc: Global, index: &Index, mask: &[bool]) -> Result<Index, AllocError>
    requires points { (q : ℕ) → q < length index.now.points.items
        → slice_index index.now.points.items q < length mask.now }
    requires ranges { (q : ℕ) → q < length index.now.ranges.items
        → slice_index index.now.ranges.items q < length mask.now }
    requires stems { (q : ℕ) → q < length index.now.stems.items
        → slice_index index.now.stems.items q < length mask.now }
    ensures points { IfOk result (λ kept.
        kept.points.items ≡ moved mask.now index.now.points.items) }
    ensures ranges { IfOk result (λ kept.
        kept.ranges.items ≡ moved mask.now index.now.ranges.items) }
    ensures stems { IfOk result (λ kept.
        kept.stems.items ≡ moved mask.now index.now.stems.items) }
{
    let counts = stay_counts(alloc, mask)?;
    let points = moved(alloc, index.points.as_slice(), mask, counts.as_slice())?;
    let ranges = moved(alloc, index.ranges.as_slice(), mask, counts.as_slice())?;
    let stems = moved(alloc, index.stems.as_slice(), mask, counts.as_slice())?;
    Ok(Index {
        points,
        ranges,
        stems,
    })
}

/// How many of the messages before each place stay, and how many of all.
pub fn stay_counts(alloc: Global, mask: &[bool]) -> Result<Vec<usize>, AllocError>
    ensures long { IfOk result (λ counts. length counts.items ≡ length mask.now + 1) }
    ensures each { IfOk result (λ counts. (i : ℕ) → i ≤ length mask.now
        → slice_index counts.items i ≡ stay_count mask.now i) }
{
    let mut counts = Vec::with_capacity(alloc, mask.len().saturating_add(1))?;
    let mut count = 0;
    for stays in mask {
        counts.push(count)?;
        if *stays {
            count += 1;
        }
    }
    counts.push(count)?;
    Ok(counts)
}

// The places of those messages of these places that stay, once the others are gone.
fn moved(
    alloc: Global,
    places: &[usize],
    mask: &[bool],
    counts: &[usize],
) -> Result<Vec<usize>, AllocError>
    requires within { (q : ℕ) → q < length places.now
        → slice_index places.now q < length mask.now }
    requires long { length mask.now ≤ length counts.now }
    requires each { (i : ℕ) → i < length mask.now
        → slice_index counts.now i ≡ stay_count mask.now i }
    ensures { IfOk result (λ list. list.items ≡ moved mask.now places.now) }
{
    let mut list = Vec::with_capacity(alloc, places.len())?;
    for place in places {
        if mask[*place] {
            list.push(counts[*place])?;
        }
    }
    Ok(list)
}
