//! What is asked of messages without an index.

ghost use Rattle.std.specs.Prelude.{◌≡◌, ◌<◌, length, IfOk, IfSome};
ghost use Rattle.std.specs.Option.{option_copied};
ghost use Rattle.bd_keys.specs.Keys.{IsBelowEnd};
ghost use Rattle.bd_node.specs.Index.{is_nearer, IsNewestTouching, IsNextPoint, IsNextRange};
ghost use Rattle.bd_node.specs.Spans.{AreTouching};
ghost use Rattle.bd_node.specs.Touching.{IsNextTouching};

use crate::index::{is_point, own_key};
use crate::touching::{can_touch, touches};
use bd_message::Message;
use std::alloc::{AllocError, Global};

/// The place of the oldest message from a place on that can change what stands at a key.
pub fn next_touching(items: &[Message], from: usize, key: &[u8]) -> Option<usize>
    ensures { IsNextTouching items.now from key.now result }
{
    for place in from..items.len() {
        if touches(&items[place], key) {
            return Some(place);
        }
    }
    None
}

/// The place of the newest message from a place on that can change what stands at a key.
pub fn newest_touching(items: &[Message], from: usize, key: &[u8]) -> Option<usize>
    ensures { IsNewestTouching items.now from key.now result }
{
    let mut place = items.len();
    while place > from {
        place -= 1;
        if touches(&items[place], key) {
            return Some(place);
        }
    }
    None
}

/// The place of the first message on a range of keys from a place on.
pub fn next_range(items: &[Message], from: usize) -> Option<usize>
    ensures { IsNextRange items.now from result }
{
    for place in from..items.len() {
        if !is_point(&items[place]) {
            return Some(place);
        }
    }
    None
}

/// The place of a message from a place on that is on the least key above this one.
pub fn next_point(items: &[Message], from: usize, key: &[u8]) -> Option<usize>
    ensures { IsNextPoint items.now from key.now result }
{
    let mut found = None;
    for place in from..items.len() {
        if is_nearer(items, place, key, found) {
            found = Some(place);
        }
    }
    found
}

/// Whether each message can change what stands at a key that is at least `lo` and below `hi`.
pub fn touching(
    alloc: Global,
    items: &[Message],
    lo: &[u8],
    hi: Option<&[u8]>,
) -> Result<Vec<bool>, AllocError>
    requires { IsBelowEnd lo.now (option_copied hi) }
    ensures { IfOk result (λ mask.
        AreTouching mask.items items.now lo.now (option_copied hi.entry)) }
{
    let mut mask = Vec::with_capacity(alloc, items.len())?;
    for message in items {
        mask.push(can_touch(message, lo, hi))?;
    }
    Ok(mask)
}

// Whether the message at a place is on a key above this one, and below that of the place found so
// far.
fn is_nearer(items: &[Message], place: usize, key: &[u8], found: Option<usize>) -> bool
    requires within { place < length items.now }
    requires found { IfSome found (λ other. other < length items.now) }
    ensures { result ≡ is_nearer items.now place key.now found }
{
    let own = own_key(&items[place]);
    let is_above = is_point(&items[place]) && key.cmp(own).is_lt();
    match found {
        Some(other) => is_above && own.cmp(own_key(&items[other])).is_lt(),
        None => is_above,
    }
}
