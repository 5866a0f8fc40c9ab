//! Which messages can change what stands at keys of a range, by an index.

ghost use Rattle.std.specs.Prelude.{◌≡◌, ℕ, ◌<◌, [], length, slice_index, IfOk};
ghost use Rattle.std.specs.Option.{option_copied};
ghost use Rattle.bd_keys.specs.Keys.{IsBelowEnd};
ghost use Rattle.bd_node.specs.Index.{AreInOrder, IsIndex};
ghost use Rattle.bd_node.specs.Spans.{AreMarked, AreTouching, IsEndPosition};

use crate::index::{Index, position};
use crate::touching::can_touch;
use bd_message::Message;
use std::alloc::{AllocError, Global};

/// Whether each message can change what stands at a key that is at least `lo` and below `hi`.
pub fn touching(
    alloc: Global,
    items: &[Message],
    index: &Index,
    lo: &[u8],
    hi: Option<&[u8]>,
) -> Result<Vec<bool>, AllocError>
    requires index { IsIndex items.now (length items.now) index.now.points.items
        index.now.ranges.items }
    requires rising { IsBelowEnd lo.now (option_copied hi) }
    ensures { IfOk result (λ mask.
        AreTouching mask.items items.now lo.now (option_copied hi.entry)) }
{
    let mut mask = vec![in alloc; false; items.len()]?;
    mark_points(items, index, lo, hi, &mut mask);
    mark_ranges(items, index, lo, hi, &mut mask);
    Ok(mask)
}

/// How many of the points, which are in order, are on keys below an end: all where there is none.
pub fn count_before(items: &[Message], points: &[usize], hi: Option<&[u8]>) -> usize
    requires order { AreInOrder items.now points.now }
    requires below { (q : ℕ) → q < length points.now → slice_index points.now q < length items.now }
    ensures { IsEndPosition items.now points.now (option_copied hi.entry) result }
{
    match hi {
        Some(hi) => position(items, points, hi, 0),
        None => points.len(),
    }
}

// Marks the messages on one key of the range.
fn mark_points(items: &[Message], index: &Index, lo: &[u8], hi: Option<&[u8]>, mask: &mut Vec<bool>)
    requires index { IsIndex items.now (length items.now) index.now.points.items
        index.now.ranges.items }
    requires none { AreMarked mask.old.items items.now lo.now (option_copied hi) [] 0 }
    ensures { AreMarked mask.new.items items.now lo.now (option_copied hi.entry)
        index.now.points.items (length index.now.points.items) }
{
    let points = index.points.as_slice();
    let first = count_before(items, points, Some(lo));
    for at in first..count_before(items, points, hi) {
        mask[points[at]] = true;
    }
}

// Marks the messages on a range of keys that can change what stands at a key of this one, once those
// on one key are.
fn mark_ranges(items: &[Message], index: &Index, lo: &[u8], hi: Option<&[u8]>, mask: &mut Vec<bool>)
    requires index { IsIndex items.now (length items.now) index.now.points.items
        index.now.ranges.items }
    requires rising { IsBelowEnd lo.now (option_copied hi) }
    requires points { AreMarked mask.old.items items.now lo.now (option_copied hi)
        index.now.points.items (length index.now.points.items) }
    ensures { AreTouching mask.new.items items.now lo.now (option_copied hi.entry) }
{
    let ranges = index.ranges.as_slice();
    for at in 0..ranges.len() {
        if can_touch(&items[ranges[at]], lo, hi) {
            mask[ranges[at]] = true;
        }
    }
}
