//! Where messages stand, by their keys.

ghost use Rattle.std.specs.Prelude.{◌≡◌, ℕ, ◌+◌, ◌-◌, ◌*◌, ◌^◌, ◌<◌, ◌≤◌, ◌++◌, ◌∷◌, [], true, List, length, slice_index, slice_get, Some, IfOk, OnErr};
ghost use Rattle.std.specs.Option.{ForSome};
ghost use Rattle.bd_node.specs.Indexes.{IsCopy};
ghost use Rattle.bd_message.specs.declared.message.Message.{Message};
ghost use Rattle.bd_node.specs.Index.{AreInOrder, IsCountBelow, IsIndex, IsNewestAmong, IsNewestTouching, IsNextAmong, IsNextPoint, IsNextRange, IsPosition, first_of, is_before, is_point, is_point_at, is_range_at, last_of, own_key};
ghost use Rattle.bd_node.specs.Stems.{AreByStem};
ghost use Rattle.bd_node.specs.Touching.{IsNextTouching};

use crate::touching::touches;
use crate::{Steps, stems};
use bd_message::Message;
use std::alloc::{AllocError, Global};
use std::cmp::Ordering;
use std::marker::Brand;
use std::sync::ledger::{Blank, Ledger};

/// The places of messages: of those on one key by key and place, and of the others, rising and by
/// the prefix of their keys.
#[derive(Debug, Drop)]
pub struct Index {
    pub points: Vec<usize>,
    pub ranges: Vec<usize>,
    pub stems: Vec<usize>,
}

// How many ranges of keys are tried one by one before their prefixes are asked.
const NEAR: usize = 8;

/// No places.
pub fn empty(alloc: Global) -> Index
    ensures points { result.points.items ≡ [] }
    ensures ranges { result.ranges.items ≡ [] }
    ensures stems { result.stems.items ≡ [] }
{
    Index {
        points: Vec::new(alloc),
        ranges: Vec::new(alloc),
        stems: Vec::new(alloc),
    }
}

/// The index of messages, of which the first so many are in it.
pub fn extended(index: Index, items: &[Message], count: usize) -> Result<Index, AllocError>
    requires index { IsIndex items.now count index.points.items index.ranges.items }
    requires stems { AreByStem items.now count index.stems.items }
    ensures index { IfOk result (λ index.
        IsIndex items.now (length items.now) index.points.items index.ranges.items) }
    ensures stems { IfOk result (λ index.
        AreByStem items.now (length items.now) index.stems.items) }
{
    let mut index = index;
    for place in count..items.len() {
        index = with_place(index, items, place)?;
    }
    Ok(index)
}

/// The index of messages, of which the first so many are in an index if there is one.
pub fn regrown(
    alloc: Global,
    index: Option<Index>,
    items: &[Message],
    count: usize,
) -> Result<Index, AllocError>
    requires index { ForSome index (λ index.
        IsIndex items.now count index.points.items index.ranges.items) }
    requires stems { ForSome index (λ index. AreByStem items.now count index.stems.items) }
    ensures index { IfOk result (λ index.
        IsIndex items.now (length items.now) index.points.items index.ranges.items) }
    ensures stems { IfOk result (λ index.
        AreByStem items.now (length items.now) index.stems.items) }
{
    match index {
        Some(index) => extended(index, items, count),
        None => extended(empty(alloc), items, 0),
    }
}

/// A copy of an index, if there is one.
pub fn copied(index: &Option<Index>) -> Result<Option<Index>, AllocError>
    ensures { IfOk result (IsCopy index.now) }
{
    match index {
        Some(index) => Ok(Some(Index {
            points: index.points.clone()?,
            ranges: index.ranges.clone()?,
            stems: index.stems.clone()?,
        })),
        None => Ok(None),
    }
}

// The index with one place more.
fn with_place(index: Index, items: &[Message], place: usize) -> Result<Index, AllocError>
    requires index { IsIndex items.now place index.points.items index.ranges.items }
    requires stems { AreByStem items.now place index.stems.items }
    requires within { place < length items.now }
    ensures index { IfOk result (λ index.
        IsIndex items.now (place + 1) index.points.items index.ranges.items) }
    ensures stems { IfOk result (λ index. AreByStem items.now (place + 1) index.stems.items) }
{
    let Index {
        mut points,
        mut ranges,
        mut stems,
    } = index;
    let message = &items[place];
    if is_point(message) {
        let at = position(items, points.as_slice(), own_key(message), place);
        points.insert(at, place)?;
    } else {
        ranges.push(place)?;
        let at = stems::up_to(items, stems.as_slice(), stems::stem(message), place);
        stems.insert(at, place)?;
    }
    Ok(Index {
        points,
        ranges,
        stems,
    })
}

/// Whether a message is on one key.
pub fn is_point(message: &Message) -> bool
    ensures { result ≡ is_point message.now }
{
    match message {
        Message::Put { .. } | Message::Del { .. } | Message::Patch { .. } => true,
        Message::Cut { .. } | Message::Goto { .. } => false,
    }
}

/// The key that a message is on, and the empty one of a range.
pub fn own_key(message: &Message) -> &[u8]
    ensures { result.now ≡ own_key message.now }
{
    match message {
        Message::Put { key, .. } => key.as_slice(),
        Message::Del { key } => key.as_slice(),
        Message::Patch { key, .. } => key.as_slice(),
        Message::Cut { .. } => &[],
        Message::Goto { .. } => &[],
    }
}

/// How many points come before a key and place, where nobody asks for the number of comparisons.
pub fn position(items: &[Message], points: &[usize], key: &[u8], place: usize) -> usize
    requires order { AreInOrder items.now points.now }
    requires below { (q : ℕ) → q < length points.now → slice_index points.now q < length items.now }
    ensures { IsPosition items.now points.now (key.now, place) result }
{
    position_with::<Brand>(items, points, key, place, Blank::new(1))
}

// The same, counted in a ledger.
fn position_with<L: Ledger>(
    items: &[Message],
    points: &[usize],
    key: &[u8],
    place: usize,
    blank: Blank,
) -> usize
    requires order { AreInOrder items.now points.now }
    requires below { (q : ℕ) → q < length points.now → slice_index points.now q < length items.now }
    requires name { blank.name ≡ L.name }
    requires parts { blank.parts ≡ L.parts }
    requires some { 0 < L.parts }
    ensures { IsPosition items.now points.now (key.now, place) result }
{
    let mut steps = Steps::<L>::new(blank);
    halved(items, points, key, place, &mut steps)
}

/// How many points, which are in order, come before a key and place.
pub fn halved<L: Ledger>(
    items: &[Message],
    points: &[usize],
    key: &[u8],
    place: usize,
    steps: &mut Steps<L>,
) -> usize
    requires order { AreInOrder items.now points.now }
    requires below { (q : ℕ) → q < length points.now → slice_index points.now q < length items.now }
    ensures position { IsPosition items.now points.now (key.now, place) result }
    ensures cost { 2 ^ (steps.new - steps.old) ≤ 2 * length points.now + 1 }
    ensures later { steps.old ≤ steps.new }
{
    let mut low = 0;
    let mut high = points.len();
    while low < high {
        let middle = low + (high - low) / 2;
        if is_before(items, points[middle], key, place, steps) {
            low = middle + 1;
        } else {
            high = middle;
        }
    }
    low
}

// Whether the message at a place comes before a key and place.
fn is_before<L: Ledger>(
    items: &[Message],
    own: usize,
    key: &[u8],
    place: usize,
    steps: &mut Steps<L>,
) -> bool
    requires { own < length items.now }
    ensures value { result ≡ is_before items.now own (key.now, place) }
    ensures step { steps.new ≡ steps.old + 1 }
{
    match steps.compare(own_key(&items[own]), key) {
        Ordering::Less => true,
        Ordering::Equal => own < place,
        Ordering::Greater => false,
    }
}

// How many of rising places are below one.
fn count_below(ranges: &[usize], from: usize) -> usize
    requires { (p q : ℕ) → p < q → q < length ranges.now
        → slice_index ranges.now p < slice_index ranges.now q }
    ensures { IsCountBelow ranges.now from result }
{
    let mut low = 0;
    let mut high = ranges.len();
    while low < high {
        let middle = low + (high - low) / 2;
        if ranges[middle] < from {
            low = middle + 1;
        } else {
            high = middle;
        }
    }
    low
}

/// The place of the oldest message on one key from a place on that is on this key.
pub fn next_on(items: &[Message], index: &Index, from: usize, key: &[u8]) -> Option<usize>
    requires { IsIndex items.now (length items.now) index.now.points.items index.now.ranges.items }
    ensures { IsNextAmong is_point_at items.now from key.now result }
{
    let points = index.points.as_slice();
    let at = position(items, points, key, from);
    if at < points.len() && own_key(&items[points[at]]) == key {
        Some(points[at])
    } else {
        None
    }
}

/// The place of the newest message on one key from a place on that is on this key.
pub fn newest_on(items: &[Message], index: &Index, from: usize, key: &[u8]) -> Option<usize>
    requires { IsIndex items.now (length items.now) index.now.points.items index.now.ranges.items }
    ensures { IsNewestAmong is_point_at items.now from key.now result }
{
    let points = index.points.as_slice();
    let at = position(items, points, key, items.len());
    if at > 0 && points[at - 1] >= from && own_key(&items[points[at - 1]]) == key {
        Some(points[at - 1])
    } else {
        None
    }
}

/// The place of the oldest message on a range of keys from a place on that can change what stands at
/// a key. The first few are tried in their order, so that those of one prefix don't cost a look at
/// each of them.
pub fn next_over(items: &[Message], index: &Index, from: usize, key: &[u8]) -> Option<usize>
    requires index { IsIndex items.now (length items.now) index.now.points.items
        index.now.ranges.items }
    requires stems { AreByStem items.now (length items.now) index.now.stems.items }
    ensures { IsNextAmong is_range_at items.now from key.now result }
{
    let ranges = index.ranges.as_slice();
    let first = count_below(ranges, from);
    let end = first + NEAR.min(ranges.len() - first);
    for at in first..end {
        if touches(&items[ranges[at]], key) {
            return Some(ranges[at]);
        }
    }
    if end < ranges.len() {
        stems::oldest(items, index.stems.as_slice(), from, key)
    } else {
        None
    }
}

/// The same of the newest one, of which the last few are tried first.
pub fn newest_over(items: &[Message], index: &Index, from: usize, key: &[u8]) -> Option<usize>
    requires index { IsIndex items.now (length items.now) index.now.points.items
        index.now.ranges.items }
    requires stems { AreByStem items.now (length items.now) index.now.stems.items }
    ensures { IsNewestAmong is_range_at items.now from key.now result }
{
    let ranges = index.ranges.as_slice();
    let first = count_below(ranges, from);
    let end = ranges.len() - NEAR.min(ranges.len() - first);
    let mut at = ranges.len();
    while at > end {
        at -= 1;
        if touches(&items[ranges[at]], key) {
            return Some(ranges[at]);
        }
    }
    if first < end {
        stems::newest(items, index.stems.as_slice(), from, key)
    } else {
        None
    }
}

/// The place of the first message on a range of keys from a place on.
pub fn next_range(items: &[Message], index: &Index, from: usize) -> Option<usize>
    requires { IsIndex items.now (length items.now) index.now.points.items index.now.ranges.items }
    ensures { IsNextRange items.now from result }
{
    let ranges = index.ranges.as_slice();
    let at = count_below(ranges, from);
    if at < ranges.len() {
        Some(ranges[at])
    } else {
        None
    }
}

/// The place of a message from a place on that is on the least key above this one.
pub fn next_point(items: &[Message], index: &Index, from: usize, key: &[u8]) -> Option<usize>
    requires { IsIndex items.now (length items.now) index.now.points.items index.now.ranges.items }
    ensures { IsNextPoint items.now from key.now result }
{
    let points = index.points.as_slice();
    for at in position(items, points, key, items.len())..points.len() {
        if points[at] >= from {
            return Some(points[at]);
        }
    }
    None
}

/// The place of the oldest message from a place on that can change what stands at a key.
pub fn next_touching(items: &[Message], index: &Index, from: usize, key: &[u8]) -> Option<usize>
    requires index { IsIndex items.now (length items.now) index.now.points.items
        index.now.ranges.items }
    requires stems { AreByStem items.now (length items.now) index.now.stems.items }
    ensures { IsNextTouching items.now from key.now result }
{
    let point = next_on(items, index, from, key);
    let range = next_over(items, index, from, key);
    first_of(point, range)
}

/// The lesser of two places, and the one where there is one.
pub fn first_of(a: Option<usize>, b: Option<usize>) -> Option<usize>
    ensures { result ≡ first_of a b }
{
    match (a, b) {
        (Some(a), Some(b)) => if a < b { Some(a) } else { Some(b) },
        (Some(a), None) => Some(a),
        (None, b) => b,
    }
}

/// The place of the newest message from a place on that can change what stands at a key.
pub fn newest_touching(items: &[Message], index: &Index, from: usize, key: &[u8]) -> Option<usize>
    requires index { IsIndex items.now (length items.now) index.now.points.items
        index.now.ranges.items }
    requires stems { AreByStem items.now (length items.now) index.now.stems.items }
    ensures { IsNewestTouching items.now from key.now result }
{
    let point = newest_on(items, index, from, key);
    let range = newest_over(items, index, from, key);
    last_of(point, range)
}

/// The greater of two places, and the one where there is one.
pub fn last_of(a: Option<usize>, b: Option<usize>) -> Option<usize>
    ensures { result ≡ last_of a b }
{
    match (a, b) {
        (Some(a), Some(b)) => if a < b { Some(b) } else { Some(a) },
        (Some(a), None) => Some(a),
        (None, b) => b,
    }
}
