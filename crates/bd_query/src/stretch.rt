//! What one node says of a key and of the keys after it.

ghost use Rattle.std.specs.Prelude.{◌≡◌, ℕ, ◌+◌, ◌-◌, ◌*◌, ◌<◌, ◌≤◌, true, false, List, [], ◌++◌, length, drop, take, Option, None, Some, IfOk, IfSome, slice_get};
ghost use Rattle.std.specs.List.{AllByRecursion, flat_map};
ghost use Rattle.bd_keys.specs.Keys.{IsKey};
ghost use Rattle.bd_message.specs.Messages.{IsMessage};
ghost use Rattle.bd_message.specs.Effect.{NodesAt, act};
ghost use Rattle.bd_node.specs.Index.{is_point_at, is_range_at};
ghost use Rattle.bd_node.specs.Touching.{NoneTouches, touches};
ghost use Rattle.bd_node.specs.Nodes.{node_at, names, message_names, edge_names, child_at, edge_of, edge_at, entry_at};
ghost use Rattle.bd_node.specs.Shape.{IsShape, IsEntry, IsRising, AreRising};
ghost use Rattle.bd_leaf.specs.Places.{IsPlace};
ghost use Rattle.bd_query.specs.Asks.{Question, asked_by, asked_first, asked_through, asked_at, asked_in};
ghost use Rattle.bd_query.specs.Stretches.{IsEnd, IsWithin, IsNewest, NoneAmong, after, gives_value, IsWay, IsStretch, HasEnd, EndsBy, AsksOneOf, end_limit};
ghost use Rattle.bd_query.specs.Runs.{IsFirstFrom};
ghost use Rattle.bd_node.specs.declared.node.Entry.{Entry};

use crate::ends::{bytes_of, copied_end, end_within, narrowed, successor};
use crate::part::{Part, part_through};
use bd_keys::{Bytes, Items};
use bd_message::Message;
use bd_node::{Edge, Entry, Messages, Node, Steps, end_of};
use std::alloc::{AllocError, Global};
use std::marker::Brand;
use std::sync::ledger::{Blank, Ledger};

/// What one node says of a key and of the keys after it.
#[derive(Drop)]
pub enum Stretch {
    /// The key has a value, of which this is known.
    Present(Part),
    /// The first keys from this one on that have a value, with their values.
    Run {
        entries: Items<Entry>,
    },
    /// No key from this one up to the end has one.
    Absent {
        end: Option<Bytes>,
    },
    /// Each key from this one up to the end has what a node has at `source` and then the key
    /// without its first `lift` bytes, which these keys have in common.
    Child {
        end: Option<Bytes>,
        child: u64,
        lift: usize,
        source: Bytes,
    },
}

/// The newest message that can change a key, if there is one, and an end up to which newer ones
/// change no key from that one on.
#[derive(Drop)]
struct Newest {
    place: Option<usize>,
    end: Option<Bytes>,
}

/// What a node says of a key and of the keys after it; a leaf gives at most so many entries.
pub fn stretch_of(
    alloc: Global,
    node: &Node,
    key: &[u8],
    most: usize,
) -> Result<Stretch, AllocError>
    requires shape { IsShape node.now }
    requires some { 1 ≤ most }
    ensures stretch { IfOk result (λ stretch. (below : NodesAt)
        → IsStretch below (node_at below node.now) key.now stretch) }
    ensures end { IfOk result (λ stretch. HasEnd key.now stretch) }
    ensures named { IfOk result (λ stretch. AsksOneOf (names node.now) stretch) }
    ensures asks { IfOk result (λ stretch.
        asked_at node.now key.now ≡ asked_in stretch key.now) }
{
    match node {
        Node::Leaf(entries) => among(alloc, entries.as_slice(), key, most),
        Node::Inner { edges, buffer, .. } => {
            let edges = edges.as_slice();
            let place = edge_place(edges, key);
            let end = copied_end(alloc, end_of(edges, place))?;
            through(alloc, &edges[place], buffer, key, end)
        }
    }
}

// What the entries of a leaf say, by at most so many of them.
fn among(alloc: Global, entries: &[Entry], key: &[u8], most: usize) -> Result<Stretch, AllocError>
    requires rising { IsRising entries.now }
    requires short { AllByRecursion IsEntry entries.now }
    requires some { 1 ≤ most }
    ensures stretch { IfOk result (λ stretch. (below : NodesAt)
        → IsStretch below (entry_at entries.now) key.now stretch) }
    ensures end { IfOk result (λ stretch. HasEnd key.now stretch) }
    ensures named { IfOk result (λ stretch. AsksOneOf [] stretch) }
    ensures asks { IfOk result (λ stretch. asked_in stretch key.now ≡ None) }
{
    let first = first_from(entries, key);
    let last = entries.len().min(first.saturating_add(most));
    if first == last {
        return Ok(Stretch::Absent { end: None });
    }
    let entries = Items::from_vec(copied_between(alloc, entries, first, last)?);
    Ok(Stretch::Run { entries })
}

// The place of the first entry whose key isn't below this one.
fn first_from(entries: &[Entry], key: &[u8]) -> usize
    requires { IsRising entries.now }
    ensures { IsFirstFrom entries.now key.now result }
{
    match search(entries, key) {
        Ok(place) | Err(place) => place,
    }
}

// Copies of the entries from one place up to another.
fn copied_between(
    alloc: Global,
    entries: &[Entry],
    first: usize,
    last: usize,
) -> Result<Vec<Entry>, AllocError>
    requires order { first ≤ last }
    requires within { last ≤ length entries.now }
    ensures copies { IfOk result (λ copies.
        copies.items ≡ take (last - first) (drop first entries.now)) }
    ensures keys { IfOk result (λ copies.
        AllByRecursion (λ (e : Entry). IsKey e.key) copies.items) }
{
    let mut copies = Vec::new(alloc);
    for entry in &entries[first..last] {
        let copy = entry.clone()?;
        let _bytes = bytes_of(copy.key.as_slice());
        copies.push(copy)?;
    }
    Ok(copies)
}

// The place of a key among entries, where nobody asks for the number of comparisons.
fn search(entries: &[Entry], key: &[u8]) -> Result<usize, usize>
    requires { IsRising entries.now }
    ensures { IsPlace entries.now key.now result }
{
    search_with::<Brand>(entries, key, Blank::new(1))
}

// The same, counted in a ledger.
fn search_with<L: Ledger>(entries: &[Entry], key: &[u8], blank: Blank) -> Result<usize, usize>
    requires rising { IsRising entries.now }
    requires name { blank.name ≡ L.name }
    requires parts { blank.parts ≡ L.parts }
    requires some { 0 < L.parts }
    ensures { IsPlace entries.now key.now result }
{
    let mut steps = Steps::<L>::new(blank);
    bd_leaf::place(entries, key, &mut steps)
}

// The place of the edge whose keys include a key.
fn edge_place(edges: &[Edge], key: &[u8]) -> usize
    requires some { 1 ≤ length edges.now }
    requires rising { AreRising edges.now }
    ensures edge { slice_get edges.now result ≡ edge_of edges.now key.now }
    ensures within { result < length edges.now }
{
    edge_place_with::<Brand>(edges, key, Blank::new(1))
}

// The same, counted in a ledger.
fn edge_place_with<L: Ledger>(edges: &[Edge], key: &[u8], blank: Blank) -> usize
    requires some { 1 ≤ length edges.now }
    requires rising { AreRising edges.now }
    requires name { blank.name ≡ L.name }
    requires parts { blank.parts ≡ L.parts }
    requires all { 0 < L.parts }
    ensures edge { slice_get edges.now result ≡ edge_of edges.now key.now }
    ensures within { result < length edges.now }
{
    let mut steps = Steps::<L>::new(blank);
    bd_node::place(edges, key, &mut steps)
}

// What an edge and the messages that it hasn't seen say, where the edge's keys end at `end`.
fn through(
    alloc: Global,
    edge: &Edge,
    buffer: &Messages,
    key: &[u8],
    end: Option<Bytes>,
) -> Result<Stretch, AllocError>
    requires edge { IsWay edge.now key.now end }
    requires seen { edge.now.seen ≤ length buffer.now }
    requires messages { AllByRecursion IsMessage buffer.now }
    requires end { IsEnd key.now end_limit end }
    ensures stretch { IfOk result (λ stretch. (below : NodesAt)
        → IsStretch below (edge_at below edge.now buffer.now) key.now stretch) }
    ensures end { IfOk result (λ stretch. HasEnd key.now stretch) }
    ensures within { IfOk result (λ stretch. EndsBy end stretch) }
    ensures named { IfOk result (λ stretch.
        AsksOneOf (edge_names edge.now ++ flat_map message_names buffer.now) stretch) }
    ensures asks { IfOk result (λ stretch.
        asked_through (Some edge.now) buffer.now key.now ≡ asked_in stretch key.now) }
{
    let Newest { place, end } = newest_touching(alloc, buffer, edge.seen as usize, key, end)?;
    let list = buffer.as_slice();
    match place {
        Some(place) if gives_value(&list[place]) => {
            Ok(Stretch::Present(part_through(alloc, edge, buffer, key)?))
        }
        Some(place) => of_message(alloc, &list[place], key, end),
        None => of_edge(edge, key, end),
    }
}

// The newest message from a place on that can change the key.
fn newest_touching(
    alloc: Global,
    buffer: &Messages,
    seen: usize,
    key: &[u8],
    end: Option<Bytes>,
) -> Result<Newest, AllocError>
    requires messages { AllByRecursion IsMessage buffer.now }
    requires end { IsEnd key.now end_limit end }
    ensures newest { IfOk result (λ newest.
        IsNewest buffer.now seen key.now newest.place newest.end) }
    ensures end { IfOk result (λ newest. IsEnd key.now end_limit newest.end) }
    ensures within { IfOk result (λ newest. IsWithin newest.end end) }
{
    let place = buffer.newest_touching(seen, key);
    let from = after(buffer, place, seen);
    let end = before_points(alloc, buffer, from, key, end)?;
    let end = before_ranges(alloc, buffer, from, key, end)?;
    Ok(Newest { place, end })
}

// The place after one, and where there is none, `seen`.
fn after(buffer: &Messages, place: Option<usize>, seen: usize) -> usize
    requires { IfSome place (λ place. place < length buffer.now) }
    ensures { result ≡ after place seen }
{
    let _count = buffer.len();
    match place {
        Some(place) => place + 1,
        None => seen,
    }
}

// The end of the keys from this one up to `end` before the first that a message on one key changes,
// of those from a place on.
fn before_points(
    alloc: Global,
    buffer: &Messages,
    from: usize,
    key: &[u8],
    end: Option<Bytes>,
) -> Result<Option<Bytes>, AllocError>
    requires messages { AllByRecursion IsMessage buffer.now }
    requires none { NoneTouches buffer.now from (length buffer.now) key.now }
    requires end { IsEnd key.now end_limit end }
    ensures end { IfOk result (λ new. IsEnd key.now end_limit new) }
    ensures within { IfOk result (λ new. IsWithin new end) }
    ensures none { IfOk result (λ new. NoneAmong is_point_at buffer.now from key.now new) }
{
    match buffer.next_point(from, key) {
        Some(place) => {
            let list = buffer.as_slice();
            Ok(narrowed(alloc, &list[place], key, end)?)
        }
        None => Ok(end),
    }
}

// The end of the keys from this one up to `end` before the first that a message on a range of keys
// changes, of those from a place on.
fn before_ranges(
    alloc: Global,
    buffer: &Messages,
    from: usize,
    key: &[u8],
    end: Option<Bytes>,
) -> Result<Option<Bytes>, AllocError>
    requires messages { AllByRecursion IsMessage buffer.now }
    requires none { NoneTouches buffer.now from (length buffer.now) key.now }
    requires end { IsEnd key.now end_limit end }
    ensures end { IfOk result (λ new. IsEnd key.now end_limit new) }
    ensures within { IfOk result (λ new. IsWithin new end) }
    ensures none { IfOk result (λ new. NoneAmong is_range_at buffer.now from key.now new) }
{
    let list = buffer.as_slice();
    let mut end = end;
    let mut at = from;
    while let Some(place) = buffer.next_range(at) {
        end = narrowed(alloc, &list[place], key, end)?;
        at = place + 1;
    }
    Ok(end)
}

// Whether a message leaves a value at a key that it changes, whatever the nodes have.
fn gives_value(message: &Message) -> bool
    ensures { result ≡ gives_value message.now }
{
    matches!(message, Message::Put { .. } | Message::Patch { .. })
}

// What a message says that can change the key, and gives it no value of its own.
fn of_message(
    alloc: Global,
    message: &Message,
    key: &[u8],
    end: Option<Bytes>,
) -> Result<Stretch, AllocError>
    requires message { IsMessage message.now }
    requires touches { touches message.now key.now ≡ true }
    requires takes { gives_value message.now ≡ false }
    requires end { IsEnd key.now end_limit end }
    ensures stretch { IfOk result (λ stretch. (below : NodesAt) (old : Option (List ℕ))
        → IsStretch below (λ k. act below message.now k old) key.now stretch) }
    ensures end { IfOk result (λ stretch. HasEnd key.now stretch) }
    ensures within { IfOk result (λ stretch. EndsBy end stretch) }
    ensures named { IfOk result (λ stretch. AsksOneOf (message_names message.now) stretch) }
    ensures asks { IfOk result (λ stretch. (old : Option Question)
        → asked_by message.now key.now old ≡ asked_in stretch key.now) }
{
    match message {
        Message::Put { .. } | Message::Patch { .. } => unreachable!(),
        Message::Del { .. } => {
            let end = Some(successor(alloc, key)?);
            Ok(Stretch::Absent { end })
        }
        Message::Cut { prefix, .. } => {
            let end = end_within(alloc, prefix.as_slice(), key, end)?;
            Ok(Stretch::Absent { end })
        }
        Message::Goto {
            prefix,
            source,
            child,
        } => Ok(Stretch::Child {
            end: end_within(alloc, prefix.as_slice(), key, end)?,
            child: *child,
            lift: prefix.len(),
            source: source.clone()?,
        }),
    }
}

// What an edge says where no message changes that.
fn of_edge(edge: &Edge, key: &[u8], end: Option<Bytes>) -> Result<Stretch, AllocError>
    requires edge { IsWay edge.now key.now end }
    requires end { IsEnd key.now end_limit end }
    ensures stretch { IfOk result (λ stretch. (below : NodesAt)
        → IsStretch below
        (λ k. child_at below edge.now.child (edge.now.source ++ drop edge.now.lift k))
        key.now stretch) }
    ensures end { IfOk result (λ stretch. HasEnd key.now stretch) }
    ensures within { IfOk result (λ stretch. EndsBy end stretch) }
    ensures named { IfOk result (λ stretch. AsksOneOf (edge_names edge.now) stretch) }
    ensures asks { IfOk result (λ stretch.
        asked_first edge.now key.now ≡ asked_in stretch key.now) }
{
    match edge.child {
        Some(child) => Ok(Stretch::Child {
            end,
            child,
            lift: edge.lift as usize,
            source: edge.source.clone()?,
        }),
        None => Ok(Stretch::Absent { end }),
    }
}
