//! A leaf's entries and what is done to them, in one walk over both.

ghost use Rattle.std.specs.Prelude.{◌≡◌, ◌<◌, ◌≤◌, ◌+◌, ◌^◌, ◌++◌, length, IfOk, OnOk, take, drop, [], Some, slice_get};
ghost use Rattle.std.specs.List.{AllByRecursion};
ghost use Rattle.std.specs.Option.{option_copied, unwrap_or};
ghost use Rattle.bd_limits.specs.Limits.{key_limit};
ghost use Rattle.bd_keys.specs.Edits.{overwritten};
ghost use Rattle.bd_keys.specs.Keys.{IsBelow, IsAtLeast};
ghost use Rattle.bd_node.specs.declared.node.Entry.{Entry};
ghost use Rattle.bd_message.specs.declared.message.Message.{Message};
ghost use Rattle.bd_node.specs.Index.{own_key};
ghost use Rattle.bd_node.specs.Shape.{IsRising};
ghost use Rattle.bd_leaf.specs.Leaves.{AreEntries};
ghost use Rattle.bd_leaf.specs.Points.{IsPoint, IsOn, AreInTurn, message_of, messages_of, value_after, value_after_all};
ghost use Rattle.bd_leaf.specs.Merging.{AreMoved, AreOwn, IsMerged, IsStep, IsTaken, bytes_of, count_of, entry_of};

use crate::points::Point;
use bd_keys::{Bytes, overwritten};
use bd_message::Message;
use bd_node::Entry;
use std::alloc::{AllocError, Global};

// A value before it is kept: none, one that stands somewhere else, or a new one.
#[derive(Drop)]
enum Value<'a> {
    Nothing,
    Lent(&'a [u8]),
    Made(Vec<u8>),
}

/// The entries after what is done to them, where the points stand in the order of their keys.
pub fn merged(alloc: Global, entries: &[Entry], points: &[Point]) -> Result<Vec<Entry>, AllocError>
    requires entries { AreEntries entries.now }
    requires points { AllByRecursion IsPoint (messages_of points.now) }
    requires turn { AreInTurn (messages_of points.now) }
    ensures { IfOk result (λ new. IsMerged entries.now (messages_of points.now) new.items) }
{
    let mut new = Vec::with_capacity(alloc, entries.len().saturating_add(points.len()))?;
    let mut low = 0;
    let mut at = 0;
    while at < points.len() {
        let key = points[at].key();
        let end = at + count_on(&points[at..], key);
        low += merge_at(alloc, &mut new, &entries[low..], key, &points[at..end])?;
        at = end;
    }
    copy_all(&mut new, &entries[low..])?;
    Ok(new)
}

// How many of the first points are at the key.
fn count_on(points: &[Point], key: &[u8]) -> usize
    requires first { (m : Message) → slice_get (messages_of points.now) 0 ≡ Some m
        → own_key m ≡ key.now }
    requires some { 1 ≤ length points.now }
    ensures { AreOwn (messages_of points.now) key.now result }
{
    for place in 1..points.len() {
        if points[place].key() != key {
            return place;
        }
    }
    points.len()
}

// Makes the next entries, those below a key and then that of the key after what is done there, and
// returns how many of the rest they stand for.
fn merge_at(
    alloc: Global,
    new: &mut Vec<Entry>,
    rest: &[Entry],
    key: &[u8],
    own: &[Point],
) -> Result<usize, AllocError>
    requires entries { AreEntries (new.old.items ++ rest.now) }
    requires before { AllByRecursion (λ (e : Entry). IsBelow e.key key.now) new.old.items }
    requires key { length key.now ≤ key_limit }
    requires own { AllByRecursion (IsOn key.now) (messages_of own.now) }
    ensures { IfOk result (λ count. IsStep new.old.items rest.now key.now (messages_of own.now)
        new.new.items count) }
{
    let below = copy_below(new, rest, key)?;
    let old = taken(&rest[below..], key);
    let value = value_after(alloc, old, own)?;
    push_value(alloc, new, key, value)?;
    Ok(below + count(old))
}

// Adds the entry of a key, if it has a value.
fn push_value(
    alloc: Global,
    new: &mut Vec<Entry>,
    key: &[u8],
    value: Option<Bytes>,
) -> Result<(), AllocError>
    ensures { OnOk result (new.new.items ≡ new.old.items ++ entry_of key.now value) }
{
    if let Some(value) = value {
        let key = Bytes::from_slice(alloc, key)?;
        new.push(Entry { key, value })?;
    }
    Ok(())
}

// How many entries a value is.
fn count(value: Option<&[u8]>) -> usize
    ensures { result ≡ count_of (option_copied value.entry) }
{
    match value {
        Some(_) => 1,
        None => 0,
    }
}

// Copies the entries below a key, and returns how many they are.
fn copy_below(new: &mut Vec<Entry>, rest: &[Entry], key: &[u8]) -> Result<usize, AllocError>
    requires rising { IsRising rest.now }
    requires before { AllByRecursion (λ (e : Entry). IsBelow e.key key.now) new.old.items }
    ensures { IfOk result (λ count.
        AreMoved new.old.items rest.now key.now new.new.items count) }
{
    let mut place = 0;
    while place < rest.len() && rest[place].key.as_slice().cmp(key).is_lt() {
        new.push(rest[place].clone()?)?;
        place += 1;
    }
    Ok(place)
}

// Copies all entries.
fn copy_all(new: &mut Vec<Entry>, rest: &[Entry]) -> Result<(), AllocError>
    ensures { OnOk result (new.new.items ≡ new.old.items ++ rest.now) }
{
    for entry in rest {
        new.push(entry.clone()?)?;
    }
    Ok(())
}

// The value of a key that no entry is below, if the first one has it.
fn taken<'a>(entries: &'a [Entry], key: &[u8]) -> Option<&'a [u8]>
    requires rising { IsRising entries.now }
    requires least { AllByRecursion (λ (e : Entry). IsAtLeast e.key key.now) entries.now }
    ensures { IsTaken entries.now key.now (option_copied result) }
{
    match entries.first() {
        None => None,
        Some(first) => {
            if first.key.as_slice() == key {
                Some(first.value.as_slice())
            } else {
                None
            }
        }
    }
}

// What is left of a value after what is done to it.
fn value_after(
    alloc: Global,
    old: Option<&[u8]>,
    own: &[Point],
) -> Result<Option<Bytes>, AllocError>
    requires { AllByRecursion IsPoint (messages_of own.now) }
    ensures { IfOk result (λ new.
        new ≡ value_after_all (messages_of own.now) (option_copied old.entry)) }
{
    let mut value = lent(old);
    for point in own {
        value = changed(alloc, value, point)?;
    }
    kept(alloc, value)
}

// A value that stands somewhere, if there is one.
fn lent(value: Option<&[u8]>) -> Value
    ensures { bytes_of result ≡ option_copied value.entry }
{
    match value {
        Some(bytes) => Value::Lent(bytes),
        None => Value::Nothing,
    }
}

// A value in memory of its own, if there is one.
fn kept(alloc: Global, value: Value) -> Result<Option<Bytes>, AllocError>
    ensures { IfOk result (λ new. new ≡ bytes_of value.entry) }
{
    match value {
        Value::Nothing => Ok(None),
        Value::Lent(bytes) => Ok(Some(Bytes::from_slice(alloc, bytes)?)),
        Value::Made(bytes) => {
            let mut bytes = bytes;
            bytes.shrink_to_fit();
            Ok(Some(Bytes::from_vec(bytes)))
        }
    }
}

// A value after one thing that is done to it.
fn changed<'a>(alloc: Global, value: Value<'a>, point: &Point<'a>) -> Result<Value<'a>, AllocError>
    requires { IsPoint (message_of point.now) }
    ensures { IfOk result (λ new.
        bytes_of new ≡ value_after (message_of point.now) (bytes_of value.entry)) }
{
    let message = match point {
        Point::Sent(message) => message,
        Point::Dropped(_) => return Ok(Value::Nothing),
    };
    match message {
        Message::Put { value, .. } => Ok(Value::Lent(value.as_slice())),
        Message::Del { .. } => Ok(Value::Nothing),
        Message::Patch { off, bytes, .. } => {
            Ok(Value::Made(patched(alloc, value, *off as usize, bytes.as_slice())?))
        }
        Message::Cut { .. } | Message::Goto { .. } => unreachable!(),
    }
}

// A value that is extended with zeros to an offset and overwritten from there on, in its own memory
// where it has some and is long enough.
fn patched(alloc: Global, value: Value, off: usize, bytes: &[u8]) -> Result<Vec<u8>, AllocError>
    requires { off + length bytes.now < 2 ^ 64 }
    ensures { IfOk result (λ new.
        new.items ≡ overwritten (unwrap_or (bytes_of value.entry) []) off bytes.now) }
{
    match value {
        Value::Nothing => overwritten(alloc, &[], off, bytes),
        Value::Lent(old) => overwritten(alloc, old, off, bytes),
        Value::Made(old) if off + bytes.len() <= old.len() => Ok(overlaid(old, off, bytes)),
        Value::Made(old) => overwritten(alloc, old.as_slice(), off, bytes),
    }
}

// Bytes overwritten within their length.
fn overlaid(old: Vec<u8>, off: usize, bytes: &[u8]) -> Vec<u8>
    requires { off + length bytes.now ≤ length old.items }
    ensures { result.items ≡ take off old.items ++ bytes.now
        ++ drop (off + length bytes.now) old.items }
{
    let mut old = old;
    old[off..off + bytes.len()].copy_from_slice(bytes);
    old
}
