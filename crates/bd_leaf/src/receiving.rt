//! What messages make of a leaf's entries, and what a leaf has below a prefix.

ghost use Rattle.std.specs.Prelude.{◌≡◌, ◌≤◌, length, All, IfOk, map};
ghost use Rattle.bd_message.specs.Messages.{IsMessage, IsPlain};
ghost use Rattle.bd_leaf.specs.Leaves.{AreEntries, IsReceived, IsClipped, IsStart, IsEnd, without};

use crate::merging::merged;
use crate::points::{points_of, sort};
use crate::search;
use bd_keys::{Bytes, tail};
use bd_message::Message;
use bd_node::{Entries, Entry};
use std::alloc::{AllocError, Global};

/// The entries of a leaf after messages, the first one first, none of which names a node. A leaf that
/// they have made too large is for `split`.
pub fn receive(alloc: Global, entries: &[Entry], list: &[Message]) -> Result<Entries, AllocError>
    requires entries { AreEntries entries.now }
    requires messages { All IsMessage list.now }
    requires plain { All IsPlain list.now }
    ensures { IfOk result (λ new. IsReceived entries.now list.now new) }
{
    let mut points = points_of(alloc, entries, list)?;
    sort(&mut points)?;
    let mut new = merged(alloc, entries, points.as_slice())?;
    // Leaves are kept as they are, so none keeps memory that its entries don't need.
    new.shrink_to_fit();
    Ok(Entries::from_vec(new))
}

/// The entries of a leaf freed of a prefix: those whose keys begin with it, without it.
pub fn clip(alloc: Global, entries: &[Entry], prefix: &[u8]) -> Result<Entries, AllocError>
    requires { AreEntries entries.now }
    ensures { IfOk result (λ new. IsClipped entries.now prefix.now new) }
{
    let start = start_of(entries, prefix);
    let end = end_of(entries, start, prefix);
    let new = all_without(alloc, &entries[start..end], prefix.len())?;
    Ok(Entries::from_vec(new))
}

// The entries without so many bytes at the front of their keys.
fn all_without(alloc: Global, entries: &[Entry], count: usize) -> Result<Vec<Entry>, AllocError>
    ensures { IfOk result (λ new. new.items ≡ map (without count) entries.now) }
{
    let mut new = Vec::with_capacity(alloc, entries.len())?;
    for entry in entries {
        new.push(without(alloc, entry, count)?)?;
    }
    Ok(new)
}

// The same of one entry.
fn without(alloc: Global, entry: &Entry, count: usize) -> Result<Entry, AllocError>
    ensures { IfOk result (λ new. new ≡ without count entry.now) }
{
    let key = Bytes::from_slice(alloc, tail(entry.key.as_slice(), count))?;
    let value = entry.value.clone()?;
    Ok(Entry { key, value })
}

/// The place from which on keys are at least this one.
pub fn start_of(entries: &[Entry], key: &[u8]) -> usize
    requires { AreEntries entries.now }
    ensures { IsStart entries.now key.now result }
{
    match search(entries, key) {
        Ok(place) | Err(place) => place,
    }
}

/// The place up to which, from another one on, keys begin with a prefix.
pub fn end_of(entries: &[Entry], start: usize, prefix: &[u8]) -> usize
    requires { start ≤ length entries.now }
    ensures { IsEnd entries.now start prefix.now result }
{
    for place in start..entries.len() {
        if !entries[place].key.as_slice().starts_with(prefix) {
            return place;
        }
    }
    entries.len()
}
