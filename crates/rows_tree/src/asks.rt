//! Lines that ask the keys: `get KEY VALUE`, `has KEY`, `none KEY`, `next FROM WITHIN KEY VALUE`,
//! `nothing FROM WITHIN` (there is no next one), `after` as `next` of the tree alone, `scan FROM WITHIN MOST FOUND`, what is found being
//! written as KEY=VALUE with a comma after each, `front FROM WITHIN` (scans of the tree find the first
//! of what those of the map find), `same KEYS` and `search FROMS WITHINS`, with commas between (the
//! tree answers as the map), and `keys COUNT` or `keys` (all have
//! the same keys, and the same at each).

use crate::machine::Machine;
use crate::stop::{Stop, ensure, within};
use crate::words::{WORDS, bytes, number};
use bd_message::KeyMap;
use bd_scan::{Found, Scan};
use std::alloc::{AllocError, Global};

/// Runs a line, if it is one of these.
pub fn run(machine: &mut Machine, words: &[&str; WORDS]) -> Result<bool, Stop> {
    match words[0] {
        "get" => get(machine, words)?,
        "has" | "none" => has(machine, words)?,
        "next" | "nothing" => next(machine, words)?,
        "after" => after(machine, words)?,
        "scan" => scan(machine, words)?,
        "front" => front(machine, words)?,
        "same" => same(machine, words)?,
        "search" => search(machine, words)?,
        "keys" => keys(machine, words[1])?,
        _ => return Ok(false),
    }
    Ok(true)
}

/// Whether this stands at a key.
pub fn is_at<M: KeyMap>(map: &mut M, key: &[u8], value: Option<&[u8]>) -> Result<(), Stop> {
    let found = map.get(key)?;
    ensure(found.as_ref().map(|found| found.as_slice()) == value)
}

/// All have a value at a key.
fn get(machine: &mut Machine, words: &[&str; WORDS]) -> Result<(), Stop> {
    let key = bytes(machine.alloc, words[1])?;
    let value = bytes(machine.alloc, words[2])?;
    let value = Some(value.as_slice());
    is_at(&mut machine.map, &key, value)?;
    is_at(&mut machine.tree, &key, value)?;
    machine.disk.is_at(&key, value)
}

/// The tree has something at a key, or nothing.
fn has(machine: &mut Machine, words: &[&str; WORDS]) -> Result<(), Stop> {
    let key = bytes(machine.alloc, words[1])?;
    let found = machine.tree.get(&key)?;
    ensure(found.is_some() == (words[0] == "has"))
}

/// Whether this is the next key with its value.
fn is_next<M: KeyMap>(
    map: &mut M,
    from: &[u8],
    within: &[u8],
    want: Option<(&[u8], &[u8])>,
) -> Result<(), Stop> {
    let found = map.next(from, within)?;
    let found = found
        .as_ref()
        .map(|(key, value)| (key.as_slice(), value.as_slice()));
    ensure(found == want)
}

/// Map and tree find a next key with its value, or none.
fn next(machine: &mut Machine, words: &[&str; WORDS]) -> Result<(), Stop> {
    let from = bytes(machine.alloc, words[1])?;
    let within = bytes(machine.alloc, words[2])?;
    let key = bytes(machine.alloc, words[3])?;
    let value = bytes(machine.alloc, words[4])?;
    let want = if words[0] == "next" {
        Some((key.as_slice(), value.as_slice()))
    } else {
        None
    };
    is_next(&mut machine.map, &from, &within, want)?;
    is_next(&mut machine.tree, &from, &within, want)
}

/// The tree finds a next key with its value.
fn after(machine: &mut Machine, words: &[&str; WORDS]) -> Result<(), Stop> {
    let from = bytes(machine.alloc, words[1])?;
    let within = bytes(machine.alloc, words[2])?;
    let key = bytes(machine.alloc, words[3])?;
    let value = bytes(machine.alloc, words[4])?;
    is_next(&mut machine.tree, &from, &within, Some((&key, &value)))
}

/// What was found, as KEY=VALUE with a comma after each.
fn text(alloc: Global, found: &[Found]) -> Result<Vec<u8>, AllocError> {
    let mut text = Vec::new(alloc);
    for each in found {
        text.extend_from_slice(each.key.as_slice())?;
        text.push(b'=')?;
        text.extend_from_slice(each.value.as_slice())?;
        text.push(b',')?;
    }
    Ok(text)
}

/// What a scan finds.
fn scanned<M: Scan>(
    alloc: Global,
    map: &mut M,
    range: (&[u8], &[u8]),
    most: usize,
) -> Result<Vec<u8>, Stop> {
    let (from, within) = range;
    let found = map.scan(alloc, from, within, most.max(1))?;
    Ok(text(alloc, &found)?)
}

/// A scan of the tree finds this.
fn scan(machine: &mut Machine, words: &[&str; WORDS]) -> Result<(), Stop> {
    let from = bytes(machine.alloc, words[1])?;
    let within = bytes(machine.alloc, words[2])?;
    let most = number(words[3])? as usize;
    let found = scanned(machine.alloc, &mut machine.tree, (&from, &within), most)?;
    ensure(found.as_slice() == words[4].as_bytes())
}

/// Scans of the tree find the first of what those of the map find, and something where those do.
fn front(machine: &mut Machine, words: &[&str; WORDS]) -> Result<(), Stop> {
    let from = bytes(machine.alloc, words[1])?;
    let within = bytes(machine.alloc, words[2])?;
    for most in [1, 3, 64] {
        is_front(machine, (&from, &within), most)?;
        is_front(machine, (&[], &within), most)?;
    }
    Ok(())
}

/// The same for one scan.
fn is_front(machine: &mut Machine, range: (&[u8], &[u8]), most: usize) -> Result<(), Stop> {
    let found = scanned(machine.alloc, &mut machine.tree, range, most)?;
    let want = scanned(machine.alloc, &mut machine.map, range, most)?;
    ensure(want.starts_with(&found) && found.is_empty() == want.is_empty())
}

/// Whether two maps have the same at a key.
fn are_same_at<A: KeyMap, B: KeyMap>(a: &mut A, b: &mut B, key: &[u8]) -> Result<(), Stop> {
    let want = a.get(key)?;
    let found = b.get(key)?;
    ensure(found == want)
}

/// Map and tree have the same at keys.
fn same(machine: &mut Machine, words: &[&str; WORDS]) -> Result<(), Stop> {
    for word in words[1].split(',') {
        let key = bytes(machine.alloc, word)?;
        are_same_at(&mut machine.map, &mut machine.tree, &key)?;
    }
    Ok(())
}

/// Map and tree find the same from keys on within prefixes.
fn search(machine: &mut Machine, words: &[&str; WORDS]) -> Result<(), Stop> {
    for word in words[1].split(',') {
        let from = bytes(machine.alloc, word)?;
        search_from(machine, &from, words[2])?;
    }
    Ok(())
}

/// The same from one key on.
fn search_from(machine: &mut Machine, from: &[u8], prefixes: &str) -> Result<(), Stop> {
    for word in prefixes.split(',') {
        let within = bytes(machine.alloc, word)?;
        let want = machine.map.next(from, &within)?;
        let found = machine.tree.next(from, &within)?;
        ensure(found == want)?;
    }
    Ok(())
}

/// Whether two maps find the same key from one on, which stands there then, if there is one.
fn is_same_next<A: KeyMap, B: KeyMap>(
    a: &mut A,
    b: &mut B,
    at: &mut Vec<u8>,
) -> Result<bool, Stop> {
    let want = a.next(at.as_slice(), &[])?;
    let found = b.next(at.as_slice(), &[])?;
    ensure(found == want)?;
    match found {
        Some((key, _value)) => {
            *at = key;
            Ok(true)
        }
        None => Ok(false),
    }
}

/// How many keys two maps have, if they have the same, and the same at each and at the one before the
/// next key.
pub fn same_keys<A: KeyMap, B: KeyMap>(alloc: Global, a: &mut A, b: &mut B) -> Result<u64, Stop> {
    let mut at = Vec::new(alloc);
    for count in 0..10_000 {
        if !is_same_next(a, b, &mut at)? {
            return Ok(count);
        }
        are_same_at(a, b, at.as_slice())?;
        at.push(0)?;
        are_same_at(a, b, at.as_slice())?;
    }
    Err(Stop::NoLine)
}

/// All have the same keys, and the same at each, and so many, where that is said.
fn keys(machine: &mut Machine, count: &str) -> Result<(), Stop> {
    let found = same_keys(machine.alloc, &mut machine.map, &mut machine.tree)?;
    machine.disk.has_keys_of(machine.alloc, &mut machine.map)?;
    if count.is_empty() {
        return Ok(());
    }
    let want = number(count)?;
    within(found, want, want)
}
