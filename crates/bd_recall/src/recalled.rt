//! What was found at keys.

ghost use Rattle.std.specs.Prelude.{◌≡◌, ◌≤◌, ◌<◌, ◌+◌, ◌↔◌, List, ℕ, length, IsTrue, IfOk};
ghost use Rattle.std.specs.Option.{option_copied};
ghost use Rattle.bd_limits.specs.Limits.{key_limit};
ghost use Rattle.bd_recall.specs.Sizes.{bytes_of, bytes_kept, bytes_limit, entry_size, size_before, value_limit, value_size};

use crate::finding::Finding;
use bd_limits::MAX_KEY;
use bd_message::Message;
use std::alloc::{AllocError, Global};
use std::collections::BTreeSet;

// How many bytes all that is kept counts at most.
const MAX_BYTES: usize = 8_388_608;

// How many bytes a value has at most that is kept.
const MAX_VALUE: usize = 64;

// Below how many bytes a key and its value lie in the entry's own place.
const NEAR: usize = 31;

// What such an entry counts.
const NEAR_SIZE: usize = 72;

// What another entry counts beside its bytes.
const FAR_BASE: usize = 96;

/// What was found at keys when they were looked up, or was written there: for a key of at most 518
/// bytes a value of at most 64 bytes, or none. What all of it counts is at most 8,388,608 bytes: an
/// entry of at most 30 bytes, with its value's, counts 72, and another one 96 and its bytes. Where
/// the next one would be more, it is emptied first, also where something is kept for the next
/// one's key. Where there is no memory, it keeps less.
#[derive(Drop)]
pub struct Recalled {
    alloc: Global,
    found: BTreeSet<Finding>,
    taken: usize,
    ghost counted: { bytes_kept found.keys ≡ taken },
    ghost small: { taken ≤ bytes_limit },
}

impl Recalled {
    ghost use Rattle.std.specs.Prelude.{[], ◌∷◌, false, true, None, IsSome, IfSome, IfNone, OnOk, OnErr};
    ghost use Rattle.std.specs.Option.{option_map};
    ghost use Rattle.bd_message.specs.Effect.{begins};
    ghost use Rattle.bd_recall.specs.Kept.{findings, kept_for, IsEmpty, KeepsNone, KeepsFewer, KeepsOthers, KeepsOne, KeepsInstead, KeepsWritten, KeepsOutside, KeepsUngrafted};

    /// Nothing is kept yet.
    pub fn new(alloc: Global) -> Recalled
        ensures { KeepsNone (findings result) }
    {
        Recalled {
            alloc,
            found: BTreeSet::new(alloc),
            taken: 0,
        }
    }

    /// What is kept for a key, as the caller's own: a value, or that there is none.
    pub fn find(&self, key: &[u8]) -> Result<Option<Option<Vec<u8>>>, AllocError>
        ensures { IfOk result (λ found.
            option_map bytes_of found ≡ kept_for (findings self.now) key.now) }
    {
        let asked = Finding::new(self.alloc, key, None)?;
        match self.found.get(&asked) {
            None => Ok(None),
            Some(found) => Ok(Some(copied(self.alloc, found.value())?)),
        }
    }

    /// Keeps what was found at a key, where it is small and there is memory.
    pub fn keep(&mut self, key: &[u8], value: Option<&[u8]>)
        ensures { KeepsOne (findings self.old) key.now (option_copied value.entry)
            (findings self.new) }
    {
        if is_small(key, value) {
            let _ = self.add(key, value);
        }
    }

    // Keeps a small value for a key, where nothing is kept for it and there is memory: one search,
    // as there is no other entry to take out.
    fn add(&mut self, key: &[u8], value: Option<&[u8]>) -> Result<(), AllocError>
        requires key { length key.now ≤ key_limit }
        requires value { value_size (option_copied value) ≤ value_limit }
        ensures { KeepsOne (findings self.old) key.now (option_copied value.entry)
            (findings self.new) }
    {
        let finding = Finding::new(self.alloc, key, value)?;
        let size = size_of(key, value);
        self.make_room(size);
        if self.found.insert(finding)? {
            self.taken += size;
        }
        Ok(())
    }

    // Keeps what was written at a key, where it is small and there is memory, and else nothing
    // for it.
    fn replace(&mut self, key: &[u8], value: Option<&[u8]>)
        ensures { KeepsInstead (findings self.old) key.now (option_copied value.entry)
            (findings self.new) }
    {
        if !self.store(key, value) {
            self.forget(key);
        }
    }

    // Keeps a value for a key in place of what is kept for it, and says whether it does.
    fn store(&mut self, key: &[u8], value: Option<&[u8]>) -> bool
        ensures stored { result ≡ true → KeepsInstead (findings self.old) key.now
            (option_copied value.entry) (findings self.new) }
        ensures fewer { result ≡ false → KeepsFewer (findings self.old) (findings self.new) }
    {
        is_small(key, value) && self.put(key, value).is_ok()
    }

    // Keeps a small value for a key in place of what is kept for it, where there is memory.
    fn put(&mut self, key: &[u8], value: Option<&[u8]>) -> Result<(), AllocError>
        requires key { length key.now ≤ key_limit }
        requires value { value_size (option_copied value) ≤ value_limit }
        ensures stored { OnOk result (KeepsInstead (findings self.old) key.now
            (option_copied value.entry) (findings self.new)) }
        ensures fewer { OnErr result (KeepsFewer (findings self.old) (findings self.new)) }
    {
        let finding = Finding::new(self.alloc, key, value)?;
        let size = size_of(key, value);
        self.make_room(size);
        let before = self.found.replace(finding)?;
        self.taken += size;
        self.taken -= size_before(&before);
        Ok(())
    }

    // Empties it where there is no room for an entry of this size.
    fn make_room(&mut self, size: usize)
        requires { size ≤ bytes_limit }
        ensures size { self.new.taken + size ≤ bytes_limit }
        ensures fewer { KeepsFewer (findings self.old) (findings self.new) }
    {
        if self.taken > MAX_BYTES - size {
            self.clear();
        }
    }

    /// Keeps what is known after these messages: what they leave at keys whose values they put or
    /// delete, and what they don't change.
    pub fn follow(&mut self, list: &[Message])
        ensures { KeepsWritten (findings self.old) list.now (findings self.new) }
    {
        for message in list {
            self.follow_one(message);
        }
    }

    // Keeps what is known after a message.
    fn follow_one(&mut self, message: &Message)
        ensures { KeepsWritten (findings self.old) (message.now ∷ []) (findings self.new) }
    {
        match message {
            Message::Put { key, value } => self.replace(key.as_slice(), Some(value.as_slice())),
            Message::Del { key } => self.replace(key.as_slice(), None),
            Message::Patch { key, .. } => self.forget(key.as_slice()),
            Message::Cut { .. } | Message::Goto { .. } => self.clear(),
        }
    }

    /// Keeps nothing any more for keys that begin with `d`, and without `keep` for keys that begin
    /// with `s`. Each of the two prefixes costs a look-up, and two for each key that is forgotten;
    /// where there is no memory, all is forgotten.
    pub fn forget_grafted(&mut self, s: &[u8], d: &[u8], keep: bool)
        ensures { KeepsUngrafted (findings self.old) s.now d.now keep (findings self.new) }
    {
        self.forget_within(d);
        if !keep {
            self.forget_within(s);
        }
    }

    // Keeps nothing any more for keys that begin with a prefix.
    fn forget_within(&mut self, prefix: &[u8])
        ensures { KeepsOutside (findings self.old) prefix.now (findings self.new) }
    {
        if self.forget_each(prefix).is_err() {
            self.clear();
        }
    }

    // The same, one key after the other, while there is memory.
    fn forget_each(&mut self, prefix: &[u8]) -> Result<(), AllocError>
        ensures { OnOk result (KeepsOutside (findings self.old) prefix.now (findings self.new)) }
    {
        let prefix = Finding::new(self.alloc, prefix, None)?;
        while let Some(found) = self.first_within(&prefix)? {
            self.take_out(&found);
        }
        Ok(())
    }

    // A key that is kept and begins with a prefix.
    fn first_within(&self, prefix: &Finding) -> Result<Option<Finding>, AllocError>
        ensures found { IfOk result (λ found. IfSome found (λ f.
            IsSome (kept_for (findings self.now) f.0))) }
        ensures none { IfOk result (λ found. IfNone found ((k : List ℕ)
            → IfSome (kept_for (findings self.now) k) (λ _. begins k prefix.now.0 ≡ false))) }
    {
        let front = prefix.key();
        match self.found.range(prefix..).next() {
            Some(found) if found.key().starts_with(front) => {
                Ok(Some(Finding::new(self.alloc, found.key(), None)?))
            }
            _ => Ok(None),
        }
    }

    // Keeps nothing for a key any more; where there is no memory, nothing at all.
    fn forget(&mut self, key: &[u8])
        ensures { KeepsOthers (findings self.old) key.now (findings self.new) }
    {
        match Finding::new(self.alloc, key, None) {
            Ok(asked) => self.take_out(&asked),
            Err(_) => self.clear(),
        }
    }

    // Keeps nothing any more for the key that this one has.
    fn take_out(&mut self, asked: &Finding)
        ensures others { KeepsOthers (findings self.old) asked.now.0 (findings self.new) }
        ensures fewer { IsSome (kept_for (findings self.old) asked.now.0)
            → length (findings self.new) < length (findings self.old) }
    {
        let removed = self.found.take(asked);
        self.taken -= size_before(&removed);
    }

    /// Keeps nothing any more.
    pub fn clear(&mut self)
        ensures none { KeepsNone (findings self.new) }
        ensures empty { IsEmpty self.new }
    {
        self.found.clear();
        self.taken = 0;
    }
}

// Whether an entry may be kept.
fn is_small(key: &[u8], value: Option<&[u8]>) -> bool
    ensures { IsTrue result ↔ ((length key.now ≤ key_limit)
        × (value_size (option_copied value.entry) ≤ value_limit)) }
{
    key.len() <= MAX_KEY && value_len(value) <= MAX_VALUE
}

// How many bytes a value has.
fn value_len(value: Option<&[u8]>) -> usize
    ensures { result ≡ value_size (option_copied value.entry) }
{
    match value {
        None => 0,
        Some(value) => value.len(),
    }
}

// How many bytes an entry counts.
fn size_of(key: &[u8], value: Option<&[u8]>) -> usize
    requires { entry_size key.now (option_copied value) ≤ bytes_limit }
    ensures { result ≡ entry_size key.now (option_copied value.entry) }
{
    let size = key.len() + value_len(value);
    if size < NEAR {
        NEAR_SIZE
    } else {
        FAR_BASE + size
    }
}

// How many bytes what was kept counts, none where nothing was.
fn size_before(found: &Option<Finding>) -> usize
    requires { size_before found.now ≤ bytes_limit }
    ensures { result ≡ size_before found.now }
{
    match found {
        None => 0,
        Some(found) => size_of(found.key(), found.value()),
    }
}

/// A value that was found, where one was.
pub fn shown(value: &Option<Vec<u8>>) -> Option<&[u8]>
    ensures { option_copied result ≡ bytes_of value.now }
{
    match value {
        None => None,
        Some(value) => Some(value.as_slice()),
    }
}

// A copy of a value.
fn copied(alloc: Global, value: Option<&[u8]>) -> Result<Option<Vec<u8>>, AllocError>
    ensures { IfOk result (λ copy. bytes_of copy ≡ option_copied value.entry) }
{
    match value {
        None => Ok(None),
        Some(value) => Ok(Some(Vec::from_slice(alloc, value)?)),
    }
}
