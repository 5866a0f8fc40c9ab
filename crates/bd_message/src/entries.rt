//! Keys with their values, in no order; the first one of a key counts.

ghost use Rattle.std.specs.Prelude.{◌≡◌, ◌≤◌, ◌+◌, ◌++◌, ℕ, List, not, length, Some, All, IfOk, OnOk, IsTrue, ◌↔◌, [], ◌∷◌};
ghost use Rattle.std.specs.Option.{option_copied, option_map, unwrap_or};
ghost use Rattle.std.specs.List.{filter, filter_map};
ghost use Rattle.bd_keys.specs.Keys.{IsAtLeast, Begins};
ghost use Rattle.bd_limits.specs.Limits.{block_limit};
ghost use Rattle.bd_message.specs.Effect.{begins, is_cut};
ghost use Rattle.bd_keys.specs.Edits.{overwritten};
ghost use Rattle.bd_message.specs.declared.message.Message.TheVariants as message;
ghost use Rattle.bd_message.specs.Messages.{IsMessage, IsPlain};
ghost use Rattle.bd_message.specs.KeyMaps.{IsNext, IsNextEntry, grafted};
ghost use Rattle.bd_message.specs.Entries.{entry_at, others, moved_entry, IsActed, IsLesser};

use crate::Message;
use bd_keys::{Bytes, overwritten, starts, translate};
use std::alloc::{AllocError, Global};

/// A key and its value.
pub type Entry = (Bytes, Bytes);

/// What stands at a key.
pub fn find<'a>(entries: &'a [Entry], key: &[u8]) -> Option<&'a [u8]>
    ensures { option_copied result ≡ entry_at entries.now key.now }
{
    for (at, value) in entries {
        if at.as_slice() == key {
            return Some(value.as_slice());
        }
    }
    None
}

/// Drops what stands at a key.
fn remove(entries: &mut Vec<Entry>, key: &[u8])
    ensures { entries.new.items ≡ others key.now entries.old.items }
{
    entries.retain(|(at, _)| at.as_slice() != key);
}

/// Puts a value at a key, in place of what stands there.
fn put(alloc: Global, entries: &mut Vec<Entry>, key: &Bytes, value: Bytes) -> Result<(), AllocError>
    ensures { OnOk result
        (entries.new.items ≡ others key.now entries.old.items ++ (key.now, value) ∷ []) }
{
    let key = key.clone()?;
    remove(entries, key.as_slice());
    entries.push((key, value))?;
    Ok(())
}

/// The bytes extended with zeros to an offset, and overwritten from there on, where nothing counts
/// as no bytes.
fn patched(
    alloc: Global,
    old: Option<&[u8]>,
    off: usize,
    bytes: &[u8],
) -> Result<Vec<u8>, AllocError>
    requires { off + length bytes.now ≤ block_limit }
    ensures { IfOk result (λ new.
        new.items ≡ overwritten (unwrap_or (option_copied old.entry) []) off bytes.now) }
{
    match old {
        Some(old) => overwritten(alloc, old, off, bytes),
        None => overwritten(alloc, &[], off, bytes),
    }
}

/// Whether a key is the prefix and then `from` or what stands after it.
fn is_cut(prefix: &[u8], from: &[u8], key: &[u8]) -> bool
    ensures { result ≡ is_cut prefix.now from.now key.now }
{
    key.starts_with(prefix) && !key[prefix.len()..].cmp(from).is_lt()
}

/// Changes what stands at the keys by a message.
fn act(alloc: Global, entries: &mut Vec<Entry>, message: &Message) -> Result<(), AllocError>
    requires message { IsMessage message.now }
    requires plain { IsPlain message.now }
    ensures { OnOk result (IsActed entries.old.items (message.now ∷ []) entries.new.items) }
{
    match message {
        Message::Put { key, value } => put(alloc, entries, key, value.clone()?)?,
        Message::Del { key } => remove(entries, key.as_slice()),
        Message::Patch { key, off, bytes } => patch(alloc, entries, key, *off as usize, bytes)?,
        Message::Cut { prefix, from } => cut(entries, prefix.as_slice(), from.as_slice()),
        Message::Goto { .. } => unreachable!(),
    }
    Ok(())
}

/// Patches what stands at a key.
fn patch(
    alloc: Global,
    entries: &mut Vec<Entry>,
    key: &Bytes,
    off: usize,
    bytes: &Bytes,
) -> Result<(), AllocError>
    requires { off + length bytes.now ≤ block_limit }
    ensures { OnOk result (IsActed entries.old.items
        (message.Patch key.now off bytes.now ∷ []) entries.new.items) }
{
    let value = patched(alloc, find(entries, key.as_slice()), off, bytes.as_slice())?;
    put(alloc, entries, key, Bytes::from_vec(value))
}

/// Drops what stands at the keys that are the prefix and then `from` or what stands after it.
fn cut(entries: &mut Vec<Entry>, prefix: &[u8], from: &[u8])
    ensures { entries.new.items
        ≡ filter (λ e. not (is_cut prefix.now from.now e.0)) entries.old.items }
{
    entries.retain(|(key, _)| !is_cut(prefix, from, key.as_slice()));
}

/// Changes what stands at the keys by messages, the first one first.
pub fn act_all(alloc: Global, entries: &mut Vec<Entry>, list: &[Message]) -> Result<(), AllocError>
    requires messages { All IsMessage list.now }
    requires plain { All IsPlain list.now }
    ensures { OnOk result (IsActed entries.old.items list.now entries.new.items) }
{
    for message in list {
        act(alloc, entries, message)?;
    }
    Ok(())
}

/// Drops what stands at the keys that begin with a prefix.
fn remove_under(entries: &mut Vec<Entry>, prefix: &[u8])
    ensures { entries.new.items ≡ filter (λ e. not (begins e.0 prefix.now)) entries.old.items }
{
    entries.retain(|(key, _)| !key.as_slice().starts_with(prefix));
}

/// What stands at the keys that begin with `s`, at the same keys after `d`.
fn moved(alloc: Global, entries: &[Entry], s: &[u8], d: &[u8]) -> Result<Vec<Entry>, AllocError>
    ensures { IfOk result (λ moved.
        moved.items ≡ filter_map (moved_entry s.now d.now) entries.now) }
{
    let mut moved = Vec::new(alloc);
    for (key, value) in entries {
        if key.as_slice().starts_with(s) {
            let key = translate(alloc, key.as_slice(), s.len(), d)?;
            moved.push((Bytes::from_vec(key), value.clone()?))?;
        }
    }
    Ok(moved)
}

/// The entries after a graft.
pub fn grafted(
    alloc: Global,
    entries: &[Entry],
    s: &[u8],
    d: &[u8],
    keep: bool,
) -> Result<Vec<Entry>, AllocError>
    ensures { IfOk result (λ new. (k : List ℕ) →
        entry_at new.items k ≡ grafted (entry_at entries.now) s.now d.now keep k) }
{
    let mut new = Vec::from_clones(alloc, entries)?;
    remove_under(&mut new, d);
    new.append(&mut moved(alloc, entries, s, d)?)?;
    if !keep {
        remove_under(&mut new, s);
    }
    Ok(new)
}

/// The least key that is at least `from` and begins with `within`, and its value.
pub fn next_entry<'a>(
    entries: &'a [Entry],
    from: &[u8],
    within: &[u8],
) -> Option<(&'a [u8], &'a [u8])>
    ensures { IsNextEntry (entry_at entries.now) from.now within.now
        (option_map (λ entry. (entry.0.now, entry.1.now)) result) }
{
    let key = next(entries, from, within)?;
    let value = find(entries, key)?;
    Some((key, value))
}

// The key.
fn next<'a>(entries: &'a [Entry], from: &[u8], within: &[u8]) -> Option<&'a [u8]>
    ensures { IsNext (entry_at entries.now) from.now within.now (option_copied result) }
{
    let mut least = None;
    for (key, _) in entries {
        if is_asked(key.as_slice(), from, within) {
            least = Some(lesser(least, key.as_slice()));
        }
    }
    least
}

/// Whether a key isn't below `from` and begins with `within`.
fn is_asked(key: &[u8], from: &[u8], within: &[u8]) -> bool
    ensures { IsTrue result ↔ (IsAtLeast key.now from.now × Begins key.now within.now) }
{
    !key.cmp(from).is_lt() && starts(key, within)
}

/// The lesser key.
fn lesser<'a>(least: Option<&'a [u8]>, key: &'a [u8]) -> &'a [u8]
    ensures { IsLesser (option_copied least.entry) key.now result.now }
{
    match least {
        Some(least) if !key.cmp(least).is_lt() => least,
        _ => key,
    }
}
