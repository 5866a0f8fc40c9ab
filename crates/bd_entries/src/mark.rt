//! The last record that a pass has seen, and what may stand at the next key.

ghost use Rattle.std.specs.Prelude.{◌≡◌, ◌≢◌, ◌↔◌, ℕ, ◌+◌, ◌-◌, ◌*◌, ◌<◌, ◌≤◌, List, [], ◌∷◌, ◌++◌, length, slice_index, IsTrue, Some, IfOk, MatchOption};
ghost use Rattle.bd_limits.specs.Limits.{block_limit};
ghost use Rattle.bd_keys.specs.Keys.{Begins};
ghost use Rattle.bd_names.specs.Names.{AreNames, key_of};
ghost use Rattle.bd_records.specs.Records.{IsBlock};
ghost use Rattle.bd_message.specs.KeyMaps.{At, IsNextEntry};
ghost use Rattle.bd_represent.specs.EntryKeys.{record_key};
ghost use Rattle.bd_entries.specs.Fronts.{HasNoTree};
ghost use Rattle.bd_entries.specs.Marks.{mode_of, is_dir, IsAllowedAs, IsNumberIn, IsNumberOf, IsBlockAt, IsChildOf, IsSeen};

use bd_keys::{Bytes, starts};
use bd_limits::MAX_BLOCK;
use bd_names::Name;
use bd_records::{Record, is_block, read_record};
use bd_wire::Cursor;
use std::alloc::{AllocError, Global};

// The key of the record of `/`.
const ROOT_KEY: [u8; 2] = [0, 0];

// What follows the key of a file's path in the keys of its blocks, before the number.
const BLOCK_TAG: [u8; 2] = [0, 1];

// What follows the last name of a path in the key of its record.
const RECORD_END: [u8; 3] = [0, 0, 0];

/// The last record that a pass has seen.
#[derive(Drop)]
pub struct Mark {
    /// The key of its path: each name, and a zero byte after it.
    pub path: Bytes,
    /// What it says.
    pub entry: Record,
}

/// The mark after the first entry of a map, where it is the record of `/`, a directory's. Else no
/// tree has what stands in the map.
pub fn first_mark(alloc: Global, has_modes: bool, key: &[u8], value: &[u8]) -> Option<Mark>
    ensures { (at : At) → IsNextEntry at [] [] (Some (key.now, value.now))
        → MatchOption result (HasNoTree has_modes at) (IsSeen has_modes at (key.now ++ 0 ∷ [])) }
{
    if key != ROOT_KEY.as_slice() {
        return None;
    }
    let entry = read_allowed(value, has_modes)?;
    if is_dir(entry) {
        let path = Bytes::from_vec(Vec::new(alloc));
        Some(Mark { path, entry })
    } else {
        None
    }
}

/// The mark after one more entry, where it is a block of the file at the mark, or the record of a
/// child of a directory at the mark or above it. Else no tree has what stands in the map.
pub fn next_mark(
    alloc: Global,
    mark: Mark,
    has_modes: bool,
    key: &[u8],
    value: &[u8],
) -> Result<Option<Mark>, AllocError>
    ensures { (at : At) (low : List ℕ) → IsSeen has_modes at low mark
        → IsNextEntry at low [] (Some (key.now, value.now)) → IfOk result (λ next.
        MatchOption next (HasNoTree has_modes at) (IsSeen has_modes at (key.now ++ 0 ∷ []))) }
{
    if is_block_of(&mark, key, value) {
        return Ok(Some(mark));
    }
    let Some(path) = child_path(&mark, key) else {
        return Ok(None);
    };
    let Some(entry) = read_allowed(value, has_modes) else {
        return Ok(None);
    };
    let path = Bytes::from_slice(alloc, path)?;
    Ok(Some(Mark { path, entry }))
}

// Whether an entry is a block of the file at the mark, without a byte at or past the file's length.
fn is_block_of(mark: &Mark, key: &[u8], value: &[u8]) -> bool
    ensures { IsTrue result ↔ IsBlockAt mark.now key.now value.now }
{
    let Record::File(len, _) = mark.entry else {
        return false;
    };
    match block_number(mark.path.as_slice(), key) {
        Some(number) => is_inside(number, value, len),
        None => false,
    }
}

// Whether these can be the bytes of a block with this number, in a file that has so many bytes.
fn is_inside(number: u32, value: &[u8], len: u32) -> bool
    ensures { IsTrue result
        ↔ (IsBlock value.now × (block_limit * number + length value.now ≤ len)) }
{
    is_block(value) && number as usize * MAX_BLOCK + value.len() <= len as usize
}

// The number of the block of the file at a path, by the keys of the path and of the block.
fn block_number(path: &[u8], key: &[u8]) -> Option<u32>
    ensures { IsNumberOf path.now key.now result }
{
    let rest = key.strip_prefix(path)?;
    let number = rest.strip_prefix(BLOCK_TAG.as_slice())?;
    number_in(number)
}

// The number that four bytes encode, all of them.
fn number_in(bytes: &[u8]) -> Option<u32>
    ensures { IsNumberIn bytes.now result }
{
    let mut cursor = Cursor::new(bytes);
    match cursor.u32() {
        Ok(number) if cursor.left().is_empty() => Some(number),
        _ => None,
    }
}

// The key of the path of a child of a directory at the mark or above it, if the key of its record
// is given.
fn child_path<'a>(mark: &Mark, key: &'a [u8]) -> Option<&'a [u8]>
    ensures { (path : List (List ℕ)) → AreNames path → mark.now.path ≡ key_of path
        → MatchOption result ((child : List (List ℕ)) → IsChildOf path mark.now.entry child
        → key.now ≢ record_key child) (λ found. (child : List (List ℕ))
        × IsChildOf path mark.now.entry child × (key.now ≡ record_key child)
        × (found.now ≡ key_of child)) }
{
    let text = key.strip_suffix(RECORD_END.as_slice())?;
    let (front, name) = text.split_at(name_start(text));
    if is_directory_at(mark, front) && Name::is_name(name) {
        Some(&key[..text.len() + 1])
    } else {
        None
    }
}

// Whether the path whose key is given, the mark's or one above it, is that of a directory.
fn is_directory_at(mark: &Mark, front: &[u8]) -> bool
    ensures { IsTrue result ↔ (Begins mark.now.path front.now
        × (length mark.now.path ≤ length front.now → IsTrue (is_dir mark.now.entry))) }
{
    let path = mark.path.as_slice();
    starts(path, front) && (front.len() < path.len() || is_dir(mark.entry))
}

// Where the last name of a text begins: after the last zero byte, or at the front.
fn name_start(text: &[u8]) -> usize
    ensures within { result ≤ length text.now }
    ensures free { (i : ℕ) → result ≤ i → i < length text.now → slice_index text.now i ≢ 0 }
    ensures cut { 0 < result → slice_index text.now (result - 1) ≡ 0 }
{
    let mut start = text.len();
    while start > 0 && text[start - 1] != 0 {
        start -= 1;
    }
    start
}

// Whether a record is a directory's.
fn is_dir(entry: Record) -> bool
    ensures { result ≡ is_dir entry }
{
    match entry {
        Record::Dir(_) => true,
        Record::File(..) => false,
    }
}

// The mode that a record says.
fn mode_of(entry: Record) -> u16
    ensures { result ≡ mode_of entry }
{
    match entry {
        Record::Dir(mode) => mode,
        Record::File(_, mode) => mode,
    }
}

// The record that these bytes encode, if its mode is 0 where there are no modes.
fn read_allowed(bytes: &[u8], has_modes: bool) -> Option<Record>
    ensures { IsAllowedAs has_modes bytes.now result }
{
    let entry = read_record(bytes)?;
    if has_modes || mode_of(entry) == 0 {
        Some(entry)
    } else {
        None
    }
}
