//! The values that stand in a key map: the records of directories and files, and the blocks of
//! files.
//! The layers above may use that each record has one encoding, and what a block may be.
#![tactic(auto)]

ghost use Rattle.std.specs.Prelude.{◌≡◌, ◌↔◌, ◌≤◌, ◌++◌, length, Some, IsTrue, IfOk, OnOk};
ghost use Rattle.bd_wire.specs.Writing.{Puts, room};
ghost use Rattle.bd_records.specs.Records.{IsRecord, IsBlock, IsReadAs, IsModeReadAs, IsLenModeReadAs, mode_bytes, len_mode_bytes, record_bytes};

use bd_limits::{MAX_BLOCK, MAX_FILE, MAX_MODE};
use bd_wire::{Cursor, Out};
use std::alloc::{AllocError, Global};

pub mod laws;

// The first byte of a directory's record, `D`.
const DIR_TAG: u8 = 0x44;

// The first byte of a file's record, `F`.
const FILE_TAG: u8 = 0x46;

/// What the record of a path says. A mode is at most 4,095.
#[derive(Clone, Copy, Debug, PartialEq, Eq)]
pub enum Record {
    /// A directory with its mode.
    Dir(u16),
    /// A file with its length in bytes, at most 2^30, and its mode.
    File(u32, u16),
}

/// The record that these bytes encode, all of them. It is `None` exactly where they encode none: a
/// written mode is 1 to 4,095.
pub fn read_record(bytes: &[u8]) -> Option<Record>
    ensures { IsReadAs bytes.now result }
{
    let [tag, rest @ ..] = bytes else {
        return None;
    };
    match *tag {
        DIR_TAG => match read_mode(rest) {
            Some(mode) => Some(Record::Dir(mode)),
            None => None,
        },
        FILE_TAG => match read_len_mode(rest) {
            Some((len, mode)) => Some(Record::File(len, mode)),
            None => None,
        },
        _ => None,
    }
}

// The length of a file that the first four of these bytes encode, and the mode that the others do.
#[tactic(auto, using(crate::proofs::Lengths::lengths))]
fn read_len_mode(bytes: &[u8]) -> Option<(u32, u16)>
    ensures { IsLenModeReadAs bytes.now result }
{
    let mut cursor = Cursor::new(bytes);
    match cursor.u32() {
        Ok(len) if len <= MAX_FILE => match read_mode(cursor.left()) {
            Some(mode) => Some((len, mode)),
            None => None,
        },
        _ => None,
    }
}

// The mode that these bytes encode: 0 where there are none.
#[tactic(auto, using(crate::proofs::Lengths::lengths))]
fn read_mode(bytes: &[u8]) -> Option<u16>
    ensures { IsModeReadAs bytes.now result }
{
    if bytes.is_empty() {
        return Some(0);
    }
    let mut cursor = Cursor::new(bytes);
    match cursor.u16() {
        Ok(mode) if mode != 0 && mode <= MAX_MODE && cursor.left().is_empty() => Some(mode),
        _ => None,
    }
}

/// Writes a record.
#[tactic(auto, using(bd_wire::proofs::WritingLemmas::writing))]
pub fn write_record(entry: &Record, out: &mut Out)
    requires limits { IsRecord entry.now }
    requires room { length (record_bytes entry.now) ≤ length (room out.old) }
    ensures { Puts out.old out.new (record_bytes entry.now) }
{
    match *entry {
        Record::Dir(mode) => {
            out.put_u8(DIR_TAG);
            put_mode(out, mode);
        }
        Record::File(len, mode) => {
            out.put_u8(FILE_TAG);
            out.put_u32(len);
            put_mode(out, mode);
        }
    }
}

// Writes a mode: nothing where it is 0.
#[tactic(auto, using(bd_wire::proofs::WritingLemmas::writing))]
fn put_mode(out: &mut Out, mode: u16)
    requires { length (mode_bytes mode) ≤ length (room out.old) }
    ensures { Puts out.old out.new (mode_bytes mode) }
{
    if mode != 0 {
        out.put_u16(mode);
    }
}

/// The bytes that encode a record.
#[tactic(auto, unfolding(bd_wire::specs::Numbers::be))]
pub fn encoded_record(alloc: Global, entry: Record) -> Result<Vec<u8>, AllocError>
    ensures { IfOk result (λ bytes. bytes.items ≡ record_bytes entry) }
{
    match entry {
        Record::Dir(mode) => {
            let mut bytes = Vec::from_slice(alloc, &[DIR_TAG])?;
            add_mode(&mut bytes, mode)?;
            Ok(bytes)
        }
        Record::File(len, mode) => {
            let mut bytes = Vec::from_slice(alloc, &[FILE_TAG])?;
            bytes.extend_from_slice(&len.to_be_bytes())?;
            add_mode(&mut bytes, mode)?;
            Ok(bytes)
        }
    }
}

// Adds the bytes of a mode: none where it is 0.
#[tactic(auto, unfolding(bd_wire::specs::Numbers::be))]
fn add_mode(bytes: &mut Vec<u8>, mode: u16) -> Result<(), AllocError>
    ensures { OnOk result (bytes.new.items ≡ bytes.old.items ++ mode_bytes mode) }
{
    if mode == 0 {
        return Ok(());
    }
    bytes.extend_from_slice(&mode.to_be_bytes())
}

/// Whether these bytes can be those of a block: 1 to 1,024 of them.
pub fn is_block(bytes: &[u8]) -> bool
    ensures { IsTrue result ↔ IsBlock bytes.now }
{
    !bytes.is_empty() && bytes.len() <= MAX_BLOCK
}
