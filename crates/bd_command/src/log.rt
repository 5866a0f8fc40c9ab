//! Log records: the writing commands as bytes.

ghost use Rattle.std.specs.Prelude.{◌≡◌, ◌≤◌, ◌↔◌, ◌∷◌, length, IfOk, OnErr, MatchOption, IsTrue};
ghost use Rattle.std.specs.Int.{w16, w32};
ghost use Rattle.std.specs.Option.{option_map};
ghost use Rattle.bd_names.specs.Names.{path_text};
ghost use Rattle.bd_wire.specs.Numbers.{be};
ghost use Rattle.bd_wire.specs.Text.{text16};
ghost use Rattle.bd_wire.specs.Reading.{Reads};
ghost use Rattle.bd_wire.specs.Encoding.{BeginsNone};
ghost use Rattle.bd_wire.specs.Writing.{Puts, room};
ghost use Rattle.bd_command.specs.Command.{IsShortPath, IsWritten, IsMode};
ghost use Rattle.bd_command.specs.Log.{IsLogged, path16, command_bytes, log_record, IsLogReadAs, IsCommandOf, FitsWrite, FitsTruncate, FitsPaths, FitsChmod, encode_write, encode_truncate, encode_paths, encode_chmod};

use crate::Command;
use bd_keys::Bytes;
use bd_limits::{MAX_MODE, MAX_PATH, MAX_WRITE};
use bd_names::{Path, PathFault};
use bd_wire::{Cursor, Out};
use std::alloc::{AllocError, Global};

/// The most bytes of a log record: a write of as many bytes as there may be, under as long a path.
pub const MAX_RECORD: usize = 11 + MAX_PATH + MAX_WRITE;

// The first byte of each command, after the record's length.
const MKDIR: u8 = 1;

const CREATE: u8 = 2;

const WRITE: u8 = 3;

const TRUNCATE: u8 = 4;

const REMOVE: u8 = 5;

const RENAME: u8 = 6;

const CLONE: u8 = 7;

const CHMOD: u8 = 8;

impl Command {
    /// How many bytes its log record has, at most 2,571.
    #[tactic(auto, using(bd_wire::proofs::WritingLemmas::writing))]
    pub fn log_size(&self) -> usize
        requires { IsLogged self.now }
        ensures { result ≡ length (log_record self.now) }
    {
        match self {
            Command::Mkdir { path } | Command::Create { path } | Command::Remove { path } => {
                5 + path.as_bytes().len()
            }
            Command::Write { path, bytes, .. } => 11 + path.as_bytes().len() + bytes.len(),
            Command::Truncate { path, .. } => 9 + path.as_bytes().len(),
            Command::Rename { a, b } | Command::Clone { a, b } => {
                7 + a.as_bytes().len() + b.as_bytes().len()
            }
            Command::Chmod { path, .. } => 7 + path.as_bytes().len(),
            Command::Read { .. } | Command::Stat { .. } | Command::List { .. } => 2,
        }
    }

    /// Writes its log record: two bytes of length, a byte for the command, and its fields.
    #[tactic(auto, using(bd_wire::proofs::WritingLemmas::writing), unfolding(bd_wire::specs::Text::text16))]
    pub fn log_write(&self, out: &mut Out)
        requires command { IsLogged self.now }
        requires room { length (log_record self.now) ≤ length (room out.old) }
        ensures { Puts out.old out.new (log_record self.now) }
    {
        out.put_u16((self.log_size() - 2) as u16);
        self.write_fields(out);
    }

    // Writes the first byte and the fields.
    #[tactic(auto, using(bd_wire::proofs::WritingLemmas::writing))]
    fn write_fields(&self, out: &mut Out)
        requires command { IsLogged self.now }
        requires room { length (command_bytes self.now) ≤ length (room out.old) }
        ensures { Puts out.old out.new (command_bytes self.now) }
    {
        match self {
            Command::Mkdir { path } => put_path(out, MKDIR, path),
            Command::Create { path } => put_path(out, CREATE, path),
            Command::Write { path, off, bytes } => {
                put_path(out, WRITE, path);
                out.put_u32(*off);
                out.put_text16(bytes.as_slice());
            }
            Command::Truncate { path, len } => {
                put_path(out, TRUNCATE, path);
                out.put_u32(*len);
            }
            Command::Remove { path } => put_path(out, REMOVE, path),
            Command::Rename { a, b } => {
                put_path(out, RENAME, a);
                out.put_text16(b.as_bytes());
            }
            Command::Clone { a, b } => {
                put_path(out, CLONE, a);
                out.put_text16(b.as_bytes());
            }
            Command::Chmod { path, mode } => {
                put_path(out, CHMOD, path);
                out.put_u16(*mode);
            }
            Command::Read { .. } | Command::Stat { .. } | Command::List { .. } => {}
        }
    }

    /// Reads the log record at the front of what is left. It is `None` exactly where none stands
    /// there, and the cursor then stays.
    pub fn log_read(alloc: Global, cursor: &mut Cursor) -> Result<Option<Command>, AllocError>
        ensures read { IfOk result (λ found. IsLogReadAs cursor.old cursor.new found) }
        ensures err { OnErr result (cursor.new ≡ cursor.old) }
    {
        let mut ahead = cursor.ahead();
        let Ok(record) = ahead.text16() else {
            return Ok(None);
        };
        match command_of(alloc, record)? {
            Some(command) => {
                *cursor = ahead;
                Ok(Some(command))
            }
            None => Ok(None),
        }
    }
}

// Writes the first byte of a command and its first path.
#[tactic(auto, using(bd_wire::proofs::WritingLemmas::writing))]
fn put_path(out: &mut Out, tag: u8, path: &Path)
    requires { length (tag ∷ path16 path.now) ≤ length (room out.old) }
    ensures { Puts out.old out.new (tag ∷ path16 path.now) }
{
    out.put_u8(tag);
    out.put_text16(path.as_bytes());
}

// The command that these bytes are, all of them.
fn command_of(alloc: Global, bytes: &[u8]) -> Result<Option<Command>, AllocError>
    ensures { IfOk result (λ found. IsCommandOf bytes.now found) }
{
    let mut ahead = Cursor::new(bytes);
    match command(alloc, &mut ahead)? {
        Some(command) if ahead.left().is_empty() => Ok(Some(command)),
        _ => Ok(None),
    }
}

// Reads the first byte of a command and its fields.
fn command(alloc: Global, ahead: &mut Cursor) -> Result<Option<Command>, AllocError>
    ensures { IfOk result (λ found. MatchOption found
        (BeginsNone IsLogged command_bytes ahead.old.left)
        (λ c. IsLogged c × Reads ahead.old ahead.new (command_bytes c))) }
{
    let Ok(tag) = ahead.u8() else {
        return Ok(None);
    };
    match tag {
        MKDIR => match path(alloc, ahead)? {
            Some(path) => Ok(Some(Command::Mkdir { path })),
            None => Ok(None),
        },
        CREATE => match path(alloc, ahead)? {
            Some(path) => Ok(Some(Command::Create { path })),
            None => Ok(None),
        },
        WRITE => match write(alloc, ahead)? {
            Some((path, off, bytes)) => Ok(Some(Command::Write { path, off, bytes })),
            None => Ok(None),
        },
        TRUNCATE => match truncate(alloc, ahead)? {
            Some((path, len)) => Ok(Some(Command::Truncate { path, len })),
            None => Ok(None),
        },
        REMOVE => match path(alloc, ahead)? {
            Some(path) => Ok(Some(Command::Remove { path })),
            None => Ok(None),
        },
        RENAME => match paths(alloc, ahead)? {
            Some((a, b)) => Ok(Some(Command::Rename { a, b })),
            None => Ok(None),
        },
        CLONE => match paths(alloc, ahead)? {
            Some((a, b)) => Ok(Some(Command::Clone { a, b })),
            None => Ok(None),
        },
        CHMOD => match chmod(alloc, ahead)? {
            Some((path, mode)) => Ok(Some(Command::Chmod { path, mode })),
            None => Ok(None),
        },
        _ => Ok(None),
    }
}

// Reads a path.
fn path(alloc: Global, ahead: &mut Cursor) -> Result<Option<Path>, AllocError>
    ensures { IfOk result (λ found. MatchOption found
        (BeginsNone IsShortPath path16 ahead.old.left)
        (λ p. IsShortPath p × Reads ahead.old ahead.new (path16 p))) }
{
    let Ok(text) = ahead.text16() else {
        return Ok(None);
    };
    match Path::read(alloc, text) {
        Ok(path) => Ok(Some(path)),
        Err(PathFault::BadPath) => Ok(None),
        Err(PathFault::NoMemory) => Err(AllocError),
    }
}

// Reads two paths.
fn paths(alloc: Global, ahead: &mut Cursor) -> Result<Option<(Path, Path)>, AllocError>
    ensures { IfOk result (λ found. MatchOption found
        (BeginsNone FitsPaths encode_paths ahead.old.left)
        (λ v. FitsPaths v × Reads ahead.old ahead.new (encode_paths v))) }
{
    let Some(first) = path(alloc, ahead)? else {
        return Ok(None);
    };
    let Some(second) = path(alloc, ahead)? else {
        return Ok(None);
    };
    Ok(Some((first, second)))
}

// Reads a path and a length.
fn truncate(alloc: Global, ahead: &mut Cursor) -> Result<Option<(Path, u32)>, AllocError>
    ensures { IfOk result (λ found. MatchOption found
        (BeginsNone FitsTruncate encode_truncate ahead.old.left)
        (λ v. FitsTruncate v × Reads ahead.old ahead.new (encode_truncate v))) }
{
    let Some(path) = path(alloc, ahead)? else {
        return Ok(None);
    };
    let Ok(len) = ahead.u32() else {
        return Ok(None);
    };
    Ok(Some((path, len)))
}

// Reads a path and a mode.
fn chmod(alloc: Global, ahead: &mut Cursor) -> Result<Option<(Path, u16)>, AllocError>
    ensures { IfOk result (λ found. MatchOption found
        (BeginsNone FitsChmod encode_chmod ahead.old.left)
        (λ v. FitsChmod v × Reads ahead.old ahead.new (encode_chmod v))) }
{
    let Some(path) = path(alloc, ahead)? else {
        return Ok(None);
    };
    let Some(mode) = mode(ahead) else {
        return Ok(None);
    };
    Ok(Some((path, mode)))
}

// Reads a mode.
fn mode(ahead: &mut Cursor) -> Option<u16>
    ensures { MatchOption result
        (BeginsNone IsMode (be w16) ahead.old.left)
        (λ mode. IsMode mode × Reads ahead.old ahead.new (be w16 mode)) }
{
    match ahead.u16() {
        Ok(mode) if mode <= MAX_MODE => Some(mode),
        _ => None,
    }
}

// Reads a path, an offset and what is written there.
fn write(alloc: Global, ahead: &mut Cursor) -> Result<Option<(Path, u32, Bytes)>, AllocError>
    ensures { IfOk result (λ found. MatchOption (option_map (λ v. ((v.0, v.1), v.2)) found)
        (BeginsNone FitsWrite encode_write ahead.old.left)
        (λ v. FitsWrite v × Reads ahead.old ahead.new (encode_write v))) }
{
    let Some((path, off)) = truncate(alloc, ahead)? else {
        return Ok(None);
    };
    let Some(bytes) = written(alloc, ahead)? else {
        return Ok(None);
    };
    Ok(Some((path, off, bytes)))
}

// Reads what a write carries.
fn written(alloc: Global, ahead: &mut Cursor) -> Result<Option<Bytes>, AllocError>
    ensures { IfOk result (λ found. MatchOption found
        (BeginsNone IsWritten text16 ahead.old.left)
        (λ bytes. IsWritten bytes × Reads ahead.old ahead.new (text16 bytes))) }
{
    let Ok(bytes) = ahead.text16() else {
        return Ok(None);
    };
    if !is_written(bytes) {
        return Ok(None);
    }
    Ok(Some(Bytes::from_slice(alloc, bytes)?))
}

// Whether a write may carry these bytes.
fn is_written(bytes: &[u8]) -> bool
    ensures { IsTrue result ↔ IsWritten bytes.now }
{
    !bytes.is_empty() && bytes.len() <= MAX_WRITE
}
