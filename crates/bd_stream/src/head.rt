//! The head of an entry: its kind, its path, its mode, and the length of a file.

ghost use Rattle.std.specs.Prelude.{◌≡◌, ◌≤◌, ◌∷◌, length, true, slice_index, IfOk};
ghost use Rattle.std.specs.Int.{w16};
ghost use Rattle.bd_names.specs.Names.{path_of, path_text};
ghost use Rattle.bd_wire.specs.Writing.{Puts, room};
ghost use Rattle.bd_stream.specs.Heads.{IsHead, head_bytes, head_of, head_size, is_kind, path_count, relative_text};

use bd_keys::{front, tail};
use bd_limits::{MAX_FILE, MAX_MODE, MAX_PATH};
use bd_names::{Path, PathFault};
use bd_wire::Out;
use byteorder::{BigEndian, ByteOrder};
use std::alloc::{AllocError, Global};

/// The most bytes of a head: a file's, under as long a path.
pub const MAX_HEAD: usize = 9 + MAX_PATH - 1;

/// The first byte of a directory's head.
pub(crate) const DIRECTORY: u8 = b'D';

/// The first byte of a file's head.
pub(crate) const FILE: u8 = b'F';

/// The head of an entry of a stream.
#[derive(Debug, Drop)]
pub struct Head {
    /// Where it stands below the exported path, which itself is `/` here.
    pub path: Path,
    /// At most 4,095.
    pub mode: u16,
    /// How many bytes a file has; a directory has no length.
    pub len: Option<u32>,
}

impl Head {
    /// Writes the kind, the path after its length, the mode, and the length of a file.
    #[tactic(auto, using(bd_wire::proofs::WritingLemmas::writing), unfolding(bd_wire::specs::Text::text16))]
    pub fn write(&self, out: &mut Out)
        requires head { IsHead self.now }
        requires room { length (head_bytes self.now) ≤ length (room out.old) }
        ensures { Puts out.old out.new (head_bytes self.now) }
    {
        out.put_u8(if self.len.is_none() { DIRECTORY } else { FILE });
        out.put_text16(relative_text(&self.path));
        out.put_u16(self.mode);
        if let Some(len) = self.len {
            out.put_u32(len);
        }
    }

    /// The head that these bytes are, all of them, where they are one.
    pub(crate) fn read(alloc: Global, bytes: &[u8]) -> Result<Option<Head>, AllocError>
        requires { length bytes.now ≡ head_size bytes.now }
        ensures { IfOk result (λ found. found ≡ head_of bytes.now) }
    {
        let count = path_count(bytes);
        let Some(path) = relative(alloc, front(tail(bytes, 3), count))? else {
            return Ok(None);
        };
        let mode = BigEndian::read_u16(tail(bytes, 3 + count));
        if mode > MAX_MODE {
            return Ok(None);
        }
        if bytes[0] == DIRECTORY {
            return Ok(Some(Head {
                path,
                mode,
                len: None,
            }));
        }
        let len = BigEndian::read_u32(tail(bytes, 5 + count));
        if len > MAX_FILE {
            return Ok(None);
        }
        Ok(Some(Head {
            path,
            mode,
            len: Some(len),
        }))
    }
}

// The names of a path with slashes between them.
fn relative_text(path: &Path) -> &[u8]
    ensures { result.now ≡ relative_text path.now }
{
    &path.as_bytes()[1..]
}

/// The path whose names these bytes are, with slashes between them.
pub(crate) fn relative(alloc: Global, text: &[u8]) -> Result<Option<Path>, AllocError>
    ensures { IfOk result (λ found. found ≡ path_of (47 ∷ text.now)) }
{
    let mut whole = Vec::from_slice(alloc, b"/")?;
    whole.extend_from_slice(text)?;
    read_path(alloc, &whole)
}

/// The path that a text is, where it is one.
pub(crate) fn read_path(alloc: Global, text: &[u8]) -> Result<Option<Path>, AllocError>
    ensures { IfOk result (λ found. found ≡ path_of text.now) }
{
    match Path::read(alloc, text) {
        Ok(path) => Ok(Some(path)),
        Err(PathFault::BadPath) => Ok(None),
        Err(PathFault::NoMemory) => Err(AllocError),
    }
}

/// How many bytes the path of a head has.
pub(crate) fn path_count(bytes: &[u8]) -> usize
    requires { 3 ≤ length bytes.now }
    ensures count { result ≡ path_count bytes.now }
    ensures bound { result ≤ 65535 }
{
    BigEndian::read_u16(&bytes[1..]) as usize
}

/// Whether a byte is the first one of a head.
pub(crate) fn is_kind(tag: u8) -> bool
    ensures { result ≡ is_kind tag }
{
    tag == DIRECTORY || tag == FILE
}

/// How many bytes a head has, by its first three.
pub(crate) fn head_size(bytes: &[u8]) -> usize
    requires { 3 ≤ length bytes.now }
    ensures { result ≡ head_size bytes.now }
{
    let after = if bytes[0] == DIRECTORY { 2 } else { 6 };
    3 + path_count(bytes) + after
}
