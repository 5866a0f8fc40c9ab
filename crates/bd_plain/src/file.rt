//! The bytes of a file.

ghost use Rattle.std.specs.Prelude.{◌≡◌, ◌≤◌, ◌+◌, ◌-◌, [], length, take, drop, IfOk};
ghost use Rattle.bd_limits.specs.Limits.{file_limit};
ghost use Rattle.bd_keys.specs.Edits.{resized, overwritten};

use bd_keys::{Bytes, front, overwritten, resized, tail};
use std::alloc::{AllocError, Global};
use std::marker::Model;

/// The bytes of a file, at most 2^30.
#[derive(Debug, Drop)]
pub struct File {
    bytes: Vec<u8>,
}

impl Model for File {
    ghost use Rattle.std.specs.Prelude.{List, ℕ, ◌≤◌, length};
    ghost use Rattle.bd_limits.specs.Limits.{file_limit};

    ghost Value = { List ℕ };

    ghost view = { λ f. f.bytes.items };

    ghost invariant = { λ f. length f.bytes.items ≤ file_limit };
}

impl File {
    /// A file without bytes.
    pub fn empty(alloc: Global) -> File
        ensures { result ≡ [] }
    {
        File {
            bytes: Vec::new(alloc),
        }
    }

    /// How many bytes it has.
    pub fn len(&self) -> u32
        ensures { result ≡ length self.now }
    {
        self.bytes.len() as u32
    }

    /// At most `len` bytes from `off` on, fewer at the end.
    pub fn read(&self, alloc: Global, off: u32, len: u32) -> Result<Bytes, AllocError>
        ensures { IfOk result (λ read. read ≡ take len (drop off self.now)) }
    {
        let rest = tail(&self.bytes, off as usize);
        Bytes::from_slice(alloc, front(rest, len as usize))
    }

    /// The file cut, or extended with zeros, to a length.
    pub fn resized(&self, alloc: Global, len: u32) -> Result<File, AllocError>
        requires { len ≤ file_limit }
        ensures { IfOk result (λ new. new ≡ resized self.now len) }
    {
        let bytes = resized(alloc, &self.bytes, len as usize)?;
        Ok(File { bytes })
    }

    /// The file extended with zeros to `off`, and overwritten from there on.
    pub fn overwritten(&self, alloc: Global, off: u32, bytes: &[u8]) -> Result<File, AllocError>
        requires { off + length bytes.now ≤ file_limit }
        ensures { IfOk result (λ new. new ≡ overwritten self.now off bytes.now) }
    {
        let bytes = overwritten(alloc, &self.bytes, off as usize, bytes)?;
        Ok(File { bytes })
    }
}

impl Clone for File {
    ghost is_clone = { λ file copy. copy ≡ file };

    fn clone(&self) -> Result<File, AllocError> {
        Ok(File {
            bytes: self.bytes.clone()?,
        })
    }
}
