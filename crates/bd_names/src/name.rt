//! A name.

ghost use Rattle.std.specs.Prelude.{◌≡◌, ◌↔◌, length, false, IsTrue, IfOk};
ghost use Rattle.std.specs.List.{list_all};
ghost use Rattle.bd_names.specs.Names.{is_dots, is_name, is_name_byte};
ghost use Rattle.bd_names.specs.declared.fault.PathFault.{PathFault};

use crate::fault::PathFault;
use bd_keys::Bytes;
use bd_limits::MAX_NAME;
use std::alloc::{AllocError, Global};
use std::marker::Model;

/// A name: 1 to 255 bytes, each of 0x21 to 0xFF but for the slash and 0x7F, and neither `.` nor
/// `..`.
#[derive(Debug, PartialEq, Eq, PartialOrd, Ord, Drop)]
pub struct Name {
    text: Bytes,
}

impl Model for Name {
    ghost use Rattle.std.specs.Prelude.{List, ℕ, IsTrue};

    ghost Value = { List ℕ };

    ghost use Rattle.bd_names.specs.Names.{is_name};

    ghost view = { λ n. n.text };

    ghost invariant = { λ n. IsTrue (is_name n.text) };

    ghost inverse = { λ text. record { text = text } };
}

impl Name {
    /// Whether a text is a name.
    pub fn is_name(text: &[u8]) -> bool
        ensures { result ≡ is_name text.now }
    {
        if text.is_empty() || text.len() > MAX_NAME {
            return false;
        }
        are_bytes_of_name(text) && !is_dots_text(text)
    }

    /// Reads a name. A text that is none is refused as `BadPath`, and takes no memory.
    pub fn read(alloc: Global, text: &[u8]) -> Result<Name, PathFault>
        ensures name { IfOk result (λ name. name ≡ text.now) }
        ensures is_name { IfOk result (λ name. IsTrue (is_name text.now)) }
        ensures bad_path { (result ≡ Err PathFault.BadPath) ↔ (is_name text.now ≡ false) }
    {
        if !Name::is_name(text) {
            return Err(PathFault::BadPath);
        }
        Ok(Name::from_text(alloc, text)?)
    }

    // A name, of a text that is one.
    pub(crate) fn from_text(alloc: Global, text: &[u8]) -> Result<Name, AllocError>
        requires { IsTrue (is_name text.now) }
        ensures { IfOk result (λ name. name ≡ text.now) }
    {
        Ok(Name {
            text: Bytes::from_slice(alloc, text)?,
        })
    }

    /// The bytes of the name.
    pub fn as_bytes(&self) -> &[u8]
        ensures bytes { result.now ≡ self.now }
        ensures name { IsTrue (is_name self.now) }
    {
        self.text.as_slice()
    }
}

impl Clone for Name {
    ghost is_clone = { λ name copy. copy ≡ name };

    fn clone(&self) -> Result<Name, AllocError> {
        Ok(Name {
            text: self.text.clone()?,
        })
    }
}

/// Whether a byte may stand in a name.
fn is_byte_of_name(byte: u8) -> bool
    ensures { result ≡ is_name_byte byte }
{
    byte >= 0x21 && byte != b'/' && byte != 0x7f
}

/// Whether a text is `.` or `..`.
fn is_dots_text(text: &[u8]) -> bool
    ensures { result ≡ is_dots text.now }
{
    text == b".".as_slice() || text == b"..".as_slice()
}

/// Whether each byte of a text may stand in a name.
fn are_bytes_of_name(text: &[u8]) -> bool
    ensures { result ≡ list_all is_name_byte text.now }
{
    text.iter().all(|byte| is_byte_of_name(*byte))
}
