//! Replies to commands.

ghost use Rattle.std.specs.Prelude.{◌≡◌};
ghost use Rattle.bd_command.specs.Command.{is_done};

use crate::refusal::Refusal;
use bd_keys::{Bytes, Items};
use bd_names::Name;

/// The bytes that a `read` gives.
pub type Chunk = Bytes;

/// A name in a listing.
#[derive(Debug, Drop)]
pub struct Listed {
    pub name: Name,
    /// Whether it is a directory's.
    pub is_dir: bool,
}

/// The names of a listing.
pub type Names = Items<Listed>;

/// The names that a `list` gives.
#[derive(Debug, Drop)]
pub struct Listing {
    /// At most 100 names, in the order of their bytes.
    pub names: Names,
    /// Whether more names follow.
    pub more: bool,
}

/// The reply to a command.
#[derive(Debug, Drop)]
pub enum Reply {
    /// A writing command was accepted.
    Done,
    /// What was read.
    Bytes(Chunk),
    /// It is a directory of this mode.
    Dir(u16),
    /// It is a file of so many bytes, and of this mode.
    File(u32, u16),
    /// What was listed.
    Names(Listing),
    /// The command was refused.
    Refused(Refusal),
}

impl Reply {
    /// Whether a writing command was accepted.
    pub fn is_done(&self) -> bool
        ensures { result ≡ is_done self.now }
    {
        matches!(self, Reply::Done)
    }
}
