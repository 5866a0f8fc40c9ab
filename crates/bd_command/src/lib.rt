//! The commands of the plain map, the replies to them and the refusals, as types.
//! The layers above use the fields as they are, and the contracts of `writes`, of the log records
//! and of the laws in `laws`.
#![tactic(auto)]

ghost use Rattle.std.specs.Prelude.{◌≡◌};

pub mod laws;
mod log;
mod refusal;
mod reply;

use bd_keys::Bytes;
use bd_names::{Name, Path};
pub use log::MAX_RECORD;
pub use refusal::Refusal;
pub use reply::{Chunk, Listed, Listing, Names, Reply};

/// A command of the plain map. Offsets and lengths are bytes.
#[derive(Clone, Debug)]
pub enum Command {
    /// Makes an empty directory.
    Mkdir { path: Path },
    /// Makes an empty file.
    Create { path: Path },
    /// Writes bytes into a file from an offset on, after zeros where it is shorter.
    Write { path: Path, off: u32, bytes: Bytes },
    /// Cuts a file, or extends it with zeros, to a length.
    Truncate { path: Path, len: u32 },
    /// Removes a file, or a directory with all below it.
    Remove { path: Path },
    /// Moves a file, also over another one, or a directory with all below it.
    Rename { a: Path, b: Path },
    /// Copies a file, or a directory with all below it.
    Clone { a: Path, b: Path },
    /// Sets the mode of a file or a directory, at most 4,095; nothing else changes.
    Chmod { path: Path, mode: u16 },
    /// Reads at most so many bytes of a file from an offset on.
    Read { path: Path, off: u32, len: u32 },
    /// Says whether a path is a directory or a file, its mode, and how long a file is.
    Stat { path: Path },
    /// Lists the names in a directory, those greater than `after` alone where it is there.
    List { path: Path, after: Option<Name> },
}

// Written out, so that a drop is one call, and not each variant's wherever a command is let go.
impl Drop for Command {
    fn drop(self) {
        match self {
            Command::Mkdir { path: _ } => {}
            Command::Create { path: _ } => {}
            Command::Write {
                path: _,
                off: _,
                bytes: _,
            } => {}
            Command::Truncate { path: _, len: _ } => {}
            Command::Remove { path: _ } => {}
            Command::Rename { a: _, b: _ } => {}
            Command::Clone { a: _, b: _ } => {}
            Command::Chmod { path: _, mode: _ } => {}
            Command::Read {
                path: _,
                off: _,
                len: _,
            } => {}
            Command::Stat { path: _ } => {}
            Command::List { path: _, after: _ } => {}
        }
    }
}

impl Command {
    ghost use Rattle.bd_command.specs.Command.{writes};

    /// Whether it changes the tree where it is accepted.
    pub fn writes(&self) -> bool
        ensures { result ≡ writes self.now }
    {
        match self {
            Command::Mkdir { .. }
            | Command::Create { .. }
            | Command::Write { .. }
            | Command::Truncate { .. }
            | Command::Remove { .. }
            | Command::Rename { .. }
            | Command::Clone { .. }
            | Command::Chmod { .. } => true,
            Command::Read { .. } | Command::Stat { .. } | Command::List { .. } => false,
        }
    }
}
