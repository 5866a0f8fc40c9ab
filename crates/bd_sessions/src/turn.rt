//! A turn of a client, and why its line is refused.

use bd_command::Refusal;
use bd_keys::Bytes;
use bd_names::Path;
use bd_script::Line;

/// What a line of a client asks for. The numbers of handles are those of a script; from 16 on none
/// is open.
#[derive(Debug, Drop)]
pub enum Turn {
    /// What a line of a script asks for.
    Plain(Line),
    /// Opens a handle of the file at a path.
    Open { path: Path },
    /// Reads at most so many bytes of a handle's file from an offset on.
    Read { handle: u32, off: u32, len: u32 },
    /// Writes bytes into a handle's file from an offset on.
    Write { handle: u32, off: u32, bytes: Bytes },
    /// Tells the length and the mode of a handle's file.
    Stat { handle: u32 },
    /// Closes a handle.
    Close { handle: u32 },
}

/// Why a line of a client isn't read.
#[derive(Clone, Copy, Debug, PartialEq, Eq)]
pub enum TurnFault {
    /// The line doesn't begin with a client's number.
    NoClient,
    /// The client's line is refused.
    Refused { client: u8, refusal: Refusal },
    /// There was no memory.
    NoMemory,
}
