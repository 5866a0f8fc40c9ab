//! What a turn asks for, and what is said of handles once the tree has replied.

use bd_command::Command;
use bd_script::{Denial, Line};

/// What a turn asks for.
#[derive(Debug, Drop)]
pub enum Ask {
    /// A command: the turn's own, or what it asks for at the path of a handle.
    Do(Command),
    /// Another line of a script than a command's.
    Service(Line),
    /// Nothing more: the handle was closed.
    Closed,
    /// Nothing: it is denied.
    No(Denial),
}

/// What is said to a client once the tree has replied to the command of its turn.
#[derive(Clone, Copy, Debug, PartialEq, Eq)]
pub enum SessionReply {
    /// The reply to the command.
    Same,
    /// A directory is where a file is to be opened.
    IsDir,
    /// A file was opened, and this is its handle's number, 0 to 15.
    Opened(u8),
    /// No file was opened: as many are open as may be.
    No(Denial),
}
