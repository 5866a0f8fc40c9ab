//! What an exporter asks next.

use bd_names::Path;

/// What is asked next of an entry.
#[derive(Clone, Copy, Debug, PartialEq, Eq)]
pub(crate) enum Stage {
    /// What stands at the path.
    Look,
    /// Bytes of its file: from where on, and how many are left.
    Piece { off: u32, left: u32 },
    /// The names in its directory.
    Inside,
    /// The names after its own in the directory around it.
    Beside,
    /// Nothing: the stream is complete.
    Whole,
    /// Nothing: the path wasn't there, or an answer was no reply.
    Absent,
    /// Nothing: the next path was too long.
    Overlong,
}

/// Where an entry stands.
#[derive(Debug, Drop)]
pub(crate) struct Place {
    /// Below the exported path.
    pub(crate) below: Path,
    /// In the tree.
    pub(crate) path: Path,
}
