//! What waits for the tree's reply.

use bd_keys::Items;
use bd_names::Name;

/// What waits for the tree's reply.
#[derive(Debug, Drop)]
pub(crate) enum Waiting {
    /// Nothing.
    Nothing,
    /// A command that leaves all handles where they are.
    Same,
    /// A command whose changes stand in the cells.
    Changes,
    /// A client that opens the file at a path.
    Opening { client: u8, path: Items<Name> },
}
