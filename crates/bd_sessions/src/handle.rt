//! What the number of a handle stands for.

use bd_keys::Items;
use bd_names::Name;

/// What the number of a handle stands for.
#[derive(Debug, Drop)]
pub enum Handle {
    /// It isn't open.
    Free,
    /// The file at a path, which may be longer than one in a command.
    At(Items<Name>),
    /// A file that isn't there any more. The number isn't free.
    Gone,
}
