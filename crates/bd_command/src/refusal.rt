//! Why a line is refused.

/// Why a line is refused, the first cause that holds.
#[derive(Clone, Copy, Debug, PartialEq, Eq)]
pub enum Refusal {
    /// The path isn't there.
    NotFound = 1,
    /// The path is there already.
    Exists = 2,
    /// The path's parent isn't there.
    NoParent = 3,
    /// A directory is wanted and a file is there.
    NotDir = 4,
    /// A file is wanted and a directory is there.
    IsDir = 5,
    /// The target is the source or below it.
    Inside = 6,
    /// `/` can be neither removed nor moved.
    Root = 7,
    /// The file would pass 2^30 bytes.
    TooBig = 8,
    /// A word isn't a path of at most 512 bytes, or isn't a name.
    BadPath = 9,
    /// The line is none of the shell's.
    BadLine = 10,
}
