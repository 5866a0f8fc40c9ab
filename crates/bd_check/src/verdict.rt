//! What is found out of an image.

/// What is found out of an image.
#[derive(Clone, Copy, Debug, PartialEq, Eq)]
pub enum Verdict {
    /// It stands for a tree: it has so many nodes, so many keys as of its last checkpoint, and its
    /// count.
    Yes { nodes: u64, keys: u64, count: u64 },
    /// It stands for none, since this block is bad.
    BadBlock { block: u64 },
    /// It stands for none, since the node of this id is named more or less often than its entry
    /// says, or is a root below which no tree's keys are.
    BadNode { id: u64 },
    /// It has more keys than are looked at.
    Limit,
}
