//! Tables of nodes.

use bd_keys::Items;

/// What a table says of a node.
#[derive(Clone, Copy, Debug, PartialEq, Eq)]
pub struct TableEntry {
    /// Its id, 1 or more.
    pub id: u64,
    /// How often it is named, 1 or more times.
    pub refs: u64,
    /// The slot that has it.
    pub slot: u32,
    /// Its level, at most 1,000.
    pub level: u32,
}

/// The nodes of a checkpoint.
#[derive(Debug, Drop)]
pub struct Table {
    /// Above every id.
    pub next_id: u64,
    /// The id of the root, whose level is 1 or more.
    pub root: u64,
    /// The nodes, by rising ids, 1 to 65,536.
    pub entries: Items<TableEntry>,
}
