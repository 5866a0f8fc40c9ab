//! What is written and not yet the last checkpoint.

use bd_keys::Items;
use bd_slots::SlotSet;
use bd_table::Table;

/// A table that is written, with all its nodes, and what is to be known of slots once it is the
/// last checkpoint's.
#[derive(Drop)]
pub struct Written {
    pub table: Table,
    /// The table's slots.
    pub at: Items<u32>,
    /// The slots that neither it nor its nodes have.
    pub spare: SlotSet,
    /// The same ones once more.
    pub free: SlotSet,
}
