// Where the parts of an image stand.
ghost use Rattle.std.specs.Prelude.{◌≡◌, ◌↔◌, ◌≤◌, ◌+◌, IsTrue};
ghost use Rattle.bd_slots.specs.Layout.{image_blocks, slot_block, table_length, AreSlots, IsTablePlace};

use bd_limits::{
    FIRST_SLOT_BLOCK, MAX_SLOTS, MAX_TABLE_SLOTS, SLOT_BLOCKS, SLOT_SIZE, TABLE_ENTRY_SIZE,
    TABLE_HEADER_SIZE,
};

/// The blocks of an image of this many slots.
pub fn image_blocks(slots: u32) -> u64
    ensures { result ≡ image_blocks slots }
{
    FIRST_SLOT_BLOCK + SLOT_BLOCKS * u64::from(slots)
}

/// The first block of a slot.
pub fn slot_block(slot: u32) -> u64
    ensures { result ≡ slot_block slot }
{
    FIRST_SLOT_BLOCK + SLOT_BLOCKS * u64::from(slot)
}

// As many entries as fill three slots, with nothing left over.
const FULL_ENTRIES: usize = 8_192;

const FULL_SLOTS: usize = 3;

/// The slots that a table of this many entries takes.
pub fn table_length(entries: usize) -> usize
    ensures { result ≡ table_length entries }
{
    let rest = TABLE_HEADER_SIZE + TABLE_ENTRY_SIZE * (entries % FULL_ENTRIES);
    entries / FULL_ENTRIES * FULL_SLOTS + rest.div_ceil(SLOT_SIZE)
}

/// Whether all of them are slots of an image of this many, and differ.
pub fn are_slots(slots: u32, at: &[u32]) -> bool
    ensures { IsTrue result ↔ AreSlots slots at.now }
{
    for (index, slot) in at.iter().enumerate() {
        if *slot >= slots || at[..index].contains(slot) {
            return false;
        }
    }
    true
}

/// Whether a table can have these slots in an image of this many: 1 to 25, which differ.
pub fn is_table_place(slots: u32, at: &[u32]) -> bool
    ensures { IsTrue result ↔ IsTablePlace slots at.now }
{
    !at.is_empty() && at.len() <= MAX_TABLE_SLOTS && are_slots(slots, at)
}
