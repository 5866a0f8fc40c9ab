//! Where the parts of an image stand, and its free slots.
//! The layers above may use the contracts of the numbers of blocks and slots, and of `SlotSet`,
//! which speak of it as one flag a slot.
#![tactic(auto)]

mod layout;
mod slots;
mod words;

pub use layout::{are_slots, image_blocks, is_table_place, slot_block, table_length};
pub use slots::SlotSet;
