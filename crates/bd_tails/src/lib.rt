//! Slots that are read and written without the zeros that they end in.
//! The layers above may use the contracts of `read_slot`, `write_slot` and `Tails`: a slot's bytes
//! are those that it has, whatever is known of its tail.
#![tactic(auto)]

mod slots;
mod tails;

pub use slots::{read_slot, write_slot};
pub use tails::{Tails, used_blocks};
