//! Whether a tree has what stands at the keys of a key map, by one pass over them.
//! The layers above use the contract of `check_entries`, and that one verdict is right of a map.
#![tactic(auto)]

mod check;
pub mod laws;
mod mark;
mod pass;

pub use check::{Entries, check_entries};
