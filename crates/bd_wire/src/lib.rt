//! Big-endian numbers, bytes and length-prefixed texts, read off a slice and written into an array.
//! The layers above may use the contracts of `Cursor` and `Out`, and of the laws in `laws`.

#![tactic(auto)]

mod cursor;
pub mod laws;
mod writer;

pub use cursor::{Cursor, Short, all_zero};
pub use writer::Out;
