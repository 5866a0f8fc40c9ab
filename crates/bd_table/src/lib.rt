//! Tables: which nodes a checkpoint has, how often each is named, and in which slot it stands.
//! The layers above may use the contracts of `read` and `write`, which speak of the one encoding of
//! a table in its slots.
#![tactic(auto)]

mod check;
mod codec;
pub mod laws;
mod reading;
mod table;
mod writing;

pub use bd_device::ImageFault as TableFault;
pub use reading::read;
pub use table::{Table, TableEntry};
pub use writing::write;
