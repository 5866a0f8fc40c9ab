//! Nodes over a device: read from slots and written to them. `Pager` is the store of them.
//! The layers above may use the contracts of `Pager`, also as a `NodeStore`, of `read_node` and
//! `write_node`, and the laws: that slots survive what others write, and that a spill changes
//! nothing seen.
#![tactic(auto)]

mod changing;
mod committing;
mod damage;
mod draft;
mod early;
mod entries;
mod extending;
pub mod laws;
mod naming;
mod pager;
mod parts;
mod place;
mod pushing;
mod reader;
mod reading;
mod slots;
mod stepping;
mod tested;
mod usage;
mod writing;
mod writing_all;
mod written;

pub use pager::{Pager, Refused};
pub use reading::read_node;
pub use slots::write_node;
