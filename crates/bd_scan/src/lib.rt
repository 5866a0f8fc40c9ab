//! Key maps that give what stands at many keys in one call.
//! The layers above use the contract of `Scan` alone.
#![tactic(auto)]

mod list_map;
mod scan;

pub use scan::{Found, Scan};
