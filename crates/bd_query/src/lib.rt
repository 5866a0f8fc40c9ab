//! What nodes have at a key, and the least keys that have something, asked of any store of nodes.
//! The layers above use `get`, `scan` and `next`.
#![tactic(auto)]

mod ends;
mod part;
mod patch;
mod search;
mod stretch;
mod turns;
mod ways;

pub use search::{next, scan};
pub use ways::get;
