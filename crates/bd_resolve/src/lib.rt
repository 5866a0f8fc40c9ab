//! What answers for all keys that begin with a prefix, at one node and through nodes.
//! The layers above use the contracts of `follow` and `resolve`.
#![tactic(auto)]

mod covering;
mod following;
mod resolving;

pub use following::{Followed, Target, follow};
pub use resolving::resolve;
