//! A tree of nodes over any store: what it has at its keys, and changes of them by messages.
//! The layers above use `Tree`.
#![tactic(auto)]

mod map;
mod tree;

pub use tree::Tree;
