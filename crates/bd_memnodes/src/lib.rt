//! A store of nodes in memory, which always knows what its nodes are.
//! The layers above use `MemNodes`, by the contract of `NodeStore`.
#![tactic(auto)]

mod carry;
mod change;
mod kept;
mod plan;
mod store;

pub use store::MemNodes;
