//! A cache of nodes, by their ids, that keeps a bounded number of them.
//! The layers above may use the contract of `NodeCache`: what it gives is what was put last.
#![tactic(auto)]

mod cache;

pub use cache::NodeCache;
