//! When a key map represents a tree, and the keys of records and blocks.
//! The layers above use `Represents`, which is of one tree, the keys, and what changes of a key map
//! do to the represented tree.
#![tactic(auto)]

mod keys;
pub mod laws;

pub use keys::{block_key, blocks_prefix, record_key};
