//! Inner nodes after messages, in halves, with other edges in place of one, with edges of a Goto's own,
//! and without the messages that are pending for no edge; and what a push moves to a child.
//! The layers above use the contracts of `receive`, `compact`, `sweep`, `split`, `carve`,
//! `next_batch` and `exchange`, and the laws.
#![tactic(auto)]

mod batches;
mod carving;
mod clipping;
mod compaction;
mod exchanging;
mod halves;
pub mod laws;
mod receiving;

pub use batches::{Batch, next_batch};
pub use carving::carve;
pub use clipping::clip;
pub use compaction::{compact, sweep};
pub use exchanging::{edge_to, exchange};
pub use halves::{Halves, split};
pub use receiving::receive;
