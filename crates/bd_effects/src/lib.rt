//! What commands do to a tree of nodes, over any store: what a reading command is answered, the flush
//! steps of a writing one, and how messages and grafts are sent to the root.
//! The layers above use the contracts of `answer`, `flush`, `append` and `graft`.
#![tactic(auto)]

mod answering;
mod flushing;
mod sending;

pub use answering::answer;
pub use flushing::{flush, waiting_limit};
pub use sending::{append, graft};
