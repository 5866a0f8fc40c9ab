//! What is known of a device between two calls, and that it stays known.
//! The layers above may use the contracts of `recover`, which starts from an image; of `format`,
//! which makes one; of `checkpoint`, and of `sync`, also on a pager's device, which tell what an
//! image stands for that a crash inside them or after them leaves; of `commands_of` and of
//! `resume_log`, which read the log of an image; of `has_record`; and the laws, by which reads,
//! appended records and writes to spare slots change nothing of what is known.
#![tactic(auto)]

mod checkpointing;
mod commands;
mod first;
mod following;
mod formatting;
pub mod laws;
mod lending;
mod publishing;
mod recovering;
mod resuming;
mod syncing;

pub use checkpointing::checkpoint;
pub use commands::{PlacedCommand, commands_of, has_record};
pub use formatting::{Formatted, format};
pub use lending::sync_by;
pub use recovering::{Recovered, recover};
pub use resuming::resume_log;
pub use syncing::sync;
