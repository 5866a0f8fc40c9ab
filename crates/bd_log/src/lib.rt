//! The redo log: batches of records in one half of the log, which a crash leaves whole or not at
//! all.
//! The layers above may use the contracts of `Log`, and of its batches as a relation with an image.
#![tactic(auto)]

mod batch;
mod body;
mod commit;
mod decode;
pub mod laws;
mod log;
mod read;

pub use batch::{Batch, is_record};
pub use bd_device::ImageFault as LogFault;
pub use log::Log;
