//! What a fill of an image stands on: the script that a seed makes, as a source, and a sink that
//! counts replies. The layers above use the contracts of `GeneratedSource`, `CountingSink` and
//! `Tally`, and the definitions of `specs/`.
#![tactic(auto)]

mod counting;
mod generated;
mod history;
mod tally;

pub use counting::CountingSink;
pub use generated::GeneratedSource;
pub use tally::{SUMMARY_SIZE, Tally};
