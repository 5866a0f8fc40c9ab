//! The words that the program is called with, as `clap` reads them.
//! The layers above use the contract of `read_words`, and what `laws` says of it.
#![tactic(auto)]

pub mod laws;
mod words;

pub use words::{Call, WordsFault, read_words};
