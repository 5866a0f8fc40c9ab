//! The engine of a volume: the nodes, the log and the last checkpoint of an image on a device, and
//! the calls that change them.
//! The layers above use its view, and what each call makes of that.
#![tactic(auto)]

mod engine;

pub use engine::{Engine, Opened};
