//! The volume: the tree of the commands that it has accepted, and their number, over the image of a
//! device.
//! The layers above use the contracts of `Volume`: the step of each command, what it does to the
//! view, and the cause of each fault.
#![tactic(auto)]

mod fault;
mod unstarted;
mod volume;

pub use fault::{Fault, Refused};
pub use unstarted::Unstarted;
pub use volume::Volume;
