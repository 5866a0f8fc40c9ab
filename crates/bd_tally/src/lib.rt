//! How often nodes are named, and that nodes whose counts are right are sound.
//! The layers above may use the contracts of `Owed`, from which the names of nodes are taken one
//! node after the other, and the laws.
#![tactic(auto)]

mod count;
mod counts;
pub mod laws;
mod owed;

pub use owed::Owed;
