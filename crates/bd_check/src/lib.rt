//! Whether an image stands for a tree.
//! The layers above may use the contract of `check`, the definition of a right verdict on an image,
//! the line that tells a verdict, and the laws: what follows from a verdict, and those on the nodes
//! that the slots of a table's entries encode.
#![tactic(auto)]

mod checking;
mod fault;
mod keys;
pub mod laws;
mod line;
mod naming;
mod nodes;
mod recovered;
mod verdict;

pub use checking::{Checked, check};
pub use fault::CheckFault;
pub use line::VERDICT_SIZE;
pub use verdict::Verdict;
