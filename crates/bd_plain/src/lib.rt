//! The plain program: the commands on a list of paths and entries, by one slow and simple function
//! each.
//! The layers above use that a `PlainTree` is seen as a tree, and that `step` does what the model's
//! step does.
#![tactic(auto)]

mod entries;
mod entry;
mod file;
mod paths;
mod refusals;
mod refused;
mod step;
mod tree;

pub use tree::PlainTree;
