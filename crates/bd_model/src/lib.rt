//! What the commands mean: the tree, and the step of a command on it.
//! The layers above use the definitions of `specs/`; `laws` says what these come to.
#![tactic(auto)]

pub mod laws;
