//! Rows of scripts, which stand in files as text: what they say of each call, and how what a call did
//! is compared with that. The program that runs them implements `Program`.
//! No clause says what stands here does.
#![tactic(auto)]

mod bench;
mod blocks;
mod braces;
mod ends;
mod plan;
mod told;

pub use bench::{Bench, Counts};
pub use ends::{KeepingSink, ScriptSource};
pub use plan::Plan;
pub use told::{Program, Told};
