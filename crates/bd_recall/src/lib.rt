//! A key map that keeps small values that were looked up in it or written to it, for the next time.
//! The layers above may use it as any key map, and change the map itself where what is kept follows
//! the change.
#![tactic(auto)]

mod finding;
mod packed;
mod recalled;
mod recalling;

pub use recalled::Recalled;
pub use recalling::Recalling;
