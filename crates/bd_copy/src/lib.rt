//! The copy of a child that is shared, or asked through a source: what it keeps of the child, for
//! the keys of an edge and with sources that can be stored, and how the edge gets it.
//! The layers above use `privatise`.
#![tactic(auto)]

mod copying;
mod narrowing;
mod privatising;
mod shortening;

pub use copying::put_copy;
pub use narrowing::{asked_end, asked_from, narrow};
pub use privatising::privatise;
pub use shortening::shorten;
