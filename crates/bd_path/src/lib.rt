//! What a step in place leaves on one path from the root: fetched nodes, the steps that change nodes of
//! a path, and how the nodes above rise.
//! The layers above use `fetch`, `raise_way` and the makers of steps, and say what a step leaves by
//! `IsFlushed` and `IsMadeBy`.
#![tactic(auto)]

mod fetching;
mod paths;
mod raising;

pub use fetching::{Fetched, fetch};
pub use paths::{change_step, path_step};
pub use raising::{Way, changes_over, raise_way, raised};
