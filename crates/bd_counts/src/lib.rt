//! What a step makes of the counts of nodes, found before anything is changed.
//! The layers above use the contracts of `recount` and `added`, which read from a `Counted`.
#![tactic(auto)]

mod counted;
mod naming;
mod new_counts;
mod owing;
mod raising;

pub use counted::Counted;
pub use naming::{added_by, named_by, push_node};
pub use new_counts::{NewCounts, recount};
pub use raising::added;
