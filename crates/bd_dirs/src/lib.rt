//! Directories over any key map: what stands at a path and in a directory, and what each writing
//! command sends.
//! The layers above use the contracts, which hold for each key map that represents a tree.
#![tactic(auto)]

mod changes;
pub mod laws;
mod listing;
mod lookups;
mod moving;
mod plan;
mod planning;

pub use listing::list;
pub use lookups::stat;
pub use plan::Plan;
pub use planning::plan_command;
