//! Files over any key map: what a read gives, what a write and a truncation send, and the messages
//! that put a file of at most one block at another path.
//! The layers above use the contracts, which hold for each key map that represents a tree.
#![tactic(auto)]

mod lookup;
mod patches;
mod plan;
mod put;
mod reading;
mod small;
mod truncate;
mod write;

pub use lookup::{file, record};
pub use plan::FilePlan;
pub use put::put_record;
pub use reading::read;
pub use small::{SmallFile, carried, copied, has_little, small_file};
pub use truncate::plan_truncate;
pub use write::plan_write;
