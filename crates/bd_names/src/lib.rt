//! Names and paths: reading them, their text, their keys, what stands below what.
//! The layers above may use the contracts of `Name` and `Path`, which see a path as the list of its
//! names.
#![tactic(auto)]

mod fault;
mod laws;
mod name;
mod path;

pub use fault::PathFault;
pub use laws::{law_of_below, law_of_keys, law_of_parents, law_of_path_texts};
pub use name::Name;
pub use path::Path;
