//! A subtree that is written as a stream, or made of one: the loops of an export and of an import,
//! over a shell's volume, a source and a sink.
//! The layer above uses the contracts of `export_subtree` and `import_subtree`, and the laws, which
//! say of an image that stands for a tree what is written and what stands there.
#![tactic(auto)]

mod exporting;
mod importing;
pub mod laws;
mod taking;

pub use exporting::{ExportEnd, export_subtree};
pub use importing::{Fed, ImportEnd, import_subtree};
pub use taking::Given;
