//! Streams of a subtree: `BDX1`, the entries at a path and below it, and `E`, as bytes.
//! The layers above use the contracts of `Head`, `Exporter` and `Importer`, and what `laws` says of
//! them.
#![tactic(auto)]

mod exporter;
mod exporting;
mod fault;
mod feeding;
mod head;
mod importer;
pub mod laws;
mod listing;
mod machine;
mod stage;

pub use exporter::Exporter;
pub use fault::{ExportFault, ImportFault};
pub use head::{Head, MAX_HEAD};
pub use importer::{Importer, MAX_STREAM};
