//! One step of a flush: what waits in the root goes down, and the tree has what it had. The layers
//! above use `flush_step`, whose steps are of the kinds of `IsFlushStep`; `settle_step`, which takes
//! down what waits on the way of a graft's source; and `make_from`, which makes the step that begins at
//! an edge.
#![tactic(auto)]

mod beginning;
mod filling;
mod gotos;
pub mod laws;
mod settling;
mod steps;
mod ways;

pub use beginning::make_from;
pub use filling::{FullEdge, fullest};
pub use settling::settle_step;
pub use steps::flush_step;
pub use ways::{FlushStep, Site, Work};
