//! Where a script comes from and where replies go: sources and sinks, in memory and over std.
//! Layers above use the contracts of `Source` and `Sink`: known bytes, and a cause for each fault.
#![tactic(auto)]

mod failed;
mod mem_sink;
mod mem_source;
mod plan;
mod sink;
mod source;
mod std_sink;
mod std_source;

pub use failed::Failed;
pub use mem_sink::MemSink;
pub use mem_source::MemSource;
pub use plan::CallPlan;
pub use sink::{Sink, put_all};
pub use source::Source;
pub use std_sink::StdSink;
pub use std_source::StdSource;
