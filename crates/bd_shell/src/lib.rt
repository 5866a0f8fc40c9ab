//! The shell: the lines of a script, each executed on a volume, with its reply, what was acknowledged
//! and the fault that ends them.
//! The layers above use the contracts of `Shell`, `run_script`, `flush` and `Fault`, and the
//! definitions of `specs/`: the transcript, how a session ends, and what a crash leaves.
#![tactic(auto)]

mod acknowledged;
mod fault;
mod outcome;
mod plain;
mod session;
mod shell;

pub use fault::{FAULT_SIZE, Fault};
pub use outcome::{Ack, Outcome};
pub use session::{flush, run_script};
pub use shell::Shell;
