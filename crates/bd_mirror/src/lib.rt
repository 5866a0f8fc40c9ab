//! A device over two others, which keeps what it is given on both. The layers above may use
//! `Mirror` as any device that has a name: over halves that tell their contents it tells its own,
//! and what crashes leave. Why its calls fail, and which halves go out of use, is told by `also`.
#![tactic(auto)]

mod copying;
mod halves;
mod history;
mod mirror;
mod parts;
mod writing;

pub use mirror::Mirror;
