//! The tests of what a volume tells its caller and no line shows: that it goes on after a call that
//! failed, for want of memory or at a device that fails at each of its calls, since a run of the
//! program ends at its first fault; and how many slots a command needs.
//! Nothing stands on this crate.
#![tactic(auto)]

#[cfg(test)]
mod calls;
#[cfg(test)]
mod memory;
#[cfg(test)]
mod needs;
#[cfg(test)]
mod stopped;
