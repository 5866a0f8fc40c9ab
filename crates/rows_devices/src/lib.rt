//! The tests of devices in memory, mirrors and slots.
//! Nothing stands on this crate, and the rules of `rows` hold for it.
#![tactic(auto)]

#[cfg(test)]
mod device;
#[cfg(test)]
mod mirror;
#[cfg(test)]
mod slots;
#[cfg(test)]
mod tails;
