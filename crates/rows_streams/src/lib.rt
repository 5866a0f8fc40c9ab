//! The tests of streams of a subtree. Nothing stands on this crate, and the rules of `rows` hold for
//! it.
#![tactic(auto)]

#[cfg(test)]
mod around;
#[cfg(test)]
mod export;
#[cfg(test)]
mod generated;
#[cfg(test)]
mod import;
