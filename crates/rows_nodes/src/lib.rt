//! The tests of nodes, a module for each crate that is tested; the other libraries' tests stand in
//! `rows`. No library has tests of its own, and nothing stands on this crate. A test shows what no
//! clause says: worked rows, texts, and that memory is enough.
#![tactic(auto)]

#[cfg(test)]
mod cache;
#[cfg(test)]
mod carving;
#[cfg(test)]
mod format;
#[cfg(test)]
mod index;
#[cfg(test)]
mod inner;
#[cfg(test)]
mod leaf;
#[cfg(test)]
mod made;
