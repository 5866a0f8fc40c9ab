//! The tests of the libraries' public calls, a module for each crate that is tested; those of nodes
//! stand in `rows_nodes`, those of devices and of what is written to them in `rows_devices`. No
//! library has tests of its own, and nothing stands on this crate. A test shows what no clause says:
//! worked rows, texts, and that memory is enough.
#![tactic(auto)]

#[cfg(test)]
mod command;
#[cfg(test)]
mod entries;
#[cfg(test)]
mod io;
#[cfg(test)]
mod keys;
#[cfg(test)]
mod message;
#[cfg(test)]
mod names;
#[cfg(test)]
mod plain;
#[cfg(test)]
mod recall;
#[cfg(test)]
mod records;
#[cfg(test)]
mod script;
#[cfg(test)]
mod wire;
