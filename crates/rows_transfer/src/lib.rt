//! The tests of exports and imports over a device in memory: the bytes of streams, what an import
//! of them makes, which bytes it refuses, and a device, a source and a sink that fail.
//! Nothing stands on this crate.
#![tactic(auto)]

#[cfg(test)]
mod bytes;
#[cfg(test)]
mod failing;
#[cfg(test)]
mod images;
#[cfg(test)]
mod refused;
