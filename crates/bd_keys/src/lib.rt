//! Byte strings and what edits make of them, and the order and the ranges of keys.
//! The layers above may use the contracts, which see byte strings as lists and ranges as sets of
//! keys.
#![tactic(auto)]

mod bytes;
mod edits;
mod items;
pub mod laws;
mod prefix;
mod range;

pub use bytes::Bytes;
pub use edits::{front, overwritten, resized, tail};
pub use items::Items;
pub use prefix::{after, lift, starts, translate};
pub use range::{Range, clip};
