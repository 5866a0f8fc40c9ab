//! Grafts: what stands under one prefix is to stand under another, in a few nodes.
//! The layers above use the contract of `graft`.
#![tactic(auto)]

mod grafting;
pub mod laws;
mod layers;
mod looking;
mod packing;
mod walking;

pub use grafting::{Walk, graft};
pub use layers::Layer;
pub use packing::{Groups, Packed, Stack, overlay_count, pack};
pub use walking::{Walked, walk};
