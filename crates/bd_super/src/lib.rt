//! Superblocks: the one that an image starts from, and how the next one takes its place.
//! The layers above may use the contracts of `read_live`, which gives the live one or names the
//! damaged block, and of `publish`, of which a crash leaves the old live one or the new one.
#![tactic(auto)]

mod codec;
pub mod laws;
mod live;
mod publishing;
mod superblock;

pub use bd_device::ImageFault as SuperFault;
pub use live::read_live;
pub use publishing::publish;
pub use superblock::{Half, Super, Version, WRITTEN_VERSION};
