//! Images of nodes: a node as the bytes of a slot, and back.
//! The layers above may use that `encode` writes the one image of a node, and that `decode` reads
//! it and nothing else.
#![tactic(auto)]

mod inner;
pub mod laws;
mod leaf;
mod read;
mod write;

pub use read::decode;
pub use write::encode;
