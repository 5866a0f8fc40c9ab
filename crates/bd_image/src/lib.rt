//! What an image stands for: definitions, and laws about them.
//! The layers above may use that an image stands for one tree and count, that blocks which it
//! doesn't use are free, and that one which stands for a tree has no bad block.
#![tactic(auto)]

pub mod laws;
