//! The view of a volume on a device, and how it moves: definitions, and laws about them.
//! The layers above tell by it what commands, checkpoints, syncs and reclaiming do to nodes and to
//! slots, and when an image is full.
#![tactic(auto)]

pub mod laws;
