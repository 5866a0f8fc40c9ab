//! The messages that change a key map, their effect and their encodings, and the key map itself.
//! The layers above use the effect of a message, and of a key map the contract of `KeyMap` alone.
#![tactic(auto)]

mod codec;
mod entries;
mod fault;
mod freeing;
pub mod laws;
mod list_map;
mod map;
mod message;
mod messages;

pub use fault::{Counter, MapFault};
pub use list_map::ListMap;
pub use map::KeyMap;
pub use message::Message;
pub use messages::Messages;
