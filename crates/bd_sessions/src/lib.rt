//! Clients with open handles: the lines of a client as values, what its handles stand for as
//! commands are accepted, and the bytes of what is said to it.
//! The layers above use the contracts of `read_turn`, `Sessions`, `turn_reply` and `laws`, and the
//! definitions of `specs/`.
#![tactic(auto)]

mod asked;
mod asking;
mod cell;
mod handle;
pub mod laws;
mod paths;
mod reading;
mod replies;
mod sessions;
mod step;
mod table;
mod turn;
mod verb;
mod waiting;

pub use asking::{Ask, SessionReply};
pub use handle::Handle;
pub use reading::read_turn;
pub use replies::{TURN_SIZE, TurnReply, turn_reply};
pub use sessions::Sessions;
pub use turn::{Turn, TurnFault};

/// How many clients there are.
pub const MAX_CLIENTS: usize = 16;

/// How many handles a client may have open.
pub const MAX_HANDLES: usize = 16;
