//! What tests of several crates use: messages of texts, and commands of lines by the plain
//! program, with their replies as text.
//! The tests above use what stands here as it is; no clause says what it does.
#![tactic(auto)]

mod commands;
mod messages;
mod replies;

pub use commands::plain_answer;
pub use messages::{apply, graft, message, words};
pub use replies::text_of;
