//! The lines of a script as values, the bytes of replies, and scripts that a seed makes.
//! The layers above use the contracts of `read_line`, `reply`, `line_reply`, `Generator` and `laws`,
//! the definitions of `specs/`, and, to read lines of their own, what reads a word.
#![tactic(auto)]

mod denial;
mod draws;
mod generated;
mod generator;
pub mod laws;
mod line;
mod number;
mod read;
mod replies;
mod verb;
mod words;

pub use denial::{Denial, denial_bytes};
pub use generator::Generator;
pub use line::{Line, LineFault};
pub use number::{read_hex, read_number};
pub use read::{read_line, read_path};
pub use replies::{LineReply, REPLY_SIZE, line_reply, reply};
pub use words::{MAX_WORDS, Words, cut_words};
