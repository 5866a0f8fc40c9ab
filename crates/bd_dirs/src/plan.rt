//! What is planned for a command.

use bd_command::Refusal;
use bd_keys::Bytes;
use bd_message::Messages;

/// What a writing command comes to: a refusal, or what is to be done with the key map.
#[derive(Debug, Drop)]
pub enum Plan {
    /// The command is refused.
    Refused(Refusal),
    /// At most four messages are to be applied, the oldest first.
    Apply(Messages),
    /// The keys that begin with `s` are to be grafted to `d`; without `keep` nothing stays at `s`.
    Graft { s: Bytes, d: Bytes, keep: bool },
}
