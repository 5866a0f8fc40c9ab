//! What is planned for a file.

use bd_command::Refusal;
use bd_message::Messages;

/// What a change of a file comes to: a refusal, or the messages to be applied.
#[derive(Debug, Drop)]
pub enum FilePlan {
    /// The change is refused.
    Refused(Refusal),
    /// At most four messages, the oldest first.
    Apply(Messages),
}
