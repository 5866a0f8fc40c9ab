//! Lists of messages.

use crate::Message;
use bd_keys::Items;

/// Messages in order, the oldest first.
pub type Messages = Items<Message>;
