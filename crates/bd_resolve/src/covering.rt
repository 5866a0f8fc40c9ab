//! Messages that say alone what stands at all keys that begin with a prefix.

ghost use Rattle.std.specs.Prelude.{◌≡◌, ◌++◌, true, IfOk};
ghost use Rattle.bd_resolve.specs.Following.{covers, covered, IsNewestCover};

use crate::Target;
use bd_keys::Bytes;
use bd_message::Message;
use std::alloc::{AllocError, Global};

/// Whether a message says alone what stands at each key that begins with a prefix.
pub fn covers(message: &Message, prefix: &[u8]) -> bool
    ensures { result ≡ covers message.now prefix.now }
{
    match message {
        Message::Put { .. } | Message::Del { .. } | Message::Patch { .. } => false,
        Message::Cut { prefix: own, from } => {
            prefix.starts_with(own.as_slice()) && !prefix[own.len()..].cmp(from.as_slice()).is_lt()
        }
        Message::Goto { prefix: own, .. } => prefix.starts_with(own.as_slice()),
    }
}

/// What a message that covers a prefix sends its keys to.
pub fn covered(
    alloc: Global,
    message: &Message,
    prefix: &[u8],
) -> Result<Option<Target>, AllocError>
    requires { covers message.now prefix.now ≡ true }
    ensures { IfOk result (λ target. target ≡ covered message.now prefix.now) }
{
    match message {
        Message::Goto {
            prefix: own,
            source,
            child,
        } => {
            let source = joined(alloc, source.as_slice(), &prefix[own.len()..])?;
            Ok(Some(Target {
                child: *child,
                source,
            }))
        }
        Message::Put { .. } | Message::Del { .. } | Message::Patch { .. } | Message::Cut { .. } =>
            Ok(None),
    }
}

/// The place of the newest message that covers a prefix, among those from a place on.
pub fn newest_cover(buffer: &[Message], from: usize, prefix: &[u8]) -> Option<usize>
    ensures { IsNewestCover buffer.now from prefix.now result }
{
    let mut place = buffer.len();
    while place > from {
        place -= 1;
        if covers(&buffer[place], prefix) {
            return Some(place);
        }
    }
    None
}

/// Bytes after others.
pub fn joined(alloc: Global, front: &[u8], rest: &[u8]) -> Result<Bytes, AllocError>
    ensures { IfOk result (λ made. made ≡ front.now ++ rest.now) }
{
    let mut made = Vec::from_slice(alloc, front)?;
    made.extend_from_slice(rest)?;
    Ok(Bytes::from_vec(made))
}
