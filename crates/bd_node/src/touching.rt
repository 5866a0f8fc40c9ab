//! Which keys a message can change.

ghost use Rattle.std.specs.Prelude.{◌≡◌, ◌↔◌, ◌++◌, IsTrue};
ghost use Rattle.std.specs.Option.{option_copied};
ghost use Rattle.bd_keys.specs.Keys.{key_cmp, IsBelowEnd, InRange};
ghost use Rattle.bd_message.specs.Effect.{is_cut};
ghost use Rattle.bd_node.specs.Touching.{touches, CanTouch};

use crate::index::own_key;
use bd_message::Message;
use std::cmp::Ordering;

/// Whether a message can change what stands at a key.
pub fn touches(message: &Message, key: &[u8]) -> bool
    ensures { result ≡ touches message.now key.now }
{
    match message {
        Message::Put { key: own, .. } => key == own.as_slice(),
        Message::Del { key: own } => key == own.as_slice(),
        Message::Patch { key: own, .. } => key == own.as_slice(),
        Message::Cut { prefix, from } => is_cut(prefix.as_slice(), from.as_slice(), key),
        Message::Goto { prefix, .. } => key.starts_with(prefix.as_slice()),
    }
}

// Whether a key begins with a prefix and goes on with `from` or what stands after it.
fn is_cut(prefix: &[u8], from: &[u8], key: &[u8]) -> bool
    ensures { result ≡ is_cut prefix.now from.now key.now }
{
    key.starts_with(prefix) && !key[prefix.len()..].cmp(from).is_lt()
}

/// Whether a message can change what stands at a key that is at least `lo` and below `hi`. The first
/// such key is `lo`, or else the first one that the message can change at all.
pub fn can_touch(message: &Message, lo: &[u8], hi: Option<&[u8]>) -> bool
    requires { IsBelowEnd lo.now (option_copied hi) }
    ensures { IsTrue result ↔ CanTouch message.now lo.now (option_copied hi.entry) }
{
    match message {
        Message::Cut { prefix, from } => {
            touches(message, lo) || is_joined_in(prefix.as_slice(), from.as_slice(), lo, hi)
        }
        Message::Goto { prefix, .. } => {
            touches(message, lo) || is_in_range(prefix.as_slice(), lo, hi)
        }
        _ => is_in_range(own_key(message), lo, hi),
    }
}

/// Whether a key is at least `lo` and below `hi`.
pub fn is_in_range(key: &[u8], lo: &[u8], hi: Option<&[u8]>) -> bool
    ensures { IsTrue result ↔ InRange lo.now (option_copied hi.entry) key.now }
{
    let above = !key.cmp(lo).is_lt();
    above
        && match hi {
            Some(hi) => key.cmp(hi).is_lt(),
            None => true,
        }
}

// Whether `front` and then `back` is a key that is at least `lo` and below `hi`.
fn is_joined_in(front: &[u8], back: &[u8], lo: &[u8], hi: Option<&[u8]>) -> bool
    ensures { IsTrue result ↔ InRange lo.now (option_copied hi.entry) (front.now ++ back.now) }
{
    let above = !joined_cmp(front, back, lo).is_lt();
    above
        && match hi {
            Some(hi) => joined_cmp(front, back, hi).is_lt(),
            None => true,
        }
}

// The order of `front` and then `back`, and a key.
fn joined_cmp(front: &[u8], back: &[u8], key: &[u8]) -> Ordering
    ensures { result ≡ key_cmp (front.now ++ back.now) key.now }
{
    if key.starts_with(front) {
        back.cmp(&key[front.len()..])
    } else {
        front.cmp(key)
    }
}
