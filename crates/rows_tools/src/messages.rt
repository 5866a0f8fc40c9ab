//! Messages that tests make, and calls of a key map where their conditions hold.

use bd_keys::{Bytes, starts};
use bd_limits::{GRAFT_SIZE, MAX_KEY};
use bd_message::{KeyMap, Message};
use std::alloc::{AllocError, Global};
use std::test::Fail;

/// The three words of a text, of which what isn't there is empty.
pub fn words(text: &str) -> (&str, &str, &str) {
    let mut words = text.split(' ');
    let first = words.next().unwrap_or("");
    let second = words.next().unwrap_or("");
    let third = words.next().unwrap_or("");
    (first, second, third)
}

/// The message of a text: its name, its key or prefix, and its value, where it begins or its source.
/// A patch begins at offset 3, and the child of a `Goto` is 7.
pub fn message(alloc: Global, text: &str) -> Result<Message, AllocError> {
    let (name, first, second) = words(text);
    let first = Bytes::from_slice(alloc, first.as_bytes())?;
    let second = Bytes::from_slice(alloc, second.as_bytes())?;
    Ok(match name {
        "put" => Message::Put {
            key: first,
            value: second,
        },
        "del" => Message::Del { key: first },
        "patch" => Message::Patch {
            key: first,
            off: 3,
            bytes: second,
        },
        "cut" => Message::Cut {
            prefix: first,
            from: second,
        },
        _ => Message::Goto {
            prefix: first,
            source: second,
            child: 7,
        },
    })
}

/// Applies one message that names no node, where there is room.
pub fn apply<M: KeyMap>(map: &mut M, message: Message) -> Result<(), Fail> {
    if !message.is_message() || message.size() > map.room() {
        return Err(Fail::new("no such message"));
    }
    if let Message::Goto { .. } = message {
        return Err(Fail::new("a message that names a node"));
    }
    map.apply(&[message])?;
    Ok(())
}

/// Grafts, where it is allowed.
pub fn graft<M: KeyMap>(map: &mut M, s: &[u8], d: &[u8], keep: bool) -> Result<(), Fail> {
    let is_short = s.len() <= MAX_KEY && d.len() <= MAX_KEY;
    if !is_short || map.room() < GRAFT_SIZE || (!keep && starts(d, s)) {
        return Err(Fail::new("no such graft"));
    }
    map.graft(s, d, keep)?;
    Ok(())
}
