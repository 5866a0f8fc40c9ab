ghost use Rattle.std.specs.Prelude.{◌≡◌, ◌≢◌, ◌≤◌, ◌+◌, ℕ, List, Some, length, IfOk, OnOk};
ghost use Rattle.std.specs.Option.{option_map};
ghost use Rattle.bd_keys.specs.Keys.{IsKey};
ghost use Rattle.bd_limits.specs.Limits.{key_limit, block_limit};

use bd_keys::Bytes;
use bd_message::{KeyMap, ListMap, MapFault, Message, laws};
use bd_wire::{Cursor, Out};
use rows_tools::{apply, graft, message, words};
use std::alloc::{AllocError, Global};
use std::process::Abort;
use std::test::Fail;

// Whether this stands at a key.
fn is_at<M: KeyMap>(map: &mut M, key: &str, want: Option<&str>) -> Result<bool, Fail> {
    let found = map.get(key.as_bytes())?;
    Ok(found.as_ref().map(|found| found.as_slice()) == want.map(|want| want.as_bytes()))
}

// Whether this is the next key and its value, with a space between.
fn is_next<M: KeyMap>(
    map: &mut M,
    from: &str,
    within: &str,
    want: Option<&str>,
) -> Result<bool, Fail> {
    let found = map.next(from.as_bytes(), within.as_bytes())?;
    Ok(match (&found, want) {
        (Some((key, value)), Some(want)) => is_pair(key, value, want),
        (None, None) => true,
        _ => false,
    })
}

// Whether a text is a key, a space and a value.
fn is_pair(key: &[u8], value: &[u8], text: &str) -> bool {
    let (first, second, _) = words(text);
    key == first.as_bytes() && value == second.as_bytes()
}

// Whether a call, written as a word and its two arguments, gives this.
fn gives<M: KeyMap>(
    alloc: Global,
    map: &mut M,
    call: &str,
    want: Option<&str>,
) -> Result<bool, Fail> {
    let (name, first, second) = words(call);
    match name {
        "get" => return is_at(map, first, want),
        "next" => return is_next(map, first, second, want),
        "copy" => graft(map, first.as_bytes(), second.as_bytes(), true)?,
        "move" => graft(map, first.as_bytes(), second.as_bytes(), false)?,
        _ => apply(map, message(alloc, call)?)?,
    }
    Ok(true)
}

/// Calls of one key map, and what `get` and `next` give: a value, and a key with its value.
const CALLS: &[(&str, Option<&str>)] = &[
    ("patch p xy", None),
    ("get p", Some("\0\0\0xy")),
    ("next p ", Some("p \0\0\0xy")),
    ("put sa 1", None),
    ("put sb 1", None),
    ("put sc 1", None),
    ("put t0 1", None),
    // A cut from the middle on leaves what is below it, and `next` passes over it.
    ("cut s b", None),
    ("get sa", Some("1")),
    ("get sb", None),
    ("next sa s", Some("sa 1")),
    ("next sb s", None),
    ("next sb ", Some("t0 1")),
    // A copy below what is copied has the old contents.
    ("copy s sa/", None),
    ("get sa/a", Some("1")),
    ("get sa/a/a", None),
    ("move s u", None),
    ("get ua/a", Some("1")),
    ("next a s", None),
    ("del ua", None),
    ("next u ", Some("ua/a 1")),
];

// Makes the calls.
fn call(rt: &impl Abort, alloc: Global, map: &mut ListMap) -> Result<(), Fail> {
    for (call, want) in CALLS {
        assert!(rt; gives(alloc, map, call, *want)?, "{call}");
    }
    Ok(())
}

#[test]
fn calls_of_a_key_map(rt: HostRuntime) -> Result<(), Fail> {
    let mut map = ListMap::new(rt.alloc());
    call(&rt, rt.alloc(), &mut map)
}

// Puts a value and gets it back, over any key map: every other key keeps what it has.
fn put_and_get<M: KeyMap>(
    alloc: Global,
    map: &mut M,
    key: &[u8],
    value: &[u8],
) -> Result<Option<Vec<u8>>, MapFault>
    requires key { length key.now ≤ key_limit }
    requires some { 1 ≤ length value.now }
    requires value { length value.now ≤ block_limit }
    requires room { 16 + length key.now + length value.now ≤ M.room_of map.old }
    ensures got { M.is_known map.old → IfOk result (λ found.
        option_map (λ value. value.items) found ≡ Some value.now) }
    ensures others { M.is_known map.old → OnOk result
        ((k : List ℕ) → IsKey k → k ≢ key.now → M.has map.new k ≡ M.has map.old k) }
    ensures known { M.is_known map.old → M.is_known map.new }
{
    let put = Message::Put {
        key: Bytes::from_slice(alloc, key)?,
        value: Bytes::from_slice(alloc, value)?,
    };
    map.apply(&[put])?;
    map.get(key)
}

// Whether what is put is got.
fn is_got(alloc: Global, map: &mut ListMap) -> Result<bool, Fail> {
    if map.room() < 18 {
        return Err(Fail::new("no room"));
    }
    let found = put_and_get(alloc, map, &[b'a'], &[b'1'])?;
    Ok(found.as_ref().map(|found| found.as_slice()) == Some(b"1".as_slice()))
}

#[test]
fn what_is_put_is_got(rt: HostRuntime) -> Result<(), Fail> {
    let mut map = ListMap::new(rt.alloc());
    assert!(rt; is_got(rt.alloc(), &mut map)?);
    Ok(())
}

// Whether a message is written as these bytes.
fn is_written(message: &Message, bytes: &[u8]) -> bool {
    let mut array = [9u8; 32];
    let mut out = Out::new(&mut array);
    if !message.is_message() || message.size() > out.left() {
        return false;
    }
    laws::encodings_fit_sizes();
    message.write(&mut out);
    array.starts_with(bytes)
}

// Whether a message is read of these bytes, all of them.
fn is_read(alloc: Global, message: &Message, bytes: &[u8]) -> Result<bool, AllocError> {
    let mut cursor = Cursor::new(bytes);
    let found = Message::read(alloc, &mut cursor)?;
    Ok(found.as_ref() == Some(message) && cursor.left().is_empty())
}

/// Messages, and their bytes.
const BYTES: &[(&str, &[u8])] = &[
    ("put k v", &[1, 0, 1, b'k', 0, 1, b'v']),
    ("del k", &[2, 0, 1, b'k']),
    ("patch k v", &[3, 0, 1, b'k', 0, 3, 0, 1, b'v']),
    ("cut k", &[4, 0, 1, b'k', 0, 0]),
    (
        "goto p s",
        &[5, 0, 1, b'p', 0, 1, b's', 0, 0, 0, 0, 0, 0, 0, 7],
    ),
];

// Whether a message is written as these bytes, and read of them.
fn has_bytes(alloc: Global, text: &str, bytes: &[u8]) -> Result<bool, AllocError> {
    let message = message(alloc, text)?;
    Ok(is_written(&message, bytes) && is_read(alloc, &message, bytes)?)
}

#[test]
fn messages_as_bytes(rt: HostRuntime) -> Result<(), Fail> {
    for (text, bytes) in BYTES {
        assert!(rt; has_bytes(rt.alloc(), text, *bytes)?, "{text}");
    }
    Ok(())
}

// Whether there is no message at the front, which stays there.
fn is_left(alloc: Global, bytes: &[u8]) -> Result<bool, AllocError> {
    let mut cursor = Cursor::new(bytes);
    let found = Message::read(alloc, &mut cursor)?;
    Ok(found.is_none() && cursor.left().len() == bytes.len())
}

#[test]
fn bytes_of_no_message_are_left(rt: HostRuntime) -> Result<(), Fail> {
    assert!(rt; is_left(rt.alloc(), &[6, 0, 1, b'k'])?);
    Ok(())
}
