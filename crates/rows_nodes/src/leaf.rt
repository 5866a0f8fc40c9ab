//! Leaves after messages, their values and their parts, as texts.

ghost use Rattle.std.specs.Prelude.{◌≤◌, ◌↔◌, All, length, IfOk, IsTrue};
ghost use Rattle.bd_leaf.specs.Leaves.{AreEntries};
ghost use Rattle.bd_message.specs.Messages.{IsMessage, IsPlain};

use crate::made::sent;
use bd_leaf::{clip, fits, receive, split, value_at};
use bd_message::Message;
use bd_node::Entries;
use std::alloc::{AllocError, Global};
use std::test::Fail;

// Whether a message names no node.
fn is_plain(message: &Message) -> bool
    ensures { IsTrue result ↔ IsPlain message.now }
{
    match message {
        Message::Goto { .. } => false,
        _ => true,
    }
}

/// A message that names no node.
pub fn plain(alloc: Global, text: &str) -> Result<Message, Fail>
    ensures { IfOk result (λ m. IsMessage m × IsPlain m) }
{
    let message = sent(alloc, text)?;
    if is_plain(&message) {
        Ok(message)
    } else {
        Err(Fail::new("a message that names a node"))
    }
}

// Messages that name no node, the oldest first.
fn batch(alloc: Global, texts: &str) -> Result<Vec<Message>, Fail>
    ensures each { IfOk result (λ list. All IsMessage list.items) }
    ensures plain { IfOk result (λ list. All IsPlain list.items) }
{
    let mut list = Vec::new(alloc);
    for text in texts.split(',') {
        list.push(plain(alloc, text)?)?;
    }
    Ok(list)
}

// A leaf with four keys, put in no order.
fn four_keys(alloc: Global) -> Result<Entries, Fail>
    ensures { IfOk result (λ leaf. AreEntries leaf) }
{
    let list = batch(alloc, "put b 3,put a/x 1,put c 4,put a/y 2")?;
    Ok(receive(alloc, &[], &list)?)
}

// Adds the keys with their values, in order.
fn show(text: &mut Vec<u8>, leaf: &Entries) -> Result<(), AllocError> {
    for entry in leaf.as_slice() {
        text.extend_from_slice(entry.key.as_slice())?;
        text.push(b'=')?;
        text.extend_from_slice(entry.value.as_slice())?;
        text.push(b' ')?;
    }
    Ok(())
}

// The keys with their values, in order.
fn text(alloc: Global, leaf: &Entries) -> Result<Vec<u8>, AllocError> {
    let mut text = Vec::new(alloc);
    show(&mut text, leaf)?;
    Ok(text)
}

// A leaf after messages.
fn received(alloc: Global, leaf: &Entries, list: &[Message]) -> Result<Vec<u8>, AllocError>
    requires leaf { AreEntries leaf.now }
    requires each { All IsMessage list.now }
    requires plain { All IsPlain list.now }
{
    let new = receive(alloc, leaf.as_slice(), list)?;
    text(alloc, &new)
}

// A leaf after the messages of a text.
fn after(alloc: Global, leaf: &Entries, texts: &str) -> Result<Vec<u8>, Fail>
    requires { AreEntries leaf.now }
{
    let list = batch(alloc, texts)?;
    Ok(received(alloc, leaf, &list)?)
}

// A leaf freed of a prefix.
fn clipped(alloc: Global, leaf: &Entries, prefix: &str) -> Result<Vec<u8>, AllocError>
    requires { AreEntries leaf.now }
{
    let new = clip(alloc, leaf.as_slice(), prefix.as_bytes())?;
    text(alloc, &new)
}

// What a call makes of the leaf with four keys.
fn changed(alloc: Global, call: &str, words: &str) -> Result<Vec<u8>, Fail> {
    let leaf = four_keys(alloc)?;
    match call {
        "after" => after(alloc, &leaf, words),
        _ => Ok(clipped(alloc, &leaf, words)?),
    }
}

// Two leaves.
fn both(alloc: Global, first: &Entries, second: &Entries) -> Result<Vec<u8>, AllocError> {
    let mut both = text(alloc, first)?;
    both.extend_from_slice(b"| ")?;
    show(&mut both, second)?;
    Ok(both)
}

// The two halves of a leaf.
fn halves(alloc: Global, leaf: Entries) -> Result<Vec<u8>, Fail>
    requires { AreEntries leaf }
{
    if leaf.len() < 2 {
        return Err(Fail::new("too few keys"));
    }
    let (first, second) = split(leaf)?;
    Ok(both(alloc, &first, &second)?)
}

// What a call gives of the leaf with four keys.
fn found(alloc: Global, call: &str, words: &str) -> Result<Vec<u8>, Fail> {
    match call {
        "halves" => halves(alloc, four_keys(alloc)?),
        _ => changed(alloc, call, words),
    }
}

/// Calls on the leaf with four keys, and what they give: the leaf after messages, the oldest first,
/// its part that begins with a prefix, without it, and its halves. A patch begins at offset 3.
const CALLS: &[(&str, &str, &str)] = &[
    ("after", "put b 9", "a/x=1 a/y=2 b=9 c=4 "),
    ("after", "put a 9", "a=9 a/x=1 a/y=2 b=3 c=4 "),
    ("after", "put d 9", "a/x=1 a/y=2 b=3 c=4 d=9 "),
    ("after", "del b", "a/x=1 a/y=2 c=4 "),
    ("after", "del a", "a/x=1 a/y=2 b=3 c=4 "),
    ("after", "patch c 9", "a/x=1 a/y=2 b=3 c=4\0\09 "),
    ("after", "patch a 9", "a=\0\0\09 a/x=1 a/y=2 b=3 c=4 "),
    ("after", "cut a/", "b=3 c=4 "),
    ("after", "cut a/ y", "a/x=1 b=3 c=4 "),
    ("after", "cut a /y", "a/x=1 b=3 c=4 "),
    ("after", "cut a/ z", "a/x=1 a/y=2 b=3 c=4 "),
    ("after", "cut  b", "a/x=1 a/y=2 "),
    ("after", "cut", ""),
    (
        "after",
        "put b 9,put b 8,del c,put d 7,patch d x",
        "a/x=1 a/y=2 b=8 d=7\0\0x ",
    ),
    (
        "after",
        "put a/z 5,cut a/,put a/y 6,del a/y,put a/w 7",
        "a/w=7 b=3 c=4 ",
    ),
    ("after", "cut,put b 1,cut b,put c 2,put a 3", "a=3 c=2 "),
    (
        "after",
        "del b,patch b x,put e 5,cut e,put 0 1",
        "0=1 a/x=1 a/y=2 b=\0\0\0x c=4 ",
    ),
    (
        "after",
        "put c 9,put b 8,put a/y 7,put a/x 6,put a 5",
        "a=5 a/x=6 a/y=7 b=8 c=9 ",
    ),
    (
        "after",
        "patch a/y 9,cut a/ y,patch a/y 8,patch a/x 7,cut  b",
        "a/x=1\0\07 a/y=\0\0\08 ",
    ),
    ("freed of", "a/", "x=1 y=2 "),
    ("freed of", "b", "=3 "),
    ("freed of", "a/z", ""),
    ("halves", "", "a/x=1 a/y=2 | b=3 c=4 "),
];

#[test]
fn calls_on_a_leaf(rt: HostRuntime) -> Result<(), Fail> {
    for (call, words, want) in CALLS {
        let found = found(rt.alloc(), call, words)?;
        assert!(rt; found.as_slice() == want.as_bytes(), "{call} {words}");
    }
    Ok(())
}

// Whether the leaf with four keys fits, and has its values.
fn has_values(leaf: &Entries) -> bool
    requires { AreEntries leaf.now }
{
    let entries = leaf.as_slice();
    fits(entries)
        && value_at(entries, b"a/y") == Some(b"2".as_slice())
        && value_at(entries, b"a") == None
}

#[test]
fn values_of_a_leaf(rt: HostRuntime) -> Result<(), Fail> {
    let leaf = four_keys(rt.alloc())?;
    assert!(rt; has_values(&leaf));
    Ok(())
}
