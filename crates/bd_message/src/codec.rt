//! Messages as bytes.

ghost use Rattle.std.specs.Prelude.{◌≡◌, ◌≤◌, length, IfOk, OnErr};
ghost use Rattle.std.specs.Option.{option_map};
ghost use Rattle.bd_wire.specs.Text.{text16, FitsText16};
ghost use Rattle.bd_wire.specs.Writing.{Puts, room};
ghost use Rattle.bd_message.specs.Messages.{IsMessage};
ghost use Rattle.bd_message.specs.Codec.{message_bytes, IsReadAs, IsEncodedAs, IsPartAs, FitsTexts, FitsPart, FitsGoto, encode_texts, encode_part, encode_goto};

use crate::Message;
use bd_keys::Bytes;
use bd_wire::{Cursor, Out};
use std::alloc::{AllocError, Global};

// The first byte of each message.
const PUT: u8 = 1;

const DEL: u8 = 2;

const PATCH: u8 = 3;

const CUT: u8 = 4;

const GOTO: u8 = 5;

impl Message {
    /// Writes its encoding, which is never longer than its size.
    #[tactic(auto, using(bd_wire::proofs::WritingLemmas::writing))]
    pub fn write(&self, out: &mut Out)
        requires message { IsMessage self.now }
        requires room { length (message_bytes self.now) ≤ length (room out.old) }
        ensures { Puts out.old out.new (message_bytes self.now) }
    {
        match self {
            Message::Put { key, value } => {
                out.put_u8(PUT);
                out.put_text16(key.as_slice());
                out.put_text16(value.as_slice());
            }
            Message::Del { key } => {
                out.put_u8(DEL);
                out.put_text16(key.as_slice());
            }
            Message::Patch { key, off, bytes } => {
                out.put_u8(PATCH);
                out.put_text16(key.as_slice());
                out.put_u16(*off);
                out.put_text16(bytes.as_slice());
            }
            Message::Cut { prefix, from } => {
                out.put_u8(CUT);
                out.put_text16(prefix.as_slice());
                out.put_text16(from.as_slice());
            }
            Message::Goto {
                prefix,
                source,
                child,
            } => {
                out.put_u8(GOTO);
                out.put_text16(prefix.as_slice());
                out.put_text16(source.as_slice());
                out.put_u64(*child);
            }
        }
    }

    /// Reads the message at the front of what is left. It is `None` exactly where none is encoded
    /// there, and the cursor then stays.
    pub fn read(alloc: Global, cursor: &mut Cursor) -> Result<Option<Message>, AllocError>
        ensures read { IfOk result (λ found. IsReadAs cursor.old cursor.new found) }
        ensures err { OnErr result (cursor.new ≡ cursor.old) }
    {
        let mut ahead = cursor.ahead();
        match encoded(alloc, &mut ahead)? {
            Some(message) if message.is_message() => {
                *cursor = ahead;
                Ok(Some(message))
            }
            _ => Ok(None),
        }
    }
}

// Reads a message off the front, whatever the lengths of its parts.
fn encoded(alloc: Global, ahead: &mut Cursor) -> Result<Option<Message>, AllocError>
    ensures { IfOk result (λ found. IsEncodedAs ahead.old ahead.new found) }
{
    let Ok(tag) = ahead.u8() else {
        return Ok(None);
    };
    match tag {
        PUT => match texts(alloc, ahead)? {
            Some((key, value)) => Ok(Some(Message::Put { key, value })),
            None => Ok(None),
        },
        DEL => match text(alloc, ahead)? {
            Some(key) => Ok(Some(Message::Del { key })),
            None => Ok(None),
        },
        PATCH => match part(alloc, ahead)? {
            Some((key, off, bytes)) => Ok(Some(Message::Patch { key, off, bytes })),
            None => Ok(None),
        },
        CUT => match texts(alloc, ahead)? {
            Some((prefix, from)) => Ok(Some(Message::Cut { prefix, from })),
            None => Ok(None),
        },
        GOTO => match texts_and_child(alloc, ahead)? {
            Some((prefix, source, child)) => Ok(Some(Message::Goto {
                prefix,
                source,
                child,
            })),
            None => Ok(None),
        },
        _ => Ok(None),
    }
}

// Reads a text.
fn text(alloc: Global, ahead: &mut Cursor) -> Result<Option<Bytes>, AllocError>
    ensures { IfOk result (λ found. IsPartAs FitsText16 text16 ahead.old ahead.new found) }
{
    match ahead.text16() {
        Ok(bytes) => Ok(Some(Bytes::from_slice(alloc, bytes)?)),
        Err(_) => Ok(None),
    }
}

// Reads two texts.
fn texts(alloc: Global, ahead: &mut Cursor) -> Result<Option<(Bytes, Bytes)>, AllocError>
    ensures { IfOk result (λ found. IsPartAs FitsTexts encode_texts ahead.old ahead.new found) }
{
    let Some(first) = text(alloc, ahead)? else {
        return Ok(None);
    };
    let Some(second) = text(alloc, ahead)? else {
        return Ok(None);
    };
    Ok(Some((first, second)))
}

// Reads a text, an offset and a text.
fn part(alloc: Global, ahead: &mut Cursor) -> Result<Option<(Bytes, u16, Bytes)>, AllocError>
    ensures { IfOk result (λ found. IsPartAs FitsPart encode_part ahead.old ahead.new
        (option_map (λ p. ((p.0, p.1), p.2)) found)) }
{
    let Some(first) = text(alloc, ahead)? else {
        return Ok(None);
    };
    let Ok(off) = ahead.u16() else {
        return Ok(None);
    };
    let Some(second) = text(alloc, ahead)? else {
        return Ok(None);
    };
    Ok(Some((first, off, second)))
}

// Reads two texts and a node's number.
fn texts_and_child(
    alloc: Global,
    ahead: &mut Cursor,
) -> Result<Option<(Bytes, Bytes, u64)>, AllocError>
    ensures { IfOk result (λ found. IsPartAs FitsGoto encode_goto ahead.old ahead.new
        (option_map (λ p. ((p.0, p.1), p.2)) found)) }
{
    let Some((first, second)) = texts(alloc, ahead)? else {
        return Ok(None);
    };
    let Ok(child) = ahead.u64() else {
        return Ok(None);
    };
    Ok(Some((first, second, child)))
}
