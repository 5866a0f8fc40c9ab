//! The bytes of what is said to a client.

ghost use Rattle.std.specs.Prelude.{◌≡◌, ◌+◌, ◌≤◌, ◌++◌, ◌∷◌, [], length, take, decimal};
ghost use Rattle.bd_script.specs.Lines.{HasNoNewline};
ghost use Rattle.bd_script.specs.Replies.{IsLineReply, line_reply_text, line_reply_line};
ghost use Rattle.bd_sessions.specs.Replies.{IsTurnReply, own_reply, tag_text, turn_text, turn_line, said_text, said_line};

use crate::asking::SessionReply;
use bd_command::{Refusal, Reply};
use bd_script::{Denial, LineReply, REPLY_SIZE, denial_bytes, line_reply};
use itoa::Buffer;

/// The bytes of a client's number, three digits at most, and a space.
const TAG_SIZE: usize = 4;

/// The bytes of a buffer for what is said to a client, which has room for it: a reply, and its
/// number before it.
pub const TURN_SIZE: usize = REPLY_SIZE + TAG_SIZE;

/// What is said to a client.
#[derive(Debug, Drop)]
pub enum TurnReply {
    /// The reply to a line of a script.
    Line(LineReply),
    /// A file was opened, and this is its handle's number.
    Opened(u8),
    /// A handle was closed.
    Closed,
    /// What was asked is denied.
    No(Denial),
}

impl TurnReply {
    /// What is said where the command of a turn was replied to, and `own` is what the sessions say.
    pub fn of(own: SessionReply, line: LineReply) -> TurnReply
        ensures { result ≡ own_reply own line }
    {
        match own {
            SessionReply::Same => TurnReply::Line(line),
            SessionReply::IsDir => {
                TurnReply::Line(LineReply::Command(Reply::Refused(Refusal::IsDir)))
            }
            SessionReply::Opened(number) => TurnReply::Opened(number),
            SessionReply::No(denial) => TurnReply::No(denial),
        }
    }
}

/// Writes what is said to a client, and its newline, at the front of `into`, and returns how many
/// bytes they are. Where there is a client, its number and a space stand before it. What is said
/// has no newline.
pub fn turn_reply(client: Option<u8>, said: &TurnReply, into: &mut [u8; TURN_SIZE]) -> usize
    requires { IsTurnReply said.now }
    ensures one_line { HasNoNewline (said_text client said.now) }
    ensures length { result ≡ length (said_line client said.now) }
    ensures text { take result into.new ≡ said_line client said.now }
    ensures bound { result ≤ TURN_SIZE }
{
    let start = put_tag(into, client);
    start + put_turn(&mut into[start..], said)
}

/// Writes the number of a client and a space at the front, where there is one, and returns how many
/// bytes they are.
fn put_tag(into: &mut [u8], client: Option<u8>) -> usize
    requires room { 4 ≤ length into.old }
    ensures text { take result into.new ≡ tag_text client }
    ensures length { result ≡ length (tag_text client) }
    ensures bound { result ≤ 4 }
    ensures one_line { HasNoNewline (tag_text client) }
{
    let Some(client) = client else {
        return 0;
    };
    let mut buffer = Buffer::new();
    let end = put(into, 0, buffer.format(client).as_bytes());
    put(into, end, b" ")
}

/// Writes what is said, without the client, and its newline at the front, and returns how many
/// bytes they are.
fn put_turn(into: &mut [u8], said: &TurnReply) -> usize
    requires reply { IsTurnReply said.now }
    requires room { REPLY_SIZE ≤ length into.old }
    ensures one_line { HasNoNewline (turn_text said.now) }
    ensures text { take result into.new ≡ turn_line said.now }
    ensures length { result ≡ length (turn_line said.now) }
    ensures bound { result ≤ REPLY_SIZE }
{
    match said {
        TurnReply::Line(line) => put_line(into, line),
        TurnReply::Opened(number) => put_opened(into, *number),
        TurnReply::Closed => put(into, 0, b"ok\n"),
        TurnReply::No(denial) => {
            let end = put(into, 0, b"no ");
            let end = put(into, end, denial_bytes(*denial));
            put(into, end, b"\n")
        }
    }
}

/// Writes the reply to a line of a script and its newline at the front.
fn put_line(into: &mut [u8], line: &LineReply) -> usize
    requires reply { IsLineReply line.now }
    requires room { REPLY_SIZE ≤ length into.old }
    ensures one_line { HasNoNewline (line_reply_text line.now) }
    ensures text { take result into.new ≡ line_reply_line line.now }
    ensures length { result ≡ length (line_reply_line line.now) }
    ensures bound { result ≤ REPLY_SIZE }
{
    let Some(front) = into.first_chunk_mut::<REPLY_SIZE>() else {
        return 0;
    };
    line_reply(line, front)
}

/// Writes that a file was opened, and a newline, at the front.
fn put_opened(into: &mut [u8], number: u8) -> usize
    requires { REPLY_SIZE ≤ length into.old }
    ensures text { take result into.new ≡ turn_line (TurnReply.Opened number) }
    ensures length { result ≡ length (turn_line (TurnReply.Opened number)) }
    ensures bound { result ≤ REPLY_SIZE }
{
    let mut buffer = Buffer::new();
    let end = put(into, 0, b"ok ");
    let end = put(into, end, buffer.format(number).as_bytes());
    put(into, end, b"\n")
}

/// Writes bytes at a place, and returns the place after them.
fn put(into: &mut [u8], at: usize, bytes: &[u8]) -> usize
    requires room { at + length bytes.now ≤ length into.old }
    ensures text { take result into.new ≡ take at into.old ++ bytes.now }
    ensures end { result ≡ at + length bytes.now }
{
    let end = at + bytes.len();
    into[at..end].copy_from_slice(bytes);
    end
}
