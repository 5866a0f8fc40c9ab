//! The bytes of a reply.

ghost use Rattle.std.specs.Prelude.{◌≡◌, ◌+◌, ◌*◌, ◌≤◌, ◌++◌, length, take, decimal};
ghost use Rattle.std.specs.List.{All, flat_map};
ghost use Rattle.hex.specs.Hex.{encode_lower};
ghost use Rattle.bd_command.specs.Command.{IsReply};
ghost use Rattle.bd_command.specs.declared.reply.Reply.TheVariants as reply;
ghost use Rattle.bd_script.specs.Lines.{HasNoNewline};
ghost use Rattle.bd_script.specs.Replies.{IsLineReply, AreListed, IsNamed, ListsNames, reply_text, reply_line, line_reply_text, line_reply_line, no_text, refusal_text, chunk_text, listed_text, listing_text, octal_digit, mode_text};
ghost use Rattle.bd_limits.specs.Limits.{listing_limit};

use bd_command::{Listed, Listing, Refusal, Reply};
use itoa::Buffer;

/// The bytes of a buffer for a reply, which has room for each.
pub const REPLY_SIZE: usize = 32_768;

/// The reply to a line of a script.
#[derive(Debug, Drop)]
pub enum LineReply {
    /// The reply to the line's command.
    Command(Reply),
    /// The line is refused before it is run.
    Unread(Refusal),
    /// How the last walk went: how many nodes it fetched or made, and how many nodes stood one below
    /// the other before it.
    Walk { visits: u64, height: u32 },
    /// A checkpoint was made, or slots were reclaimed.
    Done,
    /// How many slots of the image are free, and how many it has.
    Free { free: u64, slots: u32 },
    /// Too few slots are free for the line: how many are free, and how many it needs.
    Full { free: u64, need: u64 },
    /// The line ends the run.
    Stopped,
}

/// Writes the reply to a line, and its newline, at the front of `into`, and returns how many bytes
/// they are. The reply itself has no newline.
pub fn line_reply(reply: &LineReply, into: &mut [u8; REPLY_SIZE]) -> usize
    requires { IsLineReply reply.now }
    ensures one_line { HasNoNewline (line_reply_text reply.now) }
    ensures length { result ≡ length (line_reply_line reply.now) }
    ensures text { take result into.new ≡ line_reply_line reply.now }
    ensures bound { result ≤ REPLY_SIZE }
{
    let end = put_line_reply(into, reply);
    put(into, end, b"\n")
}

/// Writes the reply to a line at the front.
fn put_line_reply(into: &mut [u8; REPLY_SIZE], reply: &LineReply) -> usize
    requires { IsLineReply reply.now }
    ensures names { ListsNames reply.now }
    ensures text { take result into.new ≡ line_reply_text reply.now }
    ensures length { result ≡ length (line_reply_text reply.now) }
    ensures bound { result ≤ 32000 }
{
    match reply {
        LineReply::Command(reply) => put_reply(into, reply),
        LineReply::Unread(refusal) => put_refusal(into, *refusal),
        LineReply::Walk { visits, height } => {
            put_numbers(into, b"ok walk ", *visits, b" of ", u64::from(*height))
        }
        LineReply::Done => put(into, 0, b"ok"),
        LineReply::Free { free, slots } => {
            put_numbers(into, b"ok free ", *free, b" of ", u64::from(*slots))
        }
        LineReply::Full { free, need } => put_numbers(into, b"full ", *free, b" ", *need),
        LineReply::Stopped => put(into, 0, b"ok"),
    }
}

/// Writes a reply and its newline at the front of `into`, and returns how many bytes they are. A
/// chunk has at most 4,096 bytes, a listing at most 100 names.
pub fn reply(reply: &Reply, into: &mut [u8; REPLY_SIZE]) -> usize
    requires { IsReply reply.now }
    ensures length { result ≡ length (reply_line reply.now) }
    ensures text { take result into.new ≡ reply_line reply.now }
    ensures bound { result ≤ REPLY_SIZE }
{
    let end = put_reply(into, reply);
    put(into, end, b"\n")
}

/// Writes a reply at the front.
fn put_reply(into: &mut [u8; REPLY_SIZE], reply: &Reply) -> usize
    requires { IsReply reply.now }
    ensures names { AreListed reply.now }
    ensures text { take result into.new ≡ reply_text reply.now }
    ensures length { result ≡ length (reply_text reply.now) }
    ensures bound { result ≤ 32000 }
{
    match reply {
        Reply::Done => put(into, 0, b"ok"),
        Reply::Bytes(bytes) => {
            let end = put(into, 0, b"ok");
            put_chunk(into, end, bytes.as_slice())
        }
        Reply::Dir(mode) => {
            let end = put(into, 0, b"ok dir ");
            put_mode(into, end, *mode)
        }
        Reply::File(len, mode) => put_file(into, *len, *mode),
        Reply::Names(listing) => put_listing(into, listing),
        Reply::Refused(refusal) => put_refusal(into, *refusal),
    }
}

/// Writes the length and the mode of a file at the front.
fn put_file(into: &mut [u8; REPLY_SIZE], len: u32, mode: u16) -> usize
    ensures text { take result into.new ≡ reply_text (reply.File len mode) }
    ensures length { result ≡ length (reply_text (reply.File len mode)) }
    ensures bound { result ≤ 100 }
{
    let end = put(into, 0, b"ok file ");
    let end = put_number(into, end, u64::from(len));
    let end = put(into, end, b" ");
    put_mode(into, end, mode)
}

/// Writes a mode in four octal digits at a place, and returns the place after it.
fn put_mode(into: &mut [u8; REPLY_SIZE], at: usize, mode: u16) -> usize
    requires room { at + 4 ≤ REPLY_SIZE }
    ensures text { take result into.new ≡ take at into.old ++ mode_text mode }
    ensures end { result ≡ at + 4 }
{
    let digits = [
        octal_digit(mode / 512),
        octal_digit(mode / 64),
        octal_digit(mode / 8),
        octal_digit(mode),
    ];
    put(into, at, &digits)
}

/// The last octal digit of a number.
fn octal_digit(number: u16) -> u8
    ensures { result ≡ octal_digit number }
{
    b'0' + (number % 8) as u8
}

/// Writes the text of a refused line at the front.
fn put_refusal(into: &mut [u8; REPLY_SIZE], refusal: Refusal) -> usize
    ensures text { take result into.new ≡ no_text refusal }
    ensures length { result ≡ length (no_text refusal) }
    ensures bound { result ≤ 15 }
{
    let end = put(into, 0, b"no ");
    put(into, end, refusal_bytes(refusal))
}

/// Writes what was read at a place, if it is anything, and returns the place after it.
fn put_chunk(into: &mut [u8; REPLY_SIZE], at: usize, bytes: &[u8]) -> usize
    requires room { at + 1 + 2 * length bytes.now ≤ REPLY_SIZE }
    ensures text { take result into.new ≡ take at into.old ++ chunk_text bytes.now }
    ensures end { result ≡ at + length (chunk_text bytes.now) }
    ensures bound { result ≤ at + 1 + 2 * length bytes.now }
{
    if bytes.is_empty() {
        return at;
    }
    let start = put(into, at, b" ");
    put_hex(into, start, bytes)
}

/// Writes bytes in hex digits at a place, and returns the place after them.
fn put_hex(into: &mut [u8; REPLY_SIZE], at: usize, bytes: &[u8]) -> usize
    requires room { at + 2 * length bytes.now ≤ REPLY_SIZE }
    ensures text { take result into.new ≡ take at into.old ++ encode_lower bytes.now }
    ensures end { result ≡ at + 2 * length bytes.now }
{
    let end = at + 2 * bytes.len();
    let _ = hex::encode_to_slice(bytes, &mut into[at..end]);
    end
}

/// Writes a number at a place, and returns the place after it.
fn put_number(into: &mut [u8; REPLY_SIZE], at: usize, number: u64) -> usize
    requires room { at + 40 ≤ REPLY_SIZE }
    ensures text { take result into.new ≡ take at into.old ++ decimal number }
    ensures end { result ≡ at + length (decimal number) }
    ensures bound { result ≤ at + 40 }
{
    let mut buffer = Buffer::new();
    put(into, at, buffer.format(number).as_bytes())
}

/// Writes two numbers at the front, after what stands before them and with what stands between.
fn put_numbers(
    into: &mut [u8; REPLY_SIZE],
    before: &[u8],
    first: u64,
    between: &[u8],
    second: u64,
) -> usize
    requires room { length before.now + length between.now ≤ 20 }
    ensures text { take result into.new
        ≡ before.now ++ decimal first ++ between.now ++ decimal second }
    ensures length { result
        ≡ length (before.now ++ decimal first ++ between.now ++ decimal second) }
    ensures bound { result ≤ 100 }
{
    let end = put(into, 0, before);
    let end = put_number(into, end, first);
    let end = put(into, end, between);
    put_number(into, end, second)
}

/// Writes a listing at the front.
fn put_listing(into: &mut [u8; REPLY_SIZE], listing: &Listing) -> usize
    requires { length listing.now.names ≤ listing_limit }
    ensures names { All IsNamed listing.now.names }
    ensures text { take result into.new ≡ listing_text listing.now }
    ensures length { result ≡ length (listing_text listing.now) }
    ensures bound { result ≤ 32000 }
{
    let end = put(into, 0, b"ok");
    let end = put_names(into, end, listing.names.as_slice());
    if listing.more {
        put(into, end, b" +")
    } else {
        end
    }
}

/// Writes the names of a listing at a place, and returns the place after them.
fn put_names(into: &mut [u8; REPLY_SIZE], at: usize, names: &[Listed]) -> usize
    requires room { at + 257 * length names.now ≤ REPLY_SIZE }
    ensures names { All IsNamed names.now }
    ensures text { take result into.new ≡ take at into.old ++ flat_map listed_text names.now }
    ensures end { result ≡ at + length (flat_map listed_text names.now) }
    ensures bound { result ≤ at + 257 * length names.now }
{
    let mut end = at;
    for listed in names {
        end = put_listed(into, end, listed);
    }
    end
}

/// Writes a name of a listing at a place, and returns the place after it.
fn put_listed(into: &mut [u8; REPLY_SIZE], at: usize, listed: &Listed) -> usize
    requires room { at + 257 ≤ REPLY_SIZE }
    ensures name { IsNamed listed.now }
    ensures text { take result into.new ≡ take at into.old ++ listed_text listed.now }
    ensures end { result ≡ at + length (listed_text listed.now) }
    ensures bound { result ≤ at + 257 }
{
    let start = put(into, at, b" ");
    let end = put(into, start, listed.name.as_bytes());
    if listed.is_dir {
        put(into, end, b"/")
    } else {
        end
    }
}

/// The number and the name of a refusal.
fn refusal_bytes(refusal: Refusal) -> &'static [u8]
    ensures text { result.now ≡ refusal_text refusal }
    ensures bound { length result.now ≤ 12 }
{
    match refusal {
        Refusal::NotFound => b"1 not-found",
        Refusal::Exists => b"2 exists",
        Refusal::NoParent => b"3 no-parent",
        Refusal::NotDir => b"4 not-dir",
        Refusal::IsDir => b"5 is-dir",
        Refusal::Inside => b"6 inside",
        Refusal::Root => b"7 root",
        Refusal::TooBig => b"8 too-big",
        Refusal::BadPath => b"9 bad-path",
        Refusal::BadLine => b"10 bad-line",
    }
}

/// Writes bytes at a place, and returns the place after them.
fn put(into: &mut [u8; REPLY_SIZE], at: usize, bytes: &[u8]) -> usize
    requires room { at + length bytes.now ≤ REPLY_SIZE }
    ensures text { take result into.new ≡ take at into.old ++ bytes.now }
    ensures end { result ≡ at + length bytes.now }
{
    let end = at + bytes.len();
    into[at..end].copy_from_slice(bytes);
    end
}
