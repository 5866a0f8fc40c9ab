//! Reading a line of a client.

ghost use Rattle.std.specs.Prelude.{◌≡◌, ◌<◌, ◌==◌, length, position, IfSome};
ghost use Rattle.bd_script.specs.Lines.{line_of};
ghost use Rattle.bd_script.specs.Reading.{texts};
ghost use Rattle.bd_sessions.specs.Handles.{client_limit};
ghost use Rattle.bd_sessions.specs.Reading.{IsTextRead, IsTurnRead};
ghost use Rattle.bd_sessions.specs.Turns.{first_word, after_word, client_number, client_of, plain, only_number, turn_of_read, turn_of_write, turn_of_open, turn_of_words, turn_in, turn_of};

use crate::turn::{Turn, TurnFault};
use crate::verb::HandleVerb;
use bd_command::Refusal;
use bd_keys::Bytes;
use bd_limits::{MAX_LINE, MAX_READ, MAX_WRITE};
use bd_script::{LineFault, cut_words, read_hex, read_line, read_number, read_path};
use std::alloc::Global;

/// Reads a line of a client, which is given without its newline: the client's number, a space, and
/// what it asks for. It has at most 8,192 bytes with the number. A refused line takes no memory.
#[tactic(auto, unfolding(crate::specs::Turns::turn_of))]
pub fn read_turn(alloc: Global, line: &[u8]) -> Result<(u8, Turn), TurnFault>
    ensures { IsTurnRead result (client_of line.now) (turn_of line.now) }
{
    let (word, text) = cut_first(line);
    let client = client_number(word).ok_or(TurnFault::NoClient)?;
    if line.len() > MAX_LINE {
        return Err(TurnFault::Refused {
            client,
            refusal: Refusal::BadLine,
        });
    }
    match read_text(alloc, text) {
        Ok(turn) => Ok((client, turn)),
        Err(LineFault::BadLine) => Err(TurnFault::Refused {
            client,
            refusal: Refusal::BadLine,
        }),
        Err(LineFault::BadPath) => Err(TurnFault::Refused {
            client,
            refusal: Refusal::BadPath,
        }),
        Err(LineFault::NoMemory) => Err(TurnFault::NoMemory),
    }
}

/// What stands before the first space of a text, and what stands after it.
fn cut_first(text: &[u8]) -> (&[u8], &[u8])
    ensures word { result.0.now ≡ first_word text.now }
    ensures rest { result.1.now ≡ after_word text.now }
{
    match first_space(text) {
        Some(end) => (&text[..end], &text[end + 1..]),
        None => (text, &[]),
    }
}

/// The place of the first space of a text.
fn first_space(text: &[u8]) -> Option<usize>
    ensures place { result ≡ position (λ byte. byte == 32) text.now }
    ensures bound { IfSome result (λ place. place < length text.now) }
{
    text.iter().position(|byte| *byte == b' ')
}

/// The client's number that a word is: `0` to `15`.
fn client_number(word: &[u8]) -> Option<u8>
    ensures number { result ≡ client_number word.now }
    ensures bound { IfSome result (λ client. client < client_limit) }
{
    match word {
        [a] if a.is_ascii_digit() => Some(*a - b'0'),
        [b'1', b @ b'0'..=b'5'] => Some(10 + (*b - b'0')),
        _ => None,
    }
}

/// Reads what follows the client's number.
#[tactic(auto, unfolding(crate::specs::Turns::turn_in))]
fn read_text(alloc: Global, text: &[u8]) -> Result<Turn, LineFault>
    ensures { IsTextRead result (turn_in text.now) }
{
    let (word, rest) = cut_first(text);
    let Some(verb) = HandleVerb::of(word) else {
        return read_plain(alloc, text);
    };
    let words = cut_words(alloc, rest).ok_or(LineFault::BadLine)?;
    read_words(alloc, verb, words.as_slice())
}

/// Reads a line of a script.
fn read_plain(alloc: Global, text: &[u8]) -> Result<Turn, LineFault>
    ensures { IsTextRead result (plain (line_of text.now)) }
{
    Ok(Turn::Plain(read_line(alloc, text)?))
}

/// Reads a verb of handles and the words after it.
fn read_words(alloc: Global, verb: HandleVerb, words: &[&[u8]]) -> Result<Turn, LineFault>
    ensures { IsTextRead result (turn_of_words verb (texts words.now)) }
{
    match verb {
        HandleVerb::Open => read_open(alloc, words),
        HandleVerb::Read => read_read(words),
        HandleVerb::Write => read_write(alloc, words),
        HandleVerb::Stat => {
            let handle = only_number(words).ok_or(LineFault::BadLine)?;
            Ok(Turn::Stat { handle })
        }
        HandleVerb::Close => {
            let handle = only_number(words).ok_or(LineFault::BadLine)?;
            Ok(Turn::Close { handle })
        }
    }
}

/// Reads the one number that follows a verb.
fn only_number(words: &[&[u8]]) -> Option<u32>
    ensures { result ≡ only_number (texts words.now) }
{
    match words {
        [number] => read_number(number),
        _ => None,
    }
}

/// Reads what follows `open`.
fn read_open(alloc: Global, words: &[&[u8]]) -> Result<Turn, LineFault>
    ensures { IsTextRead result (turn_of_open (texts words.now)) }
{
    match words {
        [path] => {
            let path = read_path(alloc, path)?;
            Ok(Turn::Open { path })
        }
        _ => Err(LineFault::BadLine),
    }
}

/// Reads what follows `hread`.
fn read_read(words: &[&[u8]]) -> Result<Turn, LineFault>
    ensures { IsTextRead result (turn_of_read (texts words.now)) }
{
    let [handle, off, len] = words else {
        return Err(LineFault::BadLine);
    };
    let handle = read_number(handle).ok_or(LineFault::BadLine)?;
    let off = read_number(off).ok_or(LineFault::BadLine)?;
    let len = read_number(len).ok_or(LineFault::BadLine)?;
    if len > MAX_READ {
        return Err(LineFault::BadLine);
    }
    Ok(Turn::Read { handle, off, len })
}

/// Reads what follows `hwrite`.
fn read_write(alloc: Global, words: &[&[u8]]) -> Result<Turn, LineFault>
    ensures { IsTextRead result (turn_of_write (texts words.now)) }
{
    let [handle, off, hex] = words else {
        return Err(LineFault::BadLine);
    };
    let handle = read_number(handle).ok_or(LineFault::BadLine)?;
    let off = read_number(off).ok_or(LineFault::BadLine)?;
    let mut room = [0; MAX_WRITE];
    let len = read_hex(hex, &mut room).ok_or(LineFault::BadLine)?;
    let bytes = Bytes::from_slice(alloc, &room[..len])?;
    Ok(Turn::Write { handle, off, bytes })
}
