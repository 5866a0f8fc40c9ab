//! Lines that change what there is: `put KEY VALUE`, `del KEY`, `patch KEY VALUE` (from offset 3
//! on), `cut PREFIX FROM`, `clone FROM TO`, `move FROM TO`, `lone FROM TO` (a clone in the tree
//! alone), `worn FROM TO` (no clone, since the level is worn), `flush LIMIT`, `limit LIMIT` (a
//! flush after each call from then on), `reclaim` (no push is asked for), and `pushes COUNT` (with
//! pushes, of which there are at least so many).

use crate::machine::{Machine, graft, reclaim};
use crate::stop::{Stop, ensure, within};
use crate::words::{WORDS, bytes, number};
use bd_keys::Bytes;
use bd_message::{Counter, MapFault, Message};
use std::alloc::Global;

/// Runs a line, if it is one of these.
pub fn run(machine: &mut Machine, words: &[&str; WORDS]) -> Result<bool, Stop> {
    match words[0] {
        "put" | "del" | "patch" | "cut" => change(machine, words)?,
        "clone" => send(machine, words, true)?,
        "move" => send(machine, words, false)?,
        "worn" => worn(machine, words)?,
        "lone" => lone(machine, words)?,
        "flush" => machine.flush(number(words[1])? as usize)?,
        "limit" => machine.limit = Some(number(words[1])? as usize),
        "reclaim" => ensure(reclaim(machine.alloc, &mut machine.tree, false)? == 0)?,
        "pushes" => {
            let least = number(words[1])?;
            within(
                reclaim(machine.alloc, &mut machine.tree, true)?,
                least,
                u64::MAX,
            )?;
        }
        _ => return Ok(false),
    }
    Ok(true)
}

/// The message of a line.
fn message(alloc: Global, words: &[&str; WORDS]) -> Result<Message, Stop> {
    let first = Bytes::from_vec(bytes(alloc, words[1])?);
    let second = Bytes::from_vec(bytes(alloc, words[2])?);
    Ok(match words[0] {
        "put" => Message::Put {
            key: first,
            value: second,
        },
        "del" => Message::Del { key: first },
        "patch" => Message::Patch {
            key: first,
            off: 3,
            bytes: second,
        },
        _ => Message::Cut {
            prefix: first,
            from: second,
        },
    })
}

/// Applies the message of a line.
fn change(machine: &mut Machine, words: &[&str; WORDS]) -> Result<(), Stop> {
    match message(machine.alloc, words) {
        Ok(message) => machine.apply(&[message]),
        Err(stop) => Err(stop),
    }
}

/// Clones or moves.
fn send(machine: &mut Machine, words: &[&str; WORDS], keep: bool) -> Result<(), Stop> {
    let s = bytes(machine.alloc, words[1])?;
    let d = bytes(machine.alloc, words[2])?;
    machine.graft(&s, &d, keep)
}

/// Clones in the tree alone.
fn lone(machine: &mut Machine, words: &[&str; WORDS]) -> Result<(), Stop> {
    let s = bytes(machine.alloc, words[1])?;
    let d = bytes(machine.alloc, words[2])?;
    graft(&mut machine.tree, &s, &d, true)
}

/// The level is worn for a clone.
fn worn(machine: &mut Machine, words: &[&str; WORDS]) -> Result<(), Stop> {
    match lone(machine, words) {
        Err(Stop::Map(MapFault::Worn(Counter::Level))) => Ok(()),
        _ => Err(Stop::Differs),
    }
}
