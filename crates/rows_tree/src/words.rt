//! The words of a line, and the bytes and numbers that they stand for.

use crate::stop::Stop;
use std::alloc::{AllocError, Global};

/// How many words a line has at most, the first one its name.
pub const WORDS: usize = 6;

/// The words of a line. One that isn't there is empty.
pub fn words_of(line: &str) -> [&str; WORDS] {
    let mut words = [""; WORDS];
    let mut count = 0;
    for text in line.split(' ') {
        if count < WORDS {
            words[count] = text;
            count += 1;
        }
    }
    words
}

/// The number that a word stands for.
pub fn number(word: &str) -> Result<u64, Stop> {
    match word.parse() {
        Ok(number) => Ok(number),
        Err(_) => Err(Stop::NoLine),
    }
}

/// The bytes that a word stands for: those of its parts, between which there is `+`, and none for
/// `-`.
pub fn bytes(alloc: Global, word: &str) -> Result<Vec<u8>, Stop> {
    let mut all = Vec::new(alloc);
    if word != "-" {
        for part in word.split('+') {
            push_part(&mut all, part)?;
        }
    }
    Ok(all)
}

/// Adds the bytes of a part: a text, or `%` and digits, and behind `*` how often.
fn push_part(all: &mut Vec<u8>, part: &str) -> Result<(), Stop> {
    let (text, times) = match part.split_once("*") {
        Some((text, times)) => (text, number(times)?),
        None => (part, 1),
    };
    match text.strip_prefix("%") {
        Some(digits) => push_digits(all, digits, times),
        None => Ok(push_times(all, text.as_bytes(), times)?),
    }
}

/// Adds bytes so many times.
fn push_times(all: &mut Vec<u8>, bytes: &[u8], times: u64) -> Result<(), AllocError> {
    for _ in 0..times {
        all.extend_from_slice(bytes)?;
    }
    Ok(())
}

/// Adds the at most eight bytes of hexadecimal digits so many times.
fn push_digits(all: &mut Vec<u8>, digits: &str, times: u64) -> Result<(), Stop> {
    let mut into = [0; 8];
    let count = digits.len() / 2;
    if count > into.len() {
        return Err(Stop::NoLine);
    }
    match hex::decode_to_slice(digits, &mut into[..count]) {
        Ok(()) => Ok(push_times(all, &into[..count], times)?),
        Err(_) => Err(Stop::NoLine),
    }
}

/// A line in which `{d}` stands for the three digits of a number, `{h}` for the four of its last
/// two bytes, and `{b}` for the two of what it leaves by 251.
pub fn expanded(alloc: Global, line: &str, number: u64) -> Result<String, AllocError> {
    let mut text = String::new(alloc);
    let mut parts = line.split("{");
    text.push_str(parts.next().unwrap_or(""))?;
    for part in parts {
        push_expanded(&mut text, part, number)?;
    }
    Ok(text)
}

/// Adds what stands for a letter before a brace, and what is behind it.
fn push_expanded(text: &mut String, part: &str, number: u64) -> Result<(), AllocError> {
    let (letter, rest) = part.split_once("}").unwrap_or(("", part));
    match letter {
        "d" => write!(text, "{:03}", number)?,
        "h" => write!(text, "{:04x}", number % 65_536)?,
        _ => write!(text, "{:02x}", number % 251)?,
    }
    text.push_str(rest)
}
