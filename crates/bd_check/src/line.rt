//! The line that tells a verdict.

ghost use Rattle.std.specs.Prelude.{◌≡◌, ◌+◌, ◌≤◌, ◌++◌, decimal, length, take};
ghost use Rattle.bd_check.specs.Lines.{verdict_line};

use crate::verdict::Verdict;
use itoa::Buffer;

/// The bytes of a buffer for the line of a verdict, which has room for each.
pub const VERDICT_SIZE: usize = 96;

impl Verdict {
    /// Writes the line that tells it, with its newline, at the front of `into`, and returns how
    /// many bytes it has.
    pub fn write_line(self, into: &mut [u8; VERDICT_SIZE]) -> usize
        ensures text { take result into.new ≡ verdict_line self }
        ensures bound { result ≤ VERDICT_SIZE }
    {
        match self {
            Verdict::Yes { nodes, keys, count } => write_yes(into, nodes, keys, count),
            Verdict::BadBlock { block } => {
                let end = put(into, 0, b"no check block ");
                let end = put_number(into, end, block);
                put(into, end, b"\n")
            }
            Verdict::BadNode { id } => {
                let end = put(into, 0, b"no check node ");
                let end = put_number(into, end, id);
                put(into, end, b"\n")
            }
            Verdict::Limit => put(into, 0, b"no check limit 16777216\n"),
        }
    }
}

// Writes the line of a yes.
fn write_yes(into: &mut [u8; VERDICT_SIZE], nodes: u64, keys: u64, count: u64) -> usize
    ensures text { take result into.new ≡ verdict_line (Verdict.Yes nodes keys count) }
    ensures bound { result ≤ VERDICT_SIZE }
{
    let end = put(into, 0, b"ok check nodes ");
    let end = put_number(into, end, nodes);
    let end = put(into, end, b" keys ");
    let end = put_number(into, end, keys);
    let end = put(into, end, b" count ");
    let end = put_number(into, end, count);
    put(into, end, b"\n")
}

// Writes a number at a place, and returns the place after it.
fn put_number(into: &mut [u8; VERDICT_SIZE], at: usize, number: u64) -> usize
    requires room { at + 20 ≤ VERDICT_SIZE }
    ensures text { take result into.new ≡ take at into.old ++ decimal number }
    ensures end { result ≡ at + length (decimal number) }
    ensures bound { result ≤ at + 20 }
{
    let mut buffer = Buffer::new();
    put(into, at, buffer.format(number).as_bytes())
}

// Writes bytes at a place, and returns the place after them.
fn put(into: &mut [u8; VERDICT_SIZE], at: usize, bytes: &[u8]) -> usize
    requires room { at + length bytes.now ≤ VERDICT_SIZE }
    ensures text { take result into.new ≡ take at into.old ++ bytes.now }
    ensures end { result ≡ at + length bytes.now }
{
    let end = at + bytes.len();
    into[at..end].copy_from_slice(bytes);
    end
}
