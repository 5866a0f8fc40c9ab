//! The count of a fill's lines and replies, and the line that tells it.

ghost use Rattle.std.specs.Prelude.{◌≡◌, ◌+◌, ◌≤◌, ◌++◌, decimal, length, take};
ghost use Rattle.bd_fill.specs.Counting.{begun, counted, gone_on, no_lines, tally_byte, tally_line};

use itoa::Buffer;

/// The bytes of a buffer for the line of a count, which has room for each.
pub const SUMMARY_SIZE: usize = 128;

/// How many lines were written, and how many of them began with `o`, `n` and `f`, each up to a u64's
/// last value.
#[derive(Clone, Copy, Debug, PartialEq, Eq)]
pub struct Tally {
    /// All lines, also one that is unended.
    pub lines: u64,
    /// Those that say `ok`.
    pub accepted: u64,
    /// Those that say `no`.
    pub refused: u64,
    /// Those that say `full`.
    pub full: u64,
    /// Whether the last line has no newline yet.
    pub unended: bool,
}

impl Tally {
    /// No line.
    pub fn new() -> Tally
        ensures { result ≡ no_lines }
    {
        Tally {
            lines: 0,
            accepted: 0,
            refused: 0,
            full: 0,
            unended: false,
        }
    }

    /// With one byte more.
    pub fn after(self, byte: u8) -> Tally
        ensures { result ≡ tally_byte self byte }
    {
        if self.unended {
            self.go_on(byte)
        } else {
            self.begin(byte)
        }
    }

    // A line begins with this byte.
    fn begin(self, byte: u8) -> Tally
        ensures { result ≡ begun self byte }
    {
        Tally {
            lines: self.lines.saturating_add(1),
            accepted: count_where(byte == b'o', self.accepted),
            refused: count_where(byte == b'n', self.refused),
            full: count_where(byte == b'f', self.full),
            unended: byte != b'\n',
        }
    }

    // A line goes on with this byte.
    fn go_on(self, byte: u8) -> Tally
        ensures { result ≡ gone_on self byte }
    {
        Tally {
            unended: byte != b'\n',
            ..self
        }
    }

    /// Writes the line that tells it, with its newline, at the front of `into`, and returns how many
    /// bytes it has.
    pub fn write_line(self, into: &mut [u8; SUMMARY_SIZE]) -> usize
        ensures text { take result into.new ≡ tally_line self }
        ensures bound { result ≤ SUMMARY_SIZE }
    {
        let end = put(into, 0, b"fill ");
        let end = put_number(into, end, self.lines);
        let end = put(into, end, b" ok ");
        let end = put_number(into, end, self.accepted);
        let end = put(into, end, b" no ");
        let end = put_number(into, end, self.refused);
        let end = put(into, end, b" full ");
        let end = put_number(into, end, self.full);
        put(into, end, b"\n")
    }
}

// One more where it is so.
fn count_where(so: bool, count: u64) -> u64
    ensures { result ≡ counted so count }
{
    if so { count.saturating_add(1) } else { count }
}

// Writes a number at a place, and returns the place after it.
fn put_number(into: &mut [u8; SUMMARY_SIZE], at: usize, number: u64) -> usize
    requires room { at + 20 ≤ SUMMARY_SIZE }
    ensures text { take result into.new ≡ take at into.old ++ decimal number }
    ensures end { result ≡ at + length (decimal number) }
    ensures bound { result ≤ at + 20 }
{
    let mut buffer = Buffer::new();
    put(into, at, buffer.format(number).as_bytes())
}

// Writes bytes at a place, and returns the place after them.
fn put(into: &mut [u8; SUMMARY_SIZE], at: usize, bytes: &[u8]) -> usize
    requires room { at + length bytes.now ≤ SUMMARY_SIZE }
    ensures text { take result into.new ≡ take at into.old ++ bytes.now }
    ensures end { result ≡ at + length bytes.now }
{
    let end = at + bytes.len();
    into[at..end].copy_from_slice(bytes);
    end
}
