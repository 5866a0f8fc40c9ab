//! Numbers, modes and bytes in the words of a line.

ghost use Rattle.std.specs.Prelude.{◌≡◌, ◌≤◌, take, IsTrue, IfSome, MatchOption};
ghost use Rattle.bd_script.specs.Lines.{number_of, is_octal, are_octal, mode_of, hex_of};
ghost use Rattle.bd_limits.specs.Limits.{mode_limit, write_limit};

use bd_limits::MAX_WRITE;

/// The number that a word is: `0`, or digits without a leading zero, up to 4,294,967,295.
pub fn read_number(word: &[u8]) -> Option<u32>
    ensures { result ≡ number_of word.now }
{
    if word.is_empty() || (word.len() > 1 && word[0] == b'0') {
        return None;
    }
    let mut number: u64 = 0;
    for digit in word {
        if !digit.is_ascii_digit() {
            return None;
        }
        number = 10 * number + u64::from(*digit - b'0');
        if number > u32::MAX as u64 {
            return None;
        }
    }
    Some(number as u32)
}

/// The mode that a word is: exactly four octal digits.
pub(crate) fn read_mode(word: &[u8]) -> Option<u16>
    ensures mode { result ≡ mode_of word.now }
    ensures small { IfSome result (λ mode. mode ≤ mode_limit) }
{
    let [a, b, c, d] = word else {
        return None;
    };
    if !are_octal(*a, *b, *c, *d) {
        return None;
    }
    let high = 512 * u16::from(*a - b'0') + 64 * u16::from(*b - b'0');
    Some(high + 8 * u16::from(*c - b'0') + u16::from(*d - b'0'))
}

/// Whether each byte is an octal digit.
fn are_octal(a: u8, b: u8, c: u8, d: u8) -> bool
    ensures octal { result ≡ are_octal a b c d }
    ensures first { IsTrue result → (48 ≤ a) × (a ≤ 55) }
    ensures second { IsTrue result → (48 ≤ b) × (b ≤ 55) }
    ensures third { IsTrue result → (48 ≤ c) × (c ≤ 55) }
    ensures fourth { IsTrue result → (48 ≤ d) × (d ≤ 55) }
{
    is_octal(a) && is_octal(b) && is_octal(c) && is_octal(d)
}

/// Whether a byte is an octal digit.
fn is_octal(digit: u8) -> bool
    ensures octal { result ≡ is_octal digit }
    ensures range { IsTrue result → (48 ≤ digit) × (digit ≤ 55) }
{
    digit >= b'0' && digit <= b'7'
}

/// Writes the bytes that a word encodes in hex digits at the front of `into`, and returns how many
/// they are, 1 to 2,048.
pub fn read_hex(word: &[u8], into: &mut [u8; MAX_WRITE]) -> Option<usize>
    ensures { MatchOption result (hex_of word.now ≡ None)
        (λ len. (len ≤ write_limit) × (hex_of word.now ≡ Some (take len into.new))) }
{
    let len = word.len() / 2;
    if len == 0 || len > MAX_WRITE {
        return None;
    }
    hex::decode_to_slice(word, &mut into[..len]).ok()?;
    Some(len)
}
