//! Big-endian numbers and bytes read off the front of a slice.

ghost use Rattle.std.specs.Prelude.{◌≡◌, ◌<◌, ◌+◌, ◌↔◌, [], ◌∷◌, length, ◌++◌, ℕ, List, IfOk, IfErr, OnErr, IfSome, IfNone, IsTrue};
ghost use Rattle.std.specs.Int.{w16, w32, w64};
ghost use Rattle.bd_wire.specs.Numbers.{be};
ghost use Rattle.bd_wire.specs.Reading.{Reads};
ghost use Rattle.bd_wire.specs.Encoding.{BeginsNone};
ghost use Rattle.bd_wire.specs.Text.{text16, AreZeros, FitsText16};

use byteorder::{BigEndian, ByteOrder};
use std::marker::Model;

/// Fewer bytes are left than were to be read.
#[derive(Clone, Copy, Debug, PartialEq, Eq)]
pub struct Short {
    /// The place of the first byte that was to be read, counted from where the cursor began.
    pub at: usize,
}

/// Reads numbers and bytes one after the other. A read that is refused leaves it where it was.
#[derive(Debug, Drop)]
pub struct Cursor<'a> {
    bytes: &'a [u8],
    place: usize,
}

impl<'a> Model for Cursor<'a> {
    ghost use Rattle.std.specs.Prelude.{◌≤◌, length, drop};
    ghost use Rattle.bd_wire.specs.Numbers.{be};
    ghost use Rattle.bd_wire.specs.Reading.{Unread};

    ghost Value = { Unread };

    ghost view = { λ c. record { place = c.place; left = drop c.place c.bytes.now } };

    ghost invariant = { λ c. c.place ≤ length c.bytes.now };
}

impl<'a> Cursor<'a> {
    /// Reads from the front of a slice on.
    pub fn new(bytes: &'a [u8]) -> Cursor<'a>
        ensures place { result.place ≡ 0 }
        ensures left { result.left ≡ bytes.now }
    {
        Cursor { bytes, place: 0 }
    }

    /// A second cursor at the same place, to read ahead with.
    pub fn ahead(&self) -> Cursor<'a>
        ensures { result ≡ self.now }
    {
        Cursor {
            bytes: self.bytes,
            place: self.place,
        }
    }

    /// The bytes that are left.
    pub fn left(&self) -> &'a [u8]
        ensures { result.now ≡ self.now.left }
    {
        &self.bytes[self.place..]
    }

    /// Whether all that is left is zeros.
    pub fn rest_is_zero(&self) -> bool
        ensures { IsTrue result ↔ AreZeros self.now.left }
    {
        all_zero(self.left())
    }

    /// Reads a number of bytes as they are.
    pub fn bytes(&mut self, count: usize) -> Result<&'a [u8], Short>
        ensures read { IfOk result (λ bytes. Reads self.old self.new bytes.now) }
        ensures count { IfOk result (λ bytes. length bytes.now ≡ count) }
        ensures short { IfErr result (λ short. length self.old.left < count) }
        ensures at { IfErr result (λ short. short.at ≡ self.old.place) }
        ensures unmoved { OnErr result (self.new ≡ self.old) }
    {
        let left = self.left();
        if left.len() < count {
            return Err(Short { at: self.place });
        }
        self.place += count;
        Ok(&left[..count])
    }

    /// Reads a byte.
    pub fn u8(&mut self) -> Result<u8, Short>
        ensures read { IfOk result (λ n. Reads self.old self.new (n ∷ [])) }
        ensures short { OnErr result (self.old.left ≡ []) }
        ensures at { IfErr result (λ short. short.at ≡ self.old.place) }
        ensures unmoved { OnErr result (self.new ≡ self.old) }
    {
        let bytes = self.bytes(1)?;
        Ok(bytes[0])
    }

    /// Reads a number of two bytes.
    pub fn u16(&mut self) -> Result<u16, Short>
        ensures read { IfOk result (λ n. Reads self.old self.new (be w16 n)) }
        ensures short { OnErr result (length self.old.left < 2) }
        ensures at { IfErr result (λ short. short.at ≡ self.old.place) }
        ensures unmoved { OnErr result (self.new ≡ self.old) }
    {
        Ok(number16(self.bytes(2)?))
    }

    /// Reads a number of four bytes.
    pub fn u32(&mut self) -> Result<u32, Short>
        ensures read { IfOk result (λ n. Reads self.old self.new (be w32 n)) }
        ensures short { OnErr result (length self.old.left < 4) }
        ensures at { IfErr result (λ short. short.at ≡ self.old.place) }
        ensures unmoved { OnErr result (self.new ≡ self.old) }
    {
        Ok(number32(self.bytes(4)?))
    }

    /// Reads a number of eight bytes.
    pub fn u64(&mut self) -> Result<u64, Short>
        ensures read { IfOk result (λ n. Reads self.old self.new (be w64 n)) }
        ensures short { OnErr result (length self.old.left < 8) }
        ensures at { IfErr result (λ short. short.at ≡ self.old.place) }
        ensures unmoved { OnErr result (self.new ≡ self.old) }
    {
        Ok(number64(self.bytes(8)?))
    }

    /// Reads a length of two bytes and that many bytes.
    #[tactic(auto, unfolding(crate::specs::Text::text16, crate::specs::Numbers::be))]
    pub fn text16(&mut self) -> Result<&'a [u8], Short>
        ensures read { IfOk result (λ bytes. Reads self.old self.new (text16 bytes.now)) }
        ensures fits { IfOk result (λ bytes. FitsText16 bytes.now) }
        ensures short { OnErr result (BeginsNone FitsText16 text16 self.old.left) }
        ensures at { IfErr result (λ short. short.at ≡ self.old.place) }
        ensures unmoved { OnErr result (self.new ≡ self.old) }
    {
        match first_text16(self.left()) {
            Some(bytes) => {
                self.place += 2 + bytes.len();
                Ok(bytes)
            }
            None => Err(Short { at: self.place }),
        }
    }
}

// The number that two bytes encode.
fn number16(bytes: &[u8]) -> u16
    requires { length bytes.now ≡ 2 }
    ensures { be w16 result ≡ bytes.now }
{
    BigEndian::read_u16(bytes)
}

// The number that four bytes encode.
fn number32(bytes: &[u8]) -> u32
    requires { length bytes.now ≡ 4 }
    ensures { be w32 result ≡ bytes.now }
{
    BigEndian::read_u32(bytes)
}

// The number that eight bytes encode.
fn number64(bytes: &[u8]) -> u64
    requires { length bytes.now ≡ 8 }
    ensures { be w64 result ≡ bytes.now }
{
    BigEndian::read_u64(bytes)
}

// The text16 at the front.
#[tactic(auto, unfolding(crate::specs::Text::text16, crate::specs::Numbers::be))]
fn first_text16<'a>(left: &'a [u8]) -> Option<&'a [u8]>
    ensures found { IfSome result (λ bytes.
        (rest : List ℕ) × (left.now ≡ text16 bytes.now ++ rest)) }
    ensures fits { IfSome result (λ bytes. FitsText16 bytes.now) }
    ensures none { IfNone result (BeginsNone FitsText16 text16 left.now) }
{
    let mut ahead = Cursor::new(left);
    let count = ahead.u16().ok()?;
    ahead.bytes(count as usize).ok()
}

/// Whether each byte is 0. It looks at all of them even where one is none, so that it can look at
/// many at once: most blocks that it is asked of are all zeros.
pub fn all_zero(bytes: &[u8]) -> bool
    ensures { IsTrue result ↔ AreZeros bytes.now }
{
    let mut zeros = true;
    for byte in bytes {
        zeros = zeros & (*byte == 0);
    }
    zeros
}
