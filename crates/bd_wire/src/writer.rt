//! Big-endian numbers and bytes written into an array.

ghost use Rattle.std.specs.Prelude.{◌≡◌, ◌≤◌, ◌<◌, ◌+◌, ◌^◌, [], ◌∷◌, ◌++◌, length, drop};
ghost use Rattle.std.specs.Int.{w16, w32, w64};
ghost use Rattle.bd_wire.specs.Numbers.{be};
ghost use Rattle.bd_wire.specs.Text.{text16, zeros};

use byteorder::{BigEndian, ByteOrder};

/// Writes numbers and bytes one after the other into an array that the caller owns. What the writer
/// leaves in it is what was written, and after that what stood there before.
#[derive(Drop)]
pub struct Out<'a> {
    bytes: &'a mut [u8],
    at: usize,
    ghost within: { at ≤ length bytes.now },
}

impl<'a> Out<'a> {
    ghost use Rattle.bd_wire.specs.Writing.{written, room, array_of, Puts};

    /// Writes from the front of an array on.
    pub fn new(into: &'a mut [u8]) -> Out<'a>
        ensures written { written result ≡ [] }
        ensures room { room result ≡ into.old }
        ensures array { array_of result ≡ into.entry.ghost_name }
    {
        Out { bytes: into, at: 0 }
    }

    /// How many more bytes there is room for.
    pub fn left(&self) -> usize
        ensures { result ≡ length (room self.now) }
    {
        self.bytes.len() - self.at
    }

    /// Writes a byte.
    pub fn put_u8(&mut self, n: u8)
        requires { 1 ≤ length (room self.old) }
        ensures puts { Puts self.old self.new (n ∷ []) }
        ensures left { length (room self.new) + 1 ≡ length (room self.old) }
    {
        self.bytes[self.at] = n;
        self.at += 1;
    }

    /// Writes a number of two bytes.
    pub fn put_u16(&mut self, n: u16)
        requires { 2 ≤ length (room self.old) }
        ensures puts { Puts self.old self.new (be w16 n) }
        ensures left { length (room self.new) + 2 ≡ length (room self.old) }
    {
        BigEndian::write_u16(&mut self.bytes[self.at..], n);
        self.at += 2;
    }

    /// Writes a number of four bytes.
    pub fn put_u32(&mut self, n: u32)
        requires { 4 ≤ length (room self.old) }
        ensures puts { Puts self.old self.new (be w32 n) }
        ensures left { length (room self.new) + 4 ≡ length (room self.old) }
    {
        BigEndian::write_u32(&mut self.bytes[self.at..], n);
        self.at += 4;
    }

    /// Writes a number of eight bytes.
    pub fn put_u64(&mut self, n: u64)
        requires { 8 ≤ length (room self.old) }
        ensures puts { Puts self.old self.new (be w64 n) }
        ensures left { length (room self.new) + 8 ≡ length (room self.old) }
    {
        BigEndian::write_u64(&mut self.bytes[self.at..], n);
        self.at += 8;
    }

    /// Writes bytes as they are.
    pub fn put_bytes(&mut self, bytes: &[u8])
        requires { length bytes.now ≤ length (room self.old) }
        ensures puts { Puts self.old self.new bytes.now }
        ensures left { length (room self.new) + length bytes.now ≡ length (room self.old) }
    {
        put_first(&mut self.bytes[self.at..], bytes);
        self.at += bytes.len();
    }

    /// Writes a length of two bytes and that many bytes.
    #[tactic(auto, unfolding(crate::specs::Text::text16, crate::specs::Numbers::be))]
    pub fn put_text16(&mut self, bytes: &[u8])
        requires length { length bytes.now < 2 ^ 16 }
        requires room { 2 + length bytes.now ≤ length (room self.old) }
        ensures puts { Puts self.old self.new (text16 bytes.now) }
        ensures left { length (room self.new) + (2 + length bytes.now) ≡ length (room self.old) }
    {
        self.put_u16(bytes.len() as u16);
        self.put_bytes(bytes);
    }

    /// Writes zeros to the end of the array.
    pub fn put_zeros(&mut self)
        ensures { Puts self.old self.new (zeros (length (room self.old))) }
    {
        self.bytes[self.at..].fill(0);
        self.at = self.bytes.len();
    }
}

// Puts bytes over the first ones of an array.
fn put_first(into: &mut [u8], bytes: &[u8])
    requires { length bytes.now ≤ length into.old }
    ensures { into.new ≡ bytes.now ++ drop (length bytes.now) into.old }
{
    into[..bytes.len()].copy_from_slice(bytes);
}
