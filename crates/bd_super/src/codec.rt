//! The body of a superblock.

ghost use Rattle.std.specs.Prelude.{◌≡◌, ◌≢◌, ◌<◌, ◌≤◌, ◌*◌, ℕ, List, ◌++◌, ◌↔◌, length, All, IsTrue, IfOk, OnErr, IfSome, IfNone};
ghost use Rattle.std.specs.Int.{w32};
ghost use Rattle.std.specs.List.{flat_map};
ghost use Rattle.bd_limits.specs.Limits.{block_size};
ghost use Rattle.bd_wire.specs.Numbers.{be, FitsWidth};
ghost use Rattle.bd_wire.specs.Reading.{Reads};
ghost use Rattle.bd_wire.specs.Writing.{Puts, room};
ghost use Rattle.bd_super.specs.Superblocks.{IsSuper, IsSuperIn, FitsSuperHead, super_magic, super_head, super_body, super_head_size, slot_number_size};
ghost use Rattle.bd_super.specs.declared.superblock.Version.{Version as AnyVersion};

use crate::{Half, Super, Version};
use bd_device::BLOCK_SIZE;
use bd_keys::Items;
use bd_wire::{Cursor, Out, Short};
use std::alloc::{AllocError, Global};

// The first bytes of a body.
const SUPER_MAGIC: [u8; 8] = *b"BDSUPER1";

// The fields of fixed width.
#[derive(Clone, Copy)]
struct SuperHead {
    version: Version,
    slots: u32,
    epoch: u64,
    count: u64,
    table: u32,
}

impl Super {
    // Its body.
    #[tactic(auto, using(crate::proofs::Bodies::filled))]
    pub(crate) fn body(&self) -> [u8; BLOCK_SIZE]
        requires { IsSuper self.now }
        ensures { result ≡ super_body self.now }
    {
        let mut block = [0; BLOCK_SIZE];
        let mut out = Out::new(&mut block);
        self.put(&mut out);
        block
    }

    // Writes its body into a block.
    fn put(&self, out: &mut Out)
        requires super_is { IsSuper self.now }
        requires room { length (room out.old) ≡ block_size }
        ensures { Puts out.old out.new (super_body self.now) }
    {
        out.put_bytes(&SUPER_MAGIC);
        out.put_u32(self.version.number());
        out.put_u32(self.slots);
        out.put_u64(self.epoch);
        out.put_u64(self.count);
        out.put_u32(self.table.as_slice().len() as u32);
        put_numbers(out, self.table.as_slice());
        out.put_zeros();
    }

    // The superblock of a half that this block is the body of. It is `None` exactly where it is of
    // none.
    pub(crate) fn read(
        alloc: Global,
        half: Half,
        block: &[u8; BLOCK_SIZE],
    ) -> Result<Option<Super>, AllocError>
        ensures { IfOk result (λ found. IsSuperIn half block.now found) }
    {
        let mut cursor = Cursor::new(block);
        let head = match read_head(&mut cursor) {
            Ok(Some(head)) => head,
            Ok(None) => return Ok(None),
            Err(_) => return Ok(None),
        };
        let Some(table) = read_numbers(alloc, &mut cursor, head.table)? else {
            return Ok(None);
        };
        let found = Super {
            half,
            version: head.version,
            slots: head.slots,
            epoch: head.epoch,
            count: head.count,
            table: Items::from_vec(table),
        };
        if cursor.rest_is_zero() && found.is_super() {
            Ok(Some(found))
        } else {
            Ok(None)
        }
    }
}

// Writes numbers of four bytes.
#[tactic(auto, using(bd_wire::proofs::WritingLemmas::writing))]
fn put_numbers(out: &mut Out, numbers: &[u32])
    requires { length (flat_map (be w32) numbers.now) ≤ length (room out.old) }
    ensures { Puts out.old out.new (flat_map (be w32) numbers.now) }
{
    for number in numbers {
        out.put_u32(*number);
    }
}

// Reads the fields of fixed width. It is `None` exactly where the first bytes or the version are
// others.
#[tactic(auto, using(bd_wire::proofs::WritingLemmas::writing))]
fn read_head(cursor: &mut Cursor) -> Result<Option<SuperHead>, Short>
    ensures found { IfOk result (λ found. IfSome found (λ head. Reads cursor.old cursor.new
        (super_head head.version head.slots head.epoch head.count head.table))) }
    ensures fits { IfOk result (λ found. IfSome found
        (λ head. FitsSuperHead head.slots head.epoch head.count head.table)) }
    ensures none { IfOk result (λ found. IfNone found
        ((version : AnyVersion) (s e c t : ℕ) (rest : List ℕ)
        → cursor.old.left ≢ super_head version s e c t ++ rest)) }
    ensures short { OnErr result (length cursor.old.left < super_head_size) }
{
    let magic = cursor.bytes(SUPER_MAGIC.len())?;
    let number = cursor.u32()?;
    let slots = cursor.u32()?;
    let epoch = cursor.u64()?;
    let count = cursor.u64()?;
    let table = cursor.u32()?;
    let Some(version) = Version::of(number) else {
        return Ok(None);
    };
    if !is_magic(magic) {
        return Ok(None);
    }
    Ok(Some(SuperHead {
        version,
        slots,
        epoch,
        count,
        table,
    }))
}

// Whether these are the first bytes of a body.
fn is_magic(bytes: &[u8]) -> bool
    ensures { IsTrue result ↔ (bytes.now ≡ super_magic) }
{
    bytes == SUPER_MAGIC.as_slice()
}

// Reads this many numbers of four bytes. It is `None` exactly where fewer are left.
fn read_numbers(
    alloc: Global,
    cursor: &mut Cursor,
    count: u32,
) -> Result<Option<Vec<u32>>, AllocError>
    ensures read { IfOk result (λ found. IfSome found (λ numbers.
        Reads cursor.old cursor.new (flat_map (be w32) numbers.items))) }
    ensures count { IfOk result (λ found. IfSome found (λ numbers. length numbers.items ≡ count)) }
    ensures fits { IfOk result (λ found. IfSome found
        (λ numbers. All (FitsWidth w32) numbers.items)) }
    ensures short { IfOk result (λ found. IfNone found
        (length cursor.old.left < slot_number_size * count)) }
{
    let mut numbers = Vec::new(alloc);
    for _ in 0..count {
        match cursor.u32() {
            Ok(number) => numbers.push(number)?,
            Err(_) => return Ok(None),
        }
    }
    Ok(Some(numbers))
}
