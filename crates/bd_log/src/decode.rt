//! Reading the body of a batch.

ghost use Rattle.std.specs.Prelude.{◌≡◌, ◌≤◌, ◌<◌, ◌+◌, ◌*◌, ◌^◌, ◌↔◌, ◌++◌, ℕ, List, length, IfOk, IfSome, IfNone, IsTrue};
ghost use Rattle.bd_limits.specs.Limits.{block_size, body_block_limit};
ghost use Rattle.bd_wire.specs.Encoding.{BeginsNone};
ghost use Rattle.bd_wire.specs.Reading.{Reads};
ghost use Rattle.bd_wire.specs.Text.{text16, FitsText16};
ghost use Rattle.bd_log.specs.Batches.{IsLogRecord, blocks_for, body_blocks, header_bytes, batch_header_size, batch_magic};
ghost use Rattle.bd_log.specs.Reading.{encode_header, FitsHeader, AreRecordsOf, IsBodyOf};

use crate::body::{BATCH_MAGIC, HEADER_SIZE, MAX_BODY, blocks_for};
use bd_keys::{Bytes, Items};
use bd_wire::{Cursor, all_zero};
use std::alloc::{AllocError, Global};

// The numbers of a body's header.
#[derive(Clone, Copy)]
struct Header {
    magic: u32,
    blocks: u32,
    epoch: u64,
    count: u32,
    size: u32,
}

impl Header {
    // Whether it is the header of a body of this epoch and of so many blocks.
    fn is_of(&self, epoch: u64, blocks: u64) -> bool
        requires { blocks ≤ body_block_limit }
        ensures { IsTrue result ↔ ((self.now.magic ≡ batch_magic) × (self.now.blocks ≡ blocks)
            × (self.now.epoch ≡ epoch) × (1 ≤ self.now.count)
            × (blocks_for self.now.size ≡ blocks)) }
    {
        let size = self.size as usize;
        self.magic == BATCH_MAGIC
            && self.blocks as u64 == blocks
            && self.epoch == epoch
            && self.count >= 1
            && size <= MAX_BODY
            && blocks_for(size) == blocks
    }
}

// The header at the front of bytes, where there are enough.
#[tactic(auto, using(bd_wire::proofs::WritingLemmas::writing))]
fn header_of(bytes: &[u8]) -> Option<Header>
    ensures some { IfSome result (λ header.
        (rest : List ℕ) × (bytes.now ≡ encode_header header ++ rest)) }
    ensures fits { IfSome result FitsHeader }
    ensures none { IfNone result (length bytes.now < batch_header_size) }
{
    let mut cursor = Cursor::new(bytes);
    let Ok(magic) = cursor.u32() else {
        return None;
    };
    let Ok(blocks) = cursor.u32() else {
        return None;
    };
    let Ok(epoch) = cursor.u64() else {
        return None;
    };
    let Ok(count) = cursor.u32() else {
        return None;
    };
    let Ok(size) = cursor.u32() else {
        return None;
    };
    Some(Header {
        magic,
        blocks,
        epoch,
        count,
        size,
    })
}

/// How many blocks the header at the front says that the body has.
pub fn named_blocks(bytes: &[u8]) -> u64
    ensures { (blocks epoch count size : ℕ) (rest : List ℕ)
        → blocks < 2 ^ 32 → epoch < 2 ^ 64 → count < 2 ^ 32 → size < 2 ^ 32
        → bytes.now ≡ header_bytes blocks epoch count size ++ rest → result ≡ blocks }
{
    match header_of(bytes) {
        Some(header) => header.blocks as u64,
        None => 0,
    }
}

/// The records of a body of so many blocks.
pub fn decode(
    alloc: Global,
    bytes: &[u8],
    epoch: u64,
    blocks: u64,
) -> Result<Option<Items<Bytes>>, AllocError>
    requires blocks { blocks ≤ body_block_limit }
    requires length { length bytes.now ≡ blocks * block_size }
    ensures body { IfOk result (λ found. IsBodyOf bytes.now epoch found) }
    ensures blocks { IfOk result (λ found. IfSome found (λ rs. body_blocks rs ≡ blocks)) }
{
    let Some(header) = header_of(bytes) else {
        return Ok(None);
    };
    if !header.is_of(epoch, blocks) {
        return Ok(None);
    }
    let end = HEADER_SIZE + header.size as usize;
    if !all_zero(&bytes[end..]) {
        return Ok(None);
    }
    records_of(alloc, &bytes[HEADER_SIZE..end], header.count)
}

// So many records, which are these bytes.
fn records_of(alloc: Global, bytes: &[u8], count: u32) -> Result<Option<Items<Bytes>>, AllocError>
    ensures { IfOk result (λ found. AreRecordsOf bytes.now count found) }
{
    let mut cursor = Cursor::new(bytes);
    let mut records = Vec::new(alloc);
    for _i in 0..count {
        let Some(record) = next_record(&mut cursor) else {
            return Ok(None);
        };
        records.push(Bytes::from_slice(alloc, record)?)?;
    }
    if cursor.left().is_empty() {
        Ok(Some(Items::from_vec(records)))
    } else {
        Ok(None)
    }
}

// Reads a record, with its length.
#[tactic(auto, using(bd_wire::proofs::WritingLemmas::writing))]
fn next_record<'a>(cursor: &mut Cursor<'a>) -> Option<&'a [u8]>
    ensures record { IfSome result (λ bytes. IsLogRecord bytes.now) }
    ensures read { IfSome result (λ bytes. Reads cursor.old cursor.new bytes.now) }
    ensures none { IfNone result (BeginsNone FitsText16 text16 cursor.old.left) }
{
    let left = cursor.left();
    let Ok(text) = cursor.text16() else {
        return None;
    };
    Some(&left[..2 + text.len()])
}
