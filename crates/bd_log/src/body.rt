//! The bytes of a batch's body.

ghost use Rattle.std.specs.Prelude.{◌≡◌, ◌≤◌, ◌<◌, ◌+◌, ◌-◌, ◌*◌, ◌++◌, length, take};
ghost use Rattle.bd_limits.specs.Limits.{block_size, body_block_limit};
ghost use Rattle.bd_wire.specs.Text.{zeros};
ghost use Rattle.bd_log.specs.Batches.{blocks_for, header_bytes, batch_header_size, after_header};

use bd_device::{BLOCK_SIZE, put};
use bd_limits::MAX_BODY_BLOCKS;
use bd_wire::Out;

/// The bytes of a body's header.
pub const HEADER_SIZE: usize = 24;

/// The bytes of the longest body.
pub const MAX_BODY: usize = MAX_BODY_BLOCKS as usize * BLOCK_SIZE;

/// `BDLB` as a number.
pub const BATCH_MAGIC: u32 = 0x4244_4c42;

/// The blocks of a body with so many bytes of records.
pub fn blocks_for(size: usize) -> u64
    requires { size ≤ body_block_limit * block_size }
    ensures { result ≡ blocks_for size }
{
    ((HEADER_SIZE + size + BLOCK_SIZE - 1) / BLOCK_SIZE) as u64
}

/// Writes the header in front of the records, and zeros after them to the end of the last block.
pub fn seal(body: &mut [u8], blocks: u64, epoch: u64, count: u32, size: usize)
    requires total { length body.old ≡ body_block_limit * block_size }
    requires blocks { blocks ≤ body_block_limit }
    requires room { batch_header_size + size ≤ blocks * block_size }
    ensures body { take (blocks * block_size) body.new ≡ header_bytes blocks epoch count size
        ++ after_header size body.old ++ zeros (blocks * block_size - (batch_header_size + size)) }
    ensures kept { after_header size body.new ≡ after_header size body.old }
{
    let header = header(blocks as u32, epoch, count, size as u32);
    put(body, 0, &header);
    body[HEADER_SIZE + size..blocks as usize * BLOCK_SIZE].fill(0);
}

// The header of a body.
#[tactic(auto, using(bd_wire::proofs::WritingLemmas::writing))]
fn header(blocks: u32, epoch: u64, count: u32, size: u32) -> [u8; HEADER_SIZE]
    ensures { result ≡ header_bytes blocks epoch count size }
{
    let mut bytes = [0; HEADER_SIZE];
    let mut out = Out::new(&mut bytes);
    out.put_u32(BATCH_MAGIC);
    out.put_u32(blocks);
    out.put_u64(epoch);
    out.put_u32(count);
    out.put_u32(size);
    bytes
}
