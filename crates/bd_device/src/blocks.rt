//! Blocks that are read, written and settled, and commit blocks.

ghost use Rattle.std.specs.Prelude.{◌≡◌, ◌↔◌, ◌≤◌, ◌<◌, ◌+◌, ◌*◌, ◌^◌, ◌++◌, Some, IsTrue, IfOk, IfSome, OnOk, OnErr, length, take, drop, slice_get};
ghost use Rattle.bd_limits.specs.Limits.{block_size};
ghost use Rattle.bd_device.specs.Blocks.{HasBlocks, with_block, ChangesOnly};
ghost use Rattle.bd_device.specs.Calls.{faults_after};
ghost use Rattle.bd_device.specs.Changes.{StaysBut, IsBeforeBut, IsInRange, bytes_at};
ghost use Rattle.bd_device.specs.Commits.{IsCommit};
ghost use Rattle.bd_device.specs.Device.{left_now, Goes, Stays, OnlyReads, FailsLast};
ghost use Rattle.bd_device.specs.Moments.{TornAt, IsOnly};

use crate::{BLOCK_SIZE, Device};
use bd_io::Failed;

// The first byte of a commit block that is committed.
const COMMITTED: u8 = 1;

/// Reads a block.
#[tactic(auto, using(crate::proofs::Calls::calls))]
pub fn read_block<D: Device>(dev: &mut D, b: u64) -> Result<[u8; BLOCK_SIZE], Failed>
    requires { b < D.block_count dev.old }
    ensures bytes { IfOk result (λ block. IfSome (D.contents dev.old)
        (λ image. slice_get image b ≡ Some block)) }
    ensures size { IfOk result (λ block. length block ≡ block_size) }
    ensures reads { OnlyReads D.Device dev.old dev.new }
    ensures cause { FailsLast D.Device dev.old dev.new result }
{
    let mut block = [0; BLOCK_SIZE];
    dev.read(b, &mut block)?;
    Ok(block)
}

/// Reads so many blocks, from block `first` on, into the front of `into`.
#[tactic(auto, using(crate::proofs::Calls::calls))]
pub fn read_blocks<D: Device>(
    dev: &mut D,
    first: u64,
    into: &mut [u8],
    count: usize,
) -> Result<(), Failed>
    requires room { first + count ≤ D.block_count dev.old }
    requires fits { first + count < 2 ^ 64 }
    requires length { count * block_size ≤ length into.old }
    ensures bytes { OnOk result (IfSome (D.contents dev.old) (λ image.
        take (count * block_size) into.new ≡ bytes_at image first count)) }
    ensures reads { OnlyReads D.Device dev.old dev.new }
    ensures cause { FailsLast D.Device dev.old dev.new result }
{
    dev.read_run(first, into, count)
}

/// Puts bytes over those from a place on.
pub fn put(into: &mut [u8], at: usize, bytes: &[u8])
    requires { at + length bytes.now ≤ length into.old }
    ensures { into.new ≡ take at into.old ++ bytes.now ++ drop (at + length bytes.now) into.old }
{
    into[at..at + bytes.len()].copy_from_slice(bytes);
}

/// The block of these bytes at this index.
pub(crate) fn nth_block(bytes: &[u8], i: usize) -> [u8; BLOCK_SIZE]
    requires { i * block_size + block_size ≤ length bytes.now }
    ensures { result ≡ take block_size (drop (i * block_size) bytes.now) }
{
    let mut block = [0; BLOCK_SIZE];
    block.copy_from_slice(&bytes[i * BLOCK_SIZE..i * BLOCK_SIZE + BLOCK_SIZE]);
    block
}

/// Writes so many blocks, from block `first` on, of the front of `bytes`, without a barrier: until
/// one succeeds a crash may leave any bytes there.
#[tactic(auto, using(crate::proofs::Calls::calls))]
pub fn write_blocks<D: Device>(
    dev: &mut D,
    first: u64,
    bytes: &[u8],
    count: usize,
) -> Result<(), Failed>
    requires room { first + count ≤ D.block_count dev.old }
    requires bytes { count * block_size ≤ length bytes.now }
    requires fits { first + count < 2 ^ 64 }
    ensures written { OnOk result (IfSome (D.contents dev.new) (λ image.
        bytes_at image first count ≡ take (count * block_size) bytes.now)) }
    ensures others { StaysBut (IsInRange first (first + count))
        (D.contents dev.old) (D.contents dev.new) }
    ensures time { Goes D.Device dev.old dev.new
        (IsBeforeBut (IsInRange first (first + count)) (left_now D.Device dev.old)) }
    ensures stays { Stays D.Device dev.old dev.new }
    ensures cause { FailsLast D.Device dev.old dev.new result }
    ensures write_faults { D.write_fault_count dev.new
        ≡ faults_after (D.write_fault_count dev.old) result }
{
    dev.write_run(first, bytes, count)
}

/// Writes a block, and waits until all that was written is kept.
#[tactic(auto, using(crate::proofs::Calls::calls))]
pub fn settle<D: Device>(dev: &mut D, b: u64, block: &[u8; BLOCK_SIZE]) -> Result<(), Failed>
    requires { b < D.block_count dev.old }
    ensures written { OnOk result
        (D.contents dev.new ≡ with_block b block.now (D.contents dev.old)) }
    ensures others { OnErr result (ChangesOnly b (D.contents dev.old) (D.contents dev.new)) }
    ensures shape { IfSome (D.contents dev.new) (HasBlocks (D.block_count dev.new)) }
    ensures durable { OnOk result (IsOnly (D.contents dev.new) (left_now D.Device dev.new)) }
    ensures time { Goes D.Device dev.old dev.new (TornAt b (left_now D.Device dev.old)) }
    ensures stays { Stays D.Device dev.old dev.new }
    ensures cause { FailsLast D.Device dev.old dev.new result }
    ensures write_faults { D.write_fault_count dev.new
        ≡ faults_after (D.write_fault_count dev.old) result }
{
    dev.write(b, block)?;
    dev.barrier()
}

/// A commit block that is committed, with zeros after its first byte.
pub fn committed_block() -> [u8; BLOCK_SIZE]
    ensures { IsCommit result }
{
    let mut block = [0; BLOCK_SIZE];
    block[0] = COMMITTED;
    block
}

/// Whether a commit block is committed.
pub fn is_committed(block: &[u8; BLOCK_SIZE]) -> bool
    ensures { IsTrue result ↔ IsCommit block.now }
{
    block[0] == COMMITTED
}
