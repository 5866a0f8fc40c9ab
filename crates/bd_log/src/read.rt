//! Reading the batches of a half.

ghost use Rattle.std.specs.Prelude.{◌≡◌, ◌≤◌, ◌<◌, ◌+◌, ◌*◌, ◌^◌, length, IfOk, IfSome};
ghost use Rattle.bd_limits.specs.Limits.{block_size, body_block_limit, first_slot_block, log_blocks};
ghost use Rattle.bd_device.specs.Changes.{bytes_at};
ghost use Rattle.bd_device.specs.Device.{OnlyReads, HasImageCause};
ghost use Rattle.bd_log.specs.Batches.{body_blocks, AreBatches, IsDamagedAt};
ghost use Rattle.bd_log.specs.Logs.{IsLogHalf};
ghost use Rattle.bd_log.specs.Reading.{IsBodyOf, IsBodyRead, IsNextBatch, IsBroken};

use crate::batch::Batch;
use crate::decode::{decode, named_blocks};
use bd_device::{BLOCK_SIZE, Device, ImageFault, is_committed, read_block, read_blocks};
use bd_keys::{Bytes, Items};
use bd_limits::MAX_BODY_BLOCKS;
use std::alloc::Global;

// Reads a body of so many blocks, from block `b` on.
#[tactic(auto, using(bd_device::proofs::Calls::calls))]
fn read_records<D: Device>(
    alloc: Global,
    dev: &mut D,
    b: u64,
    blocks: u64,
    epoch: u64,
    buffer: &mut [u8],
) -> Result<Option<Items<Bytes>>, ImageFault>
    requires room { b + blocks ≤ D.block_count dev.old }
    requires fits { b + blocks < 2 ^ 64 }
    requires few { blocks ≤ body_block_limit }
    requires buffer { length buffer.old ≡ body_block_limit * block_size }
    ensures body { IfOk result (λ found. IfSome (D.contents dev.old) (λ image.
        IsBodyOf (bytes_at image b blocks) epoch found)) }
    ensures blocks { IfOk result (λ found. IfSome found (λ rs. body_blocks rs ≡ blocks)) }
    ensures reads { OnlyReads D.Device dev.old dev.new }
    ensures cause { HasImageCause D.Device dev.old dev.new (λ _. ⊥) result }
{
    let count = blocks as usize;
    read_blocks(dev, b, buffer, count)?;
    Ok(decode(alloc, &buffer[..count * BLOCK_SIZE], epoch, blocks)?)
}

// Reads the body from block `b` on, of at most so many blocks, and says how many it has. It is
// `None` exactly where no body of this epoch stands there.
#[tactic(auto, using(bd_device::proofs::Calls::calls))]
fn read_body<D: Device>(
    alloc: Global,
    dev: &mut D,
    b: u64,
    most: u64,
    epoch: u64,
    buffer: &mut [u8],
) -> Result<Option<(Items<Bytes>, u64)>, ImageFault>
    requires room { b + most ≤ D.block_count dev.old }
    requires fits { b + most < 2 ^ 64 }
    requires most { 1 ≤ most }
    requires few { most ≤ body_block_limit }
    requires buffer { length buffer.old ≡ body_block_limit * block_size }
    ensures body { IfOk result (λ found. IfSome (D.contents dev.old) (λ image.
        IsBodyRead image b most epoch found)) }
    ensures blocks { IfOk result (λ found. IfSome found (λ f.
        (f.1 ≡ body_blocks f.0) × (f.1 ≤ most))) }
    ensures reads { OnlyReads D.Device dev.old dev.new }
    ensures cause { HasImageCause D.Device dev.old dev.new (λ _. ⊥) result }
{
    let block = read_block(dev, b)?;
    let blocks = named_blocks(&block);
    if blocks == 0 || blocks > most {
        return Ok(None);
    }
    match read_records(alloc, dev, b, blocks, epoch, buffer)? {
        Some(records) => Ok(Some((records, blocks))),
        None => Ok(None),
    }
}

// Reads the batch whose commit block has this place, and says how many blocks its body has. It is
// `None` where the commit block isn't committed, and damage where no batch stands there.
#[tactic(auto, using(bd_device::proofs::Calls::calls))]
fn next_batch<D: Device>(
    alloc: Global,
    dev: &mut D,
    first: u64,
    epoch: u64,
    place: u64,
    buffer: &mut [u8],
) -> Result<Option<(Batch, u64)>, ImageFault>
    requires room { first_slot_block ≤ D.block_count dev.old }
    requires half { IsLogHalf first }
    requires place { place < log_blocks }
    requires buffer { length buffer.old ≡ body_block_limit * block_size }
    ensures next { IfOk result (λ found. IfSome (D.contents dev.old) (λ image.
        IsNextBatch image first epoch place found)) }
    ensures blocks { IfOk result (λ found. IfSome found (λ f.
        (f.1 ≡ body_blocks f.0.records) × (place + 1 + f.1 < log_blocks))) }
    ensures reads { OnlyReads D.Device dev.old dev.new }
    ensures cause { HasImageCause D.Device dev.old dev.new (λ block.
        IfSome (D.contents dev.old) (λ image. IsBroken image first epoch place block)) result }
{
    if !is_committed(&read_block(dev, first + place)?) {
        return Ok(None);
    }
    let body = first + place + 1;
    if place >= MAX_BODY_BLOCKS {
        return Err(ImageFault::Damaged { block: body });
    }
    match read_body(alloc, dev, body, MAX_BODY_BLOCKS - place, epoch, buffer)? {
        Some((records, blocks)) => Ok(Some((Batch { body, records }, blocks))),
        None => Err(ImageFault::Damaged { block: body }),
    }
}

/// Reads the batches of the half that begins at block `first`, and the place of the next one.
#[tactic(auto, using(bd_device::proofs::Calls::calls))]
pub fn read_batches<D: Device>(
    alloc: Global,
    dev: &mut D,
    first: u64,
    epoch: u64,
    buffer: &mut [u8],
) -> Result<(Vec<Batch>, u64), ImageFault>
    requires room { first_slot_block ≤ D.block_count dev.old }
    requires half { IsLogHalf first }
    requires buffer { length buffer.old ≡ body_block_limit * block_size }
    ensures batches { IfOk result (λ read. IfSome (D.contents dev.old) (λ image.
        AreBatches image first epoch read.0.items read.1)) }
    ensures place { IfOk result (λ read. read.1 < log_blocks) }
    ensures reads { OnlyReads D.Device dev.old dev.new }
    ensures cause { HasImageCause D.Device dev.old dev.new (λ block.
        IfSome (D.contents dev.old) (λ image. IsDamagedAt image first epoch block)) result }
{
    let mut batches = Vec::new(alloc);
    let mut place = 0;
    while let Some((batch, blocks)) = next_batch(alloc, dev, first, epoch, place, buffer)? {
        batches.push(batch)?;
        place += 1 + blocks;
    }
    Ok((batches, place))
}
