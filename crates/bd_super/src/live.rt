//! The superblock that an image starts from.

ghost use Rattle.std.specs.Prelude.{◌≡◌, ◌≤◌, ◌⊎◌, ⊤, Some, IfOk, IfErr, IfSome, length};
ghost use Rattle.bd_limits.specs.Limits.{slot_minimum};
ghost use Rattle.bd_limits.specs.Places.{first_log_block};
ghost use Rattle.bd_slots.specs.Layout.{image_blocks};
ghost use Rattle.bd_device.specs.Blocks.{Image, HasBlocks};
ghost use Rattle.bd_device.specs.Device.{OnlyReads, HasImageCause, IsDamageOf};
ghost use Rattle.bd_super.specs.Live.{IsLive, IsBad, HasInHalf, IsDamaged};
ghost use Rattle.bd_super.specs.Superblocks.{IsSuper, body_block};

use crate::{Half, Super};
use bd_device::{Device, ImageFault, is_committed, read_block};
use bd_limits::MIN_SLOTS;
use bd_slots::image_blocks;
use std::alloc::Global;

/// Reads the superblock that an image starts from: of the halves that are committed the one of the
/// higher epoch. `DeviceFault` comes only where a call of the device failed, which is the last one
/// then. `Damaged` names block 0 where no half is committed or there are fewer than 516 blocks, a
/// committed half's body, 1 or 3, where it is of no superblock of an image of this size, the first
/// one first, and 3 where the epochs are equal.
#[tactic(auto, using(bd_device::proofs::Calls::calls))]
pub fn read_live<D: Device>(alloc: Global, dev: &mut D) -> Result<Super, ImageFault>
    ensures live { IfSome (D.contents dev.old) (λ image. IfOk result (IsLive image)) }
    ensures cause { HasImageCause D.Device dev.old dev.new
        (λ b. IfSome (D.contents dev.old) (λ image. IsDamaged image b)) result }

    // Whatever the contents.
    ensures fits { IfOk result IsSuper }
    ensures size { IfOk result (λ s. D.block_count dev.old ≡ image_blocks s.slots) }
    ensures reads { OnlyReads D.Device dev.old dev.new }
{
    let blocks = dev.blocks();
    if blocks < image_blocks(MIN_SLOTS) {
        return Err(ImageFault::Damaged { block: 0 });
    }
    let first = read_half(alloc, dev, Half::A, blocks)?;
    let second = read_half(alloc, dev, Half::B, blocks)?;
    newest(first, second)
}

// Of what the halves hold the one of the higher epoch.
fn newest(first: Option<Super>, second: Option<Super>) -> Result<Super, ImageFault>
    ensures live { (image : Image) → HasInHalf image Half.A first → HasInHalf image Half.B second
        → IfOk result (IsLive image) }
    ensures damaged { (image : Image) → HasInHalf image Half.A first → HasInHalf image Half.B second
        → image_blocks slot_minimum ≤ length image
        → IfErr result (IsDamageOf (IsDamaged image)) }
    ensures one { IfOk result (λ s. (first ≡ Some s) ⊎ (second ≡ Some s)) }
    ensures damage { IfErr result (IsDamageOf (λ _. ⊤)) }
{
    match (first, second) {
        (None, None) => Err(ImageFault::Damaged { block: 0 }),
        (Some(s), None) => Ok(s),
        (None, Some(s)) => Ok(s),
        (Some(s), Some(o)) => {
            if s.epoch == o.epoch {
                Err(ImageFault::Damaged {
                    block: Half::B.body_block(),
                })
            } else if s.epoch > o.epoch {
                Ok(s)
            } else {
                Ok(o)
            }
        }
    }
}

// Reads what a half of an image of this many blocks holds. `Damaged` names its body.
#[tactic(auto, using(bd_device::proofs::Calls::calls))]
fn read_half<D: Device>(
    alloc: Global,
    dev: &mut D,
    half: Half,
    blocks: u64,
) -> Result<Option<Super>, ImageFault>
    requires blocks { blocks ≡ D.block_count dev.old }
    requires room { first_log_block ≤ blocks }
    requires shape { IfSome (D.contents dev.old) (HasBlocks blocks) }
    ensures half { IfSome (D.contents dev.old) (λ image. IfOk result (HasInHalf image half)) }
    ensures cause { HasImageCause D.Device dev.old dev.new
        (λ b. (b ≡ body_block half)
        × IfSome (D.contents dev.old) (λ image. IsBad image half)) result }
    ensures fits { IfOk result (λ found. IfSome found IsSuper) }
    ensures size { IfOk result (λ found. IfSome found (λ s. blocks ≡ image_blocks s.slots)) }
    ensures reads { OnlyReads D.Device dev.old dev.new }
{
    if !is_committed(&read_block(dev, half.commit_block())?) {
        return Ok(None);
    }
    let body = read_block(dev, half.body_block())?;
    match Super::read(alloc, half, &body)? {
        Some(found) => {
            if image_blocks(found.slots) == blocks {
                Ok(Some(found))
            } else {
                Err(ImageFault::Damaged {
                    block: half.body_block(),
                })
            }
        }
        None => Err(ImageFault::Damaged {
            block: half.body_block(),
        }),
    }
}
