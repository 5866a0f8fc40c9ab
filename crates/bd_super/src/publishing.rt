//! How a superblock takes the place of the live one.

ghost use Rattle.std.specs.Prelude.{◌≡◌, ◌<◌, IfSome, OnOk};
ghost use Rattle.bd_slots.specs.Layout.{image_blocks};
ghost use Rattle.bd_device.specs.Changes.{StaysBut};
ghost use Rattle.bd_device.specs.Commits.{IsCommitted};
ghost use Rattle.bd_device.specs.Device.{left_now, Goes, Stays, FailsLast};
ghost use Rattle.bd_device.specs.Moments.{IsOnly};
ghost use Rattle.bd_super.specs.Published.{AreSettled, CanFollow, CountsWrites, IsLiveBeside, IsOfHalf, IsPublished, IsStaged, IsStagedOrPublished};
ghost use Rattle.bd_super.specs.Superblocks.{IsSuper, commit_block};

use crate::{Half, Super};
use bd_device::{BLOCK_SIZE, Device, committed_block, is_committed, read_block, settle};
use bd_io::Failed;

// Takes a half's superblock back, which isn't the live one. A commit block that isn't committed
// isn't written: a torn write could commit a body that was never whole.
#[tactic(auto, using(bd_device::proofs::Calls::calls))]
fn take_back<D: Device>(dev: &mut D, half: Half) -> Result<(), Failed>
    requires room { commit_block half < D.block_count dev.old }
    requires beside { IfSome (D.contents dev.old)
        (λ image. IsCommitted image (commit_block half) → IsLiveBeside half image) }
    requires settled { AreSettled (D.contents dev.old) (left_now D.Device dev.old) }
    ensures taken { OnOk result (IfSome (D.contents dev.new)
        (λ image. ¬ IsCommitted image (commit_block half))) }
    ensures outside { StaysBut (IsOfHalf half) (D.contents dev.old) (D.contents dev.new) }
    ensures time { Goes D.Device dev.old dev.new (IsStaged half (left_now D.Device dev.old)) }
    ensures cause { FailsLast D.Device dev.old dev.new result }
    ensures write_faults { CountsWrites D.Device dev.old dev.new result }
    ensures stays { Stays D.Device dev.old dev.new }
{
    let commit = half.commit_block();
    if !is_committed(&read_block(dev, commit)?) {
        return Ok(());
    }
    dev.write(commit, &[0; BLOCK_SIZE])
}

/// Publishes a superblock: all of a checkpoint after its nodes and its table. It takes its half's
/// last superblock back, closes the half's log, writes the body and commits it, with a barrier
/// after each but the first. Whenever the power is lost, the image has the old live superblock,
/// with all that its slots hold, or the new one. It takes no memory. `Failed` comes only where a
/// call of the device failed, which is the last one then.
#[tactic(auto, using(bd_device::proofs::Calls::calls))]
pub fn publish<D: Device>(dev: &mut D, s: &Super) -> Result<(), Failed>
    requires fits { IsSuper s.now }
    requires size { D.block_count dev.old ≡ image_blocks s.now.slots }
    requires follows { IfSome (D.contents dev.old) (CanFollow s.now) }
    requires settled { AreSettled (D.contents dev.old) (left_now D.Device dev.old) }
    ensures published { OnOk result
        (IfSome (D.contents dev.new) (IsPublished s.now (D.contents dev.old))) }
    ensures durable { OnOk result (IsOnly (D.contents dev.new) (left_now D.Device dev.new)) }
    ensures time { Goes D.Device dev.old dev.new
        (IsStagedOrPublished s.now (D.contents dev.old) (left_now D.Device dev.old)) }
    ensures outside { StaysBut (IsOfHalf s.now.half) (D.contents dev.old) (D.contents dev.new) }
    ensures cause { FailsLast D.Device dev.old dev.new result }
    ensures write_faults { CountsWrites D.Device dev.old dev.new result }
    ensures stays { Stays D.Device dev.old dev.new }
{
    take_back(dev, s.half)?;
    settle(dev, s.half.log_block(), &[0; BLOCK_SIZE])?;
    settle(dev, s.half.body_block(), &s.body())?;
    settle(dev, s.half.commit_block(), &committed_block())
}
