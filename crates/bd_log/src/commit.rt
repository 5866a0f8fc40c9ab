//! Blocks that are written and then committed.

ghost use Rattle.std.specs.Prelude.{◌≡◌, ◌≤◌, ◌<◌, ◌+◌, ◌*◌, ◌^◌, length, OnOk};
ghost use Rattle.bd_limits.specs.Limits.{block_size};
ghost use Rattle.bd_device.specs.Blocks.{Image};
ghost use Rattle.bd_device.specs.Calls.{faults_after};
ghost use Rattle.bd_device.specs.Changes.{StaysBut, IsInRange};
ghost use Rattle.bd_device.specs.Device.{left_now, Goes, Stays, FailsLast};
ghost use Rattle.bd_log.specs.Commits.{IsNoneOrWhole, WasWritten};

use bd_device::{BLOCK_SIZE, Device, committed_block, settle, write_blocks};
use bd_io::Failed;

/// Writes a body after its commit block, and commits it: the body and the next commit block, not
/// committed, are settled first, and only then is the commit block written and settled.
#[tactic(auto, using(bd_device::proofs::Calls::calls))]
pub fn write_committed<D: Device>(
    dev: &mut D,
    commit: u64,
    body: &[u8],
    blocks: u64,
) -> Result<(), Failed>
    requires room { commit + blocks + 2 ≤ D.block_count dev.old }
    requires fits { commit + blocks + 2 < 2 ^ 64 }
    requires body { blocks * block_size ≡ length body.now }
    ensures time { Goes D.Device dev.old dev.new
        (IsNoneOrWhole commit blocks body.now (left_now D.Device dev.old)) }
    ensures whole { OnOk result ((c : Image) → left_now D.Device dev.new c
        → WasWritten commit blocks body.now (left_now D.Device dev.old) c) }
    ensures others { StaysBut (IsInRange commit (commit + blocks + 2))
        (D.contents dev.old) (D.contents dev.new) }
    ensures stays { Stays D.Device dev.old dev.new }
    ensures cause { FailsLast D.Device dev.old dev.new result }
    ensures write_faults { D.write_fault_count dev.new
        ≡ faults_after (D.write_fault_count dev.old) result }
{
    write_blocks(dev, commit + 1, body, blocks as usize)?;
    settle(dev, commit + 1 + blocks, &[0; BLOCK_SIZE])?;
    settle(dev, commit, &committed_block())?;
    Ok(())
}
