//! The log that an image has.

ghost use Rattle.std.specs.Prelude.{◌≡◌, ◌≤◌, IfOk, IfSome};
ghost use Rattle.bd_limits.specs.Limits.{first_slot_block};
ghost use Rattle.bd_device.specs.Device.{OnlyReads, HasImageCause};
ghost use Rattle.bd_table.specs.declared.table.Table.{Table as StoredTable};
ghost use Rattle.bd_super.specs.Superblocks.{log_block};
ghost use Rattle.bd_log.specs.Batches.{AreBatches};
ghost use Rattle.bd_log.specs.Logs.{fresh_log};
ghost use Rattle.bd_image.specs.Versions.{version_of};
ghost use Rattle.bd_image.specs.Damage.{placed_records};
ghost use Rattle.bd_checkpoint.specs.Commands.{AreCommandsOf};
ghost use Rattle.bd_checkpoint.specs.Following.{saved_by};
ghost use Rattle.bd_checkpoint.specs.Kept.{IsOpenOn};
ghost use Rattle.bd_checkpoint.specs.Resuming.{IsStartedFrom, IsFoundUnder};

use crate::commands::{PlacedCommand, commands_of};
use bd_device::{Device, ImageFault};
use bd_log::Log;
use bd_super::Super;
use std::alloc::Global;

/// Reads the log of the live superblock, and the commands of the records of its open batches. With
/// them all that is known between two calls is known, once a crash leaves what reads give.
/// `DeviceFault` comes only where a call of the device failed, which is the last one then.
/// `Damaged` comes where a batch is broken, or else where a record is of no command, and names the
/// first body block of the batch. It reads, and writes nothing.
pub fn resume_log<D: Device>(
    alloc: Global,
    dev: &mut D,
    live: &Super,
) -> Result<(Log, Vec<PlacedCommand>), ImageFault>
    requires { first_slot_block ≤ D.block_count dev.old }
    ensures batches { IfOk result (λ r. IfSome (D.contents dev.old) (λ image.
        AreBatches image (log_block live.now.half) live.now.epoch r.0.batches r.0.place)) }
    ensures idle { IfOk result (λ r. r.0
        ≡ record (fresh_log (log_block live.now.half) live.now.epoch) {
          place = r.0.place;
          batches = r.0.batches;
        }) }
    ensures commands { IfOk result (λ r.
        AreCommandsOf (version_of live.now) (placed_records r.0.batches) r.1.items) }
    ensures open { IfOk result (λ r. (t : StoredTable)
        → IsStartedFrom D.Device dev.old live.now t
        → IsOpenOn D.Device dev.new live.now (saved_by live.now t) r.0) }
    ensures cause { HasImageCause D.Device dev.old dev.new
        (IsFoundUnder (D.contents dev.old) live.now) result }
    ensures reads { OnlyReads D.Device dev.old dev.new }
{
    let log = Log::resume(alloc, dev, live.half.log_block(), live.epoch)?;
    let commands = commands_of(alloc, live.version, log.batches())?;
    Ok((log, commands))
}
