//! A sync of the log of an image.

ghost use Rattle.std.specs.Prelude.{◌≡◌, ◌≤◌, ◌+◌, [], OnOk, OnErr, IsTrue, is_ok};
ghost use Rattle.bd_limits.specs.Limits.{first_slot_block, log_blocks};
ghost use Rattle.bd_device.specs.Blocks.{Image};
ghost use Rattle.bd_device.specs.Calls.{faults_after};
ghost use Rattle.bd_device.specs.Changes.{StaysBut, IsInRange};
ghost use Rattle.bd_device.specs.Device.{left_now, Goes, Stays, FailsLast};
ghost use Rattle.bd_log.specs.Logs.{after_sync};
ghost use Rattle.bd_super.specs.declared.superblock.Super.{Super};
ghost use Rattle.bd_checkpoint.specs.Kept.{Saved, IsOpenOn, IsWithWaiting, IsWithAllOrNone};

use bd_device::Device;
use bd_io::Failed;
use bd_log::Log;
use bd_log::laws::batches_are_one;
use bd_table::laws::tables_are_read_again;

/// Commits the records that wait in the log of an image. An image that a crash inside it leaves
/// stands for what one of before stood for, or for that after all that waited; one that a crash
/// after it leaves, once it is Ok, for the latter. What is known of the device stays so. With
/// nothing waiting it makes no call of the device. `Failed` comes only where a call of the device
/// failed, which is the last one then; the records then still wait. It takes no memory.
pub fn sync<D: Device>(dev: &mut D, log: &mut Log) -> Result<(), Failed>
    requires { first_slot_block ≤ D.block_count dev.old }
    ensures ok { OnOk result (log.new ≡ after_sync log.old) }
    ensures err { OnErr result (log.new ≡ log.old) }
    ensures time { (live : Super) (saved : Saved) → IsOpenOn D.Device dev.old live saved log.old
        → Goes D.Device dev.old dev.new
        (IsWithAllOrNone live log.old (left_now D.Device dev.old)) }
    ensures kept { OnOk result ((live : Super) (saved : Saved)
        → IsOpenOn D.Device dev.old live saved log.old → (c : Image)
        → left_now D.Device dev.new c
        → IsWithWaiting live log.old (left_now D.Device dev.old) c) }
    ensures open { OnOk result ((live : Super) (saved : Saved)
        → IsOpenOn D.Device dev.old live saved log.old
        → IsOpenOn D.Device dev.new live saved log.new) }
    ensures others { StaysBut (IsInRange log.old.first (log.old.first + log_blocks))
        (D.contents dev.old) (D.contents dev.new) }
    ensures idle { log.old.waiting ≡ [] → dev.new ≡ dev.old }
    ensures idle_ok { log.old.waiting ≡ [] → IsTrue (is_ok result) }
    ensures stays { Stays D.Device dev.old dev.new }
    ensures cause { FailsLast D.Device dev.old dev.new result }
    ensures write_faults { D.write_fault_count dev.new
        ≡ faults_after (D.write_fault_count dev.old) result }
{
    tables_are_read_again();
    batches_are_one();
    log.sync(dev)
}
