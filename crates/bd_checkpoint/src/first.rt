//! How a device gets its first superblock.

ghost use Rattle.std.specs.Prelude.{◌≡◌, ◌≤◌, IsSome, IfSome, OnOk};
ghost use Rattle.bd_limits.specs.Places.{first_log_block};
ghost use Rattle.bd_slots.specs.Layout.{IsSlotCount, IsTablePlace};
ghost use Rattle.bd_device.specs.Calls.{faults_after};
ghost use Rattle.bd_device.specs.Device.{left_now, Stays, FailsLast};
ghost use Rattle.bd_device.specs.Moments.{IsOnly};
ghost use Rattle.bd_super.specs.Superblocks.{IsSuper};
ghost use Rattle.bd_super.specs.Live.{NoneIsCommitted};
ghost use Rattle.bd_image.specs.Fresh.{first_super};

use bd_device::{BLOCK_SIZE, Device, settle};
use bd_io::Failed;
use bd_keys::Items;
use bd_super::laws::a_version_is_written;
use bd_super::{Half, Super, WRITTEN_VERSION};

/// The first superblock of an image of so many slots, with the slots of a table: in the first half,
/// with the epoch 1 and no commands, of the version that is written.
pub fn first_super(slots: u32, table: Items<u32>) -> Super
    ensures first { result ≡ first_super slots table }
    ensures fits { IsSlotCount slots → IsTablePlace slots table → IsSuper result }
{
    a_version_is_written();
    Super {
        half: Half::A,
        version: WRITTEN_VERSION,
        slots,
        epoch: 1,
        count: 0,
        table,
    }
}

/// Takes both superblocks of a device back, whatever it has, and waits until that is kept: then no
/// superblock is committed, and a crash leaves what reads give. `Failed` comes only where a call of
/// the device failed, which is the last one then. It takes no memory.
pub fn clear_supers<D: Device>(dev: &mut D) -> Result<(), Failed>
    requires { first_log_block ≤ D.block_count dev.old }
    ensures cleared { OnOk result (IfSome (D.contents dev.new) NoneIsCommitted) }
    ensures told { OnOk result (IsSome (D.contents dev.old) → IsSome (D.contents dev.new)) }
    ensures only { OnOk result (IsOnly (D.contents dev.new) (left_now D.Device dev.new)) }
    ensures stays { Stays D.Device dev.old dev.new }
    ensures cause { FailsLast D.Device dev.old dev.new result }
    ensures write_faults { D.write_fault_count dev.new
        ≡ faults_after (D.write_fault_count dev.old) result }
{
    dev.write(Half::A.commit_block(), &[0; BLOCK_SIZE])?;
    settle(dev, Half::B.commit_block(), &[0; BLOCK_SIZE])
}
