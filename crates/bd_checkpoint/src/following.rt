//! The superblock of the next checkpoint.

ghost use Rattle.std.specs.Prelude.{◌≡◌, ◌+◌, ◌<◌, ◌^◌};
ghost use Rattle.bd_slots.specs.Layout.{IsTablePlace};
ghost use Rattle.bd_super.specs.Superblocks.{IsSuper};
ghost use Rattle.bd_checkpoint.specs.Following.{super_after};

use bd_keys::Items;
use bd_super::laws::a_version_is_written;
use bd_super::{Super, WRITTEN_VERSION};

/// The superblock after the live one, whose epoch isn't a u64's last value, with a count of
/// commands and with the slots of a table: in the other half of an image of as many slots, with the
/// next epoch and the version that is written.
pub fn next_super(live: &Super, count: u64, table: Items<u32>) -> Super
    requires { live.now.epoch + 1 < 2 ^ 64 }
    ensures next { result ≡ super_after live.now count table }
    ensures fits { IsSuper live.now → IsTablePlace live.now.slots table → IsSuper result }
{
    a_version_is_written();
    Super {
        half: live.half.other(),
        version: WRITTEN_VERSION,
        slots: live.slots,
        epoch: live.epoch + 1,
        count,
        table,
    }
}
