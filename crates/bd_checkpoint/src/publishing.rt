//! How a checkpoint that is written takes the place of the last one.

ghost use Rattle.std.specs.Prelude.{◌≡◌, ◌≤◌, IfSome, OnOk};
ghost use Rattle.bd_model.specs.Tree.{Tree};
ghost use Rattle.bd_slots.specs.Layout.{image_blocks};
ghost use Rattle.bd_device.specs.Changes.{StaysBut};
ghost use Rattle.bd_device.specs.Device.{left_now, Goes, Stays, FailsLast};
ghost use Rattle.bd_device.specs.Moments.{IsOnly};
ghost use Rattle.bd_node.specs.Meaning.{Nodes};
ghost use Rattle.bd_table.specs.declared.table.Table.{Table as StoredTable};
ghost use Rattle.bd_super.specs.Superblocks.{IsSuper, log_block};
ghost use Rattle.bd_super.specs.Published.{IsOfHalf, AreSettled, CanFollow, CountsWrites};
ghost use Rattle.bd_super.specs.declared.superblock.Super.{Super as AnySuper};
ghost use Rattle.bd_log.specs.Logs.{LogState, fresh_log};
ghost use Rattle.bd_image.specs.Versions.{version_of, mode_version};
ghost use Rattle.bd_image.specs.Standing.{IsOldOrNew};
ghost use Rattle.bd_checkpoint.specs.Following.{IsNext, HasTableOf, AreWritten, saved_by};
ghost use Rattle.bd_checkpoint.specs.Kept.{Saved, IsOpenOn, AllStandFor};

use bd_device::Device;
use bd_io::Failed;
use bd_super::{Super, publish};

/// Publishes a superblock whose table and nodes were written: the one after the live one, or the
/// first one of a device on which none is committed. An image that a crash inside it leaves stands,
/// where another one was live, for what one of before stood for, or for the tree of those nodes and
/// the superblock's count; one that a crash after it leaves, once it is Ok, is what reads give, and
/// stands for the latter. Then what is known of the device is this checkpoint, for which the table
/// alone is enough. `Failed` comes only where a call of the device failed, which is the last one
/// then. It takes no memory.
pub fn publish_written<D: Device>(dev: &mut D, s: &Super) -> Result<(), Failed>
    requires fits { IsSuper s.now }
    requires version { mode_version ≤ version_of s.now }
    requires size { D.block_count dev.old ≡ image_blocks s.now.slots }
    requires follows { IfSome (D.contents dev.old) (CanFollow s.now) }
    requires settled { AreSettled (D.contents dev.old) (left_now D.Device dev.old) }
    ensures time { (live : AnySuper) (saved : Saved) (log : LogState) (t : StoredTable)
        (nodes : Nodes) (tree : Tree) → IsNext live s.now
        → IsOpenOn D.Device dev.old live saved log
        → AreWritten (D.contents dev.old) s.now t nodes tree
        → Goes D.Device dev.old dev.new
        (IsOldOrNew (left_now D.Device dev.old) tree s.now.count) }
    ensures kept { OnOk result ((t : StoredTable) (nodes : Nodes) (tree : Tree)
        → AreWritten (D.contents dev.old) s.now t nodes tree
        → AllStandFor tree s.now.count (left_now D.Device dev.new)) }
    ensures open { OnOk result ((t : StoredTable)
        → IfSome (D.contents dev.old) (HasTableOf s.now t)
        → IsOpenOn D.Device dev.new s.now (saved_by s.now t)
        (fresh_log (log_block s.now.half) s.now.epoch)) }
    ensures only { OnOk result (IsOnly (D.contents dev.new) (left_now D.Device dev.new)) }
    ensures outside { StaysBut (IsOfHalf s.now.half) (D.contents dev.old) (D.contents dev.new) }
    ensures stays { Stays D.Device dev.old dev.new }
    ensures cause { FailsLast D.Device dev.old dev.new result }
    ensures write_faults { CountsWrites D.Device dev.old dev.new result }
{
    publish(dev, s)
}
