//! Calls of the device of a pager, which keep its slots.

ghost use Rattle.std.specs.Prelude.{◌≡◌, ◌≤◌, [], false, IfSome, OnOk, OnErr, IsTrue, is_ok};
ghost use Rattle.bd_limits.specs.Limits.{first_slot_block};
ghost use Rattle.bd_model.specs.Tree.{Tree};
ghost use Rattle.bd_slots.specs.Layout.{image_blocks};
ghost use Rattle.bd_device.specs.Blocks.{Image};
ghost use Rattle.bd_device.specs.Calls.{faults_after};
ghost use Rattle.bd_device.specs.Changes.{StaysBut};
ghost use Rattle.bd_device.specs.Device.{left_now, Goes, Stays, FailsLast};
ghost use Rattle.bd_device.specs.Moments.{IsOnly};
ghost use Rattle.bd_node.specs.Meaning.{Nodes};
ghost use Rattle.bd_table.specs.declared.table.Table.{Table as StoredTable};
ghost use Rattle.bd_super.specs.Superblocks.{IsSuper, log_block};
ghost use Rattle.bd_super.specs.Published.{IsOfHalf, AreSettled, CanFollow, CountsWrites};
ghost use Rattle.bd_super.specs.declared.superblock.Super.{Super as AnySuper};
ghost use Rattle.bd_log.specs.Logs.{LogState, IsLogHalf, after_sync, fresh_log};
ghost use Rattle.bd_image.specs.Standing.{IsOldOrNew};
ghost use Rattle.bd_image.specs.Versions.{version_of, mode_version};
ghost use Rattle.bd_checkpoint.specs.Following.{IsNext, HasTableOf, AreWritten, saved_by};
ghost use Rattle.bd_checkpoint.specs.Kept.{Saved, IsOpenOn, AllStandFor, IsWithWaiting, IsWithAllOrNone};
ghost use Rattle.bd_checkpoint.specs.Surviving.{SurvivesOn};

use crate::publishing::publish_written;
use crate::syncing::sync;
use bd_device::Device;
use bd_io::Failed;
use bd_log::Log;
use bd_pager::Pager;
use bd_super::Super;

/// Commits the records that wait in the log of an image on the device of its pager, as `sync` does.
/// The pager and its nodes stay.
pub fn sync_by<D: Device>(pager: &mut Pager<D>, log: &mut Log) -> Result<(), Failed>
    requires size { first_slot_block ≤ D.block_count pager.old.dev }
    requires half { IsLogHalf log.old.first }
    requires unlent { pager.old.is_lent ≡ false }
    ensures ok { OnOk result (log.new ≡ after_sync log.old) }
    ensures err { OnErr result (log.new ≡ log.old) }
    ensures time { (live : AnySuper) (saved : Saved)
        → IsOpenOn D.Device pager.old.dev live saved log.old
        → Goes D.Device pager.old.dev pager.new.dev
        (IsWithAllOrNone live log.old (left_now D.Device pager.old.dev)) }
    ensures kept { OnOk result ((live : AnySuper) (saved : Saved)
        → IsOpenOn D.Device pager.old.dev live saved log.old → (c : Image)
        → left_now D.Device pager.new.dev c
        → IsWithWaiting live log.old (left_now D.Device pager.old.dev) c) }
    ensures open { OnOk result ((live : AnySuper) (saved : Saved)
        → IsOpenOn D.Device pager.old.dev live saved log.old
        → IsOpenOn D.Device pager.new.dev live saved log.new) }
    ensures idle { log.old.waiting ≡ [] → pager.new.dev ≡ pager.old.dev }
    ensures idle_ok { log.old.waiting ≡ [] → IsTrue (is_ok result) }
    ensures stays { Stays D.Device pager.old.dev pager.new.dev }
    ensures cause { FailsLast D.Device pager.old.dev pager.new.dev result }
    ensures write_faults { D.write_fault_count pager.new.dev
        ≡ faults_after (D.write_fault_count pager.old.dev) result }
    ensures pager { SurvivesOn D.Device pager.old pager.new }
{
    let synced = sync(pager.device(), log);
    pager.take_back();
    synced
}

/// Publishes a superblock on the device of a pager, as `publish_written` does. The pager and its
/// nodes stay.
pub fn publish_by<D: Device>(pager: &mut Pager<D>, s: &Super) -> Result<(), Failed>
    requires fits { IsSuper s.now }
    requires version { mode_version ≤ version_of s.now }
    requires size { D.block_count pager.old.dev ≡ image_blocks s.now.slots }
    requires follows { IfSome (D.contents pager.old.dev) (CanFollow s.now) }
    requires settled { AreSettled (D.contents pager.old.dev) (left_now D.Device pager.old.dev) }
    requires unlent { pager.old.is_lent ≡ false }
    ensures time { (live : AnySuper) (saved : Saved) (log : LogState) (t : StoredTable)
        (nodes : Nodes) (tree : Tree) → IsNext live s.now
        → IsOpenOn D.Device pager.old.dev live saved log
        → AreWritten (D.contents pager.old.dev) s.now t nodes tree
        → Goes D.Device pager.old.dev pager.new.dev
        (IsOldOrNew (left_now D.Device pager.old.dev) tree s.now.count) }
    ensures kept { OnOk result ((t : StoredTable) (nodes : Nodes) (tree : Tree)
        → AreWritten (D.contents pager.old.dev) s.now t nodes tree
        → AllStandFor tree s.now.count (left_now D.Device pager.new.dev)) }
    ensures open { OnOk result ((t : StoredTable)
        → IfSome (D.contents pager.old.dev) (HasTableOf s.now t)
        → IsOpenOn D.Device pager.new.dev s.now (saved_by s.now t)
        (fresh_log (log_block s.now.half) s.now.epoch)) }
    ensures only { OnOk result
        (IsOnly (D.contents pager.new.dev) (left_now D.Device pager.new.dev)) }
    ensures outside { StaysBut (IsOfHalf s.now.half)
        (D.contents pager.old.dev) (D.contents pager.new.dev) }
    ensures stays { Stays D.Device pager.old.dev pager.new.dev }
    ensures cause { FailsLast D.Device pager.old.dev pager.new.dev result }
    ensures write_faults { CountsWrites D.Device pager.old.dev pager.new.dev result }
    ensures pager { SurvivesOn D.Device pager.old pager.new }
{
    let published = publish_written(pager.device(), s);
    pager.take_back();
    published
}
