//! How all nodes of a pager become the next checkpoint.

ghost use Rattle.std.specs.Prelude.{◌≡◌, ◌+◌, ◌^◌, ◌≤◌, false, Err, IfErr, OnOk, OnErr};
ghost use Rattle.bd_model.specs.Tree.{Tree};
ghost use Rattle.bd_slots.specs.Layout.{table_length};
ghost use Rattle.bd_device.specs.Changes.{StaysBut};
ghost use Rattle.bd_device.specs.Device.{left_now, Goes, Stays};
ghost use Rattle.bd_device.specs.Moments.{IsOnly};
ghost use Rattle.bd_node.specs.Tables.{kept_count};
ghost use Rattle.bd_table.specs.Tables.{AreFreeSlots};
ghost use Rattle.bd_super.specs.Superblocks.{log_block, other};
ghost use Rattle.bd_log.specs.Logs.{fresh_log};
ghost use Rattle.bd_pager.specs.Counting.{changed_of, free_of};
ghost use Rattle.bd_pager.specs.Pagers.{nodes_of, table_of, is_known};
ghost use Rattle.bd_pager.specs.Readers.{map_fault};
ghost use Rattle.bd_image.specs.Standing.{IsOldOrNew};
ghost use Rattle.bd_checkpoint.specs.Following.{super_after};
ghost use Rattle.bd_checkpoint.specs.Kept.{slots_held, IsOpenOn, AllStandFor, AreOfTree};
ghost use Rattle.bd_checkpoint.specs.Recovering.{saved_of};
ghost use Rattle.bd_checkpoint.specs.Saving.{IsCheckpointCause, IsSaved, IsStoppedOrGoesOn, StaysUnsaved};
ghost use Rattle.bd_checkpoint.specs.Surviving.{IsOfHalfOrSpare};

use crate::following::next_super;
use crate::lending::publish_by;
use bd_device::{Device, ImageFault};
use bd_format::laws::images_are_decoded;
use bd_io::Failed;
use bd_log::Log;
use bd_log::laws::batches_are_one;
use bd_message::{Counter, MapFault};
use bd_pager::Pager;
use bd_super::Super;
use bd_table::laws::tables_are_read_again;

/// Makes a checkpoint of all nodes of a pager, as that of an image in which so many commands were
/// accepted: writes the changed nodes and the table to slots that the last one doesn't hold,
/// publishes the superblock after the live one, and goes on with its log, which is empty. An image
/// that a crash inside it leaves, also where it fails, stands for what one of before stood for, or
/// for the tree of the nodes and the count; one that a crash after it leaves, once it is Ok, is
/// what reads give, and stands for the latter. Then this checkpoint is known of the device, and no
/// node is changed.
///
/// It writes to those slots, and to the three blocks of the other half that publishing writes: its
/// superblock's and its log's first; where it fails and no write or barrier did, to the slots alone.
///
/// A fault leaves the nodes, the log, the live superblock and the last checkpoint. Unless a write
/// or a barrier of the device failed, what was known of it stays known. `DeviceFault` comes only
/// where a call of the device failed, which is the last one then, `Worn` exactly where the live
/// superblock's epoch stands at its last value. At `Worn` and `NoMemory` the device wasn't called.
pub fn checkpoint<D: Device>(
    pager: &mut Pager<D>,
    log: &mut Log,
    live: &mut Super,
    count: u64,
) -> Result<(), MapFault>
    requires open { IsOpenOn D.Device pager.old.dev live.old (saved_of pager.old) log.old }
    requires spare { AreFreeSlots live.old.slots (slots_held (saved_of pager.old))
        pager.old.spare }
    requires unlent { pager.old.is_lent ≡ false }
    requires room { changed_of pager.old + table_length (kept_count (table_of pager.old))
        ≤ free_of pager.old }

    // What a crash leaves, inside it and after it.
    ensures time { (tree : Tree) → is_known D.Device pager.old
        → AreOfTree (nodes_of D.Device pager.old) (table_of pager.old) tree
        → Goes D.Device pager.old.dev pager.new.dev
        (IsOldOrNew (left_now D.Device pager.old.dev) tree count) }
    ensures kept { OnOk result ((tree : Tree) → is_known D.Device pager.old
        → AreOfTree (nodes_of D.Device pager.old) (table_of pager.old) tree
        → AllStandFor tree count (left_now D.Device pager.new.dev)) }
    ensures only { OnOk result
        (IsOnly (D.contents pager.new.dev) (left_now D.Device pager.new.dev)) }

    // What is known once it is Ok.
    ensures open { OnOk result
        (IsOpenOn D.Device pager.new.dev live.new (saved_of pager.new) log.new) }
    ensures live { OnOk result (live.new ≡ super_after live.old count pager.new.at) }
    ensures log { OnOk result (log.new ≡ fresh_log (log_block live.new.half) live.new.epoch) }
    ensures saved { OnOk result (IsSaved D.Device pager.old pager.new) }
    ensures faults { OnOk result (D.fault_count pager.new.dev ≡ D.fault_count pager.old.dev) }
    ensures write_faults { OnOk result
        (D.write_fault_count pager.new.dev ≡ D.write_fault_count pager.old.dev) }

    // What a fault leaves.
    ensures unsaved { OnErr result (StaysUnsaved D.Device pager.old pager.new) }
    ensures same_live { OnErr result (live.new ≡ live.old) }
    ensures same_log { OnErr result (log.new ≡ log.old) }
    ensures goes_on { OnErr result (IsStoppedOrGoesOn D.Device pager.old.dev pager.new.dev live.old
        (saved_of pager.old) log.old pager.old.spare) }
    ensures cause { IfErr result
        (IsCheckpointCause D.Device pager.old.dev pager.new.dev live.old) }
    ensures worn { 2 ^ 64 ≤ live.old.epoch + 1
        → result ≡ Err (MapFault.Worn Counter.Epoch) }
    ensures later { D.fault_count pager.old.dev ≤ D.fault_count pager.new.dev }
    ensures writes { StaysBut (IsOfHalfOrSpare (other live.old.half) pager.old.spare)
        (D.contents pager.old.dev) (D.contents pager.new.dev) }
    ensures stays { Stays D.Device pager.old.dev pager.new.dev }
{
    tables_are_read_again();
    batches_are_one();
    images_are_decoded();
    if live.epoch == u64::MAX {
        return Err(MapFault::Worn(Counter::Epoch));
    }
    let table = match pager.write_out() {
        Ok(table) => table,
        Err(fault) => return Err(map_fault(fault)),
    };
    let next = next_super(live, count, table);
    match publish_by(pager, &next) {
        Ok(()) => {}
        Err(Failed) => return Err(MapFault::DeviceFault),
    }
    pager.mark_saved();
    log.turn(next.half.log_block(), next.epoch);
    *live = next;
    Ok(())
}

// The fault of a checkpoint whose nodes weren't written.
fn map_fault(fault: ImageFault) -> MapFault
    ensures { result ≡ map_fault fault }
{
    match fault {
        ImageFault::DeviceFault => MapFault::DeviceFault,
        ImageFault::Damaged { block } => MapFault::Damaged { block },
        ImageFault::NoMemory => MapFault::NoMemory,
    }
}
