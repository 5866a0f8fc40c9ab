//! Nodes that are written to their own slots, all of them, and then their table.

ghost use Rattle.std.specs.Prelude.{◌≡◌, ◌+◌, ◌≤◌, IfOk, IfSome, length};
ghost use Rattle.bd_limits.specs.Limits.{slot_limit};
ghost use Rattle.bd_cache.specs.Cache.{room_of};
ghost use Rattle.bd_slots.specs.Layout.{image_blocks};
ghost use Rattle.bd_slots.specs.Slots.{free_count};
ghost use Rattle.bd_device.specs.Calls.{faults_after};
ghost use Rattle.bd_device.specs.Device.{FailsLast};
ghost use Rattle.bd_table.specs.Image.{HoldsTable};
ghost use Rattle.bd_pager.specs.Counting.{IsTallied};
ghost use Rattle.bd_pager.specs.Drafts.{HaveTable, IsDraftOf};
ghost use Rattle.bd_pager.specs.Moving.{OnlyMoves};
ghost use Rattle.bd_pager.specs.Pagers.{IsReady};
ghost use Rattle.bd_pager.specs.Places.{spots_in};
ghost use Rattle.bd_pager.specs.Readers.{IsReading};

use crate::draft::Draft;
use crate::reader::NodeReader;
use crate::usage::Usage;
use crate::writing::write_early;
use crate::written::Written;
use bd_device::Device;
use bd_io::Failed;
use bd_keys::Items;

/// Writes all nodes that are in memory, as `write_early` does, and then the table of all nodes to
/// free slots, which are returned once more. `Failed` comes only where a call of the device failed,
/// which is the last one then. It needs no memory.
#[tactic(auto, using(bd_device::proofs::Calls::calls))]
pub fn write_all<D: Device>(
    reader: &mut NodeReader<D>,
    usage: &mut Usage,
    root: u64,
    next: u64,
    draft: Draft,
) -> Result<(Written, Items<u32>), Failed>
    requires reading { IsReading (D.contents reader.old.dev) reader.old }
    requires tallied { IsTallied next (spots_in reader.old.spots) usage.old }
    requires table { HaveTable root next (spots_in reader.old.spots) }
    requires size { D.block_count reader.old.dev ≡ image_blocks (length usage.old.spare) }
    requires slots { length usage.old.spare ≤ slot_limit }
    requires draft { IsDraftOf (length usage.old.spare) (spots_in reader.old.spots) draft }
    requires room { usage.old.changed + length draft.at.items ≤ free_count usage.old.spare }
    ensures moves { OnlyMoves D.Device usage.old.spare root reader.old.dev reader.new.dev
        (spots_in reader.old.spots) (spots_in reader.new.spots) }
    ensures reading { IsReading (D.contents reader.new.dev) reader.new }
    ensures lent { reader.new.is_lent ≡ reader.old.is_lent }
    ensures cache_room { room_of reader.new.cache ≡ room_of reader.old.cache }
    ensures spare { usage.new.spare ≡ usage.old.spare }
    ensures tallied { IsTallied next (spots_in reader.new.spots) usage.new }
    ensures ready { IfOk result
        (λ done. IsReady usage.old.spare (spots_in reader.new.spots) root next done.0) }
    ensures held { IfOk result (λ done. IfSome (D.contents reader.new.dev)
        (λ image. HoldsTable image (length usage.old.spare) done.0.at done.0.table)) }
    ensures copy { IfOk result (λ done. done.1 ≡ done.0.at) }
    ensures cause { FailsLast D.Device reader.old.dev reader.new.dev result }
    ensures write_faults { D.write_fault_count reader.new.dev
        ≡ faults_after (D.write_fault_count reader.old.dev) result }
{
    write_early(reader, usage, root, 0)?;
    let (written, at) = draft.filled(&reader.spots, &usage.free, root, next);
    let slots = usage.spare.count();
    let taken = written.at.as_slice();
    reader.tails.forget_at(taken);
    bd_table::write(&mut reader.dev, slots, taken, &written.table)?;
    Ok((written, at))
}
