//! How a volume starts from an image.

ghost use Rattle.std.specs.Prelude.{◌≡◌, ◌≢◌, ◌<◌, ◌≤◌, ℕ, false, None, IsSome, IfOk, IfErr, IfSome, IsSomeAnd, OnOk, OnErr};
ghost use Rattle.bd_limits.specs.Limits.{first_slot_block};
ghost use Rattle.bd_model.specs.Tree.{Tree};
ghost use Rattle.bd_slots.specs.Layout.{image_blocks};
ghost use Rattle.bd_device.specs.Device.{left_now, OnlyReads, HasImageCause, IsImageCause};
ghost use Rattle.bd_device.specs.Moments.{IsOnly};
ghost use Rattle.bd_device.specs.declared.fault.ImageFault.TheVariants.{Damaged};
ghost use Rattle.bd_cache.specs.Cache.{kept_at};
ghost use Rattle.bd_table.specs.declared.table.Table.{Table as StoredTable};
ghost use Rattle.bd_super.specs.Superblocks.{IsSuper, log_block};
ghost use Rattle.bd_super.specs.Live.{IsLive};
ghost use Rattle.bd_log.specs.Batches.{AreBatches};
ghost use Rattle.bd_log.specs.Logs.{fresh_log};
ghost use Rattle.bd_pager.specs.Opened.{IsOpened};
ghost use Rattle.bd_pager.specs.Pagers.{cache_room, is_known};
ghost use Rattle.bd_image.specs.Versions.{version_of};
ghost use Rattle.bd_image.specs.ImageTree.{ImageStandsFor};
ghost use Rattle.bd_image.specs.Damage.{placed_records};
ghost use Rattle.bd_checkpoint.specs.Commands.{AreCommandsOf};
ghost use Rattle.bd_checkpoint.specs.Following.{saved_by};
ghost use Rattle.bd_checkpoint.specs.Kept.{IsOpenOn};
ghost use Rattle.bd_checkpoint.specs.Resuming.{IsStartedFrom, IsFoundUnder};
ghost use Rattle.bd_checkpoint.specs.Recovering.{OnlySettles, HasSettled, FailsFirst, IsFoundIn, saved_of, AreStored, LeadsTo};

use crate::commands::PlacedCommand;
use crate::resuming::resume_log;
use bd_command::laws::log_records_are_prefix_free;
use bd_device::{Device, ImageFault};
use bd_format::laws::{images_are_decoded, images_are_of_one_node};
use bd_image::laws::trees_are_undamaged;
use bd_log::Log;
use bd_log::laws::batches_are_one;
use bd_pager::{Pager, Refused};
use bd_super::{Super, read_live};
use bd_table::laws::tables_are_read_again;
use std::alloc::Global;

/// What a volume starts with.
#[derive(Drop)]
pub struct Recovered<D: Device> {
    /// The nodes of the last checkpoint.
    pub pager: Pager<D>,
    /// The log, in which nothing waits.
    pub log: Log,
    /// The superblock that it started from.
    pub live: Super,
    /// The commands of the records of open batches, in order.
    pub commands: Vec<PlacedCommand>,
}

/// Starts from the image of a device. It makes one barrier, so that from then on a crash leaves
/// what reads give, and reads the superblocks, the table, the root and the log. At most `room`
/// nodes are cached, beside the root. From an image that stands for a tree it starts unless the
/// device fails or there is no memory: the commands then lead from the tree of the nodes to that
/// one. Where it fails, it returns the device, and unless the barrier failed a crash leaves what
/// reads give there too, of a device that has blocks. `DeviceFault` comes only where a call of the
/// device failed, which is the last one then. `Damaged` names a bad block of the image, of the
/// superblock first, then of the table, of the root, of a batch, and of a record of no command.
pub fn recover<D: Device>(alloc: Global, dev: D, room: usize) -> Result<Recovered<D>, Refused<D>>
    requires { 1 ≤ room }
    ensures open { IfOk result (λ r.
        IsOpenOn D.Device r.pager.dev r.live (saved_of r.pager) r.log) }
    ensures only { IfOk result (λ r.
        IsOnly (D.contents r.pager.dev) (left_now D.Device r.pager.dev)) }
    ensures opened { IfOk result (λ r.
        IsOpened (D.contents dev) r.live.slots r.live.table r.pager) }
    ensures room { IfOk result (λ r. cache_room r.pager ≡ room) }
    ensures known { IsSome (D.contents dev) → IfOk result (λ r. is_known D.Device r.pager) }
    ensures stored { IfOk result (λ r.
        IfSome (D.contents dev) (AreStored D.Device r.pager)) }
    ensures batches { IfOk result (λ r. IfSome (D.contents dev) (λ image.
        AreBatches image (log_block r.live.half) r.live.epoch r.log.batches r.log.place)) }
    ensures idle { IfOk result (λ r. r.log
        ≡ record (fresh_log (log_block r.live.half) r.live.epoch) {
          place = r.log.place;
          batches = r.log.batches;
        }) }
    ensures commands { IfOk result (λ r.
        AreCommandsOf (version_of r.live) (placed_records r.log.batches) r.commands.items) }
    ensures replay { IfOk result (λ r. (tree : Tree) (count : ℕ)
        → IsSomeAnd (D.contents dev) (ImageStandsFor tree count)
        → LeadsTo D.Device r.pager r.live r.commands.items tree count) }
    ensures reads { IfOk result (λ r. OnlyReads D.Device dev r.pager.dev) }
    ensures settled { IfOk result (λ r. HasSettled D.Device dev r.pager.dev) }
    ensures faults { IfOk result (λ r. D.fault_count r.pager.dev ≡ D.fault_count dev) }

    // The fault, and the device that is returned.
    ensures cause { IfErr result (λ refused. IsImageCause D.Device dev refused.device
        (IsFoundIn (D.contents dev)) refused.fault) }
    ensures undamaged { (tree : Tree) (count : ℕ)
        → IsSomeAnd (D.contents dev) (ImageStandsFor tree count)
        → IfErr result (λ refused. (block : ℕ) → refused.fault ≢ Damaged block) }
    ensures left { IfErr result (λ refused. OnlySettles D.Device dev refused.device) }
    ensures settles { IfErr result (λ refused. 0 < D.block_count dev
        → ¬ FailsFirst D.Device dev refused.device
        → HasSettled D.Device dev refused.device) }
{
    trees_are_undamaged();
    images_are_decoded();
    images_are_of_one_node();
    tables_are_read_again();
    batches_are_one();
    log_records_are_prefix_free();
    let (live, mut pager) = match open_start(alloc, dev, room) {
        Ok(start) => start,
        Err(refused) => return Err(refused),
    };
    let (log, commands) = match read_log(alloc, &mut pager, &live) {
        Ok(read) => read,
        Err(fault) => {
            let device = pager.into_device();
            return Err(Refused { fault, device });
        }
    };
    Ok(Recovered {
        pager,
        log,
        live,
        commands,
    })
}

// The superblock that the image starts from, and the pager over its checkpoint.
fn open_start<D: Device>(
    alloc: Global,
    mut dev: D,
    room: usize,
) -> Result<(Super, Pager<D>), Refused<D>>
    requires { 1 ≤ room }
    ensures fits { IfOk result (λ r. IsSuper r.0) }
    ensures size { IfOk result (λ r. D.block_count r.1.dev ≡ image_blocks r.0.slots) }
    ensures live { IfOk result (λ r. IfSome (D.contents dev) (λ image. IsLive image r.0)) }
    ensures only { IfOk result (λ r.
        IsOnly (D.contents r.1.dev) (left_now D.Device r.1.dev)) }
    ensures opened { IfOk result (λ r. IsOpened (D.contents dev) r.0.slots r.0.table r.1) }
    ensures room { IfOk result (λ r. cache_room r.1 ≡ room) }
    ensures known { IsSome (D.contents dev) → IfOk result (λ r. is_known D.Device r.1) }
    ensures reads { IfOk result (λ r. OnlyReads D.Device dev r.1.dev) }
    ensures settled { IfOk result (λ r. HasSettled D.Device dev r.1.dev) }
    ensures faults { IfOk result (λ r. D.fault_count r.1.dev ≡ D.fault_count dev) }
    ensures cause { IfErr result (λ refused. IsImageCause D.Device dev refused.device
        (IsFoundIn (D.contents dev)) refused.fault) }
    ensures left { IfErr result (λ refused. OnlySettles D.Device dev refused.device) }
    ensures settles { IfErr result (λ refused. 0 < D.block_count dev
        → ¬ FailsFirst D.Device dev refused.device
        → HasSettled D.Device dev refused.device) }
{
    let (live, at) = match read_start(alloc, &mut dev) {
        Ok(start) => start,
        Err(fault) => return Err(Refused { fault, device: dev }),
    };
    let pager = match Pager::open(alloc, dev, live.slots, at, room) {
        Ok(pager) => pager,
        Err(refused) => return Err(refused),
    };
    Ok((live, pager))
}

// Waits until all that was written is kept, and reads the superblock that the image starts from,
// and once more the slots of its table.
fn read_start<D: Device>(alloc: Global, dev: &mut D) -> Result<(Super, Vec<u32>), ImageFault>
    ensures live { IfOk result (λ r. IfSome (D.contents dev.old) (λ image. IsLive image r.0)) }
    ensures fits { IfOk result (λ r. IsSuper r.0) }
    ensures size { IfOk result (λ r. D.block_count dev.old ≡ image_blocks r.0.slots) }
    ensures table { IfOk result (λ r. r.1.items ≡ r.0.table) }
    ensures only { OnOk result (IsOnly (D.contents dev.new) (left_now D.Device dev.new)) }
    ensures reads { OnOk result (OnlyReads D.Device dev.old dev.new) }
    ensures settled { OnOk result (HasSettled D.Device dev.old dev.new) }
    ensures settles { OnErr result (0 < D.block_count dev.old
        → ¬ FailsFirst D.Device dev.old dev.new
        → HasSettled D.Device dev.old dev.new) }
    ensures left { OnlySettles D.Device dev.old dev.new }
    ensures cause { HasImageCause D.Device dev.old dev.new
        (IsFoundIn (D.contents dev.old)) result }
{
    dev.barrier()?;
    let live = read_live(alloc, dev)?;
    let mut table = Vec::new(alloc);
    table.extend_from_slice(live.table.as_slice())?;
    Ok((live, table))
}

// Reads the log of an image by way of its pager, which has read no node but the root.
fn read_log<D: Device>(
    alloc: Global,
    pager: &mut Pager<D>,
    live: &Super,
) -> Result<(Log, Vec<PlacedCommand>), ImageFault>
    requires size { first_slot_block ≤ D.block_count pager.old.dev }
    requires unread { (id : ℕ) → kept_at pager.old.cache id ≡ None }
    requires unlent { pager.old.is_lent ≡ false }
    ensures batches { IfOk result (λ r. IfSome (D.contents pager.old.dev) (λ image.
        AreBatches image (log_block live.now.half) live.now.epoch r.0.batches r.0.place)) }
    ensures idle { IfOk result (λ r. r.0
        ≡ record (fresh_log (log_block live.now.half) live.now.epoch) {
          place = r.0.place;
          batches = r.0.batches;
        }) }
    ensures commands { IfOk result (λ r.
        AreCommandsOf (version_of live.now) (placed_records r.0.batches) r.1.items) }
    ensures open { IfOk result (λ r. (t : StoredTable)
        → IsStartedFrom D.Device pager.old.dev live.now t
        → IsOpenOn D.Device pager.new.dev live.now (saved_by live.now t) r.0) }
    ensures cause { HasImageCause D.Device pager.old.dev pager.new.dev
        (IsFoundUnder (D.contents pager.old.dev) live.now) result }
    ensures reads { OnlyReads D.Device pager.old.dev pager.new.dev }
    ensures pager { pager.new ≡ record pager.old { dev = pager.new.dev; is_lent = false } }
{
    let read = resume_log(alloc, pager.device(), live);
    pager.take_back();
    read
}
