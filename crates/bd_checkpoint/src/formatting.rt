//! How a device gets an image of a new tree.

ghost use Rattle.std.specs.Prelude.{◌≡◌, ◌+◌, ◌≤◌, [], false, length, IsSome, IfOk, IfErr, IfSome, OnOk};
ghost use Rattle.bd_limits.specs.Places.{first_log_block};
ghost use Rattle.bd_model.specs.Tree.{Tree, root_only};
ghost use Rattle.bd_slots.specs.Layout.{IsSlotCount, image_blocks, table_length};
ghost use Rattle.bd_device.specs.Device.{left_now, Stays, HasImageCause, IsImageCause};
ghost use Rattle.bd_device.specs.Moments.{IsOnly};
ghost use Rattle.bd_device.specs.declared.fault.ImageFault.TheVariants.{NoMemory};
ghost use Rattle.bd_files.specs.Roots.{root_messages};
ghost use Rattle.bd_node.specs.New.{new_table};
ghost use Rattle.bd_node.specs.Steps.{grown, HasGrown};
ghost use Rattle.bd_node.specs.Tables.{IsSound, kept_count};
ghost use Rattle.bd_table.specs.Tables.{AreFreeSlots, IsTableAt};
ghost use Rattle.bd_super.specs.Live.{NoneIsCommitted};
ghost use Rattle.bd_super.specs.Published.{AreSettled};
ghost use Rattle.bd_log.specs.Logs.{fresh_log};
ghost use Rattle.bd_pager.specs.Counting.{changed_of, free_of};
ghost use Rattle.bd_pager.specs.Pagers.{cache_room, spots_of, nodes_of, table_of, is_known, AreEntriesOf};
ghost use Rattle.bd_image.specs.Fresh.{first_super, fresh_nodes};
ghost use Rattle.bd_checkpoint.specs.Kept.{slots_held, IsOpenOn, AllStandFor, AreOfTree};
ghost use Rattle.bd_checkpoint.specs.Formatting.{IsNew};
ghost use Rattle.bd_checkpoint.specs.Recovering.{saved_of};
ghost use Rattle.bd_checkpoint.specs.Saving.{IsSaved};

use crate::first::{clear_supers, first_super};
use crate::lending::publish_by;
use bd_device::{Device, ImageFault};
use bd_files::put_record;
use bd_format::laws::images_are_decoded;
use bd_io::Failed;
use bd_log::Log;
use bd_names::Path;
use bd_node::Messages;
use bd_pager::{Pager, Refused};
use bd_records::Record;
use bd_super::Super;
use std::alloc::Global;

/// What a volume starts with on a new image.
#[derive(Drop)]
pub struct Formatted<D: Device> {
    /// The nodes of its checkpoint.
    pub pager: Pager<D>,
    /// The log, which is empty.
    pub log: Log,
    /// Its superblock.
    pub live: Super,
}

/// Makes an image of so many slots on a device, whatever it has: of the tree of `/` alone, and of
/// no commands. It takes both superblocks back, writes the root's node and the table, and publishes
/// the first superblock. Once it is Ok, an image that a crash after it leaves is what reads give,
/// and stands for that tree and a count of 0; this checkpoint is known of the device, and no node
/// is changed. At most `room` nodes will be cached, beside the root. Where it fails, it returns the
/// device, which may have no image any more. `DeviceFault` comes only where a call of the device
/// failed, which is the last one then. It is never `Damaged`.
pub fn format<D: Device>(
    alloc: Global,
    mut dev: D,
    slots: u32,
    room: usize,
) -> Result<Formatted<D>, Refused<D>>
    requires slots { IsSlotCount slots }
    requires size { D.block_count dev ≡ image_blocks slots }
    requires room { 1 ≤ room }
    ensures stands { IsSome (D.contents dev)
        → IfOk result (λ f. AllStandFor root_only 0 (left_now D.Device f.pager.dev)) }
    ensures only { IfOk result (λ f.
        IsOnly (D.contents f.pager.dev) (left_now D.Device f.pager.dev)) }
    ensures open { IfOk result (λ f.
        IsOpenOn D.Device f.pager.dev f.live (saved_of f.pager) f.log) }
    ensures live { IfOk result (λ f. f.live ≡ first_super slots f.pager.at) }
    ensures log { IfOk result (λ f. f.log ≡ fresh_log first_log_block 1) }
    ensures known { IsSome (D.contents dev) → IfOk result (λ f. is_known D.Device f.pager) }
    ensures told { IfOk result (λ f.
        IsSome (D.contents f.pager.dev) → is_known D.Device f.pager
        × IsSound (nodes_of D.Device f.pager) (table_of f.pager)) }
    ensures nodes { IsSome (D.contents dev)
        → IfOk result (λ f. nodes_of D.Device f.pager ≡ fresh_nodes) }
    ensures table { IfOk result (λ f. table_of f.pager ≡ grown new_table root_messages) }
    ensures tree { IsSome (D.contents dev) → IfOk result (λ f.
        AreOfTree (nodes_of D.Device f.pager) (table_of f.pager) root_only) }
    ensures entries { IfOk result (λ f.
        AreEntriesOf f.pager.saved.entries (spots_of f.pager)) }
    ensures place { IfOk result (λ f. IsTableAt slots f.pager.at f.pager.saved) }
    ensures spare { IfOk result (λ f.
        AreFreeSlots slots (slots_held (saved_of f.pager)) f.pager.spare) }
    ensures lent { IfOk result (λ f. f.pager.is_lent ≡ false) }
    ensures room { IfOk result (λ f. cache_room f.pager ≡ room) }
    ensures stays { IfOk result (λ f. Stays D.Device dev f.pager.dev) }
    ensures faults { IfOk result (λ f. D.fault_count f.pager.dev ≡ D.fault_count dev) }

    // The fault, and the device that is returned.
    ensures cause { IfErr result (λ refused.
        IsImageCause D.Device dev refused.device (λ _. ⊥) refused.fault) }
    ensures left { IfErr result (λ refused. Stays D.Device dev refused.device) }
{
    match clear_supers(&mut dev) {
        Ok(()) => {}
        Err(Failed) => {
            return Err(Refused {
                fault: ImageFault::DeviceFault,
                device: dev,
            });
        }
    }
    let mut pager = match new_pager(alloc, dev, slots, room) {
        Ok(pager) => pager,
        Err(refused) => return Err(refused),
    };
    let (live, log) = match first_checkpoint(alloc, &mut pager, slots) {
        Ok(made) => made,
        Err(fault) => {
            let device = pager.into_device();
            return Err(Refused { fault, device });
        }
    };
    Ok(Formatted { pager, log, live })
}

// A pager that has saved nothing, over a device of so many slots, whose tree is `/` alone. It makes
// no call of the device.
fn new_pager<D: Device>(
    alloc: Global,
    dev: D,
    slots: u32,
    room: usize,
) -> Result<Pager<D>, Refused<D>>
    requires { 1 ≤ room }
    ensures known { IsSome (D.contents dev) → IfOk result (is_known D.Device) }
    ensures nodes { IsSome (D.contents dev)
        → IfOk result (λ pager. nodes_of D.Device pager ≡ fresh_nodes) }
    ensures tree { IsSome (D.contents dev) → IfOk result (λ pager.
        AreOfTree (nodes_of D.Device pager) (table_of pager) root_only) }
    ensures table { IfOk result (λ pager. HasGrown new_table root_messages (table_of pager)) }
    ensures new { IfOk result (IsNew slots dev) }
    ensures room { IfOk result (λ pager. cache_room pager ≡ room) }
    ensures refused { IfErr result
        (λ refused. (refused.fault ≡ NoMemory) × (refused.device ≡ dev)) }
{
    let Ok(list) = root_list(alloc) else {
        return Err(Refused {
            fault: ImageFault::NoMemory,
            device: dev,
        });
    };
    let mut pager = match Pager::fresh(alloc, dev, slots, room) {
        Ok(pager) => pager,
        Err(refused) => return Err(refused),
    };
    let Ok(()) = pager.append(list) else {
        let device = pager.into_device();
        return Err(Refused {
            fault: ImageFault::NoMemory,
            device,
        });
    };
    Ok(pager)
}

// The messages that make `/`.
fn root_list(alloc: Global) -> Result<Messages, ImageFault>
    ensures { IfOk result (λ list. list ≡ root_messages) }
{
    let root = Path::root(alloc)?;
    let mut list = Vec::new(alloc);
    list.push(put_record(alloc, &root, Record::Dir(0))?)?;
    Ok(Messages::from_vec(list))
}

// Makes the first checkpoint of a device on which no superblock is committed, of all nodes of its
// pager.
fn first_checkpoint<D: Device>(
    alloc: Global,
    pager: &mut Pager<D>,
    slots: u32,
) -> Result<(Super, Log), ImageFault>
    requires slots { IsSlotCount slots }
    requires spare { length pager.old.spare ≡ slots }
    requires size { D.block_count pager.old.dev ≡ image_blocks slots }
    requires room { changed_of pager.old + table_length (kept_count (table_of pager.old))
        ≤ free_of pager.old }
    requires unlent { pager.old.is_lent ≡ false }
    requires none { IfSome (D.contents pager.old.dev) NoneIsCommitted }
    requires settled { AreSettled (D.contents pager.old.dev) (left_now D.Device pager.old.dev) }
    ensures stands { OnOk result ((tree : Tree) → is_known D.Device pager.old
        → AreOfTree (nodes_of D.Device pager.old) (table_of pager.old) tree
        → AllStandFor tree 0 (left_now D.Device pager.new.dev)) }
    ensures only { OnOk result
        (IsOnly (D.contents pager.new.dev) (left_now D.Device pager.new.dev)) }
    ensures open { IfOk result (λ made.
        IsOpenOn D.Device pager.new.dev made.0 (saved_of pager.new) made.1) }
    ensures live { IfOk result (λ made. made.0 ≡ first_super slots pager.new.at) }
    ensures log { IfOk result (λ made. made.1 ≡ fresh_log first_log_block 1) }
    ensures saved { OnOk result (IsSaved D.Device pager.old pager.new) }
    ensures cause { HasImageCause D.Device pager.old.dev pager.new.dev (λ _. ⊥) result }
    ensures stays { Stays D.Device pager.old.dev pager.new.dev }
{
    images_are_decoded();
    let table = pager.write_out()?;
    let first = first_super(slots, table);
    let log = Log::fresh(alloc, first.half.log_block(), first.epoch)?;
    publish_by(pager, &first)?;
    pager.mark_saved();
    Ok((first, log))
}
