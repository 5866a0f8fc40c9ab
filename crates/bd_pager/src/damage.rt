//! Which block is damaged where nodes aren't sound.

ghost use Rattle.std.specs.Prelude.{◌≡◌, List, IfOk, IfSome, slice_index};
ghost use Rattle.std.specs.Bool.{MatchBool};
ghost use Rattle.bd_device.specs.Device.{OnlyReads, HasImageCause};
ghost use Rattle.bd_format.specs.Slots.{HasNoGoodNode};
ghost use Rattle.bd_table.specs.Entries.{level_at};
ghost use Rattle.bd_table.specs.declared.table.TableEntry.{TableEntry};
ghost use Rattle.bd_tails.specs.Tails.{AreTails};
ghost use Rattle.bd_pager.specs.Damage.{AreSavedEntries, HasGoodNode, IsFirstDamaged};
ghost use Rattle.bd_pager.specs.Entries.{AreSavedSpots};
ghost use Rattle.bd_pager.specs.Places.{spots_in};

use crate::entries::saved_spots;
use crate::naming::names_lower;
use crate::place::Spot;
use crate::read_node;
use bd_device::{Device, ImageFault};
use bd_format::laws::images_are_of_one_node;
use bd_limits::SLOT_SIZE;
use bd_slots::slot_block;
use bd_table::TableEntry;
use bd_tails::Tails;
use std::alloc::Global;
use std::collections::HashMap;

/// The block that is damaged where the nodes of a checkpoint aren't sound: the first one of the
/// first slot, by rising ids, without a well-formed node of its entry's level that names nodes of
/// the table of lower levels alone; or where there is no such slot, and so the counts are wrong,
/// the first one of the table, which has the slots `at`. It reads one slot after the other, by way
/// of `bytes`. `DeviceFault` comes only where a call of the device failed, which is the last one
/// then.
#[tactic(auto, using(bd_device::proofs::Calls::calls))]
pub fn first_damaged<D: Device>(
    alloc: Global,
    dev: &mut D,
    entries: &[TableEntry],
    at: &[u32],
    bytes: &mut [u8; SLOT_SIZE],
    tails: &mut Tails,
) -> Result<u64, ImageFault>
    requires entries { AreSavedEntries entries.now }
    requires tails { AreTails (D.contents dev.old) tails.old }
    ensures first { IfOk result (IsFirstDamaged (D.contents dev.old) entries.now at.now) }
    ensures tails { AreTails (D.contents dev.new) tails.new }
    ensures reads { OnlyReads D.Device dev.old dev.new }
    ensures cause { HasImageCause D.Device dev.old dev.new (λ _. ⊥) result }
{
    let saved = saved_spots(alloc, entries)?;
    for entry in entries {
        if !has_good_node(alloc, dev, &saved, *entry, bytes, tails)? {
            return Ok(slot_block(entry.slot));
        }
    }
    Ok(slot_block(first_slot(at)))
}

// Whether the slot of an entry has a node of its level that names nodes of lower levels alone,
// where these are the nodes of all entries.
#[tactic(auto, using(bd_device::proofs::Calls::calls))]
fn has_good_node<D: Device>(
    alloc: Global,
    dev: &mut D,
    saved: &HashMap<u64, Spot>,
    entry: TableEntry,
    bytes: &mut [u8; SLOT_SIZE],
    tails: &mut Tails,
) -> Result<bool, ImageFault>
    requires { AreTails (D.contents dev.old) tails.old }
    ensures good { (entries : List TableEntry) → AreSavedEntries entries
        → AreSavedSpots entries (spots_in saved.now) → IfSome (D.contents dev.old) (λ image.
        IfOk result (λ is. MatchBool is (HasGoodNode image entries entry)
        (HasNoGoodNode image (level_at entries) entry.slot entry.level))) }
    ensures tails { AreTails (D.contents dev.new) tails.new }
    ensures reads { OnlyReads D.Device dev.old dev.new }
    ensures cause { HasImageCause D.Device dev.old dev.new (λ _. ⊥) result }
{
    images_are_of_one_node();
    match read_node(alloc, dev, entry.slot, entry.level, bytes, tails) {
        Ok(node) => Ok(names_lower(saved, &node)),
        Err(ImageFault::Damaged { .. }) => Ok(false),
        Err(ImageFault::DeviceFault) => Err(ImageFault::DeviceFault),
        Err(ImageFault::NoMemory) => Err(ImageFault::NoMemory),
    }
}

// The first of these slots, and 0 where there is none.
fn first_slot(at: &[u32]) -> u32
    ensures { result ≡ slice_index at.now 0 }
{
    at.first().copied().unwrap_or(0)
}
