//! What a checkpoint's table says of slots and of nodes.

ghost use Rattle.std.specs.Prelude.{◌≡◌, ◌<◌, ◌++◌, [], length, All, AllPairs, Any, Contains, IfOk};
ghost use Rattle.bd_slots.specs.Layout.{AreSlots};
ghost use Rattle.bd_table.specs.Tables.{AreFreeSlots, IsRoot, slots_of};
ghost use Rattle.bd_pager.specs.Places.{spots_in};
ghost use Rattle.bd_pager.specs.Entries.{AreSavedSpots, saved_spot};

use crate::place::{Place, Spot};
use bd_slots::SlotSet;
use bd_table::TableEntry;
use std::alloc::{AllocError, Global};
use std::collections::HashMap;

/// The slots, of so many, that neither a table in the slots `at` nor its nodes take.
pub fn spare_beside(
    alloc: Global,
    slots: u32,
    at: &[u32],
    entries: &[TableEntry],
) -> Result<SlotSet, AllocError>
    requires { AreSlots slots (at.now ++ slots_of entries.now) }
    ensures { IfOk result (AreFreeSlots slots (at.now ++ slots_of entries.now)) }
{
    let mut spare = SlotSet::new(alloc, slots)?;
    hold_taken(&mut spare, at, entries);
    Ok(spare)
}

/// Takes the slots of a table and of its nodes, where all slots are free.
pub fn hold_taken(free: &mut SlotSet, at: &[u32], entries: &[TableEntry])
    requires all { AreFreeSlots (length free.old) [] free.old }
    requires differ { AreSlots (length free.old) (at.now ++ slots_of entries.now) }
    ensures { AreFreeSlots (length free.old) (at.now ++ slots_of entries.now) free.new }
{
    hold_all(free, at);
    for entry in entries {
        free.hold(entry.slot);
    }
}

// Takes these slots, where all slots are free.
fn hold_all(free: &mut SlotSet, taken: &[u32])
    requires all { AreFreeSlots (length free.old) [] free.old }
    requires differ { AreSlots (length free.old) taken.now }
    ensures { AreFreeSlots (length free.old) taken.now free.new }
{
    for slot in taken {
        free.hold(*slot);
    }
}

/// The nodes of a table, each in its slot.
pub fn saved_spots(alloc: Global, entries: &[TableEntry]) -> Result<HashMap<u64, Spot>, AllocError>
    requires { AllPairs (λ e o. e.id < o.id) entries.now }
    ensures { IfOk result (λ spots. AreSavedSpots entries.now (spots_in spots)) }
{
    let mut spots = HashMap::new(alloc);
    for entry in entries {
        spots.insert(entry.id, saved_spot(*entry))?;
    }
    Ok(spots)
}

// A node of a table, in its slot.
fn saved_spot(entry: TableEntry) -> Spot
    ensures { result ≡ saved_spot entry }
{
    Spot {
        refs: entry.refs,
        level: entry.level,
        place: Place::Slot {
            slot: entry.slot,
            node: None,
        },
    }
}

/// The root's entry.
pub fn root_entry(entries: &[TableEntry], root: u64) -> TableEntry
    requires { Any (IsRoot root) entries.now }
    ensures root { IsRoot root result }
    ensures among { Contains entries.now result }
{
    for entry in entries {
        if entry.id == root && entry.level >= 1 {
            return *entry;
        }
    }
    unreachable!()
}
