//! What is written for the next checkpoint beside its nodes.

ghost use Rattle.std.specs.Prelude.{◌≡◌, ◌≤◌, ◌++◌, ℕ, List, Bool, [], false, length, All, IfOk};
ghost use Rattle.std.specs.Option.{option_copied};
ghost use Rattle.bd_slots.specs.Layout.{table_length, AreSlots};
ghost use Rattle.bd_slots.specs.Slots.{IsFree, free_count};
ghost use Rattle.bd_table.specs.Tables.{FitsTableEntry};
ghost use Rattle.bd_pager.specs.Counting.{is_in_memory, AreUnused};
ghost use Rattle.bd_pager.specs.Drafts.{slot_or_first, entry_of, entries_of, AreKeptIds, IsDraftOf, IsFilled};
ghost use Rattle.bd_pager.specs.Places.{slot_at, spots_in};

use crate::entries::hold_taken;
use crate::place::{Place, Spot};
use crate::written::Written;
use bd_keys::Items;
use bd_slots::SlotSet;
use bd_table::{Table, TableEntry};
use std::alloc::{AllocError, Global};
use std::collections::HashMap;

/// The memory for what is written for the next checkpoint beside its nodes, which is taken before
/// anything is written. It has no invariant.
#[derive(Drop)]
pub struct Draft {
    /// The ids of the kept nodes, which rise.
    pub ids: Vec<u64>,
    /// Their entries in the table.
    pub entries: Vec<TableEntry>,
    /// The table's slots.
    pub at: Vec<u32>,
    /// The same ones once more.
    pub copy: Vec<u32>,
    /// The slots that neither it nor the nodes have.
    pub spare: SlotSet,
    /// The same ones once more.
    pub free: SlotSet,
}

impl Draft {
    /// The ids of kept nodes, and memory for all else, where the table takes this many of so many
    /// slots.
    pub fn new(
        alloc: Global,
        spots: &HashMap<u64, Spot>,
        taken: usize,
        slots: u32,
    ) -> Result<Draft, AllocError>
        requires { taken ≡ table_length (length spots.now.entries) }
        ensures draft { IfOk result (IsDraftOf slots (spots_in spots.now)) }
        ensures kept { IfOk result
            (λ draft. length draft.ids.items ≡ length spots.now.entries) }
    {
        let ids = kept_ids(alloc, spots)?;
        Ok(Draft {
            entries: vec![in alloc; new_entry(0, 0, 0, 0); ids.len()]?,
            at: vec![in alloc; 0; taken]?,
            copy: vec![in alloc; 0; taken]?,
            spare: SlotSet::new(alloc, slots)?,
            free: SlotSet::new(alloc, slots)?,
            ids,
        })
    }

    /// The table of these nodes, each of which is in its slot, with the first of the free slots as
    /// its own, and what is to be known of slots then; and the table's slots once more.
    pub fn filled(
        self,
        spots: &HashMap<u64, Spot>,
        free: &SlotSet,
        root: u64,
        next: u64,
    ) -> (Written, Items<u32>)
        requires draft { IsDraftOf (length free.now) (spots_in spots.now) self }
        requires unused { (spare : List Bool) × AreUnused spare free.now (spots_in spots.now) }
        requires stored { (id : ℕ) → is_in_memory (spots_in spots.now id) ≡ false }
        requires room { length self.at.items ≤ free_count free.now }
        ensures filled { IsFilled free.now (spots_in spots.now) self.ids.items root next result.0 }
        ensures copy { result.1 ≡ result.0.at }
    {
        let Draft {
            ids,
            mut entries,
            mut at,
            mut copy,
            mut spare,
            free: mut rest,
        } = self;
        fill_entries(&mut entries, &ids, spots);
        pick_free(&mut at, free);
        copy.copy_from_slice(&at);
        hold_taken(&mut spare, &at, &entries);
        hold_taken(&mut rest, &at, &entries);
        let written = Written {
            table: Table {
                next_id: next,
                root,
                entries: Items::from_vec(entries),
            },
            at: Items::from_vec(at),
            spare,
            free: rest,
        };
        (written, Items::from_vec(copy))
    }
}

// The ids of kept nodes, which rise.
fn kept_ids(alloc: Global, spots: &HashMap<u64, Spot>) -> Result<Vec<u64>, AllocError>
    ensures ids { IfOk result (λ ids. AreKeptIds ids.items (spots_in spots.now)) }
    ensures kept { IfOk result (λ ids. length ids.items ≡ length spots.now.entries) }
{
    let mut ids: Vec<u64> = spots.keys().copied().collect(alloc)?;
    ids.sort_unstable();
    Ok(ids)
}

// Makes the entries those of these nodes.
fn fill_entries(entries: &mut [TableEntry], ids: &[u64], spots: &HashMap<u64, Spot>)
    requires { length entries.old ≡ length ids.now }
    ensures entries { entries.new ≡ entries_of (spots_in spots.now) ids.now }
    ensures fits { All FitsTableEntry entries.new }
{
    for index in 0..ids.len() {
        let id = ids[index];
        entries[index] = entry_of(id, spots.get(&id));
    }
}

// What a table says of a node in a slot.
fn entry_of(id: u64, spot: Option<&Spot>) -> TableEntry
    ensures entry { result ≡ entry_of id (option_copied spot.entry) }
    ensures fits { FitsTableEntry result }
{
    match spot {
        Some(spot) => new_entry(id, spot.refs, slot_or_first(&spot.place), spot.level),
        None => new_entry(id, 0, 0, 0),
    }
}

// An entry of these numbers.
fn new_entry(id: u64, refs: u64, slot: u32, level: u32) -> TableEntry
    ensures entry { result ≡ record { id = id; refs = refs; slot = slot; level = level } }
    ensures fits { FitsTableEntry result }
{
    TableEntry {
        id,
        refs,
        slot,
        level,
    }
}

// The slot of a place, or 0 where it has none.
fn slot_or_first(place: &Place) -> u32
    ensures { result ≡ slot_or_first (slot_at place.now) }
{
    match place {
        Place::Memory { slot, .. } => slot.unwrap_or(0),
        Place::Slot { slot, .. } => *slot,
    }
}

// Makes all of these slots free ones that differ, where there are enough.
fn pick_free(at: &mut [u32], free: &SlotSet)
    requires { length at.old ≤ free_count free.now }
    ensures length { length at.new ≡ length at.old }
    ensures slots { AreSlots (length free.now) at.new }
    ensures free { All (IsFree free.now) at.new }
{
    let mut picked = 0;
    for slot in 0..free.count() {
        if picked < at.len() && free.is_free(slot) {
            at[picked] = slot;
            picked += 1;
        }
    }
}
