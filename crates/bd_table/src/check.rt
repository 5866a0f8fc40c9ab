//! Whether what was read is a table.

ghost use Rattle.std.specs.Prelude.{◌≡◌, ◌↔◌, ◌<◌, ◌≤◌, ◌++◌, length, All, AllPairs, Any, IsTrue, IfOk};
ghost use Rattle.bd_limits.specs.Limits.{slot_limit};
ghost use Rattle.bd_slots.specs.Layout.{AreSlots, table_length};
ghost use Rattle.bd_table.specs.Tables.{AreTableEntries, AreFreeSlots, IsTableEntry, IsRoot, IsTableAt, slots_of};

use crate::{Table, TableEntry};
use bd_limits::{MAX_LEVEL, MAX_SLOTS};
use bd_slots::{SlotSet, table_length};
use std::alloc::{AllocError, Global};

impl Table {
    /// Whether it is a table that takes the slots `at` of an image of `slots` slots: its nodes, of
    /// which the root is one, come by rising ids below the next one, and have slots of the image
    /// that differ from those and from each other; `at` has as many slots as it takes.
    pub fn is_table(&self, alloc: Global, slots: u32, at: &[u32]) -> Result<bool, AllocError>
        requires { AreSlots slots at.now }
        ensures { IfOk result (λ is. IsTrue is ↔ IsTableAt slots at.now self.now) }
    {
        let (next_id, root) = (self.next_id, self.root);
        let entries = self.entries.as_slice();
        if !are_entries(next_id, root, entries) || table_length(entries.len()) != at.len() {
            return Ok(false);
        }
        slots_differ(alloc, slots, at, entries)
    }
}

// Whether they are the entries of a table with this next id and this root.
fn are_entries(next_id: u64, root: u64, entries: &[TableEntry]) -> bool
    ensures { IsTrue result ↔ AreTableEntries next_id root entries.now }
{
    !entries.is_empty()
        && entries.len() <= MAX_SLOTS as usize
        && are_below(next_id, entries)
        && are_rising(entries)
        && has_root(root, entries)
}

// Whether each entry is one by itself, with an id below the next one.
fn are_below(next_id: u64, entries: &[TableEntry]) -> bool
    ensures each { IsTrue result
        ↔ (All IsTableEntry entries.now × All (λ e. e.id < next_id) entries.now) }
{
    for entry in entries {
        if !is_entry(*entry) || entry.id >= next_id {
            return false;
        }
    }
    true
}

// Whether it is an entry by itself.
fn is_entry(entry: TableEntry) -> bool
    ensures { IsTrue result ↔ IsTableEntry entry }
{
    entry.id >= 1 && entry.refs >= 1 && entry.level <= MAX_LEVEL
}

// Whether the ids rise.
fn are_rising(entries: &[TableEntry]) -> bool
    ensures { IsTrue result ↔ AllPairs (λ e o. e.id < o.id) entries.now }
{
    for index in 1..entries.len() {
        if entries[index - 1].id >= entries[index].id {
            return false;
        }
    }
    true
}

// Whether one of them is the root.
fn has_root(root: u64, entries: &[TableEntry]) -> bool
    ensures { IsTrue result ↔ Any (IsRoot root) entries.now }
{
    entries
        .iter()
        .any(|entry| entry.id == root && entry.level >= 1)
}

// Whether the slots of the entries are slots of the image that differ from those of the table and
// from each other.
fn slots_differ(
    alloc: Global,
    slots: u32,
    at: &[u32],
    entries: &[TableEntry],
) -> Result<bool, AllocError>
    requires { AreSlots slots at.now }
    ensures { IfOk result (λ differ. IsTrue differ
        ↔ AreSlots slots (at.now ++ slots_of entries.now)) }
{
    let mut free = free_beside(alloc, slots, at)?;
    for entry in entries {
        if entry.slot >= slots || !free.is_free(entry.slot) {
            return Ok(false);
        }
        free.hold(entry.slot);
    }
    Ok(true)
}

// The slots of an image of this many that aren't taken.
fn free_beside(alloc: Global, slots: u32, taken: &[u32]) -> Result<SlotSet, AllocError>
    requires { AreSlots slots taken.now }
    ensures { IfOk result (λ free. AreFreeSlots slots taken.now free) }
{
    let mut free = SlotSet::new(alloc, slots)?;
    for slot in taken {
        free.hold(*slot);
    }
    Ok(free)
}
