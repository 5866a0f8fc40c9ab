//! Tables as bytes.

ghost use Rattle.std.specs.Prelude.{◌≡◌, ◌≢◌, ◌<◌, ◌≤◌, ◌*◌, ℕ, List, ◌++◌, ◌↔◌, length, All, IsTrue, IfOk, OnErr, IfSome, IfNone};
ghost use Rattle.std.specs.List.{flat_map};
ghost use Rattle.bd_limits.specs.Limits.{slot_size};
ghost use Rattle.bd_limits.specs.Places.{table_header_size, table_entry_size};
ghost use Rattle.bd_slots.specs.Layout.{AreSlots};
ghost use Rattle.bd_wire.specs.Reading.{Reads};
ghost use Rattle.bd_table.specs.Tables.{FitsTableEntry, FitsTableHead, IsTableIn, table_entry, table_head, table_magic};

use crate::{Table, TableEntry};
use bd_keys::Items;
use bd_wire::{Cursor, Short};
use std::alloc::{AllocError, Global};

// The first bytes of a table.
pub(crate) const TABLE_MAGIC: [u8; 8] = *b"BDTABLE1";

// What a table begins with.
#[derive(Clone, Copy)]
struct TableHead {
    count: u64,
    next_id: u64,
    root: u64,
}

impl Table {
    // The table that these bytes encode, which takes the slots `at` of an image of this many. It is
    // `None` exactly where they encode none.
    pub(crate) fn decode(
        alloc: Global,
        slots: u32,
        at: &[u32],
        bytes: &[u8],
    ) -> Result<Option<Table>, AllocError>
        requires differ { AreSlots slots at.now }
        requires whole { length bytes.now ≡ slot_size * length at.now }
        requires some { 1 ≤ length at.now }
        ensures { IfOk result (λ found. IsTableIn slots at.now bytes.now found) }
    {
        let mut cursor = Cursor::new(bytes);
        let head = match read_head(&mut cursor) {
            Ok(Some(head)) => head,
            Ok(None) => return Ok(None),
            Err(_) => return Ok(None),
        };
        let Some(entries) = read_entries(alloc, &mut cursor, head.count)? else {
            return Ok(None);
        };
        let found = Table {
            next_id: head.next_id,
            root: head.root,
            entries: Items::from_vec(entries),
        };
        let is_table = found.is_table(alloc, slots, at)?;
        if cursor.rest_is_zero() && is_table {
            Ok(Some(found))
        } else {
            Ok(None)
        }
    }
}

// Reads what a table begins with. It is `None` exactly where the first bytes are others.
#[tactic(auto, using(bd_wire::proofs::WritingLemmas::writing))]
fn read_head(cursor: &mut Cursor) -> Result<Option<TableHead>, Short>
    ensures found { IfOk result (λ found. IfSome found (λ head. Reads cursor.old cursor.new
        (table_head head.count head.next_id head.root))) }
    ensures fits { IfOk result (λ found. IfSome found
        (λ head. FitsTableHead head.count head.next_id head.root)) }
    ensures none { IfOk result (λ found. IfNone found ((count next_id root : ℕ) (rest : List ℕ)
        → cursor.old.left ≢ table_head count next_id root ++ rest)) }
    ensures short { OnErr result (length cursor.old.left < table_header_size) }
{
    let magic = cursor.bytes(TABLE_MAGIC.len())?;
    let head = TableHead {
        count: cursor.u64()?,
        next_id: cursor.u64()?,
        root: cursor.u64()?,
    };
    Ok(if is_magic(magic) { Some(head) } else { None })
}

// Whether these are the first bytes of a table.
fn is_magic(bytes: &[u8]) -> bool
    ensures { IsTrue result ↔ (bytes.now ≡ table_magic) }
{
    bytes == TABLE_MAGIC.as_slice()
}

// Reads this many entries. It is `None` exactly where fewer bytes are left.
fn read_entries(
    alloc: Global,
    cursor: &mut Cursor,
    count: u64,
) -> Result<Option<Vec<TableEntry>>, AllocError>
    ensures read { IfOk result (λ found. IfSome found (λ entries.
        Reads cursor.old cursor.new (flat_map table_entry entries.items))) }
    ensures count { IfOk result (λ found. IfSome found (λ entries. length entries.items ≡ count)) }
    ensures fits { IfOk result (λ found. IfSome found
        (λ entries. All FitsTableEntry entries.items)) }
    ensures short { IfOk result (λ found. IfNone found
        (length cursor.old.left < table_entry_size * count)) }
{
    let mut entries = Vec::new(alloc);
    for _ in 0..count {
        match read_entry(cursor) {
            Ok(entry) => entries.push(entry)?,
            Err(_) => return Ok(None),
        }
    }
    Ok(Some(entries))
}

// Reads an entry.
#[tactic(auto, using(bd_wire::proofs::WritingLemmas::writing))]
fn read_entry(cursor: &mut Cursor) -> Result<TableEntry, Short>
    ensures read { IfOk result (λ entry. Reads cursor.old cursor.new (table_entry entry)) }
    ensures fits { IfOk result FitsTableEntry }
    ensures short { OnErr result (length cursor.old.left < table_entry_size) }
{
    Ok(TableEntry {
        id: cursor.u64()?,
        refs: cursor.u64()?,
        slot: cursor.u32()?,
        level: cursor.u32()?,
    })
}
