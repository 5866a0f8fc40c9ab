//! A table is written to its slots.

ghost use Rattle.std.specs.Prelude.{◌≡◌, ◌<◌, ◌≤◌, ◌*◌, length, slice_index_or, IfSome, OnOk};
ghost use Rattle.bd_limits.specs.Limits.{block_size, slot_blocks, table_slot_limit};
ghost use Rattle.bd_slots.specs.Layout.{IsTablePlace, image_blocks};
ghost use Rattle.bd_device.specs.Calls.{faults_after};
ghost use Rattle.bd_device.specs.Changes.{StaysBut, IsBeforeBut};
ghost use Rattle.bd_device.specs.Device.{left_now, Goes, Stays, FailsLast};
ghost use Rattle.bd_wire.specs.Text.{zeros};
ghost use Rattle.bd_wire.specs.Writing.{Puts, room};
ghost use Rattle.bd_table.specs.Image.{HoldsTable, IsOfTable};
ghost use Rattle.bd_table.specs.Tables.{IsTableAt};
ghost use Rattle.bd_table.specs.Words.{entry_word, entry_words, part, word_at, word_size};

use crate::codec::TABLE_MAGIC;
use crate::reading::{BLOCKS, table_block};
use crate::{Table, TableEntry};
use bd_device::{BLOCK_SIZE, Device};
use bd_io::Failed;
use bd_limits::{TABLE_ENTRY_SIZE, TABLE_HEADER_SIZE};
use bd_wire::Out;

// The bytes of a word.
const WORD_SIZE: usize = 8;

// The words of a block.
const WORDS: usize = BLOCK_SIZE / WORD_SIZE;

// The words of a table before its entries.
const HEADER_WORDS: usize = TABLE_HEADER_SIZE / WORD_SIZE;

// The words of an entry.
const ENTRY_WORDS: usize = TABLE_ENTRY_SIZE / WORD_SIZE;

/// Writes a table to the slots `at` of an image of `slots` slots, without a barrier: until one
/// succeeds a crash may leave any bytes there. It takes no memory. `Failed` comes only where a
/// call of the device failed, which is the last one then.
#[tactic(auto, using(bd_device::proofs::Calls::calls))]
pub fn write<D: Device>(dev: &mut D, slots: u32, at: &[u32], table: &Table) -> Result<(), Failed>
    requires place { IsTablePlace slots at.now }
    requires table { IsTableAt slots at.now table.now }
    requires size { D.block_count dev.old ≡ image_blocks slots }
    ensures written { OnOk result (IfSome (D.contents dev.new)
        (λ image. HoldsTable image slots at.now table.now)) }
    ensures elsewhere { StaysBut (IsOfTable at.now) (D.contents dev.old) (D.contents dev.new) }
    ensures time { Goes D.Device dev.old dev.new
        (IsBeforeBut (IsOfTable at.now) (left_now D.Device dev.old)) }
    ensures cause { FailsLast D.Device dev.old dev.new result }
    ensures write_faults { D.write_fault_count dev.new
        ≡ faults_after (D.write_fault_count dev.old) result }
    ensures stays { Stays D.Device dev.old dev.new }
{
    for k in 0..BLOCKS * at.len() {
        dev.write(table_block(at, k), &table.part(at.len(), k))?;
    }
    Ok(())
}

impl Table {
    // The k-th block of its encoding in this many slots.
    #[tactic(auto, using(crate::proofs::WordLemmas::filled))]
    fn part(&self, taken: usize, k: usize) -> [u8; BLOCK_SIZE]
        requires inside { k < slot_blocks * taken }
        requires few { taken ≤ table_slot_limit }
        ensures { result ≡ part taken self.now k }
    {
        let mut block = [0; BLOCK_SIZE];
        let mut out = Out::new(&mut block);
        self.put_part(&mut out, taken, k);
        block
    }

    // Writes the k-th block of its encoding.
    fn put_part(&self, out: &mut Out, taken: usize, k: usize)
        requires inside { k < slot_blocks * taken }
        requires few { taken ≤ table_slot_limit }
        requires room { length (room out.old) ≡ block_size }
        ensures { Puts out.old out.new (part taken self.now k) }
    {
        for word in 0..WORDS {
            self.put_word(out, WORDS * k + word);
        }
    }

    // Writes one of its words.
    fn put_word(&self, out: &mut Out, index: usize)
        requires { word_size ≤ length (room out.old) }
        ensures { Puts out.old out.new (word_at self.now index) }
    {
        match index {
            0 => out.put_bytes(&TABLE_MAGIC),
            1 => out.put_u64(self.entries.as_slice().len() as u64),
            2 => out.put_u64(self.next_id),
            3 => out.put_u64(self.root),
            _ => put_entry_word(out, self.entries.as_slice(), index - HEADER_WORDS),
        }
    }
}

// Writes one of the words of entries.
fn put_entry_word(out: &mut Out, entries: &[TableEntry], index: usize)
    requires { word_size ≤ length (room out.old) }
    ensures { Puts out.old out.new (entry_word entries.now index) }
{
    match entries.get(index / ENTRY_WORDS) {
        None => out.put_bytes(&[0; WORD_SIZE]),
        Some(entry) => put_word_of(out, *entry, index % ENTRY_WORDS),
    }
}

// Writes one of the three words of an entry.
#[tactic(auto, using(bd_wire::proofs::WritingLemmas::writing))]
fn put_word_of(out: &mut Out, entry: TableEntry, index: usize)
    requires room { word_size ≤ length (room out.old) }
    requires index { index < length (entry_words entry) }
    ensures { Puts out.old out.new (slice_index_or (entry_words entry) index (zeros word_size)) }
{
    match index {
        0 => out.put_u64(entry.id),
        1 => out.put_u64(entry.refs),
        _ => {
            out.put_u32(entry.slot);
            out.put_u32(entry.level);
        }
    }
}
