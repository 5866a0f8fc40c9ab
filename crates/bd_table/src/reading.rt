//! A table is read from its slots.

ghost use Rattle.std.specs.Prelude.{◌≡◌, ◌<◌, ◌≤◌, ◌+◌, ◌*◌, ◌++◌, ℕ, [], length, slice_index, slice_index_or, IfOk, IfSome, OnOk};
ghost use Rattle.bd_limits.specs.Limits.{slot_size, block_size, table_slot_limit};
ghost use Rattle.bd_slots.specs.Layout.{IsTablePlace, image_blocks, slot_block};
ghost use Rattle.bd_device.specs.Device.{OnlyReads, HasImageCause};
ghost use Rattle.bd_table.specs.Image.{HasNoTable, HoldsTable, block_total, bytes_in, table_block};
ghost use Rattle.bd_table.specs.Tables.{IsTableAt};

use crate::Table;
use bd_device::{Device, ImageFault, read_block};
use bd_limits::{SLOT_BLOCKS, SLOT_SIZE};
use bd_slots::slot_block;
use std::alloc::Global;

// The blocks of a slot.
pub(crate) const BLOCKS: usize = SLOT_BLOCKS as usize;

/// Reads the table that takes the slots `at` of an image of `slots` slots. `DeviceFault` comes only
/// where a call of the device failed, which is the last one then. `Damaged` comes exactly where the
/// slots have no table, and names the first block of the first of them.
#[tactic(auto, using(bd_device::proofs::Calls::calls))]
pub fn read<D: Device>(
    alloc: Global,
    dev: &mut D,
    slots: u32,
    at: &[u32],
) -> Result<Table, ImageFault>
    requires place { IsTablePlace slots at.now }
    requires size { D.block_count dev.old ≡ image_blocks slots }
    ensures held { IfSome (D.contents dev.old)
        (λ image. IfOk result (HoldsTable image slots at.now)) }
    ensures cause { HasImageCause D.Device dev.old dev.new
        (λ b. (b ≡ slot_block (slice_index at.now 0))
        × IfSome (D.contents dev.old) (λ image. HasNoTable image slots at.now)) result }

    // Whatever the contents.
    ensures table { IfOk result (IsTableAt slots at.now) }
    ensures reads { OnlyReads D.Device dev.old dev.new }
{
    let bytes = read_slots(alloc, dev, at)?;
    match Table::decode(alloc, slots, at, bytes.as_slice())? {
        Some(table) => Ok(table),
        None => Err(ImageFault::Damaged {
            block: slot_block(at[0]),
        }),
    }
}

// Reads the bytes of these slots.
#[tactic(auto, using(bd_device::proofs::Calls::calls))]
fn read_slots<D: Device>(alloc: Global, dev: &mut D, at: &[u32]) -> Result<Vec<u8>, ImageFault>
    requires inside { (k : ℕ) → k < block_total at.now
        → table_block at.now k < D.block_count dev.old }
    requires few { length at.now ≤ table_slot_limit }
    ensures bytes { IfSome (D.contents dev.old)
        (λ image. IfOk result (λ bytes. bytes.items ≡ bytes_in image at.now)) }
    ensures length { IfOk result (λ bytes. length bytes.items ≡ slot_size * length at.now) }
    ensures cause { HasImageCause D.Device dev.old dev.new (λ _. ⊥) result }
    ensures reads { OnlyReads D.Device dev.old dev.new }
{
    let mut bytes = Vec::with_capacity(alloc, SLOT_SIZE * at.len())?;
    for k in 0..BLOCKS * at.len() {
        append_block(dev, table_block(at, k), &mut bytes)?;
    }
    Ok(bytes)
}

// Reads a block, and puts its bytes after others.
#[tactic(auto, using(bd_device::proofs::Calls::calls))]
fn append_block<D: Device>(dev: &mut D, b: u64, bytes: &mut Vec<u8>) -> Result<(), ImageFault>
    requires { b < D.block_count dev.old }
    ensures bytes { OnOk result (IfSome (D.contents dev.old)
        (λ image. bytes.new.items ≡ bytes.old.items ++ slice_index_or image b [])) }
    ensures length { OnOk result
        (length bytes.new.items ≡ length bytes.old.items + block_size) }
    ensures cause { HasImageCause D.Device dev.old dev.new (λ _. ⊥) result }
    ensures reads { OnlyReads D.Device dev.old dev.new }
{
    let block = read_block(dev, b)?;
    bytes.extend_from_slice(&block)?;
    Ok(())
}

// The block that has the k-th part of a table in these slots.
pub(crate) fn table_block(at: &[u32], k: usize) -> u64
    requires { k < block_total at.now }
    ensures { result ≡ table_block at.now k }
{
    slot_block(at[k / BLOCKS]) + (k % BLOCKS) as u64
}
