//! Slots that are read and written.

ghost use Rattle.std.specs.Prelude.{◌≡◌, ◌≢◌, ◌+◌, ◌-◌, ◌<◌, ◌≤◌, ◌++◌, ℕ, IfSome, OnOk, length, take};
ghost use Rattle.bd_wire.specs.Text.{zeros};
ghost use Rattle.bd_limits.specs.Limits.{slot_blocks};
ghost use Rattle.bd_slots.specs.Layout.{slot_block};
ghost use Rattle.bd_device.specs.Calls.{faults_after};
ghost use Rattle.bd_device.specs.Changes.{StaysBut, IsBeforeBut};
ghost use Rattle.bd_device.specs.Device.{left_now, Goes, OnlyReads, Stays, FailsLast};
ghost use Rattle.bd_tails.specs.Tails.{slot_bytes, used_of, AreTails, AreUsed, IsOfSlot};

use crate::tails::{BLOCKS, Tails, used_blocks};
use bd_device::{Device, read_blocks, write_blocks};
use bd_io::Failed;
use bd_limits::{BLOCK_SIZE, SLOT_SIZE};
use bd_slots::slot_block;

/// Reads a slot into `bytes`, but for the zeros that it is known to end in. Where it isn't known to
/// end in zeros it learns how much of it is used. `Failed` comes only where a call of the device failed, which is the last one then;
/// `bytes` then holds any bytes.
#[tactic(auto, using(bd_device::proofs::Calls::calls))]
pub fn read_slot<D: Device>(
    dev: &mut D,
    slot: u32,
    bytes: &mut [u8; SLOT_SIZE],
    tails: &mut Tails,
) -> Result<(), Failed>
    requires room { slot_block slot + slot_blocks ≤ D.block_count dev.old }
    requires tails { AreTails (D.contents dev.old) tails.old }
    ensures bytes { OnOk result (IfSome (D.contents dev.old)
        (λ image. slot_bytes image slot ≡ bytes.new)) }
    ensures tails { AreTails (D.contents dev.new) tails.new }
    ensures learnt { OnOk result (used_of tails.old slot ≡ slot_blocks
        → slot < length tails.old.used.items → AreUsed bytes.new (used_of tails.new slot)) }
    ensures kept { used_of tails.old slot < slot_blocks → tails.new ≡ tails.old }
    ensures others { (other : ℕ) → other ≢ slot
        → used_of tails.new other ≡ used_of tails.old other }
    ensures reads { OnlyReads D.Device dev.old dev.new }
    ensures cause { FailsLast D.Device dev.old dev.new result }
{
    let used = tails.used(slot);
    read_blocks(dev, slot_block(slot), bytes, used)?;
    clear_from(bytes, used * BLOCK_SIZE);
    if used == BLOCKS {
        tails.learn(dev, slot, used_blocks(bytes));
    }
    Ok(())
}

/// Writes a slot, but for the zeros that it is known to end in and that it is to end in, and learns
/// how much of it is used. There is no barrier: until one succeeds a crash may leave any bytes
/// there. `Failed` comes only where a call of the device failed, which is the last one then.
#[tactic(auto, using(bd_device::proofs::Calls::calls))]
pub fn write_slot<D: Device>(
    dev: &mut D,
    slot: u32,
    bytes: &[u8; SLOT_SIZE],
    tails: &mut Tails,
) -> Result<(), Failed>
    requires room { slot_block slot + slot_blocks ≤ D.block_count dev.old }
    requires tails { AreTails (D.contents dev.old) tails.old }
    ensures written { OnOk result (IfSome (D.contents dev.new)
        (λ image. slot_bytes image slot ≡ bytes.now)) }
    ensures tails { AreTails (D.contents dev.new) tails.new }
    ensures learnt { OnOk result (slot < length tails.old.used.items
        → AreUsed bytes.now (used_of tails.new slot)) }
    ensures others { (other : ℕ) → other ≢ slot
        → used_of tails.new other ≡ used_of tails.old other }
    ensures elsewhere { StaysBut (IsOfSlot slot) (D.contents dev.old) (D.contents dev.new) }
    ensures time { Goes D.Device dev.old dev.new
        (IsBeforeBut (IsOfSlot slot) (left_now D.Device dev.old)) }
    ensures stays { Stays D.Device dev.old dev.new }
    ensures cause { FailsLast D.Device dev.old dev.new result }
    ensures write_faults { D.write_fault_count dev.new
        ≡ faults_after (D.write_fault_count dev.old) result }
{
    let needed = used_blocks(bytes);
    let used = needed.max(tails.used(slot));
    tails.note(slot, used);
    write_blocks(dev, slot_block(slot), bytes, used)?;
    tails.learn(dev, slot, needed);
    Ok(())
}

// Puts zeros after so many first bytes.
fn clear_from(bytes: &mut [u8], from: usize)
    requires { from ≤ length bytes.old }
    ensures { bytes.new ≡ take from bytes.old ++ zeros (length bytes.old - from) }
{
    bytes[from..].fill(0);
}
