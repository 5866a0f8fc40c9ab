//! Slots whose zeros aren't written or read again.

ghost use Rattle.bd_tails.specs.Tails.{AreTails};

use bd_device::{Device, MemDevice};
use bd_limits::{BLOCK_SIZE, SLOT_SIZE};
use bd_slots::{image_blocks, slot_block};
use bd_tails::{Tails, read_slot, used_blocks, write_slot};
use std::process::Abort;
use std::test::Fail;

/// The slots of the device, and the one that is used.
const SLOTS: u32 = 3;

const SLOT: u32 = 1;

/// So many blocks of one byte, and then zeros.
fn filled(blocks: usize) -> [u8; SLOT_SIZE] {
    let mut bytes = [0; SLOT_SIZE];
    let end = blocks.min(16) * BLOCK_SIZE;
    bytes[..end].fill(7);
    bytes
}

/// How many calls it takes to write so many blocks, and then zeros.
fn calls_of_write<D: Device>(
    rt: &impl Abort,
    device: &mut D,
    tails: &mut Tails,
    blocks: usize,
) -> u64
    requires { AreTails (D.contents device.old) tails.old }
    ensures { AreTails (D.contents device.new) tails.new }
{
    let bytes = filled(blocks);
    assert!(rt; slot_block(SLOT) + 16 <= device.blocks());
    let before = device.calls();
    assert_eq!(rt; write_slot(device, SLOT, &bytes, tails), Ok(()));
    device.calls().saturating_sub(before)
}

/// How many calls it takes to read that, and whether it is what there is.
fn calls_of_read<D: Device>(
    rt: &impl Abort,
    device: &mut D,
    tails: &mut Tails,
    blocks: usize,
) -> u64
    requires { AreTails (D.contents device.old) tails.old }
    ensures { AreTails (D.contents device.new) tails.new }
{
    let mut found = [1; SLOT_SIZE];
    assert!(rt; slot_block(SLOT) + 16 <= device.blocks());
    let before = device.calls();
    assert_eq!(rt; read_slot(device, SLOT, &mut found, tails), Ok(()));
    assert!(rt; found == filled(blocks), "{blocks}");
    device.calls().saturating_sub(before)
}

/// Writes so many blocks in turn, and returns how many calls each of these writes takes.
fn calls_of_writes<D: Device>(
    rt: &impl Abort,
    device: &mut D,
    tails: &mut Tails,
    writes: [usize; 6],
) -> [u64; 6]
    requires { AreTails (D.contents device.old) tails.old }
    ensures { AreTails (D.contents device.new) tails.new }
{
    let [a, b, c, d, e, f] = writes;
    [
        calls_of_write(rt, device, tails, a),
        calls_of_write(rt, device, tails, b),
        calls_of_write(rt, device, tails, c),
        calls_of_write(rt, device, tails, d),
        calls_of_write(rt, device, tails, e),
        calls_of_write(rt, device, tails, f),
    ]
}

// All 16 blocks are written at first, and then those that had other bytes than zeros, or get them.
#[test]
#[tactic(auto, using(bd_tails::proofs::Known::none_known))]
fn zeros_are_written_once(rt: HostRuntime) -> Result<(), Fail> {
    let mut device = MemDevice::new(rt.alloc(), image_blocks(SLOTS), 64, &[])?;
    let mut tails = Tails::new(rt.alloc(), SLOTS)?;
    let calls = calls_of_writes(&rt, &mut device, &mut tails, [3, 1, 2, 0, 0, 15]);
    assert_eq!(rt; calls, [16, 3, 2, 2, 0, 15]);
    assert_eq!(rt; tails.used(SLOT), 15);
    tails.forget();
    assert_eq!(rt; tails.used(SLOT), 16);
    Ok(())
}

// All 16 blocks are read at first, and then those that have other bytes than zeros.
#[test]
#[tactic(auto, using(bd_tails::proofs::Known::none_known))]
fn zeros_are_read_once(rt: HostRuntime) -> Result<(), Fail> {
    let mut device = MemDevice::new(rt.alloc(), image_blocks(SLOTS), 64, &[])?;
    let mut written = Tails::new(rt.alloc(), SLOTS)?;
    assert_eq!(rt; calls_of_write(&rt, &mut device, &mut written, 5), 16);
    assert_eq!(rt; calls_of_read(&rt, &mut device, &mut written, 5), 5);
    let mut tails = Tails::new(rt.alloc(), SLOTS)?;
    assert_eq!(rt; calls_of_read(&rt, &mut device, &mut tails, 5), 16);
    assert_eq!(rt; calls_of_read(&rt, &mut device, &mut tails, 5), 5);
    tails.forget_at(&[0, 2]);
    assert_eq!(rt; tails.used(SLOT), 5);
    tails.forget_at(&[2, SLOT]);
    assert_eq!(rt; tails.used(SLOT), 16);
    Ok(())
}

#[test]
fn blocks_up_to_the_last_byte_are_used(rt: HostRuntime) -> Result<(), Fail> {
    let mut bytes = [0; SLOT_SIZE];
    assert_eq!(rt; used_blocks(&bytes), 0);
    for (place, byte, blocks) in [
        (0, 1, 1),
        (4_096, 255, 2),
        (65_535, 1, 16),
        (65_535, 0, 2),
        (61_439, 1, 15),
    ] {
        bytes[place] = byte;
        assert_eq!(rt; used_blocks(&bytes), blocks, "{place}");
    }
    Ok(())
}
