//! A device in memory and its blocks, between calls.

use bd_device::{Attach, BLOCK_SIZE, Device, MemDevice, Torn, put};
use bd_limits::{FIRST_SLOT_BLOCK, SLOT_BLOCKS};
use std::alloc::{AllocError, Global};

/// How many writes a device records at least, between two losses of power.
const WRITES: u64 = 1 << 13;

/// How many blocks an image with so many slots has.
pub fn blocks_of(slots: u64) -> u64 {
    slots
        .saturating_mul(SLOT_BLOCKS)
        .saturating_add(FIRST_SLOT_BLOCK)
}

/// A device of so many zero blocks, which records at least as many writes.
pub fn zeros(alloc: Global, blocks: u64) -> Result<MemDevice, AllocError> {
    MemDevice::new(alloc, blocks, blocks.max(WRITES) as usize, &[])
}

/// The bytes of a block, if there is one of this number.
pub fn block_in(dev: &mut MemDevice, block: u64) -> Option<[u8; BLOCK_SIZE]> {
    let _ = dev.attach("img", None);
    let mut bytes = [0; BLOCK_SIZE];
    if block >= dev.blocks() {
        return None;
    }
    dev.read(block, &mut bytes).ok()?;
    Some(bytes)
}

/// Writes a block for good. Whether it was done.
fn put_block(dev: &mut MemDevice, block: u64, bytes: &[u8; BLOCK_SIZE]) -> bool {
    if block >= dev.blocks() || dev.write(block, bytes).is_err() {
        return false;
    }
    dev.crash(Torn::New);
    true
}

/// Gives a block other bytes, from a place on. Whether there is room for them.
pub fn set_bytes(dev: &mut MemDevice, block: u64, at: u64, bytes: &[u8]) -> bool {
    let Some(mut whole) = block_in(dev, block) else {
        return false;
    };
    if at > BLOCK_SIZE as u64 || bytes.len() > BLOCK_SIZE - at as usize {
        return false;
    }
    put(&mut whole, at as usize, bytes);
    put_block(dev, block, &whole)
}

/// Gives a block another byte at a place. Whether there is one.
pub fn flip_byte(dev: &mut MemDevice, block: u64, at: u64) -> bool {
    let Some(mut whole) = block_in(dev, block) else {
        return false;
    };
    if at >= BLOCK_SIZE as u64 {
        return false;
    }
    whole[at as usize] = whole[at as usize].wrapping_add(1);
    put_block(dev, block, &whole)
}

/// A device with the same blocks, of which no write is in flight.
pub fn copied(alloc: Global, from: &mut MemDevice) -> Result<MemDevice, AllocError> {
    let _ = from.attach("img", None);
    let blocks = from.blocks();
    let mut to = zeros(alloc, blocks)?;
    for block in 0..blocks {
        if let Some(bytes) = block_in(from, block) {
            let _ = put_block(&mut to, block, &bytes);
        }
    }
    Ok(to)
}

/// The first block of two devices, but for the last one of each, that differs between them, or that
/// one alone has.
pub fn first_unlike(one: &mut MemDevice, other: &mut MemDevice) -> Option<u64> {
    let _ = (one.attach("img", None), other.attach("img", None));
    for block in 0..one.blocks().max(other.blocks()).saturating_sub(1) {
        let (first, second) = (block_in(one, block), block_in(other, block));
        match (first, second) {
            (Some(first), Some(second)) if first == second => {}
            _ => return Some(block),
        }
    }
    None
}

/// The front of a block without the zeros at its end.
pub fn front(bytes: &[u8]) -> &[u8] {
    let mut end = 0usize;
    for (at, byte) in bytes.iter().enumerate() {
        if *byte != 0 {
            end = at.saturating_add(1);
        }
    }
    bytes.get(..end).unwrap_or(bytes)
}
