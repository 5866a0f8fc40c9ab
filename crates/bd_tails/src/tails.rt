//! What is known of the zeros that slots end in.

ghost use Rattle.std.specs.Prelude.{◌≡◌, ◌↔◌, ◌≤◌, ◌<◌, ◌+◌, ◌*◌, ℕ, IsTrue, take, drop, IfOk, IfSome, length, replicate, slice_set};
ghost use Rattle.bd_limits.specs.Limits.{block_size, slot_blocks};
ghost use Rattle.bd_wire.specs.Text.{AreZeros};
ghost use Rattle.bd_slots.specs.Layout.{slot_block};
ghost use Rattle.bd_tails.specs.Tails.{slot_bytes, used_of, AreForgotten, AreTails, AreUsed};

use bd_device::Device;
use bd_limits::{BLOCK_SIZE, SLOT_BLOCKS, SLOT_SIZE};
use bd_slots::slot_block;
use bd_wire::all_zero;
use std::alloc::{AllocError, Global};

// The blocks of a slot.
pub(crate) const BLOCKS: usize = SLOT_BLOCKS as usize;

/// How many of each slot's first blocks may have other bytes than zeros, as far as that is known:
/// at first all of them. Only making it takes memory, one byte a slot.
#[derive(Drop)]
pub struct Tails {
    pub used: Vec<u8>,
}

impl Tails {
    /// Of so many slots nothing is known.
    pub fn new(alloc: Global, slots: u32) -> Result<Tails, AllocError>
        ensures { IfOk result (λ tails. tails.used.items ≡ replicate slots slot_blocks) }
    {
        let mut used = Vec::new(alloc);
        used.resize(slots as usize, BLOCKS as u8)?;
        Ok(Tails { used })
    }

    /// How many of a slot's first blocks may have other bytes than zeros.
    pub fn used(&self, slot: u32) -> usize
        ensures { result ≡ used_of self.now slot }
    {
        match self.used.get(slot as usize) {
            Some(used) => BLOCKS.min(*used as usize),
            None => BLOCKS,
        }
    }

    /// Gives up all that is known.
    pub fn forget(&mut self)
        ensures { self.new.used.items ≡ replicate (length self.old.used.items) slot_blocks }
    {
        self.used.fill(BLOCKS as u8);
    }

    /// Gives up what is known of these slots.
    pub fn forget_at(&mut self, slots: &[u32])
        ensures { AreForgotten slots.now self.old self.new }
    {
        for slot in slots {
            self.note(*slot, BLOCKS);
        }
    }

    // Learns how many of a slot's first blocks are used.
    pub(crate) fn learn<D: Device>(&mut self, dev: &D, slot: u32, used: usize)
        requires known { AreTails (D.contents dev.now) self.old }
        requires used { IfSome (D.contents dev.now)
            (λ image. AreUsed (slot_bytes image slot) used) }
        requires few { used ≤ slot_blocks }
        requires room { slot_block slot + slot_blocks ≤ D.block_count dev.now }
        ensures known { AreTails (D.contents dev.now) self.new }
        ensures learnt { self.new.used.items ≡ slice_set self.old.used.items slot used }
    {
        let _ = dev.blocks();
        self.note(slot, used);
    }

    // Notes how many of a slot's first blocks may have other bytes than zeros.
    pub(crate) fn note(&mut self, slot: u32, used: usize)
        requires { used ≤ slot_blocks }
        ensures { self.new.used.items ≡ slice_set self.old.used.items slot used }
    {
        if let Some(place) = self.used.get_mut(slot as usize) {
            *place = used as u8;
        }
    }
}

/// How many of the first blocks of these bytes there are up to the last one that has another byte
/// than zero.
pub fn used_blocks(bytes: &[u8; SLOT_SIZE]) -> usize
    ensures { AreUsed bytes.now result }
{
    for zeros in 0..BLOCKS {
        let used = BLOCKS - zeros;
        if !is_zero(bytes, used - 1) {
            return used;
        }
    }
    0
}

// Whether the block of these bytes at an index is zeros.
fn is_zero(bytes: &[u8; SLOT_SIZE], i: usize) -> bool
    requires { i < slot_blocks }
    ensures { IsTrue result ↔ AreZeros (take block_size (drop (i * block_size) bytes.now)) }
{
    all_zero(&bytes[i * BLOCK_SIZE..i * BLOCK_SIZE + BLOCK_SIZE])
}
