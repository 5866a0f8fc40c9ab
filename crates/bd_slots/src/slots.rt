// A set of free slots.
ghost use Rattle.std.specs.Prelude.{◌≡◌, ◌↔◌, true, false, replicate, slice_get, slice_set, length, ◌<◌, IsTrue, IsNone, IfOk, IfSome, IfNone};
ghost use Rattle.bd_slots.specs.Slots.{IsFree, IsHeld, IsFirstFree, free_count, slot_if};

use crate::words;
use std::alloc::{AllocError, Global};
use std::marker::Model;

/// The free ones among the slots from 0 on. Only making it takes memory, one bit a slot. A `take`
/// looks at the words of 64 slots from the one on in which it last found a free slot, or in which
/// one was given back since, and each other call at one word.
#[derive(Debug, Drop)]
pub struct SlotSet {
    words: Vec<u64>,
    count: u32,
    free: u32,
    // No slot before it is free.
    next: u32,
}

impl Model for SlotSet {
    ghost use Rattle.std.specs.Prelude.{Bool, List};

    ghost Value = { List Bool };

    ghost use Rattle.bd_slots.specs.Words.{AreCounted, IsNoneBelow, flags};

    ghost view = { λ s. flags s.words.items s.count };

    ghost invariant = { λ s. AreCounted s.words.items s.count s.free
        × IsNoneBelow s.words.items s.next };
}

impl SlotSet {
    /// So many slots, all free.
    pub fn new(alloc: Global, count: u32) -> Result<SlotSet, AllocError>
        ensures { IfOk result (λ slots. slots ≡ replicate count true) }
    {
        let words = words::ones(alloc, count)?;
        Ok(SlotSet {
            words,
            count,
            free: count,
            next: 0,
        })
    }

    /// Takes the first free slot. It is `None` exactly where none is free.
    pub fn take(&mut self) -> Option<u32>
        ensures none { IsNone result ↔ (free_count self.old ≡ 0) }
        ensures unchanged { IfNone result (self.new ≡ self.old) }
        ensures first { IfSome result (IsFirstFree self.old) }
        ensures taken { IfSome result (λ slot. self.new ≡ slice_set self.old slot false) }
    {
        let first = self.next as usize / words::BITS;
        let slot = words::first_set(self.words.as_slice(), first)? as u32;
        self.next = slot;
        self.hold(slot);
        Some(slot)
    }

    /// Gives a slot back that isn't free.
    pub fn give(&mut self, slot: u32)
        requires { IsHeld self.old slot }
        ensures { self.new ≡ slice_set self.old slot true }
    {
        words::set(self.words.as_mut_slice(), slot as usize);
        self.free += 1;
        self.next = self.next.min(slot);
    }

    /// Takes this slot, which is free.
    pub fn hold(&mut self, slot: u32)
        requires { IsFree self.old slot }
        ensures { self.new ≡ slice_set self.old slot false }
    {
        words::clear(self.words.as_mut_slice(), slot as usize);
        self.free -= 1;
    }

    /// Whether a slot is free.
    pub fn is_free(&self, slot: u32) -> bool
        requires { slot < length self.now }
        ensures { IsTrue result ↔ IsFree self.now slot }
    {
        words::is_set(self.words.as_slice(), slot as usize)
    }

    /// The slot, where it is a free one.
    pub fn slot_if_free(&self, slot: u32) -> Option<u32>
        requires { slot < length self.now }
        ensures { result ≡ slot_if (slice_get self.now slot) slot }
    {
        if self.is_free(slot) { Some(slot) } else { None }
    }

    /// How many slots there are.
    pub fn count(&self) -> u32
        ensures { result ≡ length self.now }
    {
        self.count
    }

    /// How many slots are free.
    pub fn free(&self) -> u32
        ensures { result ≡ free_count self.now }
    {
        self.free
    }
}
