//! Which slots are free, and how many nodes were changed.

ghost use Rattle.std.specs.Prelude.{◌≡◌, IfSome, OnOk};
ghost use Rattle.std.specs.Option.{option_copied};
ghost use Rattle.bd_pager.specs.Counting.{tally_of, is_in_memory_at, moved, recounted, IsListed, IsListedMore};
ghost use Rattle.bd_pager.specs.Pagers.{is_changed_place, IsPlaceIn};

use crate::place::{Place, Spot};
use bd_slots::SlotSet;
use std::alloc::AllocError;
use std::collections::BTreeSet;

/// Which slots are free, how many nodes were changed, and which are in memory. It has no invariant.
#[derive(Drop)]
pub struct Usage {
    /// The slots that the last checkpoint doesn't hold.
    pub spare: SlotSet,
    /// Those of them that no kept node has.
    pub free: SlotSet,
    /// How many nodes were changed or made since that checkpoint.
    pub changed: u64,
    /// How many of them are in memory.
    pub in_memory: u64,
    /// The ids of these, and perhaps others.
    pub listed: BTreeSet<u64>,
}

/// What a node counts for.
#[derive(Clone, Copy)]
pub struct Tally {
    pub is_changed: bool,
    pub is_in_memory: bool,
}

/// What a node in memory counts for.
pub const IN_MEMORY: Tally = Tally {
    is_changed: true,
    is_in_memory: true,
};

/// What a changed node counts for that is in a slot alone.
pub const STORED: Tally = Tally {
    is_changed: true,
    is_in_memory: false,
};

/// What a node counts for that isn't kept.
pub const NOWHERE: Tally = Tally {
    is_changed: false,
    is_in_memory: false,
};

impl Usage {
    /// Lists an id, before the node is changed in memory.
    pub fn list(&mut self, id: u64) -> Result<(), AllocError>
        ensures listed { OnOk result (IsListed self.new.listed id) }
        ensures more { IsListedMore self.old self.new }
    {
        self.listed.insert(id)?;
        Ok(())
    }

    /// Counts a node otherwise than it was counted.
    pub fn recount(&mut self, was: Tally, now: Tally)
        ensures { self.new ≡ recounted was now self.old }
    {
        self.changed = moved(self.changed, was.is_changed, now.is_changed);
        self.in_memory = moved(self.in_memory, was.is_in_memory, now.is_in_memory);
    }
}

/// What the node of a spot counts for, where these slots are spare.
pub fn tally_of(spare: &SlotSet, spot: Option<&Spot>) -> Tally
    requires { IfSome (option_copied spot) (λ s. IsPlaceIn spare.now s.place) }
    ensures { result ≡ tally_of spare.now (option_copied spot.entry) }
{
    match spot {
        Some(spot) => Tally {
            is_changed: is_changed_place(spare, &spot.place),
            is_in_memory: is_in_memory_at(&spot.place),
        },
        None => NOWHERE,
    }
}

// Whether a node at this place was changed.
fn is_changed_place(spare: &SlotSet, place: &Place) -> bool
    requires { IsPlaceIn spare.now place.now }
    ensures { result ≡ is_changed_place spare.now place.now }
{
    match place {
        Place::Memory { .. } => true,
        Place::Slot { slot, .. } => spare.is_free(*slot),
    }
}

/// Whether a node at this place is in memory, and no slot has it as it is.
pub fn is_in_memory_at(place: &Place) -> bool
    ensures { result ≡ is_in_memory_at place.now }
{
    match place {
        Place::Memory { .. } => true,
        Place::Slot { .. } => false,
    }
}

// A number after a node that was counted, or not, is counted, or not.
fn moved(count: u64, was: bool, now: bool) -> u64
    ensures { result ≡ moved count was now }
{
    if was == now {
        count
    } else if now {
        count.saturating_add(1)
    } else {
        count.saturating_sub(1)
    }
}
