//! What steps change of what is known of nodes.

ghost use Rattle.std.specs.Prelude.{◌≡◌, ◌<◌, ◌≤◌, ◌==◌, ◌+◌, ℕ, if◌then◌else◌, Some, None, IfSome, OnOk, length, nat_eq, is_some};
ghost use Rattle.std.specs.HashMap.{get};
ghost use Rattle.std.specs.List.{AllByRecursion};
ghost use Rattle.std.specs.Option.{option_copied};
ghost use Rattle.bd_cache.specs.Cache.{kept_at, room_of};
ghost use Rattle.bd_slots.specs.Slots.{IsHeld};
ghost use Rattle.bd_counts.specs.Naming.{times_among};
ghost use Rattle.bd_pager.specs.Changing.{own_slot};
ghost use Rattle.bd_pager.specs.Counting.{dropped, AreUnused, IsListed, IsListedMore, IsTallied};
ghost use Rattle.bd_pager.specs.Pagers.{IsPlaceIn};
ghost use Rattle.bd_pager.specs.Places.{spots_in};
ghost use Rattle.bd_pager.specs.Stepping.{HasRoomFor, put_at, put_spot, own_slot_in, with_put, with_count, without_all, put_usage};

use crate::place::{Place, Spot, refs_of};
use crate::usage::{IN_MEMORY, NOWHERE, Usage, tally_of};
use bd_cache::NodeCache;
use bd_node::Node;
use bd_slots::SlotSet;
use std::alloc::AllocError;
use std::collections::HashMap;
use std::rc::Rc;

/// A node that is put in the place of a kept one, or under a new id.
#[derive(Drop)]
pub struct Put {
    pub id: u64,
    pub node: Rc<Node>,
}

/// Lists the ids for which nodes are to be put.
pub fn list_all(usage: &mut Usage, puts: &[Put]) -> Result<(), AllocError>
    ensures listed { OnOk result
        (AllByRecursion (λ put. IsListed usage.new.listed put.id) puts.now) }
    ensures more { IsListedMore usage.old usage.new }
{
    for put in puts {
        usage.list(put.id)?;
    }
    Ok(())
}

/// Puts nodes whose ids are listed, of several for one id the first one. A node that has a slot of
/// its own keeps it.
pub fn put_all(spots: &mut HashMap<u64, Spot>, usage: &mut Usage, puts: Vec<Put>)
    requires room { HasRoomFor (length puts.items) spots.old }
    requires unused { AreUnused usage.old.spare usage.old.free (spots_in spots.old) }
    requires listed { AllByRecursion (λ put. IsListed usage.old.listed put.id) puts.items }
    ensures spots { (id : ℕ) → spots_in spots.new id
        ≡ with_put usage.old.spare (put_at puts.items id) (spots_in spots.old id) }
    ensures spare { usage.new.spare ≡ usage.old.spare }
    ensures unused { AreUnused usage.new.spare usage.new.free (spots_in spots.new) }
    ensures tallied { (next : ℕ) → AllByRecursion (λ put. put.id < next) puts.items
        → IsTallied next (spots_in spots.old) usage.old
        → IsTallied next (spots_in spots.new) usage.new }
{
    let mut puts = puts;
    while let Some(put) = puts.pop() {
        put_one(spots, usage, put);
    }
}

// Puts a node.
fn put_one(spots: &mut HashMap<u64, Spot>, usage: &mut Usage, put: Put)
    requires room { HasRoomFor 1 spots.old }
    requires place { IfSome (spots_in spots.old put.id) (λ s. IsPlaceIn usage.old.spare s.place) }
    ensures spots { (id : ℕ) → spots_in spots.new id ≡ (if put.id == id
        then Some (put_spot usage.old.spare put.node (spots_in spots.old put.id))
        else spots_in spots.old id) }
    ensures room { (n : ℕ) → HasRoomFor (n + 1) spots.old → HasRoomFor n spots.new }
    ensures usage { usage.new ≡ put_usage (spots_in spots.old put.id) usage.old }
{
    let Put { id, node } = put;
    let old = spots.get(&id);
    let was = tally_of(&usage.spare, old);
    let spot = put_spot(old, node, &usage.spare);
    match spots.insert(id, spot) {
        Ok(_) => {}
        Err(_) => unreachable!(),
    }
    usage.recount(was, IN_MEMORY);
}

// What is known of a node that is put where this was known of the one before it.
fn put_spot(old: Option<&Spot>, node: Rc<Node>, spare: &SlotSet) -> Spot
    requires { IfSome (option_copied old) (λ s. IsPlaceIn spare.now s.place) }
    ensures { result ≡ put_spot spare.now node (option_copied old.entry) }
{
    Spot {
        refs: refs_of(old),
        level: node.level(),
        place: Place::Memory {
            node,
            slot: own_slot(old, spare),
        },
    }
}

// The slot that a node has of its own once it is changed.
fn own_slot(old: Option<&Spot>, spare: &SlotSet) -> Option<u32>
    requires { IfSome (option_copied old) (λ s. IsPlaceIn spare.now s.place) }
    ensures { result ≡ own_slot_in spare.now (option_copied old.entry) }
{
    match &old?.place {
        Place::Memory { slot, .. } => *slot,
        Place::Slot { slot, .. } => spare.slot_if_free(*slot),
    }
}

/// Sets the counts of nodes.
pub fn set_counts(spots: &mut HashMap<u64, Spot>, counts: HashMap<u64, u64>)
    ensures { (id : ℕ) → spots_in spots.new id
        ≡ with_count (get nat_eq counts id) (spots_in spots.old id) }
{
    for (id, count) in counts {
        set_count(spots, id, count);
    }
}

// Sets the count of a node.
fn set_count(spots: &mut HashMap<u64, Spot>, id: u64, count: u64)
    ensures { (i : ℕ) → spots_in spots.new i ≡ (if id == i
        then with_count (Some count) (spots_in spots.old id) else spots_in spots.old i) }
{
    if let Some(spot) = spots.get_mut(&id) {
        spot.refs = count;
    }
}

/// Lets nodes go, which give their own slots back.
pub fn drop_all(spots: &mut HashMap<u64, Spot>, usage: &mut Usage, gone: &[u64])
    requires { AreUnused usage.old.spare usage.old.free (spots_in spots.old) }
    ensures spots { (id : ℕ) → spots_in spots.new id
        ≡ without_all gone.now id (spots_in spots.old id) }
    ensures spare { usage.new.spare ≡ usage.old.spare }
    ensures tallied { (next : ℕ) → ((id : ℕ) → 1 ≤ times_among gone.now id → id < next)
        → IsTallied next (spots_in spots.old) usage.old
        → IsTallied next (spots_in spots.new) usage.new }
{
    for id in gone {
        drop_one(spots, usage, *id);
    }
}

// Lets a node go, which gives its own slot back.
fn drop_one(spots: &mut HashMap<u64, Spot>, usage: &mut Usage, id: u64)
    requires { AreUnused usage.old.spare usage.old.free (spots_in spots.old) }
    ensures spots { (i : ℕ) → spots_in spots.new i
        ≡ (if id == i then None else spots_in spots.old i) }
    ensures usage { usage.new ≡ dropped usage.old (spots_in spots.old id) }
{
    if let Some(spot) = spots.remove(&id) {
        uncount(usage, &spot);
    }
}

// Counts a node no more, and gives its own slot back.
fn uncount(usage: &mut Usage, spot: &Spot)
    requires place { IsPlaceIn usage.old.spare spot.now.place }
    requires held { IfSome (own_slot usage.old.spare spot.now.place) (IsHeld usage.old.free) }
    ensures { usage.new ≡ dropped usage.old (Some spot.now) }
{
    let was = tally_of(&usage.spare, Some(spot));
    if let Some(slot) = own_slot(Some(spot), &usage.spare) {
        usage.free.give(slot);
    }
    usage.recount(was, NOWHERE);
}

/// Keeps no node for these ids any more.
pub fn forget_all(cache: &mut NodeCache, ids: &[u64])
    ensures kept { (id : ℕ) → kept_at cache.new id
        ≡ without_all ids.now id (kept_at cache.old id) }
    ensures room { room_of cache.new ≡ room_of cache.old }
{
    for id in ids {
        cache.forget(*id);
    }
}

/// Keeps no node any more for an id for which one is put.
pub fn forget_puts(cache: &mut NodeCache, puts: &[Put])
    ensures kept { (id : ℕ) → kept_at cache.new id
        ≡ (if is_some (put_at puts.now id) then None else kept_at cache.old id) }
    ensures room { room_of cache.new ≡ room_of cache.old }
{
    for put in puts {
        cache.forget(put.id);
    }
}
