//! Which node in memory is written first.

ghost use Rattle.std.specs.Prelude.{◌≡◌, ◌≢◌, ◌↔◌, ℕ, false, IsTrue, IfNone, IfSome};
ghost use Rattle.std.specs.Option.{option_copied};
ghost use Rattle.bd_pager.specs.Counting.{is_in_memory, IsListed, AreListed};
ghost use Rattle.bd_pager.specs.Moving.{ComesFirst, IsBefore, IsEarliest};
ghost use Rattle.bd_pager.specs.Places.{spots_in};

use crate::place::{Spot, level_of};
use crate::usage::is_in_memory_at;
use std::collections::{BTreeSet, HashMap};

/// The id of a node in memory that isn't the root: of those of the lowest level the least one. It
/// is the root's id if there is none. Ids of nodes that aren't in memory are listed no more.
pub fn earliest(listed: &mut BTreeSet<u64>, spots: &HashMap<u64, Spot>, root: u64) -> u64
    requires { AreListed (spots_in spots.now) listed.old }
    ensures earliest { IsEarliest root (spots_in spots.now) result }
    ensures listed { AreListed (spots_in spots.now) listed.new }
{
    while let Some(id) = stale(listed, spots) {
        listed.remove(&id);
    }
    first_of(listed, spots, root)
}

// A listed id of a node that isn't in memory.
fn stale(listed: &BTreeSet<u64>, spots: &HashMap<u64, Spot>) -> Option<u64>
    ensures listed { IfSome result (IsListed listed.now) }
    ensures stale { IfSome result (λ id. is_in_memory (spots_in spots.now id) ≡ false) }
    ensures none { IfNone result ((id : ℕ) → IsListed listed.now id
        → IsTrue (is_in_memory (spots_in spots.now id))) }
{
    for id in listed {
        if !is_in_memory(spots.get(id)) {
            return Some(*id);
        }
    }
    None
}

// The listed id that comes first, or the root's if there is no other.
fn first_of(listed: &BTreeSet<u64>, spots: &HashMap<u64, Spot>, root: u64) -> u64
    ensures listed { result ≢ root → IsListed listed.now result }
    ensures first { (other : ℕ) → IsListed listed.now other → other ≢ result
        → IsBefore root (spots_in spots.now) result other }
{
    let mut first = root;
    for id in listed {
        if is_before(spots, root, *id, first) {
            first = *id;
        }
    }
    first
}

// Whether a node comes before another one.
fn is_before(spots: &HashMap<u64, Spot>, root: u64, id: u64, other: u64) -> bool
    ensures { IsTrue result ↔ IsBefore root (spots_in spots.now) id other }
{
    id != root && (other == root || comes_first(spots, id, other))
}

// Whether a node comes before another one, where neither is the root.
fn comes_first(spots: &HashMap<u64, Spot>, id: u64, other: u64) -> bool
    ensures { IsTrue result ↔ ComesFirst (spots_in spots.now) id other }
{
    let level = level_of(spots.get(&id));
    let other_level = level_of(spots.get(&other));
    level < other_level || (level == other_level && id < other)
}

// Whether the node of a spot is in memory, and no slot has it as it is.
fn is_in_memory(spot: Option<&Spot>) -> bool
    ensures { result ≡ is_in_memory (option_copied spot.entry) }
{
    match spot {
        Some(spot) => is_in_memory_at(&spot.place),
        None => false,
    }
}
