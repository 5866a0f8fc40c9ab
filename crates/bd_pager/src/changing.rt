//! Nodes that are changed in memory.

ghost use Rattle.std.specs.Prelude.{◌≡◌, ◌<◌, ℕ, Some, IsSome, IfSome, OnOk, OnErr};
ghost use Rattle.bd_node.specs.declared.node.Node.{Node};
ghost use Rattle.bd_node.specs.Nodes.{appended};
ghost use Rattle.bd_pager.specs.Places.{spots_in, copy_at, copy_in};
ghost use Rattle.bd_pager.specs.Pagers.{IsPlaceIn};
ghost use Rattle.bd_pager.specs.Counting.{AreUnused, IsListed, IsTallied};
ghost use Rattle.bd_pager.specs.Stepping.{HasRoomFor};
ghost use Rattle.bd_pager.specs.Changing.{IsChangedPlace, IsChangedSpot, IsChangedAt};

use crate::place::{Place, Spot};
use crate::usage::{IN_MEMORY, Usage, tally_of};
use bd_node::{Messages, Node};
use bd_slots::SlotSet;
use std::alloc::{AllocError, Global};
use std::collections::HashMap;
use std::mem;
use std::rc::Rc;

/// Puts messages after those that wait in a node that is in memory, which is changed by that, and
/// counted so.
pub fn append_counted(
    alloc: Global,
    spots: &mut HashMap<u64, Spot>,
    usage: &mut Usage,
    id: u64,
    list: Messages,
) -> Result<(), AllocError>
    requires copy { IsSome (copy_in (spots_in spots.old id)) }
    requires unused { AreUnused usage.old.spare usage.old.free (spots_in spots.old) }
    ensures ok { (n : Node) → copy_in (spots_in spots.old id) ≡ Some n → OnOk result
        (IsChangedAt usage.old.spare id (appended n list)
        (spots_in spots.old) (spots_in spots.new)) }
    ensures err { OnErr result (spots.new.entries ≡ spots.old.entries) }
    ensures spare { usage.new.spare ≡ usage.old.spare }
    ensures free { usage.new.free ≡ usage.old.free }
    ensures listed { (i : ℕ) → IsListed usage.old.listed i → IsListed usage.new.listed i }
    ensures room { (count : ℕ) → HasRoomFor count spots.old → HasRoomFor count spots.new }
    ensures tallied { (next : ℕ) → id < next → IsTallied next (spots_in spots.old) usage.old
        → IsTallied next (spots_in spots.new) usage.new }
{
    usage.list(id)?;
    let was = tally_of(&usage.spare, spots.get(&id));
    append_at(alloc, spots, id, list, &usage.spare)?;
    usage.recount(was, IN_MEMORY);
    Ok(())
}

// Puts messages after those that wait in a node that is in memory, which is changed by that.
fn append_at(
    alloc: Global,
    spots: &mut HashMap<u64, Spot>,
    id: u64,
    list: Messages,
    spare: &SlotSet,
) -> Result<(), AllocError>
    requires copy { IsSome (copy_in (spots_in spots.old id)) }
    requires place { IfSome (spots_in spots.old id) (λ s. IsPlaceIn spare.now s.place) }
    ensures ok { (n : Node) → copy_in (spots_in spots.old id) ≡ Some n → OnOk result
        (IsChangedAt spare.now id (appended n list) (spots_in spots.old) (spots_in spots.new)) }
    ensures err { OnErr result (spots.new.entries ≡ spots.old.entries) }
    ensures room { (count : ℕ) → HasRoomFor count spots.old → HasRoomFor count spots.new }
{
    match spots.get_mut(&id) {
        Some(spot) => append_to_spot(alloc, spot, list, spare),
        None => unreachable!(),
    }
}

// Puts messages after those that wait in the node of a spot, which is in memory.
fn append_to_spot(
    alloc: Global,
    spot: &mut Spot,
    list: Messages,
    spare: &SlotSet,
) -> Result<(), AllocError>
    requires { IsPlaceIn spare.now spot.old.place }
    ensures ok { (n : Node) → copy_at spot.old.place ≡ Some n → OnOk result
        (IsChangedSpot spare.now (appended n list) spot.old spot.new) }
    ensures err { OnErr result (spot.new ≡ spot.old) }
{
    let vacant = Place::Slot {
        slot: 0,
        node: None,
    };
    let place = mem::replace(&mut spot.place, vacant);
    let (place, result) = appended(alloc, place, list, spare);
    spot.place = place;
    result
}

// The place with messages after those that wait in its node, which is in memory.
fn appended(
    alloc: Global,
    place: Place,
    list: Messages,
    spare: &SlotSet,
) -> (Place, Result<(), AllocError>)
    requires { IsPlaceIn spare.now place }
    ensures ok { (n : Node) → copy_at place ≡ Some n → OnOk result.1
        (IsChangedPlace spare.now (appended n list) place result.0) }
    ensures err { OnErr result.1 (result.0 ≡ place) }
{
    match place {
        Place::Memory { mut node, slot } => {
            let result = append_to(alloc, &mut node, list);
            (Place::Memory { node, slot }, result)
        }
        Place::Slot {
            slot,
            node: Some(mut node),
        } => match append_to(alloc, &mut node, list) {
            Ok(()) => {
                let slot = spare.slot_if_free(slot);
                (Place::Memory { node, slot }, Ok(()))
            }
            Err(fault) => {
                let node = Some(node);
                (Place::Slot { slot, node }, Err(fault))
            }
        },
        Place::Slot { slot, node: None } => (Place::Slot { slot, node: None }, Ok(())),
    }
}

/// Puts messages after those that wait in a node: in its place where nobody else holds it, else in
/// the place of a copy.
pub fn append_to(alloc: Global, shared: &mut Rc<Node>, list: Messages) -> Result<(), AllocError>
    ensures ok { OnOk result (shared.new.value ≡ appended shared.old.value list) }
    ensures err { OnErr result (shared.new ≡ shared.old) }
{
    if let Some(node) = Rc::get_mut(shared) {
        return node.append(list);
    }
    let mut node = (**shared).clone()?;
    node.append(list)?;
    *shared = Rc::new(alloc, node)?;
    Ok(())
}
