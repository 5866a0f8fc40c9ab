//! Nodes that are written to their own slots.

ghost use Rattle.std.specs.Prelude.{◌≡◌, ◌≢◌, ◌⊎◌, ◌-◌, ◌<◌, ◌≤◌, ℕ, Some, IsSome, IsTrue, IfSome, OnOk, OnErr, is_err, length, min, false, Option};
ghost use Rattle.std.specs.Option.{option_map};
ghost use Rattle.bd_cache.specs.Cache.{node_of, room_of};
ghost use Rattle.bd_slots.specs.Layout.{image_blocks};
ghost use Rattle.bd_slots.specs.Slots.{free_count};
ghost use Rattle.bd_device.specs.Calls.{faults_after};
ghost use Rattle.bd_device.specs.Changes.{StaysBut, IsBeforeBut};
ghost use Rattle.bd_device.specs.Device.{left_now, Goes, Stays, FailsLast};
ghost use Rattle.bd_device.specs.Blocks.{Image};
ghost use Rattle.bd_tails.specs.Tails.{AreTails};
ghost use Rattle.bd_pager.specs.Counting.{is_in_memory, AreBelow, AreUnused, IsTallied};
ghost use Rattle.bd_pager.specs.Moving.{copy_if, freed_at, freed_in, stored_at, AreEarlier, IfSpot, IsCachedMore, IsHeldAt, IsMovedAt, IsOfPlace, IsOfSpot, IsReservedAt, IsReservedPlace, IsReservedSpot, IsWritablePlace, IsOfNode, IsDue, OnlyMoves, WritesOnly};
ghost use Rattle.bd_pager.specs.Places.{spots_in};
ghost use Rattle.bd_pager.specs.declared.place.Place.TheVariants.{Memory, Slot};
ghost use Rattle.bd_pager.specs.Readers.{IsReading};

use crate::early::earliest;
use crate::place::{Place, Spot};
use crate::reader::NodeReader;
use crate::usage::{IN_MEMORY, STORED, Usage};
use crate::write_node;
use bd_cache::NodeCache;
use bd_device::Device;
use bd_format::laws::images_are_decoded;
use bd_io::Failed;
use bd_limits::SLOT_SIZE;
use bd_node::Node;
use bd_slots::SlotSet;
use bd_tails::Tails;
use std::collections::HashMap;
use std::mem;
use std::rc::Rc;

/// Writes a node that is in memory to a slot of its own, which it gets if it has none, and where it
/// then is. The root's node stays in memory too. `Failed` comes only where a call of the device
/// failed, which is the last one then. It needs no memory.
#[tactic(auto, using(bd_device::proofs::Calls::calls))]
pub fn write_at<D: Device>(
    reader: &mut NodeReader<D>,
    usage: &mut Usage,
    id: u64,
    root: u64,
) -> Result<(), Failed>
    requires reading { IsReading (D.contents reader.old.dev) reader.old }
    requires unused { AreUnused usage.old.spare usage.old.free (spots_in reader.old.spots) }
    requires size { D.block_count reader.old.dev ≡ image_blocks (length usage.old.spare) }
    requires memory { IsTrue (is_in_memory (spots_in reader.old.spots id)) }
    requires room { 1 ≤ free_count usage.old.free }
    ensures moves { OnlyMoves D.Device usage.old.spare root reader.old.dev reader.new.dev
        (spots_in reader.old.spots) (spots_in reader.new.spots) }
    ensures only { WritesOnly D.Device (IsOfNode (spots_in reader.new.spots) id)
        reader.old.dev reader.new.dev }
    ensures reading { IsReading (D.contents reader.new.dev) reader.new }
    ensures lent { reader.new.is_lent ≡ reader.old.is_lent }
    ensures cache_room { room_of reader.new.cache ≡ room_of reader.old.cache }
    ensures spare { usage.new.spare ≡ usage.old.spare }
    ensures gone { OnOk result (is_in_memory (spots_in reader.new.spots id) ≡ false) }
    ensures stored { OnOk result (usage.new.in_memory ≡ usage.old.in_memory - 1) }
    ensures others { (other : ℕ) → other ≢ id
        → is_in_memory (spots_in reader.new.spots other)
        ≡ is_in_memory (spots_in reader.old.spots other) }
    ensures same { OnErr result (usage.new.in_memory ≡ usage.old.in_memory) }
    ensures still { OnErr result (IsTrue (is_in_memory (spots_in reader.new.spots id))) }
    ensures tallied { (next : ℕ) → id < next
        → IsTallied next (spots_in reader.old.spots) usage.old
        → IsTallied next (spots_in reader.new.spots) usage.new }
    ensures cause { FailsLast D.Device reader.old.dev reader.new.dev result }
    ensures write_faults { D.write_fault_count reader.new.dev
        ≡ faults_after (D.write_fault_count reader.old.dev) result }
{
    images_are_decoded();
    doubt(&mut reader.tails, reader.is_lent);
    reserve(&mut reader.spots, &mut usage.free, id);
    write_spot(
        &mut reader.dev,
        &reader.spots,
        id,
        &mut reader.buffer,
        &mut reader.tails,
    )?;
    settle(&mut reader.spots, &mut reader.cache, id, id == root);
    usage.recount(IN_MEMORY, STORED);
    usage.listed.remove(&id);
    Ok(())
}

/// Writes nodes that are in memory as `write_at` does, those of the lowest level first, among them
/// those of least ids, and the root last of all, until at most `early` are in memory or no slot is
/// free. It writes no blocks but those of their slots.
#[tactic(auto, using(bd_device::proofs::Calls::calls))]
pub fn write_early<D: Device>(
    reader: &mut NodeReader<D>,
    usage: &mut Usage,
    root: u64,
    early: u64,
) -> Result<(), Failed>
    requires reading { IsReading (D.contents reader.old.dev) reader.old }
    requires tallied { (next : ℕ) × AreBelow next (spots_in reader.old.spots)
        × IsTallied next (spots_in reader.old.spots) usage.old }
    requires size { D.block_count reader.old.dev ≡ image_blocks (length usage.old.spare) }
    ensures moves { OnlyMoves D.Device usage.old.spare root reader.old.dev reader.new.dev
        (spots_in reader.old.spots) (spots_in reader.new.spots) }
    ensures due { WritesOnly D.Device (IsDue root (is_err result) (spots_in reader.old.spots)
        (spots_in reader.new.spots)) reader.old.dev reader.new.dev }
    ensures reading { IsReading (D.contents reader.new.dev) reader.new }
    ensures lent { reader.new.is_lent ≡ reader.old.is_lent }
    ensures cache_room { room_of reader.new.cache ≡ room_of reader.old.cache }
    ensures spare { usage.new.spare ≡ usage.old.spare }
    ensures few { OnOk result
        ((usage.new.in_memory ≤ early) ⊎ (free_count usage.new.free ≡ 0)) }
    ensures enough { min early usage.old.in_memory ≤ usage.new.in_memory }
    ensures earlier { AreEarlier root (spots_in reader.old.spots) (spots_in reader.new.spots) }
    ensures tallied { (next : ℕ) → AreBelow next (spots_in reader.old.spots)
        → IsTallied next (spots_in reader.old.spots) usage.old
        → IsTallied next (spots_in reader.new.spots) usage.new }
    ensures cause { FailsLast D.Device reader.old.dev reader.new.dev result }
    ensures write_faults { D.write_fault_count reader.new.dev
        ≡ faults_after (D.write_fault_count reader.old.dev) result }
{
    while usage.in_memory > early && usage.free.free() > 0 {
        let id = earliest(&mut usage.listed, &reader.spots, root);
        write_at(reader, usage, id, root)?;
    }
    Ok(())
}

// Gives up what is known of tails, if the device was lent since.
fn doubt(tails: &mut Tails, is_lent: bool)
    ensures known { (contents : Option Image) → (is_lent ≡ false → AreTails contents tails.old)
        → AreTails contents tails.new }
    ensures same { is_lent ≡ false → tails.new ≡ tails.old }
{
    if is_lent {
        tails.forget();
    }
}

/// Gives a kept node a slot of its own, if it is in memory and has none.
pub fn reserve(spots: &mut HashMap<u64, Spot>, free: &mut SlotSet, id: u64)
    requires there { IsSome (spots_in spots.old id) }
    requires room { 1 ≤ free_count free.old }
    ensures { IsReservedAt id (spots_in spots.old) free.old (spots_in spots.new) free.new }
{
    match spots.get_mut(&id) {
        Some(spot) => reserve_in(spot, free),
        None => unreachable!(),
    }
}

// Gives the node of a spot a slot of its own, if it is in memory and has none.
fn reserve_in(spot: &mut Spot, free: &mut SlotSet)
    requires { 1 ≤ free_count free.old }
    ensures { IsReservedSpot spot.old free.old spot.new free.new }
{
    let vacant = Place::Slot {
        slot: 0,
        node: None,
    };
    let place = mem::replace(&mut spot.place, vacant);
    spot.place = reserved(place, free);
}

// The place with a slot of its own, which is a free one if it had none.
fn reserved(place: Place, free: &mut SlotSet) -> Place
    requires { 1 ≤ free_count free.old }
    ensures { IsReservedPlace place free.old result free.new }
{
    match place {
        Place::Memory { node, slot } => match slot {
            Some(own) => Place::Memory {
                node,
                slot: Some(own),
            },
            None => Place::Memory {
                node,
                slot: free.take(),
            },
        },
        Place::Slot { slot, node } => Place::Slot { slot, node },
    }
}

// Writes a node that is in memory to its own slot.
fn write_spot<D: Device>(
    dev: &mut D,
    spots: &HashMap<u64, Spot>,
    id: u64,
    bytes: &mut [u8; SLOT_SIZE],
    tails: &mut Tails,
) -> Result<(), Failed>
    requires place { IfSpot (λ s. IsWritablePlace (D.block_count dev.old) s.level s.place)
        (spots_in spots.now id) }
    requires tails { AreTails (D.contents dev.old) tails.old }
    ensures held { OnOk result (IfSome (D.contents dev.new) (λ image.
        IfSpot (λ s. IsHeldAt image s.level s.place) (spots_in spots.now id))) }
    ensures tails { AreTails (D.contents dev.new) tails.new }
    ensures elsewhere { StaysBut (IsOfSpot (spots_in spots.now id))
        (D.contents dev.old) (D.contents dev.new) }
    ensures time { Goes D.Device dev.old dev.new
        (IsBeforeBut (IsOfSpot (spots_in spots.now id)) (left_now D.Device dev.old)) }
    ensures stays { Stays D.Device dev.old dev.new }
    ensures cause { FailsLast D.Device dev.old dev.new result }
    ensures write_faults { D.write_fault_count dev.new
        ≡ faults_after (D.write_fault_count dev.old) result }
{
    match spots.get(&id) {
        Some(spot) => write_place(dev, &spot.place, spot.level, bytes, tails),
        None => unreachable!(),
    }
}

// Writes the node of a place, which is in memory, to its own slot.
fn write_place<D: Device>(
    dev: &mut D,
    place: &Place,
    level: u32,
    bytes: &mut [u8; SLOT_SIZE],
    tails: &mut Tails,
) -> Result<(), Failed>
    requires place { IsWritablePlace (D.block_count dev.old) level place.now }
    requires tails { AreTails (D.contents dev.old) tails.old }
    ensures held { OnOk result (IfSome (D.contents dev.new)
        (λ image. IsHeldAt image level place.now)) }
    ensures tails { AreTails (D.contents dev.new) tails.new }
    ensures elsewhere { StaysBut (IsOfPlace place.now) (D.contents dev.old) (D.contents dev.new) }
    ensures time { Goes D.Device dev.old dev.new
        (IsBeforeBut (IsOfPlace place.now) (left_now D.Device dev.old)) }
    ensures stays { Stays D.Device dev.old dev.new }
    ensures cause { FailsLast D.Device dev.old dev.new result }
    ensures write_faults { D.write_fault_count dev.new
        ≡ faults_after (D.write_fault_count dev.old) result }
{
    match place {
        Place::Memory {
            node,
            slot: Some(slot),
        } => write_node(dev, *slot, node, bytes, tails),
        Place::Memory { slot: None, .. } | Place::Slot { .. } => unreachable!(),
    }
}

// Says that the own slot of a node has it. Unless it is the root's, the node is kept among those
// that were read, if there is memory, so that it needn't be read again at once.
fn settle(spots: &mut HashMap<u64, Spot>, cache: &mut NodeCache, id: u64, is_root: bool)
    requires { IsSome (spots_in spots.old id) }
    ensures moved { IsMovedAt id (stored_at is_root) (spots_in spots.old) (spots_in spots.new) }
    ensures cached { IsCachedMore id (freed_in is_root (spots_in spots.old id))
        cache.old cache.new }
    ensures room { room_of cache.new ≡ room_of cache.old }
{
    if let Some(node) = settle_spot(spots, id, is_root) {
        let _ = cache.put(id, node);
    }
}

// Says that the own slot of a node has it, and returns the node, unless it is the root's.
fn settle_spot(spots: &mut HashMap<u64, Spot>, id: u64, is_root: bool) -> Option<Rc<Node>>
    requires { IsSome (spots_in spots.old id) }
    ensures moved { IsMovedAt id (stored_at is_root) (spots_in spots.old) (spots_in spots.new) }
    ensures freed { option_map node_of result ≡ freed_in is_root (spots_in spots.old id) }
{
    match spots.get_mut(&id) {
        Some(spot) => settle_in(spot, is_root),
        None => unreachable!(),
    }
}

// Says that the own slot of a spot has its node, and returns the node, unless it is the root's.
fn settle_in(spot: &mut Spot, is_root: bool) -> Option<Rc<Node>>
    ensures moved { spot.new ≡ record spot.old { place = stored_at is_root spot.old.place } }
    ensures freed { option_map node_of result ≡ freed_at is_root spot.old.place }
{
    let vacant = Place::Slot {
        slot: 0,
        node: None,
    };
    let (place, freed) = stored(mem::replace(&mut spot.place, vacant), is_root);
    spot.place = place;
    freed
}

// The place of a node that its own slot has, and the node, unless it is the root's.
fn stored(place: Place, is_root: bool) -> (Place, Option<Rc<Node>>)
    ensures place { result.0 ≡ stored_at is_root place }
    ensures freed { option_map node_of result.1 ≡ freed_at is_root place }
{
    match place {
        Place::Memory { node, slot } => match slot {
            Some(slot) => stored_in(slot, node, is_root),
            None => (Place::Memory { node, slot: None }, None),
        },
        Place::Slot { slot, node } => (Place::Slot { slot, node }, None),
    }
}

// The place of a node that this slot has, and the node, unless it is the root's.
fn stored_in(slot: u32, node: Rc<Node>, is_root: bool) -> (Place, Option<Rc<Node>>)
    ensures place { result.0 ≡ Slot slot (copy_if is_root node) }
    ensures freed { option_map node_of result.1 ≡ freed_at is_root (Memory node (Some slot)) }
{
    if is_root {
        let place = Place::Slot {
            slot,
            node: Some(node),
        };
        (place, None)
    } else {
        (Place::Slot { slot, node: None }, Some(node))
    }
}
