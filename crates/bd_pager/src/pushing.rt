//! How messages go down from a node to its child.

ghost use Rattle.std.specs.Prelude.{◌≡◌, ◌≢◌, ◌<◌, ◌==◌, ℕ, if◌then◌else◌, is_some, None, Some, IfOk, IfSome, IsSome, MatchOption, OnOk, OnErr};
ghost use Rattle.std.specs.List.{AllByRecursion};
ghost use Rattle.bd_cache.specs.Cache.{kept_at, room_of};
ghost use Rattle.bd_node.specs.Nodes.{level_of};
ghost use Rattle.bd_node.specs.Pushes.{gained, CanMake, IsGain};
ghost use Rattle.bd_node.specs.Shape.{IsShape};
ghost use Rattle.bd_pager.specs.Counting.{AreUnused, IsTallied};
ghost use Rattle.bd_pager.specs.Pagers.{IsOfSize};
ghost use Rattle.bd_pager.specs.Places.{spots_in, copy_at, copy_in, ArePlaced};
ghost use Rattle.bd_pager.specs.Pushing.{vacant, placed_at, AreNodesPushed, ArePlacesPushed, ArePushPuts, IsPushedInPlace};
ghost use Rattle.bd_pager.specs.Stepping.{put_at, with_put};

use crate::changing::append_to;
use crate::extending::copy_of;
use crate::place::{Place, Spot};
use crate::stepping::{Put, forget_puts, list_all, put_all};
use crate::usage::Usage;
use bd_cache::NodeCache;
use bd_node::{Gain, Node, Push};
use std::alloc::{AllocError, Global};
use std::collections::HashMap;
use std::mem;
use std::rc::Rc;

/// Lets messages go down between two nodes that are in memory alone and that nobody else holds, or
/// leaves all as it is and gives the push back.
pub fn push_in_place(
    alloc: Global,
    spots: &mut HashMap<u64, Spot>,
    push: Push,
) -> Result<Option<Push>, AllocError>
    requires parent { IsSome (spots_in spots.old push.parent) }
    requires child { IsSome (spots_in spots.old push.child) }
    requires apart { push.parent ≢ push.child }
    requires placed { ArePlaced (spots_in spots.old) }
    requires gain { IfSome (spots_in spots.old push.child) (λ s. IsGain s.level push.gain) }
    ensures ok { IfOk result (λ left. MatchOption left
        (IsPushedInPlace push (spots_in spots.old) (spots_in spots.new))
        (λ p. (p ≡ push) × ((id : ℕ) → spots_in spots.new id ≡ spots_in spots.old id))) }
    ensures err { OnErr result ((id : ℕ) → spots_in spots.new id ≡ spots_in spots.old id) }
{
    let (parent, child) = (push.parent, push.child);
    let mut above = take(spots, parent);
    let mut below = take(spots, child);
    let result = push_places(alloc, &mut above, &mut below, push);
    put_back(spots, child, below);
    put_back(spots, parent, above);
    result
}

// The place of a node, for which no place stands there until it is put back.
fn take(spots: &mut HashMap<u64, Spot>, id: u64) -> Place
    requires { IsSome (spots_in spots.old id) }
    ensures place { IfSome (spots_in spots.old id) (λ s. result ≡ s.place) }
    ensures spots { (i : ℕ) → spots_in spots.new i ≡ (if id == i
        then placed_at vacant (spots_in spots.old id) else spots_in spots.old i) }
{
    match spots.get_mut(&id) {
        Some(spot) => take_place(spot),
        None => unreachable!(),
    }
}

// The place of a spot, for which no place stands there.
fn take_place(spot: &mut Spot) -> Place
    ensures place { result ≡ spot.old.place }
    ensures spot { spot.new ≡ record spot.old { place = vacant } }
{
    let vacant = Place::Slot {
        slot: 0,
        node: None,
    };
    mem::replace(&mut spot.place, vacant)
}

// The node is at this place.
fn put_back(spots: &mut HashMap<u64, Spot>, id: u64, place: Place)
    ensures { (i : ℕ) → spots_in spots.new i ≡ (if id == i
        then placed_at place (spots_in spots.old id) else spots_in spots.old i) }
{
    if let Some(spot) = spots.get_mut(&id) {
        spot.place = place;
    }
}

// Lets messages go down between the nodes at two places, if both are in memory alone and nobody
// else holds the upper one.
fn push_places(
    alloc: Global,
    above: &mut Place,
    below: &mut Place,
    push: Push,
) -> Result<Option<Push>, AllocError>
    requires above { IfSome (copy_at above.old) IsShape }
    requires below { IfSome (copy_at below.old) IsShape }
    requires gain { IfSome (copy_at below.old) (λ m. IsGain (level_of m) push.gain) }
    ensures ok { IfOk result (λ left. MatchOption left
        (ArePlacesPushed push above.old below.old above.new below.new)
        (λ p. (p ≡ push) × (above.new ≡ above.old) × (below.new ≡ below.old))) }
    ensures err { OnErr result ((above.new ≡ above.old) × (below.new ≡ below.old)) }
{
    let Place::Memory { node: parent, .. } = above else {
        return Ok(Some(push));
    };
    let Place::Memory { node: child, .. } = below else {
        return Ok(Some(push));
    };
    push_nodes(alloc, parent, child, push)
}

// Lets messages go down from a node to its child, if nobody else holds the node.
fn push_nodes(
    alloc: Global,
    parent: &mut Rc<Node>,
    child: &mut Rc<Node>,
    push: Push,
) -> Result<Option<Push>, AllocError>
    requires parent { IsShape parent.old.value }
    requires child { IsShape child.old.value }
    requires gain { IsGain (level_of child.old.value) push.gain }
    ensures ok { IfOk result (λ left. MatchOption left
        (AreNodesPushed push parent.old.value child.old.value parent.new.value child.new.value)
        (λ p. (p ≡ push) × (parent.new ≡ parent.old) × (child.new ≡ child.old))) }
    ensures err { OnErr result ((parent.new ≡ parent.old) × (child.new ≡ child.old)) }
{
    match Rc::get_mut(parent) {
        Some(node) => push_between(alloc, node, child, push),
        None => Ok(Some(push)),
    }
}

// Lets messages go down from a node to its child, if that can be.
fn push_between(
    alloc: Global,
    parent: &mut Node,
    child: &mut Rc<Node>,
    push: Push,
) -> Result<Option<Push>, AllocError>
    requires parent { IsShape parent.old }
    requires child { IsShape child.old.value }
    requires gain { IsGain (level_of child.old.value) push.gain }
    ensures ok { IfOk result (λ left. MatchOption left
        (AreNodesPushed push parent.old child.old.value parent.new child.new.value)
        (λ p. (p ≡ push) × (parent.new ≡ parent.old) × (child.new ≡ child.old)
        × (¬ CanMake push parent.old child.old.value))) }
    ensures err { OnErr result ((parent.new ≡ parent.old) × (child.new ≡ child.old)) }
{
    if !push.gain.fits(child) {
        return Ok(Some(push));
    }
    let found = parent.relief(push.place, push.count)?;
    let Some(relief) = found else {
        return Ok(Some(push));
    };
    give(alloc, child, push.gain)?;
    parent.relieve(relief);
    Ok(None)
}

// Gives a node what goes down to it: in its place where nobody else holds it.
fn give(alloc: Global, shared: &mut Rc<Node>, gain: Gain) -> Result<(), AllocError>
    ensures ok { OnOk result (shared.new.value ≡ gained shared.old.value gain) }
    ensures err { OnErr result (shared.new ≡ shared.old) }
{
    match gain {
        Gain::Messages(list) => append_to(alloc, shared, list),
        Gain::Entries(entries) => {
            *shared = Rc::new(alloc, Node::Leaf(entries))?;
            Ok(())
        }
    }
}

/// What is to be put for a node and its child, for messages to go down between them, if that can be.
pub fn push_puts(
    alloc: Global,
    parent: &Node,
    child: Rc<Node>,
    push: Push,
) -> Result<Option<Vec<Put>>, AllocError>
    requires parent { IsShape parent.now }
    requires child { IsShape child.value }
    requires gain { IsGain (level_of child.value) push.gain }
    ensures { IfOk result (λ found. MatchOption found (¬ CanMake push parent.now child.value)
        (λ puts. ArePushPuts push parent.now child.value puts.items)) }
{
    let (id, child_id) = (push.parent, push.child);
    let mut above = parent.clone()?;
    let mut below = child;
    let left = push_between(alloc, &mut above, &mut below, push)?;
    if left.is_some() {
        return Ok(None);
    }
    let above = Rc::new(alloc, above)?;
    let mut puts = Vec::new(alloc);
    puts.push(Put {
        id: child_id,
        node: below,
    })?;
    puts.push(Put { id, node: above })?;
    Ok(Some(puts))
}

/// Puts nodes for kept ones, which then aren't kept as they were read, or leaves all as it is where
/// memory is wanting.
pub fn put_kept(
    spots: &mut HashMap<u64, Spot>,
    cache: &mut NodeCache,
    usage: &mut Usage,
    puts: Vec<Put>,
) -> Result<(), AllocError>
    requires { AreUnused usage.old.spare usage.old.free (spots_in spots.old) }
    ensures spots { OnOk result ((id : ℕ) → spots_in spots.new id
        ≡ with_put usage.old.spare (put_at puts.items id) (spots_in spots.old id)) }
    ensures cache { OnOk result ((id : ℕ) → kept_at cache.new id
        ≡ (if is_some (put_at puts.items id) then None else kept_at cache.old id)) }
    ensures room { room_of cache.new ≡ room_of cache.old }
    ensures spare { usage.new.spare ≡ usage.old.spare }
    ensures tallied { OnOk result ((next : ℕ)
        → AllByRecursion (λ put. put.id < next) puts.items
        → IsTallied next (spots_in spots.old) usage.old
        → IsTallied next (spots_in spots.new) usage.new) }
    ensures err { OnErr result (spots.new.entries ≡ spots.old.entries) }
    ensures err_cache { OnErr result (cache.new ≡ cache.old) }
    ensures err_tallied { OnErr result ((next : ℕ)
        → IsTallied next (spots_in spots.old) usage.old
        → IsTallied next (spots_in spots.new) usage.new) }
{
    list_all(usage, puts.as_slice())?;
    spots.reserve(puts.len())?;
    forget_puts(cache, puts.as_slice());
    put_all(spots, usage, puts);
    Ok(())
}

/// How many bytes wait in a node that is in memory.
pub fn waiting_in(spots: &HashMap<u64, Spot>, id: u64) -> usize
    requires { IfSome (copy_in (spots_in spots.now id)) IsShape }
    ensures { IsSome (copy_in (spots_in spots.now id))
        → IsOfSize result (copy_in (spots_in spots.now id)) }
{
    match spots.get(&id) {
        Some(spot) => match copy_of(&spot.place) {
            Some(node) => node.buffer_size(),
            None => 0,
        },
        None => 0,
    }
}
