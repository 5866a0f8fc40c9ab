//! What steps need before the first change, and how they are then carried out.

ghost use Rattle.std.specs.Prelude.{◌≡◌, ◌+◌, ◌^◌, ◌<◌, ◌≤◌, ◌++◌, ◌==◌, ℕ, if◌then◌else◌, Some, None, IfOk, OnOk, OnErr, length, map};
ghost use Rattle.std.specs.List.{AllByRecursion};
ghost use Rattle.std.specs.Option.{option_copied};
ghost use Rattle.bd_counts.specs.Naming.{times_among};
ghost use Rattle.bd_pager.specs.Counting.{AreUnused, IsListed, IsTallied};
ghost use Rattle.bd_pager.specs.Places.{spots_in};
ghost use Rattle.bd_pager.specs.Stepping.{HasRoomFor, change_of, put_at, copied, bare, with_copy, without_copy, moved_copy, made_changes};
ghost use Rattle.bd_pager.specs.Committing.{carried_spot, IsForgotten};

use crate::place::{Place, Spot};
use crate::stepping::{Put, drop_all, forget_all, forget_puts, list_all, put_all, set_counts};
use crate::usage::Usage;
use bd_cache::NodeCache;
use bd_counts::NewCounts;
use bd_node::{Change, Changes, Node, Nodes};
use std::alloc::{AllocError, Global};
use std::collections::HashMap;
use std::rc::Rc;

/// The root after a step.
#[derive(Drop)]
pub struct NewRoot {
    /// Its node, where the step doesn't give it.
    pub copy: Option<Rc<Node>>,
    /// The size in bytes of the messages that wait in it.
    pub size: usize,
}

/// A step with all that it needs.
#[derive(Drop)]
pub struct Plan {
    /// The nodes that it gives, the new ones first.
    pub puts: Vec<Put>,
    /// What it makes of the counts.
    pub recount: NewCounts,
    /// The root's id after it.
    pub root: u64,
    pub new_root: NewRoot,
}

/// The nodes that a step gives, the new ones first, which get the next ids.
pub fn puts_of(
    alloc: Global,
    next: u64,
    made: Nodes,
    changes: Changes,
) -> Result<Vec<Put>, AllocError>
    requires { next + length made < 2 ^ 64 }
    ensures { IfOk result (λ puts.
        map change_of puts.items ≡ made_changes next made ++ changes) }
{
    let mut puts = made_puts(alloc, next, made)?;
    push_changes(alloc, &mut puts, changes)?;
    Ok(puts)
}

/// New nodes, which get the next ids.
pub fn made_puts(alloc: Global, next: u64, made: Nodes) -> Result<Vec<Put>, AllocError>
    requires { next + length made < 2 ^ 64 }
    ensures { IfOk result (λ puts. map change_of puts.items ≡ made_changes next made) }
{
    let mut puts = Vec::new(alloc);
    let mut id = next;
    for node in made.into_vec() {
        let node = Rc::new(alloc, node)?;
        puts.push(Put { id, node })?;
        id += 1;
    }
    Ok(puts)
}

// Puts changed nodes after others.
fn push_changes(alloc: Global, puts: &mut Vec<Put>, changes: Changes) -> Result<(), AllocError>
    ensures { OnOk result (map change_of puts.new.items
        ≡ map change_of puts.old.items ++ changes) }
{
    for change in changes.into_vec() {
        let Change { id, node } = change;
        let node = Rc::new(alloc, node)?;
        puts.push(Put { id, node })?;
    }
    Ok(())
}

/// The node that is put for an id.
pub fn put_in(puts: &[Put], id: u64) -> Option<&Rc<Node>>
    ensures { option_copied result ≡ put_at puts.now id }
{
    for put in puts {
        if id == put.id {
            return Some(&put.node);
        }
    }
    None
}

/// Carries out a plan where this was the root, or leaves all as it is where memory is wanting.
pub fn carry_out(
    spots: &mut HashMap<u64, Spot>,
    cache: &mut NodeCache,
    usage: &mut Usage,
    old: u64,
    plan: Plan,
) -> Result<(), AllocError>
    requires { AreUnused usage.old.spare usage.old.free (spots_in spots.old) }
    ensures spots { OnOk result ((id : ℕ) → spots_in spots.new id
        ≡ carried_spot usage.old.spare old plan (spots_in spots.old) id) }
    ensures cache { OnOk result (IsForgotten plan cache.old cache.new) }
    ensures spare { usage.new.spare ≡ usage.old.spare }
    ensures tallied { OnOk result ((next : ℕ)
        → AllByRecursion (λ put. put.id < next) plan.puts.items
        → ((id : ℕ) → 1 ≤ times_among plan.recount.gone.items id → id < next)
        → IsTallied next (spots_in spots.old) usage.old
        → IsTallied next (spots_in spots.new) usage.new) }
    ensures err { OnErr result (spots.new.entries ≡ spots.old.entries) }
    ensures err_cache { OnErr result (cache.new ≡ cache.old) }
    ensures err_tallied { OnErr result ((next : ℕ)
        → IsTallied next (spots_in spots.old) usage.old
        → IsTallied next (spots_in spots.new) usage.new) }
{
    list_all(usage, plan.puts.as_slice())?;
    spots.reserve(plan.puts.len())?;
    forget(cache, &plan);
    carry(spots, usage, old, plan);
    Ok(())
}

// Keeps no node any more that a plan puts or lets go, or whose copy is kept.
fn forget(cache: &mut NodeCache, plan: &Plan)
    ensures { IsForgotten plan.now cache.old cache.new }
{
    forget_puts(cache, plan.puts.as_slice());
    forget_all(cache, plan.recount.gone.as_slice());
    if plan.new_root.copy.is_some() {
        cache.forget(plan.root);
    }
}

// Carries out a plan in memory that is taken.
fn carry(spots: &mut HashMap<u64, Spot>, usage: &mut Usage, old: u64, plan: Plan)
    requires room { HasRoomFor (length plan.puts.items) spots.old }
    requires unused { AreUnused usage.old.spare usage.old.free (spots_in spots.old) }
    requires listed { AllByRecursion (λ put. IsListed usage.old.listed put.id) plan.puts.items }
    ensures spots { (id : ℕ) → spots_in spots.new id
        ≡ carried_spot usage.old.spare old plan (spots_in spots.old) id }
    ensures spare { usage.new.spare ≡ usage.old.spare }
    ensures tallied { (next : ℕ) → AllByRecursion (λ put. put.id < next) plan.puts.items
        → ((id : ℕ) → 1 ≤ times_among plan.recount.gone.items id → id < next)
        → IsTallied next (spots_in spots.old) usage.old
        → IsTallied next (spots_in spots.new) usage.new }
{
    let Plan {
        puts,
        recount,
        root,
        new_root,
    } = plan;
    let NewCounts { counts, gone } = recount;
    let NewRoot { copy, size: _ } = new_root;
    give_up_old(spots, old, root);
    keep_new(spots, root, copy);
    put_all(spots, usage, puts);
    set_counts(spots, counts);
    drop_all(spots, usage, gone.as_slice());
}

// The old root's copy is given up, if it is in a slot and another one is the root.
fn give_up_old(spots: &mut HashMap<u64, Spot>, old: u64, root: u64)
    ensures spots { (id : ℕ) → spots_in spots.new id
        ≡ moved_copy old root None id (spots_in spots.old id) }
    ensures room { (n : ℕ) → HasRoomFor n spots.old → HasRoomFor n spots.new }
{
    if old != root {
        give_up_copy(spots, old);
    }
}

// The new root's copy is kept where it is in a slot.
fn keep_new(spots: &mut HashMap<u64, Spot>, root: u64, copy: Option<Rc<Node>>)
    ensures spots { (id : ℕ) → spots_in spots.new id
        ≡ (if root == id then with_copy copy (spots_in spots.old id) else spots_in spots.old id) }
    ensures room { (n : ℕ) → HasRoomFor n spots.old → HasRoomFor n spots.new }
{
    if let Some(node) = copy {
        keep_copy(spots, root, node);
    }
}

// The copy of a node that is in a slot is kept no more.
fn give_up_copy(spots: &mut HashMap<u64, Spot>, id: u64)
    ensures spots { (i : ℕ) → spots_in spots.new i
        ≡ (if id == i then without_copy (spots_in spots.old id) else spots_in spots.old i) }
    ensures room { (n : ℕ) → HasRoomFor n spots.old → HasRoomFor n spots.new }
{
    if let Some(spot) = spots.get_mut(&id) {
        bare(spot);
    }
}

// A node that is in a slot is kept in memory too.
fn keep_copy(spots: &mut HashMap<u64, Spot>, id: u64, node: Rc<Node>)
    ensures spots { (i : ℕ) → spots_in spots.new i ≡ (if id == i
        then with_copy (Some node) (spots_in spots.old id) else spots_in spots.old i) }
    ensures room { (n : ℕ) → HasRoomFor n spots.old → HasRoomFor n spots.new }
{
    if let Some(spot) = spots.get_mut(&id) {
        copy_to(spot, node);
    }
}

// Gives up the copy of a node that is in a slot.
fn bare(spot: &mut Spot)
    ensures { spot.new ≡ record spot.old { place = bare spot.old.place } }
{
    if let Place::Slot { node, .. } = &mut spot.place {
        *node = None;
    }
}

// Keeps a copy of a node that is in a slot.
fn copy_to(spot: &mut Spot, copy: Rc<Node>)
    ensures { spot.new ≡ record spot.old { place = copied copy spot.old.place } }
{
    if let Place::Slot { node, .. } = &mut spot.place {
        if node.is_none() {
            *node = Some(copy);
        }
    }
}
