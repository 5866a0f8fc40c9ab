//! What a step needs before the first change.

ghost use Rattle.std.specs.Prelude.{◌≡◌, ℕ, ◌+◌, ◌<◌, ◌≤◌, ◌^◌, false, OnOk, IfOk, map, nat_eq};
ghost use Rattle.std.specs.Option.{unwrap_or};
ghost use Rattle.std.specs.HashMap.{get};
ghost use Rattle.bd_counts.specs.Naming.{times_among, step_names, added_names};
ghost use Rattle.bd_memnodes.specs.Maps.{count_in};
ghost use Rattle.bd_message.specs.KeyMaps.{HasMapCause};
ghost use Rattle.bd_counts.specs.Counting.{IsWornByNames};
ghost use Rattle.bd_memnodes.specs.Plans.{step_of, added_of, change_of};

use crate::kept::count_of;
use bd_counts::{added_by, named_by};
use bd_message::{Counter, MapFault, Message};
use bd_node::{Change, Changes, Node, Nodes, Step};
use std::alloc::{AllocError, Global};
use std::collections::HashMap;
use std::rc::Rc;

/// What a kept node is from now on, in memory that is taken.
#[derive(Drop)]
pub struct Exchange {
    pub id: u64,
    pub node: Rc<Node>,
}

/// A step in memory that is taken, with all that it names.
#[derive(Drop)]
pub struct Plan {
    pub made: Vec<Rc<Node>>,
    pub changes: Vec<Exchange>,
    /// The names in the nodes that it gives, and the root.
    pub names: Vec<u64>,
    pub root: u64,
}

impl Plan {
    /// The plan of a step.
    pub fn of(alloc: Global, step: Step) -> Result<Plan, AllocError>
        ensures step { IfOk result (λ plan. step_of plan ≡ step) }
        ensures names { IfOk result (λ plan. plan.names.items ≡ step_names step) }
    {
        let names = named_by(alloc, &step)?;
        let Step {
            made,
            changes,
            root,
        } = step;
        Ok(Plan {
            made: shared(alloc, made)?,
            changes: exchanges(alloc, changes)?,
            names,
            root,
        })
    }
}

/// Made nodes in memory that is taken, with the names that come with them.
#[derive(Drop)]
pub struct Addition {
    pub made: Vec<Rc<Node>>,
    /// The names in the nodes, and in the messages that go into the root.
    pub names: Vec<u64>,
}

impl Addition {
    /// Made nodes and the names in them and in messages.
    pub fn of(alloc: Global, made: Nodes, list: &[Message]) -> Result<Addition, AllocError>
        ensures made { IfOk result (λ addition. added_of addition ≡ made) }
        ensures names { IfOk result (λ addition. addition.names.items
            ≡ added_names made list.now) }
    {
        let names = added_by(alloc, made.as_slice(), list)?;
        Ok(Addition {
            made: shared(alloc, made)?,
            names,
        })
    }
}

// The nodes, each in memory that can be shared.
fn shared(alloc: Global, made: Nodes) -> Result<Vec<Rc<Node>>, AllocError>
    ensures { IfOk result (λ list. map (λ node. node.value) list.items ≡ made) }
{
    let mut list = Vec::new(alloc);
    for node in made.into_vec() {
        list.push(Rc::new(alloc, node)?)?;
    }
    Ok(list)
}

/// The changes, each node in memory that can be shared.
pub fn exchanges(alloc: Global, changes: Changes) -> Result<Vec<Exchange>, AllocError>
    ensures { IfOk result (λ list. map change_of list.items ≡ changes) }
{
    let mut list = Vec::new(alloc);
    for change in changes.into_vec() {
        let Change { id, node } = change;
        let node = Rc::new(alloc, node)?;
        list.push(Exchange { id, node })?;
    }
    Ok(list)
}

/// Whether the counts can rise by these names. `Worn(Refs)` where one would pass its last value.
pub fn check_counts(
    alloc: Global,
    counts: &HashMap<u64, u64>,
    names: &[u64],
) -> Result<(), MapFault>
    ensures fits { OnOk result ((c : ℕ) → 1 ≤ times_among names.now c
        → count_in counts.now c + times_among names.now c < 2 ^ 64) }
    ensures cause { HasMapCause 0 0 false (λ _. ⊥) (IsWornByNames (count_in counts.now) names.now)
        result }
{
    let mut raised: HashMap<u64, u64> = HashMap::new(alloc);
    for name in names {
        let count = raised_count(&raised, counts, *name);
        if count == u64::MAX {
            return Err(MapFault::Worn(Counter::Refs));
        }
        raised.insert(*name, count + 1)?;
    }
    Ok(())
}

// The count of a node, where some counts have risen.
fn raised_count(raised: &HashMap<u64, u64>, counts: &HashMap<u64, u64>, id: u64) -> u64
    ensures { result ≡ unwrap_or (get nat_eq raised.now id) (count_in counts.now id) }
{
    match raised.get(&id) {
        Some(count) => *count,
        None => count_of(counts, id),
    }
}
