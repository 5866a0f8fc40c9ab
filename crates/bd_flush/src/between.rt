//! A child is put between its parent and its halves, where their pivot would be too long for the
//! parent.

ghost use Rattle.std.specs.Prelude.{◌+◌, ◌<◌, ◌≤◌, ◌∷◌, reverse, IfOk, OnOk, OnErr};
ghost use Rattle.std.specs.List.{AllByRecursion};
ghost use Rattle.bd_limits.specs.Limits.{level_limit};
ghost use Rattle.bd_message.specs.KeyMaps.{HasMapCause};
ghost use Rattle.bd_node.specs.Frames.{OfSound, OnlyReads, Stays};
ghost use Rattle.bd_node.specs.Nodes.{level_of};
ghost use Rattle.bd_node.specs.Shape.{IsShape};
ghost use Rattle.bd_inner.specs.Halves.{AreHalves};
ghost use Rattle.bd_path.specs.declared.fetching.Fetched.{Fetched};
ghost use Rattle.bd_path.specs.Flushed.{IsFlushed, IsHardlyHigher};
ghost use Rattle.bd_path.specs.Made.{IsMadeBy, IsWornFor};
ghost use Rattle.bd_path.specs.Fetching.{IsFetched, IsContents};
ghost use Rattle.bd_flush.specs.Splitting.{IsPlanOf};
ghost use Rattle.bd_path.specs.Raising.{IsWayUp, CannotRise};
ghost use Rattle.bd_flush.specs.Between.{IsBetweenStep};

use crate::splitting::{Plan, over_step};
use bd_inner::Halves;
use bd_message::{Counter, MapFault};
use bd_node::NodeStore;
use bd_path::{Fetched, raise_way};
use std::alloc::{AllocError, Global};

/// Puts a child between its parent and its halves, which are made: it has the child's id, one level
/// higher, and from the parent on upwards each node rises by one level that isn't above the one
/// below it. All were fetched before. A root of level 1,000 can't rise, which is `Worn(Level)`.
pub fn put_between<S: NodeStore>(
    alloc: Global,
    store: &mut S,
    above: &[Fetched],
    parent: &Fetched,
    child: &Fetched,
    halves: Halves,
) -> Result<(), MapFault>
    requires child { IsFetched (S.table store.old) child.now }
    requires way { IsWayUp (S.table store.old) child.now.id (parent.now ∷ reverse above.now) }
    requires halves { AreHalves child.now.node.value halves }
    requires there { OfSound S.NodeStore store.old
        (AllByRecursion (IsContents (S.nodes store.old))
        (child.now ∷ parent.now ∷ reverse above.now)) }
    ensures flushed { OfSound S.NodeStore store.old
        (OnOk result (IsFlushed (S.nodes store.old) (S.table store.old)
        (S.nodes store.new) (S.table store.new))) }
    ensures made { OfSound S.NodeStore store.old
        (OnOk result (IsMadeBy (IsBetweenStep (S.table store.old).root (S.table store.old).next
        (parent.now ∷ reverse above.now) child.now halves)
        (S.nodes store.old) (S.table store.old) (S.nodes store.new) (S.table store.new))) }
    ensures table { OnOk result (IsHardlyHigher (S.table store.old) (S.table store.new)) }
    ensures risen { OnOk result
        (¬ CannotRise (level_of child.now.node.value + 1) (parent.now ∷ reverse above.now)) }
    ensures stays { Stays S.NodeStore store.old store.new }
    ensures err { OnErr result (OnlyReads S.NodeStore store.old store.new) }
    ensures few_visits { S.visit_count store.new ≤ S.visit_count store.old + 2 }
    ensures cause { HasMapCause (S.fault_count store.old) (S.fault_count store.new)
        (S.last_failed store.new) (S.bad store.new) (IsWornFor (IsBetweenStep
        (S.table store.old).root (S.table store.old).next (parent.now ∷ reverse above.now) child.now
        halves) (CannotRise (level_of child.now.node.value + 1) (parent.now ∷ reverse above.now))
        (S.table store.old)) result }
{
    let root = store.root();
    let next = store.next_id();
    let step = match between_plan(alloc, root, next, above, parent, child, halves)? {
        Plan::Ready(step) => step,
        Plan::NoId => return Err(MapFault::Worn(Counter::NextId)),
        Plan::NoLevel => return Err(MapFault::Worn(Counter::Level)),
    };
    store.commit(step)
}

// The step that puts a child between its parent and its halves.
fn between_plan(
    alloc: Global,
    root: u64,
    next: u64,
    above: &[Fetched],
    parent: &Fetched,
    child: &Fetched,
    halves: Halves,
) -> Result<Plan, AllocError>
    requires shapes { AllByRecursion (λ (f : Fetched). IsShape f.node.value)
        (parent.now ∷ reverse above.now) }
    requires low { level_of child.now.node.value < level_limit }
    ensures { IfOk result (IsPlanOf (IsBetweenStep root next (parent.now ∷ reverse above.now)
        child.now halves) next
        (CannotRise (level_of child.now.node.value + 1) (parent.now ∷ reverse above.now))) }
{
    let level = child.node.level() + 1;
    let Some(risen) = raise_way(Vec::new(alloc), above, parent, level)? else {
        return Ok(Plan::NoLevel);
    };
    match over_step(alloc, root, next, child.id, level, halves, risen)? {
        Some(step) => Ok(Plan::Ready(step)),
        None => Ok(Plan::NoId),
    }
}
