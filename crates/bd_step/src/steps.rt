//! One step of a flush.

ghost use Rattle.std.specs.Prelude.{◌≡◌, ◌≢◌, ◌↔◌, ◌+◌, ◌*◌, ◌<◌, ◌≤◌, true, false, reverse, OnOk, OnErr, Ok};
ghost use Rattle.bd_message.specs.KeyMaps.{HasMapCause};
ghost use Rattle.bd_node.specs.Frames.{OfSound, OnlyReads, Stays};
ghost use Rattle.bd_step.specs.declared.ways.FlushStep.TheVariants as step;
ghost use Rattle.bd_path.specs.Flushed.{IsFlushed};
ghost use Rattle.bd_path.specs.Made.{AreKnown};
ghost use Rattle.bd_path.specs.Raising.{IsWayUp};
ghost use Rattle.bd_step.specs.Ways.{IsDue, IsWaited, IsStanding, IsWayOf, IsWayThere};
ghost use Rattle.bd_path.specs.Fetching.{AreOwn};
ghost use Rattle.bd_step.specs.Steps.{IsFlushMade, IsHighAfter, IsWornStep, IsWornToFlush, IsFlushStep, IsFound, step_visits};

use crate::ways::{FlushStep, Site, Work, next_step};
use bd_copy::privatise;
use bd_flush::{carve, push, push_new, split_child, split_root};
use bd_message::MapFault;
use bd_node::NodeStore;
use std::alloc::Global;

/// Makes one step of a flush where more than `limit` bytes of messages wait in the root, and says
/// whether it did: at the place that the way down from the root finds, a node is split, messages go
/// down to a child or to a new leaf, a shared child is copied, or the keys of a Goto get edges of
/// their own. All changes are made at once or not at all. At most four nodes are made, and there
/// are at most as many visits as the tree is high, and four more; where a child is copied, also
/// those of at most 17 sources that are looked through, each at most as many as the tree is high.
pub fn flush_step<S: NodeStore>(
    alloc: Global,
    store: &mut S,
    limit: usize,
) -> Result<bool, MapFault>
    ensures enough { (result ≡ Ok false) ↔ ((S.table store.old).size ≤ limit) }
    ensures unchanged { result ≡ Ok false → store.new ≡ store.old }
    ensures step { OfSound S.NodeStore store.old
        (result ≡ Ok true → IsFlushStep (S.nodes store.old) (S.table store.old)
        (S.nodes store.new) (S.table store.new)) }
    ensures found { result ≡ Ok true → IsFound (S.table store.old) (S.table store.new) }
    ensures stays { Stays S.NodeStore store.old store.new }
    ensures rest { result ≢ Ok true → OnlyReads S.NodeStore store.old store.new }
    ensures few_visits { S.visit_count store.new
        ≤ S.visit_count store.old + step_visits (S.table store.old) }
    ensures cause { HasMapCause (S.fault_count store.old) (S.fault_count store.new)
        (S.last_failed store.new) (S.bad store.new) (IsWornToFlush (AreKnown S.NodeStore store.old)
        (S.nodes store.old) (S.table store.old)) result }
{
    if store.root_size() <= limit {
        return Ok(false);
    }
    let step = next_step(alloc, store)?;
    make(alloc, store, step)?;
    Ok(true)
}

/// Makes a step that was found. All changes are made at once or not at all. At most four nodes are
/// made, and there are at most four visits; where a child is copied, also those of at most 17
/// sources that are looked through, each at most as many as the tree is high.
pub fn make<S: NodeStore>(alloc: Global, store: &mut S, step: FlushStep) -> Result<(), MapFault>
    requires due { IsDue (S.table store.old) step }
    requires waited { IsWaited step }
    requires here { OfSound S.NodeStore store.old
        (IsStanding (S.nodes store.old) (S.table store.old) step) }
    requires way { IsWayOf (S.table store.old) step }
    requires way_here { OfSound S.NodeStore store.old
        (IsWayThere (S.nodes store.old) (S.table store.old) step) }
    ensures flushed { OfSound S.NodeStore store.old
        (OnOk result (IsFlushed (S.nodes store.old) (S.table store.old)
        (S.nodes store.new) (S.table store.new))) }
    ensures made { OfSound S.NodeStore store.old
        (OnOk result (IsFlushMade (S.nodes store.old) (S.table store.old) step
        (S.nodes store.new) (S.table store.new))) }
    ensures height { OnOk result (IsHighAfter (S.table store.old) step (S.table store.new)) }
    ensures stays { Stays S.NodeStore store.old store.new }
    ensures err { OnErr result (OnlyReads S.NodeStore store.old store.new) }
    ensures few_visits { S.visit_count store.new ≤ S.visit_count store.old
        + (4 + 17 * (S.table store.old).level (S.table store.old).root) }
    ensures cause { HasMapCause (S.fault_count store.old) (S.fault_count store.new)
        (S.last_failed store.new) (S.bad store.new) (IsWornStep (AreKnown S.NodeStore store.old)
        (S.nodes store.old) (S.table store.old) step) result }
{
    match step {
        FlushStep::SplitRoot { root } => split_root(alloc, store, &root.node),
        FlushStep::At { site, work } => work_at(alloc, store, site, work),
    }
}

// Makes a step at an edge.
fn work_at<S: NodeStore>(
    alloc: Global,
    store: &mut S,
    site: Site,
    work: Work,
) -> Result<(), MapFault>
    requires due { IsDue (S.table store.old) (step.At site work) }
    requires waited { IsWaited (step.At site work) }
    requires here { OfSound S.NodeStore store.old
        (IsStanding (S.nodes store.old) (S.table store.old) (step.At site work)) }
    requires way { IsWayUp (S.table store.old) site.parent.id (reverse site.above) }
    requires way_here { OfSound S.NodeStore store.old
        (AreOwn (S.nodes store.old) (S.table store.old) (reverse site.above)) }
    ensures flushed { OfSound S.NodeStore store.old
        (OnOk result (IsFlushed (S.nodes store.old) (S.table store.old)
        (S.nodes store.new) (S.table store.new))) }
    ensures made { OfSound S.NodeStore store.old
        (OnOk result (IsFlushMade (S.nodes store.old) (S.table store.old)
        (step.At site work) (S.nodes store.new) (S.table store.new))) }
    ensures height { OnOk result
        (IsHighAfter (S.table store.old) (step.At site work) (S.table store.new)) }
    ensures stays { Stays S.NodeStore store.old store.new }
    ensures err { OnErr result (OnlyReads S.NodeStore store.old store.new) }
    ensures few_visits { S.visit_count store.new ≤ S.visit_count store.old
        + (4 + 17 * (S.table store.old).level (S.table store.old).root) }
    ensures cause { HasMapCause (S.fault_count store.old) (S.fault_count store.new)
        (S.last_failed store.new) (S.bad store.new) (IsWornStep (AreKnown S.NodeStore store.old)
        (S.nodes store.old) (S.table store.old) (step.At site work)) result }
{
    let Site {
        above,
        parent,
        place,
    } = site;
    match work {
        Work::Split { child } => {
            split_child(alloc, store, above.as_slice(), &parent, place, &child)
        }
        Work::Push { child: None } => push_new(alloc, store, &parent, place),
        Work::Push { child: Some(child) } => {
            push(alloc, store, above.as_slice(), parent, place, child)
        }
        Work::Privatise => privatise(alloc, store, &parent, place),
        Work::Carve { index } => carve(alloc, store, &parent, place, index),
    }
}
