//! Cuts of fewer keys go down.

ghost use Rattle.std.specs.Prelude.{◌+◌, ◌≤◌, reverse, OnOk, OnErr};
ghost use Rattle.bd_message.specs.KeyMaps.{HasMapCause};
ghost use Rattle.bd_node.specs.Frames.{OfSound, OnlyReads, Stays};
ghost use Rattle.bd_path.specs.Made.{AreKnown};
ghost use Rattle.bd_path.specs.Fetching.{IsFetched, IsOwn, AreOwn};
ghost use Rattle.bd_path.specs.Raising.{IsWayUp};
ghost use Rattle.bd_step.specs.Beginning.{IsFoundFrom, IsMadeFrom, IsWornFrom};
ghost use Rattle.bd_step.specs.Steps.{step_visits};
ghost use Rattle.bd_cover.specs.Covering.{HasCut};
ghost use Rattle.bd_cover.specs.Reclaimed.{IsReclaimed};

use bd_message::MapFault;
use bd_node::NodeStore;
use bd_path::{Fetched, Way};
use bd_step::make_from;
use std::alloc::Global;

/// Makes a step of a flush that begins at the edge at a place of a private node, for which a Cut is
/// pending. The node and those above it were fetched before.
pub fn push_from<S: NodeStore>(
    alloc: Global,
    store: &mut S,
    above: Way,
    node: Fetched,
    place: usize,
) -> Result<(), MapFault>
    requires fetched { IsFetched (S.table store.old) node }
    requires cut { HasCut node.node.value place }
    requires way { IsWayUp (S.table store.old) node.id (reverse above) }
    requires own { OfSound S.NodeStore store.old
        (IsOwn (S.nodes store.old) (S.table store.old) node) }
    requires all_own { OfSound S.NodeStore store.old
        (AreOwn (S.nodes store.old) (S.table store.old) (reverse above)) }
    ensures reclaimed { OfSound S.NodeStore store.old
        (OnOk result (IsReclaimed (S.nodes store.old) (S.table store.old)
        (S.nodes store.new) (S.table store.new))) }
    ensures made { OfSound S.NodeStore store.old
        (OnOk result (IsMadeFrom (S.nodes store.old) (S.table store.old) above node place
        (S.nodes store.new) (S.table store.new))) }
    ensures found { OnOk result
        (IsFoundFrom (S.table store.old) above node place (S.table store.new)) }
    ensures stays { Stays S.NodeStore store.old store.new }
    ensures err { OnErr result (OnlyReads S.NodeStore store.old store.new) }
    ensures few_visits { S.visit_count store.new
        ≤ S.visit_count store.old + step_visits (S.table store.old) }
    ensures cause { HasMapCause (S.fault_count store.old) (S.fault_count store.new)
        (S.last_failed store.new) (S.bad store.new) (IsWornFrom (AreKnown S.NodeStore store.old)
        (S.nodes store.old) (S.table store.old) above node place) result }
{
    make_from(alloc, store, above, node, place)
}
