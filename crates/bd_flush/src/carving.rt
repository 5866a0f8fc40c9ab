//! The keys of a Goto get edges of their own.

ghost use Rattle.std.specs.Prelude.{◌≡◌, ◌<◌, ◌≤◌, IfOk, OnOk, OnErr};
ghost use Rattle.bd_message.specs.KeyMaps.{HasMapCause};
ghost use Rattle.bd_node.specs.Frames.{OfSound, OnlyReads, Stays};
ghost use Rattle.bd_path.specs.Flushed.{IsFlushed, IsNoHigher};
ghost use Rattle.bd_path.specs.Made.{IsMadeBy, IsWornFor};
ghost use Rattle.bd_path.specs.Fetching.{IsOwn};
ghost use Rattle.bd_flush.specs.Carving.{CanCarve, IsCarveStep};
ghost use Rattle.bd_path.specs.Paths.{change_step};

use bd_message::MapFault;
use bd_node::{Node, NodeStore, Step};
use bd_path::{Fetched, change_step};
use std::alloc::{AllocError, Global};

/// Carves out the oldest Goto that is pending for a private node's edge at a place, and may not go
/// down it; it stands at the index among the node's messages. The keys that it covers, in the edges
/// that haven't seen it, get edges of their own to the node that it names. The node was fetched
/// before, and has at most 14 edges. No node is fetched or made.
pub fn carve<S: NodeStore>(
    alloc: Global,
    store: &mut S,
    parent: &Fetched,
    place: usize,
    index: usize,
) -> Result<(), MapFault>
    requires can { CanCarve (S.table store.old) parent.now place index }
    requires own { OfSound S.NodeStore store.old
        (IsOwn (S.nodes store.old) (S.table store.old) parent.now) }
    ensures flushed { OfSound S.NodeStore store.old
        (OnOk result (IsFlushed (S.nodes store.old) (S.table store.old)
        (S.nodes store.new) (S.table store.new))) }
    ensures made { OfSound S.NodeStore store.old
        (OnOk result (IsMadeBy (IsCarveStep (S.table store.old) parent.now place)
        (S.nodes store.old) (S.table store.old) (S.nodes store.new) (S.table store.new))) }
    ensures table { OnOk result (IsNoHigher (S.table store.old) (S.table store.new)) }
    ensures stays { Stays S.NodeStore store.old store.new }
    ensures err { OnErr result (OnlyReads S.NodeStore store.old store.new) }
    ensures few_visits { S.visit_count store.new ≤ S.visit_count store.old }
    ensures cause { HasMapCause (S.fault_count store.old) (S.fault_count store.new)
        (S.last_failed store.new) (S.bad store.new) (IsWornFor (IsCarveStep (S.table store.old)
        parent.now place) ⊥ (S.table store.old)) result }
{
    let root = store.root();
    let step = carve_step(alloc, store, root, parent, place, index)?;
    store.commit(step)
}

// The step that carves out the Goto at the index, the oldest one that is pending for the edge at a
// place, and may not go down it.
fn carve_step<S: NodeStore>(
    alloc: Global,
    store: &S,
    root: u64,
    parent: &Fetched,
    place: usize,
    index: usize,
) -> Result<Step, AllocError>
    requires root { root ≡ (S.table store.now).root }
    requires can { CanCarve (S.table store.now) parent.now place index }
    ensures { IfOk result (λ step. IsCarveStep (S.table store.now) parent.now place step) }
{
    let node: &Node = &parent.node;
    let carved = bd_inner::carve(alloc, node, index)?;
    change_step(alloc, root, parent.id, carved)
}
