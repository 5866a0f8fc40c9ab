//! A root that adds nothing to its child goes.

ghost use Rattle.std.specs.Prelude.{◌≡◌, ◌+◌, ◌<◌, ◌≤◌, OnOk, OnErr, Some};
ghost use Rattle.bd_message.specs.KeyMaps.{HasMapCause};
ghost use Rattle.bd_node.specs.Frames.{OfSound, OnlyReads, Stays};
ghost use Rattle.bd_node.specs.declared.node.Node.{Node};
ghost use Rattle.bd_node.specs.Steps.{IsWornBy};
ghost use Rattle.bd_node.specs.Tables.{IsLower};
ghost use Rattle.bd_cover.specs.Walking.{IsThin};
ghost use Rattle.bd_cover.specs.Reclaimed.{IsReclaimed, IsShrunk, root_only, left_over};

use bd_message::MapFault;
use bd_node::{Items, NodeStore, Step};
use bd_path::fetch;
use std::alloc::Global;

/// Makes an inner node the root to which the root adds nothing. It is fetched before, so that the
/// store knows what waits in it: one visit. No node is made.
pub fn shrink<S: NodeStore>(alloc: Global, store: &mut S, child: u64) -> Result<(), MapFault>
    requires lower { IsLower (S.table store.old)
        ((S.table store.old).level (S.table store.old).root) child }
    requires inner { 1 ≤ (S.table store.old).level child }
    requires thin { OfSound S.NodeStore store.old
        ((n : Node) × (S.nodes store.old (S.table store.old).root ≡ Some n)
        × IsThin (S.table store.old) n child) }
    ensures reclaimed { OfSound S.NodeStore store.old
        (OnOk result (IsReclaimed (S.nodes store.old) (S.table store.old)
        (S.nodes store.new) (S.table store.new))) }
    ensures shrunk { OfSound S.NodeStore store.old
        (OnOk result (IsShrunk (S.nodes store.old) child
        (S.nodes store.new) (S.table store.new))) }
    ensures falls { OfSound S.NodeStore store.old
        (OnOk result (left_over (S.nodes store.new) (S.table store.new)
        < left_over (S.nodes store.old) (S.table store.old))) }
    ensures next { OnOk result ((S.table store.new).next ≡ (S.table store.old).next) }
    ensures root { OnOk result ((S.table store.new).root ≡ child) }
    ensures level { OnOk result ((S.table store.new).level (S.table store.new).root
        ≡ (S.table store.old).level child) }
    ensures stays { Stays S.NodeStore store.old store.new }
    ensures err { OnErr result (OnlyReads S.NodeStore store.old store.new) }
    ensures few_visits { S.visit_count store.new ≤ S.visit_count store.old + 1 }
    ensures cause { HasMapCause (S.fault_count store.old) (S.fault_count store.new)
        (S.last_failed store.new) (S.bad store.new)
        (IsWornBy (S.table store.old) (root_only child)) result }
{
    fetch(store, child)?;
    store.commit(root_only(alloc, child))
}

// The step that makes another node the root, and no other change.
fn root_only(alloc: Global, root: u64) -> Step
    ensures { result ≡ root_only root }
{
    Step {
        made: Items::new(alloc),
        changes: Items::new(alloc),
        root,
    }
}
