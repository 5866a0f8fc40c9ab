//! What a command sends to a tree of nodes, over any store.

ghost use Rattle.std.specs.Prelude.{◌≡◌, ◌≤◌, IfErr, OnOk, OnErr};
ghost use Rattle.bd_limits.specs.Limits.{late_limit};
ghost use Rattle.bd_message.specs.KeyMaps.{HasMapCause, NeverWorn, IsApplied, IsGrafted};
ghost use Rattle.bd_node.specs.Frames.{OfSound, OnlyReads, Stays};
ghost use Rattle.bd_node.specs.Steps.{HasGrown};
ghost use Rattle.bd_node.specs.Tables.{root_at, IsSound};
ghost use Rattle.bd_graft.specs.Grafting.{IsWornForGraft, IsWornByGraft, OnWorn};
ghost use Rattle.bd_represent.specs.Plans.{IsSmallBatch};
ghost use Rattle.bd_dirs.specs.Plans.{IsReady};
ghost use Rattle.bd_dirs.specs.declared.plan.Plan.TheVariants as plan;
ghost use Rattle.bd_view.specs.Trees.{IsAppended, IsGraftMade, IsWalked};

use bd_message::{MapFault, Message};
use bd_node::NodeStore;
use bd_tree::Tree;

/// Puts messages after those that wait in the root, where at most 24,576 bytes do. A fault leaves
/// all as it was.
pub fn append<S: NodeStore>(tree: &mut Tree<S>, list: &[Message]) -> Result<(), MapFault>
    requires small { IsSmallBatch list.now }
    requires room { (S.table tree.old.store).size ≤ late_limit }
    ensures table { OnOk result
        (HasGrown (S.table tree.old.store) list.now (S.table tree.new.store)) }
    ensures walk { tree.new.walk ≡ tree.old.walk }
    ensures stays { Stays S.NodeStore tree.old.store tree.new.store }
    ensures err { OnErr result (OnlyReads S.NodeStore tree.old.store tree.new.store) }
    ensures cause { HasMapCause (S.fault_count tree.old.store) (S.fault_count tree.new.store)
        (S.last_failed tree.new.store) (S.bad tree.new.store) NeverWorn result }

    // Where the nodes are known and sound.
    ensures appended { OfSound S.NodeStore tree.old.store (OnOk result
        (IsAppended (S.nodes tree.old.store) (S.table tree.old.store) list.now
        (S.nodes tree.new.store) (S.table tree.new.store))) }
    ensures applied { OfSound S.NodeStore tree.old.store (OnOk result
        (IsApplied (root_at (S.nodes tree.old.store) (S.table tree.old.store)) list.now
        (root_at (S.nodes tree.new.store) (S.table tree.new.store)))) }
{
    tree.apply(list)
}

/// Makes a graft, where at most 24,576 bytes wait in the root. A fault leaves all as it was.
pub fn graft<S: NodeStore>(
    tree: &mut Tree<S>,
    s: &[u8],
    d: &[u8],
    keep: bool,
) -> Result<(), MapFault>
    requires ready { IsReady (plan.Graft s.now d.now keep) }
    requires room { (S.table tree.old.store).size ≤ late_limit }
    ensures walked { OnOk result
        (IsWalked (S.table tree.old.store) (S.table tree.new.store) tree.new.walk) }
    ensures err_walk { OnErr result (tree.new.walk ≡ tree.old.walk) }
    ensures stays { Stays S.NodeStore tree.old.store tree.new.store }
    ensures err { OnErr result (OnlyReads S.NodeStore tree.old.store tree.new.store) }
    ensures cause { HasMapCause (S.fault_count tree.old.store) (S.fault_count tree.new.store)
        (S.last_failed tree.new.store) (S.bad tree.new.store)
        (IsWornForGraft (S.table tree.old.store)) result }

    // Where the nodes are known and sound.
    ensures made { OfSound S.NodeStore tree.old.store (OnOk result
        (IsGraftMade (S.nodes tree.old.store) (S.table tree.old.store) s.now d.now keep
        (S.nodes tree.new.store) (S.table tree.new.store) tree.new.walk)) }
    ensures grafted { OfSound S.NodeStore tree.old.store (OnOk result
        (IsGrafted (root_at (S.nodes tree.old.store) (S.table tree.old.store)) s.now d.now keep
        (root_at (S.nodes tree.new.store) (S.table tree.new.store)))) }
    ensures sound { OfSound S.NodeStore tree.old.store (OnOk result
        (IsSound (S.nodes tree.new.store) (S.table tree.new.store))) }
    ensures worn { OfSound S.NodeStore tree.old.store (IfErr result (OnWorn
        (IsWornByGraft (S.nodes tree.old.store) (S.table tree.old.store) s.now d.now keep))) }
{
    tree.graft(s, d, keep)
}
