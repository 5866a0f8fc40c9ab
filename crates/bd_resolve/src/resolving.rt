//! What answers for a prefix that has grown too long to be stored, through nodes.

ghost use Rattle.std.specs.Prelude.{◌≡◌, ℕ, ◌+◌, ◌-◌, ◌<◌, ◌≤◌, ◌++◌, List, length, Some, IfOk};
ghost use Rattle.bd_limits.specs.Limits.{key_limit};
ghost use Rattle.bd_keys.specs.Keys.{IsKey};
ghost use Rattle.bd_message.specs.Effect.{NodesAt};
ghost use Rattle.bd_message.specs.KeyMaps.{HasMapCause, NeverWorn};
ghost use Rattle.bd_node.specs.Frames.{OfSound, OnlyReads};
ghost use Rattle.bd_node.specs.declared.node.Node.{Node};
ghost use Rattle.bd_node.specs.Nodes.{node_at};
ghost use Rattle.bd_node.specs.Meaning.{at};
ghost use Rattle.bd_node.specs.Tables.{IsKept, IsSound};
ghost use Rattle.bd_node.specs.Stores.{visited};
ghost use Rattle.bd_resolve.specs.Following.{target_at, target_level, IsLowerTarget, IsShort, AreNoneOr};

use crate::following::{Followed, Target, follow};
use bd_keys::Bytes;
use bd_limits::MAX_KEY;
use bd_message::MapFault;
use bd_node::NodeStore;
use std::alloc::Global;

/// What a kept node has at the keys that begin with a source, as what a node has at those that begin
/// with one of at most 518 bytes, or nothing. A source that is short stays. A longer one is looked
/// through: no key and no pivot stands below it, so one edge or Goto alone answers for it, or nothing.
/// There are at most as many visits as levels that it goes down.
pub fn resolve<S: NodeStore>(
    alloc: Global,
    store: &mut S,
    child: u64,
    source: Bytes,
) -> Result<Option<Target>, MapFault>
    requires { IsKept (S.table store.old) child }
    ensures value { OfSound S.NodeStore store.old
        (IfOk result (λ found. (k : List ℕ) → IsKey k
        → target_at (at (S.nodes store.old)) found k
        ≡ at (S.nodes store.old) child (source ++ k))) }
    ensures short { IfOk result IsShort }
    ensures lower { IfOk result
        (IsLowerTarget (S.table store.old) ((S.table store.old).level child + 1)) }
    ensures left { OnlyReads S.NodeStore store.old store.new }
    ensures cause { HasMapCause (S.fault_count store.old) (S.fault_count store.new)
        (S.last_failed store.new) (S.bad store.new) NeverWorn result }
    ensures visits { IfOk result (λ found. AreNoneOr
        ((S.table store.old).level child - target_level (S.table store.old) found)
        (S.visit_count store.old) (S.visit_count store.new)) }
    ensures few_visits { S.visit_count store.new
        ≤ S.visit_count store.old + (S.table store.old).level child }
{
    let mut id = child;
    let mut prefix = source;
    while prefix.len() > MAX_KEY {
        if store.level(id) == 0 {
            return Ok(None);
        }
        match looked_through(alloc, store, id, prefix.as_slice())? {
            Some(target) => {
                id = target.child;
                prefix = target.source;
            }
            None => return Ok(None),
        }
    }
    Ok(Some(Target {
        child: id,
        source: prefix,
    }))
}

// What an inner node has at the keys that begin with a prefix that is too long to be stored.
fn looked_through<S: NodeStore>(
    alloc: Global,
    store: &mut S,
    id: u64,
    prefix: &[u8],
) -> Result<Option<Target>, MapFault>
    requires kept { IsKept (S.table store.old) id }
    requires inner { 1 ≤ (S.table store.old).level id }
    requires long { key_limit < length prefix.now }
    ensures target { S.is_known store.old → IfOk result (λ found. (n : Node)
        → S.nodes store.old id ≡ Some n → (below : NodesAt) (k : List ℕ)
        → node_at below n (prefix.now ++ k) ≡ target_at below found k) }
    ensures lower { IfOk result
        (IsLowerTarget (S.table store.old) ((S.table store.old).level id)) }
    ensures bytes { IsKey prefix.now }
    ensures left { OnlyReads S.NodeStore store.old store.new }
    ensures cause { HasMapCause (S.fault_count store.old) (S.fault_count store.new)
        (S.last_failed store.new) (S.bad store.new) NeverWorn result }
    ensures visits { S.visit_count store.new ≡ visited (S.visit_count store.old) 1 }
{
    let node = store.fetch(id)?;
    match follow(alloc, &node, prefix)? {
        Followed::Here => unreachable!(),
        Followed::Past { target, .. } => Ok(target),
    }
}
