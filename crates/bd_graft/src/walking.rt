//! The way of a prefix, from the root down to what answers for it.

ghost use Rattle.std.specs.Prelude.{◌≡◌, ℕ, ◌+◌, ◌<◌, if◌then◌else◌, None, ◌≤◌, ◌⊎◌, ◌++◌, List, length, drop, Some, IfOk, IfSome, IfNone, OnOk};
ghost use Rattle.bd_limits.specs.Limits.{key_limit};
ghost use Rattle.bd_keys.specs.Keys.{IsKey};
ghost use Rattle.bd_message.specs.Effect.{NodesAt, acts};
ghost use Rattle.bd_message.specs.KeyMaps.{HasMapCause, NeverWorn};
ghost use Rattle.bd_node.specs.Frames.{OfSound, OnlyReads};
ghost use Rattle.bd_node.specs.declared.node.Node.{Node};
ghost use Rattle.bd_node.specs.Nodes.{node_at};
ghost use Rattle.bd_node.specs.Meaning.{at};
ghost use Rattle.bd_node.specs.Tables.{IsKept, root_at};
ghost use Rattle.bd_node.specs.Stores.{visited};
ghost use Rattle.bd_node.specs.Parts.{buffer_of};
ghost use Rattle.bd_resolve.specs.Following.{target_at, IsLowerTarget, IsShort};
ghost use Rattle.bd_graft.specs.Layers.{all_freed, laid, IsLayer, AreLayers};
ghost use Rattle.bd_graft.specs.Walking.{end_at, IsWay, IsPassed, HasRoot, fetched_on, messages_in};

use crate::layers::{Layer, above, all_freed};
use bd_keys::Bytes;
use bd_limits::MAX_KEY;
use bd_message::{MapFault, Message};
use bd_node::{Messages, Node, NodeStore};
use bd_resolve::{Followed, Target, follow};
use std::alloc::{AllocError, Global};

/// What answers for a prefix at the end of its way, and the newer messages that wait on the way.
#[derive(Debug, Drop)]
pub struct Walked {
    /// The messages of the nodes on the way, the root's first.
    pub layers: Vec<Layer>,
    /// The end of the way, or nothing.
    pub end: Option<Target>,
    /// How many nodes were fetched.
    pub fetched: u64,
}

/// One node of a way, and where it leads.
#[derive(Debug, Drop)]
pub struct Passed {
    pub layer: Layer,
    pub target: Option<Target>,
}

/// The way of a prefix from the root down: at each key that begins with it the tree has what stands
/// at the way's end, changed by the messages met on the way. It leads on where one message or edge
/// answers for all these keys. Each node on it is visited, but for a leaf, at which it ends.
pub fn walk<S: NodeStore>(alloc: Global, store: &mut S, prefix: &[u8]) -> Result<Walked, MapFault>
    requires { length prefix.now ≤ key_limit }
    ensures value { OfSound S.NodeStore store.old
        (IfOk result (λ way. (k : List ℕ) → IsKey k
        → acts (at (S.nodes store.old)) (laid way.layers.items) k
        (target_at (at (S.nodes store.old)) way.end k)
        ≡ root_at (S.nodes store.old) (S.table store.old) (prefix.now ++ k))) }
    ensures way { OfSound S.NodeStore store.old
        (IfOk result (λ way. IsWay (S.nodes store.old) (S.table store.old).root prefix.now
        (messages_in way.layers.items) way.end)) }
    ensures layers { IfOk result (λ way. AreLayers (S.table store.old)
        ((S.table store.old).level (S.table store.old).root + 1) way.layers.items way.end) }
    ensures short { IfOk result (λ way. IsShort way.end) }
    ensures left { OnlyReads S.NodeStore store.old store.new }
    ensures cause { HasMapCause (S.fault_count store.old) (S.fault_count store.new)
        (S.last_failed store.new) (S.bad store.new) NeverWorn result }
    ensures fetched { IfOk result (λ way. way.fetched
        ≡ fetched_on (S.table store.old) (messages_in way.layers.items) way.end) }
    ensures visits { IfOk result (λ way. S.visit_count store.new
        ≡ visited (S.visit_count store.old) way.fetched) }
    ensures root { OnOk result
        (HasRoot (S.is_known store.old) (S.nodes store.old) (S.table store.old)) }
    ensures few_visits { S.visit_count store.new ≤ S.visit_count store.old
        + (S.table store.old).level (S.table store.old).root }
{
    let mut id = store.root();
    let mut asked = Bytes::from_slice(alloc, prefix)?;
    let mut layers = Vec::new(alloc);
    loop {
        if store.level(id) == 0 {
            return Ok(ended(layers, id, asked, 0));
        }
        let Some(Passed { layer, target }) = passed_node(alloc, store, id, asked.as_slice())? else {
            return Ok(ended(layers, id, asked, 1));
        };
        layers.push(layer)?;
        match target {
            Some(target) => {
                id = target.child;
                asked = target.source;
            }
            None => {
                let fetched = layers.len() as u64;
                return Ok(Walked {
                    layers,
                    end: None,
                    fetched,
                });
            }
        }
    }
}

// A way that ends at a node, which is fetched once or not, or at nothing where no key can begin with
// what is asked.
fn ended(layers: Vec<Layer>, child: u64, source: Bytes, fetches: u64) -> Walked
    requires { fetches ≤ 1 }
    ensures layers { result.layers.items ≡ layers.items }
    ensures end { result.end ≡ end_at child source }
    ensures fetched { result.fetched ≡ length layers.items + fetches }
{
    let fetched = layers.len() as u64 + fetches;
    let end = if source.len() > MAX_KEY {
        None
    } else {
        Some(Target { child, source })
    };
    Walked {
        layers,
        end,
        fetched,
    }
}

// An inner node of the way of a prefix, and where it leads; `None` where the way ends there.
fn passed_node<S: NodeStore>(
    alloc: Global,
    store: &mut S,
    id: u64,
    prefix: &[u8],
) -> Result<Option<Passed>, MapFault>
    requires kept { IsKept (S.table store.old) id }
    requires inner { 1 ≤ (S.table store.old).level id }
    ensures passed { S.is_known store.old → IfOk result (λ found. IfSome found (λ on. (n : Node)
        → S.nodes store.old id ≡ Some n → (below : NodesAt) (k : List ℕ)
        → node_at below n (prefix.now ++ k)
        ≡ acts below on.layer.messages k (target_at below on.target k))) }
    ensures led { S.is_known store.old → IfOk result (λ found. (n : Node)
        → S.nodes store.old id ≡ Some n → IsPassed n prefix.now found) }
    ensures layer { IfOk result (λ found. IfSome found (λ on.
        IsLayer (S.table store.old) on.layer)) }
    ensures level { IfOk result (λ found. IfSome found (λ on.
        on.layer.level ≡ (S.table store.old).level id)) }
    ensures lower { IfOk result (λ found. IfSome found (λ on.
        IsLowerTarget (S.table store.old) ((S.table store.old).level id) on.target)) }
    ensures end { IfOk result (λ found. IfNone found (length prefix.now ≤ key_limit)) }
    ensures bytes { IsKey prefix.now }
    ensures root { OnOk result (id ≡ (S.table store.old).root
        → HasRoot (S.is_known store.old) (S.nodes store.old) (S.table store.old)) }
    ensures left { OnlyReads S.NodeStore store.old store.new }
    ensures cause { HasMapCause (S.fault_count store.old) (S.fault_count store.new)
        (S.last_failed store.new) (S.bad store.new) NeverWorn result }
    ensures visits { S.visit_count store.new ≡ visited (S.visit_count store.old) 1 }
{
    let node = store.fetch(id)?;
    match follow(alloc, &node, prefix)? {
        Followed::Here => Ok(None),
        Followed::Past { newer, target } => {
            let messages = newer_messages(alloc, &node, newer, prefix)?;
            let layer = Layer {
                over: above(&*store, messages.as_slice()),
                messages,
                level: node.level(),
            };
            Ok(Some(Passed { layer, target }))
        }
    }
}

// The messages of an inner node from a place on, freed of a prefix.
fn newer_messages(
    alloc: Global,
    node: &Node,
    newer: usize,
    prefix: &[u8],
) -> Result<Messages, AllocError>
    ensures { IfOk result (λ list. list ≡ all_freed prefix.now (drop newer (buffer_of node.now))) }
{
    let buffer = match node {
        Node::Leaf(_) => &[],
        Node::Inner { buffer, .. } => buffer.as_slice(),
    };
    Ok(Messages::from_vec(all_freed(alloc, rest_of(buffer, newer), prefix)?))
}

// The messages from a place on.
fn rest_of(list: &[Message], from: usize) -> &[Message]
    ensures { result.now ≡ drop from list.now }
{
    if from <= list.len() {
        &list[from..]
    } else {
        &[]
    }
}
