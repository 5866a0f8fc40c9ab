//! A child that is shared, or asked through a source, is copied.

ghost use Rattle.std.specs.Prelude.{◌≡◌, ◌+◌, ◌*◌, ◌≤◌, ◌++◌, ℕ, List, drop, length, Some, IfOk, OnOk, OnErr, ⊤};
ghost use Rattle.std.specs.List.{AllByRecursion};
ghost use Rattle.std.specs.Option.{option_copied};
ghost use Rattle.bd_keys.specs.Keys.{InRange, IsKey};
ghost use Rattle.bd_limits.specs.Limits.{key_limit};
ghost use Rattle.bd_message.specs.KeyMaps.{HasMapCause, NeverWorn};
ghost use Rattle.bd_node.specs.Compaction.{IsLooseNode};
ghost use Rattle.bd_node.specs.Frames.{OfSound, OnlyReads, Stays};
ghost use Rattle.bd_node.specs.declared.node.Edge.{Edge};
ghost use Rattle.bd_node.specs.Nodes.{level_of, names, node_at};
ghost use Rattle.bd_node.specs.Meaning.{at};
ghost use Rattle.bd_node.specs.Tables.{IsLower, IsNodeOf, IsSound};
ghost use Rattle.bd_node.specs.Parts.{IsEdgeAt};
ghost use Rattle.bd_path.specs.Flushed.{IsFlushed, IsNoHigher};
ghost use Rattle.bd_path.specs.Made.{AreKnown, IsMadeBy, IsWornFor};
ghost use Rattle.bd_path.specs.Fetching.{IsOwn};
ghost use Rattle.bd_copy.specs.Narrowing.{IsAsking};
ghost use Rattle.bd_copy.specs.Privatising.{IsFreed, IsCopyOf, HasChild, IsPrivatiseStep};

use crate::copying::put_copy;
use crate::narrowing::{asked_end, asked_from, narrow};
use crate::shortening::shorten;
use bd_inner::clip;
use bd_leaf as leaf;
use bd_message::MapFault;
use bd_node::{Edge, Node, NodeStore, end_of};
use bd_path::{Fetched, fetch};
use std::alloc::Global;

/// Copies the child of a private node's edge, which was fetched before: the copy is made, and the
/// edge then asks it with nothing in front of a key. It has for each key of the edge what the
/// child has for it behind the edge's source, and, unless it would have too many edges, nothing
/// for other keys (`narrow`). Where a source in the copy would have more than 518 bytes, what
/// answers for it is looked for below: at most 17 sources, each with as many visits as the child
/// is high. One node is fetched besides, and one made.
pub fn privatise<S: NodeStore>(
    alloc: Global,
    store: &mut S,
    parent: &Fetched,
    place: usize,
) -> Result<(), MapFault>
    requires can { HasChild (S.table store.old) parent.now place }
    requires own { OfSound S.NodeStore store.old
        (IsOwn (S.nodes store.old) (S.table store.old) parent.now) }
    ensures flushed { OfSound S.NodeStore store.old
        (OnOk result (IsFlushed (S.nodes store.old) (S.table store.old)
        (S.nodes store.new) (S.table store.new))) }
    ensures made { OfSound S.NodeStore store.old
        (OnOk result (IsMadeBy (IsPrivatiseStep ⊤ (S.nodes store.old) (S.table store.old)
        parent.now place) (S.nodes store.old) (S.table store.old)
        (S.nodes store.new) (S.table store.new))) }
    ensures table { OnOk result (IsNoHigher (S.table store.old) (S.table store.new)) }
    ensures stays { Stays S.NodeStore store.old store.new }
    ensures err { OnErr result (OnlyReads S.NodeStore store.old store.new) }
    ensures few_visits { (e : Edge) (child : ℕ) → IsEdgeAt parent.now.node.value place e
        → e.child ≡ Some child → S.visit_count store.new
        ≤ S.visit_count store.old + (2 + 17 * (S.table store.old).level child) }
    ensures cause { HasMapCause (S.fault_count store.old) (S.fault_count store.new)
        (S.last_failed store.new) (S.bad store.new)
        (IsWornFor (IsPrivatiseStep (AreKnown S.NodeStore store.old) (S.nodes store.old)
        (S.table store.old) parent.now place) ⊥ (S.table store.old)) result }
{
    let edges = parent.node.edges();
    let edge = &edges[place];
    let hi = end_of(edges, place);
    let Some(id) = edge.child else { unreachable!() };
    let child = fetch(store, id)?;
    let copy = copy_for(alloc, store, &child.node, edge, hi)?;
    put_copy(alloc, store, parent, place, copy)
}

// What an edge, whose keys end at `hi`, asks of a node, as a node of its own.
fn copy_for<S: NodeStore>(
    alloc: Global,
    store: &mut S,
    node: &Node,
    edge: &Edge,
    hi: Option<&[u8]>,
) -> Result<Node, MapFault>
    requires own { IsNodeOf (S.table store.old) (level_of node.now) node.now }
    requires asking { IsAsking edge.now (option_copied hi) }
    ensures copied { IfOk result
        (IsCopyOf (S.table store.old) node.now edge.now (option_copied hi.entry)) }
    ensures own { IfOk result (IsNodeOf (S.table store.old) (level_of node.now)) }
    ensures has { OfSound S.NodeStore store.old
        (IfOk result (λ copy. (k : List ℕ) → IsKey k
        → InRange edge.now.pivot (option_copied hi.entry) k
        → node_at (at (S.nodes store.old)) copy (drop edge.now.lift k)
        ≡ node_at (at (S.nodes store.old)) node.now (edge.now.source ++ drop edge.now.lift k))) }
    ensures bytes { IsKey edge.now.source }
    ensures left { OnlyReads S.NodeStore store.old store.new }
    ensures cause { HasMapCause (S.fault_count store.old) (S.fault_count store.new)
        (S.last_failed store.new) (S.bad store.new) NeverWorn result }
    ensures few_visits { S.visit_count store.new
        ≤ S.visit_count store.old + 17 * level_of node.now }
{
    let whole = freed(alloc, store, node, edge.source.as_slice())?;
    let copy = narrow(alloc, &whole, asked_from(edge), asked_end(edge, hi))?;
    Ok(copy)
}

// A node freed of a prefix. Messages may be pending for no edge.
fn freed<S: NodeStore>(
    alloc: Global,
    store: &mut S,
    node: &Node,
    s: &[u8],
) -> Result<Node, MapFault>
    requires own { IsNodeOf (S.table store.old) (level_of node.now) node.now }
    requires short { length s.now ≤ key_limit }
    ensures freed { IfOk result (IsFreed (S.table store.old) node.now s.now) }
    ensures loose { IfOk result IsLooseNode }
    ensures level { IfOk result (λ whole. level_of whole ≡ level_of node.now) }
    ensures lower { IfOk result (λ whole.
        AllByRecursion (IsLower (S.table store.old) (level_of node.now)) (names whole)) }
    ensures has { OfSound S.NodeStore store.old
        (IfOk result (λ whole. (k : List ℕ) → IsKey k → node_at (at (S.nodes store.old)) whole k
        ≡ node_at (at (S.nodes store.old)) node.now (s.now ++ k))) }
    ensures bytes { IsKey s.now }
    ensures left { OnlyReads S.NodeStore store.old store.new }
    ensures cause { HasMapCause (S.fault_count store.old) (S.fault_count store.new)
        (S.last_failed store.new) (S.bad store.new) NeverWorn result }
    ensures few_visits { S.visit_count store.new
        ≤ S.visit_count store.old + 17 * level_of node.now }
{
    match node {
        Node::Leaf(entries) => {
            let entries = leaf::clip(alloc, entries.as_slice(), s)?;
            Ok(Node::Leaf(entries))
        }
        Node::Inner { .. } => {
            let clipped = clip(alloc, node, s)?;
            Ok(shorten(alloc, store, &clipped)?)
        }
    }
}
