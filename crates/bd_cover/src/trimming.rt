//! Children that have more than their only edge asks them for.

ghost use Rattle.std.specs.Prelude.{◌≡◌, ◌↔◌, ℕ, ◌+◌, ◌-◌, ◌*◌, ◌<◌, ◌≤◌, length, IsTrue, IfOk, OnOk, OnErr};
ghost use Rattle.std.specs.Option.{option_copied};
ghost use Rattle.bd_keys.specs.Keys.{IsKey};
ghost use Rattle.bd_message.specs.KeyMaps.{HasMapCause, NeverWorn};
ghost use Rattle.bd_node.specs.Frames.{OfSound, OnlyReads, Stays};
ghost use Rattle.bd_node.specs.declared.node.Edge.{Edge};
ghost use Rattle.bd_node.specs.declared.node.Node.{Node};
ghost use Rattle.bd_node.specs.Nodes.{edge_names};
ghost use Rattle.bd_node.specs.Parts.{IsEdgeAt};
ghost use Rattle.bd_node.specs.Shape.{IsShape};
ghost use Rattle.bd_node.specs.Tables.{IsTable};
ghost use Rattle.bd_path.specs.Fetching.{IsFetched, IsOwn};
ghost use Rattle.bd_path.specs.Flushed.{IsNoHigher};
ghost use Rattle.bd_path.specs.Made.{AreKnown, WearsOut};
ghost use Rattle.bd_copy.specs.Narrowing.{IsAsking, IsNarrowed, asked_from, asked_end};
ghost use Rattle.bd_cover.specs.Bare.{HasChildAt};
ghost use Rattle.bd_cover.specs.Trimming.{IsWalked, IsTrimmed, IsTrimWay, IsTrimAt};
ghost use Rattle.bd_cover.specs.Reclaimed.{IsReclaimed, IsTrimmedAt, IsTrimStep, left_at, left_over};

use bd_copy::{asked_end, asked_from, narrow};
use bd_message::MapFault;
use bd_node::{Edge, Node, NodeStore, Step, end_of};
use bd_path::{Fetched, change_step, fetch};
use std::alloc::{AllocError, Global};

/// Whether an edge, whose keys end at `hi`, asks its child with nothing in front of a key, and less is
/// left to change at what it asks of the child than at the child. The walk goes from the edge to the
/// child, which is fetched at most once: at most one visit.
pub fn is_trimmed<S: NodeStore>(
    alloc: Global,
    store: &mut S,
    child: u64,
    edge: &Edge,
    hi: Option<&[u8]>,
) -> Result<bool, MapFault>
    requires walked { IsWalked (S.table store.old) edge.now child }
    requires asking { IsAsking edge.now (option_copied hi) }
    ensures trim { S.is_known store.old → IfOk result (λ is_so. IsTrue is_so
        ↔ IsTrimWay (S.nodes store.old) (S.table store.old) edge.now (option_copied hi.entry)) }
    ensures left { OnlyReads S.NodeStore store.old store.new }
    ensures cause { HasMapCause (S.fault_count store.old) (S.fault_count store.new)
        (S.last_failed store.new) (S.bad store.new) NeverWorn result }
    ensures few_visits { S.visit_count store.new ≤ S.visit_count store.old + 1 }
{
    if !edge.source.is_empty() {
        return Ok(false);
    }
    let child = fetch(store, child)?;
    Ok(has_more(alloc, &child.node, edge, hi)?)
}

// Whether less is left to change at what an edge, whose keys end at `hi`, asks of a node than at the
// node.
fn has_more(alloc: Global, node: &Node, edge: &Edge, hi: Option<&[u8]>) -> Result<bool, AllocError>
    requires shape { IsShape node.now }
    requires asking { IsAsking edge.now (option_copied hi) }
    ensures { IfOk result (λ is_so. IsTrue is_so
        ↔ ((made : Node) × IsTrimmed edge.now (option_copied hi.entry) node.now made)) }
{
    let made = asked_of(alloc, node, edge, hi)?;
    Ok(left_at(&made) < left_at(node))
}

// What an edge without a source, whose keys end at `hi`, asks of a node.
fn asked_of(alloc: Global, node: &Node, edge: &Edge, hi: Option<&[u8]>) -> Result<Node, AllocError>
    requires shape { IsShape node.now }
    requires asking { IsAsking edge.now (option_copied hi) }
    ensures node { IfOk result (IsNarrowed (asked_from edge.now)
        (asked_end edge.now (option_copied hi.entry)) node.now) }
    ensures shape { IfOk result IsShape }
    ensures bytes { IsKey (asked_from edge.now) }
{
    narrow(alloc, node, asked_from(edge), asked_end(edge, hi))
}

// How much is left to change at a node at most.
fn left_at(node: &Node) -> usize
    requires { IsShape node.now }
    ensures { result ≡ left_at node.now }
{
    let count = node.buffer().len();
    let mut left = 0;
    for edge in node.edges() {
        left += left_for(edge, count);
    }
    left
}

// How much is left to change at an edge at most, where so many messages wait in its node.
fn left_for(edge: &Edge, count: usize) -> usize
    requires seen { edge.now.seen ≤ count }
    requires few { count ≤ 2048 }
    ensures { result ≡ 2 * (count - edge.now.seen) + length (edge_names edge.now) }
{
    let unseen = count - edge.seen as usize;
    match edge.child {
        Some(_) => 2 * unseen + 1,
        None => 2 * unseen,
    }
}

/// Changes the child of the edge at a place of a private node to what the edge asks it for. The child
/// is fetched before: one visit. No node is made.
pub fn trim<S: NodeStore>(
    alloc: Global,
    store: &mut S,
    node: &Fetched,
    place: usize,
) -> Result<(), MapFault>
    requires fetched { IsFetched (S.table store.old) node.now }
    requires child { HasChildAt node.now.node.value place }
    requires own { OfSound S.NodeStore store.old
        (IsOwn (S.nodes store.old) (S.table store.old) node.now) }
    requires trim { OfSound S.NodeStore store.old
        (IsTrimAt (S.nodes store.old) (S.table store.old) node.now.node.value place) }
    ensures reclaimed { OfSound S.NodeStore store.old
        (OnOk result (IsReclaimed (S.nodes store.old) (S.table store.old)
        (S.nodes store.new) (S.table store.new))) }
    ensures trimmed { OfSound S.NodeStore store.old
        (OnOk result (IsTrimmedAt (S.nodes store.old) node.now place
        (S.nodes store.new) (S.table store.new))) }
    ensures falls { OfSound S.NodeStore store.old
        (OnOk result (left_over (S.nodes store.new) (S.table store.new)
        < left_over (S.nodes store.old) (S.table store.old))) }
    ensures next { OnOk result ((S.table store.new).next ≡ (S.table store.old).next) }
    ensures root { OnOk result (IsNoHigher (S.table store.old) (S.table store.new)) }
    ensures stays { Stays S.NodeStore store.old store.new }
    ensures err { OnErr result (OnlyReads S.NodeStore store.old store.new) }
    ensures few_visits { S.visit_count store.new ≤ S.visit_count store.old + 1 }
    ensures cause { HasMapCause (S.fault_count store.old) (S.fault_count store.new)
        (S.last_failed store.new) (S.bad store.new)
        (WearsOut (IsTrimStep (AreKnown S.NodeStore store.old) (S.nodes store.old)
        (S.table store.old) node.now place) (S.table store.old)) result }
{
    let step = trim_step(alloc, store, node, place)?;
    store.commit(step)
}

// The step that changes the child of the edge at a place of a node to what the edge asks it for.
fn trim_step<S: NodeStore>(
    alloc: Global,
    store: &mut S,
    node: &Fetched,
    place: usize,
) -> Result<Step, MapFault>
    requires fetched { IsFetched (S.table store.old) node.now }
    requires child { HasChildAt node.now.node.value place }
    ensures step { IfOk result (IsTrimStep (AreKnown S.NodeStore store.old) (S.nodes store.old)
        (S.table store.old) node.now place) }
    ensures bytes { IfOk result (λ step. (e : Edge) → IsEdgeAt node.now.node.value place e
        → IsKey (asked_from e)) }
    ensures table { IsTable (S.table store.old) }
    ensures left { OnlyReads S.NodeStore store.old store.new }
    ensures cause { HasMapCause (S.fault_count store.old) (S.fault_count store.new)
        (S.last_failed store.new) (S.bad store.new) NeverWorn result }
    ensures few_visits { S.visit_count store.new ≤ S.visit_count store.old + 1 }
{
    let root = store.root();
    let edges = node.node.edges();
    let edge = &edges[place];
    let hi = end_of(edges, place);
    let Some(id) = edge.child else { unreachable!() };
    let child = fetch(store, id)?;
    let made = asked_of(alloc, &child.node, edge, hi)?;
    Ok(change_step(alloc, root, child.id, made)?)
}
