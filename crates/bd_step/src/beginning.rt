//! Steps of a flush that begin at an edge.

ghost use Rattle.std.specs.Prelude.{◌≡◌, ◌↔◌, ℕ, ◌+◌, ◌*◌, ◌<◌, ◌≤◌, [], length, reverse, IsTrue, IfOk, OnOk, OnErr};
ghost use Rattle.bd_limits.specs.Limits.{room_edges, full_edges};
ghost use Rattle.bd_message.specs.KeyMaps.{HasMapCause, NeverWorn};
ghost use Rattle.bd_node.specs.Frames.{OfSound, OnlyReads, Stays};
ghost use Rattle.bd_node.specs.declared.node.Edge.{Edge};
ghost use Rattle.bd_node.specs.Meaning.{Nodes};
ghost use Rattle.bd_node.specs.Tables.{Table};
ghost use Rattle.bd_node.specs.Parts.{edges_of, IsEdgeAt};
ghost use Rattle.bd_path.specs.Made.{AreKnown};
ghost use Rattle.bd_path.specs.Fetching.{IsFetched, IsEdgeTo, IsOwn, AreOwn};
ghost use Rattle.bd_path.specs.Flushed.{IsFlushed};
ghost use Rattle.bd_path.specs.Raising.{IsWayUp};
ghost use Rattle.bd_step.specs.Ways.{HasPendingAt, IsDue, IsWaited, IsStanding, IsReached, IsWayOf, IsWayThere};
ghost use Rattle.bd_step.specs.Beginning.{IsSplitFirst, BeginsAt, IsFoundFrom, IsMadeFrom, IsWornFrom};

use crate::steps::make;
use crate::ways::{FlushStep, Site, Work, step_from};
use bd_limits::FULL_EDGES;
use bd_message::MapFault;
use bd_node::{Items, Node, NodeStore};
use bd_path::{Fetched, Way};
use std::alloc::Global;

/// Makes a step of a flush that begins at the edge at a place of a private node, for which a message
/// is pending. The node and those above it were fetched before. Where the node has 15 or 16 edges, it
/// is split first, or the nearest one above that can be. All changes are made at once or not at all;
/// at most four nodes are made, and there are at most as many visits as the node's level says, and
/// four more; where a child is copied, also those of at most 17 sources that are looked through.
pub fn make_from<S: NodeStore>(
    alloc: Global,
    store: &mut S,
    above: Way,
    node: Fetched,
    place: usize,
) -> Result<(), MapFault>
    requires fetched { IsFetched (S.table store.old) node }
    requires pending { HasPendingAt node.node.value place }
    requires way { IsWayUp (S.table store.old) node.id (reverse above) }
    requires own { OfSound S.NodeStore store.old
        (IsOwn (S.nodes store.old) (S.table store.old) node) }
    requires all_own { OfSound S.NodeStore store.old
        (AreOwn (S.nodes store.old) (S.table store.old) (reverse above)) }
    ensures flushed { OfSound S.NodeStore store.old
        (OnOk result (IsFlushed (S.nodes store.old) (S.table store.old)
        (S.nodes store.new) (S.table store.new))) }
    ensures made { OfSound S.NodeStore store.old
        (OnOk result (IsMadeFrom (S.nodes store.old) (S.table store.old) above node place
        (S.nodes store.new) (S.table store.new))) }
    ensures found { OnOk result
        (IsFoundFrom (S.table store.old) above node place (S.table store.new)) }
    ensures stays { Stays S.NodeStore store.old store.new }
    ensures err { OnErr result (OnlyReads S.NodeStore store.old store.new) }
    ensures few_visits { S.visit_count store.new ≤ S.visit_count store.old
        + (S.table store.old).level node.id
        + (4 + 17 * (S.table store.old).level (S.table store.old).root) }
    ensures cause { HasMapCause (S.fault_count store.old) (S.fault_count store.new)
        (S.last_failed store.new) (S.bad store.new) (IsWornFrom (AreKnown S.NodeStore store.old)
        (S.nodes store.old) (S.table store.old) above node place) result }
{
    let step = begin_step(store, above, node, place)?;
    make(alloc, store, step)
}

// The step of a flush that begins at the edge at a place of a node.
fn begin_step<S: NodeStore>(
    store: &mut S,
    above: Way,
    node: Fetched,
    place: usize,
) -> Result<FlushStep, MapFault>
    requires fetched { IsFetched (S.table store.old) node }
    requires pending { HasPendingAt node.node.value place }
    requires way { IsWayUp (S.table store.old) node.id (reverse above) }
    ensures due { IfOk result (IsDue (S.table store.old)) }
    ensures begins { IfOk result (BeginsAt above node place) }
    ensures waited { IfOk result IsWaited }
    ensures stands { S.is_known store.old → IsOwn (S.nodes store.old) (S.table store.old) node
        → AreOwn (S.nodes store.old) (S.table store.old) (reverse above)
        → IfOk result (IsStanding (S.nodes store.old) (S.table store.old)) }
    ensures reached { S.is_known store.old → IsOwn (S.nodes store.old) (S.table store.old) node
        → length (edges_of node.node.value) ≤ room_edges
        → IfOk result (IsReached (S.nodes store.old) (S.table store.old) node.id place) }
    ensures way { IfOk result (IsWayOf (S.table store.old)) }
    ensures way_at { S.is_known store.old → IsOwn (S.nodes store.old) (S.table store.old) node
        → AreOwn (S.nodes store.old) (S.table store.old) (reverse above)
        → IfOk result (IsWayThere (S.nodes store.old) (S.table store.old)) }
    ensures left { OnlyReads S.NodeStore store.old store.new }
    ensures cause { HasMapCause (S.fault_count store.old) (S.fault_count store.new)
        (S.last_failed store.new) (S.bad store.new) NeverWorn result }
    ensures few_visits { S.visit_count store.new
        ≤ S.visit_count store.old + (S.table store.old).level node.id }
{
    let above = above.into_vec();
    if node.node.edges().len() < FULL_EDGES {
        return step_from(store, above, node, place);
    }
    Ok(split_first(above, node))
}

// What is to be split or copied before a step can begin at an edge of a node with 15 or 16 edges:
// the node itself, where the one above it has room for its halves, or that one.
fn split_first(above: Vec<Fetched>, node: Fetched) -> FlushStep
    requires wide { full_edges ≤ length (edges_of node.node.value) }
    requires way { (t : Table) × IsFetched t node × IsWayUp t node.id (reverse above.items) }
    ensures first { IsSplitFirst (reverse above.items) node result }
    ensures due { (t : Table) → IsFetched t node → IsWayUp t node.id (reverse above.items)
        → IsDue t result }
    ensures waited { IsWaited result }
    ensures stands { (nodes : Nodes) (t : Table) → IsOwn nodes t node
        → AreOwn nodes t (reverse above.items) → IsStanding nodes t result }
    ensures way { (t : Table) → IsWayUp t node.id (reverse above.items) → IsWayOf t result }
    ensures way_at { (nodes : Nodes) (t : Table) → AreOwn nodes t (reverse above.items)
        → IsWayThere nodes t result }
{
    let mut above = above;
    let Some(parent) = above.pop() else {
        return FlushStep::SplitRoot { root: node };
    };
    let place = place_of(&parent.node, node.id);
    if !asks_plainly(&parent.node, place) {
        return FlushStep::At {
            site: Site {
                above: Items::from_vec(above),
                parent,
                place,
            },
            work: Work::Privatise,
        };
    }
    if parent.node.edges().len() >= FULL_EDGES {
        return split_first(above, parent);
    }
    FlushStep::At {
        site: Site {
            above: Items::from_vec(above),
            parent,
            place,
        },
        work: Work::Split { child: node },
    }
}

// Whether the edge at a place of a node asks with nothing in front of what is left of a key.
fn asks_plainly(node: &Node, place: usize) -> bool
    requires { place < length (edges_of node.now) }
    ensures { (e : Edge) → IsEdgeAt node.now place e → IsTrue result ↔ (e.source ≡ []) }
{
    node.edges()[place].source.is_empty()
}

// The place of the first edge of a node that asks a child, which one of them does.
fn place_of(node: &Node, child: u64) -> usize
    requires { (place : ℕ) × (e : Edge) × IsEdgeTo node.now place child e }
    ensures edge { (e : Edge) × IsEdgeTo node.now result child e }
    ensures within { result < length (edges_of node.now) }
{
    let edges = node.edges();
    for (place, edge) in edges.iter().enumerate() {
        if edge.child == Some(child) {
            return place;
        }
    }
    0
}
