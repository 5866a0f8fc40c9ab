//! The way down that a step of a flush takes, and what is to be done at its end.

ghost use Rattle.std.specs.Prelude.{◌≡◌, ◌+◌, ◌<◌, ◌≤◌, length, reverse, IfOk, Some};
ghost use Rattle.bd_limits.specs.Limits.{room_edges};
ghost use Rattle.bd_message.specs.KeyMaps.{HasMapCause, NeverWorn};
ghost use Rattle.bd_node.specs.Frames.{OfSound, OnlyReads};
ghost use Rattle.bd_node.specs.declared.node.Edge.{Edge};
ghost use Rattle.bd_node.specs.Nodes.{level_of};
ghost use Rattle.bd_node.specs.Meaning.{Nodes};
ghost use Rattle.bd_node.specs.Shape.{IsShape};
ghost use Rattle.bd_node.specs.Tables.{Table};
ghost use Rattle.bd_node.specs.Parts.{edges_of};
ghost use Rattle.bd_path.specs.Fetching.{IsFetched, IsWayTo, IsOwn, AreOwn};
ghost use Rattle.bd_step.specs.declared.ways.FlushStep.TheVariants as step;
ghost use Rattle.bd_path.specs.Raising.{IsWayUp};
ghost use Rattle.bd_step.specs.Ways.{IsFullestAt, IsTarget, IsUpToRoot, IsDue, HasFullChild, IsStepAt, IsStepFrom, IsStanding, IsReached, IsToDo, IsToDoAt, IsWayOf, IsWayThere, IsChildThere, IsAsked, IsSeen, IsSeenAt, IsWaySeen, IsWaySeenAt};

use crate::filling::fullest;
use crate::gotos::held_goto;
use bd_limits::{FULL_EDGES, SOFT_BUFFER};
use bd_message::MapFault;
use bd_node::{Items, Node, NodeStore};
use bd_path::{Fetched, Way, fetch};
use std::alloc::{AllocError, Global};

/// An edge of a node, with the nodes above that one, as a way down found them.
#[derive(Debug, Drop)]
pub struct Site {
    /// The nodes above, the root first.
    pub above: Way,
    /// The node.
    pub parent: Fetched,
    /// The edge's place among those of the node.
    pub place: usize,
}

/// What a step of a flush does at an edge.
#[derive(Debug, Drop)]
pub enum Work {
    /// The child, the next node on the way, has 15 or 16 edges, and is split.
    Split { child: Fetched },
    /// Messages go down to a private child, or to a new leaf where there is no child.
    Push { child: Option<Fetched> },
    /// The child is shared, or asked with something in front of a key: it is copied.
    Privatise,
    /// A Goto is pending for the edge, and may not go down: its keys get edges of their own. The
    /// oldest such one stands at the index among the messages.
    Carve { index: usize },
}

/// What a step of a flush does, and where.
#[derive(Debug, Drop)]
pub enum FlushStep {
    /// The root has 15 or 16 edges, and is split.
    SplitRoot { root: Fetched },
    /// Work at an edge.
    At { site: Site, work: Work },
}

/// What a step of a flush is to do: it goes down from the root to the child for which most bytes
/// wait, while that child is private, asked with nothing in front of a key, and has more than
/// 16,384 bytes of messages itself. At most as many nodes are fetched as the tree is high.
pub fn next_step<S: NodeStore>(alloc: Global, store: &mut S) -> Result<FlushStep, MapFault>
    ensures to_do { IfOk result (IsToDo (S.table store.old)) }
    ensures at { OfSound S.NodeStore store.old
        (IfOk result (IsToDoAt (S.nodes store.old) (S.table store.old))) }
    ensures way { IfOk result (IsWayOf (S.table store.old)) }
    ensures way_at { OfSound S.NodeStore store.old
        (IfOk result (IsWayThere (S.nodes store.old) (S.table store.old))) }
    ensures left { OnlyReads S.NodeStore store.old store.new }
    ensures cause { HasMapCause (S.fault_count store.old) (S.fault_count store.new)
        (S.last_failed store.new) (S.bad store.new) NeverWorn result }
    ensures few_visits { S.visit_count store.new
        ≤ S.visit_count store.old + ((S.table store.old).level (S.table store.old).root + 1) }
{
    let root = store.root();
    let root = fetch(store, root)?;
    if root.node.edges().len() >= FULL_EDGES {
        return Ok(FlushStep::SplitRoot { root });
    }
    let place = fullest_place(alloc, &root.node)?;
    step_from(store, Vec::new(alloc), root, place)
}

/// What a step is to do that begins at the edge at a place of a node, which has at most 14 edges
/// and was fetched before, as those above it were: at that edge, or further down, where its child
/// is private, asked with nothing in front of a key, and has more than 16,384 bytes of messages.
/// From there on it goes down as a step of a flush does. At most as many nodes are fetched as the
/// node's level says.
pub fn step_from<S: NodeStore>(
    store: &mut S,
    above: Vec<Fetched>,
    parent: Fetched,
    place: usize,
) -> Result<FlushStep, MapFault>
    requires way { IsWayUp (S.table store.old) parent.id (reverse above.items) }
    requires fetched { IsFetched (S.table store.old) parent }
    requires room { length (edges_of parent.node.value) ≤ room_edges }
    requires within { place < length (edges_of parent.node.value) }
    requires under { IsUpToRoot (S.table store.old) parent }
    ensures due { IfOk result (IsDue (S.table store.old)) }
    ensures edge { IfOk result (IsStepFrom parent place) }
    ensures full { IfOk result HasFullChild }
    ensures stands { S.is_known store.old → IsOwn (S.nodes store.old) (S.table store.old) parent
        → IfOk result (IsStanding (S.nodes store.old) (S.table store.old)) }
    ensures reached { S.is_known store.old → IsOwn (S.nodes store.old) (S.table store.old) parent
        → IfOk result (IsReached (S.nodes store.old) (S.table store.old) parent.id place) }
    ensures way { IfOk result (IsWayOf (S.table store.old)) }
    ensures way_at { S.is_known store.old → IsOwn (S.nodes store.old) (S.table store.old) parent
        → AreOwn (S.nodes store.old) (S.table store.old) (reverse above.items)
        → IfOk result (IsWayThere (S.nodes store.old) (S.table store.old)) }
    ensures left { OnlyReads S.NodeStore store.old store.new }
    ensures cause { HasMapCause (S.fault_count store.old) (S.fault_count store.new)
        (S.last_failed store.new) (S.bad store.new) NeverWorn result }
    ensures few_visits { S.visit_count store.new
        ≤ S.visit_count store.old + (S.table store.old).level parent.id }
{
    let mut above = above;
    let mut here = parent;
    let mut at = place;
    loop {
        match look_from(store, above, here, at)? {
            Look::Down(nodes, child) => {
                at = fullest_place(*nodes.allocator(), &child.node)?;
                above = nodes;
                here = child;
            }
            Look::End(step) => return Ok(step),
        }
    }
}

// What is seen from a node on the way.
#[derive(Drop)]
enum Look {
    // The way goes on at this child, below these nodes.
    Down(Vec<Fetched>, Fetched),
    // This is to be done here.
    End(FlushStep),
}

// What is seen from the edge at a place: the child is fetched where it may be the next one.
fn look_from<S: NodeStore>(
    store: &mut S,
    above: Vec<Fetched>,
    parent: Fetched,
    place: usize,
) -> Result<Look, MapFault>
    requires way { IsWayUp (S.table store.old) parent.id (reverse above.items) }
    requires fetched { IsFetched (S.table store.old) parent }
    requires room { length (edges_of parent.node.value) ≤ room_edges }
    requires within { place < length (edges_of parent.node.value) }
    requires under { IsUpToRoot (S.table store.old) parent }
    ensures seen { IfOk result (IsSeen (S.table store.old) parent place) }
    ensures at { S.is_known store.old → IsOwn (S.nodes store.old) (S.table store.old) parent
        → IfOk result (IsSeenAt (S.nodes store.old) (S.table store.old)) }
    ensures way { IfOk result (IsWaySeen (S.table store.old)) }
    ensures way_at { S.is_known store.old → IsOwn (S.nodes store.old) (S.table store.old) parent
        → AreOwn (S.nodes store.old) (S.table store.old) (reverse above.items)
        → IfOk result (IsWaySeenAt (S.nodes store.old) (S.table store.old)) }
    ensures left { OnlyReads S.NodeStore store.old store.new }
    ensures cause { HasMapCause (S.fault_count store.old) (S.fault_count store.new)
        (S.last_failed store.new) (S.bad store.new) NeverWorn result }
    ensures few_visits { S.visit_count store.new ≤ S.visit_count store.old + 1 }
{
    let id = match asks(&parent.node, place) {
        Asked::Nothing => return Ok(Look::End(push_or_carve(store, above, parent, place, None))),
        Asked::Through => return Ok(Look::End(at_edge(above, parent, place, Work::Privatise))),
        Asked::Child(id) => id,
    };
    if store.count(id) != 1 {
        return Ok(Look::End(at_edge(above, parent, place, Work::Privatise)));
    }
    let child = fetch(store, id)?;
    Ok(look_below(store, above, parent, place, child)?)
}

// What is seen from a node on the way, where its private child was fetched.
fn look_below<S: NodeStore>(
    store: &S,
    above: Vec<Fetched>,
    parent: Fetched,
    place: usize,
    child: Fetched,
) -> Result<Look, AllocError>
    requires fetched { IsFetched (S.table store.now) parent }
    requires child { IsFetched (S.table store.now) child }
    requires within { place < length (edges_of parent.node.value) }
    ensures seen { length (edges_of parent.node.value) ≤ room_edges
        → (e : Edge) → IsWayTo parent.node.value place child.id e
        → (S.table store.now).count child.id ≡ 1 → IsUpToRoot (S.table store.now) parent
        → IfOk result (IsSeen (S.table store.now) parent place) }
    ensures at { (nodes : Nodes) (t : Table) → IsOwn nodes t parent
        → (e : Edge) → IsWayTo parent.node.value place child.id e → t.count child.id ≡ 1
        → nodes child.id ≡ Some child.node.value → IfOk result (IsSeenAt nodes t) }
    ensures way { (t : Table) (e : Edge) → IsFetched t parent
        → IsWayTo parent.node.value place child.id e → t.count child.id ≡ 1
        → IsWayUp t parent.id (reverse above.items) → IfOk result (IsWaySeen t) }
    ensures way_at { (nodes : Nodes) (t : Table) → IsOwn nodes t parent
        → AreOwn nodes t (reverse above.items)
        → IfOk result (IsWaySeenAt nodes t) }
{
    if child.node.buffer_size() <= SOFT_BUFFER {
        return Ok(Look::End(push_or_carve(store, above, parent, place, Some(child))));
    }
    if child.node.edges().len() < FULL_EDGES {
        let mut above = above;
        above.push(parent)?;
        return Ok(Look::Down(above, child));
    }
    Ok(Look::End(at_edge(above, parent, place, Work::Split { child })))
}

// Work at the edge at a place of a node, below these nodes.
fn at_edge(above: Vec<Fetched>, parent: Fetched, place: usize, work: Work) -> FlushStep
    ensures { result ≡ step.At
        (record { above = above.items; parent = parent; place = place }) work }
{
    let above = Items::from_vec(above);
    FlushStep::At {
        site: Site {
            above,
            parent,
            place,
        },
        work,
    }
}

// What is to be done where messages go to a child or a new leaf: a push, or first the carving of a
// Goto that may not go down.
fn push_or_carve<S: NodeStore>(
    store: &S,
    above: Vec<Fetched>,
    parent: Fetched,
    place: usize,
    child: Option<Fetched>,
) -> FlushStep
    requires fetched { IsFetched (S.table store.now) parent }
    requires within { place < length (edges_of parent.node.value) }
    ensures due { length (edges_of parent.node.value) ≤ room_edges
        → (e : Edge) → IsTarget (S.table store.now) parent.node.value place e child
        → IsUpToRoot (S.table store.now) parent → IsDue (S.table store.now) result }
    ensures here { IsStepAt parent place result }
    ensures full { HasFullChild result }
    ensures at { (nodes : Nodes) (t : Table) → IsOwn nodes t parent → IsChildThere nodes child
        → IsStanding nodes t result }
    ensures way { (t : Table) → IsWayUp t parent.id (reverse above.items) → IsWayOf t result }
    ensures way_at { (nodes : Nodes) (t : Table)
        → AreOwn nodes t (reverse above.items) → IsWayThere nodes t result }
{
    match held_goto(store, &parent, place) {
        Some(index) => at_edge(above, parent, place, Work::Carve { index }),
        None => at_edge(above, parent, place, Work::Push { child }),
    }
}

// What an edge asks.
#[derive(Clone, Copy)]
pub(crate) enum Asked {
    // No child.
    Nothing,
    // A child, with something in front of what is left of a key.
    Through,
    // A child, with nothing in front.
    Child(u64),
}

// What the edge at a place asks.
pub(crate) fn asks(node: &Node, place: usize) -> Asked
    requires { place < length (edges_of node.now) }
    ensures { IsAsked node.now place result }
{
    let edge = &node.edges()[place];
    match edge.child {
        None => Asked::Nothing,
        Some(_) if !edge.source.is_empty() => Asked::Through,
        Some(id) => Asked::Child(id),
    }
}

// The place of the edge for which most bytes are pending.
fn fullest_place(alloc: Global, node: &Node) -> Result<usize, AllocError>
    requires shape { IsShape node.now }
    requires inner { 1 ≤ level_of node.now }
    ensures fullest { IfOk result (IsFullestAt node.now) }
    ensures within { IfOk result (λ place. place < length (edges_of node.now)) }
{
    let Node::Inner { edges, buffer, .. } = node else {
        unreachable!()
    };
    Ok(fullest(alloc, edges.as_slice(), buffer)?.place)
}
