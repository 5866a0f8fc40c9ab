//! Messages go down from a node to its child.

ghost use Rattle.std.specs.Prelude.{◌≡◌, ◌↔◌, ◌+◌, ◌^◌, ◌<◌, ◌≤◌, ◌⊎◌, length, reverse, IfOk, IsTrue, OnOk, OnErr};
ghost use Rattle.std.specs.List.{All, AllByRecursion};
ghost use Rattle.bd_limits.specs.Limits.{soft_limit, leaf_limit, batch_limit, room_edges};
ghost use Rattle.bd_message.specs.Messages.{IsPlain};
ghost use Rattle.bd_message.specs.KeyMaps.{HasMapCause};
ghost use Rattle.bd_node.specs.Frames.{OfSound, OnlyReads, Stays};
ghost use Rattle.bd_node.specs.declared.node.Edge.{Edge};
ghost use Rattle.bd_node.specs.declared.node.Node.TheVariants as kind;
ghost use Rattle.bd_node.specs.Nodes.{level_of, buffer_size};
ghost use Rattle.bd_node.specs.Shape.{IsLeaf, IsShape};
ghost use Rattle.bd_node.specs.Parts.{edges_of, buffer_of, end_at, IsEdgeAt};
ghost use Rattle.bd_inner.specs.Halves.{AreHalves};
ghost use Rattle.bd_inner.specs.Batches.{IsLifted};
ghost use Rattle.bd_leaf.specs.Leaves.{AreEntries, entries_size};
ghost use Rattle.bd_path.specs.declared.fetching.Fetched.{Fetched};
ghost use Rattle.bd_path.specs.Flushed.{IsFlushed, IsNoHigher, IsHardlyHigher};
ghost use Rattle.bd_path.specs.Made.{IsMadeBy, IsWornFor};
ghost use Rattle.bd_flush.specs.Children.{AreFamily};
ghost use Rattle.bd_path.specs.Fetching.{IsContents};
ghost use Rattle.bd_path.specs.Raising.{IsWayUp};
ghost use Rattle.bd_flush.specs.Pushing.{IsWaitedFor, CanMoveSome, CanPush, IsEdgeBatch, IsPartedOver, IsPushedOver, IsBelow, IsPlanOver, IsPlan, IsWork, IsSomePush, IsLongPush, IsHighPush};
ghost use Rattle.bd_node.specs.Pushes.{seen_by, IsRelieved};

use crate::children::{Halving, Parts, child_step, over_halves, with_edge};
use crate::splitting::{Plan, over_step};
use bd_inner::{Batch, Halves, next_batch, receive};
use bd_leaf as leaf;
use bd_message::{Counter, MapFault, Message};
use bd_node::{Change, Edge, Entries, Entry, Gain, Node, NodeStore, Push, end_of};
use bd_path::{Fetched, changes_over};
use std::alloc::{AllocError, Global};

/// Moves the oldest messages that a private node's edge hasn't seen, at least one and at most
/// 16,384 bytes, to its child, in which at most 16,384 bytes wait. Both were fetched before, and so
/// were the nodes above, the root first. No other node names the child, and the edge at the place
/// asks it with nothing in front of a key. A Goto goes down like any other message; each is of keys
/// of the edge alone, and names a node of a lower level than the child's.
/// A leaf that would have more than 40,960 bytes is split: it is one half from now on, and the other
/// half is made if it has keys of the edge. Where the pivot would have more than 518 bytes in the
/// parent, the leaf becomes a node over both halves, which are made, and each node above that isn't
/// higher than the one below it then rises by one level. A root of level 1,000 can't rise, which is
/// `Worn(Level)`.
/// Where no leaf is split and no Goto goes down, the store changes both nodes in place.
pub fn push<S: NodeStore>(
    alloc: Global,
    store: &mut S,
    above: &[Fetched],
    parent: Fetched,
    place: usize,
    child: Fetched,
) -> Result<(), MapFault>
    requires can { CanPush (S.table store.old) parent place child }
    requires way { IsWayUp (S.table store.old) parent.id (reverse above.now) }
    requires family { OfSound S.NodeStore store.old
        (AreFamily (S.nodes store.old) (S.table store.old) parent child) }
    requires contents { OfSound S.NodeStore store.old
        (AllByRecursion (IsContents (S.nodes store.old)) (reverse above.now)) }
    ensures flushed { OfSound S.NodeStore store.old
        (OnOk result (IsFlushed (S.nodes store.old) (S.table store.old)
        (S.nodes store.new) (S.table store.new))) }
    ensures made { OfSound S.NodeStore store.old
        (OnOk result (IsMadeBy (IsSomePush (S.table store.old).root (S.table store.old).next
        (reverse above.now) parent place child) (S.nodes store.old) (S.table store.old)
        (S.nodes store.new) (S.table store.new))) }
    ensures table { OnOk result (IsNoHigher (S.table store.old) (S.table store.new)
        ⊎ (IsLongPush parent.node.value place child.node.value
        × IsHardlyHigher (S.table store.old) (S.table store.new))) }
    ensures stays { Stays S.NodeStore store.old store.new }
    ensures err { OnErr result (OnlyReads S.NodeStore store.old store.new) }
    ensures few_visits { S.visit_count store.new ≤ S.visit_count store.old + 2 }
    ensures cause { HasMapCause (S.fault_count store.old) (S.fault_count store.new)
        (S.last_failed store.new) (S.bad store.new) (IsWornFor (IsSomePush (S.table store.old).root
        (S.table store.old).next (reverse above.now) parent place child)
        (IsHighPush parent.node.value place child.node.value (reverse above.now))
        (S.table store.old)) result }
{
    let root = store.root();
    let next = store.next_id();
    let plan = match push_work(alloc, root, next, above, parent, place, child)? {
        Work::Down(push) => return store.push_down(push),
        Work::Planned(plan) => plan,
    };
    let step = match plan {
        Plan::Ready(step) => step,
        Plan::NoId => return Err(MapFault::Worn(Counter::NextId)),
        Plan::NoLevel => return Err(MapFault::Worn(Counter::Level)),
    };
    store.commit(step)
}

// What a push does.
#[derive(Drop)]
enum Work {
    // Messages go down in place.
    Down(Push),
    // A step is made, if there is one.
    Planned(Plan),
}

// What a push does. The nodes are let go, so that the store can change them in place.
fn push_work(
    alloc: Global,
    root: u64,
    next: u64,
    above: &[Fetched],
    parent: Fetched,
    place: usize,
    child: Fetched,
) -> Result<Work, AllocError>
    requires shape { IsShape parent.node.value }
    requires child { IsShape child.node.value }
    requires above { AllByRecursion (λ (f : Fetched). IsShape f.node.value) (reverse above.now) }
    requires soft { buffer_size child.node.value ≤ soft_limit }
    requires room { length (edges_of parent.node.value) ≤ room_edges }
    requires within { place < length (edges_of parent.node.value) }
    requires next { 1 ≤ next }
    requires waiting { (e : Edge) → IsEdgeAt parent.node.value place e
        → CanMoveSome parent.node.value place e }
    requires plain { level_of child.node.value ≡ 0 → (e : Edge)
        → IsEdgeAt parent.node.value place e → IsWaitedFor parent.node.value place e }
    ensures { IfOk result (IsWork root next (reverse above.now) parent place child) }
{
    let node: &Node = &parent.node;
    let below: &Node = &child.node;
    match pushed_below(alloc, node, place, below, next)? {
        Below::Moved { count, gain } => Ok(Work::Down(Push {
            parent: parent.id,
            place,
            count,
            child: child.id,
            gain,
        })),
        Below::Made(halving) => {
            let plan = push_plan(alloc, root, next, above, &parent, place, &child, halving)?;
            Ok(Work::Planned(plan))
        }
    }
}

// The step that makes a node and its child after messages have gone down.
fn push_plan(
    alloc: Global,
    root: u64,
    next: u64,
    above: &[Fetched],
    parent: &Fetched,
    place: usize,
    child: &Fetched,
    halving: Halving,
) -> Result<Plan, AllocError>
    requires shape { IsShape parent.now.node.value }
    requires above { AllByRecursion (λ (f : Fetched). IsShape f.node.value) (reverse above.now) }
    requires within { place < length (edges_of parent.now.node.value) }
    requires halving { IsPushedOver parent.now.node.value place child.now.node.value next halving }
    ensures { IfOk result (IsPlan root next (reverse above.now) parent.now place child.now) }
{
    match halving {
        Halving::Short(Parts { node, half, made }) => {
            let step = child_step(alloc, root, parent.id, node, child.id, half, made)?;
            Ok(Plan::Ready(step))
        }
        Halving::Long { edge, halves } => {
            let node: &Node = &parent.node;
            let node = with_edge(alloc, node, place, edge)?;
            let parent = Change {
                id: parent.id,
                node,
            };
            plan_over(alloc, root, next, above, parent, child.id, halves)
        }
    }
}

// A node and its child after messages have gone down; or what the child gets, where the store can
// change both in place.
#[derive(Drop)]
enum Below {
    Moved { count: usize, gain: Gain },
    Made(Halving),
}

// How messages go down from a node to its child.
fn pushed_below(
    alloc: Global,
    node: &Node,
    place: usize,
    child: &Node,
    next: u64,
) -> Result<Below, AllocError>
    requires shape { IsShape node.now }
    requires child { IsShape child.now }
    requires soft { buffer_size child.now ≤ soft_limit }
    requires room { length (edges_of node.now) ≤ room_edges }
    requires within { place < length (edges_of node.now) }
    requires next { 1 ≤ next }
    requires waiting { (e : Edge) → IsEdgeAt node.now place e → CanMoveSome node.now place e }
    requires plain { level_of child.now ≡ 0 → (e : Edge) → IsEdgeAt node.now place e
        → IsWaitedFor node.now place e }
    ensures { IfOk result (IsBelow node.now place child.now next) }
{
    match child {
        Node::Leaf(entries) => leaf_received(alloc, node, place, entries.as_slice(), next),
        Node::Inner { .. } => received(alloc, node, place, child, next),
    }
}

// The same of a child that is a leaf.
fn leaf_received(
    alloc: Global,
    node: &Node,
    place: usize,
    entries: &[Entry],
    next: u64,
) -> Result<Below, AllocError>
    requires shape { IsShape node.now }
    requires leaf { IsLeaf entries.now }
    requires room { length (edges_of node.now) ≤ room_edges }
    requires within { place < length (edges_of node.now) }
    requires next { 1 ≤ next }
    requires waiting { (e : Edge) → IsEdgeAt node.now place e → IsWaitedFor node.now place e }
    ensures { IfOk result (IsBelow node.now place (kind.Leaf entries.now) next) }
{
    let batch = edge_batch(alloc, node, place)?;
    let new = leaf::receive(alloc, entries, batch.messages.as_slice())?;
    if leaf::fits(new.as_slice()) {
        return Ok(Below::Moved {
            count: batch.count,
            gain: Gain::Entries(new),
        });
    }
    let halving = leaf_parted(alloc, node, place, batch.count, new, next)?;
    Ok(Below::Made(halving))
}

// A node over the halves of a leaf whose entries have become too many, after so many messages have
// gone down; or the halves, where their pivot would be too long in the node.
fn leaf_parted(
    alloc: Global,
    node: &Node,
    place: usize,
    count: usize,
    new: Entries,
    next: u64,
) -> Result<Halving, AllocError>
    requires shape { IsShape node.now }
    requires room { length (edges_of node.now) ≤ room_edges }
    requires within { place < length (edges_of node.now) }
    requires next { 1 ≤ next }
    requires there { (e : Edge) → IsEdgeAt node.now place e
        → e.seen + count ≤ length (buffer_of node.now) }
    requires entries { AreEntries new }
    requires over { leaf_limit < entries_size new }
    requires fits { entries_size new ≤ leaf_limit + batch_limit }
    ensures { IfOk result (IsPartedOver node.now place count new next) }
{
    let edge = seen_by(&node.edges()[place], count)?;
    let halves = leaf_halves(new)?;
    over_halves(alloc, node, place, edge, halves, next)
}

// The halves of a leaf whose entries a batch has made too many.
fn leaf_halves(new: Entries) -> Result<Halves, AllocError>
    requires entries { AreEntries new }
    requires over { leaf_limit < entries_size new }
    requires fits { entries_size new ≤ leaf_limit + batch_limit }
    ensures { IfOk result (AreHalves (kind.Leaf new)) }
{
    let (first, second) = leaf::split(new)?;
    let pivot = second.as_slice()[0].key.clone()?;
    Ok(Halves {
        first: Node::Leaf(first),
        pivot,
        second: Node::Leaf(second),
    })
}

// What makes two halves of a leaf and puts a node over them in its place, below a changed parent.
fn plan_over(
    alloc: Global,
    root: u64,
    next: u64,
    above: &[Fetched],
    parent: Change,
    child: u64,
    halves: Halves,
) -> Result<Plan, AllocError>
    requires shape { IsShape parent.node }
    requires above { AllByRecursion (λ (f : Fetched). IsShape f.node.value) (reverse above.now) }
    ensures { IfOk result (IsPlanOver root next (reverse above.now) parent child halves) }
{
    let Some(others) = changes_over(alloc, 1, parent, above)? else {
        return Ok(Plan::NoLevel);
    };
    match over_step(alloc, root, next, child, 1, halves, others)? {
        Some(step) => Ok(Plan::Ready(step)),
        None => Ok(Plan::NoId),
    }
}

// The same of a child that is an inner node.
fn received(
    alloc: Global,
    node: &Node,
    place: usize,
    child: &Node,
    next: u64,
) -> Result<Below, AllocError>
    requires shape { IsShape node.now }
    requires child { IsShape child.now }
    requires inner { 1 ≤ level_of child.now }
    requires soft { buffer_size child.now ≤ soft_limit }
    requires within { place < length (edges_of node.now) }
    requires waiting { (e : Edge) → IsEdgeAt node.now place e → CanMoveSome node.now place e }
    ensures { IfOk result (IsBelow node.now place child.now next) }
{
    let batch = edge_batch(alloc, node, place)?;
    if are_plain(batch.messages.as_slice()) {
        return Ok(Below::Moved {
            count: batch.count,
            gain: Gain::Messages(batch.messages),
        });
    }
    let above = relieved(alloc, node, place, batch.count)?;
    let half = receive(child, batch.messages)?;
    Ok(Below::Made(Halving::Short(Parts {
        node: above,
        half,
        made: Vec::new(alloc),
    })))
}

// Whether none of the messages names a node.
fn are_plain(list: &[Message]) -> bool
    ensures { IsTrue result ↔ All IsPlain list.now }
{
    list.iter().all(|message| is_plain(message))
}

// Whether a message names no node.
fn is_plain(message: &Message) -> bool
    ensures { IsTrue result ↔ IsPlain message.now }
{
    !matches!(message, Message::Goto { .. })
}

// The messages that go down a node's edge.
fn edge_batch(alloc: Global, node: &Node, place: usize) -> Result<Batch, AllocError>
    requires shape { IsShape node.now }
    requires within { place < length (edges_of node.now) }
    requires waiting { (e : Edge) → IsEdgeAt node.now place e → CanMoveSome node.now place e }
    ensures { IfOk result (λ b. (e : Edge) → IsEdgeAt node.now place e
        → IsEdgeBatch node.now place e b) }
{
    batch_for(alloc, node, place, &node.edges()[place])
}

// The messages that go down an edge in place of a node's.
pub fn batch_for(alloc: Global, node: &Node, place: usize, edge: &Edge) -> Result<Batch, AllocError>
    requires shape { IsShape node.now }
    requires within { place < length (edges_of node.now) }
    requires lifted { IsLifted edge.now (end_at node.now place) }
    requires waiting { CanMoveSome node.now place edge.now }
    ensures { IfOk result (IsEdgeBatch node.now place edge.now) }
{
    let hi = end_of(node.edges(), place);
    let Node::Inner { buffer, .. } = node else {
        unreachable!()
    };
    next_batch(alloc, edge, hi, buffer, edge.seen as usize)
}

// A copy of a node from which so many messages have gone down an edge.
fn relieved(alloc: Global, node: &Node, place: usize, count: usize) -> Result<Node, AllocError>
    requires shape { IsShape node.now }
    requires within { place < length (edges_of node.now) }
    requires there { (e : Edge) → IsEdgeAt node.now place e
        → e.seen + count ≤ length (buffer_of node.now) }
    ensures { IfOk result (λ n. (e : Edge) → IsEdgeAt node.now place e
        → IsRelieved node.now place e count n) }
{
    let edge = seen_by(&node.edges()[place], count)?;
    with_edge(alloc, node, place, edge)
}

// A copy of an edge after its child has got so many more messages.
pub fn seen_by(edge: &Edge, count: usize) -> Result<Edge, AllocError>
    requires { edge.now.seen + count < 2 ^ 32 }
    ensures { IfOk result (λ e. e ≡ seen_by edge.now count) }
{
    Ok(Edge {
        pivot: edge.pivot.clone()?,
        lift: edge.lift,
        source: edge.source.clone()?,
        child: edge.child,
        seen: edge.seen + count as u32,
    })
}
