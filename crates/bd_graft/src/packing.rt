//! Overlay nodes: the messages of layers over the end of a way.

ghost use Rattle.std.specs.Prelude.{◌≡◌, ◌+◌, ◌++◌, ◌<◌, ◌≤◌, ◌⊎◌, ◌^◌, [], max, length, IsSome, IfOk};
ghost use Rattle.std.specs.List.{AllByRecursion, sum_by};
ghost use Rattle.bd_limits.specs.Limits.{buffer_limit, level_limit};
ghost use Rattle.bd_message.specs.Messages.{IsMessage, size};
ghost use Rattle.bd_node.specs.Tables.{IsTable};
ghost use Rattle.bd_resolve.specs.Following.{IsLowerTarget, IsShort};
ghost use Rattle.bd_graft.specs.Layers.{above, laid, AreLayers};
ghost use Rattle.bd_graft.specs.Walking.{messages_in};
ghost use Rattle.bd_graft.specs.Packing.{overlay, target_names, packs, overlaid, newest_of, older_of, AreGroups, Fits, IsStackWith, IsPackedWith, IsGrownBy, IsStack, IsPacked, IsClosed, IsJoined, IsLaidOn, IsEnded, IsFinished, IsBegun, level_over, highest};

use crate::layers::{Layer, above_end};
use bd_keys::Bytes;
use bd_limits::MAX_BUFFER;
use bd_message::Message;
use bd_node::{Edge, Items, Messages, Node, NodeStore};
use bd_resolve::Target;
use std::alloc::{AllocError, Global};

/// Overlay nodes over the end of a way, the lowest first, and the one that is still open.
#[derive(Debug, Drop)]
pub struct Stack {
    pub made: Vec<Node>,
    /// What the open one stands over.
    pub under: Option<Target>,
    /// The messages of the open one, the oldest first.
    pub waiting: Vec<Message>,
    /// How many bytes they count.
    pub size: usize,
    /// One above the highest node that it names, and 0 where it names none.
    pub level: u32,
}

/// Overlay nodes, the lowest first, and what has all.
#[derive(Debug, Drop)]
pub struct Packed {
    pub made: Vec<Node>,
    pub target: Target,
    /// The level of the target's node.
    pub level: u32,
}

/// How many messages stand together, group by group, where those of layers are packed.
#[derive(Clone, Copy, Debug)]
pub struct Groups {
    /// How many groups there are.
    pub count: u64,
    /// How many bytes the newest has.
    pub size: usize,
}

/// How many overlay nodes `pack` makes.
pub fn overlay_count(layers: &[Layer], end: &Option<Target>) -> u64
    requires fits { AllByRecursion Fits layers.now }
    requires few { length layers.now < 2 ^ 63 }
    ensures { result ≡ length (overlaid end.now (packs (messages_in layers.now))) }
{
    let count = count_groups(layers).count;
    if count == 0 && end.is_none() {
        1
    } else {
        count
    }
}

// The groups of the messages of layers, the last of which are the oldest.
fn count_groups(layers: &[Layer]) -> Groups
    requires fits { AllByRecursion Fits layers.now }
    requires few { length layers.now < 2 ^ 63 }
    ensures groups { AreGroups (packs (messages_in layers.now)) result }
    ensures fits { result.size ≤ buffer_limit }
    ensures few { result.count ≤ length layers.now }
{
    let [layer, rest @ ..] = layers else {
        return Groups { count: 0, size: 0 };
    };
    grown(count_groups(rest), layer)
}

// The groups with the messages of one layer more.
fn grown(groups: Groups, layer: &Layer) -> Groups
    requires layer { Fits layer.now }
    requires fits { groups.size ≤ buffer_limit }
    requires few { groups.count < 2 ^ 63 }
    ensures { IsGrownBy groups layer.now result }
{
    if layer.messages.is_empty() {
        return groups;
    }
    let more = layer.messages.size();
    if groups.count == 0 || more > MAX_BUFFER - groups.size {
        return Groups {
            count: groups.count + 1,
            size: more,
        };
    }
    Groups {
        count: groups.count,
        size: groups.size + more,
    }
}

/// Packs the messages of layers into overlay nodes over the end of a way, from the last layer on:
/// the first node gets the store's next id, the others the ids after it. The messages of one layer
/// stand in one node, and each node has at most 32,768 bytes of them; where those of one more layer
/// fit, they stand in it too. Without messages there is no node, but over nothing there is one.
pub fn pack<S: NodeStore>(
    alloc: Global,
    store: &S,
    layers: Vec<Layer>,
    end: Option<Target>,
) -> Result<Packed, AllocError>
    requires room { (S.table store.now).next
        + length (overlaid end (packs (messages_in layers.items))) < 2 ^ 64 }
    requires layers { AreLayers (S.table store.now) (level_limit + 1) layers.items end }
    requires short { IsShort end }
    ensures packed { IfOk result (IsPacked (S.table store.now) end (laid layers.items)) }
    ensures groups { IfOk result (IsPackedWith (S.table store.now) end
        (overlaid end (packs (messages_in layers.items)))) }
    ensures low { IfOk result (λ p. p.level
        ≤ max (highest (S.table store.now) layers.items end) 1) }
    ensures few { IfOk result (λ p. length p.made.items ≤ length layers.items + 1) }
{
    let next = store.next_id();
    let stack = stacked(alloc, store, next, layers, end)?;
    finished(alloc, stack, next)
}

// The overlay nodes of layers, the last of which are the oldest.
fn stacked<S: NodeStore>(
    alloc: Global,
    store: &S,
    next: u64,
    layers: Vec<Layer>,
    end: Option<Target>,
) -> Result<Stack, AllocError>
    requires next { next ≡ (S.table store.now).next }
    requires table { IsTable (S.table store.now) }
    requires room { (S.table store.now).next
        + length (packs (messages_in layers.items)) < 2 ^ 64 }
    requires layers { AreLayers (S.table store.now) (level_limit + 1) layers.items end }
    requires short { IsShort end }
    ensures stack { IfOk result (IsStack (S.table store.now) end (laid layers.items)) }
    ensures groups { IfOk result (IsStackWith (S.table store.now) end
        (older_of (packs (messages_in layers.items)))
        (newest_of (packs (messages_in layers.items)))) }
    ensures low { IfOk result (λ s. s.level ≤ level_over (S.table store.now) layers.items end) }
    ensures few { IfOk result (λ s. length s.made.items ≤ length layers.items) }
    ensures begun { length layers.items ≡ 0 → IfOk result (IsBegun end) }
{
    let mut stack = begun(alloc, store, end);
    let mut layers = layers;
    while let Some(layer) = layers.pop() {
        stack = laid_on(alloc, stack, layer, next)?;
    }
    Ok(stack)
}

// Nothing is made yet.
fn begun<S: NodeStore>(alloc: Global, store: &S, end: Option<Target>) -> Stack
    requires { IsLowerTarget (S.table store.now) (level_limit + 1) end }
    ensures made { result.made.items ≡ [] }
    ensures under { result.under ≡ end }
    ensures waiting { result.waiting.items ≡ [] }
    ensures size { result.size ≡ 0 }
    ensures level { result.level ≡ above (S.table store.now).level (target_names end) }
{
    let level = above_end(store, &end);
    Stack {
        made: Vec::new(alloc),
        under: end,
        waiting: Vec::new(alloc),
        size: 0,
        level,
    }
}

// One layer more, with newer messages.
fn laid_on(alloc: Global, stack: Stack, layer: Layer, next: u64) -> Result<Stack, AllocError>
    requires each { AllByRecursion IsMessage layer.messages }
    requires fits { sum_by size layer.messages ≤ buffer_limit }
    requires size { stack.size ≤ buffer_limit }
    requires level { stack.level ≤ level_limit + 1 }
    requires room { next + length stack.made.items < 2 ^ 64 }
    ensures { IfOk result (IsLaidOn next stack layer) }
{
    if layer.messages.size() > MAX_BUFFER - stack.size {
        let stack = closed(alloc, stack, next)?;
        return joined(stack, layer);
    }
    joined(stack, layer)
}

// The open node gets the messages of a layer.
fn joined(stack: Stack, layer: Layer) -> Result<Stack, AllocError>
    requires each { AllByRecursion IsMessage layer.messages }
    requires fits { stack.size + sum_by size layer.messages ≤ buffer_limit }
    ensures { IfOk result (IsJoined stack layer) }
{
    let Stack {
        made,
        under,
        waiting,
        size,
        level,
    } = stack;
    let Layer { messages, over, .. } = layer;
    let more = messages.size();
    Ok(Stack {
        made,
        under,
        waiting: appended(waiting, messages.into_vec())?,
        size: size + more,
        level: level.max(over),
    })
}

// Newer messages after older ones. Where there are no older ones, the newer stay where they are.
fn appended(older: Vec<Message>, newer: Vec<Message>) -> Result<Vec<Message>, AllocError>
    ensures { IfOk result (λ list. list.items ≡ older.items ++ newer.items) }
{
    if older.is_empty() {
        return Ok(newer);
    }
    let mut list = older;
    let mut newer = newer;
    list.append(&mut newer)?;
    Ok(list)
}

// The open node is made, and the next one stands over it.
fn closed(alloc: Global, stack: Stack, next: u64) -> Result<Stack, AllocError>
    requires level { stack.level ≤ level_limit + 1 }
    requires room { next + length stack.made.items < 2 ^ 64 }
    ensures { IfOk result (IsClosed next stack) }
{
    let Stack {
        mut made,
        under,
        waiting,
        level,
        ..
    } = stack;
    let child = next + made.len() as u64;
    let level = level.max(1);
    made.push(overlay(alloc, level, under, Messages::indexed(waiting)?)?)?;
    Ok(Stack {
        made,
        under: Some(Target {
            child,
            source: Bytes::from_vec(Vec::new(alloc)),
        }),
        waiting: Vec::new(alloc),
        size: 0,
        level: level + 1,
    })
}

/// A node with messages over a target.
pub fn overlay(
    alloc: Global,
    level: u32,
    under: Option<Target>,
    buffer: Messages,
) -> Result<Node, AllocError>
    ensures { IfOk result (λ n. n ≡ overlay level under buffer) }
{
    let (source, child) = match under {
        Some(Target { child, source }) => (source, Some(child)),
        None => (Bytes::from_vec(Vec::new(alloc)), None),
    };
    let mut edges = Vec::new(alloc);
    edges.push(Edge {
        pivot: Bytes::from_vec(Vec::new(alloc)),
        lift: 0,
        source,
        child,
        seen: 0,
    })?;
    Ok(Node::Inner {
        level,
        edges: Items::from_vec(edges),
        buffer,
    })
}

// The open node is made where it has messages or stands over nothing.
fn finished(alloc: Global, stack: Stack, next: u64) -> Result<Packed, AllocError>
    requires level { stack.level ≤ level_limit + 1 }
    requires some { IsSome stack.under → 1 ≤ stack.level }
    requires room { next + length stack.made.items < 2 ^ 64 }
    ensures { IfOk result (IsFinished next stack) }
{
    if stack.waiting.is_empty() && stack.under.is_some() {
        return Ok(ended(stack));
    }
    let stack = closed(alloc, stack, next)?;
    Ok(ended(stack))
}

// What stands over a node.
fn ended(stack: Stack) -> Packed
    requires under { IsSome stack.under }
    requires level { 1 ≤ stack.level }
    ensures { IsEnded stack result }
{
    let Stack {
        made,
        under,
        level,
        ..
    } = stack;
    match under {
        Some(target) => Packed {
            made,
            target,
            level: level - 1,
        },
        None => unreachable!(),
    }
}
