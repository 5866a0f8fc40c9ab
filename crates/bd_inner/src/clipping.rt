//! Inner nodes freed of a prefix.

ghost use Rattle.std.specs.Prelude.{◌≡◌, ◌↔◌, ◌≤◌, Some, length, drop, map, count_by, IfOk, IsTrue};
ghost use Rattle.std.specs.Option.{option_to_list, is_some};
ghost use Rattle.std.specs.List.{flat_map};
ghost use Rattle.bd_limits.specs.Limits.{key_limit};
ghost use Rattle.bd_message.specs.declared.message.Message.{Message};
ghost use Rattle.bd_message.specs.Freeing.{freed, CoversAll};
ghost use Rattle.bd_node.specs.declared.node.Node.TheVariants as node;
ghost use Rattle.bd_node.specs.Nodes.{level_of};
ghost use Rattle.bd_node.specs.Shape.{IsInner, IsShape};
ghost use Rattle.bd_inner.specs.Clipping.{IsStart, seen_after, source_below, where_child, count_before, count_within, clipped_edge, inside_edge, AreClippedEdges, IsClipped};

use bd_keys::Bytes;
use bd_message::Message;
use bd_node::{Edge, Items, Messages, Node};
use std::alloc::{AllocError, Global};

/// An inner node freed of a prefix of at most 518 bytes: it has at each key what the node has at
/// the prefix and then the key. Edges without a key that begins with the prefix are left out, and
/// messages older than one that decides what stands at each key, so that at most 32,768 bytes
/// wait. Sources may be longer than 518 bytes: who stores the node looks their children through.
pub fn clip(alloc: Global, node: &Node, s: &[u8]) -> Result<Node, AllocError>
    requires shape { IsShape node.now }
    requires inner { 1 ≤ level_of node.now }
    requires short { length s.now ≤ key_limit }
    ensures { IfOk result (IsClipped node.now s.now) }
{
    match node {
        Node::Leaf(_) => unreachable!(),
        Node::Inner {
            level,
            edges,
            buffer,
        } => clip_inner(alloc, *level, edges.as_slice(), buffer.as_slice(), s),
    }
}

// The same of an inner node's parts.
fn clip_inner(
    alloc: Global,
    level: u32,
    edges: &[Edge],
    buffer: &[Message],
    s: &[u8],
) -> Result<Node, AllocError>
    requires inner { IsInner level edges.now buffer.now }
    requires short { length s.now ≤ key_limit }
    ensures { IfOk result (IsClipped (node.Inner level edges.now buffer.now) s.now) }
{
    let parts = free_all(alloc, buffer, s)?;
    let start = start_of(&parts);
    let edges = clip_edges(alloc, edges, &parts, start, s)?;
    let (_, newer) = parts.as_slice().split_at(start);
    let list = waiting(alloc, newer)?;
    Ok(Node::Inner {
        level,
        edges: Items::from_vec(edges),
        buffer: Messages::indexed(list)?,
    })
}

// The messages freed of a prefix.
fn free_all(alloc: Global, buffer: &[Message], s: &[u8]) -> Result<Vec<Option<Message>>, AllocError>
    ensures { IfOk result (λ parts. parts.items ≡ map (freed s.now) buffer.now) }
{
    let mut parts = Vec::with_capacity(alloc, buffer.len())?;
    for message in buffer {
        parts.push(message.free(alloc, s)?)?;
    }
    Ok(parts)
}

// The place of the newest message that decides what stands at each key.
fn start_of(parts: &[Option<Message>]) -> usize
    ensures { IsStart parts.now result }
{
    let mut start = 0;
    for (place, part) in parts.iter().enumerate() {
        if covers(part) {
            start = place;
        }
    }
    start
}

// Whether it is a message that decides what stands at each key.
fn covers(part: &Option<Message>) -> bool
    ensures { IsTrue result ↔ ((m : Message) × (part.now ≡ Some m) × CoversAll m) }
{
    match part {
        Some(message) => message.covers_all(),
        None => false,
    }
}

// The messages that there are.
fn waiting(alloc: Global, parts: &[Option<Message>]) -> Result<Vec<Message>, AllocError>
    ensures { IfOk result (λ list. list.items ≡ flat_map option_to_list parts.now) }
{
    let mut list = Vec::new(alloc);
    for part in parts {
        if let Some(message) = part {
            list.push(message.clone()?)?;
        }
    }
    Ok(list)
}

// The edges with a key that begins with the prefix, freed of it.
fn clip_edges(
    alloc: Global,
    edges: &[Edge],
    parts: &[Option<Message>],
    start: usize,
    s: &[u8],
) -> Result<Vec<Edge>, AllocError>
    requires { 1 ≤ length edges.now }
    ensures { IfOk result (λ made. AreClippedEdges s.now parts.now start edges.now made.items) }
{
    let (_, from) = edges.split_at(count_before(edges, s));
    let [first, others @ ..] = from else {
        unreachable!()
    };
    let (inside, _) = others.split_at(count_within(others, s));
    let mut made = inside_edges(alloc, inside, parts, start, s)?;
    let pivot = Bytes::from_vec(Vec::new(alloc));
    made.insert(0, clip_edge(alloc, first, pivot, parts, start, s)?)?;
    Ok(made)
}

// How many edges stand before the one that has the prefix among its keys.
fn count_before(edges: &[Edge], s: &[u8]) -> usize
    requires { 1 ≤ length edges.now }
    ensures { result ≡ count_before s.now edges.now }
{
    let (_, others) = edges.split_at(1);
    others
        .iter()
        .take_while(|edge| !s.cmp(edge.pivot.as_slice()).is_lt())
        .count()
}

// How many of the edges have pivots that begin with the prefix, up to the first that has another.
fn count_within(edges: &[Edge], s: &[u8]) -> usize
    ensures { result ≡ count_within s.now edges.now }
{
    edges
        .iter()
        .take_while(|edge| edge.pivot.as_slice().starts_with(s))
        .count()
}

// The edges freed of a prefix with which their pivots begin.
fn inside_edges(
    alloc: Global,
    edges: &[Edge],
    parts: &[Option<Message>],
    start: usize,
    s: &[u8],
) -> Result<Vec<Edge>, AllocError>
    ensures { IfOk result (λ made.
        made.items ≡ map (inside_edge s.now parts.now start) edges.now) }
{
    let mut made = Vec::with_capacity(alloc, edges.len())?;
    for edge in edges {
        made.push(inside_edge(alloc, edge, parts, start, s)?)?;
    }
    Ok(made)
}

// The same of one edge.
fn inside_edge(
    alloc: Global,
    edge: &Edge,
    parts: &[Option<Message>],
    start: usize,
    s: &[u8],
) -> Result<Edge, AllocError>
    ensures { IfOk result (λ made. made ≡ inside_edge s.now parts.now start edge.now) }
{
    let pivot = tail(alloc, edge.pivot.as_slice(), s.len())?;
    clip_edge(alloc, edge, pivot, parts, start, s)
}

// An edge freed of a prefix, with another pivot.
fn clip_edge(
    alloc: Global,
    edge: &Edge,
    pivot: Bytes,
    parts: &[Option<Message>],
    start: usize,
    s: &[u8],
) -> Result<Edge, AllocError>
    ensures { IfOk result (λ made.
        made ≡ clipped_edge s.now parts.now start pivot edge.now) }
{
    Ok(Edge {
        pivot,
        lift: (edge.lift as usize).saturating_sub(s.len()) as u16,
        source: source_below(alloc, edge, s)?,
        child: edge.child,
        seen: seen_after(parts, start, edge.seen),
    })
}

// What stands in front of the keys that the edge then asks of its child.
fn source_below(alloc: Global, edge: &Edge, s: &[u8]) -> Result<Bytes, AllocError>
    ensures { IfOk result (λ source. source ≡ source_below s.now edge.now) }
{
    let mut source = Vec::new(alloc);
    if edge.child.is_some() {
        source.extend_from_slice(edge.source.as_slice())?;
        source.extend_from_slice(after(s, edge.lift as usize))?;
    }
    Ok(Bytes::from_vec(source))
}

// How many of the messages from a place on are among the oldest so many.
fn seen_after(parts: &[Option<Message>], start: usize, seen: u32) -> u32
    ensures { result ≡ seen_after parts.now start seen }
{
    let (oldest, _) = parts.split_at(parts.len().min(seen as usize));
    let (_, newer) = oldest.split_at(oldest.len().min(start));
    count(newer) as u32
}

// How many messages there are.
fn count(parts: &[Option<Message>]) -> usize
    ensures value { result ≡ count_by is_some parts.now }
    ensures within { result ≤ length parts.now }
{
    let mut found = 0;
    for part in parts {
        if is_there(part) {
            found += 1;
        }
    }
    found
}

// Whether there is a message.
fn is_there(part: &Option<Message>) -> bool
    ensures { result ≡ is_some part.now }
{
    matches!(part, Some(_))
}

// A copy of a key without its first bytes.
fn tail(alloc: Global, key: &[u8], count: usize) -> Result<Bytes, AllocError>
    ensures { IfOk result (λ made. made ≡ drop count key.now) }
{
    Bytes::from_slice(alloc, after(key, count))
}

// A key without its first bytes.
fn after(key: &[u8], count: usize) -> &[u8]
    ensures { result.now ≡ drop count key.now }
{
    let (_, back) = key.split_at(count.min(key.len()));
    back
}
