//! Inner nodes: edges and messages, halves, batches for a child, and what is left of a node.

ghost use Rattle.std.specs.Prelude.{◌≡◌, ◌≤◌, ◌↔◌, None, IfOk, IsTrue};
ghost use Rattle.std.specs.List.{AllByRecursion, sum_by};
ghost use Rattle.bd_keys.specs.Keys.{IsBelowEnd};
ghost use Rattle.bd_limits.specs.Limits.{buffer_limit};
ghost use Rattle.bd_message.specs.Messages.{IsMessage, IsPlain, size};
ghost use Rattle.bd_node.specs.Nodes.{level_of, buffer_size};
ghost use Rattle.bd_node.specs.Shape.{end_before, AreRising, IsShape};
ghost use Rattle.bd_inner.specs.Exchanging.{IsFlat};
ghost use Rattle.bd_node.specs.Parts.{edges_of, buffer_of};
ghost use Rattle.bd_inner.specs.Batches.{IsLifted};

use crate::leaf::plain;
use crate::made::{message, sent};
use bd_inner::laws::{compacted_nodes, edges_fit, flat_edges};
use bd_inner::{Halves, clip, compact, edge_to, exchange, next_batch, receive, split};
use bd_keys::Bytes;
use bd_limits::{FULL_EDGES, MAX_BUFFER, MAX_EDGES, MAX_KEY};
use bd_message::Message;
use bd_node::{Edge, Items, Messages, Node};
use std::alloc::{AllocError, Global};
use std::test::Fail;

/// A message, a prefix, and the message on what follows it.
type Freed = (&'static str, &'static str, Option<&'static str>);

const FREED: &[Freed] = &[
    ("put ab v", "a", Some("put b v")),
    ("put ab v", "ab", Some("put  v")),
    ("put ab v", "b", None),
    ("del ab", "a", Some("del b")),
    ("patch ab v", "a", Some("patch b v")),
    ("goto ab s", "a", Some("goto b s")),
    ("goto ab s", "b", None),
    // A Goto of keys that begin with less: what follows goes to the end of its source.
    ("goto a s", "abc", Some("goto  sbc")),
    ("cut ab x", "a", Some("cut b x")),
    ("cut ab x", "b", None),
    // A cut of keys that begin with less: what is left of where it begins, all or nothing.
    ("cut a bc", "ab", Some("cut  c")),
    ("cut a b", "ab", Some("cut")),
    ("cut a aa", "ab", Some("cut")),
    ("cut a c", "ab", None),
    ("cut", "ab", Some("cut")),
];

// A message on what follows a prefix.
fn freed(alloc: Global, text: &str, prefix: &str) -> Result<Option<Message>, AllocError> {
    let whole = message(alloc, text)?;
    whole.free(alloc, prefix.as_bytes())
}

// Whether a message is that of a text, or none where there is no text.
fn is_wanted(
    alloc: Global,
    found: &Option<Message>,
    want: Option<&str>,
) -> Result<bool, AllocError> {
    match (found, want) {
        (Some(found), Some(want)) => Ok(*found == message(alloc, want)?),
        (None, None) => Ok(true),
        _ => Ok(false),
    }
}

// Whether a row holds.
fn is_freed(alloc: Global, (text, prefix, want): &Freed) -> Result<bool, AllocError> {
    let found = freed(alloc, text, prefix)?;
    is_wanted(alloc, &found, *want)
}

#[test]
fn messages_on_what_follows_a_prefix(rt: HostRuntime) -> Result<(), Fail> {
    for row in FREED {
        let (text, prefix, _) = row;
        assert!(rt; is_freed(rt.alloc(), row)?, "{text} after {prefix}");
    }
    Ok(())
}

// Edges without children that begin at these keys.
fn edges(alloc: Global, pivots: &str) -> Result<Vec<Edge>, Fail>
    ensures { IfOk result (λ edges. AllByRecursion (IsFlat 0) edges.items) }
{
    let mut edges = Vec::new(alloc);
    for pivot in pivots.split(' ') {
        edges.push(edge(alloc, pivot)?)?;
    }
    Ok(edges)
}

// An edge without a child.
fn edge(alloc: Global, pivot: &str) -> Result<Edge, Fail>
    ensures { IfOk result (λ edge. IsFlat 0 edge) }
{
    if pivot.len() > MAX_KEY {
        return Err(Fail::new("too long a key"));
    }
    Ok(Edge {
        pivot: Bytes::from_slice(alloc, pivot.as_bytes())?,
        lift: 0,
        source: Bytes::from_vec(Vec::new(alloc)),
        child: None,
        seen: 0,
    })
}

// Whether each pivot is below the next one.
fn is_rising(edges: &[Edge]) -> bool
    ensures { IsTrue result ↔ AreRising edges.now }
{
    match edges {
        [] => true,
        [first, rest @ ..] => is_before(first, rest) && is_rising(rest),
    }
}

// Whether an edge's pivot is below that of the first of these edges.
fn is_before(edge: &Edge, rest: &[Edge]) -> bool
    ensures { IsTrue result ↔ IsBelowEnd edge.now.pivot (end_before rest.now) }
{
    match rest {
        [] => true,
        [next, ..] => edge.pivot < next.pivot,
    }
}

// A node with such edges, the first one from the empty key on, and without messages.
pub fn node(alloc: Global, pivots: &str) -> Result<Node, Fail>
    ensures shape { IfOk result IsShape }
    ensures level { IfOk result (λ node. level_of node ≡ 1) }
    ensures empty { IfOk result (λ node. buffer_size node ≡ 0) }
{
    flat_edges();
    let edges = edges(alloc, pivots)?;
    if edges.is_empty() || edges.len() > MAX_EDGES || !edges[0].pivot.is_empty() {
        return Err(Fail::new("no such edges"));
    }
    if !is_rising(&edges) {
        return Err(Fail::new("edges in no order"));
    }
    Ok(Node::Inner {
        level: 1,
        edges: Items::from_vec(edges),
        buffer: Messages::new(alloc),
    })
}

// The edges and the messages of a node.
pub fn parts(node: &Node) -> (&[Edge], &[Message])
    ensures edges { result.0.now ≡ edges_of node.now }
    ensures messages { result.1.now ≡ buffer_of node.now }
{
    match node {
        Node::Leaf(_) => (&[], &[]),
        Node::Inner { edges, buffer, .. } => (edges.as_slice(), buffer.as_slice()),
    }
}

// Two messages, the older one first.
fn two(alloc: Global, older: &str, newer: &str) -> Result<Vec<Message>, Fail>
    ensures { IfOk result (λ list. AllByRecursion IsMessage list.items) }
{
    let mut list = Vec::new(alloc);
    list.push(sent(alloc, older)?)?;
    list.push(sent(alloc, newer)?)?;
    Ok(list)
}

// Whether two messages have room in a node.
fn fit(list: &[Message]) -> bool
    requires { AllByRecursion IsMessage list.now }
    ensures { IsTrue result → sum_by size list.now ≤ buffer_limit }
{
    match list {
        [older, newer] => older.size() + newer.size() <= MAX_BUFFER,
        _ => false,
    }
}

// A copy of a node without messages where two wait.
fn with_two(alloc: Global, node: &Node, older: &str, newer: &str) -> Result<Node, Fail>
    requires shape { IsShape node.now }
    requires inner { 1 ≤ level_of node.now }
    requires none { buffer_size node.now ≡ 0 }
    ensures { IfOk result IsShape }
{
    let list = two(alloc, older, newer)?;
    if !fit(&list) {
        return Err(Fail::new("too many messages"));
    }
    Ok(receive(node, Messages::from_vec(list))?)
}

// A node with such edges, where two messages wait.
pub fn made(alloc: Global, pivots: &str, older: &str, newer: &str) -> Result<Node, Fail>
    ensures { IfOk result IsShape }
{
    let node = node(alloc, pivots)?;
    with_two(alloc, &node, older, newer)
}

// A node with 15 edges, where Puts of a and z wait.
fn full(alloc: Global) -> Result<Node, Fail>
    ensures { IfOk result IsShape }
{
    made(alloc, " b c d e f g h i j k l m n o", "put a v", "put z v")
}

// Whether a message is the Put of a key.
fn is_put(message: &Message, key: &str) -> bool {
    match message {
        Message::Put { key: own, value } => {
            own.as_slice() == key.as_bytes() && value.as_slice() == b"v".as_slice()
        }
        _ => false,
    }
}

// Whether messages are the Puts of these keys.
pub fn are_puts(messages: &[Message], keys: &[&str]) -> bool {
    let same = messages
        .iter()
        .zip(keys)
        .all(|(message, key)| is_put(message, key));
    same && messages.len() == keys.len()
}

// Whether a node has so many edges, and the Puts of these keys wait in it.
fn has(node: &Node, count: usize, keys: &[&str]) -> bool {
    let (edges, messages) = parts(node);
    edges.len() == count && are_puts(messages, keys)
}

// Whether a node's first edge is one from the empty key on that has seen no message.
fn begins_new(node: &Node) -> bool {
    match parts(node) {
        ([first, ..], _) => first.pivot.is_empty() && first.seen == 0,
        _ => false,
    }
}

// The node whose first edge has seen its first message.
pub fn raised(alloc: Global, node: &Node) -> Result<Node, Fail>
    requires { IsShape node.now }
    ensures { IfOk result IsShape }
{
    edges_fit();
    let (edges, messages) = parts(node);
    if edges.is_empty() || messages.is_empty() {
        return Err(Fail::new("no edge or no message"));
    }
    let list = vec![in alloc; seen(&edges[0], 1)?]?;
    Ok(exchange(alloc, node, 0, Items::from_vec(list))?)
}

// The edge after so many messages.
fn seen(edge: &Edge, seen: u32) -> Result<Edge, AllocError>
    ensures { IfOk result (λ copy. copy ≡ record edge.now { seen = seen }) }
{
    let mut copy = edge.clone()?;
    copy.seen = seen;
    Ok(copy)
}

// A node freed of a prefix.
fn clipped(alloc: Global, node: &Node, prefix: &str) -> Result<Node, Fail>
    requires { IsShape node.now }
{
    if prefix.len() > MAX_KEY {
        return Err(Fail::new("too long a prefix"));
    }
    match node {
        Node::Leaf(_) => Err(Fail::new("a leaf")),
        Node::Inner { .. } => Ok(clip(alloc, node, prefix.as_bytes())?),
    }
}

/// What is made of the node with 15 edges, how many edges that has, the first one from the empty key
/// on, which has seen no message, and the Puts that wait there.
const MADE: &[(&str, usize, &[&str])] = &[
    ("all", 15, &["a", "z"]),
    ("compacted", 15, &["a", "z"]),
    ("raised", 15, &["z"]),
    ("freed of ", 15, &["a", "z"]),
    ("freed of a", 1, &[""]),
];

// A node without what is pending for no edge.
fn compacted(alloc: Global, node: &Node) -> Result<Node, AllocError>
    requires { IsShape node.now }
{
    compacted_nodes();
    compact(alloc, node)
}

// What is made of a node.
fn changed(alloc: Global, node: &Node, call: &str) -> Result<Node, Fail>
    requires { IsShape node.now }
{
    match call {
        "compacted" => Ok(compacted(alloc, node)?),
        "raised" => raised(alloc, node),
        _ => clipped(alloc, node, call.strip_prefix("freed of ").unwrap_or("")),
    }
}

// What is made of the node with 15 edges.
fn found(alloc: Global, call: &str) -> Result<Node, Fail> {
    let node = full(alloc)?;
    if call == "all" {
        return Ok(node);
    }
    changed(alloc, &node, call)
}

// Whether a row holds.
fn is_found(alloc: Global, call: &str, count: usize, keys: &[&str]) -> Result<bool, Fail> {
    let node = found(alloc, call)?;
    Ok(begins_new(&node) && has(&node, count, keys))
}

#[test]
fn what_is_made_of_a_node(rt: HostRuntime) -> Result<(), Fail> {
    for (call, count, keys) in MADE {
        assert!(rt; is_found(rt.alloc(), call, *count, *keys)?, "{call}");
    }
    Ok(())
}

// Whether these are the halves of the node with 15 edges.
fn are_halves(halves: &Halves) -> bool {
    halves.pivot.as_slice() == b"h".as_slice()
        && has(&halves.first, 8, &["a"])
        && has(&halves.second, 9, &["z"])
}

// Whether a node gives these halves.
fn gives_halves(alloc: Global, node: &Node) -> Result<bool, Fail>
    requires { IsShape node.now }
{
    let (edges, _) = parts(node);
    if edges.len() < FULL_EDGES {
        return Err(Fail::new("too few edges"));
    }
    let halves = split(alloc, node)?;
    Ok(are_halves(&halves))
}

#[test]
fn halves_of_a_node(rt: HostRuntime) -> Result<(), Fail> {
    let node = full(rt.alloc())?;
    assert!(rt; gives_halves(rt.alloc(), &node)?);
    Ok(())
}

// The way of an edge of all keys to a child.
fn way(alloc: Global) -> Result<Edge, Fail>
    ensures { IfOk result (λ edge. IsLifted edge None) }
{
    let edge = edge(alloc, "")?;
    Ok(edge_to(alloc, &edge, None, 7)?)
}

// Whether the next batch for a child of two messages is both.
fn is_batch(alloc: Global, way: &Edge, older: Message, newer: Message) -> Result<bool, AllocError>
    requires way { IsLifted way.now None }
    requires older { IsMessage older × IsPlain older }
    requires newer { IsMessage newer × IsPlain newer }
{
    let list = Messages::from_vec(Vec::from_array(alloc, [older, newer])?);
    let batch = next_batch(alloc, way, None, &list, 0)?;
    Ok(batch.count == 2 && batch.messages.as_slice() == list.as_slice())
}

// Whether the next batch for a child of two Puts is both.
fn is_batch_of_two(alloc: Global, way: &Edge) -> Result<bool, Fail>
    requires { IsLifted way.now None }
{
    let older = plain(alloc, "put a v")?;
    let newer = plain(alloc, "put z v")?;
    Ok(is_batch(alloc, way, older, newer)?)
}

#[test]
fn a_batch_for_a_child(rt: HostRuntime) -> Result<(), Fail> {
    let way = way(rt.alloc())?;
    assert!(rt; is_batch_of_two(rt.alloc(), &way)?);
    Ok(())
}
