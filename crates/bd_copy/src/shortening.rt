//! Nodes whose sources were too long to be stored.

ghost use Rattle.std.specs.Prelude.{◌≡◌, ◌+◌, ◌^◌, ◌<◌, ◌≤◌, ◌++◌, ℕ, List, Some, IfOk};
ghost use Rattle.std.specs.List.{AllByRecursion, AllZip, sum_by};
ghost use Rattle.bd_keys.specs.Keys.{IsKey};
ghost use Rattle.bd_message.specs.KeyMaps.{HasMapCause, NeverWorn};
ghost use Rattle.bd_node.specs.Frames.{OfSound, OnlyReads};
ghost use Rattle.bd_node.specs.Nodes.{node_at};
ghost use Rattle.bd_node.specs.Meaning.{at};
ghost use Rattle.bd_node.specs.Tables.{IsKept, IsTable, IsSound};
ghost use Rattle.bd_node.specs.Parts.{edges_of, buffer_of};
ghost use Rattle.bd_resolve.specs.Following.{target_at, target_of};
ghost use Rattle.bd_copy.specs.Shortening.{edge_way, goto_way, IsKeptTarget, IsShortWay, way_visits, sent_edge, IsShortEdge, IsSameEdge, sent_keys, IsShortMessage, IsSameMessage, CanShorten, IsShortened};

use bd_keys::Bytes;
use bd_limits::MAX_KEY;
use bd_message::{MapFault, Message};
use bd_node::{Edge, Items, Messages, Node, NodeStore};
use bd_resolve::{Target, resolve};
use std::alloc::{AllocError, Global};

/// An inner node with sources of at most 518 bytes, where those of the given one may be longer: it
/// has at each key what that one has. Each longer source is looked through (`resolve`): the edge then
/// asks what answers for it, or nothing; a Goto becomes a Goto to it, or a Cut of all its keys. There
/// are at most as many visits as the nodes together are high that longer sources are asked of.
pub fn shorten<S: NodeStore>(alloc: Global, store: &mut S, node: &Node) -> Result<Node, MapFault>
    requires { CanShorten (S.table store.old) node.now }
    ensures shortened { IfOk result (IsShortened (S.table store.old) node.now) }
    ensures same { OfSound S.NodeStore store.old
        (IfOk result (λ made. (k : List ℕ) → IsKey k
        → node_at (at (S.nodes store.old)) made k ≡ node_at (at (S.nodes store.old)) node.now k)) }
    ensures left { OnlyReads S.NodeStore store.old store.new }
    ensures cause { HasMapCause (S.fault_count store.old) (S.fault_count store.new)
        (S.last_failed store.new) (S.bad store.new) NeverWorn result }
    ensures few_visits { S.visit_count store.new ≤ S.visit_count store.old
        + (sum_by (λ e. way_visits (S.table store.old) (edge_way e)) (edges_of node.now)
        + sum_by (λ m. way_visits (S.table store.old) (goto_way m)) (buffer_of node.now)) }
{
    let Node::Inner {
        level,
        edges,
        buffer,
    } = node
    else {
        unreachable!()
    };
    has_ids(&*store);
    let edges = short_edges(alloc, store, edges.as_slice())?;
    let buffer = short_messages(alloc, store, buffer.as_slice())?;
    Ok(Node::Inner {
        level: *level,
        edges: Items::from_vec(edges),
        buffer: Messages::from_vec(buffer),
    })
}

// The edges with sources of at most 518 bytes.
fn short_edges<S: NodeStore>(
    alloc: Global,
    store: &mut S,
    edges: &[Edge],
) -> Result<Vec<Edge>, MapFault>
    requires { AllByRecursion (λ e. IsKeptTarget (S.table store.old) (edge_way e)) edges.now }
    ensures edges { IfOk result (λ made.
        AllZip (IsShortEdge (S.table store.old)) edges.now made.items) }
    ensures same { OfSound S.NodeStore store.old
        (IfOk result (λ made. AllZip (IsSameEdge (S.nodes store.old)) edges.now made.items)) }
    ensures left { OnlyReads S.NodeStore store.old store.new }
    ensures cause { HasMapCause (S.fault_count store.old) (S.fault_count store.new)
        (S.last_failed store.new) (S.bad store.new) NeverWorn result }
    ensures few_visits { S.visit_count store.new ≤ S.visit_count store.old
        + sum_by (λ e. way_visits (S.table store.old) (edge_way e)) edges.now }
{
    let mut made = Vec::with_capacity(alloc, edges.len())?;
    for edge in edges {
        made.push(short_edge(alloc, store, edge)?)?;
    }
    Ok(made)
}

// The messages with sources of at most 518 bytes.
fn short_messages<S: NodeStore>(
    alloc: Global,
    store: &mut S,
    list: &[Message],
) -> Result<Vec<Message>, MapFault>
    requires { AllByRecursion (λ m. IsKeptTarget (S.table store.old) (goto_way m)) list.now }
    ensures messages { IfOk result (λ made.
        AllZip (IsShortMessage (S.table store.old)) list.now made.items) }
    ensures same { OfSound S.NodeStore store.old
        (IfOk result (λ made. AllZip (IsSameMessage (S.nodes store.old)) list.now made.items)) }
    ensures left { OnlyReads S.NodeStore store.old store.new }
    ensures cause { HasMapCause (S.fault_count store.old) (S.fault_count store.new)
        (S.last_failed store.new) (S.bad store.new) NeverWorn result }
    ensures few_visits { S.visit_count store.new ≤ S.visit_count store.old
        + sum_by (λ m. way_visits (S.table store.old) (goto_way m)) list.now }
{
    let mut made = Vec::with_capacity(alloc, list.len())?;
    for message in list {
        made.push(short_message(alloc, store, message)?)?;
    }
    Ok(made)
}

// An edge with a source of at most 518 bytes.
fn short_edge<S: NodeStore>(alloc: Global, store: &mut S, edge: &Edge) -> Result<Edge, MapFault>
    requires { IsKeptTarget (S.table store.old) (edge_way edge.now) }
    ensures edge { IfOk result (IsShortEdge (S.table store.old) edge.now) }
    ensures same { OfSound S.NodeStore store.old
        (IfOk result (IsSameEdge (S.nodes store.old) edge.now)) }
    ensures left { OnlyReads S.NodeStore store.old store.new }
    ensures cause { HasMapCause (S.fault_count store.old) (S.fault_count store.new)
        (S.last_failed store.new) (S.bad store.new) NeverWorn result }
    ensures few_visits { S.visit_count store.new
        ≤ S.visit_count store.old + way_visits (S.table store.old) (edge_way edge.now) }
{
    let Some(child) = edge.child else {
        return Ok(sent_edge(alloc, edge, None)?);
    };
    let target = short_way(alloc, store, child, &edge.source)?;
    Ok(sent_edge(alloc, edge, target)?)
}

// A message with a source of at most 518 bytes.
fn short_message<S: NodeStore>(
    alloc: Global,
    store: &mut S,
    message: &Message,
) -> Result<Message, MapFault>
    requires { IsKeptTarget (S.table store.old) (goto_way message.now) }
    ensures message { IfOk result (IsShortMessage (S.table store.old) message.now) }
    ensures same { OfSound S.NodeStore store.old
        (IfOk result (IsSameMessage (S.nodes store.old) message.now)) }
    ensures left { OnlyReads S.NodeStore store.old store.new }
    ensures cause { HasMapCause (S.fault_count store.old) (S.fault_count store.new)
        (S.last_failed store.new) (S.bad store.new) NeverWorn result }
    ensures few_visits { S.visit_count store.new
        ≤ S.visit_count store.old + way_visits (S.table store.old) (goto_way message.now) }
{
    match message {
        Message::Goto {
            prefix,
            source,
            child,
        } => {
            let target = short_way(alloc, store, *child, source)?;
            Ok(sent_keys(alloc, prefix, target)?)
        }
        Message::Put { .. } | Message::Del { .. } | Message::Patch { .. } | Message::Cut { .. } =>
            Ok(copy(message)?),
    }
}

// What answers for a node's keys that begin with a source, with one of at most 518 bytes. A source
// that is so short stays.
fn short_way<S: NodeStore>(
    alloc: Global,
    store: &mut S,
    child: u64,
    source: &Bytes,
) -> Result<Option<Target>, MapFault>
    requires { IsKept (S.table store.old) child }
    ensures way { IfOk result (IsShortWay (S.table store.old) (target_of (Some child) source.now)) }
    ensures value { OfSound S.NodeStore store.old
        (IfOk result (λ found. (k : List ℕ) → IsKey k
        → target_at (at (S.nodes store.old)) found k
        ≡ at (S.nodes store.old) child (source.now ++ k))) }
    ensures left { OnlyReads S.NodeStore store.old store.new }
    ensures cause { HasMapCause (S.fault_count store.old) (S.fault_count store.new)
        (S.last_failed store.new) (S.bad store.new) NeverWorn result }
    ensures few_visits { S.visit_count store.new ≤ S.visit_count store.old
        + way_visits (S.table store.old) (target_of (Some child) source.now) }
{
    let source = source.clone()?;
    if source.len() <= MAX_KEY {
        return Ok(Some(Target { child, source }));
    }
    resolve(alloc, store, child, source)
}

// The edge of the same keys to another target, or to none.
fn sent_edge(alloc: Global, edge: &Edge, target: Option<Target>) -> Result<Edge, AllocError>
    ensures { IfOk result (λ made. made ≡ sent_edge edge.now target) }
{
    let (child, source) = match target {
        Some(Target { child, source }) => (Some(child), source),
        None => (None, Bytes::from_vec(Vec::new(alloc))),
    };
    Ok(Edge {
        pivot: edge.pivot.clone()?,
        lift: edge.lift,
        source,
        child,
        seen: edge.seen,
    })
}

// The message that sends the keys of a prefix to a target, and cuts them all where there is none.
fn sent_keys(alloc: Global, prefix: &Bytes, target: Option<Target>) -> Result<Message, AllocError>
    ensures { IfOk result (λ made. made ≡ sent_keys prefix.now target) }
{
    let prefix = prefix.clone()?;
    match target {
        Some(Target { child, source }) => Ok(Message::Goto {
            prefix,
            source,
            child,
        }),
        None => Ok(Message::Cut {
            prefix,
            from: Bytes::from_vec(Vec::new(alloc)),
        }),
    }
}

// The ids of kept nodes are 1 or more, and a u64.
fn has_ids<S: NodeStore>(store: &S)
    ensures table { IsTable (S.table store.now) }
    ensures next { (S.table store.now).next < 2 ^ 64 }
{
    let _next = store.next_id();
}

fn copy(message: &Message) -> Result<Message, AllocError>
    ensures { IfOk result (λ copy. copy ≡ message.now) }
{
    message.clone()
}
