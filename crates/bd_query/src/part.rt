//! One node's part in what stands at a key.

ghost use Rattle.std.specs.Prelude.{◌≡◌, ℕ, ◌+◌, ◌≤◌, List, [], ◌++◌, drop, length, Some, IfOk, true};
ghost use Rattle.std.specs.Option.{option_copied, unwrap_or};
ghost use Rattle.bd_keys.specs.Edits.{overwritten};
ghost use Rattle.std.specs.List.{AllByRecursion, flat_map};
ghost use Rattle.bd_keys.specs.Keys.{IsKey};
ghost use Rattle.bd_message.specs.Messages.{IsMessage};
ghost use Rattle.bd_message.specs.Effect.{NodesAt, act, acts};
ghost use Rattle.bd_node.specs.Touching.{touches};
ghost use Rattle.bd_node.specs.Nodes.{node_at, names, message_names, edge_names, child_at, edge_at};
ghost use Rattle.bd_node.specs.Shape.{IsShape};
ghost use Rattle.bd_query.specs.Asks.{asked_by, asked_after, asked_first, asked_through, asked_at, asked_of};
ghost use Rattle.bd_query.specs.Looks.{part_at, IsNamedIn, IsOldOr};

use crate::ends::joined;
use crate::patch::Patch;
use bd_keys::{Bytes, tail};
use bd_leaf::value_at;
use bd_message::Message;
use bd_node::{Edge, Messages, Node, edge_of};
use std::alloc::{AllocError, Global};

/// What stands at a key before patches.
#[derive(Drop)]
pub enum Base {
    /// It is known.
    Value(Option<Bytes>),
    /// It is what a node has at a key.
    Ask { child: u64, key: Bytes },
}

/// What one node says of a key: patches, the oldest first, of what stands there before them.
#[derive(Drop)]
pub struct Part {
    pub base: Base,
    pub patches: Vec<Patch>,
}

/// What a node says of a key.
pub fn part_of(alloc: Global, node: &Node, key: &[u8]) -> Result<Part, AllocError>
    requires { IsShape node.now }
    ensures part { IfOk result (λ part.
        (below : NodesAt) → node_at below node.now key.now ≡ part_at below part) }
    ensures named { IfOk result (λ part. IsNamedIn (names node.now) part.base) }
    ensures asks { IfOk result (λ part. asked_at node.now key.now ≡ asked_of part.base) }
    ensures bytes { IsKey key.now }
{
    match node {
        Node::Leaf(entries) => {
            let found = copied(alloc, value_at(entries.as_slice(), key))?;
            Ok(known(alloc, found))
        }
        Node::Inner { edges, buffer, .. } => {
            part_through(alloc, edge_of(edges.as_slice(), key), buffer, key)
        }
    }
}

/// What an edge and the messages that its child hasn't seen say of a key.
pub fn part_through(
    alloc: Global,
    edge: &Edge,
    buffer: &Messages,
    key: &[u8],
) -> Result<Part, AllocError>
    requires seen { edge.now.seen ≤ length buffer.now }
    requires messages { AllByRecursion IsMessage buffer.now }
    ensures part { IfOk result (λ part. (below : NodesAt)
        → edge_at below edge.now buffer.now key.now ≡ part_at below part) }
    ensures named { IfOk result (λ part.
        IsNamedIn (edge_names edge.now ++ flat_map message_names buffer.now) part.base) }
    ensures asks { IfOk result (λ part.
        asked_through (Some edge.now) buffer.now key.now ≡ asked_of part.base) }
{
    let first = asked(alloc, edge, key)?;
    through(alloc, first, buffer, edge.seen as usize, key)
}

// A copy of a value, if there is one.
fn copied(alloc: Global, value: Option<&[u8]>) -> Result<Option<Bytes>, AllocError>
    ensures { IfOk result (λ copy. copy ≡ option_copied value.entry) }
{
    match value {
        Some(value) => Ok(Some(Bytes::from_slice(alloc, value)?)),
        None => Ok(None),
    }
}

// A value that is known.
fn known(alloc: Global, found: Option<Bytes>) -> Part
    ensures part { (below : NodesAt) → part_at below result ≡ found }
    ensures base { result.base ≡ Base.Value found }
    ensures named { (ns : List ℕ) → IsNamedIn ns result.base }
{
    Part {
        base: Base::Value(found),
        patches: Vec::new(alloc),
    }
}

// What a node has at a key.
fn at_node(alloc: Global, child: u64, key: Bytes) -> Part
    ensures part { (below : NodesAt) → part_at below result ≡ below child key }
    ensures base { result.base ≡ Base.Ask child key }
{
    Part {
        base: Base::Ask { child, key },
        patches: Vec::new(alloc),
    }
}

// What an edge's child has at the key's translation.
fn asked(alloc: Global, edge: &Edge, key: &[u8]) -> Result<Part, AllocError>
    ensures part { IfOk result (λ part. (below : NodesAt) → part_at below part
        ≡ child_at below edge.now.child (edge.now.source ++ drop edge.now.lift key.now)) }
    ensures named { IfOk result (λ part. IsNamedIn (edge_names edge.now) part.base) }
    ensures asks { IfOk result (λ part. asked_of part.base ≡ asked_first edge.now key.now) }
{
    match edge.child {
        Some(child) => {
            let key = joined(alloc, edge.source.as_slice(), tail(key, edge.lift as usize))?;
            Ok(at_node(alloc, child, key))
        }
        None => Ok(known(alloc, None)),
    }
}

// What stands at a key after the messages of a buffer from a place on.
fn through(
    alloc: Global,
    first: Part,
    buffer: &Messages,
    seen: usize,
    key: &[u8],
) -> Result<Part, AllocError>
    requires messages { AllByRecursion IsMessage buffer.now }
    requires seen { seen ≤ length buffer.now }
    ensures part { IfOk result (λ part. (below : NodesAt) → part_at below part
        ≡ acts below (drop seen buffer.now) key.now (part_at below first)) }
    ensures named { IfOk result (λ part.
        IsOldOr (flat_map message_names buffer.now) first.base part.base) }
    ensures asks { IfOk result (λ part. asked_of part.base
        ≡ asked_after (drop seen buffer.now) key.now (asked_of first.base)) }
{
    let mut part = first;
    let mut place = seen;
    while let Some(next) = buffer.next_touching(place, key) {
        part = changed(alloc, part, &buffer.as_slice()[next], key)?;
        place = next + 1;
    }
    Ok(part)
}

// What stands at a key after a message that can change it.
fn changed(alloc: Global, part: Part, message: &Message, key: &[u8]) -> Result<Part, AllocError>
    requires message { IsMessage message.now }
    requires touches { touches message.now key.now ≡ true }
    ensures part { IfOk result (λ new. (below : NodesAt)
        → part_at below new ≡ act below message.now key.now (part_at below part)) }
    ensures named { IfOk result (λ new.
        IsOldOr (message_names message.now) part.base new.base) }
    ensures asks { IfOk result (λ new.
        asked_of new.base ≡ asked_by message.now key.now (asked_of part.base)) }
{
    match message {
        Message::Put { value, .. } => Ok(known(alloc, Some(value.clone()?))),
        Message::Del { .. } | Message::Cut { .. } => Ok(known(alloc, None)),
        Message::Patch { off, bytes, .. } => {
            let bytes = bytes.clone()?;
            patched(part, Patch { off: *off, bytes })
        }
        Message::Goto {
            prefix,
            source,
            child,
        } => {
            let key = joined(alloc, source.as_slice(), tail(key, prefix.len()))?;
            Ok(at_node(alloc, *child, key))
        }
    }
}

// One patch more.
fn patched(part: Part, patch: Patch) -> Result<Part, AllocError>
    ensures part { IfOk result (λ new. (below : NodesAt) → part_at below new
        ≡ Some (overwritten (unwrap_or (part_at below part) []) patch.off patch.bytes)) }
    ensures base { IfOk result (λ new. new.base ≡ part.base) }
{
    let mut part = part;
    part.patches.push(patch)?;
    Ok(part)
}
