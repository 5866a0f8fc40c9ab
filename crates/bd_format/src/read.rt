//! The node that the bytes of a slot are the image of.

ghost use Rattle.std.specs.Prelude.{◌≡◌, ◌≤◌, ◌↔◌, IfOk, IsTrue};
ghost use Rattle.std.specs.Option.{option_map};
ghost use Rattle.bd_message.specs.Messages.{IsMessage};
ghost use Rattle.bd_message.specs.Codec.{message_bytes, IsPartAs, FitsPart, encode_part};
ghost use Rattle.bd_format.specs.Images.{IsDecodedAs, entry_bytes, edge_bytes, node_bytes, child_number};
ghost use Rattle.bd_node.specs.Shape.{IsShape};
ghost use Rattle.bd_format.specs.Parts.{AreReadAs, IsRestAs, FitsHead, FitsEntry, FitsEdge, FitsChild, FitsTarget, FitsNode, encode_head, encode_target};

use crate::inner::is_inner;
use crate::leaf::is_leaf;
use bd_keys::Bytes;
use bd_limits::SLOT_SIZE;
use bd_message::Message;
use bd_message::laws::messages_are_prefix_free;
use bd_node::{Edge, Entry, Items, Messages, Node};
use bd_wire::Cursor;
use std::alloc::{AllocError, Global};

/// What an image of a node begins with, `BDN1`.
pub const NODE_MAGIC: u32 = 0x4244_4e31;

/// The numbers at the front of an image.
#[derive(Clone, Copy)]
pub struct Head {
    /// 0 in a leaf.
    pub level: u32,
    /// How many entries or edges there are.
    pub items: u32,
    /// How many messages wait.
    pub messages: u32,
}

/// The well-formed node whose image these bytes are. It is `None` exactly where they are no such
/// node's.
pub fn decode(alloc: Global, bytes: &[u8; SLOT_SIZE]) -> Result<Option<Node>, AllocError>
    ensures { IfOk result (λ found. IsDecodedAs bytes.now found) }
{
    messages_are_prefix_free();
    let mut cursor = Cursor::new(bytes);
    let Some(node) = read_node(alloc, &mut cursor)? else {
        return Ok(None);
    };
    if !cursor.rest_is_zero() {
        return Ok(None);
    }
    if !is_shape(&node) {
        return Ok(None);
    }
    Ok(Some(node))
}

// Whether a node is well-formed.
fn is_shape(node: &Node) -> bool
    ensures { IsTrue result ↔ IsShape node.now }
{
    match node {
        Node::Leaf(entries) => is_leaf(entries.as_slice()),
        Node::Inner {
            level,
            edges,
            buffer,
        } => is_inner(*level, edges.as_slice(), buffer.as_slice()),
    }
}

// Reads a node off the front, well-formed or not.
fn read_node(alloc: Global, cursor: &mut Cursor) -> Result<Option<Node>, AllocError>
    ensures { IfOk result (λ found. IsPartAs FitsNode node_bytes cursor.old cursor.new found) }
{
    let Some(head) = read_head(cursor) else {
        return Ok(None);
    };
    if head.level == 0 {
        read_leaf(alloc, head, cursor)
    } else {
        read_inner(alloc, head, cursor)
    }
}

// Reads what follows the head of a leaf.
fn read_leaf(alloc: Global, head: Head, cursor: &mut Cursor) -> Result<Option<Node>, AllocError>
    requires level { head.level ≡ 0 }
    requires fits { FitsHead head }
    ensures { IfOk result (λ found. IsRestAs head cursor.old cursor.new found) }
{
    if head.messages != 0 {
        return Ok(None);
    }
    match read_entries(alloc, head.items, cursor)? {
        Some(entries) => Ok(Some(Node::Leaf(Items::from_vec(entries)))),
        None => Ok(None),
    }
}

// Reads what follows the head of an inner node.
fn read_inner(alloc: Global, head: Head, cursor: &mut Cursor) -> Result<Option<Node>, AllocError>
    requires level { 1 ≤ head.level }
    requires fits { FitsHead head }
    ensures { IfOk result (λ found. IsRestAs head cursor.old cursor.new found) }
{
    let Some(edges) = read_edges(alloc, head.items, cursor)? else {
        return Ok(None);
    };
    match read_messages(alloc, head.messages, cursor)? {
        Some(messages) => Ok(Some(Node::Inner {
            level: head.level,
            edges: Items::from_vec(edges),
            buffer: Messages::indexed(messages)?,
        })),
        None => Ok(None),
    }
}

// Reads what an image begins with.
fn read_head(cursor: &mut Cursor) -> Option<Head>
    ensures { IsPartAs FitsHead encode_head cursor.old cursor.new result }
{
    let Ok(magic) = cursor.u32() else {
        return None;
    };
    let Ok(level) = cursor.u32() else {
        return None;
    };
    let Ok(items) = cursor.u32() else {
        return None;
    };
    let Ok(messages) = cursor.u32() else {
        return None;
    };
    if magic != NODE_MAGIC {
        return None;
    }
    Some(Head {
        level,
        items,
        messages,
    })
}

// Reads so many entries.
fn read_entries(
    alloc: Global,
    count: u32,
    cursor: &mut Cursor,
) -> Result<Option<Vec<Entry>>, AllocError>
    ensures { IfOk result (λ found. AreReadAs count FitsEntry entry_bytes cursor.old cursor.new
        (option_map (λ entries. entries.items) found)) }
{
    let mut entries = Vec::new(alloc);
    for _place in 0..count {
        match read_entry(alloc, cursor)? {
            Some(entry) => entries.push(entry)?,
            None => return Ok(None),
        }
    }
    Ok(Some(entries))
}

// Reads an entry.
fn read_entry(alloc: Global, cursor: &mut Cursor) -> Result<Option<Entry>, AllocError>
    ensures { IfOk result (λ found. IsPartAs FitsEntry entry_bytes cursor.old cursor.new found) }
{
    let Ok(key) = cursor.text16() else {
        return Ok(None);
    };
    let Ok(value) = cursor.text16() else {
        return Ok(None);
    };
    let key = Bytes::from_slice(alloc, key)?;
    let value = Bytes::from_slice(alloc, value)?;
    Ok(Some(Entry { key, value }))
}

// Reads so many edges.
fn read_edges(
    alloc: Global,
    count: u32,
    cursor: &mut Cursor,
) -> Result<Option<Vec<Edge>>, AllocError>
    ensures { IfOk result (λ found. AreReadAs count FitsEdge edge_bytes cursor.old cursor.new
        (option_map (λ edges. edges.items) found)) }
{
    let mut edges = Vec::new(alloc);
    for _place in 0..count {
        match read_edge(alloc, cursor)? {
            Some(edge) => edges.push(edge)?,
            None => return Ok(None),
        }
    }
    Ok(Some(edges))
}

// Reads an edge.
fn read_edge(alloc: Global, cursor: &mut Cursor) -> Result<Option<Edge>, AllocError>
    ensures { IfOk result (λ found. IsPartAs FitsEdge edge_bytes cursor.old cursor.new found) }
{
    let Some((pivot, lift, source)) = read_way(cursor) else {
        return Ok(None);
    };
    let Some((child, seen)) = read_target(cursor) else {
        return Ok(None);
    };
    let pivot = Bytes::from_slice(alloc, pivot)?;
    let source = Bytes::from_slice(alloc, source)?;
    Ok(Some(Edge {
        pivot,
        lift,
        source,
        child: child_of(child),
        seen,
    }))
}

// Reads the pivot, the lift and the source of an edge.
fn read_way<'a>(cursor: &mut Cursor<'a>) -> Option<(&'a [u8], u16, &'a [u8])>
    ensures { IsPartAs FitsPart encode_part cursor.old cursor.new
        (option_map (λ p. ((p.0.now, p.1), p.2.now)) result) }
{
    let Ok(pivot) = cursor.text16() else {
        return None;
    };
    let Ok(lift) = cursor.u16() else {
        return None;
    };
    let Ok(source) = cursor.text16() else {
        return None;
    };
    Some((pivot, lift, source))
}

// Reads the number of an edge's child, and how many messages it has already.
fn read_target(cursor: &mut Cursor) -> Option<(u64, u32)>
    ensures { IsPartAs FitsTarget encode_target cursor.old cursor.new result }
{
    let Ok(child) = cursor.u64() else {
        return None;
    };
    let Ok(seen) = cursor.u32() else {
        return None;
    };
    Some((child, seen))
}

// The child with this number, where 0 is none.
fn child_of(number: u64) -> Option<u64>
    ensures number { child_number result ≡ number }
    ensures fits { FitsChild result }
{
    if number == 0 { None } else { Some(number) }
}

// Reads so many messages.
fn read_messages(
    alloc: Global,
    count: u32,
    cursor: &mut Cursor,
) -> Result<Option<Vec<Message>>, AllocError>
    ensures { IfOk result (λ found. AreReadAs count IsMessage message_bytes cursor.old cursor.new
        (option_map (λ messages. messages.items) found)) }
{
    messages_are_prefix_free();
    let mut messages = Vec::new(alloc);
    for _place in 0..count {
        match Message::read(alloc, cursor)? {
            Some(message) => messages.push(message)?,
            None => return Ok(None),
        }
    }
    Ok(Some(messages))
}
