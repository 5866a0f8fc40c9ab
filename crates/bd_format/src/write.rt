//! A node written into the bytes of a slot.

ghost use Rattle.std.specs.Prelude.{◌≡◌, ◌<◌, ◌≤◌, ◌^◌, length};
ghost use Rattle.std.specs.List.{AllByRecursion, flat_map};
ghost use Rattle.bd_wire.specs.Writing.{Puts, room};
ghost use Rattle.bd_message.specs.Messages.{IsMessage};
ghost use Rattle.bd_message.specs.Codec.{message_bytes};
ghost use Rattle.bd_node.specs.declared.node.Node.TheVariants.{Leaf, Inner};
ghost use Rattle.bd_node.specs.Shape.{IsLeaf, IsInner, IsShape};
ghost use Rattle.bd_format.specs.Images.{node_head_size, head_bytes, entry_bytes, edge_bytes, node_bytes, IsImage};
ghost use Rattle.bd_format.specs.Parts.{FitsEntry, FitsEdge};

use crate::laws::nodes_fit_slots;
use crate::read::NODE_MAGIC;
use bd_limits::SLOT_SIZE;
use bd_message::Message;
use bd_node::{Edge, Entry, Node};
use bd_wire::Out;

/// Writes the image of a well-formed node over a slot's bytes. It takes no memory.
pub fn encode(node: &Node, into: &mut [u8; SLOT_SIZE])
    requires { IsShape node.now }
    ensures { IsImage node.now into.new }
{
    nodes_fit_slots();
    let mut out = Out::new(into);
    put_node(node, &mut out);
    out.put_zeros();
}

// Writes a node's encoding.
fn put_node(node: &Node, out: &mut Out)
    requires shape { IsShape node.now }
    requires room { length (node_bytes node.now) ≤ length (room out.old) }
    ensures { Puts out.old out.new (node_bytes node.now) }
{
    match node {
        Node::Leaf(entries) => put_leaf(entries.as_slice(), out),
        Node::Inner {
            level,
            edges,
            buffer,
        } => put_inner(*level, edges.as_slice(), buffer.as_slice(), out),
    }
}

// Writes the encoding of a leaf with these entries.
#[tactic(auto, using(bd_wire::proofs::WritingLemmas::writing))]
fn put_leaf(entries: &[Entry], out: &mut Out)
    requires shape { IsLeaf entries.now }
    requires room { length (node_bytes (Leaf entries.now)) ≤ length (room out.old) }
    ensures { Puts out.old out.new (node_bytes (Leaf entries.now)) }
{
    put_head(0, entries.len(), 0, out);
    put_entries(entries, out);
}

// Writes the encoding of an inner node with these edges and messages.
#[tactic(auto, using(bd_wire::proofs::WritingLemmas::writing))]
fn put_inner(level: u32, edges: &[Edge], buffer: &[Message], out: &mut Out)
    requires shape { IsInner level edges.now buffer.now }
    requires room { length (node_bytes (Inner level edges.now buffer.now)) ≤ length (room out.old) }
    ensures { Puts out.old out.new (node_bytes (Inner level edges.now buffer.now)) }
{
    put_head(level, edges.len(), buffer.len(), out);
    put_edges(edges, out);
    put_messages(buffer, out);
}

// Writes what an image begins with.
#[tactic(auto, using(bd_wire::proofs::WritingLemmas::writing))]
fn put_head(level: u32, items: usize, messages: usize, out: &mut Out)
    requires items { items < 2 ^ 32 }
    requires messages { messages < 2 ^ 32 }
    requires room { node_head_size ≤ length (room out.old) }
    ensures { Puts out.old out.new (head_bytes level items messages) }
{
    out.put_u32(NODE_MAGIC);
    out.put_u32(level);
    out.put_u32(items as u32);
    out.put_u32(messages as u32);
}

// Writes entries one after the other.
fn put_entries(entries: &[Entry], out: &mut Out)
    requires fits { AllByRecursion FitsEntry entries.now }
    requires room { length (flat_map entry_bytes entries.now) ≤ length (room out.old) }
    ensures { Puts out.old out.new (flat_map entry_bytes entries.now) }
{
    for entry in entries {
        put_entry(entry, out);
    }
}

// Writes an entry.
#[tactic(auto, using(bd_wire::proofs::WritingLemmas::writing))]
fn put_entry(entry: &Entry, out: &mut Out)
    requires fits { FitsEntry entry.now }
    requires room { length (entry_bytes entry.now) ≤ length (room out.old) }
    ensures { Puts out.old out.new (entry_bytes entry.now) }
{
    out.put_text16(entry.key.as_slice());
    out.put_text16(entry.value.as_slice());
}

// Writes edges one after the other.
fn put_edges(edges: &[Edge], out: &mut Out)
    requires fits { AllByRecursion FitsEdge edges.now }
    requires room { length (flat_map edge_bytes edges.now) ≤ length (room out.old) }
    ensures { Puts out.old out.new (flat_map edge_bytes edges.now) }
{
    for edge in edges {
        put_edge(edge, out);
    }
}

// Writes an edge.
#[tactic(auto, using(bd_wire::proofs::WritingLemmas::writing))]
fn put_edge(edge: &Edge, out: &mut Out)
    requires fits { FitsEdge edge.now }
    requires room { length (edge_bytes edge.now) ≤ length (room out.old) }
    ensures { Puts out.old out.new (edge_bytes edge.now) }
{
    out.put_text16(edge.pivot.as_slice());
    out.put_u16(edge.lift);
    out.put_text16(edge.source.as_slice());
    out.put_u64(edge.child.unwrap_or(0));
    out.put_u32(edge.seen);
}

// Writes messages one after the other.
fn put_messages(messages: &[Message], out: &mut Out)
    requires fits { AllByRecursion IsMessage messages.now }
    requires room { length (flat_map message_bytes messages.now) ≤ length (room out.old) }
    ensures { Puts out.old out.new (flat_map message_bytes messages.now) }
{
    for message in messages {
        message.write(out);
    }
}
