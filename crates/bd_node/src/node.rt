//! Nodes, and steps from nodes to nodes.

ghost use Rattle.std.specs.Prelude.{◌≡◌, IfOk, OnOk, OnErr};
ghost use Rattle.bd_node.specs.Nodes.{appended, buffer_size, level_of};
ghost use Rattle.bd_node.specs.Parts.{edges_of, buffer_of};
ghost use Rattle.bd_node.specs.Shape.{IsShape};

use crate::{Items, Messages};
use bd_keys::Bytes;
use bd_message::Message;
use std::alloc::AllocError;

/// A key of a leaf with its value.
#[derive(Clone, Debug, Drop)]
pub struct Entry {
    pub key: Bytes,
    pub value: Bytes,
}

/// The way from an inner node to what it has at the keys from a pivot up to the next edge's.
#[derive(Clone, Debug, Drop)]
pub struct Edge {
    /// The least key of the edge, at most 518 bytes.
    pub pivot: Bytes,
    /// How many of a key's first bytes are left out before the child is asked; the edge's keys have
    /// them in common.
    pub lift: u16,
    /// What is put in their place, at most 518 bytes, and nothing without a child.
    pub source: Bytes,
    /// The node that is asked. Without one there is nothing.
    pub child: Option<u64>,
    /// How many of the oldest messages the child already has.
    pub seen: u32,
}

/// The entries of a leaf, in rising order of their keys.
pub type Entries = Items<Entry>;

/// The edges of an inner node, in rising order of their pivots.
pub type Edges = Items<Edge>;

/// A node.
#[derive(Debug, Drop)]
pub enum Node {
    /// The keys with their values.
    Leaf(Entries),
    /// A node of level 1 to 1,000 with 1 to 16 edges, and the messages that wait for them, the
    /// oldest first.
    Inner {
        level: u32,
        edges: Edges,
        buffer: Messages,
    },
}

/// Several nodes.
pub type Nodes = Items<Node>;

/// What a kept node is from now on.
#[derive(Debug, Drop)]
pub struct Change {
    pub id: u64,
    pub node: Node,
}

/// Several changes.
pub type Changes = Items<Change>;

/// A step from nodes to nodes. It is made as a whole or not at all.
#[derive(Debug, Drop)]
pub struct Step {
    /// The new nodes. They get the ids from the store's next id on, in this order.
    pub made: Nodes,
    /// The nodes that are changed, each once.
    pub changes: Changes,
    /// The root from now on.
    pub root: u64,
}

impl Node {
    /// How far it stands above the leaves: 0 is a leaf.
    pub fn level(&self) -> u32
        ensures { result ≡ level_of self.now }
    {
        match self {
            Node::Leaf(_) => 0,
            Node::Inner { level, .. } => *level,
        }
    }

    /// Its edges, and none of a leaf.
    pub fn edges(&self) -> &[Edge]
        ensures { result.now ≡ edges_of self.now }
    {
        match self {
            Node::Leaf(_) => &[],
            Node::Inner { edges, .. } => edges.as_slice(),
        }
    }

    /// The messages that wait in it, and none of a leaf.
    pub fn buffer(&self) -> &[Message]
        ensures { result.now ≡ buffer_of self.now }
    {
        match self {
            Node::Leaf(_) => &[],
            Node::Inner { buffer, .. } => buffer.as_slice(),
        }
    }

    /// How many bytes the messages that wait in it count together: 0 of a leaf.
    pub fn buffer_size(&self) -> usize
        requires { IsShape self.now }
        ensures { result ≡ buffer_size self.now }
    {
        match self {
            Node::Leaf(_) => 0,
            Node::Inner { buffer, .. } => buffer.size(),
        }
    }

    /// A copy of an inner node with messages put after those that wait in it, and of a leaf as it is.
    pub fn followed_by(&self, list: Messages) -> Result<Node, AllocError>
        ensures { IfOk result (λ n. n ≡ appended self.now list) }
    {
        match self {
            Node::Leaf(entries) => Ok(Node::Leaf(entries.clone()?)),
            Node::Inner {
                level,
                edges,
                buffer,
            } => Ok(Node::Inner {
                level: *level,
                edges: edges.clone()?,
                buffer: buffer.followed_by(list)?,
            }),
        }
    }

    /// Puts messages after those that wait in an inner node; a leaf stays as it is. Where there is
    /// no memory, the node stays as it is.
    pub fn append(&mut self, list: Messages) -> Result<(), AllocError>
        ensures ok { OnOk result (self.new ≡ appended self.old list) }
        ensures err { OnErr result (self.new ≡ self.old) }
    {
        match self {
            Node::Leaf(_) => Ok(()),
            Node::Inner { buffer, .. } => buffer.append(list),
        }
    }
}

impl Clone for Node {
    ghost is_clone = { λ node copy. copy ≡ node };

    fn clone(&self) -> Result<Node, AllocError> {
        match self {
            Node::Leaf(entries) => Ok(Node::Leaf(entries.clone()?)),
            Node::Inner {
                level,
                edges,
                buffer,
            } => Ok(Node::Inner {
                level: *level,
                edges: edges.clone()?,
                buffer: buffer.clone()?,
            }),
        }
    }
}
