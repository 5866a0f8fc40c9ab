//! The names in the nodes that a step gives.

ghost use Rattle.std.specs.Prelude.{◌≡◌, ◌++◌, OnOk, IfOk};
ghost use Rattle.std.specs.List.{flat_map};
ghost use Rattle.bd_node.specs.Nodes.{edge_names, message_names, names};
ghost use Rattle.bd_counts.specs.Naming.{change_names, step_names, added_names};

use bd_message::Message;
use bd_node::{Change, Edge, Node, Step};
use std::alloc::{AllocError, Global};

/// The names in the nodes that a step gives, and the root.
pub fn named_by(alloc: Global, step: &Step) -> Result<Vec<u64>, AllocError>
    ensures { IfOk result (λ list. list.items ≡ step_names step.now) }
{
    let mut list = Vec::new(alloc);
    push_nodes(&mut list, step.made.as_slice())?;
    push_changes(&mut list, step.changes.as_slice())?;
    list.push(step.root)?;
    Ok(list)
}

/// The names that made nodes and messages add.
pub fn added_by(alloc: Global, made: &[Node], messages: &[Message]) -> Result<Vec<u64>, AllocError>
    ensures { IfOk result (λ list. list.items ≡ added_names made.now messages.now) }
{
    let mut list = Vec::new(alloc);
    push_nodes(&mut list, made)?;
    push_messages(&mut list, messages)?;
    Ok(list)
}

// Puts the names in nodes after others.
fn push_nodes(list: &mut Vec<u64>, nodes: &[Node]) -> Result<(), AllocError>
    ensures { OnOk result (list.new.items ≡ list.old.items ++ flat_map names nodes.now) }
{
    for node in nodes {
        push_node(list, node)?;
    }
    Ok(())
}

// Puts the names in changed nodes after others.
fn push_changes(list: &mut Vec<u64>, changes: &[Change]) -> Result<(), AllocError>
    ensures { OnOk result (list.new.items
        ≡ list.old.items ++ flat_map change_names changes.now) }
{
    for change in changes {
        push_node(list, &change.node)?;
    }
    Ok(())
}

/// Puts the names in a node after others.
pub fn push_node(list: &mut Vec<u64>, node: &Node) -> Result<(), AllocError>
    ensures { OnOk result (list.new.items ≡ list.old.items ++ names node.now) }
{
    match node {
        Node::Leaf(_) => Ok(()),
        Node::Inner { edges, buffer, .. } => {
            push_edges(list, edges.as_slice())?;
            push_messages(list, buffer.as_slice())
        }
    }
}

// Puts the names in edges after others.
fn push_edges(list: &mut Vec<u64>, edges: &[Edge]) -> Result<(), AllocError>
    ensures { OnOk result (list.new.items ≡ list.old.items ++ flat_map edge_names edges.now) }
{
    for edge in edges {
        if let Some(child) = edge.child {
            list.push(child)?;
        }
    }
    Ok(())
}

// Puts the names in messages after others.
fn push_messages(list: &mut Vec<u64>, messages: &[Message]) -> Result<(), AllocError>
    ensures { OnOk result (list.new.items ≡ list.old.items ++ flat_map message_names messages.now) }
{
    for message in messages {
        if let Message::Goto { child, .. } = message {
            list.push(*child)?;
        }
    }
    Ok(())
}
