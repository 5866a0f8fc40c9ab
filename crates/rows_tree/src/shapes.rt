//! Lines on the nodes of the tree in memory: `height LOW HIGH`, `nodes LOW HIGH`, `made COUNT` (so
//! many new ids in the last call), `walk VISITS` (of the last graft), `visits COUNT`, `size BYTES`
//! (what waits in the root), `edges COUNT` (of the root), `together KEY KEY` and `apart KEY KEY`
//! (the root asks the same child for them, or not), `step LIMIT` (a step of a flush is made),
//! `gotos LEAST` (so many nodes below the root in which a Goto waits), `stays LIMIT LEAST` (a
//! flush, each step of which leaves the shared nodes as they were, so many in all), and `hold`,
//! `held COUNT` (so many messages wait in the root that is held) and `release`.

use crate::machine::Machine;
use crate::stop::{Stop, ensure, within};
use crate::walk::{Shown, gotos_below, shared_that_stay, walked};
use crate::words::{WORDS, bytes, number};
use bd_memnodes::MemNodes;
use bd_node::{Edge, Node, NodeStore};
use bd_tree::Tree;
use std::alloc::Global;
use std::rc::Rc;

/// Runs a line, if it is one of these.
pub fn run(machine: &mut Machine, words: &[&str; WORDS]) -> Result<bool, Stop> {
    match words[0] {
        "height" | "nodes" | "made" | "walk" | "visits" | "size" => count(machine, words)?,
        "edges" => edges(machine, words)?,
        "together" | "apart" => children(machine, words)?,
        "step" => ensure(machine.tree.flush_step(number(words[1])? as usize)?)?,
        "gotos" => gotos(machine, words)?,
        "stays" => stays(machine, words)?,
        "hold" => machine.held = Some(root_of(&mut machine.tree)?),
        "held" => held(machine, words)?,
        "release" => machine.held = None,
        _ => return Ok(false),
    }
    Ok(true)
}

/// A number of the tree that a line names.
fn counted(machine: &Machine, name: &str) -> u64 {
    let store = machine.tree.store();
    match name {
        "height" => machine.tree.height(),
        "nodes" => store.kept(),
        "made" => store.next_id().saturating_sub(machine.next_id),
        "walk" => machine.tree.last_walk().visits,
        "visits" => store.visits(),
        _ => store.root_size() as u64,
    }
}

/// A number of the tree is that of the line, or between both of them.
fn count(machine: &Machine, words: &[&str; WORDS]) -> Result<(), Stop> {
    let low = number(words[1])?;
    let high = if words[2].is_empty() {
        low
    } else {
        number(words[2])?
    };
    within(counted(machine, words[0]), low, high)
}

/// The node of the root.
fn root_of(tree: &mut Tree<MemNodes>) -> Result<Rc<Node>, Stop> {
    let store = tree.store_mut();
    let root = store.root();
    Ok(store.fetch(root)?)
}

/// How many edges a node has.
fn edge_count(node: &Node) -> u64 {
    match node {
        Node::Leaf(_) => 0,
        Node::Inner { edges, .. } => edges.as_slice().len() as u64,
    }
}

/// The root has so many edges.
fn edges(machine: &mut Machine, words: &[&str; WORDS]) -> Result<(), Stop> {
    let want = number(words[1])?;
    let root = root_of(&mut machine.tree)?;
    within(edge_count(&root), want, want)
}

/// The child of the last of these edges whose pivot isn't above a key.
fn last_child(edges: &[Edge], key: &[u8]) -> Option<u64> {
    let mut child = None;
    for edge in edges {
        if !key.cmp(edge.pivot.as_slice()).is_lt() {
            child = edge.child;
        }
    }
    child
}

/// The child that a node asks for a key.
fn child_of(node: &Node, key: &[u8]) -> Option<u64> {
    match node {
        Node::Leaf(_) => None,
        Node::Inner { edges, .. } => last_child(edges.as_slice(), key),
    }
}

/// The root asks the same child for two keys, or another one.
fn children(machine: &mut Machine, words: &[&str; WORDS]) -> Result<(), Stop> {
    let first = bytes(machine.alloc, words[1])?;
    let second = bytes(machine.alloc, words[2])?;
    let root = root_of(&mut machine.tree)?;
    let child = child_of(&root, &first);
    ensure(child.is_some() && (child == child_of(&root, &second)) == (words[0] == "together"))
}

/// In so many nodes below the root a Goto waits, or in more.
fn gotos(machine: &mut Machine, words: &[&str; WORDS]) -> Result<(), Stop> {
    let least = number(words[1])?;
    let nodes = walked(machine.alloc, machine.tree.store_mut())?;
    within(gotos_below(&nodes), least, u64::MAX)
}

/// Flushes, if each step leaves the shared nodes as they were. How many it left, in all.
fn flushed(alloc: Global, tree: &mut Tree<MemNodes>, limit: usize) -> Result<u64, Stop> {
    let mut before = walked(alloc, tree.store_mut())?;
    let mut total = 0u64;
    for _ in 0..1_000 {
        if !tree.flush_step(limit)? {
            return Ok(total);
        }
        total = total.saturating_add(left_shared(alloc, tree, &mut before)?);
    }
    Err(Stop::NoLine)
}

/// How many shared nodes are as they were, if each is. Those of now are taken.
fn left_shared(
    alloc: Global,
    tree: &mut Tree<MemNodes>,
    before: &mut Vec<Shown>,
) -> Result<u64, Stop> {
    let after = walked(alloc, tree.store_mut())?;
    let count = shared_that_stay(before, &after)?;
    *before = after;
    Ok(count)
}

/// A flush leaves shared nodes as they were, so many or more.
fn stays(machine: &mut Machine, words: &[&str; WORDS]) -> Result<(), Stop> {
    let limit = number(words[1])? as usize;
    let least = number(words[2])?;
    within(
        flushed(machine.alloc, &mut machine.tree, limit)?,
        least,
        u64::MAX,
    )
}

/// How many messages wait in a node.
fn waiting(node: &Node) -> u64 {
    match node {
        Node::Leaf(_) => 0,
        Node::Inner { buffer, .. } => buffer.len() as u64,
    }
}

/// So many messages wait in the root that is held.
fn held(machine: &Machine, words: &[&str; WORDS]) -> Result<(), Stop> {
    let want = number(words[1])?;
    match &machine.held {
        Some(node) => within(waiting(node), want, want),
        None => Err(Stop::NoLine),
    }
}
