//! The nodes of a tree, as text.

ghost use Rattle.std.specs.Prelude.{◌≡◌};
ghost use Rattle.bd_node.specs.Tables.{IsKept};

use crate::stop::Stop;
use bd_counts::push_node;
use bd_node::{Node, NodeStore};
use std::alloc::{AllocError, Global};

/// A node: its id, how often it is named, whether more than one way from the root leads to it, and its
/// fields as text.
#[derive(PartialEq, Drop)]
pub struct Shown {
    id: u64,
    count: u64,
    is_shared: bool,
    fields: String,
}

/// A node as text.
fn show(alloc: Global, way: (u64, u64, bool), node: &Node) -> Result<Shown, AllocError> {
    let (id, count, is_shared) = way;
    Ok(Shown {
        id,
        count,
        is_shared,
        fields: format!(in alloc; "{node:?}")?,
    })
}

/// Whether a node is among others.
fn is_seen(seen: &[Shown], id: u64) -> bool {
    seen.iter().any(|node| node.id == id)
}

/// Puts a node and all below it after others, where it isn't among them.
fn push_below<S: NodeStore>(
    alloc: Global,
    store: &mut S,
    id: u64,
    is_shared: bool,
    seen: &mut Vec<Shown>,
) -> Result<(), Stop>
    requires { IsKept (S.table store.old) id }
    ensures { S.table store.new ≡ S.table store.old }
{
    if is_seen(seen.as_slice(), id) {
        return Ok(());
    }
    let count = store.count(id);
    let is_shared = is_shared || count != 1;
    let node = store.fetch(id)?;
    seen.push(show(alloc, (id, count, is_shared), &node)?)?;
    let mut below = Vec::new(alloc);
    push_node(&mut below, &node)?;
    for name in below.as_slice() {
        push_below(alloc, store, *name, is_shared, seen)?;
    }
    Ok(())
}

/// All nodes that the root leads to, in the order of a walk.
pub fn walked<S: NodeStore>(alloc: Global, store: &mut S) -> Result<Vec<Shown>, Stop> {
    let mut seen = Vec::new(alloc);
    let root = store.root();
    push_below(alloc, store, root, false, &mut seen)?;
    Ok(seen)
}

/// Whether a node is gone, or has the same fields.
fn stays(after: &[Shown], node: &Shown) -> bool {
    match after.iter().find(|other| other.id == node.id) {
        Some(other) => other.fields == node.fields,
        None => true,
    }
}

/// How many shared nodes there are, if each has stayed.
pub fn shared_that_stay(before: &[Shown], after: &[Shown]) -> Result<u64, Stop> {
    let mut count = 0u64;
    for node in before {
        if node.is_shared {
            if !stays(after, node) {
                return Err(Stop::Differs);
            }
            count = count.saturating_add(1);
        }
    }
    Ok(count)
}

/// In how many nodes below the first one a Goto waits.
pub fn gotos_below(nodes: &[Shown]) -> u64 {
    nodes
        .iter()
        .skip(1)
        .filter(|node| node.fields.contains("Goto"))
        .count() as u64
}
