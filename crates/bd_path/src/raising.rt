//! Nodes rise by one level where a node below them has risen.

ghost use Rattle.std.specs.Prelude.{◌≡◌, ◌<◌, ◌++◌, ◌∷◌, map, reverse, IfOk, MatchOption};
ghost use Rattle.std.specs.List.{AllByRecursion};
ghost use Rattle.bd_node.specs.Shape.{IsShape};
ghost use Rattle.bd_path.specs.declared.fetching.Fetched.{Fetched};
ghost use Rattle.bd_path.specs.Raising.{raised, CannotRise, AreRaised, CannotRiseOver, AreChangesOver};
ghost use Rattle.bd_limits.specs.Limits.{level_limit};
ghost use Rattle.bd_node.specs.Nodes.{level_of};

use crate::Fetched;
use bd_limits::MAX_LEVEL;
use bd_node::{Change, Items, Node};
use std::alloc::{AllocError, Global};

/// The nodes above one on the way down to it, the root first.
pub type Way = Items<Fetched>;

/// Puts behind some changes those of the nodes above one that gets a level, the nearest of which
/// stands apart: from this one on upwards each rises by one level that isn't above the one below it.
/// There are none where one of level 1,000 would have to rise.
pub fn raise_way(
    changes: Vec<Change>,
    above: &[Fetched],
    nearest: &Fetched,
    level: u32,
) -> Result<Option<Vec<Change>>, AllocError>
    requires { AllByRecursion (λ (f : Fetched). IsShape f.node.value) (nearest.now ∷ reverse above.now) }
    ensures { IfOk result (λ found. MatchOption found
        (CannotRise level (nearest.now ∷ reverse above.now))
        (λ all. AreRaised level (nearest.now ∷ reverse above.now) changes.items all.items)) }
{
    let own = nearest.node.level();
    if level < own {
        return Ok(Some(changes));
    }
    if own >= MAX_LEVEL {
        return Ok(None);
    }
    let mut changes = changes;
    changes.push(Change {
        id: nearest.id,
        node: raised(&nearest.node)?,
    })?;
    match above.split_last() {
        Some((next, others)) => raise_way(changes, others, next, own + 1),
        None => Ok(Some(changes)),
    }
}

/// The changes of a node over a child that gets a level, one level higher where it has to be, and
/// of the nodes above it that rise with it. There are none where one of level 1,000 would have to
/// rise.
pub fn changes_over(
    alloc: Global,
    level: u32,
    parent: Change,
    above: &[Fetched],
) -> Result<Option<Vec<Change>>, AllocError>
    requires shape { IsShape parent.node }
    requires low { level < level_limit }
    requires above { AllByRecursion (λ (f : Fetched). IsShape f.node.value) (reverse above.now) }
    ensures { IfOk result (λ found. MatchOption found
        (CannotRiseOver level parent.node (reverse above.now))
        (λ all. AreChangesOver level parent (reverse above.now) all.items)) }
{
    let own = parent.node.level();
    let mut changes = Vec::new(alloc);
    if level < own {
        changes.push(parent)?;
        return Ok(Some(changes));
    }
    changes.push(Change {
        id: parent.id,
        node: raised(&parent.node)?,
    })?;
    match above.split_last() {
        Some((nearest, others)) => raise_way(changes, others, nearest, own + 1),
        None => Ok(Some(changes)),
    }
}

/// A node one level higher, all else as it is.
pub fn raised(node: &Node) -> Result<Node, AllocError>
    requires { IsShape node.now }
    ensures { IfOk result (λ n. n ≡ raised node.now) }
{
    match node {
        Node::Leaf(entries) => Ok(Node::Leaf(entries.clone()?)),
        Node::Inner {
            level,
            edges,
            buffer,
        } => Ok(Node::Inner {
            level: *level + 1,
            edges: edges.clone()?,
            buffer: buffer.clone()?,
        }),
    }
}
