//! Steps that change nodes of one path from the root.

ghost use Rattle.std.specs.Prelude.{◌≡◌, IfOk};
ghost use Rattle.bd_path.specs.Paths.{path_step, change_step};

use bd_node::{Change, Items, Node, Step};
use std::alloc::{AllocError, Global};

/// The step that changes a node, and others of its path, and makes nodes.
pub fn path_step(
    alloc: Global,
    root: u64,
    change: Change,
    others: Vec<Change>,
    made: Vec<Node>,
) -> Result<Step, AllocError>
    ensures { IfOk result (λ step.
        step ≡ path_step root change.id change.node others.items made.items) }
{
    let mut changes = others;
    changes.insert(0, change)?;
    Ok(Step {
        made: Items::from_vec(made),
        changes: Items::from_vec(changes),
        root,
    })
}

/// The step that changes one node.
pub fn change_step(alloc: Global, root: u64, id: u64, node: Node) -> Result<Step, AllocError>
    ensures { IfOk result (λ step. step ≡ change_step root id node) }
{
    path_step(
        alloc,
        root,
        Change { id, node },
        Vec::new(alloc),
        Vec::new(alloc),
    )
}
