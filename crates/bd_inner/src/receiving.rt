//! Inner nodes with messages put after those that wait.

ghost use Rattle.std.specs.Prelude.{◌≡◌, ℕ, ◌+◌, ◌≤◌, List, IfOk};
ghost use Rattle.std.specs.List.{AllByRecursion, sum_by};
ghost use Rattle.bd_limits.specs.Limits.{buffer_limit};
ghost use Rattle.bd_message.specs.Messages.{IsMessage, size};
ghost use Rattle.bd_message.specs.Effect.{NodesAt, acts};
ghost use Rattle.bd_node.specs.Nodes.{level_of, buffer_size, appended, node_at};
ghost use Rattle.bd_node.specs.Shape.{IsShape};

use bd_node::{Messages, Node};
use std::alloc::AllocError;

/// A copy of an inner node with messages put after those that wait in it, of at most 32,768 bytes
/// with them. At each key it has what the node had, changed by the messages.
pub fn receive(node: &Node, list: Messages) -> Result<Node, AllocError>
    requires shape { IsShape node.now }
    requires inner { 1 ≤ level_of node.now }
    requires each { AllByRecursion IsMessage list }
    requires fits { buffer_size node.now + sum_by size list ≤ buffer_limit }
    ensures node { IfOk result (λ n. n ≡ appended node.now list) }
    ensures shape { IfOk result IsShape }
    ensures meaning { IfOk result (λ n. (below : NodesAt) (k : List ℕ)
        → node_at below n k ≡ acts below list k (node_at below node.now k)) }
{
    node.followed_by(list)
}
