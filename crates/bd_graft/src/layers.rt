//! The messages that wait on the way of a prefix, for the keys that begin with it.

ghost use Rattle.std.specs.Prelude.{◌≡◌, ◌+◌, IfOk};
ghost use Rattle.std.specs.List.{AllByRecursion, flat_map};
ghost use Rattle.bd_limits.specs.Limits.{level_limit};
ghost use Rattle.bd_node.specs.Nodes.{message_names};
ghost use Rattle.bd_node.specs.Tables.{IsLower};
ghost use Rattle.bd_resolve.specs.Following.{IsLowerTarget};
ghost use Rattle.bd_graft.specs.Layers.{all_freed, above};
ghost use Rattle.bd_graft.specs.Packing.{target_names};

use bd_message::Message;
use bd_node::{Messages, NodeStore};
use bd_resolve::Target;
use std::alloc::{AllocError, Global};

/// Messages of one node on the way of a prefix, freed of the prefix, the oldest first.
#[derive(Debug, Drop)]
pub struct Layer {
    pub messages: Messages,
    /// One above the highest node that they name, and 0 where they name none.
    pub over: u32,
    /// The node's level.
    pub level: u32,
}

/// Messages freed of a prefix, without those that change nothing at a key that begins with it.
pub(crate) fn all_freed(
    alloc: Global,
    list: &[Message],
    prefix: &[u8],
) -> Result<Vec<Message>, AllocError>
    ensures { IfOk result (λ made. made.items ≡ all_freed prefix.now list.now) }
{
    let mut made = Vec::new(alloc);
    for message in list {
        if let Some(freed) = message.free(alloc, prefix)? {
            made.push(freed)?;
        }
    }
    Ok(made)
}

/// One above the highest node that messages name, and 0 where they name none.
pub(crate) fn above<S: NodeStore>(store: &S, list: &[Message]) -> u32
    requires { AllByRecursion (IsLower (S.table store.now) level_limit)
        (flat_map message_names list.now) }
    ensures { result ≡ above (S.table store.now).level (flat_map message_names list.now) }
{
    let [message, rest @ ..] = list else {
        return 0;
    };
    let most = above(store, rest);
    match message {
        Message::Goto { child, .. } => (store.level(*child) + 1).max(most),
        Message::Put { .. } | Message::Del { .. } | Message::Patch { .. } | Message::Cut { .. } =>
            most,
    }
}

/// One above the node of a target, and 0 where there is none.
pub(crate) fn above_end<S: NodeStore>(store: &S, end: &Option<Target>) -> u32
    requires { IsLowerTarget (S.table store.now) (level_limit + 1) end.now }
    ensures { result ≡ above (S.table store.now).level (target_names end.now) }
{
    match end {
        Some(target) => store.level(target.child) + 1,
        None => 0,
    }
}
