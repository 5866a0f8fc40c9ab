//! Nodes that were fetched.

ghost use Rattle.std.specs.Prelude.{◌≡◌, IfOk, Some};
ghost use Rattle.bd_message.specs.KeyMaps.{HasMapCause, NeverWorn};
ghost use Rattle.bd_node.specs.Frames.{OnlyReads};
ghost use Rattle.bd_node.specs.Tables.{IsKept};
ghost use Rattle.bd_node.specs.Stores.{visited};
ghost use Rattle.bd_path.specs.Fetching.{IsFetched};

use bd_message::MapFault;
use bd_node::{Node, NodeStore};
use std::rc::Rc;

/// A node that was fetched.
#[derive(Debug, Drop)]
pub struct Fetched {
    pub id: u64,
    pub node: Rc<Node>,
}

/// Fetches the node of an id. One visit.
pub fn fetch<S: NodeStore>(store: &mut S, id: u64) -> Result<Fetched, MapFault>
    requires { IsKept (S.table store.old) id }
    ensures id { IfOk result (λ found. found.id ≡ id) }
    ensures fetched { IfOk result (IsFetched (S.table store.old)) }
    ensures contents { S.is_known store.old
        → IfOk result (λ found. S.nodes store.old id ≡ Some found.node.value) }
    ensures left { OnlyReads S.NodeStore store.old store.new }
    ensures visits { S.visit_count store.new ≡ visited (S.visit_count store.old) 1 }
    ensures cause { HasMapCause (S.fault_count store.old) (S.fault_count store.new)
        (S.last_failed store.new) (S.bad store.new) NeverWorn result }
{
    let node = store.fetch(id)?;
    Ok(Fetched { id, node })
}
