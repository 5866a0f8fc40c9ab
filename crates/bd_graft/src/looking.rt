//! The overlay node that is there already: what one way leads to may have been sent somewhere
//! before.

ghost use Rattle.std.specs.Prelude.{ℕ, ◌≡◌, ◌↔◌, ◌+◌, ◌≤◌, [], ◌∷◌, IfOk, IfSome, IsTrue};
ghost use Rattle.std.specs.List.{AllByRecursion};
ghost use Rattle.bd_limits.specs.Limits.{level_limit};
ghost use Rattle.bd_message.specs.KeyMaps.{HasMapCause, NeverWorn};
ghost use Rattle.bd_node.specs.Frames.{OfSound, OnlyReads};
ghost use Rattle.bd_node.specs.Nodes.{names};
ghost use Rattle.bd_node.specs.Parts.{buffer_of};
ghost use Rattle.bd_node.specs.Stores.{visited};
ghost use Rattle.bd_node.specs.Tables.{IsLower};
ghost use Rattle.bd_resolve.specs.Following.{IsLowerTarget};
ghost use Rattle.bd_graft.specs.Layers.{laid, AreLayers};
ghost use Rattle.bd_graft.specs.Walking.{messages_in};
ghost use Rattle.bd_graft.specs.Packing.{edge_over, overlaid, overlay_of, packs};
ghost use Rattle.bd_graft.specs.Looking.{named_whole, newest_named, looked_at, waiting_in, IsFound};

use crate::layers::{Layer, above, above_end};
use crate::packing::overlay_count;
use bd_message::{MapFault, Message};
use bd_node::{Edge, Node, NodeStore};
use bd_resolve::Target;

/// What was found of an overlay node that is there already.
#[derive(Clone, Copy, Debug)]
pub(crate) struct Lookup {
    /// The node, where it was found.
    pub found: Option<u64>,
    /// How many nodes were fetched.
    pub fetched: u64,
}

/// Looks for the overlay node of layers over the end of a way. Where there would be exactly one, it
/// is there already if the node is equal to it that is named by the newest of the root's `Goto`s
/// without a source.
pub(crate) fn find_overlay<S: NodeStore>(
    store: &mut S,
    layers: &[Layer],
    end: &Option<Target>,
) -> Result<Lookup, MapFault>
    requires { AreLayers (S.table store.old)
        ((S.table store.old).level (S.table store.old).root + 1) layers.now end.now }
    ensures found { OfSound S.NodeStore store.old (IfOk result (λ lookup.
        IsFound (S.nodes store.old) (S.table store.old) end.now
        (overlaid end.now (packs (messages_in layers.now))) lookup.found)) }
    ensures lower { IfOk result (λ lookup. IfSome lookup.found (IsLower (S.table store.old)
        ((S.table store.old).level (S.table store.old).root))) }
    ensures fetched { OfSound S.NodeStore store.old (IfOk result (λ lookup. lookup.fetched
        ≡ looked_at (waiting_in (S.nodes store.old) (S.table store.old))
        (overlaid end.now (packs (messages_in layers.now))))) }
    ensures few { IfOk result (λ lookup. lookup.fetched ≤ 2) }
    ensures left { OnlyReads S.NodeStore store.old store.new }
    ensures cause { HasMapCause (S.fault_count store.old) (S.fault_count store.new)
        (S.last_failed store.new) (S.bad store.new) NeverWorn result }
    ensures visits { (from number : ℕ) → S.visit_count store.old ≡ visited from number
        → IfOk result (λ lookup. S.visit_count store.new
        ≡ visited from (number + lookup.fetched)) }
    ensures few_visits { S.visit_count store.new ≤ S.visit_count store.old + 2 }
{
    if overlay_count(layers, end) != 1 {
        return Ok(Lookup {
            found: None,
            fetched: 0,
        });
    }
    let id = store.root();
    let root = store.fetch(id)?;
    let Some(child) = named_by(&root) else {
        return Ok(Lookup {
            found: None,
            fetched: 1,
        });
    };
    let node = store.fetch(child)?;
    let is_found = is_overlay_of(&*store, &node, layers, end);
    Ok(Lookup {
        found: if is_found { Some(child) } else { None },
        fetched: 2,
    })
}

// The node that the newest `Goto` without a source of those that wait in a node names.
fn named_by(node: &Node) -> Option<u64>
    ensures { result ≡ newest_named (buffer_of node.now) }
{
    match node {
        Node::Leaf(_) => None,
        Node::Inner { buffer, .. } => newest_named(buffer.as_slice()),
    }
}

// The node that the newest `Goto` without a source names.
fn newest_named(list: &[Message]) -> Option<u64>
    ensures { result ≡ newest_named list.now }
{
    let (message, older) = list.split_last()?;
    match named_whole(message) {
        Some(child) => Some(child),
        None => newest_named(older),
    }
}

// The node that a `Goto` without a source names.
fn named_whole(message: &Message) -> Option<u64>
    ensures { result ≡ named_whole message.now }
{
    match message {
        Message::Goto { source, child, .. } if source.is_empty() => Some(*child),
        _ => None,
    }
}

// Whether a node is the only overlay node of layers over an end.
fn is_overlay_of<S: NodeStore>(
    store: &S,
    node: &Node,
    layers: &[Layer],
    end: &Option<Target>,
) -> bool
    requires node { AllByRecursion (IsLower (S.table store.now) level_limit) (names node.now) }
    requires end { IsLowerTarget (S.table store.now) (level_limit + 1) end.now }
    ensures { IsTrue result
        ↔ (node.now ≡ overlay_of (S.table store.now) end.now (laid layers.now)) }
{
    let Node::Inner {
        level,
        edges,
        buffer,
    } = node
    else {
        return false;
    };
    is_laid(buffer.as_slice(), layers)
        && is_edge_over(edges.as_slice(), end)
        && *level
            == above_end(store, end)
                .max(above(store, buffer.as_slice()))
                .max(1)
}

// Whether this is one edge with all keys, to a target or to nothing.
fn is_edge_over(edges: &[Edge], end: &Option<Target>) -> bool
    ensures { IsTrue result ↔ (edges.now ≡ edge_over end.now ∷ []) }
{
    let [edge] = edges else {
        return false;
    };
    edge.pivot.is_empty() && edge.lift == 0 && edge.seen == 0 && leads_to(edge, end)
}

// Whether an edge leads to a target or to nothing.
fn leads_to(edge: &Edge, end: &Option<Target>) -> bool
    ensures { IsTrue result ↔ ((edge.now.source ≡ (edge_over end.now).source)
        × (edge.now.child ≡ (edge_over end.now).child)) }
{
    match end {
        Some(target) => {
            edge.child == Some(target.child) && edge.source.as_slice() == target.source.as_slice()
        }
        None => edge.child.is_none() && edge.source.is_empty(),
    }
}

// Whether these are the messages of layers, those of the last layer the oldest.
fn is_laid(list: &[Message], layers: &[Layer]) -> bool
    ensures { IsTrue result ↔ (list.now ≡ laid layers.now) }
{
    let [layer, rest @ ..] = layers else {
        return list.is_empty();
    };
    let newest = layer.messages.as_slice();
    if newest.len() > list.len() {
        return false;
    }
    let (older, newer) = list.split_at(list.len() - newest.len());
    are_same(newer, newest) && is_laid(older, rest)
}

// Whether two lists of messages are equal.
fn are_same(list: &[Message], other: &[Message]) -> bool
    ensures { IsTrue result ↔ (list.now ≡ other.now) }
{
    list == other
}
