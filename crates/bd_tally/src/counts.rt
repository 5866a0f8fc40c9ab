//! Counts by rising ids, from which names are taken.

ghost use Rattle.std.specs.Prelude.{◌≡◌, ◌≢◌, [], ◌∷◌, map, All, IfOk, IfSome, IfNone};
ghost use Rattle.std.specs.List.{flat_map};
ghost use Rattle.std.specs.Option.{option_to_list};
ghost use Rattle.bd_node.specs.Nodes.{names, edge_names, message_names};
ghost use Rattle.bd_tally.specs.Counts.{AreRising, IsPlaceOf, first_count, counts_after, first_wrong};

use crate::count::Count;
use bd_message::Message;
use bd_node::{Edge, Node};
use bd_table::TableEntry;
use std::alloc::{AllocError, Global};

/// The counts of entries before any name came.
pub fn first_counts(alloc: Global, entries: &[TableEntry]) -> Result<Vec<Count>, AllocError>
    ensures { IfOk result (λ counts. counts.items ≡ map first_count entries.now) }
{
    entries.iter().map(|entry| Count::of(*entry)).collect(alloc)
}

/// Takes the names in a node.
pub fn take_names(counts: &mut [Count], node: &Node)
    requires { AreRising counts.old }
    ensures { counts.new ≡ counts_after (names node.now) counts.old }
{
    match node {
        Node::Leaf(_) => {}
        Node::Inner { edges, buffer, .. } => {
            take_edges(counts, edges.as_slice());
            take_messages(counts, buffer.as_slice());
        }
    }
}

// Takes the names in edges.
fn take_edges(counts: &mut [Count], edges: &[Edge])
    requires { AreRising counts.old }
    ensures { counts.new ≡ counts_after (flat_map edge_names edges.now) counts.old }
{
    for edge in edges {
        take_some(counts, edge.child);
    }
}

// Takes the names in messages.
fn take_messages(counts: &mut [Count], messages: &[Message])
    requires { AreRising counts.old }
    ensures { counts.new ≡ counts_after (flat_map message_names messages.now) counts.old }
{
    for message in messages {
        take_some(counts, child_of(message));
    }
}

// The node that a message names.
fn child_of(message: &Message) -> Option<u64>
    ensures { option_to_list result ≡ message_names message.now }
{
    match message {
        Message::Goto { child, .. } => Some(*child),
        Message::Put { .. } => None,
        Message::Del { .. } => None,
        Message::Patch { .. } => None,
        Message::Cut { .. } => None,
    }
}

// Takes a name, where there is one.
fn take_some(counts: &mut [Count], name: Option<u64>)
    requires { AreRising counts.old }
    ensures { counts.new ≡ counts_after (option_to_list name) counts.old }
{
    if let Some(name) = name {
        take(counts, name);
    }
}

/// Takes a name. Where no count is of its id, nothing changes.
pub fn take(counts: &mut [Count], name: u64)
    requires { AreRising counts.old }
    ensures { counts.new ≡ counts_after (name ∷ []) counts.old }
{
    if let Some(place) = place_of(&*counts, name) {
        counts[place] = counts[place].after_name();
    }
}

// Where the count of an id stands, if there is one.
fn place_of(counts: &[Count], id: u64) -> Option<usize>
    requires { AreRising counts.now }
    ensures found { IfSome result (IsPlaceOf counts.now id) }
    ensures none { IfNone result (All (λ c. c.id ≢ id) counts.now) }
{
    counts.binary_search_by_key(&id, |count| count.id).ok()
}

/// The id of the first count that is wrong.
pub fn first_wrong(counts: &[Count]) -> Option<u64>
    ensures { result ≡ first_wrong counts.now }
{
    for count in counts {
        if count.is_wrong() {
            return Some(count.id);
        }
    }
    None
}
