//! The oldest Goto that is pending for an edge, and may not go down it.

ghost use Rattle.std.specs.Prelude.{◌≡◌, ◌↔◌, ◌<◌, ◌≤◌, length, true, false, IsTrue, None, IfSome, MatchOption};
ghost use Rattle.std.specs.Option.{option_copied};
ghost use Rattle.std.specs.List.{AllByRecursion, flat_map};
ghost use Rattle.bd_keys.specs.Keys.{IsKey, IsBelowEnd, IsAtLeast};
ghost use Rattle.bd_node.specs.declared.node.Edge.{Edge};
ghost use Rattle.bd_node.specs.Nodes.{message_names};
ghost use Rattle.bd_node.specs.Tables.{IsKept};
ghost use Rattle.bd_node.specs.Parts.{edges_of, IsEdgeAt};
ghost use Rattle.bd_path.specs.Fetching.{IsFetched};
ghost use Rattle.bd_flush.specs.GoingDown.{IsBelowAll, LiesWithin, MayGoDown, child_level};
ghost use Rattle.bd_flush.specs.Pushing.{AllGoDown};
ghost use Rattle.bd_flush.specs.Carving.{IsHeldGoto, IsFreeAt, AreFree, IsOldestGoto, IsOldestAt};

use bd_message::Message;
use bd_node::{Edge, NodeStore, can_touch, end_of};
use bd_path::Fetched;

/// The place of the oldest Goto that is pending for the edge at a place, and may not go down it: the
/// edge has no child, or one whose level isn't above that of the node that the Goto names, or some
/// of the Goto's keys aren't the edge's. `None` where each message that the edge hasn't seen may go
/// down.
pub fn held_goto<S: NodeStore>(store: &S, parent: &Fetched, place: usize) -> Option<usize>
    requires fetched { IsFetched (S.table store.now) parent.now }
    requires within { place < length (edges_of parent.now.node.value) }
    ensures none { result ≡ None → (e : Edge) → IsEdgeAt parent.now.node.value place e
        → AllGoDown (S.table store.now).level (child_level (S.table store.now).level e.child)
        parent.now.node.value place e }
    ensures some { IfSome result (λ index. (e : Edge) → IsEdgeAt parent.now.node.value place e
        → IsOldestAt (S.table store.now).level parent.now.node.value place e index) }
{
    let edges = parent.node.edges();
    let edge = &edges[place];
    let top = match edge.child {
        Some(child) => store.level(child),
        None => 0,
    };
    oldest_goto(store, top, edge, end_of(edges, place), parent.node.buffer())
}

// The place of the oldest Goto that is pending for an edge, whose keys end at `hi`, and may not go
// down it to a child of a level.
fn oldest_goto<S: NodeStore>(
    store: &S,
    top: u32,
    edge: &Edge,
    hi: Option<&[u8]>,
    buffer: &[Message],
) -> Option<usize>
    requires kept { AllByRecursion (IsKept (S.table store.now))
        (flat_map message_names buffer.now) }
    requires rising { IsBelowEnd edge.now.pivot (option_copied hi) }
    ensures { MatchOption result
        (AreFree (S.table store.now).level top buffer.now edge.now (option_copied hi.entry))
        (IsOldestGoto (S.table store.now).level top buffer.now edge.now
        (option_copied hi.entry)) }
{
    for (index, message) in buffer.iter().enumerate() {
        if !is_free(store, top, index, message, edge, hi) {
            return Some(index);
        }
    }
    None
}

// Whether the message at a place, where it is pending for an edge whose keys end at `hi`, may go
// down it to a child of a level.
fn is_free<S: NodeStore>(
    store: &S,
    top: u32,
    index: usize,
    message: &Message,
    edge: &Edge,
    hi: Option<&[u8]>,
) -> bool
    requires kept { AllByRecursion (IsKept (S.table store.now)) (message_names message.now) }
    requires rising { IsBelowEnd edge.now.pivot (option_copied hi) }
    ensures free { result ≡ true → IsFreeAt (S.table store.now).level top index message.now
        edge.now (option_copied hi.entry) }
    ensures held { result ≡ false → IsHeldGoto (S.table store.now).level top index message.now
        edge.now (option_copied hi.entry) }
{
    if may_go_down(store, top, edge, hi, message) {
        return true;
    }
    let waits = edge.seen as usize <= index && can_touch(message, edge.pivot.as_slice(), hi);
    !waits
}

// Whether a message may go down an edge, whose keys end at `hi`, to a child of a level.
fn may_go_down<S: NodeStore>(
    store: &S,
    top: u32,
    edge: &Edge,
    hi: Option<&[u8]>,
    message: &Message,
) -> bool
    requires { AllByRecursion (IsKept (S.table store.now)) (message_names message.now) }
    ensures { IsTrue result ↔ MayGoDown (S.table store.now).level top edge.now
        (option_copied hi.entry) message.now }
{
    match message {
        Message::Goto { prefix, child, .. } => {
            store.level(*child) < top && lies_within(prefix.as_slice(), edge.pivot.as_slice(), hi)
        }
        Message::Put { .. } => true,
        Message::Del { .. } => true,
        Message::Patch { .. } => true,
        Message::Cut { .. } => true,
    }
}

// Whether all keys that begin with a prefix are at least `lo` and below `hi`.
pub(crate) fn lies_within(prefix: &[u8], lo: &[u8], hi: Option<&[u8]>) -> bool
    ensures { IsTrue result ↔ LiesWithin prefix.now lo.now (option_copied hi.entry) }
{
    if !begins_from(prefix, lo) {
        return false;
    }
    match hi {
        Some(hi) => ends_below(prefix, hi),
        None => true,
    }
}

// Whether a prefix, the first key that begins with it, is at least another key.
fn begins_from(prefix: &[u8], lo: &[u8]) -> bool
    ensures least { IsTrue result ↔ IsAtLeast prefix.now lo.now }
    ensures bytes { IsKey prefix.now }
{
    !prefix.cmp(lo).is_lt()
}

// Whether all keys that begin with a prefix are below another key.
fn ends_below(prefix: &[u8], key: &[u8]) -> bool
    ensures { IsTrue result ↔ IsBelowAll prefix.now key.now }
{
    prefix.cmp(key).is_lt() && !key.starts_with(prefix)
}
