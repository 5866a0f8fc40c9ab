//! Whether a message is pending for some edge.

ghost use Rattle.std.specs.Prelude.{◌≡◌, ◌↔◌, true, IsTrue};
ghost use Rattle.bd_node.specs.Index.{is_point, own_key};
ghost use Rattle.bd_node.specs.Owners.{IsOwner};
ghost use Rattle.bd_node.specs.Shape.{AreRising, SomeEdge, IsPending, IsUnseen};

use crate::Edge;
use crate::edge::{edge_of, end_before};
use crate::index::{is_point, own_key};
use crate::touching::can_touch;
use bd_message::Message;

/// Whether the message at a place of the buffer is pending for some edge: one that hasn't seen it,
/// and at one of whose keys it can change what stands there. Of a message on one key, the edge of
/// the key is looked up by halving.
pub fn is_pending(place: usize, message: &Message, edges: &[Edge]) -> bool
    requires { AreRising edges.now }
    ensures { IsTrue result ↔ SomeEdge (IsPending place message.now) edges.now }
{
    if is_point(message) {
        is_unseen(place, own_key(message), edges)
    } else {
        is_spread(place, message, edges)
    }
}

/// The same where the place of the edge of the key is known, of a message on one key.
pub fn is_owned_pending(place: usize, message: &Message, edges: &[Edge], owner: usize) -> bool
    requires rising { AreRising edges.now }
    requires owner { is_point message.now ≡ true → IsOwner edges.now (own_key message.now) owner }
    ensures { IsTrue result ↔ SomeEdge (IsPending place message.now) edges.now }
{
    if is_point(message) {
        edges[owner].seen as usize <= place
    } else {
        is_spread(place, message, edges)
    }
}

// Whether the edge of a key hasn't seen the message at a place.
fn is_unseen(place: usize, key: &[u8], edges: &[Edge]) -> bool
    requires { AreRising edges.now }
    ensures { IsTrue result ↔ SomeEdge (IsUnseen place key.now) edges.now }
{
    if edges.is_empty() {
        return false;
    }
    let edge = edge_of(edges, key);
    edge.seen as usize <= place && !key.cmp(edge.pivot.as_slice()).is_lt()
}

// Whether the message at a place is pending for some edge, asked of each.
fn is_spread(place: usize, message: &Message, edges: &[Edge]) -> bool
    requires { AreRising edges.now }
    ensures { IsTrue result ↔ SomeEdge (IsPending place message.now) edges.now }
{
    let [edge, rest @ ..] = edges else {
        return false;
    };
    let waits = edge.seen as usize <= place
        && can_touch(message, edge.pivot.as_slice(), end_before(rest));
    waits || is_spread(place, message, rest)
}
