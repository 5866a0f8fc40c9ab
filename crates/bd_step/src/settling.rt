//! The step before a graft: what waits on the way of its source goes down.

ghost use Rattle.std.specs.Prelude.{◌≡◌, ◌≢◌, ◌↔◌, ℕ, ◌+◌, ◌<◌, ◌≤◌, List, true, false, length, reverse, Ok, IsTrue, IfOk, IfSome, MatchOption, OnOk};
ghost use Rattle.std.specs.List.{AllByRecursion, sum_by};
ghost use Rattle.bd_limits.specs.Limits.{abundant_limit, buffer_limit};
ghost use Rattle.bd_message.specs.Freeing.{CanStrip};
ghost use Rattle.bd_message.specs.KeyMaps.{HasMapCause, NeverWorn};
ghost use Rattle.bd_message.specs.Messages.{IsMessage, size};
ghost use Rattle.bd_node.specs.declared.node.Edge.{Edge};
ghost use Rattle.bd_node.specs.Frames.{OfSound, OnlyReads, Stays};
ghost use Rattle.bd_node.specs.Parts.{edges_of, buffer_of, IsEdgeAt};
ghost use Rattle.bd_node.specs.Shape.{IsShape};
ghost use Rattle.bd_node.specs.Tables.{IsKept};
ghost use Rattle.bd_path.specs.Fetching.{IsFetched};
ghost use Rattle.bd_path.specs.Made.{AreKnown};
ghost use Rattle.bd_step.specs.Steps.{step_visits};
ghost use Rattle.bd_step.specs.Settling.{size_under, waiting_under, IsEdgeFor, HasNoEdgeFor, IsAlong, IsSettled, IsDueOn, IsUnsettled, IsUnsettledIn, IsSettleStep, IsSettleFound, IsWornToSettle};

use crate::beginning::make_from;
use crate::gotos::lies_within;
use crate::ways::{Asked, Site, asks};
use bd_keys::tail;
use bd_limits::ABUNDANT;
use bd_message::{MapFault, Message};
use bd_node::{Items, Node, NodeStore, end_of};
use bd_path::{Fetched, fetch};
use std::alloc::Global;

/// Makes one step of a flush where 1,024 bytes or more wait for a prefix on its way, and says whether
/// it did. The way goes from the root by edges that have all keys of the prefix to private nodes,
/// asked with nothing in front of a key; at the first one at whose edge as much waits of messages on
/// these keys, the step begins. Where that node has 15 or 16 edges, it is split first. A shared node
/// is copied only where 1,024 bytes or more are pending for it. All changes are made at once or not
/// at all; at most four nodes are made, and there are at most as many visits as in a step of a flush.
pub fn settle_step<S: NodeStore>(
    alloc: Global,
    store: &mut S,
    prefix: &[u8],
) -> Result<bool, MapFault>
    ensures settled { OfSound S.NodeStore store.old (result ≡ Ok false
        → IsSettled (S.nodes store.old) (S.table store.old) prefix.now) }
    ensures step { OfSound S.NodeStore store.old (result ≡ Ok true
        → IsSettleStep (S.nodes store.old) (S.table store.old) prefix.now
        (S.nodes store.new) (S.table store.new)) }
    ensures found { result ≡ Ok true → IsSettleFound (S.table store.old) (S.table store.new) }
    ensures stays { Stays S.NodeStore store.old store.new }
    ensures rest { result ≢ Ok true → OnlyReads S.NodeStore store.old store.new }
    ensures few_visits { S.visit_count store.new
        ≤ S.visit_count store.old + step_visits (S.table store.old) }
    ensures cause { HasMapCause (S.fault_count store.old) (S.fault_count store.new)
        (S.last_failed store.new) (S.bad store.new)
        (IsWornToSettle (AreKnown S.NodeStore store.old) (S.nodes store.old)
        (S.table store.old) prefix.now) result }
{
    let Some(site) = unsettled(alloc, store, prefix)? else {
        return Ok(false);
    };
    let Site {
        above,
        parent,
        place,
    } = site;
    make_from(alloc, store, above, parent, place)?;
    Ok(true)
}

// Where a step is due on the way of a prefix, if there is such a place.
fn unsettled<S: NodeStore>(
    alloc: Global,
    store: &mut S,
    prefix: &[u8],
) -> Result<Option<Site>, MapFault>
    ensures found { IfOk result (λ found. IfSome found (IsUnsettled (S.table store.old))) }
    ensures at { OfSound S.NodeStore store.old (IfOk result (λ found. MatchOption found
        (IsSettled (S.nodes store.old) (S.table store.old) prefix.now)
        (IsUnsettledIn (S.nodes store.old) (S.table store.old) prefix.now))) }
    ensures left { OnlyReads S.NodeStore store.old store.new }
    ensures cause { HasMapCause (S.fault_count store.old) (S.fault_count store.new)
        (S.last_failed store.new) (S.bad store.new) NeverWorn result }
    ensures few_visits { S.visit_count store.new
        ≤ S.visit_count store.old + ((S.table store.old).level (S.table store.old).root + 1) }
    ensures visits { IfOk result (λ found. IfSome found (λ site. S.visit_count store.new
        + (S.table store.old).level site.parent.id
        ≤ S.visit_count store.old + ((S.table store.old).level (S.table store.old).root + 1))) }
{
    let root = store.root();
    let mut here = fetch(store, root)?;
    let mut above = Vec::new(alloc);
    let mut left = prefix;
    loop {
        match look_along(store, &here, left) {
            Along::Due { place } => {
                return Ok(Some(Site {
                    above: Items::from_vec(above),
                    parent: here,
                    place,
                }));
            }
            Along::Down { child, lift } => {
                let below = fetch(store, child)?;
                above.push(here)?;
                here = below;
                left = tail(left, lift as usize);
            }
            Along::Ends => return Ok(None),
        }
    }
}

// What is seen at a node on the way of a prefix.
#[derive(Clone, Copy)]
enum Along {
    // 1,024 bytes or more wait for it at the edge at this place.
    Due { place: usize },
    // The way goes on at this child, so many bytes of the prefix being left out.
    Down { child: u64, lift: u16 },
    // The way ends.
    Ends,
}

// What is seen at a node, where this is left of the prefix.
fn look_along<S: NodeStore>(store: &S, here: &Fetched, prefix: &[u8]) -> Along
    requires { IsFetched (S.table store.now) here.now }
    ensures { IsAlong (S.table store.now) here.now.node.value prefix.now result }
{
    let Some(place) = place_for(&here.node, prefix) else {
        return Along::Ends;
    };
    if waiting_at(&here.node, place, prefix) >= ABUNDANT {
        return Along::Due { place };
    }
    look_down(store, here, place)
}

// What is seen at a node below the edge at a place, for which fewer bytes wait.
fn look_down<S: NodeStore>(store: &S, here: &Fetched, place: usize) -> Along
    requires fetched { IsFetched (S.table store.now) here.now }
    requires within { place < length (edges_of here.now.node.value) }
    ensures { (q : List ℕ) (e : Edge) → IsEdgeFor here.now.node.value q place e
        → waiting_under q e (buffer_of here.now.node.value) < abundant_limit
        → IsAlong (S.table store.now) here.now.node.value q result }
{
    let Asked::Child(child) = asks(&here.node, place) else {
        return Along::Ends;
    };
    if !is_private_inner(store, child) {
        return Along::Ends;
    }
    Along::Down {
        child,
        lift: here.node.edges()[place].lift,
    }
}

// Whether a kept node is an inner one that is named once.
fn is_private_inner<S: NodeStore>(store: &S, id: u64) -> bool
    requires { IsKept (S.table store.now) id }
    ensures { IsTrue result ↔ (((S.table store.now).count id ≡ 1)
        × (1 ≤ (S.table store.now).level id)) }
{
    store.count(id) == 1 && store.level(id) > 0
}

// The place of the edge whose keys include all that begin with a prefix, which isn't empty.
fn place_for(node: &Node, prefix: &[u8]) -> Option<usize>
    requires { IsShape node.now }
    ensures found { MatchOption result (HasNoEdgeFor node.now prefix.now)
        (λ place. (e : Edge) × IsEdgeFor node.now prefix.now place e) }
    ensures within { IfSome result (λ place. place < length (edges_of node.now)) }
{
    if prefix.is_empty() {
        return None;
    }
    let edges = node.edges();
    for (place, edge) in edges.iter().enumerate() {
        if lies_within(prefix, edge.pivot.as_slice(), end_of(edges, place)) {
            return Some(place);
        }
    }
    None
}

// How many bytes of messages on keys that begin with a prefix the edge at a place hasn't seen.
fn waiting_at(node: &Node, place: usize, prefix: &[u8]) -> usize
    requires shape { IsShape node.now }
    requires within { place < length (edges_of node.now) }
    ensures { (e : Edge) → IsEdgeAt node.now place e
        → result ≡ waiting_under prefix.now e (buffer_of node.now) }
{
    let (_, unseen) = node.buffer().split_at(node.edges()[place].seen as usize);
    bytes_under(unseen, prefix)
}

// How many bytes messages on keys that begin with a prefix count together.
fn bytes_under(list: &[Message], prefix: &[u8]) -> usize
    requires messages { AllByRecursion IsMessage list.now }
    requires size { sum_by size list.now ≤ buffer_limit }
    ensures { result ≡ sum_by (size_under prefix.now) list.now }
{
    let mut total = 0;
    for message in list {
        if is_under(message, prefix) {
            total += message.size();
        }
    }
    total
}

// Whether a message's key, or the prefix of its keys, begins with a prefix.
fn is_under(message: &Message, prefix: &[u8]) -> bool
    ensures { IsTrue result ↔ CanStrip prefix.now message.now }
{
    match message {
        Message::Put { key, .. } => key.as_slice().starts_with(prefix),
        Message::Del { key } => key.as_slice().starts_with(prefix),
        Message::Patch { key, .. } => key.as_slice().starts_with(prefix),
        Message::Cut { prefix: own, .. } => own.as_slice().starts_with(prefix),
        Message::Goto { prefix: own, .. } => own.as_slice().starts_with(prefix),
    }
}
