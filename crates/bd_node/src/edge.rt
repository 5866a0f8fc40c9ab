//! Which of several edges the keys are of, and where the keys of an edge end.

ghost use Rattle.std.specs.Prelude.{◌≡◌, ◌+◌, ◌-◌, ◌*◌, ◌^◌, ◌<◌, ◌≤◌, drop, length, slice_get};
ghost use Rattle.std.specs.Option.{option_copied};
ghost use Rattle.bd_node.specs.Nodes.{edge_of};
ghost use Rattle.bd_node.specs.Shape.{AreRising, end_before};

use crate::{Edge, Steps};
use std::marker::Brand;
use std::sync::ledger::{Blank, Ledger};

/// The place of the edge whose keys include a key, among edges with rising pivots.
pub fn place<L: Ledger>(edges: &[Edge], key: &[u8], steps: &mut Steps<L>) -> usize
    requires some { 1 ≤ length edges.now }
    requires rising { AreRising edges.now }
    ensures edge { slice_get edges.now result ≡ edge_of edges.now key.now }
    ensures within { result < length edges.now }
    ensures cost { 2 ^ (steps.new - steps.old) ≤ 2 * length edges.now + 1 }
    ensures later { steps.old ≤ steps.new }
{
    let mut low = 0;
    let mut high = edges.len();
    while high - low > 1 {
        let middle = low + (high - low) / 2;
        if steps.compare(key, edges[middle].pivot.as_slice()).is_lt() {
            high = middle;
        } else {
            low = middle;
        }
    }
    low
}

/// The edge whose keys include a key, among edges with rising pivots.
pub fn edge_of<'a>(edges: &'a [Edge], key: &[u8]) -> &'a Edge
    requires some { 1 ≤ length edges.now }
    requires rising { AreRising edges.now }
    ensures { edge_of edges.now key.now ≡ Some result.now }
{
    edge_with::<Brand>(edges, key, Blank::new(1))
}

// The same, counted in a ledger.
fn edge_with<'a, L: Ledger>(edges: &'a [Edge], key: &[u8], blank: Blank) -> &'a Edge
    requires some { 1 ≤ length edges.now }
    requires rising { AreRising edges.now }
    requires name { blank.name ≡ L.name }
    requires parts { blank.parts ≡ L.parts }
    requires all { 0 < L.parts }
    ensures { edge_of edges.now key.now ≡ Some result.now }
{
    let mut steps = Steps::<L>::new(blank);
    &edges[place(edges, key, &mut steps)]
}

/// Where the keys of the edge before these end: at the first one's pivot, and nowhere before none.
pub fn end_before(edges: &[Edge]) -> Option<&[u8]>
    ensures { option_copied result ≡ end_before edges.now }
{
    match edges {
        [] => None,
        [edge, ..] => Some(edge.pivot.as_slice()),
    }
}

/// Where the keys of the edge at a place end: at the next edge's pivot, and nowhere after the last.
pub fn end_of(edges: &[Edge], place: usize) -> Option<&[u8]>
    requires { place < length edges.now }
    ensures { option_copied result ≡ end_before (drop (place + 1) edges.now) }
{
    let (_, rest) = edges.split_at(place + 1);
    end_before(rest)
}
