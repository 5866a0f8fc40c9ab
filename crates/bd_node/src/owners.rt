//! Which edge the key of each message is of, by an index.

ghost use Rattle.std.specs.Prelude.{◌≡◌, ℕ, ◌<◌, ◌≤◌, [], Some, length, slice_index, IfOk};
ghost use Rattle.bd_node.specs.Index.{IsIndex};
ghost use Rattle.bd_node.specs.Owners.{AreGiven, AreOwners};
ghost use Rattle.bd_node.specs.Shape.{end_before};

use crate::Edge;
use crate::edge::end_of;
use crate::index::Index;
use crate::spans::count_before;
use bd_message::Message;
use std::alloc::{AllocError, Global};

/// For each message on one key, the place of the edge whose keys include that key, and for each
/// other message any number. Where the keys of an edge end among the points is found by halving.
pub fn owners(
    alloc: Global,
    items: &[Message],
    index: &Index,
    edges: &[Edge],
) -> Result<Vec<usize>, AllocError>
    requires index { IsIndex items.now (length items.now) index.now.points.items
        index.now.ranges.items }
    requires first { end_before edges.now ≡ Some [] }
    ensures { IfOk result (λ owners. AreOwners owners.items edges.now items.now) }
{
    let points = index.points.as_slice();
    let mut owners = vec![in alloc; 0; items.len()]?;
    let mut first = 0;
    for at in 0..edges.len() {
        let last = count_before(items, points, end_of(edges, at));
        give(points, first, last, at, &mut owners);
        first = last;
    }
    Ok(owners)
}

// Puts a number at the places that stand from a place up to another.
fn give(points: &[usize], from: usize, to: usize, number: usize, owners: &mut Vec<usize>)
    requires within { to ≤ length points.now }
    requires below { (q : ℕ) → q < length points.now
        → slice_index points.now q < length owners.old.items }
    ensures { AreGiven owners.old.items owners.new.items points.now from to number }
{
    for at in from..to {
        owners[points[at]] = number;
    }
}
