//! Nodes on the way down that have 15 or 16 edges are split.

ghost use Rattle.std.specs.Prelude.{◌≡◌, ◌↔◌, ◌+◌, ◌^◌, ◌<◌, ◌≤◌, length, IfOk, MatchOption, OnOk, OnErr, Err};
ghost use Rattle.bd_limits.specs.Limits.{level_limit, full_edges};
ghost use Rattle.bd_message.specs.KeyMaps.{HasMapCause};
ghost use Rattle.bd_message.specs.declared.fault.MapFault.TheVariants as fault;
ghost use Rattle.bd_message.specs.declared.fault.Counter.TheVariants as counter;
ghost use Rattle.bd_node.specs.Frames.{OfSound, OnlyReads, Stays};
ghost use Rattle.bd_node.specs.Tables.{IsNodeOf};
ghost use Rattle.bd_node.specs.Stores.{visited};
ghost use Rattle.bd_node.specs.Parts.{edges_of};
ghost use Rattle.bd_path.specs.Flushed.{IsFlushed};
ghost use Rattle.bd_path.specs.Made.{IsMadeBy, IsWornFor};
ghost use Rattle.bd_flush.specs.Splitting.{plain_edge, over_two, over_step, IsRootSplit, IsRaised};

use bd_inner::{Halves, split};
use bd_keys::Bytes;
use bd_limits::MAX_LEVEL;
use bd_message::{Counter, MapFault};
use bd_node::{Change, Edge, Items, Messages, Node, NodeStore, Step};
use bd_path::path_step;
use std::alloc::{AllocError, Global};

/// Splits the root, a node with 15 or 16 edges that was fetched before: the halves are made, and
/// the root stands above them, one level higher, with the same id. A root of level 1,000 can't rise,
/// which is `Worn(Level)`.
pub fn split_root<S: NodeStore>(alloc: Global, store: &mut S, root: &Node) -> Result<(), MapFault>
    requires node { IsNodeOf (S.table store.old)
        ((S.table store.old).level (S.table store.old).root) root.now }
    requires there { OfSound S.NodeStore store.old
        (S.nodes store.old (S.table store.old).root ≡ Some root.now) }
    requires full { full_edges ≤ length (edges_of root.now) }
    ensures flushed { OfSound S.NodeStore store.old
        (OnOk result (IsFlushed (S.nodes store.old) (S.table store.old)
        (S.nodes store.new) (S.table store.new))) }
    ensures made { OfSound S.NodeStore store.old
        (OnOk result (IsMadeBy (IsRootSplit (S.table store.old) root.now)
        (S.nodes store.old) (S.table store.old) (S.nodes store.new) (S.table store.new))) }
    ensures table { OnOk result (IsRaised (S.table store.old) (S.table store.new)) }
    ensures worn { ((S.table store.old).level (S.table store.old).root ≡ level_limit)
        ↔ (result ≡ Err (fault.Worn counter.Level)) }
    ensures stays { Stays S.NodeStore store.old store.new }
    ensures err { OnErr result (OnlyReads S.NodeStore store.old store.new) }
    ensures visits { OnOk result
        (S.visit_count store.new ≡ visited (S.visit_count store.old) 2) }
    ensures err_visits { OnErr result (S.visit_count store.new ≡ S.visit_count store.old) }
    ensures cause { HasMapCause (S.fault_count store.old) (S.fault_count store.new)
        (S.last_failed store.new) (S.bad store.new) (IsWornFor (IsRootSplit (S.table store.old)
        root.now) ((S.table store.old).level (S.table store.old).root ≡ level_limit)
        (S.table store.old)) result }
{
    if root.level() >= MAX_LEVEL {
        return Err(MapFault::Worn(Counter::Level));
    }
    let halves = split(alloc, root)?;
    let id = store.root();
    let level = root.level() + 1;
    let others = Vec::new(alloc);
    let Some(step) = over_step(alloc, id, store.next_id(), id, level, halves, others)? else {
        return Err(MapFault::Worn(Counter::NextId));
    };
    store.commit(step)
}

/// A step; or that there are no ids for its made nodes, or no level for a node that has to rise.
#[derive(Drop)]
pub enum Plan {
    Ready(Step),
    NoId,
    NoLevel,
}

/// The step that puts a node of a level above its halves, which are made and get the ids from `next`
/// on, and makes other changes. There is none where there are no two ids.
pub fn over_step(
    alloc: Global,
    root: u64,
    next: u64,
    id: u64,
    level: u32,
    halves: Halves,
    others: Vec<Change>,
) -> Result<Option<Step>, AllocError>
    ensures { IfOk result (λ found. MatchOption found (2 ^ 64 ≤ next + 1)
        (λ step. (step ≡ over_step root next id level halves others.items)
        × (next + 1 < 2 ^ 64))) }
{
    let Some(upper) = next.checked_add(1) else {
        return Ok(None);
    };
    let Halves {
        first,
        pivot,
        second,
    } = halves;
    let change = Change {
        id,
        node: over_two(alloc, level, pivot, next, upper)?,
    };
    let mut made = Vec::new(alloc);
    made.push(first)?;
    made.push(second)?;
    Ok(Some(path_step(alloc, root, change, others, made)?))
}

/// A node over two others, the second one with the keys from a pivot on.
pub fn over_two(
    alloc: Global,
    level: u32,
    pivot: Bytes,
    first: u64,
    second: u64,
) -> Result<Node, AllocError>
    ensures { IfOk result (λ n. n ≡ over_two level pivot first second) }
{
    let mut edges = Vec::new(alloc);
    edges.push(plain_edge(alloc, Bytes::from_vec(Vec::new(alloc)), first))?;
    edges.push(plain_edge(alloc, pivot, second))?;
    Ok(Node::Inner {
        level,
        edges: Items::from_vec(edges),
        buffer: Messages::new(alloc),
    })
}

// An edge to a child that is asked at the same key.
fn plain_edge(alloc: Global, pivot: Bytes, child: u64) -> Edge
    ensures { result ≡ plain_edge pivot child }
{
    Edge {
        pivot,
        lift: 0,
        source: Bytes::from_vec(Vec::new(alloc)),
        child: Some(child),
        seen: 0,
    }
}
