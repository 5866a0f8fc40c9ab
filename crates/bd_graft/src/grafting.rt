//! The graft of what stands under one prefix to another.

ghost use Rattle.std.specs.Prelude.{ℕ, List, [], IfErr, ◌++◌, ◌-◌, ◌*◌, ◌≡◌, ◌+◌, ◌<◌, ◌≤◌, ◌^◌, length, Some, IfOk, IfSome, OnOk, OnErr};
ghost use Rattle.bd_limits.specs.Limits.{buffer_limit, level_limit};
ghost use Rattle.bd_message.specs.KeyMaps.{HasMapCause, CanGraft, IsGrafted};
ghost use Rattle.bd_node.specs.Frames.{OfSound, OnlyReads, Stays};
ghost use Rattle.bd_node.specs.Tables.{IsTable, IsLower, IsSound, root_at};
ghost use Rattle.bd_node.specs.Steps.{IsWornBy, IsWornByAdding};
ghost use Rattle.bd_node.specs.Stores.{visited};
ghost use Rattle.bd_keys.specs.Keys.{IsKey};
ghost use Rattle.bd_message.specs.Effect.{acts};
ghost use Rattle.bd_node.specs.Meaning.{at};
ghost use Rattle.bd_resolve.specs.Following.{target_at, IsShort};
ghost use Rattle.bd_graft.specs.Layers.{laid, AreLayers};
ghost use Rattle.bd_graft.specs.Walking.{IsWay, HasRoot, messages_in};
ghost use Rattle.bd_graft.specs.Looking.{IsFound};
ghost use Rattle.bd_graft.specs.Packing.{overlaid, packs};
ghost use Rattle.bd_graft.specs.Grafting.{graft_messages, top_made, step_over, IsReady, IsSentTo, IsGrown, IsGraftStep, IsWalkOf, IsGraftCall, AreOthersSame, IsWornForGraft, IsWornByGraft, OnWorn};

use crate::looking::{Lookup, find_overlay};
use crate::packing::{Packed, overlay, overlay_count, pack};
use crate::walking::{Walked, walk};
use bd_keys::Bytes;
use bd_limits::MAX_LEVEL;
use bd_message::{Counter, MapFault, Message};
use bd_node::{Items, Messages, Node, NodeStore, Step};
use bd_resolve::Target;
use std::alloc::{AllocError, Global};

/// How a graft went.
#[derive(Clone, Copy, Debug, PartialEq, Eq)]
pub struct Walk {
    /// How many nodes were fetched or made.
    pub visits: u64,
    /// How many nodes stood one below the other from the root down, before it.
    pub height: u32,
}

/// Gives each key `d x` what stands at `s x`, and then, without `keep`, nothing at each `s x`. The
/// way of `s` is followed from the root down; the newer messages met on it go into overlay nodes
/// over its end, and one `Goto` to them goes into the root, without `keep` with a `Cut` of `s`.
/// Where there would be one overlay node and the node that the newest of the root's `Goto`s without
/// a source names is equal to it, that one is named again and none is made: what is cloned over and
/// over shares it. Only where what the `Goto` names isn't lower than the root, the messages go into
/// a new root, one level above the old one. An overlay node stands one level above the highest node
/// that it names. Each other node that was kept stays, is what it was and has what it had. A call
/// that fails leaves all as it was.
pub fn graft<S: NodeStore>(
    alloc: Global,
    store: &mut S,
    s: &[u8],
    d: &[u8],
    keep: bool,
) -> Result<Walk, MapFault>
    requires { CanGraft s.now d.now keep (buffer_limit - (S.table store.old).size) }
    ensures grafted { OfSound S.NodeStore store.old
        (OnOk result (IsGrafted (root_at (S.nodes store.old) (S.table store.old)) s.now d.now keep
        (root_at (S.nodes store.new) (S.table store.new)))) }
    ensures sound { OfSound S.NodeStore store.old
        (OnOk result (IsSound (S.nodes store.new) (S.table store.new))) }
    ensures step { OfSound S.NodeStore store.old
        (OnOk result (IsGraftStep (S.nodes store.old) (S.table store.old) s.now d.now keep
        (S.nodes store.new) (S.table store.new))) }
    ensures others { OfSound S.NodeStore store.old
        (OnOk result (AreOthersSame (S.nodes store.old) (S.table store.old)
        (S.nodes store.new) (S.table store.new))) }
    ensures table { OnOk result (IsGrown (S.table store.old) (S.table store.new)) }
    ensures walk { OfSound S.NodeStore store.old
        (IfOk result (λ walk. IsWalkOf (S.nodes store.old) (S.table store.old) s.now
        (S.table store.new) walk.visits)) }
    ensures few { IfOk result (λ walk. walk.visits ≤ 5 * walk.height + 2) }
    ensures visits { IfOk result (λ walk. S.visit_count store.new < 2 ^ 64 - 1
        → walk.visits ≡ S.visit_count store.new - S.visit_count store.old) }
    ensures rise { IfOk result (λ walk. S.visit_count store.new
        ≡ visited (S.visit_count store.old) walk.visits) }
    ensures few_visits { S.visit_count store.new ≤ S.visit_count store.old
        + (5 * ((S.table store.old).level (S.table store.old).root + 1) + 2) }
    ensures height { IfOk result (λ walk. walk.height
        ≡ (S.table store.old).level (S.table store.old).root + 1) }
    ensures stays { Stays S.NodeStore store.old store.new }
    ensures err { OnErr result (OnlyReads S.NodeStore store.old store.new) }
    ensures cause { HasMapCause (S.fault_count store.old) (S.fault_count store.new)
        (S.last_failed store.new) (S.bad store.new) (IsWornForGraft (S.table store.old)) result }
    ensures worn { OfSound S.NodeStore store.old
        (IfErr result (OnWorn (IsWornByGraft (S.nodes store.old) (S.table store.old)
        s.now d.now keep))) }
{
    let root = store.root();
    let next = store.next_id();
    let way = walk(alloc, store, s)?;
    let height = store.level(root) + 1;
    let Lookup { found, fetched } = find_overlay(store, way.layers.as_slice(), &way.end)?;
    let fetched = way.fetched + fetched;
    finish(alloc, store, way, found, s, d, keep)?;
    Ok(Walk {
        visits: fetched + (store.next_id() - next),
        height,
    })
}

// What a way leads to is put under the other prefix: what was found, or else what is packed.
fn finish<S: NodeStore>(
    alloc: Global,
    store: &mut S,
    way: Walked,
    found: Option<u64>,
    s: &[u8],
    d: &[u8],
    keep: bool,
) -> Result<(), MapFault>
    requires root { HasRoot (S.is_known store.old) (S.nodes store.old) (S.table store.old) }
    requires can { CanGraft s.now d.now keep (buffer_limit - (S.table store.old).size) }
    requires layers { AreLayers (S.table store.old)
        ((S.table store.old).level (S.table store.old).root + 1) way.layers.items way.end }
    requires short { IsShort way.end }
    requires value { OfSound S.NodeStore store.old
        ((k : List ℕ) → IsKey k → acts (at (S.nodes store.old)) (laid way.layers.items) k
        (target_at (at (S.nodes store.old)) way.end k)
        ≡ root_at (S.nodes store.old) (S.table store.old) (s.now ++ k)) }
    requires way { OfSound S.NodeStore store.old
        (IsWay (S.nodes store.old) (S.table store.old).root s.now
        (messages_in way.layers.items) way.end) }
    requires found { OfSound S.NodeStore store.old
        (IsFound (S.nodes store.old) (S.table store.old) way.end
        (overlaid way.end (packs (messages_in way.layers.items))) found) }
    requires lower { IfSome found (IsLower (S.table store.old)
        ((S.table store.old).level (S.table store.old).root)) }
    ensures call { IsGraftCall S.NodeStore s.now d.now keep store.old store.new result }
    ensures cause { HasMapCause (S.fault_count store.old) (S.fault_count store.new)
        (S.last_failed store.new) (S.bad store.new) (IsWornForGraft (S.table store.old)) result }
    ensures worn { OfSound S.NodeStore store.old
        (IfErr result (OnWorn (IsWornByGraft (S.nodes store.old) (S.table store.old)
        s.now d.now keep))) }
{
    if let Some(child) = found {
        return put_again(alloc, store, child, s, d, keep);
    }
    let Walked { layers, end, .. } = way;
    let count = overlay_count(layers.as_slice(), &end);
    if store.next_id().checked_add(count).is_none() {
        return Err(MapFault::Worn(Counter::NextId));
    }
    let packed = pack(alloc, &*store, layers, end)?;
    let level = store.level(store.root());
    if packed.level < level {
        return put_under(alloc, store, packed, s, d, keep);
    }
    if level >= MAX_LEVEL {
        return Err(MapFault::Worn(Counter::Level));
    }
    if store.next_id().checked_add(count + 1).is_none() {
        return Err(MapFault::Worn(Counter::NextId));
    }
    put_over(alloc, store, packed, s, d, keep)
}

// A node that is there already is put under the other prefix.
fn put_again<S: NodeStore>(
    alloc: Global,
    store: &mut S,
    child: u64,
    s: &[u8],
    d: &[u8],
    keep: bool,
) -> Result<(), MapFault>
    requires root { HasRoot (S.is_known store.old) (S.nodes store.old) (S.table store.old) }
    requires can { CanGraft s.now d.now keep (buffer_limit - (S.table store.old).size) }
    requires low { IsLower (S.table store.old)
        ((S.table store.old).level (S.table store.old).root) child }
    requires value { OfSound S.NodeStore store.old
        ((k : List ℕ) → IsKey k → at (S.nodes store.old) child k
        ≡ root_at (S.nodes store.old) (S.table store.old) (s.now ++ k)) }
    requires sent { OfSound S.NodeStore store.old
        (IsSentTo (S.nodes store.old) (S.table store.old) s.now []
        (record { child = child; source = [] }) ((S.table store.old).level child + 1)) }
    ensures call { IsGraftCall S.NodeStore s.now d.now keep store.old store.new result }
    ensures cause { HasMapCause (S.fault_count store.old) (S.fault_count store.new)
        (S.last_failed store.new) (S.bad store.new) (IsWornForGraft (S.table store.old)) result }
    ensures worn { OfSound S.NodeStore store.old
        (IfErr result (OnWorn (IsWornByGraft (S.nodes store.old) (S.table store.old)
        s.now d.now keep))) }
{
    is_table(&*store);
    let packed = Packed {
        made: Vec::new(alloc),
        target: Target {
            child,
            source: Bytes::from_vec(Vec::new(alloc)),
        },
        level: store.level(child),
    };
    put_under(alloc, store, packed, s, d, keep)
}

// What is packed goes into the root, which is higher: one prefix is sent to it.
fn put_under<S: NodeStore>(
    alloc: Global,
    store: &mut S,
    packed: Packed,
    s: &[u8],
    d: &[u8],
    keep: bool,
) -> Result<(), MapFault>
    requires root { HasRoot (S.is_known store.old) (S.nodes store.old) (S.table store.old) }
    requires can { CanGraft s.now d.now keep (buffer_limit - (S.table store.old).size) }
    requires room { (S.table store.old).next + length packed.made.items < 2 ^ 64 }
    requires low { packed.level < (S.table store.old).level (S.table store.old).root }
    requires ready { IsReady (S.is_known store.old) (S.nodes store.old) (S.table store.old)
        s.now packed }
    ensures call { IsGraftCall S.NodeStore s.now d.now keep store.old store.new result }
    ensures cause { HasMapCause (S.fault_count store.old) (S.fault_count store.new)
        (S.last_failed store.new) (S.bad store.new) (IsWornByAdding (S.table store.old)
        packed.made.items (graft_messages s.now d.now keep packed.target)) result }
{
    is_table(&*store);
    let Packed { made, target, .. } = packed;
    let list = messages(alloc, s, d, keep, target)?;
    store.extend(Items::from_vec(made), Messages::from_vec(list))
}

// The table is one, and its next id a u64. It does nothing.
fn is_table<S: NodeStore>(store: &S)
    ensures table { IsTable (S.table store.now) }
    ensures next { (S.table store.now).next < 2 ^ 64 }
{
    let _ = store.next_id();
}

// What is packed goes into a new root over the old one: one prefix is sent to it.
fn put_over<S: NodeStore>(
    alloc: Global,
    store: &mut S,
    packed: Packed,
    s: &[u8],
    d: &[u8],
    keep: bool,
) -> Result<(), MapFault>
    requires can { CanGraft s.now d.now keep (buffer_limit - (S.table store.old).size) }
    requires room { (S.table store.old).next + length packed.made.items + 1 < 2 ^ 64 }
    requires level { (S.table store.old).level (S.table store.old).root < level_limit }
    requires low { packed.level ≤ (S.table store.old).level (S.table store.old).root }
    requires high { (S.table store.old).level (S.table store.old).root ≤ packed.level }
    requires ready { IsReady (S.is_known store.old) (S.nodes store.old) (S.table store.old)
        s.now packed }
    ensures call { IsGraftCall S.NodeStore s.now d.now keep store.old store.new result }
    ensures cause { HasMapCause (S.fault_count store.old) (S.fault_count store.new)
        (S.last_failed store.new) (S.bad store.new)
        (IsWornBy (S.table store.old) (step_over (S.table store.old) packed.made.items
        (graft_messages s.now d.now keep packed.target))) result }
{
    let root = store.root();
    let next = store.next_id();
    let level = store.level(root) + 1;
    let Packed { made, target, .. } = packed;
    let list = messages(alloc, s, d, keep, target)?;
    let old = Target {
        child: root,
        source: Bytes::from_vec(Vec::new(alloc)),
    };
    let top = overlay(alloc, level, Some(old), Messages::indexed(list)?)?;
    let step = over(alloc, made, top, next)?;
    store.commit(step)
}

// The messages of a graft.
fn messages(
    alloc: Global,
    s: &[u8],
    d: &[u8],
    keep: bool,
    target: Target,
) -> Result<Vec<Message>, AllocError>
    ensures { IfOk result (λ list. list.items ≡ graft_messages s.now d.now keep target) }
{
    let mut list = Vec::new(alloc);
    list.push(Message::Goto {
        prefix: Bytes::from_slice(alloc, d)?,
        source: target.source,
        child: target.child,
    })?;
    if keep {
        return Ok(list);
    }
    list.push(Message::Cut {
        prefix: Bytes::from_slice(alloc, s)?,
        from: Bytes::from_vec(Vec::new(alloc)),
    })?;
    Ok(list)
}

// The step that makes nodes and a new root after them.
fn over(alloc: Global, made: Vec<Node>, top: Node, next: u64) -> Result<Step, AllocError>
    requires { next + length made.items < 2 ^ 64 }
    ensures { IfOk result (λ step. step ≡ top_made made.items top next) }
{
    let root = next + made.len() as u64;
    let mut made = made;
    made.push(top)?;
    Ok(Step {
        made: Items::from_vec(made),
        changes: Items::from_vec(Vec::new(alloc)),
        root,
    })
}
