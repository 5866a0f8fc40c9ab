//! Turns of a search: each is one way down along a key, and finds the key's value, the first keys
//! that have one and their values, or up to which key none has one.

ghost use Rattle.std.specs.Prelude.{◌≡◌, ℕ, ◌+◌, ◌≤◌, List, [], ◌++◌, length, take, drop, Some, IfOk, OnOk, OnErr};
ghost use Rattle.std.specs.List.{AllByRecursion};
ghost use Rattle.bd_limits.specs.Limits.{key_limit};
ghost use Rattle.bd_keys.specs.Keys.{IsKey, InRange, Begins};
ghost use Rattle.bd_message.specs.Effect.{NodesAt};
ghost use Rattle.bd_message.specs.KeyMaps.{At, HasMapCause, NeverWorn};
ghost use Rattle.bd_node.specs.Frames.{OfSound, OnlyReads};
ghost use Rattle.bd_node.specs.declared.node.Node.{Node};
ghost use Rattle.bd_node.specs.declared.node.Entry.{Entry};
ghost use Rattle.bd_node.specs.Nodes.{node_at};
ghost use Rattle.bd_node.specs.Meaning.{at};
ghost use Rattle.bd_node.specs.Tables.{IsKept};
ghost use Rattle.bd_node.specs.Stores.{visited, AreVisits};
ghost use Rattle.bd_query.specs.Stretches.{IsEnd, IsAsked, IsStretch, HasEnd, AsksLower, IsTurn, PassesTo, end_limit, way_limit};
ghost use Rattle.bd_query.specs.Runs.{is_before, raised_entry, raised_run};
ghost use Rattle.bd_query.specs.declared.turns.Turn.TheVariants as turn;
ghost use Rattle.bd_query.specs.Asks.{asked_at, asked_in, AreVisitsOfWay, AreVisitsOfPart};

use crate::ends::{bytes_of, joined, lesser};
use crate::stretch::{Stretch, stretch_of};
use crate::ways::value_of;
use bd_keys::{Bytes, Items, front, starts, tail};
use bd_message::MapFault;
use bd_node::{Entry, NodeStore};
use std::alloc::{AllocError, Global};

/// What a turn finds.
#[derive(Drop)]
pub enum Turn {
    /// The key has this value.
    Found { value: Bytes },
    /// The first keys from this one on that have one, with their values.
    Run { entries: Items<Entry> },
    /// No key from this one up to the end has one.
    Passed { end: Option<Bytes> },
}

/// One way down from a kept node along a key: it finds the value there, or the first keys that have
/// one and their values, as many of at most so many as a leaf has where the nodes above leave them,
/// or up to which end above it no key has one. A node asks at most one other, and none where a
/// message gives or takes all of the value.
pub fn turn_at<S: NodeStore>(
    alloc: Global,
    store: &mut S,
    id: u64,
    key: &[u8],
    most: usize,
) -> Result<Turn, MapFault>
    requires kept { IsKept (S.table store.old) id }
    requires some { 1 ≤ most }
    ensures turn { OfSound S.NodeStore store.old
        (IfOk result (λ turn. IsTurn (at (S.nodes store.old) id) key.now turn)) }
    ensures passes { IfOk result (λ turn.
        PassesTo key.now (way_limit ((S.table store.old).level id)) turn) }
    ensures bytes { IsKey key.now }
    ensures left { OnlyReads S.NodeStore store.old store.new }
    ensures cause { HasMapCause (S.fault_count store.old) (S.fault_count store.new)
        (S.last_failed store.new) (S.bad store.new) NeverWorn result }
    ensures visits { OnOk result (AreVisits 1 ((S.table store.old).level id + 1)
        (S.visit_count store.old) (S.visit_count store.new)) }
    ensures few_visits { S.visit_count store.new
        ≤ S.visit_count store.old + ((S.table store.old).level id + 1) }
    ensures way { OfSound S.NodeStore store.old
        (OnOk result (AreVisitsOfWay (S.nodes store.old) id key.now
        (S.visit_count store.old) (S.visit_count store.new))) }
    ensures err_way { OfSound S.NodeStore store.old
        (OnErr result (AreVisitsOfPart (S.nodes store.old) id key.now
        (S.visit_count store.old) (S.visit_count store.new))) }
{
    let stretch = stretch_at(alloc, store, id, key, most)?;
    match stretch {
        Stretch::Present(part) => {
            let value = value_of(alloc, store, part)?;
            Ok(Turn::Found { value })
        }
        Stretch::Run { entries } => Ok(Turn::Run { entries }),
        Stretch::Absent { end } => Ok(Turn::Passed { end }),
        Stretch::Child {
            end,
            child,
            lift,
            source,
        } => {
            let asked = joined(alloc, source.as_slice(), tail(key, lift))?;
            let turn = turn_at(alloc, store, child, asked.as_slice(), most)?;
            let turn = raised(alloc, turn, end, key, lift, source.as_slice())?;
            Ok(turn)
        }
    }
}

// What the node of an id says of a key and of the keys after it.
fn stretch_at<S: NodeStore>(
    alloc: Global,
    store: &mut S,
    id: u64,
    key: &[u8],
    most: usize,
) -> Result<Stretch, MapFault>
    requires kept { IsKept (S.table store.old) id }
    requires some { 1 ≤ most }
    ensures stretch { S.is_known store.old → IfOk result (λ stretch. (n : Node)
        → S.nodes store.old id ≡ Some n → (below : NodesAt)
        → IsStretch below (node_at below n) key.now stretch) }
    ensures end { IfOk result (λ stretch. HasEnd key.now stretch) }
    ensures lower { IfOk result (λ stretch.
        AsksLower (S.table store.old) ((S.table store.old).level id) stretch) }
    ensures asks { S.is_known store.old → IfOk result (λ stretch. (n : Node)
        → S.nodes store.old id ≡ Some n → asked_at n key.now ≡ asked_in stretch key.now) }
    ensures bytes { IsKey key.now }
    ensures left { OnlyReads S.NodeStore store.old store.new }
    ensures cause { HasMapCause (S.fault_count store.old) (S.fault_count store.new)
        (S.last_failed store.new) (S.bad store.new) NeverWorn result }
    ensures visits { S.visit_count store.new ≡ visited (S.visit_count store.old) 1 }
{
    let node = store.fetch(id)?;
    Ok(stretch_of(alloc, &node, key, most)?)
}

// What a child's turn says of the keys that it was asked for.
fn raised(
    alloc: Global,
    turn: Turn,
    end: Option<Bytes>,
    key: &[u8],
    lift: usize,
    source: &[u8],
) -> Result<Turn, AllocError>
    requires end { IsEnd key.now end_limit end }
    requires long { lift ≤ length key.now }
    requires few { lift ≤ key_limit }
    ensures turn { IfOk result (λ new. (most : ℕ)
        → PassesTo (source.now ++ drop lift key.now) most turn → (at child : At)
        → IsAsked at child key.now end lift source.now
        → IsTurn child (source.now ++ drop lift key.now) turn → IsTurn at key.now new) }
    ensures passes { IfOk result (λ new. (most : ℕ)
        → PassesTo (source.now ++ drop lift key.now) most turn
        → PassesTo key.now (end_limit + most) new) }
{
    match turn {
        Turn::Found { value } => Ok(Turn::Found { value }),
        Turn::Run { entries } => {
            let run = raised_run(alloc, entries, &end, front(key, lift), source)?;
            Ok(run_or_end(run, end))
        }
        Turn::Passed { end: below } => {
            let below = end_above(alloc, below, key, lift, source)?;
            let end = lesser(end, below);
            Ok(Turn::Passed { end })
        }
    }
}

// The entries of a child's run whose keys stand for some that are below the end, up to the first
// that doesn't.
fn raised_run(
    alloc: Global,
    entries: Items<Entry>,
    end: &Option<Bytes>,
    shared: &[u8],
    source: &[u8],
) -> Result<Items<Entry>, AllocError>
    ensures run { IfOk result (λ run. run ≡ raised_run end.now shared.now source.now entries) }
    ensures keys { IfOk result (AllByRecursion (λ (e : Entry). IsKey e.key)) }
{
    let mut run = Vec::new(alloc);
    for entry in entries.into_vec() {
        if !starts(entry.key.as_slice(), source) {
            break;
        }
        let entry = raised_entry(alloc, entry, shared, source)?;
        if !is_before(&entry.key, end) {
            break;
        }
        let _bytes = bytes_of(entry.key.as_slice());
        run.push(entry)?;
    }
    Ok(Items::from_vec(run))
}

// An entry at the key that its own stands for. Where an edge neither leaves out nor puts in front
// anything, that is the same.
fn raised_entry(
    alloc: Global,
    entry: Entry,
    shared: &[u8],
    source: &[u8],
) -> Result<Entry, AllocError>
    ensures { IfOk result (λ raised. raised ≡ raised_entry shared.now source.now entry) }
{
    if shared.is_empty() && source.is_empty() {
        return Ok(entry);
    }
    let Entry { key, value } = entry;
    let key = joined(alloc, shared, tail(key.as_slice(), source.len()))?;
    Ok(Entry { key, value })
}

// Whether a key is below an end.
fn is_before(key: &Bytes, end: &Option<Bytes>) -> bool
    ensures { result ≡ is_before key.now end.now }
{
    match end {
        Some(end) => key.cmp(end).is_lt(),
        None => true,
    }
}

// What a turn finds: a run of entries, or where there is none, that no key up to the end has a value.
fn run_or_end(run: Items<Entry>, end: Option<Bytes>) -> Turn
    ensures some { 1 ≤ length run → result ≡ turn.Run run }
    ensures none { run ≡ [] → result ≡ turn.Passed end }
{
    if run.is_empty() {
        Turn::Passed { end }
    } else {
        Turn::Run { entries: run }
    }
}

// Where the keys end whose translations, which a child is asked for, are below an end.
fn end_above(
    alloc: Global,
    end: Option<Bytes>,
    key: &[u8],
    lift: usize,
    source: &[u8],
) -> Result<Option<Bytes>, AllocError>
    requires { lift ≤ length key.now }
    ensures end { IfOk result (λ new. (most : ℕ)
        → IsEnd (source.now ++ drop lift key.now) most end → IsEnd key.now (lift + most) new) }
    ensures inside { IfOk result (λ new. (most : ℕ)
        → IsEnd (source.now ++ drop lift key.now) most end → (k : List ℕ)
        → Begins k (take lift key.now) → InRange key.now new k
        → InRange (source.now ++ drop lift key.now) end (source.now ++ drop lift k)) }
{
    let Some(end) = end else {
        return Ok(None);
    };
    if starts(end.as_slice(), source) {
        let rest = tail(end.as_slice(), source.len());
        let raised = joined(alloc, front(key, lift), rest)?;
        Ok(Some(raised))
    } else {
        Ok(None)
    }
}
