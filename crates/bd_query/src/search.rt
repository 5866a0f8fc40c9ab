//! The search for the least keys.

ghost use Rattle.std.specs.Prelude.{◌≡◌, ◌≤◌, ℕ, List, [], ◌∷◌, length, IfOk, OnOk, OnErr};
ghost use Rattle.std.specs.Option.{option_map};
ghost use Rattle.bd_keys.specs.Keys.{IsAtLeast};
ghost use Rattle.bd_message.specs.KeyMaps.{HasMapCause, NeverWorn, IsNextEntry};
ghost use Rattle.bd_node.specs.Frames.{OfSound, OnlyReads};
ghost use Rattle.bd_node.specs.Meaning.{at};
ghost use Rattle.bd_node.specs.Tables.{IsKept};
ghost use Rattle.bd_query.specs.Asks.{AreVisitsOfWays, AreVisitsOfSome};
ghost use Rattle.bd_query.specs.Runs.{found_of};
ghost use Rattle.bd_scan.specs.Scans.{IsScan};
ghost use Rattle.bd_scan.specs.declared.scan.Found.{Found};

use crate::ends::bytes_of;
use crate::turns::{Turn, turn_at};
use bd_keys::{Bytes, Items, starts};
use bd_message::MapFault;
use bd_node::{Entry, NodeStore};
use bd_scan::Found;
use std::alloc::{AllocError, Global};

/// What stands at the keys of a kept node from `from` on that begin with `within`, of any length,
/// the least first and none left out: at least one and at most `most`, and none where there is
/// none. Each turn rules out the keys from one up to another; the search ends at that one where the
/// turn finds that it has a value, or finds entries after it, and else goes on there. The nodes
/// that are visited are those that are asked on ways down along these keys; a way goes no further
/// where a cut decides, so what lies below a range that was cut is not visited. Where it fails, the
/// nodes on the last way are perhaps only the first ones.
pub fn scan<S: NodeStore>(
    alloc: Global,
    store: &mut S,
    root: u64,
    from: &[u8],
    within: &[u8],
    most: usize,
) -> Result<Vec<Found>, MapFault>
    requires kept { IsKept (S.table store.old) root }
    requires some { 1 ≤ most }
    ensures found { OfSound S.NodeStore store.old (IfOk result (λ found.
        IsScan (at (S.nodes store.old) root) from.now within.now found.items)) }
    ensures few { IfOk result (λ found. length found.items ≤ most) }
    ensures left { OnlyReads S.NodeStore store.old store.new }
    ensures cause { HasMapCause (S.fault_count store.old) (S.fault_count store.new)
        (S.last_failed store.new) (S.bad store.new) NeverWorn result }
    ensures ways { OfSound S.NodeStore store.old
        (OnOk result (AreVisitsOfWays (S.nodes store.old) root from.now
        (S.visit_count store.old) (S.visit_count store.new))) }
    ensures err_ways { OfSound S.NodeStore store.old
        (OnErr result (AreVisitsOfSome (S.nodes store.old) root from.now
        (S.visit_count store.old) (S.visit_count store.new))) }
{
    let mut low = Vec::from_slice(alloc, greater(from, within))?;
    'turns: while starts(low.as_slice(), within) {
        let turn = turn_at(alloc, store, root, low.as_slice(), most)?;
        match turn {
            Turn::Found { value } => return Ok(alone(alloc, low, value)?),
            Turn::Run { entries } => return Ok(beginning(alloc, entries, within, most)?),
            Turn::Passed { end: None } => return Ok(Vec::new(alloc)),
            Turn::Passed { end: Some(end) } => {
                let _bytes = bytes_of(end.as_slice());
                low = end.into_vec()?;
            }
        }
    }
    Ok(Vec::new(alloc))
}

/// The least key of a kept node, of any length, that is at least `from`, begins with `within` and
/// has a value, and that value: a scan for one. The nodes that are visited are those of the scan.
pub fn next<S: NodeStore>(
    alloc: Global,
    store: &mut S,
    root: u64,
    from: &[u8],
    within: &[u8],
) -> Result<Option<(Vec<u8>, Vec<u8>)>, MapFault>
    requires { IsKept (S.table store.old) root }
    ensures next { OfSound S.NodeStore store.old
        (IfOk result (λ found. IsNextEntry (at (S.nodes store.old) root) from.now within.now
        (option_map (λ entry. (entry.0.items, entry.1.items)) found))) }
    ensures left { OnlyReads S.NodeStore store.old store.new }
    ensures cause { HasMapCause (S.fault_count store.old) (S.fault_count store.new)
        (S.last_failed store.new) (S.bad store.new) NeverWorn result }
    ensures ways { OfSound S.NodeStore store.old
        (OnOk result (AreVisitsOfWays (S.nodes store.old) root from.now
        (S.visit_count store.old) (S.visit_count store.new))) }
    ensures err_ways { OfSound S.NodeStore store.old
        (OnErr result (AreVisitsOfSome (S.nodes store.old) root from.now
        (S.visit_count store.old) (S.visit_count store.new))) }
{
    let mut found = scan(alloc, store, root, from, within, 1)?;
    match found.pop() {
        Some(Found { key, value }) => Ok(Some((key.into_vec()?, value.into_vec()?))),
        None => Ok(None),
    }
}

// A value that was found at a key.
fn alone(alloc: Global, key: Vec<u8>, value: Bytes) -> Result<Vec<Found>, AllocError>
    ensures { IfOk result (λ found.
        found.items ≡ record { key = key.items; value = value } ∷ []) }
{
    let mut found = Vec::new(alloc);
    let key = Bytes::from_vec(key);
    found.push(Found { key, value })?;
    Ok(found)
}

// What is found where entries are, as many as begin with a prefix and at most so many.
fn beginning(
    alloc: Global,
    entries: Items<Entry>,
    prefix: &[u8],
    most: usize,
) -> Result<Vec<Found>, AllocError>
    ensures { IfOk result (λ found. found.items ≡ found_of most prefix.now entries) }
{
    let mut found = Vec::new(alloc);
    for Entry { key, value } in entries.into_vec() {
        if found.len() == most || !starts(key.as_slice(), prefix) {
            break;
        }
        found.push(Found { key, value })?;
    }
    Ok(found)
}

// The greater of two keys.
fn greater<'a>(a: &'a [u8], b: &'a [u8]) -> &'a [u8]
    ensures first { IsAtLeast result.now a.now }
    ensures second { IsAtLeast result.now b.now }
    ensures least { (k : List ℕ) → IsAtLeast k a.now → IsAtLeast k b.now → IsAtLeast k result.now }
{
    if a.cmp(b).is_lt() { b } else { a }
}
