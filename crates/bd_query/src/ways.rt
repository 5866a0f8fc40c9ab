//! The way down from a node to what it has at a key.

ghost use Rattle.std.specs.Prelude.{◌≡◌, ℕ, ◌+◌, ◌≤◌, List, [], Some, IsSome, IfOk, OnOk, OnErr};
ghost use Rattle.std.specs.Option.{option_map, unwrap_or};
ghost use Rattle.bd_keys.specs.Keys.{IsKey};
ghost use Rattle.bd_message.specs.Effect.{NodesAt};
ghost use Rattle.bd_message.specs.KeyMaps.{HasMapCause, NeverWorn};
ghost use Rattle.bd_node.specs.Frames.{OfSound, OnlyReads};
ghost use Rattle.bd_node.specs.declared.node.Node.{Node};
ghost use Rattle.bd_node.specs.Nodes.{node_at};
ghost use Rattle.bd_node.specs.Meaning.{at};
ghost use Rattle.bd_node.specs.Tables.{IsKept};
ghost use Rattle.bd_node.specs.Stores.{visited, AreVisits};
ghost use Rattle.bd_query.specs.Looks.{patched, base_at, part_at, IsLowerBase};
ghost use Rattle.bd_query.specs.Asks.{asked_at, asked_of, AreVisitsOfWay, AreVisitsOfRest, AreVisitsOfPart, AreVisitsOfRestPart, AreFewOfRest};
ghost use Rattle.bd_query.specs.declared.part.Base.TheVariants as base;

use crate::part::{Base, Part, part_of};
use crate::patch::Patch;
use bd_keys::{Bytes, overwritten};
use bd_message::MapFault;
use bd_node::NodeStore;
use std::alloc::{AllocError, Global};

/// What a kept node has at a key, of any length. Each node on the way is visited once, and there
/// are at most as many as levels from the first one down. Where it fails, the first ones were
/// visited, or none.
pub fn get<S: NodeStore>(
    alloc: Global,
    store: &mut S,
    root: u64,
    key: &[u8],
) -> Result<Option<Vec<u8>>, MapFault>
    requires { IsKept (S.table store.old) root }
    ensures value { OfSound S.NodeStore store.old
        (IfOk result (λ found.
        option_map (λ value. value.items) found ≡ at (S.nodes store.old) root key.now)) }
    ensures left { OnlyReads S.NodeStore store.old store.new }
    ensures cause { HasMapCause (S.fault_count store.old) (S.fault_count store.new)
        (S.last_failed store.new) (S.bad store.new) NeverWorn result }
    ensures visits { OnOk result (AreVisits 1 ((S.table store.old).level root + 1)
        (S.visit_count store.old) (S.visit_count store.new)) }
    ensures few_visits { S.visit_count store.new
        ≤ S.visit_count store.old + ((S.table store.old).level root + 1) }
    ensures way { OfSound S.NodeStore store.old
        (OnOk result (AreVisitsOfWay (S.nodes store.old) root key.now
        (S.visit_count store.old) (S.visit_count store.new))) }
    ensures err_way { OfSound S.NodeStore store.old
        (OnErr result (AreVisitsOfPart (S.nodes store.old) root key.now
        (S.visit_count store.old) (S.visit_count store.new))) }
{
    let mut id = root;
    let mut asked = Bytes::from_slice(alloc, key)?;
    let mut patches: Vec<Patch> = Vec::new(alloc);
    loop {
        let part = fetched(alloc, store, id, asked.as_slice())?;
        let Part {
            base,
            patches: mut own,
        } = part;
        own.append(&mut patches)?;
        patches = own;
        match base {
            Base::Value(found) => return Ok(finished(alloc, found, patches.as_slice())?),
            Base::Ask { child, key } => {
                id = child;
                asked = key;
            }
        }
    }
}

// What the node of an id says of a key.
fn fetched<S: NodeStore>(
    alloc: Global,
    store: &mut S,
    id: u64,
    key: &[u8],
) -> Result<Part, MapFault>
    requires { IsKept (S.table store.old) id }
    ensures part { S.is_known store.old → IfOk result (λ part. (n : Node)
        → S.nodes store.old id ≡ Some n → (below : NodesAt)
        → node_at below n key.now ≡ part_at below part) }
    ensures lower { IfOk result (λ part.
        IsLowerBase (S.table store.old) ((S.table store.old).level id) part.base) }
    ensures asks { S.is_known store.old → IfOk result (λ part. (n : Node)
        → S.nodes store.old id ≡ Some n → asked_at n key.now ≡ asked_of part.base) }
    ensures bytes { IsKey key.now }
    ensures left { OnlyReads S.NodeStore store.old store.new }
    ensures cause { HasMapCause (S.fault_count store.old) (S.fault_count store.new)
        (S.last_failed store.new) (S.bad store.new) NeverWorn result }
    ensures visits { S.visit_count store.new ≡ visited (S.visit_count store.old) 1 }
{
    let node = store.fetch(id)?;
    Ok(part_of(alloc, &node, key)?)
}

/// The value that a node's part says, where there is one. The nodes that are visited are those that
/// are asked on the way down that is left, the first ones where it fails.
pub fn value_of<S: NodeStore>(alloc: Global, store: &mut S, part: Part) -> Result<Bytes, MapFault>
    requires { (child : ℕ) (key : List ℕ) → part.base ≡ base.Ask child key
        → IsKept (S.table store.old) child }
    ensures value { OfSound S.NodeStore store.old (IfOk result (λ value.
        IsSome (part_at (at (S.nodes store.old)) part)
        → part_at (at (S.nodes store.old)) part ≡ Some value)) }
    ensures left { OnlyReads S.NodeStore store.old store.new }
    ensures cause { HasMapCause (S.fault_count store.old) (S.fault_count store.new)
        (S.last_failed store.new) (S.bad store.new) NeverWorn result }
    ensures visits { OnOk result (AreFewOfRest (S.table store.old) (asked_of part.base)
        (S.visit_count store.old) (S.visit_count store.new)) }
    ensures few_visits { (level : ℕ) → IsLowerBase (S.table store.old) level part.base
        → S.visit_count store.new ≤ S.visit_count store.old + level }
    ensures way { OfSound S.NodeStore store.old
        (OnOk result (AreVisitsOfRest (S.nodes store.old) (asked_of part.base)
        (S.visit_count store.old) (S.visit_count store.new))) }
    ensures err_way { OfSound S.NodeStore store.old
        (OnErr result (AreVisitsOfRestPart (S.nodes store.old) (asked_of part.base)
        (S.visit_count store.old) (S.visit_count store.new))) }
{
    let Part { base, patches } = part;
    let found = found_at(alloc, store, base)?;
    let value = finished(alloc, found, patches.as_slice())?;
    Ok(Bytes::from_vec(value.unwrap_or(Vec::new(alloc))))
}

// What stands before patches.
fn found_at<S: NodeStore>(
    alloc: Global,
    store: &mut S,
    first: Base,
) -> Result<Option<Bytes>, MapFault>
    requires { (child : ℕ) (key : List ℕ) → first ≡ base.Ask child key
        → IsKept (S.table store.old) child }
    ensures value { OfSound S.NodeStore store.old
        (IfOk result (λ found. found ≡ base_at (at (S.nodes store.old)) first)) }
    ensures left { OnlyReads S.NodeStore store.old store.new }
    ensures cause { HasMapCause (S.fault_count store.old) (S.fault_count store.new)
        (S.last_failed store.new) (S.bad store.new) NeverWorn result }
    ensures visits { OnOk result (AreFewOfRest (S.table store.old) (asked_of first)
        (S.visit_count store.old) (S.visit_count store.new)) }
    ensures few_visits { (level : ℕ) → IsLowerBase (S.table store.old) level first
        → S.visit_count store.new ≤ S.visit_count store.old + level }
    ensures way { OfSound S.NodeStore store.old
        (OnOk result (AreVisitsOfRest (S.nodes store.old) (asked_of first)
        (S.visit_count store.old) (S.visit_count store.new))) }
    ensures err_way { OfSound S.NodeStore store.old
        (OnErr result (AreVisitsOfRestPart (S.nodes store.old) (asked_of first)
        (S.visit_count store.old) (S.visit_count store.new))) }
{
    match first {
        Base::Value(found) => Ok(found),
        Base::Ask { child, key } => {
            let found = get(alloc, store, child, key.as_slice())?;
            Ok(found.map(Bytes::from_vec))
        }
    }
}

// A value after patches.
fn finished(
    alloc: Global,
    base: Option<Bytes>,
    patches: &[Patch],
) -> Result<Option<Vec<u8>>, AllocError>
    ensures { IfOk result (λ found.
        option_map (λ value. value.items) found ≡ patched patches.now base) }
{
    let mut value = owned(base)?;
    for patch in patches {
        let old = bytes_of(&value);
        value = Some(overwritten(alloc, old, patch.off as usize, patch.bytes.as_slice())?);
    }
    Ok(value)
}

// The bytes of a value, none without one.
fn bytes_of(value: &Option<Vec<u8>>) -> &[u8]
    ensures { result.now ≡ unwrap_or (option_map (λ value. value.items) value.now) [] }
{
    match value {
        Some(value) => value.as_slice(),
        None => &[],
    }
}

// A value as a `Vec`.
fn owned(value: Option<Bytes>) -> Result<Option<Vec<u8>>, AllocError>
    ensures { IfOk result (λ owned. option_map (λ value. value.items) owned ≡ value) }
{
    match value {
        Some(value) => Ok(Some(value.into_vec()?)),
        None => Ok(None),
    }
}
