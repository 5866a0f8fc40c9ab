//! How messages are put into the root over new nodes.

ghost use Rattle.std.specs.Prelude.{◌≡◌, ◌<◌, ◌↔◌, ℕ, Some, IsSome, IsTrue, OnOk, OnErr};
ghost use Rattle.std.specs.List.{AllByRecursion};
ghost use Rattle.std.specs.Option.{option_copied};
ghost use Rattle.bd_node.specs.declared.node.Node.{Node};
ghost use Rattle.bd_node.specs.Nodes.{level_of, names, appended};
ghost use Rattle.bd_pager.specs.Counting.{AreUnused, IsTallied};
ghost use Rattle.bd_pager.specs.Extending.{IsExtended};
ghost use Rattle.bd_pager.specs.Places.{spots_in, copy_at, copy_in, IsLowerIn};

use crate::changing::append_counted;
use crate::naming::names_lower;
use crate::place::{Place, Spot};
use crate::stepping::{Put, list_all, put_all, set_counts};
use crate::usage::Usage;
use bd_node::{Messages, Node};
use std::alloc::{AllocError, Global};
use std::collections::HashMap;

/// New nodes, and what they and messages make of the counts.
#[derive(Drop)]
pub struct Addition {
    pub puts: Vec<Put>,
    /// The new counts, of each id whose count changes.
    pub counts: HashMap<u64, u64>,
}

/// Puts messages after those that wait in the root, and new nodes, or leaves all as it is where
/// memory is wanting.
pub fn extend_spots(
    alloc: Global,
    spots: &mut HashMap<u64, Spot>,
    usage: &mut Usage,
    root: u64,
    addition: Addition,
    list: Messages,
) -> Result<(), AllocError>
    requires copy { IsSome (copy_in (spots_in spots.old root)) }
    requires unused { AreUnused usage.old.spare usage.old.free (spots_in spots.old) }
    ensures ok { (n : Node) → copy_in (spots_in spots.old root) ≡ Some n → OnOk result
        (IsExtended usage.old.spare root (appended n list) addition
        (spots_in spots.old) (spots_in spots.new)) }
    ensures spare { usage.new.spare ≡ usage.old.spare }
    ensures tallied { OnOk result ((next : ℕ) → root < next
        → AllByRecursion (λ put. put.id < next) addition.puts.items
        → IsTallied next (spots_in spots.old) usage.old
        → IsTallied next (spots_in spots.new) usage.new) }
    ensures err { OnErr result ((id : ℕ) → spots_in spots.new id ≡ spots_in spots.old id) }
    ensures err_tallied { OnErr result ((next : ℕ) → root < next
        → IsTallied next (spots_in spots.old) usage.old
        → IsTallied next (spots_in spots.new) usage.new) }
{
    list_all(usage, addition.puts.as_slice())?;
    spots.reserve(addition.puts.len())?;
    append_counted(alloc, spots, usage, root, list)?;
    let Addition { puts, counts } = addition;
    put_all(spots, usage, puts);
    set_counts(spots, counts);
    Ok(())
}

/// Whether the node of an id that is in memory names kept nodes of lower levels alone.
pub fn copy_names_lower(spots: &HashMap<u64, Spot>, id: u64) -> bool
    ensures { (n : Node) → copy_in (spots_in spots.now id) ≡ Some n → IsTrue result
        ↔ AllByRecursion (IsLowerIn (spots_in spots.now) (level_of n)) (names n) }
{
    match spots.get(&id) {
        Some(spot) => match copy_of(&spot.place) {
            Some(node) => names_lower(spots, node),
            None => false,
        },
        None => false,
    }
}

/// The node that a place has in memory.
pub fn copy_of(place: &Place) -> Option<&Node>
    ensures { option_copied result ≡ copy_at place.now }
{
    match place {
        Place::Memory { node, .. } => Some(node),
        Place::Slot {
            node: Some(node),
            ..
        } => Some(node),
        Place::Slot { node: None, .. } => None,
    }
}
