//! Whether nodes name what they may, by the entries of a table.

ghost use Rattle.std.specs.Prelude.{◌≡◌, ◌↔◌, ◌<◌, AllPairs, IfOk, IsTrue};
ghost use Rattle.std.specs.List.{AllByRecursion};
ghost use Rattle.bd_node.specs.Nodes.{names};
ghost use Rattle.bd_format.specs.Slots.{IsLowerLevel};
ghost use Rattle.bd_table.specs.Entries.{entry_of, level_at};

use bd_counts::push_node;
use bd_node::Node;
use bd_table::TableEntry;
use std::alloc::{AllocError, Global};

/// Whether a node of this level names nodes of lower levels alone, where these entries have them.
/// It takes one search by halving a name.
pub fn names_lower(
    alloc: Global,
    entries: &[TableEntry],
    level: u32,
    node: &Node,
) -> Result<bool, AllocError>
    requires { AllPairs (λ e o. e.id < o.id) entries.now }
    ensures { IfOk result (λ is. IsTrue is ↔ AllByRecursion
        (λ c. IsLowerLevel level (level_at entries.now c)) (names node.now)) }
{
    let mut named = Vec::new(alloc);
    push_node(&mut named, node)?;
    Ok(are_lower(entries, level, named.as_slice()))
}

// Whether each id is that of a node of a lower level.
fn are_lower(entries: &[TableEntry], level: u32, ids: &[u64]) -> bool
    requires { AllPairs (λ e o. e.id < o.id) entries.now }
    ensures { IsTrue result ↔ AllByRecursion
        (λ c. IsLowerLevel level (level_at entries.now c)) ids.now }
{
    for id in ids {
        if !is_lower(entries, level, *id) {
            return false;
        }
    }
    true
}

// Whether it is that of a node of a lower level.
fn is_lower(entries: &[TableEntry], level: u32, id: u64) -> bool
    requires { AllPairs (λ e o. e.id < o.id) entries.now }
    ensures { IsTrue result ↔ IsLowerLevel level (level_at entries.now id) }
{
    match entry_of(entries, id) {
        Some(entry) => entry.level < level,
        None => false,
    }
}

// The entry of an id, if there is one.
fn entry_of(entries: &[TableEntry], id: u64) -> Option<TableEntry>
    requires { AllPairs (λ e o. e.id < o.id) entries.now }
    ensures { result ≡ entry_of entries.now id }
{
    match entries.binary_search_by_key(&id, |entry| entry.id) {
        Ok(place) => Some(entries[place]),
        Err(_) => None,
    }
}
