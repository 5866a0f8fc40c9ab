//! Whether entries are those of a well-formed leaf.

ghost use Rattle.std.specs.Prelude.{◌≡◌, ◌≤◌, ◌↔◌, ◌+◌, IsTrue};
ghost use Rattle.std.specs.List.{AllByRecursion, sum_by};
ghost use Rattle.bd_limits.specs.Limits.{leaf_limit};
ghost use Rattle.bd_node.specs.Shape.{IsLeaf, IsEntry, IsRising, entry_size};

use bd_limits::{BASE_SIZE, MAX_BLOCK, MAX_KEY, MAX_LEAF};
use bd_node::Entry;

/// Whether these are the entries of a well-formed leaf.
pub fn is_leaf(entries: &[Entry]) -> bool
    ensures { IsTrue result ↔ IsLeaf entries.now }
{
    are_entries(entries) && is_rising(entries) && fits(entries)
}

// Whether each entry's key and value are as long as they may be.
fn are_entries(entries: &[Entry]) -> bool
    ensures { IsTrue result ↔ AllByRecursion IsEntry entries.now }
{
    for entry in entries {
        if !is_entry(entry) {
            return false;
        }
    }
    true
}

// Whether an entry's key and value are as long as they may be.
fn is_entry(entry: &Entry) -> bool
    ensures { IsTrue result ↔ IsEntry entry.now }
{
    let value = entry.value.len();
    entry.key.len() <= MAX_KEY && value >= 1 && value <= MAX_BLOCK
}

// Whether each key is below the next one, and so below all after it.
fn is_rising(entries: &[Entry]) -> bool
    ensures { IsTrue result ↔ IsRising entries.now }
{
    let Some((first, rest)) = entries.split_first() else {
        return true;
    };
    let mut last = first.key.as_slice();
    for entry in rest {
        if !last.cmp(entry.key.as_slice()).is_lt() {
            return false;
        }
        last = entry.key.as_slice();
    }
    true
}

// Whether the entries count no more bytes than a leaf may have.
fn fits(entries: &[Entry]) -> bool
    requires { AllByRecursion IsEntry entries.now }
    ensures { IsTrue result ↔ (sum_by entry_size entries.now ≤ leaf_limit) }
{
    let mut left = MAX_LEAF;
    for entry in entries {
        let size = BASE_SIZE + entry.key.len() + entry.value.len();
        if size > left {
            return false;
        }
        left -= size;
    }
    true
}
