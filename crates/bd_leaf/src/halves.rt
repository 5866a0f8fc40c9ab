//! A leaf in two.

ghost use Rattle.std.specs.Prelude.{◌≡◌, ◌↔◌, ◌+◌, ◌-◌, ◌^◌, ◌≤◌, ◌++◌, min, length, IfOk, IsTrue, Some, slice_get};
ghost use Rattle.std.specs.List.{AllByRecursion};
ghost use Rattle.bd_limits.specs.Limits.{leaf_limit, batch_limit};
ghost use Rattle.bd_node.specs.declared.node.Entry.{Entry};
ghost use Rattle.bd_node.specs.Shape.{entry_size, IsEntry, IsLeaf};
ghost use Rattle.bd_leaf.specs.Leaves.{AreEntries, entries_size, AreApart, IsMiddle};

use bd_limits::{BASE_SIZE, MAX_LEAF};
use bd_node::{Entries, Entry};
use std::alloc::AllocError;

/// Whether entries count at most 40,960 bytes, as those of a kept leaf do.
pub fn fits(entries: &[Entry]) -> bool
    requires { AreEntries entries.now }
    ensures { IsTrue result ↔ (entries_size entries.now ≤ leaf_limit) }
{
    total(entries) <= MAX_LEAF
}

/// The two halves of a leaf of two entries or more, by their bytes: entries that a batch of at most
/// 16,384 bytes has made too many for a leaf give two leaves. The second one's first key is the
/// pivot. Where there is no memory, the entries are let go.
pub fn split(entries: Entries) -> Result<(Entries, Entries), AllocError>
    requires entries { AreEntries entries }
    requires two { 2 ≤ length entries }
    ensures whole { IfOk result (λ halves. halves.0 ++ halves.1 ≡ entries) }
    ensures first { IfOk result (λ halves. AreEntries halves.0 × (1 ≤ length halves.0)) }
    ensures second { IfOk result (λ halves. AreEntries halves.1 × (1 ≤ length halves.1)) }
    ensures leaves { entries_size entries ≤ leaf_limit + batch_limit
        → IfOk result (λ halves. IsLeaf halves.0 × IsLeaf halves.1) }
    ensures apart { IfOk result (λ halves. (pivot : Entry) → slice_get halves.1 0 ≡ Some pivot
        → AreApart pivot.key entries halves.0 halves.1) }
{
    let place = middle(entries.as_slice());
    let mut first = entries.into_vec();
    let second = first.split_off(place)?;
    // It has the memory of all until now.
    first.shrink_to_fit();
    Ok((Entries::from_vec(first), Entries::from_vec(second)))
}

// The place from which on the second half begins.
fn middle(entries: &[Entry]) -> usize
    requires entries { AreEntries entries.now }
    requires two { 2 ≤ length entries.now }
    ensures { IsMiddle entries.now result }
{
    let half = total(entries) / 2;
    let mut place = 1;
    let mut before = size(&entries[0]);
    while place + 1 < entries.len() && before < half {
        before += size(&entries[place]);
        place += 1;
    }
    place
}

// How many bytes entries count, up to a usize's last value.
fn total(entries: &[Entry]) -> usize
    requires { AllByRecursion IsEntry entries.now }
    ensures { result ≡ min (entries_size entries.now) (2 ^ 64 - 1) }
{
    let mut total: usize = 0;
    for entry in entries {
        total = total.saturating_add(size(entry));
    }
    total
}

// How many bytes an entry counts.
fn size(entry: &Entry) -> usize
    requires { IsEntry entry.now }
    ensures { result ≡ entry_size entry.now }
{
    BASE_SIZE + entry.key.len() + entry.value.len()
}
