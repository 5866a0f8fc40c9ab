//! Counts that rise by the names in a step.

ghost use Rattle.std.specs.Prelude.{◌≡◌, ℕ, ◌+◌, IfOk};
ghost use Rattle.bd_message.specs.KeyMaps.{HasMapCause};
ghost use Rattle.bd_node.specs.Steps.{IsWornBy, IsWornByAdding, added_times};
ghost use Rattle.bd_counts.specs.Naming.{times_among, step_names};
ghost use Rattle.bd_counts.specs.Counting.{IsWornByNames};
ghost use Rattle.bd_counts.specs.Frames.{counts_over};

use crate::counted::Counted;
use crate::naming::{added_by, named_by};
use bd_message::{Counter, MapFault, Message};
use bd_node::{Node, Step};
use std::alloc::Global;
use std::collections::HashMap;

/// The counts after the names in a step, of the ids that it names. `Worn(Refs)` where one would
/// pass its last value.
pub fn raised<S: Counted>(
    alloc: Global,
    source: &S,
    step: &Step,
) -> Result<HashMap<u64, u64>, MapFault>
    ensures counts { IfOk result (λ counts. (c : ℕ) → counts_over S.Counted source.now counts c
        ≡ (S.table source.now).count c + times_among (step_names step.now) c) }
    ensures cause { HasMapCause (S.fault_count source.now) (S.fault_count source.now)
        (S.last_failed source.now) (λ _. ⊥) (IsWornBy (S.table source.now) step.now) result }
{
    let names = named_by(alloc, step)?;
    raise(alloc, source, names.as_slice())
}

/// The counts after the names in made nodes and in messages, of the ids that they name.
/// `Worn(Refs)` where one would pass its last value.
pub fn added<S: Counted>(
    alloc: Global,
    source: &S,
    made: &[Node],
    list: &[Message],
) -> Result<HashMap<u64, u64>, MapFault>
    ensures counts { IfOk result (λ counts. (c : ℕ) → counts_over S.Counted source.now counts c
        ≡ (S.table source.now).count c + added_times made.now list.now c) }
    ensures cause { HasMapCause (S.fault_count source.now) (S.fault_count source.now)
        (S.last_failed source.now) (λ _. ⊥)
        (IsWornByAdding (S.table source.now) made.now list.now) result }
{
    let names = added_by(alloc, made, list)?;
    raise(alloc, source, names.as_slice())
}

// The counts after names, of the ids that are named.
fn raise<S: Counted>(
    alloc: Global,
    source: &S,
    names: &[u64],
) -> Result<HashMap<u64, u64>, MapFault>
    ensures counts { IfOk result (λ counts. (c : ℕ) → counts_over S.Counted source.now counts c
        ≡ (S.table source.now).count c + times_among names.now c) }
    ensures cause { HasMapCause (S.fault_count source.now) (S.fault_count source.now)
        (S.last_failed source.now) (λ _. ⊥)
        (IsWornByNames (S.table source.now).count names.now) result }
{
    let mut counts: HashMap<u64, u64> = HashMap::new(alloc);
    for name in names {
        let count = count_of(source, &counts, *name);
        if count == u64::MAX {
            return Err(MapFault::Worn(Counter::Refs));
        }
        counts.insert(*name, count + 1)?;
    }
    Ok(counts)
}

/// A count, where some are in a table of their own.
pub fn count_of<S: Counted>(source: &S, counts: &HashMap<u64, u64>, id: u64) -> u64
    ensures { result ≡ counts_over S.Counted source.now counts.now id }
{
    match counts.get(&id) {
        Some(count) => *count,
        None => source.count(id),
    }
}
