//! What a step makes of the counts, found before anything is changed.

ghost use Rattle.std.specs.Prelude.{◌≡◌, ℕ, ◌++◌, ◌∷◌, [], true, IfOk, IfSome, IfNone, IsSome, Ok};
ghost use Rattle.std.specs.Bool.{MatchBool};
ghost use Rattle.bd_message.specs.KeyMaps.{HasMapCause, NeverWorn};
ghost use Rattle.bd_node.specs.Tables.{IsTable, one_if};
ghost use Rattle.bd_node.specs.Steps.{IsStep, StayAbove, IsWornBy};
ghost use Rattle.bd_counts.specs.Counting.{IsRecount, MakesTable, Commits, IsOwing};
ghost use Rattle.bd_counts.specs.Releasing.{IsLess};
ghost use Rattle.bd_counts.specs.Frames.{OnlyReads, OfSound, counts_over, IsBadFor, IsTooLow, IsAccount};

use crate::counted::Counted;
use crate::owing::{owed_names, push_left};
use crate::raising::{count_of, raised};
use bd_message::MapFault;
use bd_node::Step;
use std::alloc::Global;
use std::collections::HashMap;

/// What a step makes of the counts.
#[derive(Drop)]
pub struct NewCounts {
    /// The new counts, of each id whose count changes.
    pub counts: HashMap<u64, u64>,
    /// The ids that nothing names any more, whose nodes go.
    pub gone: Vec<u64>,
}

/// What a step makes of the counts. It reads what the changed nodes were and the nodes that go,
/// each once and no others, and changes nothing. `None` where the counts show that the nodes aren't
/// sound, since one would fall below 0, or the new root's to 0. `Worn(Refs)` where one would pass
/// its last value.
pub fn recount<S: Counted>(
    alloc: Global,
    source: &mut S,
    step: &Step,
) -> Result<Option<NewCounts>, MapFault>
    requires step { IsStep (S.table source.old) step.now }
    requires above { OfSound S.Counted source.old
        (StayAbove (S.nodes source.old) (S.table source.old) step.now) }
    ensures counts { IfOk result (λ found. IfSome found (λ recount.
        IsRecount (S.table source.old) step.now (counts_over S.Counted source.old recount.counts)
        recount.gone.items)) }
    ensures table { IfOk result (λ found. IfSome found (λ recount.
        MakesTable (S.table source.old) step.now
        (counts_over S.Counted source.old recount.counts))) }
    ensures found { OfSound S.Counted source.old (IfOk result (λ found. IsSome found)) }
    ensures low { IfOk result (λ found. IfNone found (IsTooLow S.Counted source.old step.now)) }
    ensures commits { OfSound S.Counted source.old (IfOk result (λ found. IfSome found (λ recount.
        Commits (S.nodes source.old) (S.table source.old) step.now
        (counts_over S.Counted source.old recount.counts)))) }
    ensures left { OnlyReads S.Counted source.old source.new }
    ensures visits { S.visit_count source.new ≡ S.visit_count source.old }
    ensures cause { HasMapCause (S.fault_count source.old) (S.fault_count source.new)
        (S.last_failed source.new) (IsBadFor S.Counted source.old step.now source.new)
        (IsWornBy (S.table source.old) step.now) result }
{
    let counts = raised(alloc, &*source, step)?;
    let owed = owed_names(alloc, source, step)?;
    let recount = NewCounts {
        counts,
        gone: Vec::new(alloc),
    };
    settled(source, step, recount, owed)
}

// Takes back names until none is owed.
fn settled<S: Counted>(
    source: &mut S,
    step: &Step,
    recount: NewCounts,
    owed: Vec<u64>,
) -> Result<Option<NewCounts>, MapFault>
    requires table { IsTable (S.table source.old) }
    requires step { IsStep (S.table source.old) step.now }
    requires counts { IsRecount (S.table source.old) step.now
        (counts_over S.Counted source.old recount.counts) recount.gone.items }
    requires owing { OfSound S.Counted source.old (IsOwing (S.nodes source.old) (S.table source.old)
        step.now (counts_over S.Counted source.old recount.counts) owed.items) }
    requires account { IsAccount S.Counted source.old step.now recount.counts recount.gone.items
        owed.items }
    ensures counts { IfOk result (λ found. IfSome found (λ recount.
        IsRecount (S.table source.old) step.now (counts_over S.Counted source.old recount.counts)
        recount.gone.items)) }
    ensures found { OfSound S.Counted source.old (IfOk result (λ found. IsSome found)) }
    ensures low { IfOk result (λ found. IfNone found (IsTooLow S.Counted source.old step.now)) }
    ensures settled { OfSound S.Counted source.old (IfOk result (λ found. IfSome found (λ recount.
        IsOwing (S.nodes source.old) (S.table source.old) step.now
        (counts_over S.Counted source.old recount.counts) []))) }
    ensures left { OnlyReads S.Counted source.old source.new }
    ensures visits { S.visit_count source.new ≡ S.visit_count source.old }
    ensures cause { HasMapCause (S.fault_count source.old) (S.fault_count source.new)
        (S.last_failed source.new) (IsBadFor S.Counted source.old step.now source.new)
        NeverWorn result }
{
    let mut recount = recount;
    let mut owed = owed;
    while let Some(id) = owed.pop() {
        if !take_back(source, step, id, &mut recount, &mut owed)? {
            return Ok(None);
        }
    }
    Ok(Some(recount))
}

// Takes back one name. What a node that goes names is owed then. `false` where it isn't counted.
fn take_back<S: Counted>(
    source: &mut S,
    step: &Step,
    id: u64,
    recount: &mut NewCounts,
    owed: &mut Vec<u64>,
) -> Result<bool, MapFault>
    requires counts { IsRecount (S.table source.old) step.now
        (counts_over S.Counted source.old recount.old.counts) recount.old.gone.items }
    requires account { IsAccount S.Counted source.old step.now recount.old.counts
        recount.old.gone.items (owed.old.items ++ id ∷ []) }
    ensures counts { result ≡ Ok true → IsRecount (S.table source.old) step.now
        (counts_over S.Counted source.old recount.new.counts) recount.new.gone.items }
    ensures less { result ≡ Ok true
        → IsLess id (counts_over S.Counted source.old recount.old.counts)
        (counts_over S.Counted source.old recount.new.counts) }
    ensures owing { OfSound S.Counted source.old
        (IsOwing (S.nodes source.old) (S.table source.old) step.now
        (counts_over S.Counted source.old recount.old.counts) (owed.old.items ++ id ∷ [])
        → IfOk result (λ taken. (taken ≡ true)
        × IsOwing (S.nodes source.old) (S.table source.old) step.now
        (counts_over S.Counted source.old recount.new.counts) owed.new.items)) }
    ensures account { IfOk result (λ taken. MatchBool taken (IsAccount S.Counted source.old step.now
        recount.new.counts recount.new.gone.items owed.new.items)
        (IsTooLow S.Counted source.old step.now)) }
    ensures left { OnlyReads S.Counted source.old source.new }
    ensures visits { S.visit_count source.new ≡ S.visit_count source.old }
    ensures cause { HasMapCause (S.fault_count source.old) (S.fault_count source.new)
        (S.last_failed source.new) (IsBadFor S.Counted source.old step.now source.new)
        NeverWorn result }
{
    let count = count_of(&*source, &recount.counts, id);
    if count <= least_count(step, id) {
        return Ok(false);
    }
    recount.counts.insert(id, count - 1)?;
    if count > 1 {
        return Ok(true);
    }
    recount.gone.push(id)?;
    push_left(source, step, id, owed)?;
    Ok(true)
}

// What the root's pointer counts.
fn least_count(step: &Step, id: u64) -> u64
    ensures { result ≡ one_if step.now.root id }
{
    if step.root == id { 1 } else { 0 }
}
