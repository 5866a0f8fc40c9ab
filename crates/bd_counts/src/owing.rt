//! Names that a step takes back.

ghost use Rattle.std.specs.Prelude.{◌≡◌, ℕ, ◌+◌, IfOk, OnOk};
ghost use Rattle.std.specs.Option.{option_copied};
ghost use Rattle.std.specs.List.{sum_by};
ghost use Rattle.bd_message.specs.KeyMaps.{HasMapCause, NeverWorn};
ghost use Rattle.bd_node.specs.declared.node.Change.{Change};
ghost use Rattle.bd_node.specs.Tables.{IsTable, times_in, one_if};
ghost use Rattle.bd_node.specs.Steps.{changed_at, given, after, IsStep, IsThere};
ghost use Rattle.bd_counts.specs.Naming.{times_among};
ghost use Rattle.bd_counts.specs.Frames.{OnlyReads, IsBadFor};

use crate::counted::Counted;
use crate::naming::push_node;
use bd_message::MapFault;
use bd_node::{Change, Node, Step};
use std::alloc::Global;

/// The names in what the changed nodes were, and the old root. It reads these nodes alone.
pub fn owed_names<S: Counted>(
    alloc: Global,
    source: &mut S,
    step: &Step,
) -> Result<Vec<u64>, MapFault>
    requires { IsStep (S.table source.old) step.now }
    ensures owed { S.is_known source.old → IfOk result (λ owed. (c : ℕ)
        → times_among owed.items c ≡ one_if (S.table source.old).root c
        + sum_by (λ (d : Change). times_in (S.nodes source.old d.id) c) step.now.changes) }
    ensures table { IsTable (S.table source.old) }
    ensures left { OnlyReads S.Counted source.old source.new }
    ensures visits { S.visit_count source.new ≡ S.visit_count source.old }
    ensures cause { HasMapCause (S.fault_count source.old) (S.fault_count source.new)
        (S.last_failed source.new) (IsBadFor S.Counted source.old step.now source.new)
        NeverWorn result }
{
    let mut owed = Vec::new(alloc);
    owed.push(source.root())?;
    for change in step.changes.as_slice() {
        let node = source.find(change.id)?;
        push_node(&mut owed, &node)?;
    }
    Ok(owed)
}

/// Puts the names in the node that an id has after a step after others.
pub fn push_left<S: Counted>(
    source: &mut S,
    step: &Step,
    id: u64,
    owed: &mut Vec<u64>,
) -> Result<(), MapFault>
    requires { IsThere (S.table source.old) step.now id }
    ensures owed { S.is_known source.old → OnOk result ((c : ℕ)
        → times_among owed.new.items c ≡ times_among owed.old.items c
        + times_in (after (S.nodes source.old) (S.table source.old) step.now id) c) }
    ensures left { OnlyReads S.Counted source.old source.new }
    ensures visits { S.visit_count source.new ≡ S.visit_count source.old }
    ensures cause { HasMapCause (S.fault_count source.old) (S.fault_count source.new)
        (S.last_failed source.new) (S.bad source.new id) NeverWorn result }
{
    let next = source.next_id();
    if let Some(node) = given(step, next, id) {
        push_node(owed, node)?;
        return Ok(());
    }
    let node = source.find(id)?;
    push_node(owed, &node)?;
    Ok(())
}

// The node that a step gives an id.
fn given(step: &Step, next: u64, id: u64) -> Option<&Node>
    ensures { option_copied result ≡ given next step.now id }
{
    if id < next {
        changed_at(step.changes.as_slice(), id)
    } else {
        step.made.as_slice().get((id - next) as usize)
    }
}

// The node to which changes change an id's. There are no more of them than nodes on a way down.
fn changed_at(changes: &[Change], id: u64) -> Option<&Node>
    ensures { option_copied result ≡ changed_at changes.now id }
{
    for change in changes {
        if id == change.id {
            return Some(&change.node);
        }
    }
    None
}
