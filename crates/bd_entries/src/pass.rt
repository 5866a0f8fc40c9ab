//! A pass over the keys of a map, as far as it has come.

ghost use Rattle.std.specs.Prelude.{◌≡◌, ℕ, ◌+◌, ◌-◌, ◌^◌, ◌<◌, ◌≤◌, List, [], ◌∷◌, ◌++◌, length, Some, IfOk, IfSome, MatchOption};
ghost use Rattle.bd_message.specs.KeyMaps.{At, IsNextEntry};
ghost use Rattle.bd_scan.specs.Scans.{AreNext};
ghost use Rattle.bd_entries.specs.Fronts.{HasNoTree, before, key_past, HasBelow};
ghost use Rattle.bd_entries.specs.Marks.{IsSeen};
ghost use Rattle.bd_entries.specs.Verdicts.{IsBroken};
ghost use Rattle.bd_entries.specs.Passes.{IsMarkedTo, IsPassed, HasWent, HasCounted};

use crate::mark::{Mark, first_mark, next_mark};
use bd_scan::Found;
use std::alloc::{AllocError, Global};

/// How far a pass has come.
#[derive(Drop)]
pub struct Pass {
    /// The last record that was seen, `None` before the first one.
    pub mark: Option<Mark>,
    /// How many keys were seen.
    pub keys: u64,
}

/// How a pass went on.
#[derive(Drop)]
pub enum Went {
    /// Over all that was found.
    On(Pass),
    /// Up to a key with which no tree has what stands at the keys.
    Broken,
    /// Up to a key past as many as are looked at.
    Limit,
}

/// The pass after several entries in a row, of a map of which at most `most` keys are looked at.
pub fn run_after(
    alloc: Global,
    mut pass: Pass,
    has_modes: bool,
    most: u64,
    found: &[Found],
) -> Result<Went, AllocError>
    requires { pass.keys ≤ most }
    ensures went { (at : At) (low : List ℕ) → 1 ≤ most → IsPassed has_modes at low pass
        → AreNext at low [] found.now
        → IfOk result (HasWent has_modes at most (key_past low found.now)) }
    ensures counted { IfOk result (HasCounted pass.keys (length found.now) most) }
{
    for each in found {
        if pass.keys == most {
            return Ok(Went::Limit);
        }
        match pass_after(alloc, pass, has_modes, each)? {
            Some(next) => pass = next,
            None => return Ok(Went::Broken),
        }
    }
    Ok(Went::On(pass))
}

/// The pass after one more entry, `None` where no tree has what stands in the map.
fn pass_after(
    alloc: Global,
    pass: Pass,
    has_modes: bool,
    found: &Found,
) -> Result<Option<Pass>, AllocError>
    requires { pass.keys < 2 ^ 64 - 1 }
    ensures passed { (at : At) (low : List ℕ) → IsPassed has_modes at low pass
        → IsNextEntry at low [] (Some (found.now.key, found.now.value))
        → IfOk result (λ next. MatchOption next (IsBroken has_modes at (pass.keys + 1))
        (IsPassed has_modes at (found.now.key ++ 0 ∷ []))) }
    ensures keys { IfOk result (λ next. IfSome next (λ later. later.keys ≡ pass.keys + 1)) }
{
    let Pass { mark, keys } = pass;
    let key = found.key.as_slice();
    let Some(mark) = mark_after(alloc, mark, has_modes, key, found.value.as_slice())? else {
        return Ok(None);
    };
    Ok(Some(Pass {
        mark: Some(mark),
        keys: keys + 1,
    }))
}

/// The mark after one more entry, `None` where no tree has what stands in the map.
fn mark_after(
    alloc: Global,
    mark: Option<Mark>,
    has_modes: bool,
    key: &[u8],
    value: &[u8],
) -> Result<Option<Mark>, AllocError>
    ensures { (at : At) (low : List ℕ) (keys : ℕ) → HasBelow at keys low
        → IsMarkedTo has_modes at low keys mark
        → IsNextEntry at low [] (Some (key.now, value.now))
        → IfOk result (λ next. MatchOption next
        (HasNoTree has_modes at × HasNoTree has_modes (before at (key.now ++ 0 ∷ [])))
        (IsSeen has_modes at (key.now ++ 0 ∷ []))) }
{
    match mark {
        None => Ok(first_mark(alloc, has_modes, key, value)),
        Some(mark) => next_mark(alloc, mark, has_modes, key, value),
    }
}
