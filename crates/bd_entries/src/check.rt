//! The verdict on the keys of a map.

ghost use Rattle.std.specs.Prelude.{◌≡◌, ℕ, ◌≤◌, Bool, List, [], ◌∷◌, ◌++◌, IfOk};
ghost use Rattle.bd_message.specs.KeyMaps.{At, HasMapCause, NeverWorn};
ghost use Rattle.bd_message.specs.Reads.{IsLeft};
ghost use Rattle.bd_entries.specs.Fronts.{EndsAt};
ghost use Rattle.bd_entries.specs.Verdicts.{IsVerdict};
ghost use Rattle.bd_entries.specs.Passes.{IsPassed};

use crate::pass::{Pass, Went, run_after};
use bd_message::MapFault;
use bd_scan::Scan;
use std::alloc::{AllocError, Global};

// How many entries a scan asks for.
const RUN: usize = 64;

/// What is found out of the keys of a map.
#[derive(Clone, Copy, Debug, PartialEq, Eq)]
pub enum Entries {
    /// A tree has what stands at them. There are this many.
    Tree { keys: u64 },
    /// No tree has what stands at them.
    Broken,
    /// There are more than are looked at, and a tree has what stands at the first of them.
    Limit,
}

/// Whether a tree has what stands at the keys of a map; its modes have to be 0 where there are no
/// modes. At most `most` keys are looked at, the least first. The map stays as it is. A fault is
/// that of a scan, or `NoMemory`.
pub fn check_entries<M: Scan>(
    alloc: Global,
    m: &mut M,
    has_modes: bool,
    most: u64,
) -> Result<Entries, MapFault>
    requires { 1 ≤ most }
    ensures verdict { M.is_known m.old → IfOk result (IsVerdict has_modes (M.has m.old) most) }
    ensures left { IsLeft M.KeyMap m.old m.new }
    ensures cause { HasMapCause (M.fault_count m.old) (M.fault_count m.new)
        (M.last_failed m.new) (M.bad m.new) NeverWorn result }
{
    let mut pass = Pass {
        mark: None,
        keys: 0,
    };
    let mut from = Vec::new(alloc);
    'runs: loop {
        let found = m.scan(alloc, &from, &[], RUN)?;
        let Some(last) = found.last() else {
            return Ok(verdict_at_end(&pass));
        };
        from = key_after(alloc, last.key.as_slice())?;
        match run_after(alloc, pass, has_modes, most, &found)? {
            Went::On(next) => pass = next,
            Went::Broken => return Ok(Entries::Broken),
            Went::Limit => return Ok(Entries::Limit),
        }
    }
}

// The next key after one.
fn key_after(alloc: Global, key: &[u8]) -> Result<Vec<u8>, AllocError>
    ensures { IfOk result (λ next. next.items ≡ key.now ++ 0 ∷ []) }
{
    let mut next = Vec::from_slice(alloc, key)?;
    next.push(0)?;
    Ok(next)
}

// The verdict where no key is left.
fn verdict_at_end(pass: &Pass) -> Entries
    ensures { (has_modes : Bool) (at : At) (low : List ℕ) (most : ℕ)
        → IsPassed has_modes at low pass.now → pass.now.keys ≤ most → EndsAt at low
        → IsVerdict has_modes at most result }
{
    match &pass.mark {
        Some(_) => Entries::Tree { keys: pass.keys },
        None => Entries::Broken,
    }
}
