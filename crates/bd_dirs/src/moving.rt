//! What a clone and a rename send.

ghost use Rattle.std.specs.Prelude.{◌≡◌, None, IfOk, IfSome, true, false};
ghost use Rattle.bd_names.specs.Names.{key_of, is_under};
ghost use Rattle.bd_command.specs.declared.Command.TheVariants as command;
ghost use Rattle.bd_model.specs.Tree.{Tree, IsTree};
ghost use Rattle.bd_model.specs.Step.{refusal_of};
ghost use Rattle.bd_message.specs.KeyMaps.{HasMapCause, NeverWorn};
ghost use Rattle.bd_message.specs.Reads.{IsLeft};
ghost use Rattle.bd_represent.specs.Represents.{Represents};
ghost use Rattle.bd_files.specs.Smalls.{HasBlock};
ghost use Rattle.bd_dirs.specs.Plans.{IsPlan, IsReady, IsGraftPlan, IsCarriedAt};

use crate::lookups::{absent, unmakeable, untakeable};
use crate::plan::Plan;
use bd_command::Refusal;
use bd_files::{SmallFile, carried, copied, has_little, small_file};
use bd_keys::Bytes;
use bd_message::{KeyMap, MapFault, Messages};
use bd_names::Path;
use std::alloc::Global;

/// What a `clone` sends: messages where a file of at most one block is copied, and else a graft.
pub fn clone_to<M: KeyMap>(alloc: Global, m: &mut M, a: &Path, b: &Path) -> Result<Plan, MapFault>
    ensures plan { M.is_known m.old → (t : Tree) → IsTree t → Represents (M.has m.old) t
        → IfOk result (IsPlan (M.has m.old) t (command.Clone a.now b.now)) }
    ensures kind { IfOk result (IsGraftPlan (key_of a.now) (key_of b.now) true) }
    ensures ready { IfOk result IsReady }
    ensures left { IsLeft M.KeyMap m.old m.new }
    ensures cause { HasMapCause (M.fault_count m.old) (M.fault_count m.new)
        (M.last_failed m.new) (M.bad m.new) NeverWorn result }
{
    match clone_refusal(alloc, m, a, b)? {
        Some(refusal) => Ok(Plan::Refused(refusal)),
        None => cloned(alloc, m, a, b),
    }
}

/// Why a `clone` is refused, if it is.
fn clone_refusal<M: KeyMap>(
    alloc: Global,
    m: &mut M,
    a: &Path,
    b: &Path,
) -> Result<Option<Refusal>, MapFault>
    ensures refusal { M.is_known m.old → (t : Tree) → IsTree t → Represents (M.has m.old) t
        → IfOk result (λ refusal. refusal ≡ refusal_of t (command.Clone a.now b.now)) }
    ensures left { IsLeft M.KeyMap m.old m.new }
    ensures cause { HasMapCause (M.fault_count m.old) (M.fault_count m.new)
        (M.last_failed m.new) (M.bad m.new) NeverWorn result }
{
    match absent(alloc, m, a)? {
        Some(refusal) => Ok(Some(refusal)),
        None => unmakeable(alloc, m, b),
    }
}

/// What a `clone` that isn't refused sends.
fn cloned<M: KeyMap>(alloc: Global, m: &mut M, a: &Path, b: &Path) -> Result<Plan, MapFault>
    ensures plan { M.is_known m.old → (t : Tree) → IsTree t → Represents (M.has m.old) t
        → refusal_of t (command.Clone a.now b.now) ≡ None
        → IfOk result (IsPlan (M.has m.old) t (command.Clone a.now b.now)) }
    ensures kind { IfOk result (IsGraftPlan (key_of a.now) (key_of b.now) true) }
    ensures ready { IfOk result IsReady }
    ensures left { IsLeft M.KeyMap m.old m.new }
    ensures cause { HasMapCause (M.fault_count m.old) (M.fault_count m.new)
        (M.last_failed m.new) (M.bad m.new) NeverWorn result }
{
    match small_file(alloc, m, a)? {
        Some(file) => Ok(Plan::Apply(Messages::from_vec(copied(alloc, b, file)?))),
        None => Ok(Plan::Graft {
            s: Bytes::from_vec(a.key(alloc)?),
            d: Bytes::from_vec(b.key(alloc)?),
            keep: true,
        }),
    }
}

/// What a `rename` sends: messages where a file of at most one block takes the place of nothing or
/// of such a file, and else a graft that leaves nothing at its source, and nothing of a file in
/// whose place it puts another.
pub fn rename<M: KeyMap>(alloc: Global, m: &mut M, a: &Path, b: &Path) -> Result<Plan, MapFault>
    ensures plan { M.is_known m.old → (t : Tree) → IsTree t → Represents (M.has m.old) t
        → IfOk result (IsPlan (M.has m.old) t (command.Rename a.now b.now)) }
    ensures kind { IfOk result (IsGraftPlan (key_of a.now) (key_of b.now) false) }
    ensures ready { IfOk result IsReady }
    ensures left { IsLeft M.KeyMap m.old m.new }
    ensures cause { HasMapCause (M.fault_count m.old) (M.fault_count m.new)
        (M.last_failed m.new) (M.bad m.new) NeverWorn result }
{
    match rename_refusal(alloc, m, a, b)? {
        Some(refusal) => Ok(Plan::Refused(refusal)),
        None => renamed(alloc, m, a, b),
    }
}

/// Why a `rename` is refused, if it is.
fn rename_refusal<M: KeyMap>(
    alloc: Global,
    m: &mut M,
    a: &Path,
    b: &Path,
) -> Result<Option<Refusal>, MapFault>
    ensures refusal { M.is_known m.old → (t : Tree) → IsTree t → Represents (M.has m.old) t
        → IfOk result (λ refusal. refusal ≡ refusal_of t (command.Rename a.now b.now)) }
    ensures outside { IfOk result (λ refusal.
        refusal ≡ None → is_under a.now b.now ≡ false) }
    ensures left { IsLeft M.KeyMap m.old m.new }
    ensures cause { HasMapCause (M.fault_count m.old) (M.fault_count m.new)
        (M.last_failed m.new) (M.bad m.new) NeverWorn result }
{
    if a.is_root() {
        return Ok(Some(Refusal::Root));
    }
    if let Some(refusal) = absent(alloc, m, a)? {
        return Ok(Some(refusal));
    }
    if b.is_under(a) {
        return Ok(Some(Refusal::Inside));
    }
    untakeable(alloc, m, a, b)
}

/// What a `rename` that isn't refused sends.
fn renamed<M: KeyMap>(alloc: Global, m: &mut M, a: &Path, b: &Path) -> Result<Plan, MapFault>
    requires { is_under a.now b.now ≡ false }
    ensures plan { M.is_known m.old → (t : Tree) → IsTree t → Represents (M.has m.old) t
        → refusal_of t (command.Rename a.now b.now) ≡ None
        → IfOk result (IsPlan (M.has m.old) t (command.Rename a.now b.now)) }
    ensures kind { IfOk result (IsGraftPlan (key_of a.now) (key_of b.now) false) }
    ensures ready { IfOk result IsReady }
    ensures left { IsLeft M.KeyMap m.old m.new }
    ensures cause { HasMapCause (M.fault_count m.old) (M.fault_count m.new)
        (M.last_failed m.new) (M.bad m.new) NeverWorn result }
{
    match carried_file(alloc, m, a, b)? {
        Some(file) => Ok(Plan::Apply(Messages::from_vec(carried(alloc, a, b, file)?))),
        None => Ok(Plan::Graft {
            s: Bytes::from_vec(a.key(alloc)?),
            d: Bytes::from_vec(b.key(alloc)?),
            keep: false,
        }),
    }
}

/// The file at `a`, where it is one of at most one block and takes the place of nothing or of such
/// a file.
fn carried_file<M: KeyMap>(
    alloc: Global,
    m: &mut M,
    a: &Path,
    b: &Path,
) -> Result<Option<SmallFile>, MapFault>
    ensures found { M.is_known m.old → (t : Tree) → IsTree t → Represents (M.has m.old) t
        → IfOk result (IsCarriedAt (M.has m.old) t a.now b.now) }
    ensures block { IfOk result (λ found. IfSome found HasBlock) }
    ensures left { IsLeft M.KeyMap m.old m.new }
    ensures cause { HasMapCause (M.fault_count m.old) (M.fault_count m.new)
        (M.last_failed m.new) (M.bad m.new) NeverWorn result }
{
    if !has_little(alloc, m, b)? {
        return Ok(None);
    }
    small_file(alloc, m, a)
}
