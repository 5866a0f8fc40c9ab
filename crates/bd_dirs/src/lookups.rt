//! What stands at a path, and why nothing can be made there.

ghost use Rattle.std.specs.Prelude.{◌≡◌, IfOk, OnOk};
ghost use Rattle.std.specs.FinMap.{get};
ghost use Rattle.std.specs.Option.{option_and_then};
ghost use Rattle.bd_names.specs.Names.{AreNames, parent_of};
ghost use Rattle.bd_command.specs.Command.{IsReply};
ghost use Rattle.bd_command.specs.declared.Command.TheVariants as command;
ghost use Rattle.bd_model.specs.Tree.{Tree, IsTree};
ghost use Rattle.bd_model.specs.Step.{step, absent_refusal, new_refusal, target_refusal, parent_refusal, has_file, is_taken};
ghost use Rattle.bd_message.specs.KeyMaps.{HasMapCause, NeverWorn};
ghost use Rattle.bd_message.specs.Reads.{IsLeft};
ghost use Rattle.bd_represent.specs.Represents.{Represents};

use bd_command::{Refusal, Reply};
use bd_files::record;
use bd_message::{KeyMap, MapFault};
use bd_names::Path;
use bd_records::Record;
use std::alloc::Global;

/// Whether a path is a directory's or a file's, its mode, and how long the file is.
pub fn stat<M: KeyMap>(alloc: Global, m: &mut M, path: &Path) -> Result<Reply, MapFault>
    ensures reply { M.is_known m.old → (t : Tree) → IsTree t → Represents (M.has m.old) t
        → IfOk result (λ reply. reply ≡ (step t (command.Stat path.now)).1) }
    ensures small { IfOk result IsReply }
    ensures left { IsLeft M.KeyMap m.old m.new }
    ensures cause { HasMapCause (M.fault_count m.old) (M.fault_count m.new)
        (M.last_failed m.new) (M.bad m.new) NeverWorn result }
{
    match record(alloc, m, path)? {
        None => Ok(Reply::Refused(Refusal::NotFound)),
        Some(Record::Dir(mode)) => Ok(Reply::Dir(mode)),
        Some(Record::File(len, mode)) => Ok(Reply::File(len, mode)),
    }
}

/// Nothing is at the path.
pub fn absent<M: KeyMap>(alloc: Global, m: &mut M, path: &Path) -> Result<Option<Refusal>, MapFault>
    ensures refusal { M.is_known m.old → (t : Tree) → IsTree t → Represents (M.has m.old) t
        → IfOk result (λ refusal. refusal ≡ absent_refusal (get t path.now)) }
    ensures names { OnOk result (AreNames path.now) }
    ensures left { IsLeft M.KeyMap m.old m.new }
    ensures cause { HasMapCause (M.fault_count m.old) (M.fault_count m.new)
        (M.last_failed m.new) (M.bad m.new) NeverWorn result }
{
    match record(alloc, m, path)? {
        None => Ok(Some(Refusal::NotFound)),
        Some(_) => Ok(None),
    }
}

/// A new entry can't be made at the path.
pub fn unmakeable<M: KeyMap>(
    alloc: Global,
    m: &mut M,
    path: &Path,
) -> Result<Option<Refusal>, MapFault>
    ensures refusal { M.is_known m.old → (t : Tree) → IsTree t → Represents (M.has m.old) t
        → IfOk result (λ refusal. refusal ≡ new_refusal t path.now) }
    ensures names { OnOk result (AreNames path.now) }
    ensures left { IsLeft M.KeyMap m.old m.new }
    ensures cause { HasMapCause (M.fault_count m.old) (M.fault_count m.new)
        (M.last_failed m.new) (M.bad m.new) NeverWorn result }
{
    if record(alloc, m, path)?.is_some() {
        return Ok(Some(Refusal::Exists));
    }
    above(alloc, m, path)
}

/// What is at `a` can't be moved to `b`.
pub fn untakeable<M: KeyMap>(
    alloc: Global,
    m: &mut M,
    a: &Path,
    b: &Path,
) -> Result<Option<Refusal>, MapFault>
    ensures refusal { M.is_known m.old → (t : Tree) → IsTree t → Represents (M.has m.old) t
        → IfOk result (λ refusal. refusal ≡ target_refusal t a.now b.now) }
    ensures names { OnOk result (AreNames b.now) }
    ensures left { IsLeft M.KeyMap m.old m.new }
    ensures cause { HasMapCause (M.fault_count m.old) (M.fault_count m.new)
        (M.last_failed m.new) (M.bad m.new) NeverWorn result }
{
    let taken = is_taken(alloc, m, a, b)?;
    if taken {
        return Ok(Some(Refusal::Exists));
    }
    above(alloc, m, b)
}

/// What is at `b` doesn't give way to what is at `a`: only a file does, and only to a file.
fn is_taken<M: KeyMap>(alloc: Global, m: &mut M, a: &Path, b: &Path) -> Result<bool, MapFault>
    ensures taken { M.is_known m.old → (t : Tree) → IsTree t → Represents (M.has m.old) t
        → IfOk result (λ taken. taken ≡ is_taken (get t a.now) (get t b.now)) }
    ensures names { OnOk result (AreNames b.now) }
    ensures left { IsLeft M.KeyMap m.old m.new }
    ensures cause { HasMapCause (M.fault_count m.old) (M.fault_count m.new)
        (M.last_failed m.new) (M.bad m.new) NeverWorn result }
{
    match record(alloc, m, b)? {
        None => Ok(false),
        Some(Record::Dir(_)) => Ok(true),
        Some(Record::File(..)) => Ok(!is_file(alloc, m, a)?),
    }
}

/// Whether a file is at the path.
fn is_file<M: KeyMap>(alloc: Global, m: &mut M, path: &Path) -> Result<bool, MapFault>
    ensures file { M.is_known m.old → (t : Tree) → IsTree t → Represents (M.has m.old) t
        → IfOk result (λ found. found ≡ has_file (get t path.now)) }
    ensures left { IsLeft M.KeyMap m.old m.new }
    ensures cause { HasMapCause (M.fault_count m.old) (M.fault_count m.new)
        (M.last_failed m.new) (M.bad m.new) NeverWorn result }
{
    match record(alloc, m, path)? {
        None | Some(Record::Dir(_)) => Ok(false),
        Some(Record::File(..)) => Ok(true),
    }
}

/// No directory is above the path.
fn above<M: KeyMap>(alloc: Global, m: &mut M, path: &Path) -> Result<Option<Refusal>, MapFault>
    ensures refusal { M.is_known m.old → (t : Tree) → IsTree t → Represents (M.has m.old) t
        → IfOk result (λ refusal.
        refusal ≡ parent_refusal (option_and_then (get t) (parent_of path.now))) }
    ensures left { IsLeft M.KeyMap m.old m.new }
    ensures cause { HasMapCause (M.fault_count m.old) (M.fault_count m.new)
        (M.last_failed m.new) (M.bad m.new) NeverWorn result }
{
    match path.parent(alloc)? {
        None => Ok(Some(Refusal::NoParent)),
        Some(parent) => no_parent(alloc, m, &parent),
    }
}

/// No directory is at the path of a parent.
fn no_parent<M: KeyMap>(alloc: Global, m: &mut M, path: &Path) -> Result<Option<Refusal>, MapFault>
    ensures refusal { M.is_known m.old → (t : Tree) → IsTree t → Represents (M.has m.old) t
        → IfOk result (λ refusal. refusal ≡ parent_refusal (get t path.now)) }
    ensures left { IsLeft M.KeyMap m.old m.new }
    ensures cause { HasMapCause (M.fault_count m.old) (M.fault_count m.new)
        (M.last_failed m.new) (M.bad m.new) NeverWorn result }
{
    match record(alloc, m, path)? {
        None => Ok(Some(Refusal::NoParent)),
        Some(Record::Dir(_)) => Ok(None),
        Some(Record::File(..)) => Ok(Some(Refusal::NotDir)),
    }
}
