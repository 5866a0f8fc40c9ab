//! What each change of a directory sends, but for clones and renames.

ghost use Rattle.std.specs.Prelude.{◌≡◌, IfOk, OnOk, Some};
ghost use Rattle.bd_command.specs.declared.Command.TheVariants as command;
ghost use Rattle.bd_model.specs.Tree.{Entry, Tree, IsTree};
ghost use Rattle.bd_model.specs.Step.{with_mode};
ghost use Rattle.bd_message.specs.KeyMaps.{HasMapCause, NeverWorn};
ghost use Rattle.bd_message.specs.Reads.{IsLeft};
ghost use Rattle.bd_represent.specs.Represents.{record_of, Represents};
ghost use Rattle.bd_dirs.specs.Plans.{IsPlan, IsNewPlan, IsReady, SendsMessages};

use crate::lookups::{absent, unmakeable};
use crate::plan::Plan;
use bd_command::Refusal;
use bd_files::{put_record, record};
use bd_keys::Bytes;
use bd_message::{KeyMap, MapFault, Message, Messages};
use bd_names::Path;
use bd_records::Record;
use std::alloc::Global;

/// What a `mkdir` sends.
pub fn mkdir<M: KeyMap>(alloc: Global, m: &mut M, path: &Path) -> Result<Plan, MapFault>
    ensures plan { M.is_known m.old → (t : Tree) → IsTree t → Represents (M.has m.old) t
        → IfOk result (IsPlan (M.has m.old) t (command.Mkdir path.now)) }
    ensures kind { IfOk result SendsMessages }
    ensures ready { IfOk result IsReady }
    ensures left { IsLeft M.KeyMap m.old m.new }
    ensures cause { HasMapCause (M.fault_count m.old) (M.fault_count m.new)
        (M.last_failed m.new) (M.bad m.new) NeverWorn result }
{
    make(alloc, m, path, Record::Dir(0))
}

/// What a `create` sends.
pub fn create<M: KeyMap>(alloc: Global, m: &mut M, path: &Path) -> Result<Plan, MapFault>
    ensures plan { M.is_known m.old → (t : Tree) → IsTree t → Represents (M.has m.old) t
        → IfOk result (IsPlan (M.has m.old) t (command.Create path.now)) }
    ensures kind { IfOk result SendsMessages }
    ensures ready { IfOk result IsReady }
    ensures left { IsLeft M.KeyMap m.old m.new }
    ensures cause { HasMapCause (M.fault_count m.old) (M.fault_count m.new)
        (M.last_failed m.new) (M.bad m.new) NeverWorn result }
{
    make(alloc, m, path, Record::File(0, 0))
}

/// What making an entry sends: its record.
fn make<M: KeyMap>(alloc: Global, m: &mut M, path: &Path, entry: Record) -> Result<Plan, MapFault>
    ensures plan { M.is_known m.old → (t : Tree) → IsTree t → Represents (M.has m.old) t
        → IfOk result (IsNewPlan (M.has m.old) t path.now entry) }
    ensures kind { IfOk result SendsMessages }
    ensures ready { IfOk result IsReady }
    ensures left { IsLeft M.KeyMap m.old m.new }
    ensures cause { HasMapCause (M.fault_count m.old) (M.fault_count m.new)
        (M.last_failed m.new) (M.bad m.new) NeverWorn result }
{
    if let Some(refusal) = unmakeable(alloc, m, path)? {
        return Ok(Plan::Refused(refusal));
    }
    let mut list = Vec::new(alloc);
    list.push(put_record(alloc, path, entry)?)?;
    Ok(Plan::Apply(Messages::from_vec(list)))
}

/// What a `chmod` sends: the record with the mode.
pub fn chmod<M: KeyMap>(alloc: Global, m: &mut M, path: &Path, mode: u16) -> Result<Plan, MapFault>
    ensures plan { M.is_known m.old → (t : Tree) → IsTree t → Represents (M.has m.old) t
        → IfOk result (IsPlan (M.has m.old) t (command.Chmod path.now mode)) }
    ensures kind { IfOk result SendsMessages }
    ensures ready { IfOk result IsReady }
    ensures left { IsLeft M.KeyMap m.old m.new }
    ensures cause { HasMapCause (M.fault_count m.old) (M.fault_count m.new)
        (M.last_failed m.new) (M.bad m.new) NeverWorn result }
{
    let Some(found) = record(alloc, m, path)? else {
        return Ok(Plan::Refused(Refusal::NotFound));
    };
    let mut list = Vec::new(alloc);
    list.push(put_record(alloc, path, with_mode(found, mode))?)?;
    Ok(Plan::Apply(Messages::from_vec(list)))
}

/// A record with another mode.
fn with_mode(found: Record, mode: u16) -> Record
    ensures { (e : Entry) → record_of e ≡ found → record_of (with_mode mode (Some e)) ≡ result }
{
    match found {
        Record::Dir(_) => Record::Dir(mode),
        Record::File(len, _) => Record::File(len, mode),
    }
}

/// What a `remove` sends: a cut of all keys of the subtree.
pub fn remove<M: KeyMap>(alloc: Global, m: &mut M, path: &Path) -> Result<Plan, MapFault>
    ensures plan { M.is_known m.old → (t : Tree) → IsTree t → Represents (M.has m.old) t
        → IfOk result (IsPlan (M.has m.old) t (command.Remove path.now)) }
    ensures kind { IfOk result SendsMessages }
    ensures ready { IfOk result IsReady }
    ensures left { IsLeft M.KeyMap m.old m.new }
    ensures cause { HasMapCause (M.fault_count m.old) (M.fault_count m.new)
        (M.last_failed m.new) (M.bad m.new) NeverWorn result }
{
    if path.is_root() {
        return Ok(Plan::Refused(Refusal::Root));
    }
    if let Some(refusal) = absent(alloc, m, path)? {
        return Ok(Plan::Refused(refusal));
    }
    let mut list = Vec::new(alloc);
    list.push(Message::Cut {
        prefix: Bytes::from_vec(path.key(alloc)?),
        from: Bytes::from_vec(Vec::new(alloc)),
    })?;
    Ok(Plan::Apply(Messages::from_vec(list)))
}
