//! What a write sends.

ghost use Rattle.std.specs.Prelude.{◌≡◌, ◌+◌, ◌<◌, ◌≤◌, List, ℕ, length, Some, All, IfOk};
ghost use Rattle.std.specs.FinMap.{get, insert};
ghost use Rattle.bd_limits.specs.Limits.{file_limit, write_limit};
ghost use Rattle.bd_keys.specs.Edits.{overwritten};
ghost use Rattle.bd_names.specs.Names.{AreNames};
ghost use Rattle.bd_command.specs.declared.Command.TheVariants as command;
ghost use Rattle.bd_model.specs.Tree.{Tree, IsTree, FileWith};
ghost use Rattle.bd_model.specs.Step.{mode_at};
ghost use Rattle.bd_message.specs.Messages.{IsMessage, IsPlain};
ghost use Rattle.bd_message.specs.KeyMaps.{At, HasMapCause, NeverWorn};
ghost use Rattle.bd_message.specs.Reads.{IsLeft};
ghost use Rattle.bd_represent.specs.Represents.{Represents};
ghost use Rattle.bd_represent.specs.Plans.{Makes};
ghost use Rattle.bd_files.specs.Sends.{growth, written};
ghost use Rattle.bd_files.specs.FilePlans.{IsFilePlan, IsReady, size_at};

use crate::lookup::file;
use crate::patches::patches;
use crate::plan::FilePlan;
use crate::put::put_record;
use bd_command::Refusal;
use bd_limits::MAX_FILE;
use bd_message::{KeyMap, MapFault, Message, Messages};
use bd_names::Path;
use bd_records::Record;
use std::alloc::{AllocError, Global};

/// What a write of bytes from `off` on sends: the record where the file grows, and a patch for each
/// block that is touched.
pub fn plan_write<M: KeyMap>(
    alloc: Global,
    m: &mut M,
    path: &Path,
    off: u32,
    bytes: &[u8],
) -> Result<FilePlan, MapFault>
    requires some { 1 ≤ length bytes.now }
    requires short { length bytes.now ≤ write_limit }
    ensures plan { M.is_known m.old → (t : Tree) → IsTree t → Represents (M.has m.old) t
        → IfOk result (IsFilePlan (written path.now (mode_at (get t path.now))
        (size_at t path.now) off bytes.now) (M.has m.old) t (command.Write path.now off bytes.now)) }
    ensures ready { IfOk result IsReady }
    ensures left { IsLeft M.KeyMap m.old m.new }
    ensures cause { HasMapCause (M.fault_count m.old) (M.fault_count m.new)
        (M.last_failed m.new) (M.bad m.new) NeverWorn result }
{
    let (len, mode) = match file(alloc, m, path)? {
        Ok(found) => found,
        Err(refusal) => return Ok(FilePlan::Refused(refusal)),
    };
    if off > MAX_FILE - bytes.len() as u32 {
        return Ok(FilePlan::Refused(Refusal::TooBig));
    }
    let list = messages(alloc, path, mode, len, off, bytes)?;
    Ok(FilePlan::Apply(Messages::from_vec(list)))
}

/// The messages of a write into a file of `len` bytes.
fn messages(
    alloc: Global,
    path: &Path,
    mode: u16,
    len: u32,
    off: u32,
    bytes: &[u8],
) -> Result<Vec<Message>, AllocError>
    requires names { AreNames path.now }
    requires some { 1 ≤ length bytes.now }
    requires short { length bytes.now ≤ write_limit }
    requires fits { off + length bytes.now ≤ file_limit }
    ensures few { IfOk result (λ list. length list.items ≤ 4) }
    ensures each { IfOk result (λ list. All IsMessage list.items) }
    ensures plain { IfOk result (λ list. All IsPlain list.items) }
    ensures list { IfOk result (λ list. list.items ≡ written path.now mode len off bytes.now) }
    ensures makes { IfOk result (λ list. (at : At) (t : Tree) (file : List ℕ) → Represents at t
        → get t path.now ≡ Some (FileWith mode file) → len ≡ length file
        → Makes at list.items (insert t path.now (FileWith mode (overwritten file off bytes.now)))) }
{
    let mut list = growth(alloc, path, mode, len, off + bytes.len() as u32)?;
    list.append(&mut patches(alloc, path, off, bytes)?)?;
    Ok(list)
}

/// The new record, where a file grows.
fn growth(
    alloc: Global,
    path: &Path,
    mode: u16,
    len: u32,
    end: u32,
) -> Result<Vec<Message>, AllocError>
    ensures value { IfOk result (λ list. list.items ≡ growth path.now mode len end) }
    ensures few { IfOk result (λ list. length list.items ≤ 1) }
    ensures each { IfOk result (λ list. All IsMessage list.items) }
    ensures plain { IfOk result (λ list. All IsPlain list.items) }
{
    let mut list = Vec::new(alloc);
    if len < end {
        list.push(put_record(alloc, path, Record::File(end, mode))?)?;
    }
    Ok(list)
}
