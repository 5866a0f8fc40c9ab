//! What a truncation sends.

ghost use Rattle.std.specs.Prelude.{◌≡◌, ◌<◌, ◌≤◌, ◌++◌, ◌∷◌, [], length, All, IfOk};
ghost use Rattle.bd_limits.specs.Limits.{block_limit, file_limit};
ghost use Rattle.bd_names.specs.Names.{AreNames};
ghost use Rattle.bd_command.specs.declared.Command.TheVariants as command;
ghost use Rattle.std.specs.FinMap.{get};
ghost use Rattle.bd_model.specs.Tree.{Tree, IsTree};
ghost use Rattle.bd_model.specs.Step.{mode_at};
ghost use Rattle.bd_message.specs.Messages.{IsMessage, IsPlain};
ghost use Rattle.bd_message.specs.KeyMaps.{HasMapCause, NeverWorn};
ghost use Rattle.bd_message.specs.Reads.{IsLeft};
ghost use Rattle.bd_represent.specs.Represents.{Represents, stored};
ghost use Rattle.bd_message.specs.declared.message.Message.TheVariants as message;
ghost use Rattle.bd_represent.specs.EntryKeys.{block_key};
ghost use Rattle.bd_files.specs.Sends.{put_length, cut_past, shortened, truncated};
ghost use Rattle.bd_files.specs.FilePlans.{IsFilePlan, IsReady, size_at};

use crate::lookup::file;
use crate::plan::FilePlan;
use crate::put::put_record;
use crate::reading::stored;
use bd_command::Refusal;
use bd_keys::Bytes;
use bd_limits::{MAX_BLOCK, MAX_FILE};
use bd_message::{KeyMap, MapFault, Message, Messages};
use bd_names::Path;
use bd_records::Record;
use bd_represent::{block_key, blocks_prefix};
use std::alloc::{AllocError, Global};

/// What a truncation to a length sends: the record, and where the file gets shorter a cut of the
/// blocks past the end and the last block, where it holds bytes past the end.
pub fn plan_truncate<M: KeyMap>(
    alloc: Global,
    m: &mut M,
    path: &Path,
    len: u32,
) -> Result<FilePlan, MapFault>
    ensures plan { M.is_known m.old → (t : Tree) → IsTree t → Represents (M.has m.old) t
        → IfOk result (IsFilePlan (truncated (M.has m.old) path.now (mode_at (get t path.now))
        (size_at t path.now) len) (M.has m.old) t (command.Truncate path.now len)) }
    ensures ready { IfOk result IsReady }
    ensures left { IsLeft M.KeyMap m.old m.new }
    ensures cause { HasMapCause (M.fault_count m.old) (M.fault_count m.new)
        (M.last_failed m.new) (M.bad m.new) NeverWorn result }
{
    let (size, mode) = match file(alloc, m, path)? {
        Ok(found) => found,
        Err(refusal) => return Ok(FilePlan::Refused(refusal)),
    };
    if len > MAX_FILE {
        return Ok(FilePlan::Refused(Refusal::TooBig));
    }
    if len >= size {
        let list = longer(alloc, path, mode, len)?;
        return Ok(FilePlan::Apply(Messages::from_vec(list)));
    }
    let last = stored(alloc, m, path, len / MAX_BLOCK as u32)?;
    let list = shorter(alloc, path, mode, len, &last)?;
    Ok(FilePlan::Apply(Messages::from_vec(list)))
}

/// The message of a file that gets no shorter.
fn longer(alloc: Global, path: &Path, mode: u16, len: u32) -> Result<Vec<Message>, AllocError>
    ensures value { IfOk result (λ list. list.items ≡ put_length path.now mode len ∷ []) }
    ensures each { IfOk result (λ list. All IsMessage list.items) }
{
    let mut list = Vec::new(alloc);
    list.push(put_record(alloc, path, Record::File(len, mode))?)?;
    Ok(list)
}

/// The messages of a file that gets shorter, whose last block stores these bytes.
fn shorter(
    alloc: Global,
    path: &Path,
    mode: u16,
    len: u32,
    last: &[u8],
) -> Result<Vec<Message>, AllocError>
    requires { len ≤ file_limit }
    ensures value { IfOk result (λ list. list.items
        ≡ put_length path.now mode len ∷ cut_past path.now len ∷ shortened path.now len last.now) }
    ensures each { IfOk result (λ list. All IsMessage list.items) }
    ensures plain { IfOk result (λ list. All IsPlain list.items) }
    ensures few { IfOk result (λ list. length list.items ≤ 3) }
{
    let mut list = longer(alloc, path, mode, len)?;
    list.push(past(alloc, path, len)?)?;
    let kept = len as usize % MAX_BLOCK;
    if kept > 0 && kept < last.len() {
        list.push(block(alloc, path, len / MAX_BLOCK as u32, &last[..kept])?)?;
    }
    Ok(list)
}

/// The cut of the blocks wholly past the end.
#[tactic(auto, unfolding(bd_wire::specs::Numbers::be))]
fn past(alloc: Global, path: &Path, len: u32) -> Result<Message, AllocError>
    requires { len ≤ file_limit }
    ensures message { IfOk result (λ made. made ≡ cut_past path.now len) }
    ensures is_message { IfOk result IsMessage }
{
    let first = (len + (MAX_BLOCK as u32 - 1)) / MAX_BLOCK as u32;
    Ok(Message::Cut {
        prefix: Bytes::from_vec(blocks_prefix(alloc, path)?),
        from: Bytes::from_slice(alloc, &first.to_be_bytes())?,
    })
}

/// The message that puts a block.
fn block(alloc: Global, path: &Path, i: u32, bytes: &[u8]) -> Result<Message, AllocError>
    requires some { 1 ≤ length bytes.now }
    requires fits { length bytes.now ≤ block_limit }
    ensures message { IfOk result (λ made. made ≡ message.Put (block_key path.now i) bytes.now) }
    ensures is_message { IfOk result IsMessage }
{
    Ok(Message::Put {
        key: Bytes::from_vec(block_key(alloc, path, i)?),
        value: Bytes::from_slice(alloc, bytes)?,
    })
}
