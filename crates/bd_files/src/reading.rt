//! What a read gives.

ghost use Rattle.std.specs.Prelude.{◌≡◌, ◌-◌, ◌≤◌, List, ℕ, length, take, drop, Some, IfOk};
ghost use Rattle.std.specs.FinMap.{get};
ghost use Rattle.bd_limits.specs.Limits.{read_limit};
ghost use Rattle.bd_names.specs.Names.{AreNames};
ghost use Rattle.bd_command.specs.Command.{IsReply};
ghost use Rattle.bd_command.specs.declared.Command.TheVariants as command;
ghost use Rattle.bd_model.specs.Tree.{Tree, IsTree, FileWith};
ghost use Rattle.bd_model.specs.Step.{step};
ghost use Rattle.bd_message.specs.KeyMaps.{HasMapCause, NeverWorn};
ghost use Rattle.bd_message.specs.Reads.{IsLeft};
ghost use Rattle.bd_represent.specs.Represents.{Represents, stored};

use crate::lookup::file;
use bd_command::Reply;
use bd_keys::{Bytes, resized, tail};
use bd_limits::MAX_BLOCK;
use bd_message::{KeyMap, MapFault};
use bd_names::Path;
use bd_represent::block_key;
use std::alloc::Global;

/// At most `len` bytes of a file from `off` on, fewer at its end.
pub fn read<M: KeyMap>(
    alloc: Global,
    m: &mut M,
    path: &Path,
    off: u32,
    len: u32,
) -> Result<Reply, MapFault>
    requires { len ≤ read_limit }
    ensures reply { M.is_known m.old → (t : Tree) → IsTree t → Represents (M.has m.old) t
        → IfOk result (λ reply. reply ≡ (step t (command.Read path.now off len)).1) }
    ensures small { IfOk result IsReply }
    ensures left { IsLeft M.KeyMap m.old m.new }
    ensures cause { HasMapCause (M.fault_count m.old) (M.fault_count m.new)
        (M.last_failed m.new) (M.bad m.new) NeverWorn result }
{
    let (size, _) = match file(alloc, m, path)? {
        Ok(found) => found,
        Err(refusal) => return Ok(Reply::Refused(refusal)),
    };
    let end = size.min(off.saturating_add(len));
    let bytes = bytes_between(alloc, m, path, off, end)?;
    Ok(Reply::Bytes(Bytes::from_vec(bytes)))
}

/// The bytes of a file from `off` on to `end`, where it has so many.
fn bytes_between<M: KeyMap>(
    alloc: Global,
    m: &mut M,
    path: &Path,
    off: u32,
    end: u32,
) -> Result<Vec<u8>, MapFault>
    requires { AreNames path.now }
    ensures bytes { M.is_known m.old → (t : Tree) (mode : ℕ) (file : List ℕ)
        → Represents (M.has m.old) t → get t path.now ≡ Some (FileWith mode file) → end ≤ length file
        → IfOk result (λ read. read.items ≡ take (end - off) (drop off file)) }
    ensures length { IfOk result (λ read. length read.items ≤ end - off) }
    ensures left { IsLeft M.KeyMap m.old m.new }
    ensures cause { HasMapCause (M.fault_count m.old) (M.fault_count m.new)
        (M.last_failed m.new) (M.bad m.new) NeverWorn result }
{
    let mut read = Vec::new(alloc);
    let mut place = off;
    while place < end {
        let block = stored(alloc, m, path, place / MAX_BLOCK as u32)?;
        let start = place as usize % MAX_BLOCK;
        let count = ((end - place) as usize).min(MAX_BLOCK - start);
        let whole = resized(alloc, &block, start + count)?;
        read.extend_from_slice(tail(&whole, start))?;
        place += count as u32;
    }
    Ok(read)
}

/// What is stored of a block, no bytes where nothing is.
pub fn stored<M: KeyMap>(
    alloc: Global,
    m: &mut M,
    path: &Path,
    block: u32,
) -> Result<Vec<u8>, MapFault>
    ensures bytes { M.is_known m.old
        → IfOk result (λ found. found.items ≡ stored (M.has m.old) path.now block) }
    ensures left { IsLeft M.KeyMap m.old m.new }
    ensures cause { HasMapCause (M.fault_count m.old) (M.fault_count m.new)
        (M.last_failed m.new) (M.bad m.new) NeverWorn result }
{
    let key = block_key(alloc, path, block)?;
    match m.get(&key)? {
        Some(bytes) => Ok(bytes),
        None => Ok(Vec::new(alloc)),
    }
}
