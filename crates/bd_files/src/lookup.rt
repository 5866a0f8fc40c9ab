//! The record of a path.

ghost use Rattle.std.specs.Prelude.{◌≡◌, IfOk, OnOk};
ghost use Rattle.std.specs.Option.{option_map};
ghost use Rattle.std.specs.FinMap.{get};
ghost use Rattle.bd_names.specs.Names.{AreNames};
ghost use Rattle.bd_model.specs.Tree.{Tree, IsTree};
ghost use Rattle.bd_message.specs.KeyMaps.{HasMapCause, NeverWorn};
ghost use Rattle.bd_message.specs.Reads.{IsLeft};
ghost use Rattle.bd_represent.specs.Represents.{Represents, record_of};
ghost use Rattle.bd_files.specs.Files.{IsFileOf};

use bd_command::Refusal;
use bd_message::{KeyMap, MapFault};
use bd_names::Path;
use bd_records::{Record, read_record};
use bd_represent::record_key;
use std::alloc::Global;

/// The record of a path, `None` where nothing is there.
pub fn record<M: KeyMap>(alloc: Global, m: &mut M, path: &Path) -> Result<Option<Record>, MapFault>
    ensures record { M.is_known m.old → (t : Tree) → IsTree t → Represents (M.has m.old) t
        → IfOk result (λ found. found ≡ option_map record_of (get t path.now)) }
    ensures names { OnOk result (AreNames path.now) }
    ensures left { IsLeft M.KeyMap m.old m.new }
    ensures cause { HasMapCause (M.fault_count m.old) (M.fault_count m.new)
        (M.last_failed m.new) (M.bad m.new) NeverWorn result }
{
    let key = record_key(alloc, path)?;
    match m.get(&key)? {
        Some(value) => Ok(read_record(&value)),
        None => Ok(None),
    }
}

/// The length in bytes and the mode of the file at a path, or why there is none.
pub fn file<M: KeyMap>(
    alloc: Global,
    m: &mut M,
    path: &Path,
) -> Result<Result<(u32, u16), Refusal>, MapFault>
    ensures found { M.is_known m.old → (t : Tree) → IsTree t → Represents (M.has m.old) t
        → IfOk result (IsFileOf (get t path.now)) }
    ensures names { OnOk result (AreNames path.now) }
    ensures left { IsLeft M.KeyMap m.old m.new }
    ensures cause { HasMapCause (M.fault_count m.old) (M.fault_count m.new)
        (M.last_failed m.new) (M.bad m.new) NeverWorn result }
{
    match record(alloc, m, path)? {
        None => Ok(Err(Refusal::NotFound)),
        Some(Record::Dir(_)) => Ok(Err(Refusal::IsDir)),
        Some(Record::File(len, mode)) => Ok(Ok((len, mode))),
    }
}
