//! Files of at most one block, which messages put at another path.

ghost use Rattle.std.specs.Prelude.{◌≡◌, IfOk, IfSome, OnOk};
ghost use Rattle.std.specs.FinMap.{get};
ghost use Rattle.bd_names.specs.Names.{AreNames};
ghost use Rattle.bd_model.specs.Tree.{Tree, IsTree};
ghost use Rattle.bd_message.specs.Messages.{IsMessage, IsPlain};
ghost use Rattle.bd_message.specs.declared.message.Message.TheVariants as message;
ghost use Rattle.bd_message.specs.KeyMaps.{HasMapCause, NeverWorn};
ghost use Rattle.bd_message.specs.Reads.{IsLeft};
ghost use Rattle.bd_records.specs.Records.{IsBlock};
ghost use Rattle.bd_represent.specs.Plans.{IsSmallBatch};
ghost use Rattle.bd_represent.specs.Represents.{Represents};
ghost use Rattle.bd_files.specs.Smalls.{has_little, IsSmallAt, HasBlock, put_first, copied, carried};

use crate::lookup::record;
use crate::put::put_record;
use bd_keys::Bytes;
use bd_limits::MAX_BLOCK;
use bd_message::{KeyMap, MapFault, Message};
use bd_names::Path;
use bd_records::{Record, is_block};
use bd_represent::{block_key, record_key};
use std::alloc::{AllocError, Global};

/// A file of at most one block, and what is stored of that.
#[derive(Debug, Drop)]
pub struct SmallFile {
    len: u32,
    mode: u16,
    block: Option<Bytes>,
}

/// The file at a path, where it is one of at most one block.
pub fn small_file<M: KeyMap>(
    alloc: Global,
    m: &mut M,
    path: &Path,
) -> Result<Option<SmallFile>, MapFault>
    ensures found { M.is_known m.old → (t : Tree) → IsTree t → Represents (M.has m.old) t
        → IfOk result (IsSmallAt (M.has m.old) path.now (get t path.now)) }
    ensures block { IfOk result (λ found. IfSome found HasBlock) }
    ensures names { OnOk result (AreNames path.now) }
    ensures left { IsLeft M.KeyMap m.old m.new }
    ensures cause { HasMapCause (M.fault_count m.old) (M.fault_count m.new)
        (M.last_failed m.new) (M.bad m.new) NeverWorn result }
{
    let Some(Record::File(len, mode)) = record(alloc, m, path)? else {
        return Ok(None);
    };
    if len > MAX_BLOCK as u32 {
        return Ok(None);
    }
    let key = block_key(alloc, path, 0)?;
    let Some(bytes) = m.get(&key)? else {
        return Ok(Some(SmallFile {
            len,
            mode,
            block: None,
        }));
    };
    if !is_block(&bytes) {
        return Ok(None);
    }
    Ok(Some(SmallFile {
        len,
        mode,
        block: Some(Bytes::from_vec(bytes)),
    }))
}

/// Whether nothing is at a path, or a file of at most one block.
pub fn has_little<M: KeyMap>(alloc: Global, m: &mut M, path: &Path) -> Result<bool, MapFault>
    ensures little { M.is_known m.old → (t : Tree) → IsTree t → Represents (M.has m.old) t
        → IfOk result (λ little. little ≡ has_little (get t path.now)) }
    ensures names { OnOk result (AreNames path.now) }
    ensures left { IsLeft M.KeyMap m.old m.new }
    ensures cause { HasMapCause (M.fault_count m.old) (M.fault_count m.new)
        (M.last_failed m.new) (M.bad m.new) NeverWorn result }
{
    match record(alloc, m, path)? {
        None => Ok(true),
        Some(Record::Dir(_)) => Ok(false),
        Some(Record::File(len, _)) => Ok(len <= MAX_BLOCK as u32),
    }
}

/// The messages that put such a file at a path where one is, or nothing.
pub fn copied(alloc: Global, path: &Path, file: SmallFile) -> Result<Vec<Message>, AllocError>
    requires { HasBlock file }
    ensures list { IfOk result (λ list. list.items
        ≡ copied path.now file.mode file.len file.block) }
    ensures batch { IfOk result (λ list. IsSmallBatch list.items) }
    ensures names { OnOk result (AreNames path.now) }
{
    let mut list = Vec::new(alloc);
    list.push(put_record(alloc, path, Record::File(file.len, file.mode))?)?;
    list.push(put_first(alloc, path, file.block)?)?;
    Ok(list)
}

/// The same, and those before them that take it from another path.
pub fn carried(
    alloc: Global,
    a: &Path,
    b: &Path,
    file: SmallFile,
) -> Result<Vec<Message>, AllocError>
    requires { HasBlock file }
    ensures list { IfOk result (λ list. list.items
        ≡ carried a.now b.now file.mode file.len file.block) }
    ensures batch { IfOk result (λ list. IsSmallBatch list.items) }
    ensures names { OnOk result (AreNames a.now × AreNames b.now) }
{
    let mut list = Vec::new(alloc);
    list.push(deleted(record_key(alloc, a)?))?;
    list.push(deleted(block_key(alloc, a, 0)?))?;
    list.push(put_record(alloc, b, Record::File(file.len, file.mode))?)?;
    list.push(put_first(alloc, b, file.block)?)?;
    Ok(list)
}

/// The message after which nothing stands at a key.
fn deleted(key: Vec<u8>) -> Message
    ensures { result ≡ message.Del key.items }
{
    Message::Del {
        key: Bytes::from_vec(key),
    }
}

/// The message after which this is stored of the first block of a file, or nothing.
fn put_first(alloc: Global, path: &Path, block: Option<Bytes>) -> Result<Message, AllocError>
    requires { IfSome block IsBlock }
    ensures message { IfOk result (λ made. made ≡ put_first path.now block) }
    ensures is_message { IfOk result IsMessage }
    ensures plain { IfOk result IsPlain }
{
    let key = block_key(alloc, path, 0)?;
    match block {
        None => Ok(deleted(key)),
        Some(value) => Ok(Message::Put {
            key: Bytes::from_vec(key),
            value,
        }),
    }
}
