//! The messages that overwrite bytes of a file.

ghost use Rattle.std.specs.Prelude.{◌≡◌, ◌+◌, ◌*◌, ◌^◌, ◌<◌, ◌≤◌, length, All, IfOk, OnOk};
ghost use Rattle.bd_limits.specs.Limits.{block_limit, file_limit, write_limit};
ghost use Rattle.bd_message.specs.Messages.{IsMessage, IsPlain};
ghost use Rattle.bd_message.specs.declared.message.Message.TheVariants as message;
ghost use Rattle.bd_represent.specs.EntryKeys.{block_key};
ghost use Rattle.bd_names.specs.Names.{AreNames};
ghost use Rattle.bd_files.specs.Sends.{IsOverwriting, patches_of};

use bd_keys::Bytes;
use bd_limits::MAX_BLOCK;
use bd_message::Message;
use bd_names::Path;
use bd_represent::block_key;
use std::alloc::{AllocError, Global};

/// The messages that overwrite bytes from `off` on within a file, one for each block that is
/// touched.
pub fn patches(
    alloc: Global,
    path: &Path,
    off: u32,
    bytes: &[u8],
) -> Result<Vec<Message>, AllocError>
    requires some { 1 ≤ length bytes.now }
    requires short { length bytes.now ≤ write_limit }
    requires fits { off + length bytes.now ≤ file_limit }
    ensures few { IfOk result (λ list. length list.items ≤ 3) }
    ensures each { IfOk result (λ list. All IsMessage list.items) }
    ensures plain { IfOk result (λ list. All IsPlain list.items) }
    ensures list { IfOk result (λ list. list.items ≡ patches_of 3 path.now off bytes.now) }
    ensures writes { IfOk result (λ list. IsOverwriting path.now off bytes.now list.items) }
{
    let mut list = Vec::new(alloc);
    let mut done = 0;
    while done < bytes.len() {
        let place = off as usize + done;
        let start = place % MAX_BLOCK;
        let count = (bytes.len() - done).min(MAX_BLOCK - start);
        let piece = &bytes[done..done + count];
        list.push(patch(alloc, path, (place / MAX_BLOCK) as u32, start as u16, piece)?)?;
        done += count;
    }
    Ok(list)
}

/// The message that overwrites bytes of a block, from `start` on.
fn patch(
    alloc: Global,
    path: &Path,
    block: u32,
    start: u16,
    piece: &[u8],
) -> Result<Message, AllocError>
    requires some { 1 ≤ length piece.now }
    requires fits { start + length piece.now ≤ block_limit }
    ensures message { IfOk result (λ made.
        made ≡ message.Patch (block_key path.now block) start piece.now) }
    ensures is_message { IfOk result IsMessage }
    ensures names { OnOk result (AreNames path.now) }
{
    Ok(Message::Patch {
        key: Bytes::from_vec(block_key(alloc, path, block)?),
        off: start,
        bytes: Bytes::from_slice(alloc, piece)?,
    })
}
