//! The messages that put a record.

ghost use Rattle.std.specs.Prelude.{◌≡◌, IfOk, OnOk};
ghost use Rattle.bd_names.specs.Names.{AreNames};
ghost use Rattle.bd_records.specs.Records.{record_bytes};
ghost use Rattle.bd_message.specs.Messages.{IsMessage};
ghost use Rattle.bd_message.specs.declared.message.Message.TheVariants as message;
ghost use Rattle.bd_represent.specs.EntryKeys.{record_key};

use bd_keys::Bytes;
use bd_message::Message;
use bd_names::Path;
use bd_records::{Record, encoded_record};
use bd_represent::record_key;
use std::alloc::{AllocError, Global};

/// The message that puts the record of a path.
#[tactic(auto, using(bd_records::proofs::Lengths::record_sizes))]
pub fn put_record(alloc: Global, path: &Path, entry: Record) -> Result<Message, AllocError>
    ensures message { IfOk result (λ made.
        made ≡ message.Put (record_key path.now) (record_bytes entry)) }
    ensures is_message { IfOk result IsMessage }
    ensures names { OnOk result (AreNames path.now) }
{
    Ok(Message::Put {
        key: Bytes::from_vec(record_key(alloc, path)?),
        value: Bytes::from_vec(encoded_record(alloc, entry)?),
    })
}
