//! Batches and their records.

ghost use Rattle.std.specs.Prelude.{◌↔◌, IsTrue};
ghost use Rattle.bd_log.specs.Batches.{IsLogRecord};

use bd_keys::{Bytes, Items};
use bd_wire::Cursor;

/// Whether bytes are one record: two bytes of length, and that many bytes.
pub fn is_record(bytes: &[u8]) -> bool
    ensures { IsTrue result ↔ IsLogRecord bytes.now }
{
    let mut cursor = Cursor::new(bytes);
    match cursor.text16() {
        Ok(_text) => cursor.left().is_empty(),
        Err(_) => false,
    }
}

/// A batch of records that were committed together.
#[derive(Debug, Drop)]
pub struct Batch {
    /// The first block of its body.
    pub body: u64,
    /// The records in the order in which they were appended, each with its length of two bytes.
    pub records: Items<Bytes>,
}
