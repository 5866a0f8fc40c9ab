//! What follows from the encodings.
ghost use Rattle.std.specs.Prelude.{◌≡◌};
ghost use Rattle.bd_records.specs.Records.{IsRecord, record_bytes};
ghost use Rattle.bd_records.specs.declared.Record.{Record};

/// No two records have one encoding, so what was written is read again.
pub fn records_are_read_again()
    ensures { (a b : Record) → IsRecord a → IsRecord b → record_bytes a ≡ record_bytes b → a ≡ b }
{}
