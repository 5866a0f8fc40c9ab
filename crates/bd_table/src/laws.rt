//! What follows from the encoding.

ghost use Rattle.std.specs.Prelude.{◌≡◌, ℕ, List, length};
ghost use Rattle.bd_table.specs.Tables.{IsTableAt, table_bytes};
ghost use Rattle.bd_table.specs.declared.table.Table.{Table};

/// No two tables have one encoding, so what was written is read again.
pub fn tables_are_read_again()
    ensures { (slots : ℕ) (at : List ℕ) (a b : Table) → IsTableAt slots at a → IsTableAt slots at b
        → table_bytes (length at) a ≡ table_bytes (length at) b → a ≡ b }
{}
