// Where the parts of an image stand, and how long they are.
ghost use Rattle.std.specs.Prelude.{◌≡◌};
ghost use Rattle.bd_limits.specs.Places.{first_log_block, second_log_block, table_header_size, table_entry_size};

/// The first block of the first half of the log, after the superblocks.
pub const FIRST_LOG_BLOCK: u64 = 4;

/// The first block of the second half of the log.
pub const SECOND_LOG_BLOCK: u64 = 68;

/// The bytes of a table before its entries.
pub const TABLE_HEADER_SIZE: usize = 32;

/// The bytes of a table's entry.
pub const TABLE_ENTRY_SIZE: usize = 24;

/// Each constant is the number that definitions and contracts name.
pub fn law_of_places()
    ensures first_log_block { FIRST_LOG_BLOCK ≡ first_log_block }
    ensures second_log_block { SECOND_LOG_BLOCK ≡ second_log_block }
    ensures table_header { TABLE_HEADER_SIZE ≡ table_header_size }
    ensures table_entry { TABLE_ENTRY_SIZE ≡ table_entry_size }
{}
