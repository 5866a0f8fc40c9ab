//! The limits of the file system, each under one name in code and one in definitions.
//! The layers above use the constants, and in contracts the names of `specs/Limits` and
//! `specs/Places`, which `law_of_limits` and `law_of_places` tie to them.
#![tactic(auto)]

mod places;

ghost use Rattle.std.specs.Prelude.{◌≡◌};
ghost use Rattle.bd_limits.specs.Limits.{path_limit, name_limit, key_limit, block_limit, file_limit, mode_limit, write_limit, read_limit, listing_limit, line_limit, script_limit, piece_limit, buffer_limit, leaf_limit, level_limit, edge_limit, soft_limit, batch_limit, abundant_limit, late_limit, flush_limit, base_size, room_edges, full_edges, graft_size, cached_limit, slot_minimum, slot_limit, slot_size, block_size, first_slot_block, slot_blocks, table_slot_limit, log_blocks, body_block_limit};

pub use places::{
    FIRST_LOG_BLOCK, SECOND_LOG_BLOCK, TABLE_ENTRY_SIZE, TABLE_HEADER_SIZE, law_of_places,
};

/// The most bytes of a path in a command.
pub const MAX_PATH: usize = 512;

/// The most bytes of a name.
pub const MAX_NAME: usize = 255;

/// The most bytes of a key that is stored, and of a prefix of keys.
pub const MAX_KEY: usize = 518;

/// The most bytes of a file that are stored under one key.
pub const MAX_BLOCK: usize = 1024;

/// The most bytes of a file.
pub const MAX_FILE: u32 = 1_073_741_824;

/// The greatest mode of a file or a directory: twelve bits, four octal digits.
pub const MAX_MODE: u16 = 4095;

/// The most bytes that one `write` carries.
pub const MAX_WRITE: usize = 2048;

/// The most bytes that one `read` asks for.
pub const MAX_READ: u32 = 4096;

/// The most names that one `list` gives.
pub const MAX_LISTING: usize = 100;

/// The most bytes of a line, without its newline.
pub const MAX_LINE: usize = 8192;

/// The most bytes of a script.
pub const MAX_SCRIPT: usize = 16_777_216;

/// The most bytes of a script that are taken at once.
pub const MAX_PIECE: usize = 4096;

/// The most bytes of messages that wait in a node.
pub const MAX_BUFFER: usize = 32_768;

/// The most bytes of a leaf's entries.
pub const MAX_LEAF: usize = 40_960;

/// The greatest level of a node.
pub const MAX_LEVEL: u32 = 1000;

/// The most edges of a node.
pub const MAX_EDGES: usize = 16;

/// More bytes of waiting messages than these are flushed.
pub const SOFT_BUFFER: usize = 16_384;

/// The most bytes of messages that one push moves.
pub const MAX_BATCH: usize = 16_384;

/// From this many bytes on that are pending for it, a shared child is copied.
pub const ABUNDANT: usize = 1024;

/// Up to this many bytes that wait in the root, a `remove` or `truncate` flushes nothing.
pub const LATE_ROOT: usize = 24_576;

/// The most flush steps of one command.
pub const MAX_FLUSHES: usize = 65_536;

/// What a message or an entry counts, in bytes, beside its own bytes.
pub const BASE_SIZE: usize = 16;

/// A node with at most so many edges has room for the halves of a child.
pub const ROOM_EDGES: usize = 14;

/// A node with so many edges or more is split before anything goes below it.
pub const FULL_EDGES: usize = 15;

/// The bytes for which there is room in the root before a graft.
pub const GRAFT_SIZE: usize = 1600;

/// The most nodes that are cached: kept in memory since they were read from slots or written there.
pub const MAX_CACHED: usize = 64;

/// The fewest slots of an image.
pub const MIN_SLOTS: u32 = 24;

/// The most slots of an image.
pub const MAX_SLOTS: u32 = 65_536;

/// The bytes of a slot, which holds one node or a part of the table.
pub const SLOT_SIZE: usize = 65_536;

/// The bytes of a block of a device.
pub const BLOCK_SIZE: usize = 4096;

/// The blocks of an image before its first slot: superblocks and logs.
pub const FIRST_SLOT_BLOCK: u64 = 132;

/// The blocks of a slot.
pub const SLOT_BLOCKS: u64 = 16;

/// The most slots of a table: those of one with an entry for each slot.
pub const MAX_TABLE_SLOTS: usize = 25;

/// The blocks of a half of the log.
pub const LOG_BLOCKS: u64 = 64;

/// The most blocks of the body of a batch in the log: those of a half without the commit blocks
/// around it.
pub const MAX_BODY_BLOCKS: u64 = 62;

/// Each constant is the limit that definitions and contracts name.
pub fn law_of_limits()
    ensures path { MAX_PATH ≡ path_limit }
    ensures name { MAX_NAME ≡ name_limit }
    ensures key { MAX_KEY ≡ key_limit }
    ensures block { MAX_BLOCK ≡ block_limit }
    ensures file { MAX_FILE ≡ file_limit }
    ensures mode { MAX_MODE ≡ mode_limit }
    ensures write { MAX_WRITE ≡ write_limit }
    ensures read { MAX_READ ≡ read_limit }
    ensures listing { MAX_LISTING ≡ listing_limit }
    ensures line { MAX_LINE ≡ line_limit }
    ensures script { MAX_SCRIPT ≡ script_limit }
    ensures piece { MAX_PIECE ≡ piece_limit }
    ensures buffer { MAX_BUFFER ≡ buffer_limit }
    ensures leaf { MAX_LEAF ≡ leaf_limit }
    ensures level { MAX_LEVEL ≡ level_limit }
    ensures edge { MAX_EDGES ≡ edge_limit }
    ensures soft { SOFT_BUFFER ≡ soft_limit }
    ensures batch { MAX_BATCH ≡ batch_limit }
    ensures abundant { ABUNDANT ≡ abundant_limit }
    ensures late { LATE_ROOT ≡ late_limit }
    ensures flush { MAX_FLUSHES ≡ flush_limit }
    ensures base { BASE_SIZE ≡ base_size }
    ensures room { ROOM_EDGES ≡ room_edges }
    ensures full { FULL_EDGES ≡ full_edges }
    ensures graft { GRAFT_SIZE ≡ graft_size }
    ensures cached { MAX_CACHED ≡ cached_limit }
    ensures fewest_slots { MIN_SLOTS ≡ slot_minimum }
    ensures slot { MAX_SLOTS ≡ slot_limit }
    ensures slot_size { SLOT_SIZE ≡ slot_size }
    ensures block_size { BLOCK_SIZE ≡ block_size }
    ensures first_slot_block { FIRST_SLOT_BLOCK ≡ first_slot_block }
    ensures slot_blocks { SLOT_BLOCKS ≡ slot_blocks }
    ensures table_slots { MAX_TABLE_SLOTS ≡ table_slot_limit }
    ensures log_blocks { LOG_BLOCKS ≡ log_blocks }
    ensures body_blocks { MAX_BODY_BLOCKS ≡ body_block_limit }
{}
