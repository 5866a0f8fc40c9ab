//! The keys of records and blocks.

ghost use Rattle.std.specs.Prelude.{◌≡◌, ◌≤◌, ◌+◌, length, IfOk, OnOk};
ghost use Rattle.bd_limits.specs.Limits.{key_limit, path_limit};
ghost use Rattle.bd_names.specs.Names.{AreNames};
ghost use Rattle.bd_represent.specs.EntryKeys.{record_key, blocks_prefix, block_key};

use bd_names::Path;
use std::alloc::{AllocError, Global};

/// The key of the record of a path.
pub fn record_key(alloc: Global, path: &Path) -> Result<Vec<u8>, AllocError>
    ensures key { IfOk result (λ key. key.items ≡ record_key path.now) }
    ensures names { OnOk result (AreNames path.now) }
    ensures length { IfOk result (λ key. length key.items ≤ path_limit + 2) }
{
    let mut key = path.key(alloc)?;
    key.extend_from_slice(&[0, 0])?;
    Ok(key)
}

/// What the keys of the blocks of a file begin with.
pub fn blocks_prefix(alloc: Global, path: &Path) -> Result<Vec<u8>, AllocError>
    ensures key { IfOk result (λ key. key.items ≡ blocks_prefix path.now) }
    ensures names { OnOk result (AreNames path.now) }
    ensures length { IfOk result (λ key. length key.items ≤ path_limit + 2) }
{
    let mut key = path.key(alloc)?;
    key.extend_from_slice(&[0, 1])?;
    Ok(key)
}

/// The key of a block of a file, counted from 0.
#[tactic(auto, unfolding(bd_wire::specs::Numbers::be))]
pub fn block_key(alloc: Global, path: &Path, i: u32) -> Result<Vec<u8>, AllocError>
    ensures key { IfOk result (λ key. key.items ≡ block_key path.now i) }
    ensures names { OnOk result (AreNames path.now) }
    ensures length { IfOk result (λ key. length key.items ≤ key_limit) }
{
    let mut key = blocks_prefix(alloc, path)?;
    key.extend_from_slice(&i.to_be_bytes())?;
    Ok(key)
}
