//! Bytes that overwrite a value.

ghost use Rattle.std.specs.Prelude.{◌+◌, ◌≤◌, length};
ghost use Rattle.bd_limits.specs.Limits.{block_limit};

use bd_keys::Bytes;

/// Bytes that overwrite a value from an offset on.
#[derive(Drop)]
pub struct Patch {
    pub off: u16,
    pub bytes: Bytes,
    ghost small: { off + length bytes ≤ block_limit },
}
