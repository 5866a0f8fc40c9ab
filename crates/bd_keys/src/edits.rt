//! Bytes that are cut, extended and overwritten.

ghost use Rattle.std.specs.Prelude.{◌≡◌, ◌+◌, ◌<◌, ◌^◌, length, take, drop, IfOk};
ghost use Rattle.bd_keys.specs.Edits.{resized, overwritten};

use std::alloc::{AllocError, Global};

/// The first bytes, at most `len`.
pub fn front(bytes: &[u8], len: usize) -> &[u8]
    ensures { result.now ≡ take len bytes.now }
{
    if len <= bytes.len() {
        &bytes[..len]
    } else {
        bytes
    }
}

/// The bytes from `off` on, none past the end.
pub fn tail(bytes: &[u8], off: usize) -> &[u8]
    ensures { result.now ≡ drop off bytes.now }
{
    if off <= bytes.len() {
        &bytes[off..]
    } else {
        &[]
    }
}

/// Bytes cut, or extended with zeros, to a length.
pub fn resized(alloc: Global, bytes: &[u8], len: usize) -> Result<Vec<u8>, AllocError>
    ensures { IfOk result (λ new. new.items ≡ resized bytes.now len) }
{
    let mut new = Vec::from_slice(alloc, front(bytes, len))?;
    new.resize(len, 0)?;
    Ok(new)
}

/// Bytes extended with zeros to `off`, and overwritten with `bytes` from there on.
pub fn overwritten(
    alloc: Global,
    old: &[u8],
    off: usize,
    bytes: &[u8],
) -> Result<Vec<u8>, AllocError>
    requires { off + length bytes.now < 2 ^ 64 }
    ensures { IfOk result (λ new. new.items ≡ overwritten old.now off bytes.now) }
{
    let mut new = resized(alloc, old, off)?;
    new.extend_from_slice(bytes)?;
    new.extend_from_slice(tail(old, off + bytes.len()))?;
    Ok(new)
}
