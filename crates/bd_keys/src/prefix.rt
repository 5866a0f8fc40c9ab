//! Keys and the bytes that they begin with.

ghost use Rattle.std.specs.Prelude.{◌≡◌, ◌≢◌, ◌==◌, ◌↔◌, ◌<◌, ◌≤◌, ◌-◌, slice_index, ◌++◌, ℕ, List, length, drop, IsTrue, IsNone, IfOk, IfSome, IfNone, All};
ghost use Rattle.std.specs.Option.{option_copied, option_map};
ghost use Rattle.std.specs.List.{prefix_len, zip};
ghost use Rattle.bd_keys.specs.Keys.{Begins, IsAfter, IsBelow, IsBelowEnd, IsAboveAll, IsKey, IsLift, IsPrefixRange};
ghost use Rattle.bd_keys.specs.Apart.{is_top, lift_apart};

use std::alloc::{AllocError, Global};

/// The greatest byte.
const TOP: u8 = 255;

/// Whether a key begins with a prefix.
pub fn starts(key: &[u8], prefix: &[u8]) -> bool
    ensures { IsTrue result ↔ Begins key.now prefix.now }
{
    key.starts_with(prefix)
}

/// The least key above all that begin with a prefix. There is none where the prefix is empty or all
/// its bytes are 255.
pub fn after(alloc: Global, prefix: &[u8]) -> Result<Option<Vec<u8>>, AllocError>
    ensures after { IfOk result (λ end. IfSome end (λ key. IsAfter prefix.now key.items)) }
    ensures none { IfOk result (λ end. IfNone end
        ((key : List ℕ) → IsKey key → ¬ IsAboveAll key prefix.now)) }
    ensures last { IfOk result (λ end. IsNone end ↔ All (λ byte. byte ≡ 255) prefix.now) }
    ensures range { IfOk result (λ end.
        IsPrefixRange prefix.now (option_map (λ key. key.items) end)) }
{
    let kept = kept_len(prefix);
    if kept == 0 {
        return Ok(None);
    }
    let mut end = Vec::from_slice(alloc, &prefix[..kept])?;
    end[kept - 1] += 1;
    Ok(Some(end))
}

// How many bytes stand before the bytes of 255 at the end.
fn kept_len(prefix: &[u8]) -> usize
    ensures within { result ≤ length prefix.now }
    ensures tops { (i : ℕ) → result ≤ i → i < length prefix.now → slice_index prefix.now i ≡ 255 }
    ensures last { 0 < result → slice_index prefix.now (result - 1) ≢ 255 }
{
    let mut kept = prefix.len();
    while kept > 0 && prefix[kept - 1] == TOP {
        kept -= 1;
    }
    kept
}

/// The length of the longest prefix that is common to all keys that are at least `lo` and below
/// `hi`; `None` is no end.
pub fn lift(lo: &[u8], hi: Option<&[u8]>) -> usize
    requires { IsBelowEnd lo.now (option_copied hi) }
    ensures { IsLift lo.now (option_copied hi.entry) result }
{
    match hi {
        None => tops_len(lo),
        Some(hi) => lift_below(lo, hi),
    }
}

// The same where there is an end.
fn lift_below(lo: &[u8], hi: &[u8]) -> usize
    requires { IsBelow lo.now hi.now }
    ensures { IsLift lo.now (Some hi.now) result }
{
    let same = common_len(lo, hi);
    same + len_apart(&lo[same..], &hi[same..])
}

// How many bytes of 255 stand at the front.
fn tops_len(bytes: &[u8]) -> usize
    ensures value { result ≡ prefix_len is_top bytes.now }
    ensures within { result ≤ length bytes.now }
{
    bytes.iter().take_while(|byte| **byte == TOP).count()
}

// How many bytes two keys have in common at the front.
fn common_len(a: &[u8], b: &[u8]) -> usize
    ensures value { result ≡ prefix_len (λ p. p.0 == p.1) (zip a.now b.now) }
    ensures first { result ≤ length a.now }
    ensures second { result ≤ length b.now }
{
    a.iter().zip(b).take_while(|(x, y)| x == y).count()
}

// How many bytes more all keys that are at least `lo` and below `hi` have in common, where the
// first bytes differ.
fn len_apart(lo: &[u8], hi: &[u8]) -> usize
    ensures value { result ≡ lift_apart lo.now hi.now }
    ensures within { result ≤ length lo.now }
{
    match (lo.split_first(), hi) {
        (Some((first, rest)), [end]) if first.checked_add(1) == Some(*end) => 1 + tops_len(rest),
        _ => 0,
    }
}

/// A key with other bytes in place of its first ones: `front`, and then `key` without its first
/// `count` bytes.
pub fn translate(
    alloc: Global,
    key: &[u8],
    count: usize,
    front: &[u8],
) -> Result<Vec<u8>, AllocError>
    requires { count ≤ length key.now }
    ensures { IfOk result (λ made. made.items ≡ front.now ++ drop count key.now) }
{
    let rest = &key[count..];
    let mut made = Vec::with_capacity(alloc, front.len() + rest.len())?;
    made.extend_from_slice(front)?;
    made.extend_from_slice(rest)?;
    Ok(made)
}
