//! Ranges of keys.

ghost use Rattle.std.specs.Prelude.{◌≡◌, ◌↔◌, ℕ, List, IfOk, IfSome, IfNone, IsTrue};
ghost use Rattle.std.specs.Option.{option_copied};
ghost use Rattle.bd_keys.specs.Keys.{IsBelow, IsBelowEnd, IsAtLeast};
ghost use Rattle.bd_keys.specs.Ranges.{Has};

use crate::Bytes;
use std::alloc::AllocError;

/// The keys that are at least `lo` and below `hi`, or all that are at least `lo`.
#[derive(Clone, Debug, PartialEq, Eq, Drop)]
pub struct Range {
    /// The least key.
    pub lo: Bytes,
    /// The least greater key that isn't one of them, or `None` for no end.
    pub hi: Option<Bytes>,
}

/// The keys that two ranges have in common. It is `None` exactly where there are none.
pub fn clip(a: &Range, b: &Range) -> Result<Option<Range>, AllocError>
    ensures both { IfOk result (λ found. IfSome found (λ range.
        (key : List ℕ) → Has range key ↔ (Has a.now key × Has b.now key))) }
    ensures some { IfOk result (λ found. IfSome found (λ range. Has range range.lo)) }
    ensures none { IfOk result (λ found. IfNone found
        ((key : List ℕ) → Has a.now key → ¬ Has b.now key)) }
{
    let lo = max_key(&a.lo, &b.lo);
    let hi = min_end(&a.hi, &b.hi);
    if !is_below_end(lo, hi) {
        return Ok(None);
    }
    let lo = lo.clone()?;
    let hi = hi.cloned()?;
    Ok(Some(Range { lo, hi }))
}

// The greater of two keys.
fn max_key<'a>(a: &'a Bytes, b: &'a Bytes) -> &'a Bytes
    ensures { (key : List ℕ) → IsAtLeast key result.now
        ↔ (IsAtLeast key a.now × IsAtLeast key b.now) }
{
    a.max(b)
}

// The lesser of two ends.
fn min_end<'a>(a: &'a Option<Bytes>, b: &'a Option<Bytes>) -> Option<&'a Bytes>
    ensures { (key : List ℕ) → IsBelowEnd key (option_copied result)
        ↔ (IsBelowEnd key a.now × IsBelowEnd key b.now) }
{
    match (a, b) {
        (Some(a), Some(b)) => Some(min_key(a, b)),
        (None, hi) | (hi, None) => hi.as_ref(),
    }
}

// The lesser of two keys.
fn min_key<'a>(a: &'a Bytes, b: &'a Bytes) -> &'a Bytes
    ensures { (key : List ℕ) → IsBelow key result.now ↔ (IsBelow key a.now × IsBelow key b.now) }
{
    a.min(b)
}

// Whether a key is below an end.
fn is_below_end(key: &Bytes, hi: Option<&Bytes>) -> bool
    ensures { IsTrue result ↔ IsBelowEnd key.now (option_copied hi.entry) }
{
    match hi {
        Some(hi) => key < hi,
        None => true,
    }
}
