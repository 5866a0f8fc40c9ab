//! What edges ask their children for.

ghost use Rattle.std.specs.Prelude.{◌≡◌, ◌≤◌, length, IfOk, IfSome};
ghost use Rattle.std.specs.Option.{option_copied};
ghost use Rattle.bd_keys.specs.Keys.{IsKey, IsBelowEnd};
ghost use Rattle.bd_inner.specs.Batches.{IsLifted};
ghost use Rattle.bd_cover.specs.Asked.{later, earlier, is_below_end, prefix_end, asked_end, asks};

use bd_keys::{Bytes, Range, after, front, translate};
use bd_node::Edge;
use std::alloc::{AllocError, Global};

/// A child, and the keys that it is asked for.
#[derive(Drop)]
pub struct Ask {
    pub child: u64,
    pub keys: Range,
}

/// What an edge, whose keys end at `end`, asks its child, where it is asked for the keys that are
/// at least `lo` and below `hi`: `None` where it has none of these, or no child.
pub fn asked(
    alloc: Global,
    edge: &Edge,
    end: Option<&[u8]>,
    lo: &[u8],
    hi: Option<&[u8]>,
) -> Result<Option<Ask>, AllocError>
    requires { IsLifted edge.now (option_copied end) }
    ensures asked { IfOk result (λ found.
        found ≡ asks edge.now (option_copied end.entry) lo.now (option_copied hi.entry)) }
    ensures some { IfOk result (λ found. IfSome found (λ ask.
        IsBelowEnd ask.keys.lo ask.keys.hi)) }
{
    let Some(child) = edge.child else {
        return Ok(None);
    };
    let first = later(edge.pivot.as_slice(), lo);
    let past = earlier(end, hi);
    if !is_below_end(first, past) {
        return Ok(None);
    }
    let front = translate(alloc, first, edge.lift as usize, edge.source.as_slice())?;
    let keys = Range {
        lo: Bytes::from_vec(front),
        hi: asked_end(alloc, edge, past)?,
    };
    Ok(Some(Ask { child, keys }))
}

// The later of two keys.
fn later<'a>(a: &'a [u8], b: &'a [u8]) -> &'a [u8]
    ensures later { result.now ≡ later a.now b.now }
    ensures key { IsKey result.now }
{
    if a.cmp(b).is_lt() { b } else { a }
}

// The earlier of two ends.
fn earlier<'a>(a: Option<&'a [u8]>, b: Option<&'a [u8]>) -> Option<&'a [u8]>
    ensures { option_copied result ≡ earlier (option_copied a.entry) (option_copied b.entry) }
{
    match (a, b) {
        (Some(end), Some(hi)) => Some(if end.cmp(hi).is_lt() { end } else { hi }),
        (Some(end), None) => Some(end),
        (None, hi) => hi,
    }
}

// Whether a key is below an end.
fn is_below_end(key: &[u8], end: Option<&[u8]>) -> bool
    ensures { result ≡ is_below_end key.now (option_copied end.entry) }
{
    match end {
        Some(end) => key.cmp(end).is_lt(),
        None => true,
    }
}

// Where the keys end that an edge asks its child for, if its own end at `hi`.
fn asked_end(alloc: Global, edge: &Edge, hi: Option<&[u8]>) -> Result<Option<Bytes>, AllocError>
    requires { edge.now.lift ≤ length edge.now.pivot }
    ensures { IfOk result (λ end. end ≡ asked_end edge.now (option_copied hi.entry)) }
{
    let lift = edge.lift as usize;
    let source = edge.source.as_slice();
    match hi {
        Some(hi) if hi.starts_with(front(edge.pivot.as_slice(), lift)) => {
            Ok(Some(Bytes::from_vec(translate(alloc, hi, lift, source)?)))
        }
        _ => prefix_end(alloc, source),
    }
}

// Where the keys that begin with a prefix end.
fn prefix_end(alloc: Global, prefix: &[u8]) -> Result<Option<Bytes>, AllocError>
    ensures { IfOk result (λ end. end ≡ prefix_end prefix.now) }
{
    match after(alloc, prefix)? {
        Some(end) => Ok(Some(key_of(end))),
        None => Ok(None),
    }
}

// The key of these bytes.
fn key_of(bytes: Vec<u8>) -> Bytes
    ensures same { result ≡ bytes.items }
    ensures key { IsKey bytes.items }
{
    Bytes::from_vec(bytes)
}
