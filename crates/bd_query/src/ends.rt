//! Ends of stretches of keys.

ghost use Rattle.std.specs.Prelude.{◌≡◌, ◌↔◌, ◌⊎◌, ℕ, ◌≤◌, false, List, [], ◌∷◌, ◌++◌, length, IfOk, IfSome};
ghost use Rattle.std.specs.Option.{option_copied};
ghost use Rattle.bd_limits.specs.Limits.{key_limit};
ghost use Rattle.bd_keys.specs.Keys.{IsKey, IsBelow, IsBelowEnd, InRange, Begins, IsPrefixRange};
ghost use Rattle.bd_message.specs.Messages.{IsMessage};
ghost use Rattle.bd_node.specs.Touching.{touches};
ghost use Rattle.bd_query.specs.Stretches.{IsEnd, IsWithin, end_limit, first_key};

use bd_keys::{Bytes, after};
use bd_message::Message;
use bd_node::can_touch;
use std::alloc::{AllocError, Global};

/// Bytes after others.
pub fn joined(alloc: Global, front: &[u8], rest: &[u8]) -> Result<Bytes, AllocError>
    ensures { IfOk result (λ made. made ≡ front.now ++ rest.now) }
{
    if front.is_empty() {
        return Bytes::from_slice(alloc, rest);
    }
    let mut made = Vec::from_slice(alloc, front)?;
    made.extend_from_slice(rest)?;
    Ok(Bytes::from_vec(made))
}

/// A copy of an end.
pub fn copied_end(alloc: Global, end: Option<&[u8]>) -> Result<Option<Bytes>, AllocError>
    ensures { IfOk result (λ copy. copy ≡ option_copied end.entry) }
{
    match end {
        Some(end) => Ok(Some(Bytes::from_slice(alloc, end)?)),
        None => Ok(None),
    }
}

/// The lesser of two ends.
pub fn lesser(a: Option<Bytes>, b: Option<Bytes>) -> Option<Bytes>
    ensures below { (k : List ℕ) → IsBelowEnd k result ↔ (IsBelowEnd k a × IsBelowEnd k b) }
    ensures one { (result ≡ a) ⊎ (result ≡ b) }
{
    match (a, b) {
        (Some(a), Some(b)) => Some(lesser_key(a, b)),
        (None, end) | (end, None) => end,
    }
}

// The lesser of two keys.
fn lesser_key(a: Bytes, b: Bytes) -> Bytes
    ensures below { (k : List ℕ) → IsBelow k result ↔ (IsBelow k a × IsBelow k b) }
    ensures one { (result ≡ a) ⊎ (result ≡ b) }
{
    a.min(b)
}

// The least key at which a message can change anything.
fn first_key(alloc: Global, message: &Message) -> Result<Bytes, AllocError>
    ensures { IfOk result (λ key. key ≡ first_key message.now) }
{
    match message {
        Message::Put { key, .. } => key.clone(),
        Message::Del { key } => key.clone(),
        Message::Patch { key, .. } => key.clone(),
        Message::Cut { prefix, from } => joined(alloc, prefix.as_slice(), from.as_slice()),
        Message::Goto { prefix, .. } => prefix.clone(),
    }
}

/// The end of the keys from this one up to `end` before the first one that a message can change,
/// which it can't at this one.
pub fn narrowed(
    alloc: Global,
    message: &Message,
    key: &[u8],
    end: Option<Bytes>,
) -> Result<Option<Bytes>, AllocError>
    requires message { IsMessage message.now }
    requires other { touches message.now key.now ≡ false }
    requires end { IsEnd key.now end_limit end }
    ensures end { IfOk result (λ new. IsEnd key.now end_limit new) }
    ensures within { IfOk result (λ new. IsWithin new end) }
    ensures untouched { IfOk result (λ new. (k : List ℕ) → InRange key.now new k
        → touches message.now k ≡ false) }
{
    if can_touch(message, key, as_slice(&end)) {
        Ok(Some(first_key(alloc, message)?))
    } else {
        Ok(end)
    }
}

// The bytes of an end.
fn as_slice(end: &Option<Bytes>) -> Option<&[u8]>
    ensures { option_copied result ≡ end.now }
{
    match end {
        Some(end) => Some(end.as_slice()),
        None => None,
    }
}

/// The end of the keys from this one up to `end` that begin with a prefix, as it does.
pub fn end_within(
    alloc: Global,
    prefix: &[u8],
    key: &[u8],
    end: Option<Bytes>,
) -> Result<Option<Bytes>, AllocError>
    requires short { length prefix.now ≤ key_limit }
    requires begins { Begins key.now prefix.now }
    requires end { IsEnd key.now end_limit end }
    ensures end { IfOk result (λ new. IsEnd key.now end_limit new) }
    ensures within { IfOk result (λ new. IsWithin new end) }
    ensures begins { IfOk result (λ new. (k : List ℕ) → IsKey k → InRange key.now new k
        → Begins k prefix.now) }
{
    let past = past_prefix(alloc, prefix)?;
    Ok(lesser(end, past))
}

// The end of the keys that begin with a prefix.
fn past_prefix(alloc: Global, prefix: &[u8]) -> Result<Option<Bytes>, AllocError>
    ensures range { IfOk result (λ end. IsPrefixRange prefix.now end) }
    ensures short { IfOk result (λ end. IfSome end (λ key. length key ≤ length prefix.now)) }
{
    match after(alloc, prefix)? {
        Some(end) => {
            let end = Bytes::from_vec(end);
            let _bytes = bytes_of(end.as_slice());
            Ok(Some(end))
        }
        None => Ok(None),
    }
}

/// The bytes of a slice, each of which is a byte.
pub fn bytes_of(key: &[u8]) -> &[u8]
    ensures same { result.now ≡ key.now }
    ensures bytes { IsKey key.now }
{
    key
}

/// The least key above this one.
pub fn successor(alloc: Global, key: &[u8]) -> Result<Bytes, AllocError>
    ensures { IfOk result (λ next. next ≡ key.now ++ 0 ∷ []) }
{
    joined(alloc, key, &[0])
}
