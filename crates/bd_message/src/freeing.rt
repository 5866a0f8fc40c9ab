//! Messages on the keys that begin with a prefix, and as messages on what follows it.

ghost use Rattle.std.specs.Prelude.{◌≡◌, ◌↔◌, true, IfOk, IsTrue};
ghost use Rattle.std.specs.Option.{option_map, option_copied};
ghost use Rattle.bd_message.specs.declared.message.Message.TheVariants as message;
ghost use Rattle.bd_message.specs.Effect.{begins, rest};
ghost use Rattle.bd_message.specs.Freeing.{stem, CanStrip, from_after, narrowed, stripped, freed, is_apart, CoversAll};

use crate::Message;
use bd_keys::Bytes;
use std::alloc::{AllocError, Global};

impl Message {
    /// A message whose key, or the prefix of whose keys, begins with a prefix, as a message on what
    /// follows it.
    pub fn strip(&self, alloc: Global, s: &[u8]) -> Result<Message, AllocError>
        requires { CanStrip s.now self.now }
        ensures { IfOk result (λ made. made ≡ stripped s.now self.now) }
    {
        match self {
            Message::Put { key, value } => Ok(Message::Put {
                key: rest(alloc, s, key)?,
                value: value.clone()?,
            }),
            Message::Del { key } => Ok(Message::Del {
                key: rest(alloc, s, key)?,
            }),
            Message::Patch { key, off, bytes } => Ok(Message::Patch {
                key: rest(alloc, s, key)?,
                off: *off,
                bytes: bytes.clone()?,
            }),
            Message::Cut { prefix, from } => Ok(Message::Cut {
                prefix: rest(alloc, s, prefix)?,
                from: from.clone()?,
            }),
            Message::Goto {
                prefix,
                source,
                child,
            } => Ok(Message::Goto {
                prefix: rest(alloc, s, prefix)?,
                source: source.clone()?,
                child: *child,
            }),
        }
    }

    /// The message freed of a prefix: its part on the keys that begin with it, as a message on what
    /// follows it. It is `None` where the message changes nothing at such a key.
    pub fn free(&self, alloc: Global, s: &[u8]) -> Result<Option<Message>, AllocError>
        ensures { IfOk result (λ found. found ≡ freed s.now self.now) }
    {
        if is_apart(self.stem(), s) {
            return Ok(None);
        }
        if self.stem().starts_with(s) {
            return Ok(Some(self.strip(alloc, s)?));
        }
        narrow(alloc, self, s)
    }

    /// Whether it decides what stands at each key, whatever stood there: a `Goto` of all keys, or a
    /// `Cut` that takes all.
    pub fn covers_all(&self) -> bool
        ensures { IsTrue result ↔ CoversAll self.now }
    {
        match self {
            Message::Cut { prefix, from } => prefix.is_empty() && from.is_empty(),
            Message::Goto { prefix, .. } => prefix.is_empty(),
            _ => false,
        }
    }

    // The message's key, or the prefix of its keys.
    fn stem(&self) -> &[u8]
        ensures { result.now ≡ stem self.now }
    {
        match self {
            Message::Put { key, .. } => key.as_slice(),
            Message::Del { key } => key.as_slice(),
            Message::Patch { key, .. } => key.as_slice(),
            Message::Cut { prefix, .. } => prefix.as_slice(),
            Message::Goto { prefix, .. } => prefix.as_slice(),
        }
    }
}

// Whether two lists of bytes differ where both have one, so that neither begins with the other.
fn is_apart(k: &[u8], l: &[u8]) -> bool
    ensures { result ≡ is_apart k.now l.now }
{
    let [a, k @ ..] = k else {
        return false;
    };
    let [b, l @ ..] = l else {
        return false;
    };
    if *a != *b {
        return true;
    }
    is_apart(k, l)
}

// What follows a prefix in a key that begins with it.
fn rest(alloc: Global, s: &[u8], key: &Bytes) -> Result<Bytes, AllocError>
    requires { begins key.now s.now ≡ true }
    ensures { IfOk result (λ rest_of. rest_of ≡ rest s.now key.now) }
{
    Bytes::from_slice(alloc, &key.as_slice()[s.len()..])
}

// A message of keys that begin with less, freed of a prefix.
fn narrow(alloc: Global, message: &Message, s: &[u8]) -> Result<Option<Message>, AllocError>
    ensures { IfOk result (λ found. found
        ≡ option_map (stripped s.now) (narrowed s.now message.now)) }
{
    match message {
        Message::Cut { prefix, from } => {
            narrow_cut(alloc, prefix.as_slice(), from.as_slice(), s)
        }
        Message::Goto {
            prefix,
            source,
            child,
        } => narrow_goto(alloc, prefix.as_slice(), source.as_slice(), *child, s),
        _ => Ok(None),
    }
}

// The same of a cut.
fn narrow_cut(
    alloc: Global,
    prefix: &[u8],
    from: &[u8],
    s: &[u8],
) -> Result<Option<Message>, AllocError>
    ensures { IfOk result (λ found. found
        ≡ option_map (stripped s.now) (narrowed s.now (message.Cut prefix.now from.now))) }
{
    if !s.starts_with(prefix) {
        return Ok(None);
    }
    match from_after(&s[prefix.len()..], from) {
        Some(from) => Ok(Some(Message::Cut {
            prefix: Bytes::from_vec(Vec::new(alloc)),
            from: Bytes::from_slice(alloc, from)?,
        })),
        None => Ok(None),
    }
}

// Where a cut from `from` on begins in what follows `front`.
fn from_after<'a>(front: &[u8], from: &'a [u8]) -> Option<&'a [u8]>
    ensures { option_copied result ≡ from_after front.now from.now }
{
    if from.starts_with(front) {
        return Some(&from[front.len()..]);
    }
    if from.cmp(front).is_lt() {
        return Some(&[]);
    }
    None
}

// The same of a Goto.
fn narrow_goto(
    alloc: Global,
    prefix: &[u8],
    source: &[u8],
    child: u64,
    s: &[u8],
) -> Result<Option<Message>, AllocError>
    ensures { IfOk result (λ found. found
        ≡ option_map (stripped s.now) (narrowed s.now (message.Goto prefix.now source.now child))) }
{
    if !s.starts_with(prefix) {
        return Ok(None);
    }
    let mut longer = Vec::from_slice(alloc, source)?;
    longer.extend_from_slice(&s[prefix.len()..])?;
    Ok(Some(Message::Goto {
        prefix: Bytes::from_vec(Vec::new(alloc)),
        source: Bytes::from_vec(longer),
        child,
    }))
}
