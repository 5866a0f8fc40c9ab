//! Messages.

ghost use Rattle.std.specs.Prelude.{◌≡◌, ◌↔◌, ◌≤◌, ◌+◌, IfOk, IsTrue};
ghost use Rattle.bd_limits.specs.Limits.{key_limit, block_limit};
ghost use Rattle.bd_message.specs.Messages.{IsMessage, size};

use bd_keys::Bytes;
use bd_limits::{BASE_SIZE, MAX_BLOCK, MAX_KEY};

/// A change of a key map.
#[derive(Clone, Debug, PartialEq, Eq)]
pub enum Message {
    /// The key has the value.
    Put {
        key: Bytes,
        value: Bytes,
    },
    /// The key has nothing.
    Del {
        key: Bytes,
    },
    /// The value at the key, empty where there is none, is extended with zeros to `off` and
    /// overwritten from there on.
    Patch {
        key: Bytes,
        off: u16,
        bytes: Bytes,
    },
    /// Each key that is the prefix and then `from` or what stands after it has nothing.
    Cut {
        prefix: Bytes,
        from: Bytes,
    },
    /// Each key that begins with the prefix has what the node `child` has at the source and then
    /// what follows the prefix.
    Goto {
        prefix: Bytes,
        source: Bytes,
        child: u64,
    },
}

// Written out, so that a drop is one call, and not each variant's wherever a message is let go.
impl Drop for Message {
    fn drop(self) {
        match self {
            Message::Put { key: _, value: _ } => {}
            Message::Del { key: _ } => {}
            Message::Patch {
                key: _,
                off: _,
                bytes: _,
            } => {}
            Message::Cut { prefix: _, from: _ } => {}
            Message::Goto {
                prefix: _,
                source: _,
                child: _,
            } => {}
        }
    }
}

impl Message {
    /// Whether its parts are as long as they may be: a key, a prefix and a source at most 518
    /// bytes, the two parts of a `Cut` in sum, a value 1 to 1,024 and so what a patch leaves at
    /// least; a child is not 0.
    pub fn is_message(&self) -> bool
        ensures { IsTrue result ↔ IsMessage self.now }
    {
        match self {
            Message::Put { key, value } => is_key(key.len()) && is_value(value.len()),
            Message::Del { key } => is_key(key.len()),
            Message::Patch { key, off, bytes } => {
                is_key(key.len()) && is_part(*off as usize, bytes.len())
            }
            Message::Cut { prefix, from } => {
                is_key(prefix.len()) && from.len() <= MAX_KEY - prefix.len()
            }
            Message::Goto {
                prefix,
                source,
                child,
            } => { is_key(prefix.len()) && is_key(source.len()) && *child != 0 }
        }
    }

    /// How many bytes it counts: 16, and its bytes, and the offset of a patch.
    pub fn size(&self) -> usize
        requires { IsMessage self.now }
        ensures { result ≡ size self.now }
    {
        match self {
            Message::Put { key, value } => BASE_SIZE + key.len() + value.len(),
            Message::Del { key } => BASE_SIZE + key.len(),
            Message::Patch { key, off, bytes } => {
                BASE_SIZE + key.len() + *off as usize + bytes.len()
            }
            Message::Cut { prefix, from } => BASE_SIZE + prefix.len() + from.len(),
            Message::Goto { prefix, source, .. } => BASE_SIZE + prefix.len() + source.len(),
        }
    }
}

// Whether a key may be so long.
fn is_key(len: usize) -> bool
    ensures { IsTrue result ↔ (len ≤ key_limit) }
{
    len <= MAX_KEY
}

// Whether a value may be so long.
fn is_value(len: usize) -> bool
    ensures { IsTrue result ↔ ((1 ≤ len) × (len ≤ block_limit)) }
{
    len >= 1 && len <= MAX_BLOCK
}

// Whether a value may have so many bytes from an offset on.
fn is_part(off: usize, len: usize) -> bool
    ensures { IsTrue result ↔ ((1 ≤ len) × (off + len ≤ block_limit)) }
{
    is_value(len) && off <= MAX_BLOCK - len
}
