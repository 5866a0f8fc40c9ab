//! Messages that tests make of texts.

ghost use Rattle.std.specs.Prelude.{IfOk};
ghost use Rattle.bd_message.specs.Messages.{IsMessage};

use bd_keys::Bytes;
use bd_message::Message;
use std::alloc::{AllocError, Global};
use std::test::Fail;

/// The words of a text: a name, and two words, of which what isn't there is empty.
fn words(text: &str) -> (&str, &str, &str) {
    let mut words = text.split(' ');
    let name = words.next().unwrap_or("");
    let first = words.next().unwrap_or("");
    let second = words.next().unwrap_or("");
    (name, first, second)
}

/// The message of a text: its name, its key or prefix, and its value, where it begins or its source.
/// A patch begins at offset 3, and the child of a `Goto` is 7.
pub fn message(alloc: Global, text: &str) -> Result<Message, AllocError> {
    let (name, first, second) = words(text);
    let first = Bytes::from_slice(alloc, first.as_bytes())?;
    let second = Bytes::from_slice(alloc, second.as_bytes())?;
    Ok(match name {
        "put" => Message::Put {
            key: first,
            value: second,
        },
        "del" => Message::Del { key: first },
        "patch" => Message::Patch {
            key: first,
            off: 3,
            bytes: second,
        },
        "cut" => Message::Cut {
            prefix: first,
            from: second,
        },
        _ => Message::Goto {
            prefix: first,
            source: second,
            child: 7,
        },
    })
}

/// The message of a text, whose parts are as long as they may be.
pub fn sent(alloc: Global, text: &str) -> Result<Message, Fail>
    ensures { IfOk result IsMessage }
{
    let message = message(alloc, text)?;
    if message.is_message() {
        Ok(message)
    } else {
        Err(Fail::new("no such message"))
    }
}
