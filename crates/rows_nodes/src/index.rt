//! The messages that wait in a node, asked by their index and without one.

use crate::made::message;
use bd_message::Message;
use bd_node::Messages;
use std::alloc::{AllocError, Global};
use std::test::Fail;

/// Messages on keys and on ranges of keys, the oldest first.
const WAITING: &[&str] = &[
    "put b 1",
    "put a 2",
    "cut a",
    "patch b 3",
    "del ab",
    "goto b c",
    "put a 4",
];

/// A key and a place, the places of the oldest and the newest message from there on that touch it,
/// and of one on the least key above it.
type Asked = (
    &'static str,
    usize,
    Option<usize>,
    Option<usize>,
    Option<usize>,
);

const ASKED: &[Asked] = &[
    ("a", 0, Some(1), Some(6), Some(4)),
    ("a", 2, Some(2), Some(6), Some(4)),
    ("a", 7, None, None, None),
    ("ab", 0, Some(2), Some(4), Some(0)),
    ("ab", 5, None, None, None),
    ("b", 1, Some(3), Some(5), None),
    ("ba", 0, Some(5), Some(5), None),
    ("", 0, None, None, Some(1)),
    ("c", 0, None, None, None),
];

/// These messages.
fn made(alloc: Global, rows: &[&str]) -> Result<Vec<Message>, AllocError> {
    let mut list = Vec::new(alloc);
    for text in rows {
        list.push(message(alloc, text)?)?;
    }
    Ok(list)
}

/// Whether messages answer a row so.
fn answers(list: &Messages, row: &Asked) -> bool {
    let (key, from, oldest, newest, above) = row;
    let key = key.as_bytes();
    list.next_touching(*from, key) == *oldest
        && list.newest_touching(*from, key) == *newest
        && list.next_point(*from, key) == *above
}

/// Whether the messages without an index answer a row so.
fn scanned(alloc: Global, row: &Asked) -> Result<bool, AllocError> {
    let list = Messages::from_vec(made(alloc, WAITING)?);
    Ok(answers(&list, row))
}

/// Whether the messages with an index answer a row so.
fn indexed(alloc: Global, row: &Asked) -> Result<bool, AllocError> {
    let list = Messages::indexed(made(alloc, WAITING)?)?;
    Ok(answers(&list, row))
}

#[test]
fn messages_that_touch_a_key(rt: HostRuntime) -> Result<(), Fail> {
    for row in ASKED {
        let (key, from, ..) = row;
        assert!(rt; scanned(rt.alloc(), row)?, "{key} from {from}");
        assert!(rt;
            indexed(rt.alloc(), row)?,
            "{key} from {from}, with an index"
        );
    }
    Ok(())
}

/// A place, and that of the oldest message on a range from there on.
const RANGES: &[(usize, Option<usize>)] = &[(0, Some(2)), (3, Some(5)), (6, None)];

/// The place of the oldest message on a range, by an index.
fn range_from(alloc: Global, from: usize) -> Result<Option<usize>, AllocError> {
    let list = Messages::indexed(made(alloc, WAITING)?)?;
    Ok(list.next_range(from))
}

#[test]
fn messages_on_ranges(rt: HostRuntime) -> Result<(), Fail> {
    for (from, want) in RANGES {
        assert_eq!(rt; range_from(rt.alloc(), *from)?, *want, "from {from}");
    }
    Ok(())
}
