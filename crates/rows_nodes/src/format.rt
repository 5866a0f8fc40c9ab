//! Images of nodes: rows by hand, read and written again, and bytes that are no node's image.

use bd_format::{decode, encode};
use bd_limits::SLOT_SIZE;
use bd_message::Message;
use bd_node::{Edge, Node};
use std::alloc::{AllocError, Global};
use std::test::Fail;

// The root of a fresh image: level 1, an edge without a child, and a Put of the root's record.
const FRESH_ROOT: [u8; 42] = [
    0x42, 0x44, 0x4e, 0x31, 0, 0, 0, 1, 0, 0, 0, 1, 0, 0, 0, 1, // head
    0, 0, 0, 0, 0, 0, 0, 0, 0, 0, 0, 0, 0, 0, 0, 0, 0, 0, // edge
    1, 0, 2, 0, 0, 0, 1, 0x44, // message
];

const EMPTY_LEAF: [u8; 16] = [0x42, 0x44, 0x4e, 0x31, 0, 0, 0, 0, 0, 0, 0, 0, 0, 0, 0, 0];

// The values 1 at `a` and 2 at `ab`.
const LEAF: [u8; 29] = [
    0x42, 0x44, 0x4e, 0x31, 0, 0, 0, 0, 0, 0, 0, 2, 0, 0, 0, 0, // head
    0, 1, 0x61, 0, 1, 1, // entry
    0, 2, 0x61, 0x62, 0, 1, 2, // entry
];

// Three edges, from the empty key, `q 0` and `q 1` on, and two messages. The second edge leaves out
// two bytes, puts `s 0` in their place, asks node 7, and has the first message already.
const INNER: [u8; 95] = [
    0x42, 0x44, 0x4e, 0x31, 0, 0, 0, 2, 0, 0, 0, 3, 0, 0, 0, 2, // head
    0, 0, 0, 0, 0, 0, 0, 0, 0, 0, 0, 0, 0, 0, 0, 0, 0, 0, // edge
    0, 2, 0x71, 0, 0, 2, 0, 2, 0x73, 0, 0, 0, 0, 0, 0, 0, 0, 7, 0, 0, 0, 1, // edge
    0, 2, 0x71, 1, 0, 0, 0, 0, 0, 0, 0, 0, 0, 0, 0, 0, 0, 0, 0, 0, // edge
    2, 0, 1, 0x61, // Del
    5, 0, 2, 0x71, 0, 0, 0, 0, 0, 0, 0, 0, 0, 0, 5, // Goto
];

// The image with these bytes in front of zeros.
fn image_of(front: &[u8]) -> [u8; SLOT_SIZE] {
    let mut bytes = [0; SLOT_SIZE];
    for (byte, from) in bytes.iter_mut().zip(front) {
        *byte = *from;
    }
    bytes
}

// Whether the bytes are a node's image, and that node is written as them.
fn is_read_and_written(alloc: Global, bytes: &[u8; SLOT_SIZE]) -> Result<bool, AllocError> {
    let Some(node) = decode(alloc, bytes)? else {
        return Ok(false);
    };
    let mut again = [9; SLOT_SIZE];
    encode(&node, &mut again);
    Ok(again == *bytes)
}

/// Images, in front of zeros.
const IMAGES: &[(&str, &[u8])] = &[
    ("a fresh root", &FRESH_ROOT),
    ("an empty leaf", &EMPTY_LEAF),
    ("a leaf", &LEAF),
    ("an inner node", &INNER),
];

#[test]
fn images_are_read_and_written(rt: HostRuntime) -> Result<(), Fail> {
    for (name, front) in IMAGES {
        let image = image_of(*front);
        assert!(rt; is_read_and_written(rt.alloc(), &image)?, "{name}");
    }
    Ok(())
}

// Whether a node is the root of a fresh image.
fn is_fresh_root(node: &Node) -> bool {
    match node {
        Node::Leaf(_) => false,
        Node::Inner {
            level,
            edges,
            buffer,
        } => *level == 1 && are_open(edges.as_slice()) && is_record(buffer.as_slice()),
    }
}

// Whether this is one edge without a child.
fn are_open(edges: &[Edge]) -> bool {
    match edges {
        [edge] => edge.child.is_none(),
        _ => false,
    }
}

// Whether this is one Put of the root's record.
fn is_record(messages: &[Message]) -> bool {
    match messages {
        [Message::Put { key, value }] => key.as_slice() == b"\0\0".as_slice()
            && value.as_slice() == b"D".as_slice(),
        _ => false,
    }
}

// Whether a fresh image is read as its root.
fn is_fresh_root_read(alloc: Global, image: &[u8; SLOT_SIZE]) -> Result<bool, AllocError> {
    match decode(alloc, image)? {
        Some(node) => Ok(is_fresh_root(&node)),
        None => Ok(false),
    }
}

#[test]
fn a_fresh_root_is_read(rt: HostRuntime) -> Result<(), Fail> {
    let image = image_of(&FRESH_ROOT);
    assert!(rt; is_fresh_root_read(rt.alloc(), &image)?);
    Ok(())
}

// Whether the bytes with another one at a place are no node's image.
fn is_refused(alloc: Global, front: &[u8], place: usize, byte: u8) -> Result<bool, AllocError> {
    let mut bytes = image_of(front);
    if let Some(at) = bytes.get_mut(place) {
        *at = byte;
    }
    Ok(decode(alloc, &bytes)?.is_none())
}

/// Bytes that are no node's image: what is wrong, an image, the place of another byte, and the byte.
const NONE: &[(&str, &[u8], usize, u8)] = &[
    ("the last zero is another byte", &FRESH_ROOT, 65_535, 1),
    ("the message is pending for no edge", &FRESH_ROOT, 33, 1),
    ("it begins otherwise", &FRESH_ROOT, 0, 0x43),
    ("a leaf with a message", &FRESH_ROOT, 7, 0),
    ("a message is missing", &FRESH_ROOT, 15, 2),
    ("a lift where nothing is in common", &FRESH_ROOT, 19, 1),
    ("keys that fall", &LEAF, 18, 0x62),
    ("a value without a byte", &EMPTY_LEAF, 11, 1),
    ("a lift one too long", &INNER, 39, 3),
    ("the last message has been seen", &INNER, 55, 2),
    ("more seen than there are", &INNER, 55, 3),
    ("pivots that are the same", &INNER, 59, 0),
];

#[test]
fn other_bytes_are_no_image(rt: HostRuntime) -> Result<(), Fail> {
    for (name, front, place, byte) in NONE {
        assert!(rt; is_refused(rt.alloc(), *front, *place, *byte)?, "{name}");
    }
    Ok(())
}
