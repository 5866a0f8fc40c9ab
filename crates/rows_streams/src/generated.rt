//! A generated tree of 302 paths, exported, and planted in pieces.
//!
//! Its rule: 301 entries below a directory of mode 0. The first 200 stand in it, the others in the
//! directory that is number 6. A name is half the entry's place in its directory, and `-` after it
//! where the place is odd. Each sixteenth number from 6 on is a directory, all else are files.
//! `tools/streams` makes the stream by the same rule, without this program.

use crate::around::{exported, exported_again, run, run_line};
use bd_command::Command;
use bd_keys::Bytes;
use bd_names::Path;
use bd_plain::PlainTree;
use sha2::{Digest, Sha256};
use std::alloc::{AllocError, Global};
use std::test::Fail;

/// How many bytes the stream has, as `tools/streams` prints it.
const LENGTH: usize = 36_326;

/// The SHA-256 of the stream, as `tools/streams` prints it.
const DIGEST: [u8; 32] = [
    0x6b, 0x72, 0xef, 0x7e, 0xa4, 0xa7, 0x62, 0x4e, 0x5d, 0xaa, 0x7a, 0x32, 0x23, 0x68, 0xc4, 0x18,
    0x98, 0x6d, 0x7d, 0x32, 0xed, 0x41, 0x31, 0xf3, 0x2b, 0x56, 0x44, 0xb5, 0xf0, 0x03, 0x22, 0x70,
];

/// How many entries stand in the exported directory.
const IN_TOP: usize = 200;

/// How many entries there are.
const COUNT: usize = IN_TOP + 101;

/// Which entry has the others below it.
const OUTER: usize = 6;

/// The modes, which go round.
const MODES: [&str; 5] = ["0000", "0644", "0755", "4711", "7777"];

/// The lengths of the files whose number modulo 203 is a place here; the others are empty.
const LENGTHS: [usize; 7] = [1, 2_047, 2_048, 2_049, 4_095, 4_096, 4_097];

/// In pieces of how many bytes the stream is imported.
const SIZES: &[usize] = &[1, 7, 4_096];

/// The path of an entry.
fn text_of(alloc: Global, number: usize) -> Result<String, Fail> {
    let (around, place) = if number < IN_TOP {
        ("/t", number)
    } else {
        ("/t/3", number - IN_TOP)
    };
    let mark = if place % 2 == 0 { "" } else { "-" };
    Ok(format!(in alloc; "{around}/{}{mark}", place / 2)?)
}

/// The bytes of a file: they count up from its number, modulo 251.
fn contents(alloc: Global, number: usize) -> Result<Vec<u8>, AllocError> {
    let mut bytes = Vec::new(alloc);
    if let Some(length) = LENGTHS.get(number % 203) {
        for i in 0..*length {
            bytes.push(((number % 251 + i) % 251) as u8)?;
        }
    }
    Ok(bytes)
}

/// Writes the bytes of a file.
fn fill(alloc: Global, tree: &mut PlainTree, text: &str, number: usize) -> Result<(), Fail> {
    let command = Command::Write {
        path: Path::read(alloc, text.as_bytes())?,
        off: 0,
        bytes: Bytes::from_vec(contents(alloc, number)?),
    };
    run(alloc, tree, &command)
}

/// Makes a directory or an empty file, with its mode.
fn make_empty(
    alloc: Global,
    tree: &mut PlainTree,
    verb: &str,
    text: &str,
    mode: &str,
) -> Result<(), Fail> {
    run_line(alloc, tree, &format!(in alloc; "{verb} {text}")?)?;
    run_line(alloc, tree, &format!(in alloc; "chmod {text} {mode}")?)
}

/// Makes an entry.
fn make(alloc: Global, tree: &mut PlainTree, number: usize) -> Result<(), Fail> {
    let text = text_of(alloc, number)?;
    let mode = MODES[number % MODES.len()];
    if number % 16 == OUTER {
        return make_empty(alloc, tree, "mkdir", &text, mode);
    }
    make_empty(alloc, tree, "create", &text, mode)?;
    fill(alloc, tree, &text, number)
}

/// The tree, at `/t`.
fn generated(alloc: Global) -> Result<PlainTree, Fail> {
    let mut tree = PlainTree::new(alloc)?;
    run_line(alloc, &mut tree, "mkdir /t")?;
    for number in 0..COUNT {
        make(alloc, &mut tree, number)?;
    }
    Ok(tree)
}

/// Its stream.
fn stream(alloc: Global) -> Result<Vec<u8>, Fail> {
    let mut tree = generated(alloc)?;
    let mut out = Vec::new(alloc);
    match exported(alloc, &mut tree, "/t", &mut out)? {
        None => Ok(out),
        Some(_) => Err(Fail::new("not exported")),
    }
}

#[test]
fn a_generated_tree_is_imported(rt: HostRuntime) -> Result<(), Fail> {
    let stream = stream(rt.alloc())?;
    assert_eq!(rt; stream.len(), LENGTH);
    let digest = Sha256::digest(stream.as_slice());
    assert_eq!(rt; digest.as_slice(), DIGEST.as_slice());
    for size in SIZES {
        let again = exported_again(rt.alloc(), &stream, *size)?;
        assert!(rt; again == stream, "in pieces of {size} bytes");
    }
    Ok(())
}
