use bd_entries::{Entries, check_entries};
use bd_keys::Bytes;
use bd_message::{ListMap, Message};
use rows_tools::apply;
use std::alloc::Global;
use std::process::Abort;
use std::test::Fail;

/// How many keys are looked at.
const MOST: u64 = 3;

/// The verdict on the keys of a map with these entries.
fn verdict(alloc: Global, has_modes: bool, entries: &[(&[u8], &[u8])]) -> Result<Entries, Fail> {
    let mut map = ListMap::new(alloc);
    for (key, value) in entries {
        let key = Bytes::from_slice(alloc, *key)?;
        let value = Bytes::from_slice(alloc, *value)?;
        apply(&mut map, Message::Put { key, value })?;
    }
    Ok(check_entries(alloc, &mut map, has_modes, MOST)?)
}

/// What is tested, whether there are modes, what stands at keys, and the verdict.
type Row = (
    &'static str,
    bool,
    &'static [(&'static [u8], &'static [u8])],
    Entries,
);

/// The entry of the root.
const ROOT: (&[u8], &[u8]) = (b"\0\0", b"D");

/// The entry of a directory `/a`.
const DIR: (&[u8], &[u8]) = (b"a\0\0\0", b"D");

/// The entry of a file `/a` of 2 bytes.
const FILE: (&[u8], &[u8]) = (b"a\0\0\0", b"F\0\0\0\x02");

/// The entry of a file `/a` of 1,025 bytes.
const LONG: (&[u8], &[u8]) = (b"a\0\0\0", b"F\0\0\x04\x01");

const ROWS: &[Row] = &[
    // Trees.
    ("the root", true, &[ROOT], Entries::Tree { keys: 1 }),
    ("a directory", true, &[ROOT, DIR], Entries::Tree { keys: 2 }),
    (
        "a file of a directory, as many keys as are looked at",
        true,
        &[ROOT, DIR, (b"a\0b\0\0\0", b"F\0\0\0\0")],
        Entries::Tree { keys: 3 },
    ),
    (
        "a directory after one that has none",
        true,
        &[ROOT, DIR, (b"b\0\0\0", b"D")],
        Entries::Tree { keys: 3 },
    ),
    (
        "a file's block",
        true,
        &[ROOT, FILE, (b"a\0\0\x01\0\0\0\0", b"xy")],
        Entries::Tree { keys: 3 },
    ),
    (
        "a file without its first block",
        true,
        &[ROOT, LONG, (b"a\0\0\x01\0\0\0\x01", b"x")],
        Entries::Tree { keys: 3 },
    ),
    (
        "a mode",
        true,
        &[(b"\0\0", b"D\x01\xed")],
        Entries::Tree { keys: 1 },
    ),
    // No trees: the first key.
    ("no key", true, &[], Entries::Broken),
    ("no root", true, &[DIR], Entries::Broken),
    (
        "a file as the root",
        true,
        &[(b"\0\0", b"F\0\0\0\0")],
        Entries::Broken,
    ),
    (
        "a mode where there are none",
        false,
        &[(b"\0\0", b"D\x01\xed")],
        Entries::Broken,
    ),
    // Records.
    (
        "no record",
        true,
        &[ROOT, (b"a\0\0\0", b"E")],
        Entries::Broken,
    ),
    (
        "a later mode where there are none",
        false,
        &[ROOT, (b"a\0\0\0", b"D\x01\xed")],
        Entries::Broken,
    ),
    (
        "no parent",
        true,
        &[ROOT, (b"a\0b\0\0\0", b"D")],
        Entries::Broken,
    ),
    (
        "a file as the parent",
        true,
        &[ROOT, FILE, (b"a\0b\0\0\0", b"D")],
        Entries::Broken,
    ),
    (
        "no name",
        true,
        &[ROOT, (b"a/b\0\0\0", b"D")],
        Entries::Broken,
    ),
    // Blocks.
    (
        "a byte past the file's end",
        true,
        &[ROOT, FILE, (b"a\0\0\x01\0\0\0\0", b"xyz")],
        Entries::Broken,
    ),
    (
        "a later byte past the file's end",
        true,
        &[ROOT, LONG, (b"a\0\0\x01\0\0\0\x01", b"xy")],
        Entries::Broken,
    ),
    (
        "a directory's block",
        true,
        &[ROOT, DIR, (b"a\0\0\x01\0\0\0\0", b"x")],
        Entries::Broken,
    ),
    (
        "a block of no file",
        true,
        &[ROOT, (b"a\0\0\x01\0\0\0\0", b"x")],
        Entries::Broken,
    ),
    // Other keys.
    ("another key", true, &[ROOT, (b"a", b"D")], Entries::Broken),
    (
        "another key after a file",
        true,
        &[ROOT, FILE, (b"a\0\0\x01\0\0\0", b"x")],
        Entries::Broken,
    ),
    // More keys than are looked at.
    (
        "a fourth key",
        true,
        &[ROOT, DIR, (b"b\0\0\0", b"D"), (b"c\0\0\0", b"D")],
        Entries::Limit,
    ),
    (
        "a fourth key that isn't looked at",
        true,
        &[ROOT, DIR, (b"b\0\0\0", b"D"), (b"c", b"D")],
        Entries::Limit,
    ),
    (
        "the third of four is broken",
        true,
        &[ROOT, DIR, (b"b\0\0\0", b"E"), (b"c\0\0\0", b"D")],
        Entries::Broken,
    ),
];

// Compares each verdict with the row's.
fn check_all(rt: &impl Abort, alloc: Global) -> Result<(), Fail> {
    for (name, has_modes, entries, want) in ROWS {
        let found = verdict(alloc, *has_modes, *entries)?;
        assert!(rt; found == *want, "{name}: {found:?}");
    }
    Ok(())
}

#[test]
fn keys_have_their_verdicts(rt: HostRuntime) -> Result<(), Fail> {
    check_all(&rt, rt.alloc())
}
