//! The plain program takes each command once, on the tree of `/` alone. The worked rows of the map
//! run through the program itself.

use bd_plain::PlainTree;
use rows_tools::{plain_answer, text_of};
use std::alloc::Global;
use std::process::Abort;
use std::test::Fail;

/// Lines that take each command, with their replies.
pub const LINES: &[(&str, &str)] = &[
    ("mkdir /d", "ok"),
    ("create /d/f", "ok"),
    ("write /d/f 2 6869", "ok"),
    ("clone /d /e", "ok"),
    ("truncate /e/f 3", "ok"),
    ("rename /e /g", "ok"),
    ("read /d/f 0 9", "ok 00006869"),
    ("stat /g/f", "ok file 3 0000"),
    ("list /", "ok d/ g/"),
    ("chmod /g 0755", "ok"),
    ("stat /g", "ok dir 0755"),
    ("rename /g/f /d/f", "ok"),
    ("stat /d/f", "ok file 3 0000"),
    ("remove /d", "ok"),
    ("stat /d", "no 1 not-found"),
];

/// The text of what a line is answered.
fn answered(alloc: Global, tree: &mut PlainTree, line: &str) -> Result<String, Fail> {
    let found = plain_answer(alloc, tree, line)?;
    text_of(alloc, &found)
}

/// Whether a line is answered so.
fn is_answered(alloc: Global, tree: &mut PlainTree, line: &str, want: &str) -> Result<bool, Fail> {
    let found = answered(alloc, tree, line)?;
    Ok(found.as_str() == want)
}

/// Takes the lines.
fn take(rt: &impl Abort, alloc: Global, tree: &mut PlainTree) -> Result<(), Fail> {
    for (line, want) in LINES {
        assert!(rt; is_answered(alloc, tree, line, want)?, "{line}");
    }
    Ok(())
}

#[test]
fn each_command_is_taken(rt: HostRuntime) -> Result<(), Fail> {
    let mut tree = PlainTree::new(rt.alloc())?;
    take(&rt, rt.alloc(), &mut tree)
}
