//! What is exported of small trees.

use crate::around::{exported, exported_again, run_line};
use bd_command::Refusal;
use bd_plain::PlainTree;
use bd_stream::ExportFault;
use std::alloc::Global;
use std::test::Fail;

/// Lines: a file of one byte in a directory, a directory without names, a file without bytes, one
/// whose first bytes were never written, names that begin others, and a path of 513 bytes.
const LINES: &[&str] = &[
    "mkdir /d",
    "create /d/x",
    "write /d/x 0 41",
    "mkdir /n",
    "chmod /n 0755",
    "create /f",
    "chmod /f 0644",
    "create /h",
    "write /h 3 41",
    "mkdir /o",
    "create /o/b",
    "create /o/a-",
    "mkdir /o/a",
    "create /o/a/x",
    "mkdir /c",
    "create /c/y",
    "create /c/yy",
    "create /c/z",
    "mkdir /X",
    "rename /c /X/X",
];

/// Paths, what is written of them, and why no more: of the last, `y` has a path of 512 bytes and
/// `yy` one of 513.
const EXPORTS: &[(&str, &[u8], Option<ExportFault>)] = &[
    ("/d", b"BDX1D\0\0\0\0F\0\x01x\0\0\0\0\0\x01AE", None),
    ("/n", b"BDX1D\0\0\x01\xedE", None),
    ("/f", b"BDX1F\0\0\x01\xa4\0\0\0\0E", None),
    ("/h", b"BDX1F\0\0\0\0\0\0\0\x04\0\0\0AE", None),
    (
        "/o",
        b"BDX1D\0\0\0\0D\0\x01a\0\0F\0\x03a/x\0\0\0\0\0\0F\0\x02a-\0\0\0\0\0\0F\0\x01b\0\0\0\0\0\0E",
        None,
    ),
    ("/p", b"", Some(ExportFault::Refused(Refusal::NotFound))),
    ("/f/p", b"", Some(ExportFault::Refused(Refusal::NotFound))),
    (
        "/X/X",
        b"BDX1D\0\0\0\0F\0\x01y\0\0\0\0\0\0",
        Some(ExportFault::LongPath),
    ),
];

/// The tree of the lines.
fn made(alloc: Global) -> Result<PlainTree, Fail> {
    let mut tree = PlainTree::new(alloc)?;
    for line in LINES {
        run_line(alloc, &mut tree, line)?;
    }
    Ok(tree)
}

#[test]
fn exports_have_their_bytes(rt: HostRuntime) -> Result<(), Fail> {
    let mut tree = made(rt.alloc())?;
    for (text, want, fault) in EXPORTS {
        let mut out = Vec::new(rt.alloc());
        let found = exported(rt.alloc(), &mut tree, text, &mut out)?;
        assert_eq!(rt; found, *fault, "{text}");
        assert_eq!(rt; out.as_slice(), *want, "{text}");
    }
    Ok(())
}

#[test]
fn exports_are_imported_byte_by_byte(rt: HostRuntime) -> Result<(), Fail> {
    for (text, stream, fault) in EXPORTS {
        if fault.is_none() {
            let again = exported_again(rt.alloc(), stream, 1)?;
            assert_eq!(rt; again.as_slice(), *stream, "{text}");
        }
    }
    Ok(())
}
