//! The bytes of exports, and what an import makes of them.

ghost use Rattle.std.specs.Prelude.{◌≤◌};

use crate::images::{ROOM, answered, exported, image, imported};
use bd_device::MemDevice;
use bd_io::{MemSink, MemSource};
use bd_transfer::{ExportEnd, ImportEnd};
use std::alloc::Global;
use std::process::Abort;
use std::test::Fail;

/// A file of one byte in a directory, a directory without names, a file without bytes, one whose
/// first bytes were never written, names that begin others, and a path of 513 bytes.
const LINES: &str = "\
    mkdir /d\ncreate /d/x\nwrite /d/x 0 41\nmkdir /n\nchmod /n 0755\ncreate /f\nchmod /f 0644\n\
    create /h\nwrite /h 3 41\nmkdir /o\ncreate /o/b\ncreate /o/a-\nmkdir /o/a\ncreate /o/a/x\n\
    mkdir /c\ncreate /c/y\ncreate /c/yy\ncreate /c/z\nmkdir /X\nrename /c /X/X\n";

/// The stream of `/o`.
const NAMES: &[u8] =
    b"BDX1D\0\0\0\0D\0\x01a\0\0F\0\x03a/x\0\0\0\0\0\0F\0\x02a-\0\0\0\0\0\0F\0\x01b\0\0\0\0\0\0E";

/// Paths, what is written of them and how the export ends: of the last one, `y` has a path of 512
/// bytes and `yy` one of 513.
const EXPORTS: &[(&str, &[u8], ExportEnd)] = &[
    (
        "/d",
        b"BDX1D\0\0\0\0F\0\x01x\0\0\0\0\0\x01AE",
        ExportEnd::Whole,
    ),
    ("/n", b"BDX1D\0\0\x01\xedE", ExportEnd::Whole),
    ("/f", b"BDX1F\0\0\x01\xa4\0\0\0\0E", ExportEnd::Whole),
    ("/h", b"BDX1F\0\0\0\0\0\0\0\x04\0\0\0AE", ExportEnd::Whole),
    ("/o", NAMES, ExportEnd::Whole),
    ("/p", b"", ExportEnd::Absent),
    ("/f/p", b"", ExportEnd::Absent),
    (
        "/X/X",
        b"BDX1D\0\0\0\0F\0\x01y\0\0\0\0\0\0",
        ExportEnd::LongPath,
    ),
];

/// What is asked of an image with `NAMES` at `/e`, and what is answered.
const ASKED: &str = "list /\nlist /e\nstat /e\nlist /e/a\nstat /e/a/x\nstat /e/a-\nstat /e/b\n";

const ANSWERS: &str = "ok e/\nok a/ a- b\nok dir 0000\nok x\nok file 0 0000\nok file 0 0000\n\
    ok file 0 0000\n";

/// How many bytes a file has that is read in two pieces.
const LARGE: usize = 2_050;

/// Whether the export of a path of an image has these bytes, and ends so.
fn has_bytes(
    rt: &impl Abort,
    alloc: Global,
    device: MemDevice,
    text: &str,
    want: &[u8],
    end: ExportEnd,
) -> Result<(), Fail> {
    let mut sink = MemSink::new(alloc, ROOM, &[])?;
    let (found, _) = exported(alloc, device, text, &mut sink)?;
    assert_eq!(rt; found, Ok(end), "{text}");
    assert_eq!(rt; sink.bytes(), want, "{text}");
    Ok(())
}

/// An image that has at `/e` what these bytes make in pieces of so many, by so many commands.
fn made(
    rt: &impl Abort,
    alloc: Global,
    stream: &[u8],
    piece: usize,
    count: u64,
) -> Result<MemDevice, Fail>
    requires { 1 ≤ piece }
{
    let mut source = MemSource::new(alloc, stream, piece, &[])?;
    let device = image(alloc, "", &[])?;
    let (end, device) = imported(alloc, device, "/e", &mut source)?;
    assert_eq!(rt; end, Ok(ImportEnd::Whole { count }), "pieces of {piece}");
    Ok(device)
}

/// Whether bytes are a stream that so many commands make, of which an export has the same bytes.
fn comes_again(
    rt: &impl Abort,
    alloc: Global,
    stream: &[u8],
    piece: usize,
    count: u64,
) -> Result<(), Fail>
    requires { 1 ≤ piece }
{
    let device = made(rt, alloc, stream, piece, count)?;
    has_bytes(rt, alloc, device, "/e", stream, ExportEnd::Whole)
}

/// Whether the tree that `NAMES` make in pieces of so many bytes is answered so.
fn is_answered(rt: &impl Abort, alloc: Global, piece: usize) -> Result<(), Fail>
    requires { 1 ≤ piece }
{
    let mut sink = MemSink::new(alloc, ROOM, &[])?;
    let device = made(rt, alloc, NAMES, piece, 5)?;
    let _ = answered(alloc, device, ASKED, &mut sink)?;
    assert_eq!(rt; sink.bytes(), ANSWERS.as_bytes());
    Ok(())
}

/// The lines that make the large file `/l`: bytes 5a, the last two of which are 01 and 02.
fn large_lines(alloc: Global) -> Result<String, Fail> {
    let mut lines = String::from_str(alloc, "create /l\nchmod /l 7777\nwrite /l 0 ")?;
    for _ in 2..LARGE {
        lines.push_str("5a")?;
    }
    lines.push_str("\nwrite /l 2048 0102\n")?;
    Ok(lines)
}

/// Its stream.
fn large_stream(alloc: Global) -> Result<Vec<u8>, Fail> {
    let mut stream = Vec::from_slice(alloc, b"BDX1F\0\0\x0f\xff\0\0\x08\x02")?;
    for _ in 2..LARGE {
        stream.push(0x5a)?;
    }
    stream.extend_from_slice(b"\x01\x02E")?;
    Ok(stream)
}

#[test]
fn exports_have_their_bytes(rt: HostRuntime) -> Result<(), Fail> {
    for (text, want, end) in EXPORTS {
        let device = image(rt.alloc(), LINES, &[])?;
        has_bytes(&rt, rt.alloc(), device, text, want, *end)?;
    }
    Ok(())
}

#[test]
fn a_large_file_has_its_bytes(rt: HostRuntime) -> Result<(), Fail> {
    let lines = large_lines(rt.alloc())?;
    let want = large_stream(rt.alloc())?;
    let device = image(rt.alloc(), &lines, &[])?;
    has_bytes(&rt, rt.alloc(), device, "/l", &want, ExportEnd::Whole)
}

#[test]
fn a_large_file_comes_again(rt: HostRuntime) -> Result<(), Fail> {
    let stream = large_stream(rt.alloc())?;
    comes_again(&rt, rt.alloc(), &stream, 1, 4)?;
    comes_again(&rt, rt.alloc(), &stream, 4_096, 4)
}

#[test]
fn small_streams_come_again(rt: HostRuntime) -> Result<(), Fail> {
    for ((_, stream, _), count) in EXPORTS.iter().zip([3, 2, 2, 2, 5]) {
        comes_again(&rt, rt.alloc(), stream, 1, count)?;
        comes_again(&rt, rt.alloc(), stream, 4_096, count)?;
    }
    Ok(())
}

#[test]
fn an_import_makes_the_tree(rt: HostRuntime) -> Result<(), Fail> {
    is_answered(&rt, rt.alloc(), 1)?;
    is_answered(&rt, rt.alloc(), 4_096)
}
