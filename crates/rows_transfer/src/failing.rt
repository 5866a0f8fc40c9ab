//! A device, a source and a sink that fail.

use crate::images::{ROOM, exported, image, imported, started_alone};
use crate::refused::STREAM;
use bd_device::Device;
use bd_io::{MemSink, MemSource};
use bd_shell::Fault;
use bd_transfer::{ExportEnd, ImportEnd};
use std::alloc::Global;
use std::process::Abort;
use std::test::Fail;

/// The lines that make what the stream has.
const LINES: &str = "mkdir /e\ncreate /e/x\nwrite /e/x 0 41\n";

/// How many pieces of 2,048 bytes the large file has, whose nodes stand on two levels.
const PIECES: u32 = 60;

/// Every so many calls of the device in an export one is tried that fails.
const STEP: usize = 7;

/// The lines that make a directory `/e` with the large file.
fn large_lines(alloc: Global) -> Result<String, Fail> {
    let mut digits = String::new(alloc);
    for _ in 0..2_048 {
        digits.push_str("5a")?;
    }
    let mut lines = String::from_str(alloc, "mkdir /e\ncreate /e/f\n")?;
    for at in 0..PIECES {
        let line = format!(in alloc; "write /e/f {} {digits}\n", at.saturating_mul(2_048))?;
        lines.push_str(&line)?;
    }
    lines.push_str("checkpoint\n")?;
    Ok(lines)
}

/// The number of the last call of the device of a start alone.
fn calls_of_start(alloc: Global, lines: &str) -> Result<u64, Fail> {
    let device = image(alloc, lines, &[])?;
    let device = started_alone(alloc, device)?;
    Ok(device.calls())
}

/// How an export of `/e` ends on an image of which these calls of the device fail, and the number of
/// the last call.
fn end_of_export(
    alloc: Global,
    lines: &str,
    fail: &[u64],
) -> Result<(Result<ExportEnd, Fault>, u64), Fail> {
    let mut sink = MemSink::new(alloc, ROOM, &[])?;
    let device = image(alloc, lines, fail)?;
    let (end, device) = exported(alloc, device, "/e", &mut sink)?;
    Ok((end, device.calls()))
}

/// How an import to `/e` ends on an image of which these calls of the device fail, and the number of
/// the last call.
fn end_of_import(alloc: Global, fail: &[u64]) -> Result<(Result<ImportEnd, Fault>, u64), Fail> {
    let mut source = MemSource::new(alloc, STREAM, 7, &[])?;
    let device = image(alloc, "", fail)?;
    let (end, device) = imported(alloc, device, "/e", &mut source)?;
    Ok((end, device.calls()))
}

/// Whether an export to a sink with so much room fails for the sink, after bytes that begin the
/// stream.
fn fails_at_the_sink(rt: &impl Abort, alloc: Global, room: usize) -> Result<(), Fail> {
    let mut sink = MemSink::new(alloc, room, &[])?;
    let device = image(alloc, LINES, &[])?;
    let (end, _) = exported(alloc, device, "/e", &mut sink)?;
    assert_eq!(rt; end, Err(Fault::Sink), "room for {room}");
    assert_eq!(rt;
        sink.bytes(),
        &STREAM[..room.min(STREAM.len())],
        "room for {room}"
    );
    Ok(())
}

#[test]
fn an_export_ends_where_its_device_fails(rt: HostRuntime) -> Result<(), Fail> {
    let lines = large_lines(rt.alloc())?;
    let first = calls_of_start(rt.alloc(), &lines)?.saturating_add(1);
    let (end, last) = end_of_export(rt.alloc(), &lines, &[])?;
    assert_eq!(rt; end, Ok(ExportEnd::Whole));
    assert!(rt; first < last);
    for call in (first..=last).step_by(STEP) {
        let (end, _) = end_of_export(rt.alloc(), &lines, &[call])?;
        assert_eq!(rt; end, Err(Fault::Device), "call {call}");
    }
    Ok(())
}

#[test]
fn an_import_ends_where_its_device_fails(rt: HostRuntime) -> Result<(), Fail> {
    let first = calls_of_start(rt.alloc(), "")?.saturating_add(1);
    let (end, last) = end_of_import(rt.alloc(), &[])?;
    assert_eq!(rt; end, Ok(ImportEnd::Whole { count: 3 }));
    assert!(rt; first < last);
    for call in first..=last {
        let (end, _) = end_of_import(rt.alloc(), &[call])?;
        assert_eq!(rt; end, Err(Fault::Device), "call {call}");
    }
    Ok(())
}

#[test]
fn an_export_ends_where_its_sink_fails(rt: HostRuntime) -> Result<(), Fail> {
    for room in 0..STREAM.len() {
        fails_at_the_sink(&rt, rt.alloc(), room)?;
    }
    Ok(())
}

#[test]
fn an_import_ends_where_its_source_fails(rt: HostRuntime) -> Result<(), Fail> {
    for call in 1..=4 {
        let mut source = MemSource::new(rt.alloc(), STREAM, 7, &[call])?;
        let device = image(rt.alloc(), "", &[])?;
        let (end, _) = imported(rt.alloc(), device, "/e", &mut source)?;
        assert_eq!(rt; end, Err(Fault::Source), "call {call}");
    }
    Ok(())
}
