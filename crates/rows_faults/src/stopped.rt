//! A volume whose device fails: after a failed read the same line has its reply, and after a failed
//! write or barrier each call that can fail says that the volume was stopped, and by which call of
//! the device.

use crate::calls::{fault_text, formatted, piece_line, said};
use bd_device::{Device, MemDevice};
use bd_volume::{Fault, Volume};
use std::alloc::Global;
use std::process::Abort;
use std::test::Fail;

/// How many writes a device has room for.
const WRITES: usize = 2_000;

/// How many pieces of 2,048 bytes the large file has, whose nodes stand on two levels.
const PIECES: u32 = 60;

/// Lines on an image with the large file with what they are answered. They read nodes, and change
/// so few that none is written.
const READING: &[(&str, &str)] = &[
    ("stat /d/f", "ok file 122880 0000"),
    ("read /d/f 90000 4", "ok 5a5a5a5a"),
    ("list /", "ok d/"),
    ("write /d/f 40000 aabb", "ok"),
    ("clone /d /k", "ok"),
    ("read /k/f 39999 4", "ok 5aaabb5a"),
    ("read /k/f 5000 4", "ok 5a5a5a5a"),
    ("read /d/f 120000 4", "ok 5a5a5a5a"),
    ("list /k", "ok f"),
    ("list /", "ok d/ k/"),
];

/// Lines on an image with a directory and a file of one piece, with what they are answered.
const WRITING: &[(&str, &str)] = &[
    ("stat /d/f", "ok file 2048 0000"),
    ("mkdir /a", "ok"),
    ("sync", "ok"),
    ("clone /d /e", "ok"),
    ("write /e/f 1 ff", "ok"),
    ("checkpoint", "ok"),
    ("remove /d", "ok"),
    ("reclaim", "ok"),
    ("rename /e /a/e", "ok"),
    ("sync", "ok"),
    ("read /a/e/f 0 4", "ok 00ff5a5a"),
];

/// What is asked of a volume that was stopped: each call that can fail.
const AFTER: &[&str] = &["stat /", "mkdir /q", "sync", "checkpoint", "reclaim"];

/// What a failed call of the device is answered.
const FAILED: &str = "the device failed";

/// How many calls of the device are from one that fails to the next one: more than read a node.
const GAP: u64 = 20;

/// Every so many calls of the device one is tried that fails, on an image of its own.
const STEP: usize = 3;

/// Whether a volume gives this answer to a line.
fn gives(
    rt: &impl Abort,
    alloc: Global,
    volume: &mut Volume<MemDevice>,
    line: &str,
    want: &str,
) -> Result<(), Fail> {
    let found = said(alloc, volume, line)?;
    assert_eq!(rt; found.as_str(), want, "{line}");
    Ok(())
}

/// Executes the lines that make an image with a file of so many pieces.
fn make(
    rt: &impl Abort,
    alloc: Global,
    volume: &mut Volume<MemDevice>,
    pieces: u32,
) -> Result<(), Fail> {
    gives(rt, alloc, volume, "mkdir /d", "ok")?;
    gives(rt, alloc, volume, "create /d/f", "ok")?;
    for at in 0..pieces {
        let line = piece_line(alloc, "/d/f", at)?;
        gives(rt, alloc, volume, &line, "ok")?;
    }
    gives(rt, alloc, volume, "checkpoint", "ok")
}

/// An image with a file of so many pieces, on a device of which these calls fail, which are later
/// ones.
fn image(rt: &impl Abort, alloc: Global, pieces: u32, fail: &[u64]) -> Result<MemDevice, Fail> {
    let mut volume = formatted(rt, alloc, 24, WRITES, fail)?;
    match make(rt, alloc, &mut volume, pieces) {
        Ok(()) => Ok(volume.into_device()),
        Err(fail) => Err(fail),
    }
}

/// A volume on a device.
fn started(alloc: Global, device: MemDevice) -> Result<Volume<MemDevice>, Fail> {
    match Volume::start(alloc, device) {
        Ok(volume) => Ok(volume),
        Err(unstarted) => Err(Fail::from(unstarted.fault())),
    }
}

/// A volume on a device, at the second try where the device fails at the first one.
fn started_at_last(alloc: Global, device: MemDevice) -> Result<Volume<MemDevice>, Fail> {
    match Volume::start(alloc, device) {
        Ok(volume) => Ok(volume),
        Err(unstarted) => {
            let fault = unstarted.fault();
            if fault == Fault::Device {
                return started(alloc, unstarted.into_device());
            }
            Err(Fail::from(fault))
        }
    }
}

/// Every so many numbers of calls from one on.
fn every(alloc: Global, first: u64) -> Result<Vec<u64>, Fail> {
    let mut calls = Vec::new(alloc);
    for index in 0..200 {
        calls.push(first.saturating_add(GAP.saturating_mul(index)))?;
    }
    Ok(calls)
}

/// Whether a volume gives this reply to a line in the end, and is never stopped.
fn gives_at_last(
    rt: &impl Abort,
    alloc: Global,
    volume: &mut Volume<MemDevice>,
    line: &str,
    want: &str,
) -> Result<(), Fail> {
    for _ in 0..100 {
        let found = said(alloc, volume, line)?;
        if found.as_str() == want {
            return Ok(());
        }
        assert_eq!(rt; found.as_str(), FAILED, "call {}: {line}", volume.calls());
        assert!(rt; volume.stopped().is_none(), "{line}");
    }
    Err(Fail::new("a line has no reply"))
}

/// Whether a volume gives the lines their replies in the end.
fn reads_at_last(
    rt: &impl Abort,
    alloc: Global,
    volume: &mut Volume<MemDevice>,
) -> Result<(), Fail> {
    for (line, want) in READING {
        gives_at_last(rt, alloc, volume, line, want)?;
    }
    Ok(())
}

/// Whether the lines have their replies where every so many calls fail from this one on, which is
/// after a start, and none of them writes.
fn read_again(rt: &impl Abort, alloc: Global, first: u64) -> Result<(), Fail> {
    let device = image(rt, alloc, PIECES, &every(alloc, first)?)?;
    let mut volume = started(alloc, device)?;
    match reads_at_last(rt, alloc, &mut volume) {
        Ok(()) => {
            let device = volume.into_device();
            assert!(rt;
                device.faults() > 0 && device.write_faults() == 0,
                "{first}"
            );
            Ok(())
        }
        Err(fail) => Err(fail),
    }
}

/// How many calls make the image and start a volume on it.
fn calls_of_start(rt: &impl Abort, alloc: Global) -> Result<u64, Fail> {
    let volume = started(alloc, image(rt, alloc, PIECES, &[])?)?;
    Ok(volume.calls())
}

#[test]
fn a_failed_read_is_tried_again(rt: HostRuntime) -> Result<(), Fail> {
    let begun = calls_of_start(&rt, rt.alloc())?;
    for shift in 1..=GAP {
        read_again(&rt, rt.alloc(), begun.saturating_add(shift))?;
    }
    Ok(())
}

/// Whether a volume was stopped by its device's last call, says so, and makes no more of them.
fn is_stopped(rt: &impl Abort, alloc: Global, volume: &mut Volume<MemDevice>) -> Result<(), Fail> {
    let call = volume.calls();
    let want = fault_text(alloc, Fault::Stopped { call })?;
    for line in AFTER {
        gives(rt, alloc, volume, line, &want)?;
    }
    assert_eq!(rt; volume.stopped(), Some(call));
    assert_eq!(rt; volume.calls(), call);
    Ok(())
}

/// Whether a volume gives this reply to a line, at the second time where a read of the device
/// fails. Else it was stopped.
fn goes_on(
    rt: &impl Abort,
    alloc: Global,
    volume: &mut Volume<MemDevice>,
    line: &str,
    want: &str,
) -> Result<bool, Fail> {
    let found = said(alloc, volume, line)?;
    if found.as_str() == want {
        return Ok(true);
    }
    assert_eq!(rt; found.as_str(), FAILED, "call {}: {line}", volume.calls());
    if volume.stopped().is_none() {
        gives(rt, alloc, volume, line, want)?;
        return Ok(true);
    }
    is_stopped(rt, alloc, volume)?;
    Ok(false)
}

/// Whether a volume gives the lines their replies, until it is stopped, if it is.
fn writes(rt: &impl Abort, alloc: Global, volume: &mut Volume<MemDevice>) -> Result<bool, Fail> {
    for (line, want) in WRITING {
        if !goes_on(rt, alloc, volume, line, want)? {
            return Ok(false);
        }
    }
    Ok(true)
}

/// Whether a volume gives the lines their replies, or is stopped, as the failed call was one that
/// writes. How many calls its device had.
fn is_right(
    rt: &impl Abort,
    alloc: Global,
    mut volume: Volume<MemDevice>,
    call: u64,
) -> Result<u64, Fail> {
    let begun = volume.calls();
    match writes(rt, alloc, &mut volume) {
        Ok(is_whole) => {
            let device = volume.into_device();
            let calls = device.calls();
            let is_written = call > begun && device.write_faults() > 0;
            assert_eq!(rt; is_whole, !is_written, "call {call}");
            assert_eq!(rt; device.faults(), u64::from(call <= calls), "call {call}");
            Ok(calls)
        }
        Err(fail) => Err(fail),
    }
}

/// The calls before the start and the lines on a device of which this call fails, and after them.
fn calls_of(rt: &impl Abort, alloc: Global, call: u64) -> Result<(u64, u64), Fail> {
    let device = image(rt, alloc, 1, &[call])?;
    let begun = device.calls();
    let calls = is_right(rt, alloc, started_at_last(alloc, device)?, call)?;
    Ok((begun, calls))
}

#[test]
fn every_third_failing_call_is_tried_again_or_stops_it(rt: HostRuntime) -> Result<(), Fail> {
    let (begun, calls) = calls_of(&rt, rt.alloc(), u64::MAX)?;
    assert!(rt; calls > begun.saturating_add(60), "{calls} calls");
    for call in (begun.saturating_add(1)..=calls).step_by(STEP) {
        let _ = calls_of(&rt, rt.alloc(), call)?;
    }
    Ok(())
}
