//! Volumes on devices in memory, and the text of what they answer, which is that of a fault where
//! there is one.

ghost use Rattle.bd_command.specs.Command.{IsCommand};

use bd_command::Command;
use bd_device::{Device, MemDevice};
use bd_limits::{MAX_SLOTS, MIN_SLOTS};
use bd_script::{Line, read_line};
use bd_slots::image_blocks;
use bd_volume::{Fault, Refused, Volume};
use std::alloc::Global;
use std::process::Abort;
use std::test::Fail;

/// A volume on a new image of so many slots, of whose device, which has room for so many writes,
/// these calls fail, which are later ones: so it is made, or there is no memory.
pub fn formatted(
    rt: &impl Abort,
    alloc: Global,
    slots: u32,
    writes: usize,
    fail: &[u64],
) -> Result<Volume<MemDevice>, Fail> {
    let device = MemDevice::new(alloc, image_blocks(slots), writes, fail)?;
    if slots < MIN_SLOTS || slots > MAX_SLOTS || device.blocks() != image_blocks(slots) {
        return Err(Fail::new("no image of so many slots"));
    }
    match Volume::format(alloc, device, slots) {
        Ok(volume) => Ok(volume),
        Err(Refused { fault, .. }) => {
            assert_eq!(rt; fault, Fault::NoMemory);
            Err(Fail::from(fault))
        }
    }
}

/// Whether a line makes all accepted commands durable.
pub fn keeps(line: &str) -> bool {
    line == "sync" || line == "checkpoint" || line == "reclaim"
}

/// The text of what a volume answers to a line.
pub fn said<D: Device>(alloc: Global, volume: &mut Volume<D>, line: &str) -> Result<String, Fail> {
    match line {
        "sync" => done(alloc, volume.sync()),
        "checkpoint" => done(alloc, volume.checkpoint()),
        "reclaim" => done(alloc, volume.reclaim()),
        _ => executed_line(alloc, volume, line),
    }
}

/// The text of what a volume answers to a line with a command.
fn executed_line<D: Device>(
    alloc: Global,
    volume: &mut Volume<D>,
    line: &str,
) -> Result<String, Fail> {
    match read_line(alloc, line.as_bytes()) {
        Ok(Line::Run(command)) => executed(alloc, volume, &command),
        _ => Err(Fail::new("no command")),
    }
}

/// The text of what a volume answers to a command.
fn executed<D: Device>(
    alloc: Global,
    volume: &mut Volume<D>,
    command: &Command,
) -> Result<String, Fail>
    requires { IsCommand command.now }
{
    match volume.do_command(command) {
        Ok(reply) => rows_tools::text_of(alloc, &reply),
        Err(fault) => fault_text(alloc, fault),
    }
}

/// The text of a call that answers nothing more.
fn done(alloc: Global, ended: Result<(), Fault>) -> Result<String, Fail> {
    match ended {
        Ok(()) => Ok(String::from_str(alloc, "ok")?),
        Err(fault) => fault_text(alloc, fault),
    }
}

/// The text of a fault.
pub fn fault_text(alloc: Global, fault: Fault) -> Result<String, Fail> {
    Ok(format!(in alloc; "{fault}")?)
}

/// A text, `count` times.
pub fn repeated(alloc: Global, text: &str, count: usize) -> Result<String, Fail> {
    let mut all = String::new(alloc);
    for _ in 0..count {
        all.push_str(text)?;
    }
    Ok(all)
}

/// The line of a write of 2,048 bytes, which follows so many others: its number and bytes of 5a.
pub fn piece_line(alloc: Global, path: &str, at: u32) -> Result<String, Fail> {
    let digits = repeated(alloc, "5a", 2_046)?;
    Ok(format!(in alloc;
        "write {path} {} {at:04x}{digits}",
        at.saturating_mul(2_048)
    )?)
}
