//! Images in memory, scripts that are run on them, and an export and an import of each.

ghost use Rattle.std.specs.Prelude.{◌≡◌, [], None, IfOk};
ghost use Rattle.bd_shell.specs.Shell.{held_of, stop_in};

use bd_device::{Device, MemDevice};
use bd_io::{MemSink, MemSource};
use bd_names::Path;
use bd_shell::{Fault, Shell, run_script};
use bd_slots::image_blocks;
use bd_transfer::{ExportEnd, ImportEnd, export_subtree, import_subtree};
use bd_volume::{Refused, Volume};
use std::alloc::Global;
use std::test::Fail;

/// The slots of an image.
const SLOTS: u32 = 24;

/// How many writes a device has room for.
const WRITES: usize = 2_000;

/// How many bytes a sink has room for.
pub const ROOM: usize = 200_000;

/// A name of 254 bytes, for which `X` stands in lines and paths.
const LONG: &str = "\
    1234567890123456789012345678901234567890123456789012345678901234567890123456789012345\
    1234567890123456789012345678901234567890123456789012345678901234567890123456789012345\
    123456789012345678901234567890123456789012345678901234567890123456789012345678901234";

/// The path of a text.
fn path_of(alloc: Global, text: &str) -> Result<Path, Fail> {
    let spelled = text.replace(alloc, 'X', LONG)?;
    Ok(Path::read(alloc, spelled.as_bytes())?)
}

/// The device of a new image, of which these calls fail, which are later ones.
fn formatted(alloc: Global, fail: &[u64]) -> Result<MemDevice, Fail> {
    let device = MemDevice::new(alloc, image_blocks(SLOTS), WRITES, fail)?;
    if device.blocks() != image_blocks(SLOTS) {
        return Err(Fail::new("no device of so many blocks"));
    }
    match Volume::format(alloc, device, SLOTS) {
        Ok(volume) => Ok(volume.into_device()),
        Err(Refused { fault, .. }) => Err(Fail::from(fault)),
    }
}

/// A shell over an image.
fn started(alloc: Global, device: MemDevice) -> Result<Shell<MemDevice>, Fail>
    ensures line { IfOk result (λ shell. held_of shell ≡ []) }
    ensures going { IfOk result (λ shell. stop_in shell ≡ None) }
{
    match Shell::new(alloc, device) {
        Ok(shell) => Ok(shell),
        Err(Refused { fault, .. }) => Err(Fail::from(fault)),
    }
}

/// The device after a start alone.
pub fn started_alone(alloc: Global, device: MemDevice) -> Result<MemDevice, Fail> {
    let shell = started(alloc, device)?;
    Ok(shell.into_device())
}

/// Runs a script to its end, and returns the device.
fn run(
    alloc: Global,
    device: MemDevice,
    source: &mut MemSource,
    sink: &mut MemSink,
) -> Result<MemDevice, Fail> {
    let mut shell = started(alloc, device)?;
    let ended = run_script(alloc, &mut shell, source, sink);
    let device = shell.into_device();
    match ended {
        Ok(()) => Ok(device),
        Err(fault) => Err(Fail::from(fault)),
    }
}

/// Runs a script of lines, and returns the device. The replies are written to the sink.
pub fn answered(
    alloc: Global,
    device: MemDevice,
    lines: &str,
    sink: &mut MemSink,
) -> Result<MemDevice, Fail> {
    let spelled = lines.replace(alloc, 'X', LONG)?;
    let mut source = MemSource::new(alloc, spelled.as_bytes(), 4_096, &[])?;
    run(alloc, device, &mut source, sink)
}

/// The device of a new image after a script, of which these calls fail, which are later ones.
pub fn image(alloc: Global, lines: &str, fail: &[u64]) -> Result<MemDevice, Fail> {
    let mut sink = MemSink::new(alloc, ROOM, &[])?;
    let device = formatted(alloc, fail)?;
    answered(alloc, device, lines, &mut sink)
}

/// How an export ends, and the device after it.
pub fn exported(
    alloc: Global,
    device: MemDevice,
    text: &str,
    sink: &mut MemSink,
) -> Result<(Result<ExportEnd, Fault>, MemDevice), Fail> {
    let top = path_of(alloc, text)?;
    let mut shell = started(alloc, device)?;
    let end = export_subtree(alloc, &mut shell, &top, sink);
    Ok((end, shell.into_device()))
}

/// How an import ends, and the device after it.
pub fn imported(
    alloc: Global,
    device: MemDevice,
    text: &str,
    source: &mut MemSource,
) -> Result<(Result<ImportEnd, Fault>, MemDevice), Fail> {
    let target = path_of(alloc, text)?;
    let mut shell = started(alloc, device)?;
    let end = import_subtree(alloc, &mut shell, source, &target);
    Ok((end, shell.into_device()))
}

/// How an import of bytes to a path of a new image after a script ends.
pub fn outcome(
    alloc: Global,
    lines: &str,
    text: &str,
    stream: &[u8],
) -> Result<Result<ImportEnd, Fault>, Fail> {
    let mut source = MemSource::new(alloc, stream, 7, &[])?;
    let device = image(alloc, lines, &[])?;
    let (end, _) = imported(alloc, device, text, &mut source)?;
    Ok(end)
}
