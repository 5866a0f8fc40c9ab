//! How many slots have to be free for a command.

use crate::calls::{formatted, said};
use bd_device::MemDevice;
use bd_script::{Line, read_line};
use bd_volume::Volume;
use std::alloc::Global;
use std::process::Abort;
use std::test::Fail;

/// The needs of commands, the last of which is executed: on a new image all is saved, so that a
/// checkpoint writes the table alone; after a command it writes the root too.
const NEEDS: &[(&str, u64)] = &[("remove /a", 5), ("mkdir /a", 13), ("mkdir /b", 14)];

/// How many slots a line's command needs.
fn need_of(alloc: Global, volume: &Volume<MemDevice>, line: &str) -> Result<u64, Fail> {
    match read_line(alloc, line.as_bytes()) {
        Ok(Line::Run(command)) => Ok(volume.need(&command)),
        _ => Err(Fail::new("no command")),
    }
}

/// Whether commands need as many slots as they are said to.
fn are_needed(rt: &impl Abort, alloc: Global, volume: &mut Volume<MemDevice>) -> Result<(), Fail> {
    for (line, want) in NEEDS {
        assert_eq!(rt; need_of(alloc, volume, line)?, *want, "{line}");
        let _ = said(alloc, volume, line)?;
    }
    Ok(())
}

#[test]
fn a_command_needs_slots(rt: HostRuntime) -> Result<(), Fail> {
    let mut volume = formatted(&rt, rt.alloc(), 24, 2_000, &[])?;
    are_needed(&rt, rt.alloc(), &mut volume)
}
