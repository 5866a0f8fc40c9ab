//! The commands that the records of open batches are of.

ghost use Rattle.std.specs.Prelude.{◌≡◌, ◌<◌, ◌++◌, ◌↔◌, All, IfOk, IfErr, OnOk, true, false};
ghost use Rattle.bd_super.specs.Superblocks.{version_number};
ghost use Rattle.bd_image.specs.Versions.{mode_version, sets_mode};
ghost use Rattle.bd_image.specs.Damage.{placed_records};
ghost use Rattle.bd_checkpoint.specs.Commands.{IsPlacedIn, records_for, placed_in, AreCommandsOf, IsCommandFault, IsRecordOf};

use bd_command::Command;
use bd_command::laws::log_records_are_prefix_free;
use bd_device::ImageFault;
use bd_keys::Bytes;
use bd_log::Batch;
use bd_super::Version;
use bd_wire::Cursor;
use std::alloc::{AllocError, Global};

/// A command in the log of an image.
#[derive(Debug, Drop)]
pub struct PlacedCommand {
    /// The first body block of its batch.
    pub block: u64,
    /// The command.
    pub command: Command,
}

/// The commands of the records of open batches of an image of this version, in order. `Damaged`
/// comes only where a record is of no command that such an image has in its log, and names the
/// first body block of the batch with the first such record; `DeviceFault` doesn't come.
pub fn commands_of(
    alloc: Global,
    version: Version,
    batches: &[Batch],
) -> Result<Vec<PlacedCommand>, ImageFault>
    ensures commands { IfOk result (λ list.
        AreCommandsOf (version_number version) (placed_records batches.now) list.items) }
    ensures cause { IfErr result
        (IsCommandFault (version_number version) (placed_records batches.now)) }
{
    let mut list = Vec::new(alloc);
    for batch in batches {
        push_commands(
            alloc,
            version,
            batch.body,
            batch.records.as_slice(),
            &mut list,
        )?;
    }
    Ok(list)
}

// Puts the commands of a batch's records after others.
fn push_commands(
    alloc: Global,
    version: Version,
    block: u64,
    records: &[Bytes],
    list: &mut Vec<PlacedCommand>,
) -> Result<(), ImageFault>
    requires { All (IsPlacedIn (version_number version)) list.old.items }
    ensures commands { OnOk result (AreCommandsOf (version_number version)
        (records_for list.old.items ++ placed_in block records.now) list.new.items) }
    ensures cause { IfErr result (IsCommandFault (version_number version)
        (records_for list.old.items ++ placed_in block records.now)) }
{
    for bytes in records {
        let Some(command) = command_in(alloc, version, bytes.as_slice())? else {
            return Err(ImageFault::Damaged { block });
        };
        list.push(PlacedCommand { block, command })?;
    }
    Ok(())
}

// The command that a record is of, in the log of an image of this version.
fn command_in(alloc: Global, version: Version, bytes: &[u8]) -> Result<Option<Command>, AllocError>
    ensures { IfOk result (λ found. IsRecordOf (version_number version) bytes.now found) }
{
    log_records_are_prefix_free();
    let mut cursor = Cursor::new(bytes);
    let Some(command) = Command::log_read(alloc, &mut cursor)? else {
        return Ok(None);
    };
    if !cursor.left().is_empty() {
        return Ok(None);
    }
    if !has_record(version, &command) {
        return Ok(None);
    }
    Ok(Some(command))
}

/// Whether the log of an image of this version may have a command's record: not where it sets a
/// mode and the version is the first.
pub fn has_record(version: Version, command: &Command) -> bool
    ensures { result ≡ true
        ↔ (version_number version < mode_version → sets_mode command.now ≡ false) }
{
    match version {
        Version::One => !sets_mode(command),
        Version::Two => true,
    }
}

// Whether the command sets a mode.
fn sets_mode(command: &Command) -> bool
    ensures { result ≡ sets_mode command.now }
{
    match command {
        Command::Chmod { .. } => true,
        Command::Mkdir { .. }
        | Command::Create { .. }
        | Command::Write { .. }
        | Command::Truncate { .. }
        | Command::Remove { .. }
        | Command::Rename { .. }
        | Command::Clone { .. }
        | Command::Read { .. }
        | Command::Stat { .. }
        | Command::List { .. } => false,
    }
}
