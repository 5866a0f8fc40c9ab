//! The loop of an import: a stream is taken in pieces, and the commands that it gives are executed.

ghost use Rattle.std.specs.Prelude.{◌≡◌, ◌++◌, ℕ, true, false, None, IfOk, IfErr, OnOk, OnErr};
ghost use Rattle.std.specs.List.{AllByRecursion};
ghost use Rattle.bd_command.specs.Command.{IsCommand};
ghost use Rattle.bd_device.specs.Device.{Stays};
ghost use Rattle.bd_stream.specs.Feeding.{has_ended, seen};
ghost use Rattle.bd_stream.specs.Importing.{fed};
ghost use Rattle.bd_stream.specs.Within.{IsWell};
ghost use Rattle.bd_shell.specs.Fault.{IsCaused, faults};
ghost use Rattle.bd_shell.specs.Session.{ClosedAt, acks_at_end, end_of};
ghost use Rattle.bd_shell.specs.Shell.{FailsNoWrite, NamesBad, ShellAt, acks_in, counts_of, device_in, stop_in};
ghost use Rattle.bd_shell.specs.Transcript.{HasAcked};
ghost use Rattle.bd_transfer.specs.Giving.{Concludes, FeedsPiece, GivesAll, GivesOne, Imports, IsStopAt, end_by, fed_by, is_made, keeps};

use crate::taking::{Given, next_piece};
use bd_command::{Command, Refusal, Reply};
use bd_device::Device;
use bd_io::{Failed, Source};
use bd_limits::MAX_PIECE;
use bd_names::Path;
use bd_script::LineReply;
use bd_shell::{Fault, Shell};
use bd_stream::{ImportFault, Importer};
use std::alloc::Global;
use std::collections::VecDeque;

/// How an import ended where no fault came.
#[derive(Clone, Copy, Debug, PartialEq, Eq)]
pub enum ImportEnd {
    /// The stream is whole, and all its commands, so many, were accepted.
    Whole { count: u64 },
    /// The bytes are no stream, or end before it does.
    BadStream,
    /// The path of the next entry has more than 512 bytes.
    LongPath,
    /// A command was refused.
    Refused(Refusal),
    /// Too few slots are free for a command.
    Full { free: u64, need: u64 },
}

/// What came of a piece.
#[derive(Clone, Copy, Debug, PartialEq, Eq)]
pub enum Fed {
    /// All its commands, so many, were accepted, and more may come.
    More(usize),
    /// The import ends.
    Ended(ImportEnd),
}

// How an import ends by what is said to a command, if it does.
fn end_by(said: &LineReply) -> Option<ImportEnd>
    ensures { result ≡ end_by said.now }
{
    match said {
        LineReply::Command(Reply::Refused(refusal)) => Some(ImportEnd::Refused(*refusal)),
        LineReply::Full { free, need } => Some(ImportEnd::Full {
            free: *free,
            need: *need,
        }),
        LineReply::Command(_)
        | LineReply::Unread(_)
        | LineReply::Walk { .. }
        | LineReply::Done
        | LineReply::Free { .. }
        | LineReply::Stopped => None,
    }
}

// Executes a command of a stream.
fn give_one<D: Device + Drop>(
    shell: &mut Shell<D>,
    command: Command,
) -> Result<Option<ImportEnd>, Fault>
    requires limits { IsCommand command }
    requires going { stop_in shell.old ≡ None }
    ensures one { (first : D) (since : ℕ) → GivesOne result command
        (ShellAt D.Device first since shell.old) (ShellAt D.Device first since shell.new) }
    ensures unacked { acks_in shell.new ≡ acks_in shell.old }
    ensures going { OnOk result (stop_in shell.new ≡ None) }
    ensures device { Stays D.Device (device_in shell.old) (device_in shell.new) }
    ensures writes { FailsNoWrite D.Device (device_in shell.old) (device_in shell.new) result }
    ensures damage { NamesBad (D.contents (device_in shell.new)) result }
    ensures cause { (sink : ℕ) → IsCaused (counts_of D.Device (device_in shell.old) sink)
        (counts_of D.Device (device_in shell.new) sink)
        (D.last_failed (device_in shell.new)) result }
{
    let said = shell.do_command(command)?;
    Ok(end_by(&said))
}

// Executes commands of a stream, up to one whose reply ends the import.
fn give_all<D: Device + Drop>(
    shell: &mut Shell<D>,
    commands: Vec<Command>,
) -> Result<Option<ImportEnd>, Fault>
    requires limits { AllByRecursion IsCommand commands.items }
    requires going { stop_in shell.old ≡ None }
    ensures all { (first : D) (since : ℕ) → GivesAll result commands.items
        (ShellAt D.Device first since shell.old) (ShellAt D.Device first since shell.new) }
    ensures unacked { acks_in shell.new ≡ acks_in shell.old }
    ensures going { OnOk result (stop_in shell.new ≡ None) }
    ensures device { Stays D.Device (device_in shell.old) (device_in shell.new) }
    ensures writes { FailsNoWrite D.Device (device_in shell.old) (device_in shell.new) result }
    ensures damage { NamesBad (D.contents (device_in shell.new)) result }
    ensures cause { (sink : ℕ) → IsCaused (counts_of D.Device (device_in shell.old) sink)
        (counts_of D.Device (device_in shell.new) sink)
        (D.last_failed (device_in shell.new)) result }
{
    let mut left = VecDeque::from(commands);
    'commands: while let Some(command) = left.pop_front() {
        if let Some(end) = give_one(shell, command)? {
            return Ok(Some(end));
        }
    }
    Ok(None)
}

// Feeds a piece, and says how the import ends by it, if it does.
fn take_piece(
    alloc: Global,
    importer: &mut Importer,
    piece: &[u8],
    commands: &mut Vec<Command>,
) -> Result<Option<ImportEnd>, Fault>
    ensures state { OnOk result (seen importer.new ≡ (fed (seen importer.old) piece.now).0) }
    ensures commands { OnOk result (commands.new.items
        ≡ commands.old.items ++ (fed (seen importer.old) piece.now).1) }
    ensures end { IfOk result (λ end. IsStopAt end (seen importer.new).phase) }
    ensures err { IfErr result (λ e. e ≡ Fault.Memory) }
    ensures kept { OnErr result (seen importer.new ≡ seen importer.old) }
{
    match importer.feed(alloc, piece, commands) {
        Ok(()) => Ok(None),
        Err(ImportFault::BadStream) => Ok(Some(ImportEnd::BadStream)),
        Err(ImportFault::LongPath) => Ok(Some(ImportEnd::LongPath)),
        Err(ImportFault::NoMemory) => Err(Fault::Memory),
    }
}

// How an import goes on after a piece, whose commands were so many.
fn fed_by(end: Option<ImportEnd>, count: usize) -> Fed
    ensures { result ≡ fed_by end count }
{
    match end {
        None => Fed::More(count),
        Some(end) => Fed::Ended(end),
    }
}

// Feeds a piece, and executes the commands that it gives.
fn feed_piece<D: Device + Drop>(
    alloc: Global,
    shell: &mut Shell<D>,
    importer: &mut Importer,
    piece: &[u8],
) -> Result<Fed, Fault>
    requires well { IsWell (seen importer.old) }
    requires going { stop_in shell.old ≡ None }
    ensures feeds { (first : D) (since : ℕ) → FeedsPiece result (seen importer.old)
        (seen importer.new) piece.now (ShellAt D.Device first since shell.old)
        (ShellAt D.Device first since shell.new) }
    ensures well { OnOk result (IsWell (seen importer.new)) }
    ensures unacked { acks_in shell.new ≡ acks_in shell.old }
    ensures going { OnOk result (stop_in shell.new ≡ None) }
    ensures device { Stays D.Device (device_in shell.old) (device_in shell.new) }
    ensures writes { FailsNoWrite D.Device (device_in shell.old) (device_in shell.new) result }
    ensures damage { NamesBad (D.contents (device_in shell.new)) result }
    ensures cause { (sink : ℕ) → IsCaused (counts_of D.Device (device_in shell.old) sink)
        (counts_of D.Device (device_in shell.new) sink)
        (D.last_failed (device_in shell.new)) result }
{
    let mut commands = Vec::new(alloc);
    let end = take_piece(alloc, importer, piece, &mut commands)?;
    let count = commands.len();
    match give_all(shell, commands)? {
        None => Ok(fed_by(end, count)),
        Some(stop) => Ok(Fed::Ended(stop)),
    }
}

// How an import ends where its stream does.
fn end_at(importer: &Importer, count: u64) -> ImportEnd
    ensures whole { has_ended (seen importer.now).phase ≡ true
        → result ≡ ImportEnd.Whole count }
    ensures early { has_ended (seen importer.now).phase ≡ false
        → result ≡ ImportEnd.BadStream }
{
    if importer.whole() {
        ImportEnd::Whole { count }
    } else {
        ImportEnd::BadStream
    }
}

// Takes a stream piece by piece, and executes the commands that it gives.
fn import_pieces<D: Device + Drop, S: Source>(
    alloc: Global,
    shell: &mut Shell<D>,
    src: &mut S,
    target: &Path,
) -> Result<ImportEnd, Fault>
    requires going { stop_in shell.old ≡ None }
    ensures imports { (first : D) (since : ℕ) → Imports result target.now
        (ShellAt D.Device first since shell.old) (ShellAt D.Device first since shell.new)
        (S.left src.old) (S.left src.new) (S.takes src.old) (S.takes src.new) }
    ensures unacked { acks_in shell.new ≡ acks_in shell.old }
    ensures going { OnOk result (stop_in shell.new ≡ None) }
    ensures device { Stays D.Device (device_in shell.old) (device_in shell.new) }
    ensures writes { FailsNoWrite D.Device (device_in shell.old) (device_in shell.new) result }
    ensures damage { NamesBad (D.contents (device_in shell.new)) result }
    ensures cause { (sink : ℕ) → IsCaused (faults (D.fault_count (device_in shell.old))
        (S.fault_count src.old) sink)
        (faults (D.fault_count (device_in shell.new)) (S.fault_count src.new) sink)
        (D.last_failed (device_in shell.new)) result }
{
    let _text = target.as_bytes();
    let mut importer = Importer::new(alloc, target)?;
    let mut piece = [0; MAX_PIECE];
    let mut taken = 0;
    let mut count: u64 = 0;
    'pieces: loop {
        match next_piece(src, &mut piece, taken) {
            Ok(Given::Piece(size)) => {
                match feed_piece(alloc, shell, &mut importer, &piece[..size])? {
                    Fed::More(more) => {
                        taken += size;
                        count = count.saturating_add(more as u64);
                    }
                    Fed::Ended(end) => return Ok(end),
                }
            }
            Ok(Given::End) => return Ok(end_at(&importer, count)),
            Ok(Given::Beyond) => return Err(Fault::TooLong),
            Err(Failed) => return Err(Fault::Source),
        }
    }
}

// Whether the stream is whole.
fn is_made(end: ImportEnd) -> bool
    ensures { result ≡ is_made end }
{
    matches!(end, ImportEnd::Whole { .. })
}

// Has all made durable and acknowledged at the end of a whole stream.
fn end_import<D: Device + Drop>(shell: &mut Shell<D>, end: ImportEnd) -> Result<ImportEnd, Fault>
    requires going { stop_in shell.old ≡ None }
    ensures ends { (first : D) (since : ℕ) → Concludes result end
        (ShellAt D.Device first since shell.old)
        (ClosedAt (end_of result) (ShellAt D.Device first since shell.new) (keeps result)) }
    ensures acked { HasAcked (acks_at_end (end_of result) (keeps result)) (acks_in shell.old)
        (acks_in shell.new) }
    ensures going { OnOk result (stop_in shell.new ≡ None) }
    ensures device { Stays D.Device (device_in shell.old) (device_in shell.new) }
    ensures writes { FailsNoWrite D.Device (device_in shell.old) (device_in shell.new) result }
    ensures damage { NamesBad (D.contents (device_in shell.new)) result }
    ensures cause { (sink : ℕ) → IsCaused (counts_of D.Device (device_in shell.old) sink)
        (counts_of D.Device (device_in shell.new) sink)
        (D.last_failed (device_in shell.new)) result }
{
    if !is_made(end) {
        return Ok(end);
    }
    shell.close()?;
    Ok(end)
}

/// Makes at a path what a stream has, by the commands that it gives, up to one that is refused or for
/// which slots are short. At the end of a whole stream, where the source is at its end too, all is
/// made durable and acknowledged. A stream of more than 4,294,967,296 bytes is too long; the byte
/// past them isn't fed.
pub fn import_subtree<D: Device + Drop, S: Source>(
    alloc: Global,
    shell: &mut Shell<D>,
    src: &mut S,
    target: &Path,
) -> Result<ImportEnd, Fault>
    requires going { stop_in shell.old ≡ None }
    ensures imports { (first : D) (since : ℕ) → Imports result target.now
        (ShellAt D.Device first since shell.old)
        (ClosedAt (end_of result) (ShellAt D.Device first since shell.new) (keeps result))
        (S.left src.old) (S.left src.new) (S.takes src.old) (S.takes src.new) }
    ensures acked { HasAcked (acks_at_end (end_of result) (keeps result)) (acks_in shell.old)
        (acks_in shell.new) }
    ensures going { OnOk result (stop_in shell.new ≡ None) }
    ensures device { Stays D.Device (device_in shell.old) (device_in shell.new) }
    ensures writes { FailsNoWrite D.Device (device_in shell.old) (device_in shell.new) result }
    ensures damage { NamesBad (D.contents (device_in shell.new)) result }
    ensures cause { (sink : ℕ) → IsCaused (faults (D.fault_count (device_in shell.old))
        (S.fault_count src.old) sink)
        (faults (D.fault_count (device_in shell.new)) (S.fault_count src.new) sink)
        (D.last_failed (device_in shell.new)) result }
{
    let end = import_pieces(alloc, shell, src, target)?;
    end_import(shell, end)
}
