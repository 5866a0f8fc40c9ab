//! The loop of an export: what the exporter asks is executed, and what it makes of the replies is
//! written.

ghost use Rattle.std.specs.Prelude.{◌≡◌, ℕ, Bool, [], None, Some, IfOk, IfErr, OnOk};
ghost use Rattle.std.specs.Io.KnownBytes.{append_known};
ghost use Rattle.bd_io.specs.Cause.{HasCause};
ghost use Rattle.bd_io.specs.Written.{WrotePart};
ghost use Rattle.bd_command.specs.Command.{IsCommand};
ghost use Rattle.bd_device.specs.Device.{Stays};
ghost use Rattle.bd_stream.specs.Exporting.{asked, answered};
ghost use Rattle.bd_stream.specs.Answering.{seen, why_not};
ghost use Rattle.bd_shell.specs.Fault.{IsCaused, faults};
ghost use Rattle.bd_shell.specs.Transcript.{State, HasAcked};
ghost use Rattle.bd_shell.specs.Session.{ClosedAt, acks_at_end, end_of};
ghost use Rattle.bd_shell.specs.Shell.{FailsNoWrite, NamesBad, ShellAt, acks_in, counts_of, device_in, stop_in};
ghost use Rattle.bd_transfer.specs.Asking.{Answered, AnswersPart, Asks, AsksOne, Finishes, IsEndIf, WritesSo, is_whole, leaves};

use bd_command::{Command, Reply};
use bd_device::Device;
use bd_io::{Failed, Sink, put_all};
use bd_names::Path;
use bd_script::LineReply;
use bd_shell::{Fault, Shell, flush};
use bd_stream::{ExportFault, Exporter};
use std::alloc::Global;

/// How an export ended where no fault came.
#[derive(Clone, Copy, Debug, PartialEq, Eq)]
pub enum ExportEnd {
    /// The stream is complete.
    Whole,
    /// Nothing is at the path.
    Absent,
    /// The path of the next entry has more than 512 bytes: the stream ends before it.
    LongPath,
    /// A question was answered that slots are short, which no image that stands for a tree does.
    Full,
}

// Takes the reply to what was asked, and adds what it gives of the stream to `out`.
fn take_answer(
    alloc: Global,
    exporter: &mut Exporter,
    reply: &Reply,
    out: &mut Vec<u8>,
) -> Result<Option<ExportEnd>, Fault>
    ensures ok { IfOk result (λ end. Answered (seen exporter.old) (seen exporter.new)
        out.old.items out.new.items reply.now end) }
    ensures err { IfErr result (λ e. (e ≡ Fault.Memory)
        × (seen exporter.new ≡ seen exporter.old)) }
{
    match exporter.answer(alloc, reply, out) {
        Ok(()) => Ok(None),
        Err(ExportFault::Refused(_)) => Ok(Some(ExportEnd::Absent)),
        Err(ExportFault::LongPath) => Ok(Some(ExportEnd::LongPath)),
        Err(ExportFault::NoMemory) => Err(Fault::Memory),
    }
}

// Takes the reply to what was asked, and writes what it gives of the stream.
fn write_answer<K: Sink>(
    alloc: Global,
    exporter: &mut Exporter,
    reply: &Reply,
    sink: &mut K,
) -> Result<Option<ExportEnd>, Fault>
    ensures ok { IfOk result (λ end. IsEndIf end (seen exporter.new)
        × (seen exporter.new ≡ (answered (seen exporter.old) reply.now).0)
        × (K.written sink.new ≡ append_known (K.written sink.old)
        (answered (seen exporter.old) reply.now).1)) }
    ensures err { IfErr result (λ e. AnswersPart e (seen exporter.old) (seen exporter.new)
        reply.now (K.written sink.old) (K.written sink.new)) }
    ensures cause { (device : ℕ) (last : Bool) → IsCaused
        (faults device 0 (K.fault_count sink.old)) (faults device 0 (K.fault_count sink.new))
        last result }
{
    let mut out = Vec::new(alloc);
    let end = take_answer(alloc, exporter, reply, &mut out)?;
    match put_all(sink, &out) {
        Ok(()) => Ok(end),
        Err(Failed) => Err(Fault::Sink),
    }
}

// Executes a question, takes its reply, and writes what that gives.
fn ask_one<D: Device + Drop, K: Sink>(
    alloc: Global,
    shell: &mut Shell<D>,
    exporter: &mut Exporter,
    command: Command,
    sink: &mut K,
) -> Result<Option<ExportEnd>, Fault>
    requires asked { asked (seen exporter.old) ≡ Some command }
    requires limits { IsCommand command }
    requires going { stop_in shell.old ≡ None }
    ensures one { (first : D) (since : ℕ) → AsksOne result (seen exporter.old) (seen exporter.new)
        (ShellAt D.Device first since shell.old) (ShellAt D.Device first since shell.new)
        (K.written sink.old) (K.written sink.new) }
    ensures unacked { acks_in shell.new ≡ acks_in shell.old }
    ensures going { OnOk result (stop_in shell.new ≡ None) }
    ensures device { Stays D.Device (device_in shell.old) (device_in shell.new) }
    ensures writes { FailsNoWrite D.Device (device_in shell.old) (device_in shell.new) result }
    ensures damage { NamesBad (D.contents (device_in shell.new)) result }
    ensures cause { IsCaused
        (counts_of D.Device (device_in shell.old) (K.fault_count sink.old))
        (counts_of D.Device (device_in shell.new) (K.fault_count sink.new))
        (D.last_failed (device_in shell.new)) result }
{
    match shell.do_command(command)? {
        LineReply::Command(reply) => write_answer(alloc, exporter, &reply, sink),
        LineReply::Full { .. } => Ok(Some(ExportEnd::Full)),
        LineReply::Unread(_)
        | LineReply::Walk { .. }
        | LineReply::Done
        | LineReply::Free { .. }
        | LineReply::Stopped => unreachable!(),
    }
}

// Asks all that an exporter asks, and writes what the replies give. What was written isn't passed
// on yet.
fn ask_all<D: Device + Drop, K: Sink>(
    alloc: Global,
    shell: &mut Shell<D>,
    top: &Path,
    sink: &mut K,
) -> Result<ExportEnd, Fault>
    requires going { stop_in shell.old ≡ None }
    ensures asks { (first : D) (since : ℕ) → Asks result top.now
        (ShellAt D.Device first since shell.old) (ShellAt D.Device first since shell.new)
        (K.written sink.old) (K.written sink.new) }
    ensures unacked { acks_in shell.new ≡ acks_in shell.old }
    ensures going { OnOk result (stop_in shell.new ≡ None) }
    ensures device { Stays D.Device (device_in shell.old) (device_in shell.new) }
    ensures writes { FailsNoWrite D.Device (device_in shell.old) (device_in shell.new) result }
    ensures damage { NamesBad (D.contents (device_in shell.new)) result }
    ensures cause { IsCaused
        (counts_of D.Device (device_in shell.old) (K.fault_count sink.old))
        (counts_of D.Device (device_in shell.new) (K.fault_count sink.new))
        (D.last_failed (device_in shell.new)) result }
{
    let mut exporter = Exporter::new(alloc, top)?;
    'questions: while let Some(command) = exporter.ask(alloc)? {
        if let Some(end) = ask_one(alloc, shell, &mut exporter, command, sink)? {
            return Ok(end);
        }
    }
    Ok(ExportEnd::Whole)
}

// Whether the stream is complete.
fn is_whole(end: ExportEnd) -> bool
    ensures { result ≡ is_whole end }
{
    matches!(end, ExportEnd::Whole)
}

// Has the sink pass on what was written, and at the end of a whole stream has all made durable and
// acknowledged.
fn finish<D: Device + Drop, K: Sink>(
    shell: &mut Shell<D>,
    end: ExportEnd,
    sink: &mut K,
) -> Result<ExportEnd, Fault>
    requires going { stop_in shell.old ≡ None }
    ensures ends { (first : D) (since : ℕ) → Finishes result end
        (ShellAt D.Device first since shell.old)
        (ClosedAt (end_of result) (ShellAt D.Device first since shell.new) (leaves result)) }
    ensures acked { HasAcked (acks_at_end (end_of result) (leaves result)) (acks_in shell.old)
        (acks_in shell.new) }
    ensures unwritten { K.written sink.new ≡ K.written sink.old }
    ensures flushed { OnOk result (K.waiting sink.new ≡ 0) }
    ensures going { OnOk result (stop_in shell.new ≡ None) }
    ensures device { Stays D.Device (device_in shell.old) (device_in shell.new) }
    ensures writes { FailsNoWrite D.Device (device_in shell.old) (device_in shell.new) result }
    ensures damage { NamesBad (D.contents (device_in shell.new)) result }
    ensures cause { IsCaused
        (counts_of D.Device (device_in shell.old) (K.fault_count sink.old))
        (counts_of D.Device (device_in shell.new) (K.fault_count sink.new))
        (D.last_failed (device_in shell.new)) result }
{
    flush(sink)?;
    if !is_whole(end) {
        return Ok(end);
    }
    shell.close()?;
    Ok(end)
}

/// Writes what is at a path and below it as a stream. At the end the sink passes on what was
/// written; of a whole stream all is made durable then, which makes no call where nothing waits,
/// and that is acknowledged. Where nothing is at the path nothing is written, and where the next
/// entry's path is too long the stream ends before it. A fault of the image or of a counter comes
/// before the reply to a question; one of the device or of memory there too, or after the last one,
/// of memory also where a reply is taken; and one of the sink where it is written to or passes on.
pub fn export_subtree<D: Device + Drop, K: Sink>(
    alloc: Global,
    shell: &mut Shell<D>,
    top: &Path,
    sink: &mut K,
) -> Result<ExportEnd, Fault>
    requires going { stop_in shell.old ≡ None }
    ensures asks { (first : D) (since : ℕ) → Asks result top.now
        (ShellAt D.Device first since shell.old)
        (ClosedAt (end_of result) (ShellAt D.Device first since shell.new) (leaves result))
        (K.written sink.old) (K.written sink.new) }

    // Of a volume that stands for a tree the stream is that tree's, exactly.
    ensures stream { IfOk result (λ end. (first : D) (since : ℕ) (s : State)
        → ShellAt D.Device first since shell.old s
        → WritesSo end s.tree top.now (K.written sink.old) (K.written sink.new)) }

    // Whatever it stands for.
    ensures acked { HasAcked (acks_at_end (end_of result) (leaves result)) (acks_in shell.old)
        (acks_in shell.new) }
    ensures flushed { OnOk result (K.waiting sink.new ≡ 0) }
    ensures going { OnOk result (stop_in shell.new ≡ None) }
    ensures device { Stays D.Device (device_in shell.old) (device_in shell.new) }
    ensures writes { FailsNoWrite D.Device (device_in shell.old) (device_in shell.new) result }
    ensures damage { NamesBad (D.contents (device_in shell.new)) result }
    ensures cause { IsCaused
        (counts_of D.Device (device_in shell.old) (K.fault_count sink.old))
        (counts_of D.Device (device_in shell.new) (K.fault_count sink.new))
        (D.last_failed (device_in shell.new)) result }
{
    let _text = top.as_bytes();
    let end = ask_all(alloc, shell, top, sink)?;
    finish(shell, end, sink)
}
