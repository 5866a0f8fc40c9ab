ghost use Rattle.std.specs.Prelude.{◌≡◌, ◌≢◌, ◌+◌, ◌≤◌, ◌⊎◌, ◌++◌, ℕ, [], MatchOption, length, false, None, Ok, IfOk, IfErr, IfSome, OnOk, OnErr};
ghost use Rattle.std.specs.List.{list_any};
ghost use Rattle.std.specs.Io.KnownBytes.{append_known};
ghost use Rattle.bd_io.specs.Cause.{HasCause};
ghost use Rattle.bd_io.specs.Written.{WrotePart};
ghost use Rattle.bd_message.specs.declared.fault.Counter.{Counter};
ghost use Rattle.bd_command.specs.Command.{IsCommand};
ghost use Rattle.bd_model.specs.Tree.{Tree};
ghost use Rattle.bd_device.specs.Device.{Stays};
ghost use Rattle.bd_image.specs.ImageTree.{ImageStandsFor};
ghost use Rattle.bd_script.specs.Lines.{line_of, open_line, held, held_limit, is_empty, IsLine, HasNoNewline};
ghost use Rattle.bd_script.specs.Replies.{line_reply_text, line_reply_line, IsLineReply};
ghost use Rattle.bd_sessions.specs.Spoken.{Single, is_stop, spoken};
ghost use Rattle.bd_sessions.specs.declared.replies.TurnReply.TheVariants.{Line as Said};
ghost use Rattle.bd_engine.specs.Stored.{HasSaved};
ghost use Rattle.bd_volume.specs.Faults.{IsStartCause};
ghost use Rattle.bd_volume.specs.Starts.{OnlyStarts};
ghost use Rattle.bd_volume.specs.Volume.{IsFirstView};
ghost use Rattle.bd_volume.specs.Wears.{WearsReplaying};
ghost use Rattle.bd_shell.specs.Fault.{IsCaused};
ghost use Rattle.bd_shell.specs.Transcript.{State, state_at, synced_state, with_view, HasAcked, IsAnswered, MayGet, acks_due, commanded, meanings, output};
ghost use Rattle.bd_shell.specs.Session.{Executes, Later, breaks};
ghost use Rattle.bd_shell.specs.Shell.{KeptAt, TurnsAt, ShellAt, Acknowledges, Replies, ExecutesOne, RepliesTo, TurnFails, view_in, acks_below, acks_in, held_of, device_below, device_in, stop_below, stop_in, counts_of, CanStart, MayStart, FailsNoWrite, NamesBad, is_stopped, last_lines, completed, IsHeld, ComesNow, IsOutcome, CutsAt, IsLineFault, LineFails, RunFails, BreaksOff};

use crate::acknowledged::Acknowledged;
use crate::fault::Fault;
use crate::outcome::Ack;
use crate::plain::is_one_line;
use bd_command::{Command, Refusal};
use bd_device::Device;
use bd_io::{Failed, Sink, put_all};
use bd_keys::Items;
use bd_limits::MAX_LINE;
use bd_script::{Line, LineFault, LineReply, REPLY_SIZE, line_reply, read_line};
use bd_volume::{Fault as VolumeFault, Refused, Volume};
use std::alloc::{AllocError, Global};
use std::ops::ControlFlow;

/// The bytes of a line that are held: one more than a line may have.
const HELD: usize = MAX_LINE + 1;

// What a fault of a volume that wasn't stopped is for its line: want of slots is a reply.
fn outcome_of(fault: VolumeFault) -> Result<LineReply, Fault>
    requires { ComesNow fault }
    ensures { IsOutcome fault result }
{
    match fault {
        VolumeFault::Device => Err(Fault::Device),
        VolumeFault::Damaged { block } => Err(Fault::Damaged { block }),
        VolumeFault::Worn(counter) => Err(Fault::Worn(counter)),
        VolumeFault::NoMemory => Err(Fault::Memory),
        VolumeFault::Full { free, need } => Ok(LineReply::Full { free, need }),
        VolumeFault::Stopped { .. } => unreachable!(),
    }
}

// Executes a line that was read. A fault leaves the tree that the volume stands for and the count;
// steps of a command and changes of reclaiming may have been made. Damage names a bad block of what
// reads then give.
fn execute<D: Device + Drop>(kept: &mut Acknowledged<D>, line: &Line) -> Result<LineReply, Fault>
    requires line { IsLine line.now }
    requires going { stop_below kept.old ≡ None }
    ensures ok { IfOk result (λ said. (first : D) (since : ℕ) (s : State)
        → KeptAt D.Device first since kept.old s
        → Replies s (Ok line.now) said (KeptAt D.Device first since kept.new)) }
    ensures err { IfErr result (λ e. (first : D) (since : ℕ) (s : State)
        → KeptAt D.Device first since kept.old s
        → LineFails e s (Ok line.now) (KeptAt D.Device first since kept.new)) }

    // Whatever the volume stands for.
    ensures answer { IfOk result (MayGet (Ok line.now)) }
    ensures acked { OnOk result
        (HasAcked (acks_due (Ok line.now)) (acks_below kept.old) (acks_below kept.new)) }
    ensures unacked { OnErr result (acks_below kept.new ≡ acks_below kept.old) }
    ensures fault { IfErr result IsLineFault }
    ensures going { OnOk result (stop_below kept.new ≡ None) }
    ensures device { Stays D.Device (device_below kept.old) (device_below kept.new) }
    ensures writes { FailsNoWrite D.Device (device_below kept.old) (device_below kept.new) result }
    ensures damage { NamesBad (D.contents (device_below kept.new)) result }
    ensures cause { (sink : ℕ) → IsCaused (counts_of D.Device (device_below kept.old) sink)
        (counts_of D.Device (device_below kept.new) sink)
        (D.last_failed (device_below kept.new)) result }
{
    match line {
        Line::Run(command) => match kept.volume.do_command(command) {
            Ok(reply) => Ok(LineReply::Command(reply)),
            Err(fault) => outcome_of(fault),
        },
        Line::Walk => {
            let walk = kept.volume.last_walk();
            Ok(LineReply::Walk {
                visits: walk.visits,
                height: walk.height,
            })
        }
        Line::Df => Ok(LineReply::Free {
            free: kept.volume.free(),
            slots: kept.volume.slots(),
        }),
        Line::Sync => {
            kept.acknowledge()?;
            Ok(LineReply::Done)
        }
        Line::Checkpoint => match kept.volume.checkpoint() {
            Ok(()) => Ok(LineReply::Done),
            Err(fault) => outcome_of(fault),
        },
        Line::Reclaim => match kept.volume.reclaim() {
            Ok(()) => Ok(LineReply::Done),
            Err(fault) => outcome_of(fault),
        },
        Line::Stop => {
            kept.acknowledge()?;
            Ok(LineReply::Stopped)
        }
    }
}

// Executes a line of a script, also a bad one. A fault leaves what it leaves of a line that was
// read.
fn execute_line<D: Device + Drop>(
    alloc: Global,
    kept: &mut Acknowledged<D>,
    line: &[u8],
) -> Result<LineReply, Fault>
    requires { stop_below kept.old ≡ None }
    ensures ok { IfOk result (λ said. (first : D) (since : ℕ) (s : State)
        → KeptAt D.Device first since kept.old s
        → Replies s (line_of line.now) said (KeptAt D.Device first since kept.new)) }
    ensures err { IfErr result (λ e. (first : D) (since : ℕ) (s : State)
        → KeptAt D.Device first since kept.old s
        → LineFails e s (line_of line.now) (KeptAt D.Device first since kept.new)) }

    // Whatever the volume stands for.
    ensures answer { IfOk result (MayGet (line_of line.now)) }
    ensures acked { OnOk result
        (HasAcked (acks_due (line_of line.now)) (acks_below kept.old) (acks_below kept.new)) }
    ensures unacked { OnErr result (acks_below kept.new ≡ acks_below kept.old) }
    ensures fault { IfErr result IsLineFault }
    ensures going { OnOk result (stop_below kept.new ≡ None) }
    ensures device { Stays D.Device (device_below kept.old) (device_below kept.new) }
    ensures writes { FailsNoWrite D.Device (device_below kept.old) (device_below kept.new) result }
    ensures damage { NamesBad (D.contents (device_below kept.new)) result }
    ensures cause { (sink : ℕ) → IsCaused (counts_of D.Device (device_below kept.old) sink)
        (counts_of D.Device (device_below kept.new) sink)
        (D.last_failed (device_below kept.new)) result }
{
    match read_line(alloc, line) {
        Ok(line) => execute(kept, &line),
        Err(LineFault::BadLine) => Ok(LineReply::Unread(Refusal::BadLine)),
        Err(LineFault::BadPath) => Ok(LineReply::Unread(Refusal::BadPath)),
        Err(LineFault::NoMemory) => Err(Fault::Memory),
    }
}

// Writes a reply after what was written. At `Failed` a part of it was written.
fn write_reply<K: Sink>(
    said: &LineReply,
    buffer: &mut [u8; REPLY_SIZE],
    sink: &mut K,
) -> Result<(), Failed>
    requires { IsLineReply said.now }
    ensures one_line { HasNoNewline (line_reply_text said.now) }
    ensures ok { OnOk result
        (K.written sink.new ≡ append_known (K.written sink.old) (line_reply_line said.now)) }
    ensures part { OnErr result
        (WrotePart (line_reply_line said.now) (K.written sink.old) (K.written sink.new)) }
    ensures cause { HasCause (K.fault_count sink.old) (K.fault_count sink.new) result }
{
    let size = line_reply(said, buffer);
    put_all(sink, &buffer[..size])
}

// How a run goes on after a reply.
fn flow_after(said: &LineReply) -> ControlFlow<()>
    ensures { breaks result ≡ is_stopped said.now }
{
    match said {
        LineReply::Stopped => ControlFlow::Break(()),
        LineReply::Command(_)
        | LineReply::Unread(_)
        | LineReply::Walk { .. }
        | LineReply::Done
        | LineReply::Free { .. }
        | LineReply::Full { .. } => ControlFlow::Continue(()),
    }
}

// Executes a line, and writes its reply. At `Fault::Sink` the line was executed, and a part of its
// reply written; another fault leaves what it leaves of the line, and the sink as it was.
fn run_line<D: Device + Drop, K: Sink>(
    alloc: Global,
    kept: &mut Acknowledged<D>,
    line: &[u8],
    buffer: &mut [u8; REPLY_SIZE],
    sink: &mut K,
) -> Result<ControlFlow<()>, Fault>
    requires { stop_below kept.old ≡ None }
    ensures ok { OnOk result ((first : D) (since : ℕ)
        → ExecutesOne (TurnsAt D.Device first since kept.old)
        (TurnsAt D.Device first since kept.new) (spoken Single line.now)
        (output (K.written sink.old) (acks_below kept.old))
        (output (K.written sink.new) (acks_below kept.new))) }
    ensures err { IfErr result (λ e. (first : D) (since : ℕ)
        → RunFails e (TurnsAt D.Device first since kept.old)
        (TurnsAt D.Device first since kept.new) (spoken Single line.now)
        (output (K.written sink.old) (acks_below kept.old))
        (output (K.written sink.new) (acks_below kept.new))) }
    ensures flow { IfOk result (λ flow. breaks flow ≡ is_stop (spoken Single line.now)) }
    ensures going { OnOk result (stop_below kept.new ≡ None) }
    ensures device { Stays D.Device (device_below kept.old) (device_below kept.new) }
    ensures writes { FailsNoWrite D.Device (device_below kept.old) (device_below kept.new) result }
    ensures damage { NamesBad (D.contents (device_below kept.new)) result }
    ensures cause { IsCaused (counts_of D.Device (device_below kept.old) (K.fault_count sink.old))
        (counts_of D.Device (device_below kept.new) (K.fault_count sink.new))
        (D.last_failed (device_below kept.new)) result }
{
    let said = execute_line(alloc, kept, line)?;
    match write_reply(&said, buffer, sink) {
        Ok(()) => Ok(flow_after(&said)),
        Err(Failed) => Err(Fault::Sink),
    }
}

/// A volume with its acknowledgements, and what is held of the next line.
#[derive(Drop)]
pub struct Shell<D: Device> {
    kept: Acknowledged<D>,
    line: Vec<u8>,
    buffer: Box<[u8; REPLY_SIZE]>,
}

impl<D: Device + Drop> Shell<D> {
    /// A shell over the volume that starts from a device's image, whose first call is a barrier.
    /// From an image that stands for a tree it starts unless the device fails, there is no memory
    /// or a counter has no room, and stands for that tree; since that barrier a crash leaves what
    /// stands for it too. Where it fails, it returns the device; the fault is `Device`, `Damaged`,
    /// `Worn` or `NoMemory`.
    pub fn new(alloc: Global, device: D) -> Result<Shell<D>, Refused<D>>
        ensures stands { IfOk result (λ shell. (t : Tree) (n : ℕ) → CanStart t n (D.contents device)
            → ShellAt D.Device (device_in shell) (D.call_count device + 1) shell
            (state_at t n (view_in D.Device shell) (D.call_count (device_in shell)))) }
        ensures first { IfOk result (λ shell. (t : Tree) (n : ℕ) → IfSome (D.contents device)
            (λ image. ImageStandsFor t n image → IsFirstView image (view_in D.Device shell))) }
        ensures line { IfOk result (λ shell. held_of shell ≡ []) }
        ensures acks { IfOk result (λ shell. acks_in shell ≡ []) }
        ensures going { IfOk result (λ shell. stop_in shell ≡ None) }
        ensures only { IfOk result (λ shell. OnlyStarts D.Device device (device_in shell)) }
        ensures faults { IfOk result (λ shell.
            D.fault_count (device_in shell) ≡ D.fault_count device) }
        ensures write_faults { IfOk result (λ shell.
            D.write_fault_count (device_in shell) ≡ D.write_fault_count device) }

        // The fault, and the device that is returned.
        ensures cause { IfErr result (λ refused.
            IsStartCause D.Device device refused.device refused.fault) }
        ensures undamaged { (t : Tree) (n : ℕ) → CanStart t n (D.contents device)
            → IfErr result (λ refused. (block : ℕ) → refused.fault ≢ VolumeFault.Damaged block) }
        ensures wears { (t : Tree) (n : ℕ) → IfSome (D.contents device)
            (λ image. ImageStandsFor t n image → IfErr result (λ refused. (which : Counter)
            → refused.fault ≡ VolumeFault.Worn which → WearsReplaying which image)) }
        ensures left { IfErr result (λ refused. OnlyStarts D.Device device refused.device) }
        ensures starts { IfErr result (λ refused. MayStart D.Device device refused.device) }
    {
        let Ok(buffer) = Box::new(alloc, [0; REPLY_SIZE]) else {
            return Err(Refused {
                fault: VolumeFault::NoMemory,
                device,
            });
        };
        let volume = Volume::start(alloc, device)?;
        Ok(Shell {
            kept: Acknowledged::new(alloc, volume),
            line: Vec::new(alloc),
            buffer,
        })
    }

    /// What reads of the device give is an image whose last checkpoint has just the nodes that the
    /// view has as saved, unless the volume was stopped. It does nothing.
    pub fn saved_is_shown(&self)
        ensures { stop_in self.now ≡ None → IfSome (D.contents (device_in self.now))
            (HasSaved (view_in D.Device self.now)) }
    {
        self.kept.volume.saved_is_shown();
    }

    /// What was acknowledged, which the shell gives up: then nothing is.
    pub fn take_acks(&mut self, alloc: Global) -> Items<Ack>
        ensures acks { result ≡ acks_in self.old }
        ensures device { device_in self.new ≡ device_in self.old }
    {
        self.kept.take_acks(alloc)
    }

    /// The device, which the shell gives up.
    pub fn into_device(self) -> D
        ensures { result ≡ device_in self }
    {
        self.kept.into_device()
    }

    /// Executes the line that ends here: what is held of it, and its last bytes. Then nothing is
    /// held.
    fn end_line<K: Sink>(
        &mut self,
        alloc: Global,
        last: &[u8],
        sink: &mut K,
    ) -> Result<ControlFlow<()>, Fault>
        requires short { length (held_of self.old) ≤ held_limit }
        requires going { stop_in self.old ≡ None }
        ensures ok { OnOk result ((first : D) (since : ℕ)
            → ExecutesOne (ShellAt D.Device first since self.old)
            (ShellAt D.Device first since self.new) (spoken Single (held_of self.old ++ last.now))
            (output (K.written sink.old) (acks_in self.old))
            (output (K.written sink.new) (acks_in self.new))) }
        ensures err { IfErr result (λ e. (first : D) (since : ℕ)
            → RunFails e (ShellAt D.Device first since self.old)
            (ShellAt D.Device first since self.new) (spoken Single (held_of self.old ++ last.now))
            (output (K.written sink.old) (acks_in self.old))
            (output (K.written sink.new) (acks_in self.new))) }
        ensures line { OnOk result (held_of self.new ≡ []) }
        ensures flow { IfOk result (λ flow.
            breaks flow ≡ is_stop (spoken Single (held_of self.old ++ last.now))) }
        ensures going { OnOk result (stop_in self.new ≡ None) }
        ensures device { Stays D.Device (device_in self.old) (device_in self.new) }
        ensures writes { FailsNoWrite D.Device (device_in self.old) (device_in self.new) result }
        ensures damage { NamesBad (D.contents (device_in self.new)) result }
        ensures cause { IsCaused
            (counts_of D.Device (device_in self.old) (K.fault_count sink.old))
            (counts_of D.Device (device_in self.new) (K.fault_count sink.new))
            (D.last_failed (device_in self.new)) result }
    {
        if self.line.is_empty() {
            return run_line(alloc, &mut self.kept, last, &mut self.buffer, sink);
        }
        hold(&mut self.line, last)?;
        let flow = run_line(alloc, &mut self.kept, &self.line, &mut self.buffer, sink)?;
        self.line.clear();
        Ok(flow)
    }

    /// Takes the next bytes of a script, up to a `stop`: each line that they complete is executed.
    /// At a fault the lines before it were executed.
    pub fn feed<K: Sink>(
        &mut self,
        alloc: Global,
        piece: &[u8],
        sink: &mut K,
    ) -> Result<ControlFlow<()>, Fault>
        requires begun { IsHeld (held_of self.old) }
        requires going { stop_in self.old ≡ None }
        ensures ok { OnOk result ((first : D) (since : ℕ)
            → Executes (ShellAt D.Device first since self.old)
            (ShellAt D.Device first since self.new) (completed Single (held_of self.old) piece.now)
            (output (K.written sink.old) (acks_in self.old))
            (output (K.written sink.new) (acks_in self.new))) }
        ensures err { IfErr result (λ e. (first : D) (since : ℕ)
            → BreaksOff Single e (ShellAt D.Device first since self.old)
            (ShellAt D.Device first since self.new) (held_of self.old) piece.now
            (output (K.written sink.old) (acks_in self.old))
            (output (K.written sink.new) (acks_in self.new))) }
        ensures line { IfOk result (λ flow. breaks flow ≡ false
            → held_of self.new ≡ held (open_line (held_of self.old ++ piece.now))) }
        ensures flow { IfOk result
            (λ flow.
            breaks flow ≡ list_any is_stop (meanings Single (held_of self.old ++ piece.now))) }
        ensures going { OnOk result (stop_in self.new ≡ None) }
        ensures device { Stays D.Device (device_in self.old) (device_in self.new) }
        ensures writes { FailsNoWrite D.Device (device_in self.old) (device_in self.new) result }
        ensures damage { NamesBad (D.contents (device_in self.new)) result }
        ensures cause { IsCaused
            (counts_of D.Device (device_in self.old) (K.fault_count sink.old))
            (counts_of D.Device (device_in self.new) (K.fault_count sink.new))
            (D.last_failed (device_in self.new)) result }
    {
        let mut rest = piece;
        'lines: while let Some((last, tail)) = cut_line(rest) {
            if let ControlFlow::Break(()) = self.end_line(alloc, last, sink)? {
                return Ok(ControlFlow::Break(()));
            }
            rest = tail;
        }
        hold(&mut self.line, rest)?;
        Ok(ControlFlow::Continue(()))
    }

    /// Executes what is held at the end of a script, where that isn't empty.
    pub fn finish<K: Sink>(&mut self, alloc: Global, sink: &mut K) -> Result<ControlFlow<()>, Fault>
        requires { stop_in self.old ≡ None }
        ensures ok { OnOk result ((first : D) (since : ℕ)
            → Executes (ShellAt D.Device first since self.old)
            (ShellAt D.Device first since self.new) (last_lines Single (held_of self.old))
            (output (K.written sink.old) (acks_in self.old))
            (output (K.written sink.new) (acks_in self.new))) }
        ensures err { IfErr result (λ e. (first : D) (since : ℕ)
            → RunFails e (ShellAt D.Device first since self.old)
            (ShellAt D.Device first since self.new) (spoken Single (held_of self.old))
            (output (K.written sink.old) (acks_in self.old))
            (output (K.written sink.new) (acks_in self.new))) }
        ensures some { OnErr result (is_empty (held_of self.old) ≡ false) }
        ensures flow { IfOk result
            (λ flow. breaks flow ≡ list_any is_stop (last_lines Single (held_of self.old))) }
        ensures going { OnOk result (stop_in self.new ≡ None) }
        ensures device { Stays D.Device (device_in self.old) (device_in self.new) }
        ensures writes { FailsNoWrite D.Device (device_in self.old) (device_in self.new) result }
        ensures damage { NamesBad (D.contents (device_in self.new)) result }
        ensures cause { IsCaused
            (counts_of D.Device (device_in self.old) (K.fault_count sink.old))
            (counts_of D.Device (device_in self.new) (K.fault_count sink.new))
            (D.last_failed (device_in self.new)) result }
    {
        if self.line.is_empty() {
            return Ok(ControlFlow::Continue(()));
        }
        run_line(alloc, &mut self.kept, &self.line, &mut self.buffer, sink)
    }

    /// Executes a command that no client gave, whose reply is returned and not written. A fault
    /// leaves what it leaves of a line of a script.
    pub fn do_command(&mut self, command: Command) -> Result<LineReply, Fault>
        requires limits { IsCommand command }
        requires going { stop_in self.old ≡ None }
        ensures ok { IfOk result (λ said. (first : D) (since : ℕ) (s : State)
            → ShellAt D.Device first since self.old s
            → RepliesTo s (commanded command) (Said said)
            (ShellAt D.Device first since self.new)) }
        ensures err { IfErr result (λ e. (first : D) (since : ℕ) (s : State)
            → ShellAt D.Device first since self.old s
            → TurnFails e s (commanded command) (ShellAt D.Device first since self.new)) }
        ensures answer { IfOk result (λ said.
            IsAnswered (record { line = commanded command; said = Said said })) }
        ensures unacked { acks_in self.new ≡ acks_in self.old }
        ensures fault { IfErr result IsLineFault }
        ensures going { OnOk result (stop_in self.new ≡ None) }
        ensures device { Stays D.Device (device_in self.old) (device_in self.new) }
        ensures writes { FailsNoWrite D.Device (device_in self.old) (device_in self.new) result }
        ensures damage { NamesBad (D.contents (device_in self.new)) result }
        ensures cause { (sink : ℕ) → IsCaused (counts_of D.Device (device_in self.old) sink)
            (counts_of D.Device (device_in self.new) sink)
            (D.last_failed (device_in self.new)) result }
    {
        let said = execute(&mut self.kept, &Line::Run(command))?;
        is_one_line(&said);
        Ok(said)
    }

    /// Makes all that was accepted durable at the end of a script, and acknowledges it.
    pub fn close(&mut self) -> Result<(), Fault>
        requires { stop_in self.old ≡ None }
        ensures ok { OnOk result ((first : D) (since : ℕ) (s : State)
            → ShellAt D.Device first since self.old s
            → Later (synced_state s) (ShellAt D.Device first since self.new) s) }
        ensures err { OnErr result ((first : D) (since : ℕ) (s : State)
            → ShellAt D.Device first since self.old s
            → Later (with_view s s.view) (ShellAt D.Device first since self.new) s) }
        ensures acked { OnOk result (Acknowledges D.Device self.old.kept self.new.kept) }
        ensures unacked { OnErr result (acks_in self.new ≡ acks_in self.old) }
        ensures kind { IfErr result (λ e. (e ≡ Fault.Device) ⊎ (e ≡ Fault.Memory)) }
        ensures going { OnOk result (stop_in self.new ≡ None) }
        ensures device { Stays D.Device (device_in self.old) (device_in self.new) }
        ensures writes { FailsNoWrite D.Device (device_in self.old) (device_in self.new) result }
        ensures cause { (sink : ℕ) → IsCaused (counts_of D.Device (device_in self.old) sink)
            (counts_of D.Device (device_in self.new) sink)
            (D.last_failed (device_in self.new)) result }
    {
        self.kept.acknowledge()
    }
}

// The first line of some bytes, without its newline, and what follows it; nothing where no line
// ends.
fn cut_line(bytes: &[u8]) -> Option<(&[u8], &[u8])>
    ensures { MatchOption result (HasNoNewline bytes.now)
        (λ cut. CutsAt bytes.now cut.0.now cut.1.now) }
{
    let end = bytes.iter().position(|byte| *byte == b'\n')?;
    Some((&bytes[..end], &bytes[end + 1..]))
}

// Adds bytes to what is held of a line, as far as they are. `AllocError` leaves it as it was, and
// comes only where there are bytes.
fn hold(line: &mut Vec<u8>, bytes: &[u8]) -> Result<(), AllocError>
    requires { length line.old.items ≤ held_limit }
    ensures ok { OnOk result (line.new.items ≡ held (line.old.items ++ bytes.now)) }
    ensures err { OnErr result (line.new.items ≡ line.old.items) }
    ensures some { OnErr result (is_empty bytes.now ≡ false) }
{
    if bytes.is_empty() {
        return Ok(());
    }
    let count = bytes.len().min(HELD - line.len());
    line.extend_from_slice(&bytes[..count])?;
    Ok(())
}
