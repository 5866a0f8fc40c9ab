ghost use Rattle.std.specs.Prelude.{◌≡◌, ◌≤◌, ℕ, false, [], None, IfOk, IfErr, OnOk, OnErr};
ghost use Rattle.std.specs.Option.{option_map};
ghost use Rattle.bd_limits.specs.Limits.{script_limit};
ghost use Rattle.bd_device.specs.Device.{Stays};
ghost use Rattle.bd_io.specs.Cause.{HasCause};
ghost use Rattle.bd_io.specs.Takes.{takes_after};
ghost use Rattle.bd_sessions.specs.Spoken.{Single};
ghost use Rattle.bd_shell.specs.Fault.{IsCaused, faults, of_sink};
ghost use Rattle.bd_shell.specs.Transcript.{output};
ghost use Rattle.bd_shell.specs.Session.{ClosedAt, RunsPieces, Session, acks_at_end, end_of};
ghost use Rattle.bd_shell.specs.Shell.{FailsNoWrite, NamesBad, ShellAt, acks_in, device_in, held_of, stop_in};
ghost use Rattle.bd_shell.specs.Taken.{IsTaken, taken_by};

use crate::fault::Fault;
use crate::shell::Shell;
use bd_device::Device;
use bd_io::{Failed, Sink, Source};
use bd_limits::{MAX_PIECE, MAX_SCRIPT};
use std::alloc::Global;
use std::ops::ControlFlow;

/// What a source gave.
#[derive(Clone, Copy, Debug, PartialEq, Eq)]
pub enum Taken {
    /// This many bytes of the script.
    Piece(usize),
    /// The script is at its end.
    End,
    /// The script goes on past the most bytes that it may have.
    TooLong,
}

/// Takes the next piece of a script of which `taken` bytes were taken before, when the sink keeps
/// nothing back.
fn next_piece<S: Source, K: Sink>(
    src: &mut S,
    _sink: &K,
    piece: &mut [u8; MAX_PIECE],
    taken: usize,
) -> Result<Taken, Failed>
    requires within { taken ≤ script_limit }
    requires flushed { K.waiting _sink.now ≡ 0 }
    ensures ok { IfOk result (λ got.
        IsTaken got taken piece.new (S.left src.old) (S.left src.new)) }
    ensures err { OnErr result (S.left src.new ≡ S.left src.old) }
    ensures told { S.takes src.new
        ≡ option_map (takes_after (taken_by result piece.new)) (S.takes src.old) }
    ensures cause { HasCause (S.fault_count src.old) (S.fault_count src.new) result }
{
    let room = MAX_PIECE.min(MAX_SCRIPT - taken).max(1);
    let size = src.take(&mut piece[..room])?;
    Ok(if size == 0 {
        Taken::End
    } else if taken == MAX_SCRIPT {
        Taken::TooLong
    } else {
        Taken::Piece(size)
    })
}

/// Has the sink pass on what it keeps back.
pub fn flush<K: Sink>(sink: &mut K) -> Result<(), Fault>
    ensures flushed { OnOk result (K.waiting sink.new ≡ 0) }
    ensures bytes { K.written sink.new ≡ K.written sink.old }
    ensures kind { IfErr result (λ e. e ≡ Fault.Sink) }
    ensures cause { IsCaused (of_sink (K.fault_count sink.old)) (of_sink (K.fault_count sink.new))
        false result }
{
    match sink.flush() {
        Ok(()) => Ok(()),
        Err(Failed) => Err(Fault::Sink),
    }
}

/// Executes a script, to its end or to a `stop`; at its end all is made durable and acknowledged,
/// as at `stop`. At a fault the lines before it were executed. Before each take and at the end the
/// sink passes on what was written.
pub fn run_script<D: Device + Drop, S: Source, K: Sink>(
    alloc: Global,
    shell: &mut Shell<D>,
    src: &mut S,
    sink: &mut K,
) -> Result<(), Fault>
    requires line { held_of shell.old ≡ [] }
    requires going { stop_in shell.old ≡ None }
    ensures session { (first : D) (since : ℕ) → Session Single (end_of result)
        (ShellAt D.Device first since shell.old)
        (ClosedAt (end_of result) (ShellAt D.Device first since shell.new))
        (acks_at_end (end_of result)) (S.left src.old) (S.left src.new) (S.takes src.old)
        (S.takes src.new) (output (K.written sink.old) (acks_in shell.old))
        (output (K.written sink.new) (acks_in shell.new)) }
    ensures flushed { OnOk result (K.waiting sink.new ≡ 0) }
    ensures going { OnOk result (stop_in shell.new ≡ None) }
    ensures device { Stays D.Device (device_in shell.old) (device_in shell.new) }
    ensures writes { FailsNoWrite D.Device (device_in shell.old) (device_in shell.new) result }
    ensures damage { NamesBad (D.contents (device_in shell.new)) result }
    ensures cause { IsCaused (faults (D.fault_count (device_in shell.old))
        (S.fault_count src.old) (K.fault_count sink.old))
        (faults (D.fault_count (device_in shell.new)) (S.fault_count src.new)
        (K.fault_count sink.new)) (D.last_failed (device_in shell.new)) result }
{
    let flow = run_pieces(alloc, shell, src, sink)?;
    flush(sink)?;
    match flow {
        ControlFlow::Continue(()) => shell.close(),
        ControlFlow::Break(()) => Ok(()),
    }
}

/// Executes a script piece by piece, and breaks at a `stop`. What the last replies are isn't passed
/// on yet.
fn run_pieces<D: Device + Drop, S: Source, K: Sink>(
    alloc: Global,
    shell: &mut Shell<D>,
    src: &mut S,
    sink: &mut K,
) -> Result<ControlFlow<()>, Fault>
    requires line { held_of shell.old ≡ [] }
    requires going { stop_in shell.old ≡ None }
    ensures session { (first : D) (since : ℕ) → RunsPieces Single result
        (ShellAt D.Device first since shell.old) (ShellAt D.Device first since shell.new)
        (S.left src.old) (S.left src.new) (S.takes src.old) (S.takes src.new)
        (output (K.written sink.old) (acks_in shell.old))
        (output (K.written sink.new) (acks_in shell.new)) }
    ensures going { OnOk result (stop_in shell.new ≡ None) }
    ensures device { Stays D.Device (device_in shell.old) (device_in shell.new) }
    ensures writes { FailsNoWrite D.Device (device_in shell.old) (device_in shell.new) result }
    ensures damage { NamesBad (D.contents (device_in shell.new)) result }
    ensures cause { IsCaused (faults (D.fault_count (device_in shell.old))
        (S.fault_count src.old) (K.fault_count sink.old))
        (faults (D.fault_count (device_in shell.new)) (S.fault_count src.new)
        (K.fault_count sink.new)) (D.last_failed (device_in shell.new)) result }
{
    let mut piece = [0; MAX_PIECE];
    let mut taken = 0;
    'pieces: loop {
        flush(sink)?;
        match next_piece(src, sink, &mut piece, taken) {
            Ok(Taken::Piece(size)) => match shell.feed(alloc, &piece[..size], sink)? {
                ControlFlow::Continue(()) => taken += size,
                ControlFlow::Break(()) => return Ok(ControlFlow::Break(())),
            },
            Ok(Taken::End) => return shell.finish(alloc, sink),
            Ok(Taken::TooLong) => return Err(Fault::TooLong),
            Err(Failed) => return Err(Fault::Source),
        }
    }
}
