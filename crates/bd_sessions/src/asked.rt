//! What a turn asks for.

ghost use Rattle.std.specs.Prelude.{◌≡◌, IfOk};
ghost use Rattle.bd_script.specs.Lines.{IsLine};
ghost use Rattle.bd_sessions.specs.Cells.{now_in};
ghost use Rattle.bd_sessions.specs.Handles.{handle_at};
ghost use Rattle.bd_sessions.specs.Sessions.{asked, ask_of_line, closing, IsAsk};
ghost use Rattle.bd_sessions.specs.Turns.{IsTurn};

use crate::asking::Ask;
use crate::handle::Handle;
use crate::table::HandleTable;
use crate::turn::Turn;
use bd_command::Command;
use bd_script::{Denial, Line};
use std::alloc::{AllocError, Global};

impl HandleTable {
    /// What a turn of the client asks for.
    pub(crate) fn ask(&self, alloc: Global, turn: &Turn) -> Result<Ask, AllocError>
        ensures asked { IfOk result (λ ask. ask ≡ asked (now_in self.now) turn.now) }
        ensures limits { IfOk result (λ ask. IsTurn turn.now → IsAsk ask) }
    {
        match turn {
            Turn::Plain(line) => ask_of_line(line),
            Turn::Open { path } => Ok(Ask::Do(Command::Stat {
                path: path.clone()?,
            })),
            Turn::Read { handle, off, len } => match self.path(alloc, *handle)? {
                Ok(path) => Ok(Ask::Do(Command::Read {
                    path,
                    off: *off,
                    len: *len,
                })),
                Err(denial) => Ok(Ask::No(denial)),
            },
            Turn::Write { handle, off, bytes } => match self.path(alloc, *handle)? {
                Ok(path) => Ok(Ask::Do(Command::Write {
                    path,
                    off: *off,
                    bytes: bytes.clone()?,
                })),
                Err(denial) => Ok(Ask::No(denial)),
            },
            Turn::Stat { handle } => match self.path(alloc, *handle)? {
                Ok(path) => Ok(Ask::Do(Command::Stat { path })),
                Err(denial) => Ok(Ask::No(denial)),
            },
            Turn::Close { handle } => Ok(self.ask_to_close(*handle)),
        }
    }

    /// Whether a number can be closed.
    fn ask_to_close(&self, number: u32) -> Ask
        ensures asked { result ≡ closing (handle_at (now_in self.now) number) }
        ensures limits { IsAsk result }
    {
        match self.handle(number) {
            None | Some(Handle::Free) => Ask::No(Denial::NoHandle),
            Some(Handle::At(_)) | Some(Handle::Gone) => Ask::Closed,
        }
    }
}

/// What a line of a script asks for.
fn ask_of_line(line: &Line) -> Result<Ask, AllocError>
    ensures asked { IfOk result (λ ask. ask ≡ ask_of_line line.now) }
    ensures limits { IfOk result (λ ask. IsLine line.now → IsAsk ask) }
{
    match line {
        Line::Run(command) => Ok(Ask::Do(copy_of(command)?)),
        Line::Walk => Ok(Ask::Service(Line::Walk)),
        Line::Df => Ok(Ask::Service(Line::Df)),
        Line::Sync => Ok(Ask::Service(Line::Sync)),
        Line::Checkpoint => Ok(Ask::Service(Line::Checkpoint)),
        Line::Reclaim => Ok(Ask::Service(Line::Reclaim)),
        Line::Stop => Ok(Ask::Service(Line::Stop)),
    }
}

/// A copy of a command.
fn copy_of(command: &Command) -> Result<Command, AllocError>
    ensures { IfOk result (λ copy. copy ≡ command.now) }
{
    command.clone()
}
