//! The handles of all clients, and what a turn and the tree's reply do to them.

ghost use Rattle.std.specs.Prelude.{◌≡◌, ◌<◌, map, replicate, slice_set, IfOk, OnOk, OnErr, None};
ghost use Rattle.bd_sessions.specs.Cells.{now_in, next_in};
ghost use Rattle.bd_sessions.specs.Handles.{own, no_tables, client_limit};
ghost use Rattle.bd_sessions.specs.Sessions.{asked, prepared, waits_for, runs_for, settled_if, IsAsk};
ghost use Rattle.bd_sessions.specs.Steps.{handle_after};
ghost use Rattle.bd_sessions.specs.Turns.{IsTurn};

use crate::MAX_CLIENTS;
use crate::asking::{Ask, SessionReply};
use crate::handle::Handle;
use crate::step::{Step, names_of};
use crate::table::HandleTable;
use crate::turn::Turn;
use crate::waiting::Waiting;
use bd_command::Reply;
use std::alloc::{AllocError, Global};
use std::marker::Model;
use std::mem;

/// The handles of sixteen clients, and what waits for the tree's reply.
#[derive(Debug, Drop)]
pub struct Sessions {
    tables: [HandleTable; MAX_CLIENTS],
    waiting: Waiting,
}

impl Model for Sessions {
    ghost use Rattle.std.specs.Prelude.{◌≡◌, length};
    ghost use Rattle.bd_sessions.specs.Handles.{client_limit};
    ghost use Rattle.bd_sessions.specs.Sessions.{Held};
    ghost use Rattle.bd_sessions.specs.Cells.{held_in, IsWaiting};

    ghost Value = { Held };

    ghost view = { λ s. held_in s.tables s.waiting };

    ghost invariant = { λ s. (length s.tables ≡ client_limit) × IsWaiting s.waiting };
}

impl Sessions {
    /// No handle is open, and nothing waits.
    pub fn new() -> Sessions
        ensures tables { result.tables ≡ no_tables }
        ensures idle { result.waits ≡ None }
    {
        Sessions {
            tables: [
                HandleTable::new(),
                HandleTable::new(),
                HandleTable::new(),
                HandleTable::new(),
                HandleTable::new(),
                HandleTable::new(),
                HandleTable::new(),
                HandleTable::new(),
                HandleTable::new(),
                HandleTable::new(),
                HandleTable::new(),
                HandleTable::new(),
                HandleTable::new(),
                HandleTable::new(),
                HandleTable::new(),
                HandleTable::new(),
            ],
            waiting: Waiting::Nothing,
        }
    }

    /// What a client's turn asks for. A handle that is to be closed is closed, and what a command
    /// makes of handles waits for the reply: then `settle` comes, or `cancel`. Where there is no
    /// memory, all stays as it is.
    pub fn prepare(&mut self, alloc: Global, client: u8, turn: &Turn) -> Result<Ask, AllocError>
        requires client { client < client_limit }
        requires idle { self.old.waits ≡ None }
        ensures asked { IfOk result (λ ask. ask ≡ asked (own client self.old.tables) turn.now) }
        ensures tables { OnOk result (self.new.tables ≡ prepared client turn.now self.old.tables) }
        ensures waits { IfOk result (λ ask.
            self.new.waits ≡ waits_for client turn.now ask self.old.tables) }
        ensures limits { IfOk result (λ ask. IsTurn turn.now → IsAsk ask) }
        ensures memory { OnErr result (self.new ≡ self.old) }
    {
        let ask = self.tables[client as usize].ask(alloc, turn)?;
        match turn {
            Turn::Close { handle } => {
                self.tables[client as usize].put(*handle as usize, Handle::Free);
                Ok(ask)
            }
            Turn::Open { path } => {
                let path = names_of(alloc, path)?;
                self.waiting = Waiting::Opening { client, path };
                Ok(ask)
            }
            Turn::Plain(_) | Turn::Read { .. } | Turn::Write { .. } | Turn::Stat { .. } => {
                self.make_ready(alloc, &ask)?;
                Ok(ask)
            }
        }
    }

    /// Makes ready what a command makes of the handles if it is accepted, where one is asked for.
    fn make_ready(&mut self, alloc: Global, ask: &Ask) -> Result<(), AllocError>
        requires { self.old.waits ≡ None }
        ensures tables { self.new.tables ≡ self.old.tables }
        ensures waits { OnOk result (self.new.waits ≡ runs_for ask.now self.old.tables) }
        ensures memory { OnErr result (self.new ≡ self.old) }
    {
        let Ask::Do(command) = ask else {
            return Ok(());
        };
        match Step::of(alloc, command)? {
            None => {
                self.waiting = Waiting::Same;
                Ok(())
            }
            Some(step) => {
                make_tables_ready(&mut self.tables, alloc, &step)?;
                self.waiting = Waiting::Changes;
                Ok(())
            }
        }
    }

    /// Follows the tree's reply to the command that waits: handles follow one that was accepted,
    /// and a file that was looked up is opened. It returns what is said to the client. It takes no
    /// memory, and where nothing waits nothing changes.
    pub fn settle(&mut self, reply: &Reply) -> SessionReply
        ensures reply { result ≡ (settled_if self.old.waits reply.now self.old.tables).0 }
        ensures tables { self.new.tables
            ≡ (settled_if self.old.waits reply.now self.old.tables).1 }
        ensures idle { self.new.waits ≡ None }
    {
        match mem::replace(&mut self.waiting, Waiting::Nothing) {
            Waiting::Nothing | Waiting::Same => SessionReply::Same,
            Waiting::Changes => {
                if reply.is_done() {
                    pass_tables(&mut self.tables);
                }
                SessionReply::Same
            }
            Waiting::Opening { client, path } => self.tables[client as usize].open(path, reply),
        }
    }

    /// Forgets what waits: the command has no reply. All handles stay as they are.
    pub fn cancel(&mut self)
        ensures tables { self.new.tables ≡ self.old.tables }
        ensures idle { self.new.waits ≡ None }
    {
        self.waiting = Waiting::Nothing;
    }
}

/// Makes ready what a step makes of each number of each client.
fn make_tables_ready(
    tables: &mut [HandleTable],
    alloc: Global,
    step: &Step,
) -> Result<(), AllocError>
    ensures now { map now_in tables.new ≡ map now_in tables.old }
    ensures next { OnOk result
        (map next_in tables.new ≡ map (map (handle_after step.now)) (map now_in tables.old)) }
{
    for table in tables.iter_mut() {
        table.make_ready(alloc, step)?;
    }
    Ok(())
}

/// Makes the changes that were made ready.
fn pass_tables(tables: &mut [HandleTable])
    ensures { map now_in tables.new ≡ map next_in tables.old }
{
    for table in tables.iter_mut() {
        table.pass();
    }
}
