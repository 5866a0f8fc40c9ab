//! The cell of a handle's number.

ghost use Rattle.std.specs.Prelude.{◌≡◌, OnOk};
ghost use Rattle.bd_sessions.specs.Cells.{free_cell, now_of, next_of};
ghost use Rattle.bd_sessions.specs.Sessions.{is_free};
ghost use Rattle.bd_sessions.specs.Steps.{handle_after};

use crate::handle::Handle;
use crate::step::Step;
use bd_keys::Items;
use bd_names::Name;
use std::alloc::{AllocError, Global};
use std::mem;

/// What a command makes of a handle if it is accepted.
#[derive(Debug, Drop)]
pub(crate) enum Change {
    /// Nothing.
    Stays,
    /// Its file comes to another path.
    Moves(Items<Name>),
    /// Its file is gone.
    Loses,
}

/// What a number stands for, and what a command that waits for its reply makes of it.
#[derive(Debug, Drop)]
pub(crate) struct Cell {
    pub(crate) handle: Handle,
    pub(crate) change: Change,
}

impl Cell {
    /// The cell of a number that isn't open.
    pub(crate) fn free() -> Cell
        ensures { result ≡ free_cell }
    {
        Cell {
            handle: Handle::Free,
            change: Change::Stays,
        }
    }

    /// Makes ready what a step makes of the number. Where there is no memory, it stands for what it
    /// stood for.
    pub(crate) fn make_ready(&mut self, alloc: Global, step: &Step) -> Result<(), AllocError>
        ensures now { now_of self.new ≡ now_of self.old }
        ensures next { OnOk result (next_of self.new ≡ handle_after step.now (now_of self.old)) }
    {
        let change = match &self.handle {
            Handle::At(path) => step.change(alloc, path.as_slice())?,
            Handle::Free | Handle::Gone => Change::Stays,
        };
        self.change = change;
        Ok(())
    }

    /// Makes the change that was made ready.
    pub(crate) fn pass(&mut self)
        ensures { now_of self.new ≡ next_of self.old }
    {
        match mem::replace(&mut self.change, Change::Stays) {
            Change::Stays => {}
            Change::Moves(path) => self.handle = Handle::At(path),
            Change::Loses => self.handle = Handle::Gone,
        }
    }

    /// Whether the number isn't open.
    pub(crate) fn is_free(&self) -> bool
        ensures { result ≡ is_free (now_of self.now) }
    {
        matches!(self.handle, Handle::Free)
    }

    /// Lets the number stand for something else.
    pub(crate) fn put(&mut self, handle: Handle)
        ensures { now_of self.new ≡ handle }
    {
        self.handle = handle;
    }
}
