//! The handles of one client.

ghost use Rattle.std.specs.Prelude.{◌≡◌, ◌<◌, List, length, map, replicate, slice_set, position, IfOk, IfSome, OnOk, MatchOption};
ghost use Rattle.bd_command.specs.Command.{IsShortPath};
ghost use Rattle.bd_sessions.specs.declared.handle.Handle.TheVariants as handle;
ghost use Rattle.bd_sessions.specs.Cells.{now_of, now_in, next_in};
ghost use Rattle.bd_sessions.specs.Handles.{handle_at, handle_limit};
ghost use Rattle.bd_sessions.specs.Sessions.{path_of_handle, is_free, opened_at, opened_in};
ghost use Rattle.bd_sessions.specs.Steps.{handle_after};

use crate::MAX_HANDLES;
use crate::asking::SessionReply;
use crate::cell::Cell;
use crate::handle::Handle;
use crate::paths::short_path;
use crate::step::Step;
use bd_command::Reply;
use bd_keys::Items;
use bd_names::{Name, Path};
use bd_script::Denial;
use std::alloc::{AllocError, Global};
use std::marker::Model;

/// The cells of a client's numbers.
#[derive(Debug, Drop)]
pub(crate) struct HandleTable {
    cells: [Cell; MAX_HANDLES],
}

impl Model for HandleTable {
    ghost use Rattle.std.specs.Prelude.{◌≡◌, List, length};
    ghost use Rattle.bd_sessions.specs.declared.cell.Cell.{Cell};
    ghost use Rattle.bd_sessions.specs.Handles.{handle_limit};

    ghost Value = { List Cell };

    ghost view = { λ t. t.cells };

    ghost invariant = { λ t. length t.cells ≡ handle_limit };
}

impl HandleTable {
    /// No number is open.
    pub(crate) fn new() -> HandleTable
        ensures { now_in result ≡ replicate handle_limit handle.Free }
    {
        HandleTable {
            cells: [
                Cell::free(),
                Cell::free(),
                Cell::free(),
                Cell::free(),
                Cell::free(),
                Cell::free(),
                Cell::free(),
                Cell::free(),
                Cell::free(),
                Cell::free(),
                Cell::free(),
                Cell::free(),
                Cell::free(),
                Cell::free(),
                Cell::free(),
                Cell::free(),
            ],
        }
    }

    /// What a number stands for; nothing from 16 on.
    pub(crate) fn handle(&self, number: u32) -> Option<&Handle>
        ensures { MatchOption result (handle_at (now_in self.now) number ≡ handle.Free)
            (λ found. found.now ≡ handle_at (now_in self.now) number) }
    {
        let cell = self.cells.get(number as usize)?;
        Some(&cell.handle)
    }

    /// The path of the file that a number stands for, or why there is none.
    pub(crate) fn path(
        &self,
        alloc: Global,
        number: u32,
    ) -> Result<Result<Path, Denial>, AllocError>
        ensures path { IfOk result (λ found.
            found ≡ path_of_handle (handle_at (now_in self.now) number)) }
        ensures limits { IfOk result (λ found. IfOk found IsShortPath) }
    {
        match self.handle(number) {
            None | Some(Handle::Free) => Ok(Err(Denial::NoHandle)),
            Some(Handle::Gone) => Ok(Err(Denial::Gone)),
            Some(Handle::At(names)) => match short_path(alloc, names.as_slice())? {
                Some(path) => Ok(Ok(path)),
                None => Ok(Err(Denial::LongPath)),
            },
        }
    }

    /// Lets a number stand for something else; from 16 on nothing changes.
    pub(crate) fn put(&mut self, number: usize, handle: Handle)
        ensures { now_in self.new ≡ slice_set (now_in self.old) number handle }
    {
        if number < self.cells.len() {
            self.cells[number].put(handle);
        }
    }

    /// Opens the file at a path, by what the tree says of it, and returns what is said.
    pub(crate) fn open(&mut self, path: Items<Name>, reply: &Reply) -> SessionReply
        ensures reply { result ≡ (opened_in path reply.now (now_in self.old)).0 }
        ensures table { now_in self.new ≡ (opened_in path reply.now (now_in self.old)).1 }
    {
        match reply {
            Reply::File(_, _) => self.open_file(path),
            Reply::Dir(_) => SessionReply::IsDir,
            Reply::Done | Reply::Bytes(_) | Reply::Names(_) | Reply::Refused(_) => {
                SessionReply::Same
            }
        }
    }

    /// Opens the file at a path, at the least number that isn't open.
    fn open_file(&mut self, path: Items<Name>) -> SessionReply
        ensures reply { result
            ≡ (opened_at path (position is_free (now_in self.old)) (now_in self.old)).0 }
        ensures table { now_in self.new
            ≡ (opened_at path (position is_free (now_in self.old)) (now_in self.old)).1 }
    {
        let Some(number) = free_number(&self.cells) else {
            return SessionReply::No(Denial::HandlesFull);
        };
        self.put(number, Handle::At(path));
        SessionReply::Opened(number as u8)
    }

    /// Makes ready what a step makes of each number. Where there is no memory, they stand for what
    /// they stood for.
    pub(crate) fn make_ready(&mut self, alloc: Global, step: &Step) -> Result<(), AllocError>
        ensures now { now_in self.new ≡ now_in self.old }
        ensures next { OnOk result
            (next_in self.new ≡ map (handle_after step.now) (now_in self.old)) }
    {
        make_cells_ready(&mut self.cells, alloc, step)
    }

    /// Makes the changes that were made ready.
    pub(crate) fn pass(&mut self)
        ensures { now_in self.new ≡ next_in self.old }
    {
        pass_cells(&mut self.cells);
    }
}

/// The least number that isn't open.
fn free_number(cells: &[Cell]) -> Option<usize>
    ensures number { result ≡ position (λ cell. is_free (now_of cell)) cells.now }
    ensures bound { IfSome result (λ number. number < length cells.now) }
{
    cells.iter().position(|cell| cell.is_free())
}

/// Makes ready what a step makes of each cell.
fn make_cells_ready(cells: &mut [Cell], alloc: Global, step: &Step) -> Result<(), AllocError>
    ensures now { now_in cells.new ≡ now_in cells.old }
    ensures next { OnOk result
        (next_in cells.new ≡ map (handle_after step.now) (now_in cells.old)) }
{
    for cell in cells.iter_mut() {
        cell.make_ready(alloc, step)?;
    }
    Ok(())
}

/// Makes the changes of cells that were made ready.
fn pass_cells(cells: &mut [Cell])
    ensures { now_in cells.new ≡ next_in cells.old }
{
    for cell in cells.iter_mut() {
        cell.pass();
    }
}
