//! Commands that move or remove what stands at a path.

ghost use Rattle.std.specs.Prelude.{◌≡◌, ◌++◌, IfOk, OnOk};
ghost use Rattle.std.specs.Option.{option_copied};
ghost use Rattle.bd_names.specs.Names.{rest_below};
ghost use Rattle.bd_sessions.specs.declared.handle.Handle.TheVariants as handle;
ghost use Rattle.bd_sessions.specs.Cells.{changed_handle};
ghost use Rattle.bd_sessions.specs.Following.{kept_path};
ghost use Rattle.bd_sessions.specs.Handles.{handle_of};
ghost use Rattle.bd_sessions.specs.Steps.{step_of, path_after};

use crate::cell::Change;
use bd_command::Command;
use bd_keys::Items;
use bd_names::{Name, Path};
use std::alloc::{AllocError, Global};

/// A command that moves or removes what stands at a path, by the names of its paths.
#[derive(Debug, Drop)]
pub(crate) enum Step {
    /// What is at a path or below it is removed.
    Removes(Items<Name>),
    /// What is at a path or below it comes to another one.
    Renames {
        source: Items<Name>,
        target: Items<Name>,
    },
}

impl Step {
    /// The step of a command, where it moves or removes something.
    pub(crate) fn of(alloc: Global, command: &Command) -> Result<Option<Step>, AllocError>
        ensures { IfOk result (λ step. step ≡ step_of command.now) }
    {
        match command {
            Command::Remove { path } => Ok(Some(Step::Removes(names_of(alloc, path)?))),
            Command::Rename { a, b } => {
                let source = names_of(alloc, a)?;
                let target = names_of(alloc, b)?;
                Ok(Some(Step::Renames { source, target }))
            }
            Command::Mkdir { .. }
            | Command::Create { .. }
            | Command::Write { .. }
            | Command::Truncate { .. }
            | Command::Clone { .. }
            | Command::Chmod { .. }
            | Command::Read { .. }
            | Command::Stat { .. }
            | Command::List { .. } => Ok(None),
        }
    }

    /// What the step makes of a handle of the file at a path.
    pub(crate) fn change(&self, alloc: Global, path: &[Name]) -> Result<Change, AllocError>
        ensures { IfOk result (λ change.
            changed_handle change (handle.At path.now) ≡ handle_of (path_after self.now path.now)) }
    {
        match self {
            Step::Removes(removed) => Ok(lost(removed.as_slice(), path)),
            Step::Renames { source, target } => {
                let Some(rest) = rest_below(source.as_slice(), path) else {
                    return Ok(lost(target.as_slice(), path));
                };
                let moved = joined(alloc, target.as_slice(), rest)?;
                Ok(Change::Moves(moved))
            }
        }
    }
}

/// The names of a path.
pub(crate) fn names_of(alloc: Global, path: &Path) -> Result<Items<Name>, AllocError>
    ensures { IfOk result (λ names. names ≡ path.now) }
{
    Ok(Items::from_vec(path.names(alloc)?))
}

/// What a handle of the file at a path comes to where what is at another path or below it goes.
fn lost(gone: &[Name], path: &[Name]) -> Change
    ensures { changed_handle result (handle.At path.now) ≡ handle_of (kept_path gone.now path.now) }
{
    if rest_below(gone, path).is_some() {
        Change::Loses
    } else {
        Change::Stays
    }
}

/// What follows `of` in a path that is `of` or below it.
fn rest_below<'a>(of: &[Name], path: &'a [Name]) -> Option<&'a [Name]>
    ensures { option_copied result ≡ rest_below of.now path.now }
{
    path.strip_prefix(of)
}

/// The names of one path and then those of another one.
fn joined(alloc: Global, front: &[Name], back: &[Name]) -> Result<Items<Name>, AllocError>
    ensures { IfOk result (λ names. names ≡ front.now ++ back.now) }
{
    let mut names = Vec::with_capacity(alloc, front.len() + back.len())?;
    push_all(&mut names, front)?;
    push_all(&mut names, back)?;
    Ok(Items::from_vec(names))
}

/// Puts copies of names behind others.
fn push_all(names: &mut Vec<Name>, more: &[Name]) -> Result<(), AllocError>
    ensures { OnOk result (names.new.items ≡ names.old.items ++ more.now) }
{
    for name in more {
        names.push(name.clone()?)?;
    }
    Ok(())
}
