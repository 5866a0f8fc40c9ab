//! Entries in the order of their paths.

ghost use Rattle.std.specs.Prelude.{◌≡◌, ◌<◌, not, IfOk, OnOk, OnErr};
ghost use Rattle.std.specs.List.{insert, filter, filter_map};
ghost use Rattle.std.specs.Option.{option_map};
ghost use Rattle.std.specs.FinMap as map;
ghost use Rattle.bd_names.specs.Names.{rest_below, is_under};
ghost use Rattle.bd_model.specs.Tree.{path_cmp};
ghost use Rattle.bd_model.specs.Step.{moved_entry, child_of};
ghost use Rattle.bd_plain.specs.Entries.{entry_of, IsPlace};

use crate::entry::{Content, Placed};
use crate::paths;
use bd_command::Listed;
use bd_names::Name;
use std::alloc::{AllocError, Global};
use std::cmp::Ordering;

/// What stands at a path.
pub fn find<'a>(entries: &'a [Placed], path: &[Name]) -> Option<&'a Content>
    ensures { option_map (λ content. entry_of content.now) result
        ≡ map.find path_cmp path.now entries.now }
{
    for placed in entries {
        if paths::compare(path, placed.path()).is_eq() {
            return Some(placed.content());
        }
    }
    None
}

/// Where the entry of a path stands, or else where it would have to be inserted.
fn place(entries: &[Placed], path: &[Name]) -> Result<usize, usize>
    ensures { IsPlace entries.now path.now result }
{
    for (at, placed) in entries.iter().enumerate() {
        match paths::compare(path, placed.path()) {
            Ordering::Less => return Err(at),
            Ordering::Equal => return Ok(at),
            Ordering::Greater => {}
        }
    }
    Err(entries.len())
}

/// Puts an entry in its place, instead of the one that stands at its path.
pub fn put(entries: &mut Vec<Placed>, placed: Placed) -> Result<(), AllocError>
    ensures ok { OnOk result
        (entries.new.items ≡ map.put path_cmp placed.0 placed.1 entries.old.items) }
    ensures err { OnErr result (entries.new.items ≡ entries.old.items) }
{
    match place(entries, placed.path()) {
        Ok(at) => entries[at] = placed,
        Err(at) => entries.insert(at, placed)?,
    }
    Ok(())
}

/// Drops the entries at a path and below it.
pub fn remove_under(entries: &mut Vec<Placed>, path: &[Name])
    ensures { entries.new.items ≡ filter (λ e. not (is_under path.now e.0)) entries.old.items }
{
    entries.retain(|placed| !placed.is_under(path));
}

/// Copies of the entries at `a` and below it, at the same places below `b`.
pub fn moved(
    alloc: Global,
    entries: &[Placed],
    a: &[Name],
    b: &[Name],
) -> Result<Vec<Placed>, AllocError>
    ensures { IfOk result (λ moved.
        moved.items ≡ filter_map (moved_entry a.now b.now) entries.now) }
{
    let mut moved = Vec::new(alloc);
    for placed in entries {
        if let Some(copy) = placed.moved(alloc, a, b)? {
            moved.push(copy)?;
        }
    }
    Ok(moved)
}

/// The names of what stands in the directory at a path.
pub fn children(alloc: Global, entries: &[Placed], path: &[Name]) -> Result<Vec<Listed>, AllocError>
    ensures { IfOk result (λ names.
        names.items ≡ filter_map (λ e. child_of (rest_below path.now e.0) e.1) entries.now) }
{
    let mut children = Vec::new(alloc);
    for placed in entries {
        if let Some(child) = placed.child(path)? {
            children.push(child)?;
        }
    }
    Ok(children)
}
