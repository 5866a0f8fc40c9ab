//! Paths of commands, made of the names of handles.

ghost use Rattle.std.specs.Prelude.{◌≡◌, ◌++◌, List, ℕ, false, true, IfOk, OnOk, MatchOption};
ghost use Rattle.std.specs.List.{flat_map};
ghost use Rattle.bd_names.specs.Names.{AreNames, path_text};
ghost use Rattle.bd_command.specs.Command.{IsShortPath};
ghost use Rattle.bd_sessions.specs.Sessions.{is_long};

use bd_limits::MAX_PATH;
use bd_names::{Name, Path, PathFault};
use std::alloc::{AllocError, Global};

/// The path of these names, where it is no longer than one in a command may be.
pub(crate) fn short_path(alloc: Global, names: &[Name]) -> Result<Option<Path>, AllocError>
    ensures { IfOk result (λ found. MatchOption found (is_long names.now ≡ true)
        (λ path. (is_long names.now ≡ false) × (path ≡ names.now) × IsShortPath path)) }
{
    let text = path_text(alloc, names)?;
    if text.len() > MAX_PATH {
        return Ok(None);
    }
    match Path::read(alloc, &text) {
        Ok(path) => Ok(Some(path)),
        Err(PathFault::BadPath) => Ok(None),
        Err(PathFault::NoMemory) => Err(AllocError),
    }
}

/// The text of the path of these names.
fn path_text(alloc: Global, names: &[Name]) -> Result<Vec<u8>, AllocError>
    ensures text { IfOk result (λ text. text.items ≡ path_text names.now) }
    ensures names { OnOk result (AreNames names.now) }
{
    if names.is_empty() {
        return Ok(Vec::from_slice(alloc, b"/")?);
    }
    let mut text = Vec::new(alloc);
    for name in names {
        text.push(b'/')?;
        text.extend_from_slice(name.as_bytes())?;
    }
    Ok(text)
}
