//! Reading a line.

ghost use Rattle.std.specs.Prelude.{◌≡◌, ◌↔◌, Ok, Err, IsTrue, is_ok, IfOk};
ghost use Rattle.bd_script.specs.Lines.{line_of, line_of_words, line_of_verb, line_of_write, line_of_truncate, line_of_chmod, line_of_read, line_of_list, alone, path_in, only_path, two_paths, IsLine};
ghost use Rattle.bd_script.specs.Reading.{texts, IsRead, IsPathRead, ArePathsRead};
ghost use Rattle.bd_command.specs.declared.refusal.Refusal.TheVariants as refusal;

use crate::line::{Line, LineFault};
use crate::number::{read_hex, read_mode, read_number};
use crate::verb::Verb;
use crate::words::cut_words;
use bd_command::Command;
use bd_keys::Bytes;
use bd_limits::{MAX_LINE, MAX_READ, MAX_WRITE};
use bd_names::{Name, Path};
use std::alloc::Global;

/// Reads a line, which is given without its newline. A refused line takes no memory.
#[tactic(auto, unfolding(crate::specs::Lines::line_of))]
pub fn read_line(alloc: Global, line: &[u8]) -> Result<Line, LineFault>
    ensures meaning { IfOk result (λ read. line_of line.now ≡ Ok read) }
    ensures limits { IfOk result IsLine }
    ensures bad_line { (result ≡ Err LineFault.BadLine) ↔ (line_of line.now ≡ Err refusal.BadLine) }
    ensures bad_path { (result ≡ Err LineFault.BadPath) ↔ (line_of line.now ≡ Err refusal.BadPath) }
    ensures no_memory { result ≡ Err LineFault.NoMemory → IsTrue (is_ok (line_of line.now)) }
{
    if line.len() > MAX_LINE {
        return Err(LineFault::BadLine);
    }
    let words = cut_words(alloc, line).ok_or(LineFault::BadLine)?;
    read_words(alloc, words.as_slice())
}

/// Reads a line of these words.
fn read_words(alloc: Global, words: &[&[u8]]) -> Result<Line, LineFault>
    ensures { IsRead result (line_of_words (texts words.now)) }
{
    let [first, rest @ ..] = words else {
        return Err(LineFault::BadLine);
    };
    let verb = Verb::of(first).ok_or(LineFault::BadLine)?;
    read_verb(alloc, verb, rest)
}

/// Reads a line of a verb and the words after it.
fn read_verb(alloc: Global, verb: Verb, words: &[&[u8]]) -> Result<Line, LineFault>
    ensures { IsRead result (line_of_verb verb (texts words.now)) }
{
    match verb {
        Verb::Mkdir => {
            let path = only_path(alloc, words)?;
            Ok(Line::Run(Command::Mkdir { path }))
        }
        Verb::Create => {
            let path = only_path(alloc, words)?;
            Ok(Line::Run(Command::Create { path }))
        }
        Verb::Write => read_write(alloc, words),
        Verb::Truncate => read_truncate(alloc, words),
        Verb::Remove => {
            let path = only_path(alloc, words)?;
            Ok(Line::Run(Command::Remove { path }))
        }
        Verb::Rename => {
            let (a, b) = two_paths(alloc, words)?;
            Ok(Line::Run(Command::Rename { a, b }))
        }
        Verb::Clone => {
            let (a, b) = two_paths(alloc, words)?;
            Ok(Line::Run(Command::Clone { a, b }))
        }
        Verb::Chmod => read_chmod(alloc, words),
        Verb::Read => read_read(alloc, words),
        Verb::Stat => {
            let path = only_path(alloc, words)?;
            Ok(Line::Run(Command::Stat { path }))
        }
        Verb::List => read_list(alloc, words),
        Verb::Walk => alone(Line::Walk, words),
        Verb::Df => alone(Line::Df, words),
        Verb::Sync => alone(Line::Sync, words),
        Verb::Checkpoint => alone(Line::Checkpoint, words),
        Verb::Reclaim => alone(Line::Reclaim, words),
        Verb::Stop => alone(Line::Stop, words),
    }
}

/// Reads what follows `write`.
fn read_write(alloc: Global, words: &[&[u8]]) -> Result<Line, LineFault>
    ensures { IsRead result (line_of_write (texts words.now)) }
{
    let [path, off, hex] = words else {
        return Err(LineFault::BadLine);
    };
    let off = read_number(off).ok_or(LineFault::BadLine)?;
    let mut room = [0; MAX_WRITE];
    let len = read_hex(hex, &mut room).ok_or(LineFault::BadLine)?;
    let path = read_path(alloc, path)?;
    let bytes = Bytes::from_slice(alloc, &room[..len])?;
    Ok(Line::Run(Command::Write { path, off, bytes }))
}

/// Reads what follows `truncate`.
fn read_truncate(alloc: Global, words: &[&[u8]]) -> Result<Line, LineFault>
    ensures { IsRead result (line_of_truncate (texts words.now)) }
{
    let [path, len] = words else {
        return Err(LineFault::BadLine);
    };
    let len = read_number(len).ok_or(LineFault::BadLine)?;
    let path = read_path(alloc, path)?;
    Ok(Line::Run(Command::Truncate { path, len }))
}

/// Reads what follows `chmod`.
fn read_chmod(alloc: Global, words: &[&[u8]]) -> Result<Line, LineFault>
    ensures { IsRead result (line_of_chmod (texts words.now)) }
{
    let [path, mode] = words else {
        return Err(LineFault::BadLine);
    };
    let mode = read_mode(mode).ok_or(LineFault::BadLine)?;
    let path = read_path(alloc, path)?;
    Ok(Line::Run(Command::Chmod { path, mode }))
}

/// Reads what follows `read`.
fn read_read(alloc: Global, words: &[&[u8]]) -> Result<Line, LineFault>
    ensures { IsRead result (line_of_read (texts words.now)) }
{
    let [path, off, len] = words else {
        return Err(LineFault::BadLine);
    };
    let off = read_number(off).ok_or(LineFault::BadLine)?;
    let len = read_number(len).ok_or(LineFault::BadLine)?;
    if len > MAX_READ {
        return Err(LineFault::BadLine);
    }
    let path = read_path(alloc, path)?;
    Ok(Line::Run(Command::Read { path, off, len }))
}

/// Reads what follows `list`.
fn read_list(alloc: Global, words: &[&[u8]]) -> Result<Line, LineFault>
    ensures { IsRead result (line_of_list (texts words.now)) }
{
    match words {
        [path] => {
            let path = read_path(alloc, path)?;
            Ok(Line::Run(Command::List { path, after: None }))
        }
        [path, after] => {
            if !Name::is_name(after) {
                return Err(LineFault::BadPath);
            }
            let path = read_path(alloc, path)?;
            let after = Some(Name::read(alloc, after)?);
            Ok(Line::Run(Command::List { path, after }))
        }
        _ => Err(LineFault::BadLine),
    }
}

/// A line of a verb alone, where no words follow it.
fn alone(line: Line, words: &[&[u8]]) -> Result<Line, LineFault>
    requires { IsLine line }
    ensures { IsRead result (alone line (texts words.now)) }
{
    match words {
        [] => Ok(line),
        _ => Err(LineFault::BadLine),
    }
}

/// Reads the one path that follows a verb.
fn only_path(alloc: Global, words: &[&[u8]]) -> Result<Path, LineFault>
    ensures { IsPathRead result (only_path (texts words.now)) }
{
    match words {
        [path] => read_path(alloc, path),
        _ => Err(LineFault::BadLine),
    }
}

/// Reads the two paths that follow a verb.
fn two_paths(alloc: Global, words: &[&[u8]]) -> Result<(Path, Path), LineFault>
    ensures { ArePathsRead result (two_paths (texts words.now)) }
{
    let [first, second] = words else {
        return Err(LineFault::BadLine);
    };
    if !Path::is_path(second) {
        return Err(LineFault::BadPath);
    }
    let first = read_path(alloc, first)?;
    let second = read_path(alloc, second)?;
    Ok((first, second))
}

/// Reads a word that has to be a path. A refused one takes no memory.
pub fn read_path(alloc: Global, word: &[u8]) -> Result<Path, LineFault>
    ensures { IsPathRead result (path_in word.now) }
{
    Ok(Path::read(alloc, word)?)
}
