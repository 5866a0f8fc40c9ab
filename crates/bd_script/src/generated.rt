//! The drawn lines of a generated load.

ghost use Rattle.std.specs.Prelude.{◌≡◌, IfOk};
ghost use Rattle.std.specs.String.{string_bytes};
ghost use Rattle.bd_script.specs.Generated.{kind_of, state_after, line_from, line_text};

use crate::draws::Draws;
use std::alloc::{AllocError, Global};

/// How many directories the files of a generated load lie in.
pub(crate) const DIRECTORIES: u16 = 8;

/// How many draws a line is made of.
pub(crate) const DRAWS: u64 = 5;

/// What a drawn line does.
#[derive(Clone, Copy, Debug, PartialEq, Eq)]
pub(crate) enum Kind {
    /// Creates a file.
    CreateFile,
    /// Writes 32 equal bytes to a file.
    WriteFile,
    /// Sets the length of a file.
    TruncateFile,
    /// Removes a file.
    RemoveFile,
    /// Clones a file within its directory.
    CloneFile,
    /// Clones a directory of files.
    CloneDir,
    /// Removes a clone of a directory.
    RemoveClone,
    /// Reads from a file.
    ReadFile,
}

impl Kind {
    /// The kind of a line whose first draw gives this number.
    fn of(number: u16) -> Kind
        ensures { result ≡ kind_of number }
    {
        match number {
            0..=4 => Kind::CreateFile,
            5..=9 => Kind::WriteFile,
            10 => Kind::TruncateFile,
            11 => Kind::RemoveFile,
            12 => Kind::CloneFile,
            13 => Kind::CloneDir,
            14 => Kind::RemoveClone,
            _ => Kind::ReadFile,
        }
    }
}

/// A drawn line: its kind, the numbers of the directory and of the file, the place in it, and the
/// byte that is written, which also numbers a directory's clone.
#[derive(Clone, Copy, Debug)]
pub(crate) struct DrawnLine {
    kind: Kind,
    dir: u16,
    file: u16,
    place: u16,
    byte: u8,
}

impl DrawnLine {
    /// Makes the five draws of a line.
    pub(crate) fn draw(draws: &mut Draws) -> DrawnLine
        ensures line { result ≡ line_from draws.old.state }
        ensures state { draws.new.state ≡ state_after draws.old.state DRAWS }
    {
        DrawnLine {
            kind: Kind::of(draws.below(16)),
            dir: draws.below(DIRECTORIES),
            file: draws.below(64),
            place: draws.below(4_096),
            byte: draws.below(256) as u8,
        }
    }

    /// The line's text.
    #[tactic(auto, unfolding(crate::specs::Generated::line_text))]
    pub(crate) fn text(self, alloc: Global) -> Result<String, AllocError>
        ensures { IfOk result (λ text. string_bytes text ≡ line_text self) }
    {
        let DrawnLine {
            kind,
            dir,
            file,
            place,
            byte,
        } = self;
        match kind {
            Kind::CreateFile => format!(in alloc; "create /d{dir}/f{file}"),
            Kind::WriteFile => {
                let bytes = hex::encode(alloc, [byte; 32])?;
                format!(in alloc; "write /d{dir}/f{file} {place} {bytes}")
            }
            Kind::TruncateFile => format!(in alloc; "truncate /d{dir}/f{file} {place}"),
            Kind::RemoveFile => format!(in alloc; "remove /d{dir}/f{file}"),
            Kind::CloneFile => format!(in alloc; "clone /d{dir}/f{file} /d{dir}/g{file}"),
            Kind::CloneDir => format!(in alloc; "clone /d{dir} /c{byte}"),
            Kind::RemoveClone => format!(in alloc; "remove /c{byte}"),
            Kind::ReadFile => format!(in alloc; "read /d{dir}/f{file} {place} 64"),
        }
    }
}
