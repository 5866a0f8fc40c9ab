//! Whether a command is refused, before it is executed.

ghost use Rattle.std.specs.Prelude.{◌≡◌, IfOk};
ghost use Rattle.bd_model.specs.Step.{refusal_of, file_refusal};
ghost use Rattle.std.specs.FinMap.{get};

use crate::refusals;
use crate::tree::PlainTree;
use bd_command::{Command, Refusal};
use bd_names::Name;
use std::alloc::{AllocError, Global};

impl PlainTree {
    /// Why the tree refuses a command, if it does: the first cause that holds.
    pub fn refusal(&self, alloc: Global, command: &Command) -> Result<Option<Refusal>, AllocError>
        ensures { IfOk result (λ refusal. refusal ≡ refusal_of self.now command.now) }
    {
        Ok(match command {
            Command::Mkdir { path } => self.new_refusal(&path.names(alloc)?),
            Command::Create { path } => self.new_refusal(&path.names(alloc)?),
            Command::Write { path, off, bytes } => self
                .file_refusal(&path.names(alloc)?)
                .or(refusals::size_refusal(*off, bytes.len())),
            Command::Truncate { path, len } => self
                .file_refusal(&path.names(alloc)?)
                .or(refusals::size_refusal(*len, 0)),
            Command::Remove { path } => {
                let path = path.names(alloc)?;
                refusals::root_refusal(&path).or(self.absent_refusal(&path))
            }
            Command::Rename { a, b } => self.rename_refusal(&a.names(alloc)?, &b.names(alloc)?),
            Command::Clone { a, b } => self
                .absent_refusal(&a.names(alloc)?)
                .or(self.new_refusal(&b.names(alloc)?)),
            Command::Chmod { path, .. } => self.absent_refusal(&path.names(alloc)?),
            Command::Read { path, .. } => self.file_refusal(&path.names(alloc)?),
            Command::Stat { path } => self.absent_refusal(&path.names(alloc)?),
            Command::List { path, .. } => self.directory_refusal(&path.names(alloc)?),
        })
    }

    /// No file is at the path.
    fn file_refusal(&self, path: &[Name]) -> Option<Refusal>
        ensures { result ≡ file_refusal (get self.now path.now) }
    {
        self.file(path).err()
    }
}
