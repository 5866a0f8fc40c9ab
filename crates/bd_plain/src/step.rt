//! The commands, by a function each.

ghost use Rattle.std.specs.Prelude.{◌≡◌, IfOk, OnErr};
ghost use Rattle.std.specs.Option.{option_copied};
ghost use Rattle.bd_command.specs.declared.Command.TheVariants as command;
ghost use Rattle.bd_model.specs.Step.{step, those_after, listing_of};
ghost use Rattle.bd_plain.specs.Steps.{StepsTo};

use crate::entry::{Content, Placed};
use crate::file::File;
use crate::refusals;
use crate::tree::PlainTree;
use bd_command::{Command, Listed, Listing, Names, Refusal, Reply};
use bd_keys::Bytes;
use bd_limits::MAX_LISTING;
use bd_names::{Name, Path};
use std::alloc::{AllocError, Global};

impl PlainTree {
    /// Executes a command, and gives its reply. Where it is refused or memory is wanting, the tree
    /// stays.
    pub fn step(&mut self, alloc: Global, command: &Command) -> Result<Reply, AllocError>
        ensures ok { IfOk result (λ reply. (self.new, reply) ≡ step self.old command.now) }
        ensures err { OnErr result (self.new ≡ self.old) }
    {
        match command {
            Command::Mkdir { path } => self.mkdir(alloc, path),
            Command::Create { path } => self.create(alloc, path),
            Command::Write { path, off, bytes } => self.write(alloc, path, *off, bytes),
            Command::Truncate { path, len } => self.truncate(alloc, path, *len),
            Command::Remove { path } => self.remove(alloc, path),
            Command::Rename { a, b } => self.rename(alloc, a, b),
            Command::Clone { a, b } => self.clone_to(alloc, a, b),
            Command::Chmod { path, mode } => self.chmod(alloc, path, *mode),
            Command::Read { path, off, len } => self.read(alloc, path, *off, *len),
            Command::Stat { path } => self.stat(alloc, path),
            Command::List { path, after } => self.list(alloc, path, after.as_ref()),
        }
    }

    /// Makes an empty directory.
    fn mkdir(&mut self, alloc: Global, path: &Path) -> Result<Reply, AllocError>
        ensures ok { StepsTo self.old (command.Mkdir path.now) self.new result }
        ensures err { OnErr result (self.new ≡ self.old) }
    {
        let path = path.names(alloc)?;
        if let Some(refusal) = self.new_refusal(&path) {
            return Ok(Reply::Refused(refusal));
        }
        self.put(Placed::new(path, Content::Directory(0)))?;
        Ok(Reply::Done)
    }

    /// Makes an empty file.
    fn create(&mut self, alloc: Global, path: &Path) -> Result<Reply, AllocError>
        ensures ok { StepsTo self.old (command.Create path.now) self.new result }
        ensures err { OnErr result (self.new ≡ self.old) }
    {
        let path = path.names(alloc)?;
        if let Some(refusal) = self.new_refusal(&path) {
            return Ok(Reply::Refused(refusal));
        }
        self.put(Placed::new(path, Content::File(0, File::empty(alloc))))?;
        Ok(Reply::Done)
    }

    /// Extends a file with zeros to `off`, and overwrites it from there on.
    fn write(
        &mut self,
        alloc: Global,
        path: &Path,
        off: u32,
        bytes: &Bytes,
    ) -> Result<Reply, AllocError>
        ensures ok { StepsTo self.old (command.Write path.now off bytes.now) self.new result }
        ensures err { OnErr result (self.new ≡ self.old) }
    {
        let path = path.names(alloc)?;
        let (mode, file) = match self.file(&path) {
            Ok(found) => found,
            Err(refusal) => return Ok(Reply::Refused(refusal)),
        };
        if let Some(refusal) = refusals::size_refusal(off, bytes.len()) {
            return Ok(Reply::Refused(refusal));
        }
        let file = file.overwritten(alloc, off, bytes.as_slice())?;
        self.put(Placed::new(path, Content::File(mode, file)))?;
        Ok(Reply::Done)
    }

    /// Cuts a file, or extends it with zeros, to a length.
    fn truncate(&mut self, alloc: Global, path: &Path, len: u32) -> Result<Reply, AllocError>
        ensures ok { StepsTo self.old (command.Truncate path.now len) self.new result }
        ensures err { OnErr result (self.new ≡ self.old) }
    {
        let path = path.names(alloc)?;
        let (mode, file) = match self.file(&path) {
            Ok(found) => found,
            Err(refusal) => return Ok(Reply::Refused(refusal)),
        };
        if let Some(refusal) = refusals::size_refusal(len, 0) {
            return Ok(Reply::Refused(refusal));
        }
        let file = file.resized(alloc, len)?;
        self.put(Placed::new(path, Content::File(mode, file)))?;
        Ok(Reply::Done)
    }

    /// Removes what is at the path and below it.
    fn remove(&mut self, alloc: Global, path: &Path) -> Result<Reply, AllocError>
        ensures ok { StepsTo self.old (command.Remove path.now) self.new result }
        ensures err { OnErr result (self.new ≡ self.old) }
    {
        let path = path.names(alloc)?;
        let refusal = refusals::root_refusal(&path).or(self.absent_refusal(&path));
        if let Some(refusal) = refusal {
            return Ok(Reply::Refused(refusal));
        }
        self.remove_under(&path);
        Ok(Reply::Done)
    }

    /// Moves what is at `a` and below it to `b`, a file also over another one.
    fn rename(&mut self, alloc: Global, a: &Path, b: &Path) -> Result<Reply, AllocError>
        ensures ok { StepsTo self.old (command.Rename a.now b.now) self.new result }
        ensures err { OnErr result (self.new ≡ self.old) }
    {
        let a = a.names(alloc)?;
        let b = b.names(alloc)?;
        if let Some(refusal) = self.rename_refusal(&a, &b) {
            return Ok(Reply::Refused(refusal));
        }
        *self = self.renamed(alloc, &a, &b)?;
        Ok(Reply::Done)
    }

    /// Copies what is at `a` and below it to `b`.
    fn clone_to(&mut self, alloc: Global, a: &Path, b: &Path) -> Result<Reply, AllocError>
        ensures ok { StepsTo self.old (command.Clone a.now b.now) self.new result }
        ensures err { OnErr result (self.new ≡ self.old) }
    {
        let a = a.names(alloc)?;
        let b = b.names(alloc)?;
        let refusal = self.absent_refusal(&a).or(self.new_refusal(&b));
        if let Some(refusal) = refusal {
            return Ok(Reply::Refused(refusal));
        }
        *self = self.cloned(alloc, &a, &b)?;
        Ok(Reply::Done)
    }

    /// Sets the mode of what is at the path.
    fn chmod(&mut self, alloc: Global, path: &Path, mode: u16) -> Result<Reply, AllocError>
        ensures ok { StepsTo self.old (command.Chmod path.now mode) self.new result }
        ensures err { OnErr result (self.new ≡ self.old) }
    {
        let path = path.names(alloc)?;
        let content = match self.get(&path) {
            None => return Ok(Reply::Refused(Refusal::NotFound)),
            Some(content) => content.with_mode(mode)?,
        };
        self.put(Placed::new(path, content))?;
        Ok(Reply::Done)
    }

    /// Reads at most `len` bytes of a file from `off` on.
    fn read(&self, alloc: Global, path: &Path, off: u32, len: u32) -> Result<Reply, AllocError>
        ensures { StepsTo self.now (command.Read path.now off len) self.now result }
    {
        let path = path.names(alloc)?;
        match self.file(&path) {
            Ok((_, file)) => Ok(Reply::Bytes(file.read(alloc, off, len)?)),
            Err(refusal) => Ok(Reply::Refused(refusal)),
        }
    }

    /// Says what is at the path.
    fn stat(&self, alloc: Global, path: &Path) -> Result<Reply, AllocError>
        ensures { StepsTo self.now (command.Stat path.now) self.now result }
    {
        let path = path.names(alloc)?;
        match self.get(&path) {
            None => Ok(Reply::Refused(Refusal::NotFound)),
            Some(Content::Directory(mode)) => Ok(Reply::Dir(*mode)),
            Some(Content::File(mode, file)) => Ok(Reply::File(file.len(), *mode)),
        }
    }

    /// Lists the names in a directory, those greater than `after` alone where it is there.
    fn list(&self, alloc: Global, path: &Path, after: Option<&Name>) -> Result<Reply, AllocError>
        ensures { StepsTo self.now (command.List path.now (option_copied after.entry))
            self.now result }
    {
        let path = path.names(alloc)?;
        if let Some(refusal) = self.directory_refusal(&path) {
            return Ok(Reply::Refused(refusal));
        }
        let mut names = self.children(alloc, &path)?;
        keep_after(&mut names, after);
        Ok(Reply::Names(listing(names)))
    }
}

/// Keeps the names greater than a name, where one is given.
fn keep_after(names: &mut Vec<Listed>, after: Option<&Name>)
    ensures { names.new.items ≡ those_after (option_copied after.entry) names.old.items }
{
    if let Some(after) = after {
        names.retain(|listed| *after < listed.name);
    }
}

/// The first 100 names, and whether more follow.
fn listing(mut names: Vec<Listed>) -> Listing
    ensures { result ≡ listing_of names.items }
{
    let more = names.len() > MAX_LISTING;
    names.truncate(MAX_LISTING);
    Listing {
        names: Names::from_vec(names),
        more,
    }
}
