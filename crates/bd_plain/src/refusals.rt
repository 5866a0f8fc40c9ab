//! Why the tree refuses a command.

ghost use Rattle.std.specs.Prelude.{◌≡◌, ◌+◌, ◌^◌, IfOk, IfErr};
ghost use Rattle.std.specs.Option.{option_and_then};
ghost use Rattle.std.specs.FinMap.{get};
ghost use Rattle.bd_names.specs.Names.{parent_of};
ghost use Rattle.bd_model.specs.Tree.{FileWith};
ghost use Rattle.bd_model.specs.Step.{absent_refusal, file_refusal, directory_refusal, new_refusal, target_refusal, parent_refusal, has_file, is_taken, root_refusal, size_refusal, inside_refusal, refusal_of};
ghost use Rattle.bd_command.specs.declared.Command.TheVariants as command;

use crate::entry::Content;
use crate::file::File;
use crate::paths;
use crate::tree::PlainTree;
use bd_command::Refusal;
use bd_limits::MAX_FILE;
use bd_names::Name;

/// `/` can be neither removed nor moved.
pub fn root_refusal(path: &[Name]) -> Option<Refusal>
    ensures { result ≡ root_refusal path.now }
{
    if path.is_empty() {
        Some(Refusal::Root)
    } else {
        None
    }
}

/// A path can't be moved to itself or below itself.
pub fn inside_refusal(a: &[Name], b: &[Name]) -> Option<Refusal>
    ensures { result ≡ inside_refusal a.now b.now }
{
    if paths::is_under(a, b) {
        Some(Refusal::Inside)
    } else {
        None
    }
}

/// A file can't have more than 2^30 bytes; `len` of them from `off` on would end past that.
pub fn size_refusal(off: u32, len: usize) -> Option<Refusal>
    ensures { result ≡ size_refusal (off + len) }
{
    let limit = MAX_FILE as usize;
    if len <= limit && off as usize <= limit - len {
        None
    } else {
        Some(Refusal::TooBig)
    }
}

impl PlainTree {
    /// The mode and the bytes of the file at a path, or why there is none.
    pub(crate) fn file(&self, path: &[Name]) -> Result<(u16, &File), Refusal>
        ensures found { IfOk result (λ found.
            get self.now path.now ≡ Some (FileWith found.0 found.1.now)) }
        ensures refused { IfErr result (λ refusal.
            file_refusal (get self.now path.now) ≡ Some refusal) }
    {
        match self.get(path) {
            None => Err(Refusal::NotFound),
            Some(Content::Directory(_)) => Err(Refusal::IsDir),
            Some(Content::File(mode, file)) => Ok((*mode, file)),
        }
    }

    /// Nothing is at the path.
    pub(crate) fn absent_refusal(&self, path: &[Name]) -> Option<Refusal>
        ensures { result ≡ absent_refusal (get self.now path.now) }
    {
        match self.get(path) {
            None => Some(Refusal::NotFound),
            Some(_) => None,
        }
    }

    /// No directory is at the path.
    pub(crate) fn directory_refusal(&self, path: &[Name]) -> Option<Refusal>
        ensures { result ≡ directory_refusal (get self.now path.now) }
    {
        match self.get(path) {
            None => Some(Refusal::NotFound),
            Some(Content::Directory(_)) => None,
            Some(Content::File(..)) => Some(Refusal::NotDir),
        }
    }

    /// A new entry can't be made at the path.
    pub(crate) fn new_refusal(&self, path: &[Name]) -> Option<Refusal>
        ensures { result ≡ new_refusal self.now path.now }
    {
        if self.get(path).is_some() {
            return Some(Refusal::Exists);
        }
        self.above_refusal(path)
    }

    /// What is at `a` can't be moved to `b`: only a file gives way, and only to a file.
    pub(crate) fn target_refusal(&self, a: &[Name], b: &[Name]) -> Option<Refusal>
        ensures { result ≡ target_refusal self.now a.now b.now }
    {
        if self.is_taken(a, b) {
            return Some(Refusal::Exists);
        }
        self.above_refusal(b)
    }

    /// What is at `b` doesn't give way to what is at `a`.
    fn is_taken(&self, a: &[Name], b: &[Name]) -> bool
        ensures { result ≡ is_taken (get self.now a.now) (get self.now b.now) }
    {
        self.get(b).is_some() && !(self.has_file(a) && self.has_file(b))
    }

    /// A file is at the path.
    fn has_file(&self, path: &[Name]) -> bool
        ensures { result ≡ has_file (get self.now path.now) }
    {
        match self.get(path) {
            None | Some(Content::Directory(_)) => false,
            Some(Content::File(..)) => true,
        }
    }

    /// No directory is above the path.
    fn above_refusal(&self, path: &[Name]) -> Option<Refusal>
        ensures { result ≡ parent_refusal (option_and_then (get self.now) (parent_of path.now)) }
    {
        match paths::parent(path).and_then(|parent| self.get(parent)) {
            None => Some(Refusal::NoParent),
            Some(Content::Directory(_)) => None,
            Some(Content::File(..)) => Some(Refusal::NotDir),
        }
    }

    /// What is at `a` can't be moved to `b`, for the first cause that holds.
    #[tactic(auto, using(crate::proofs::RefusalOrder::in_order))]
    pub(crate) fn rename_refusal(&self, a: &[Name], b: &[Name]) -> Option<Refusal>
        ensures { result ≡ refusal_of self.now (command.Rename a.now b.now) }
    {
        root_refusal(a)
            .or(self.absent_refusal(a))
            .or(inside_refusal(a, b))
            .or(self.target_refusal(a, b))
    }
}
