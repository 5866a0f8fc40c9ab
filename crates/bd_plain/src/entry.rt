//! An entry of a tree, and the path where it stands.

ghost use Rattle.std.specs.Prelude.{◌≡◌, Some, IfOk};
ghost use Rattle.bd_names.specs.Names.{rest_below, is_under};
ghost use Rattle.bd_model.specs.Tree.{is_directory};
ghost use Rattle.bd_model.specs.Step.{with_mode, moved_entry, child_of};
ghost use Rattle.bd_plain.specs.Entries.{entry_of};

use crate::file::File;
use crate::paths;
use bd_command::Listed;
use bd_names::Name;
use std::alloc::{AllocError, Global};
use std::marker::Model;

/// A directory with its mode, or a file with its mode and its bytes.
#[derive(Clone, Debug, Drop)]
pub enum Content {
    Directory(u16),
    File(u16, File),
}

impl Content {
    /// Whether it is a directory.
    pub fn is_directory(&self) -> bool
        ensures { result ≡ is_directory (entry_of self.now) }
    {
        matches!(self, Content::Directory(_))
    }

    /// A copy with another mode.
    pub fn with_mode(&self, mode: u16) -> Result<Content, AllocError>
        ensures { IfOk result (λ new.
            entry_of new ≡ with_mode mode (Some (entry_of self.now))) }
    {
        match self {
            Content::Directory(_) => Ok(Content::Directory(mode)),
            Content::File(_, file) => Ok(Content::File(mode, file.clone()?)),
        }
    }
}

/// An entry, and the path where it stands, seen as the two.
#[derive(Debug, Drop)]
pub struct Placed {
    path: Vec<Name>,
    content: Content,
}

impl Model for Placed {
    ghost use Rattle.std.specs.Prelude.{List, ℕ};
    ghost use Rattle.std.specs.Coded.{coded×, coded_list, coded_ℕ};
    ghost use Rattle.bd_model.specs.Tree.{Entry, coded_entry};

    ghost Value = { List (List ℕ) × Entry };

    ghost coded = { coded× (coded_list (coded_list coded_ℕ)) coded_entry };

    ghost use Rattle.bd_plain.specs.Entries.{entry_of};

    ghost view = { λ p. (p.path.items, entry_of p.content) };
}

impl Placed {
    /// The entry at a path.
    pub fn new(path: Vec<Name>, content: Content) -> Placed
        ensures { result ≡ (path.items, entry_of content) }
    {
        Placed { path, content }
    }

    /// Where it stands.
    pub fn path(&self) -> &[Name]
        ensures { result.now ≡ self.now.0 }
    {
        &self.path
    }

    /// What stands there.
    pub fn content(&self) -> &Content
        ensures { entry_of result.now ≡ self.now.1 }
    {
        &self.content
    }

    /// Whether it stands at `of` or below it.
    pub fn is_under(&self, of: &[Name]) -> bool
        ensures { result ≡ is_under of.now self.now.0 }
    {
        paths::is_under(of, &self.path)
    }

    /// A copy at the same place below `b`, where it stands at `a` or below it.
    pub fn moved(&self, alloc: Global, a: &[Name], b: &[Name]) -> Result<Option<Placed>, AllocError>
        ensures { IfOk result (λ moved. moved ≡ moved_entry a.now b.now self.now) }
    {
        match paths::rest_below(a, &self.path) {
            Some(rest) => {
                let path = paths::joined(alloc, b, rest)?;
                let content = self.content.clone()?;
                Ok(Some(Placed { path, content }))
            }
            None => Ok(None),
        }
    }

    /// Its name, where it stands in the directory at a path.
    pub fn child(&self, of: &[Name]) -> Result<Option<Listed>, AllocError>
        ensures { IfOk result (λ child.
            child ≡ child_of (rest_below of.now self.now.0) self.now.1) }
    {
        match paths::rest_below(of, &self.path) {
            Some([name]) => {
                let name = name.clone()?;
                let is_dir = self.content.is_directory();
                Ok(Some(Listed { name, is_dir }))
            }
            _ => Ok(None),
        }
    }
}

impl Clone for Placed {
    ghost is_clone = { λ placed copy. copy ≡ placed };

    fn clone(&self) -> Result<Placed, AllocError> {
        Ok(Placed {
            path: self.path.clone()?,
            content: self.content.clone()?,
        })
    }
}
