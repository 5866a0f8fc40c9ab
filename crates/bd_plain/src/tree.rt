//! The tree as its entries in the order of their paths.

ghost use Rattle.std.specs.Prelude.{◌≡◌, ◌++◌, IfOk, OnOk, OnErr};
ghost use Rattle.std.specs.Option.{option_map};
ghost use Rattle.std.specs.FinMap as map;
ghost use Rattle.bd_model.specs.Tree.{root_only};
ghost use Rattle.bd_model.specs.Step.{without, moved, cloned, renamed, children};
ghost use Rattle.bd_plain.specs.Entries.{entry_of};

use crate::entries;
use crate::entry::{Content, Placed};
use bd_command::Listed;
use bd_names::Name;
use std::alloc::{AllocError, Global};
use std::marker::Model;

/// A tree of directories and files, seen as the map from their paths. It is slow, and for small
/// trees.
#[derive(Debug, Drop)]
pub struct PlainTree {
    entries: Vec<Placed>,
}

impl Model for PlainTree {
    ghost use Rattle.std.specs.Prelude.{IsTrue};
    ghost use Rattle.std.specs.FinMap.{from_sorted, is_sorted};
    ghost use Rattle.bd_model.specs.Tree.{Tree, coded_tree, path_cmp};

    ghost Value = { Tree };

    ghost coded = { coded_tree };

    ghost view = { λ t. from_sorted t.entries.items };

    ghost invariant = { λ t. IsTrue (is_sorted path_cmp t.entries.items) };
}

impl PlainTree {
    /// The tree of `/` alone.
    pub fn new(alloc: Global) -> Result<PlainTree, AllocError>
        ensures { IfOk result (λ new. new ≡ root_only) }
    {
        let mut entries = Vec::new(alloc);
        entries.push(Placed::new(Vec::new(alloc), Content::Directory(0)))?;
        Ok(PlainTree { entries })
    }

    /// What stands at a path.
    pub(crate) fn get(&self, path: &[Name]) -> Option<&Content>
        ensures { option_map (λ content. entry_of content.now) result ≡ map.get self.now path.now }
    {
        entries::find(&self.entries, path)
    }

    /// Puts an entry at its path, instead of the one that stands there.
    pub(crate) fn put(&mut self, placed: Placed) -> Result<(), AllocError>
        ensures ok { OnOk result (self.new ≡ map.insert self.old placed.0 placed.1) }
        ensures err { OnErr result (self.new ≡ self.old) }
    {
        entries::put(&mut self.entries, placed)
    }

    /// Puts many entries, of several for one path the first. For want of memory only some are put.
    fn put_all(&mut self, mut placed: Vec<Placed>) -> Result<(), AllocError>
        ensures { OnOk result
            (self.new ≡ map.from_entries (placed.items ++ map.entries self.old)) }
    {
        while let Some(last) = placed.pop() {
            self.put(last)?;
        }
        Ok(())
    }

    /// Copies of what stands at `a` and below it, at the same places below `b`.
    fn moved(&self, alloc: Global, a: &[Name], b: &[Name]) -> Result<Vec<Placed>, AllocError>
        ensures { IfOk result (λ copies. copies.items ≡ moved a.now b.now self.now) }
    {
        entries::moved(alloc, &self.entries, a, b)
    }

    /// The tree in which what stands at `a` or below it stands at `b` too.
    pub(crate) fn cloned(
        &self,
        alloc: Global,
        a: &[Name],
        b: &[Name],
    ) -> Result<PlainTree, AllocError>
        ensures { IfOk result (λ new. new ≡ cloned a.now b.now self.now) }
    {
        let mut new = self.clone()?;
        new.put_all(self.moved(alloc, a, b)?)?;
        Ok(new)
    }

    /// The tree in which what stands at `a` or below it stands at `b`, and nothing at `a`.
    pub(crate) fn renamed(
        &self,
        alloc: Global,
        a: &[Name],
        b: &[Name],
    ) -> Result<PlainTree, AllocError>
        ensures { IfOk result (λ new. new ≡ renamed a.now b.now self.now) }
    {
        let mut new = self.clone()?;
        new.remove_under(a);
        new.put_all(self.moved(alloc, a, b)?)?;
        Ok(new)
    }

    /// Drops what stands at a path and below it.
    pub(crate) fn remove_under(&mut self, path: &[Name])
        ensures { self.new ≡ without path.now self.old }
    {
        entries::remove_under(&mut self.entries, path);
    }

    /// The names in a directory, in the order of their bytes.
    pub(crate) fn children(&self, alloc: Global, path: &[Name]) -> Result<Vec<Listed>, AllocError>
        ensures { IfOk result (λ names. names.items ≡ children path.now self.now) }
    {
        entries::children(alloc, &self.entries, path)
    }
}

impl Clone for PlainTree {
    ghost is_clone = { λ tree copy. copy ≡ tree };

    fn clone(&self) -> Result<PlainTree, AllocError> {
        Ok(PlainTree {
            entries: self.entries.clone()?,
        })
    }
}
