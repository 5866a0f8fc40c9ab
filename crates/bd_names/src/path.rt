//! A path.

ghost use Rattle.std.specs.Prelude.{◌≡◌, ◌<◌, ◌≤◌, ◌↔◌, [], List, ℕ, length, take, drop, slice_index_or, IsTrue, IfOk, OnOk};
ghost use Rattle.std.specs.Prelude.{◌+◌, ◌-◌, ◌==◌, if◌then◌else◌, slice_index};
ghost use Rattle.std.specs.List.{list_all, slice_split};
ghost use Rattle.bd_limits.specs.Limits.{path_limit};
ghost use Rattle.bd_names.specs.Names.{is_name, AreNames, path_text, names_in, is_path, path_of, key_of, is_under, parent_of};
ghost use Rattle.bd_names.specs.Cuts.{ends_from, IsCut};

use crate::fault::PathFault;
use crate::name::Name;
use bd_limits::MAX_PATH;
use smallvec::SmallVec;
use std::alloc::{AllocError, Global};
use std::marker::Model;

/// A path of at most 512 bytes, seen as the list of its names. `/` has none.
#[derive(Debug, Drop)]
pub struct Path {
    text: Vec<u8>,
    /// Where each name ends in the text.
    cuts: SmallVec<u16, 8>,
}

impl Model for Path {
    ghost use Rattle.std.specs.Prelude.{List, ℕ};

    ghost Value = { List (List ℕ) };

    ghost use Rattle.bd_names.specs.Names.{names_in};
    ghost use Rattle.bd_names.specs.Cuts.{IsCut};

    ghost view = { λ p. names_in p.text.items };

    ghost invariant = { λ p. IsCut p.text.items p.cuts.items };
}

impl Path {
    /// `/`.
    pub fn root(alloc: Global) -> Result<Path, AllocError>
        ensures { IfOk result (λ path. path ≡ []) }
    {
        Ok(Path {
            text: Vec::from_slice(alloc, b"/")?,
            cuts: SmallVec::new(alloc),
        })
    }

    /// Whether a text is a path of at most 512 bytes.
    pub fn is_path(text: &[u8]) -> bool
        ensures { result ≡ is_path text.now }
    {
        match text {
            [b'/'] => true,
            [b'/', names @ ..] => text.len() <= MAX_PATH && are_names(names),
            _ => false,
        }
    }

    /// Reads a path. A text that is none, or has more than 512 bytes, is refused as `BadPath` and
    /// takes no memory.
    pub fn read(alloc: Global, text: &[u8]) -> Result<Path, PathFault>
        ensures path { IfOk result (λ path. path_of text.now ≡ Some path) }
        ensures bad_path { (result ≡ Err PathFault.BadPath) ↔ (path_of text.now ≡ None) }
    {
        if !Path::is_path(text) {
            return Err(PathFault::BadPath);
        }
        Ok(Path {
            text: Vec::from_slice(alloc, text)?,
            cuts: cuts_in(alloc, text)?,
        })
    }

    /// The text of the path.
    pub fn as_bytes(&self) -> &[u8]
        ensures text { result.now ≡ path_text self.now }
        ensures names { AreNames self.now }
        ensures length { length (path_text self.now) ≤ path_limit }
    {
        self.text.as_slice()
    }

    /// Whether it is `/`.
    pub fn is_root(&self) -> bool
        ensures { IsTrue result ↔ (self.now ≡ []) }
    {
        self.cuts.is_empty()
    }

    /// Whether it is `of` or stands below it.
    pub fn is_under(&self, of: &Path) -> bool
        ensures { result ≡ is_under of.now self.now }
    {
        let text = of.as_bytes();
        match self.text.strip_prefix(text) {
            Some([]) => true,
            Some([first, ..]) => of.is_root() || *first == b'/',
            None => false,
        }
    }

    /// The key of the path: each of its names, and a zero byte after it.
    pub fn key(&self, alloc: Global) -> Result<Vec<u8>, AllocError>
        ensures key { IfOk result (λ key. key.items ≡ key_of self.now) }
        ensures names { OnOk result (AreNames self.now) }
        ensures length { IfOk result (λ key. length key.items ≤ path_limit) }
    {
        let mut key = Vec::with_capacity(alloc, self.text.len())?;
        for i in 0..self.cuts.len() {
            key.extend_from_slice(name_at(&self.text, &self.cuts, i))?;
            key.push(0)?;
        }
        Ok(key)
    }

    /// The names of the path, from the first on.
    pub fn names(&self, alloc: Global) -> Result<Vec<Name>, AllocError>
        ensures { IfOk result (λ names. names.items ≡ self.now) }
    {
        let mut names = Vec::with_capacity(alloc, self.cuts.len())?;
        for i in 0..self.cuts.len() {
            names.push(Name::from_text(alloc, name_at(&self.text, &self.cuts, i))?)?;
        }
        Ok(names)
    }

    /// The path without its last name, and None for `/`.
    pub fn parent(&self, alloc: Global) -> Result<Option<Path>, AllocError>
        ensures { IfOk result (λ parent. parent ≡ parent_of self.now) }
    {
        let count = self.cuts.len();
        if count == 0 {
            return Ok(None);
        }
        if count == 1 {
            return Ok(Some(Path::root(alloc)?));
        }
        let end = self.cuts[count - 2] as usize;
        Ok(Some(Path {
            text: Vec::from_slice(alloc, &self.text[..end])?,
            cuts: SmallVec::from_slice(alloc, &self.cuts[..count - 1])?,
        }))
    }

    /// Writes the text of the path at the front of `into` and returns its length in bytes. What
    /// stands after it stays.
    pub fn write(&self, into: &mut [u8; MAX_PATH]) -> usize
        ensures length { result ≡ length (path_text self.now) }
        ensures text { take result into.new ≡ path_text self.now }
        ensures rest { drop result into.new ≡ drop result into.old }
    {
        let len = self.text.len();
        into[..len].copy_from_slice(&self.text);
        len
    }
}

impl Clone for Path {
    ghost is_clone = { λ path copy. copy ≡ path };

    fn clone(&self) -> Result<Path, AllocError> {
        Ok(Path {
            text: self.text.clone()?,
            cuts: self.cuts.clone()?,
        })
    }
}

/// Whether what stands between the slashes of a text is a name each time.
fn are_names(text: &[u8]) -> bool
    ensures { result ≡ list_all is_name (slice_split (λ b. b == 47) text.now) }
{
    text.split(|byte| *byte == b'/').all(Name::is_name)
}

/// The places where the names of a path end.
fn cuts_in(alloc: Global, text: &[u8]) -> Result<SmallVec<u16, 8>, AllocError>
    requires { length text.now ≤ path_limit }
    ensures { IfOk result (λ cuts. cuts.items ≡ ends_from 1 (names_in text.now)) }
{
    let mut cuts = SmallVec::new(alloc);
    if text.len() < 2 {
        return Ok(cuts);
    }
    for i in 1..text.len() {
        if text[i] == b'/' {
            cuts.push(i as u16)?;
        }
    }
    cuts.push(text.len() as u16)?;
    Ok(cuts)
}

/// Where the name at an index begins.
fn start_of(cuts: &[u16], i: usize) -> usize
    requires { i < length cuts.now }
    ensures { result ≡ (if i == 0 then 1 else slice_index cuts.now (i - 1) + 1) }
{
    if i == 0 { 1 } else { cuts[i - 1] as usize + 1 }
}

/// The name at an index.
fn name_at<'a>(text: &'a [u8], cuts: &[u16], i: usize) -> &'a [u8]
    requires cut { IsCut text.now cuts.now }
    requires in_range { i < length cuts.now }
    ensures { result.now ≡ slice_index_or (names_in text.now) i [] }
{
    let start = start_of(cuts, i);
    let end = cuts[i] as usize;
    &text[start..end]
}
