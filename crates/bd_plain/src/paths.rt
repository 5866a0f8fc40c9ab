//! Paths as lists of names, however many bytes they have.

ghost use Rattle.std.specs.Prelude.{◌≡◌, ◌++◌, IfOk};
ghost use Rattle.std.specs.Option.{option_map};
ghost use Rattle.bd_names.specs.Names.{rest_below, is_under, parent_of};
ghost use Rattle.bd_model.specs.Tree.{path_cmp};

use bd_names::Name;
use std::alloc::{AllocError, Global};
use std::cmp::Ordering;

/// The order of two paths: that of their names, name by name.
pub fn compare(a: &[Name], b: &[Name]) -> Ordering
    ensures { result ≡ path_cmp a.now b.now }
{
    a.cmp(b)
}

/// What follows `of` in a path that is `of` or below it.
pub fn rest_below<'a>(of: &[Name], path: &'a [Name]) -> Option<&'a [Name]>
    ensures { option_map (λ rest. rest.now) result ≡ rest_below of.now path.now }
{
    path.strip_prefix(of)
}

/// Whether a path is `of` or below it.
pub fn is_under(of: &[Name], path: &[Name]) -> bool
    ensures { result ≡ is_under of.now path.now }
{
    rest_below(of, path).is_some()
}

/// The path without its last name; `/` has none.
#[tactic(auto, using(crate::proofs::PathOrder::parent_names))]
pub fn parent(path: &[Name]) -> Option<&[Name]>
    ensures { option_map (λ parent. parent.now) result ≡ parent_of path.now }
{
    match path.split_last() {
        Some((_, parent)) => Some(parent),
        None => None,
    }
}

/// A path of the same names, with those of `rest` after them.
pub fn joined(alloc: Global, path: &[Name], rest: &[Name]) -> Result<Vec<Name>, AllocError>
    ensures { IfOk result (λ joined. joined.items ≡ path.now ++ rest.now) }
{
    let mut joined = Vec::from_clones(alloc, path)?;
    joined.extend_with_clones(rest)?;
    Ok(joined)
}
