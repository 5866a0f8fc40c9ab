//! The names of a listing.

ghost use Rattle.std.specs.Prelude.{◌≡◌, length, map, IfOk};
ghost use Rattle.std.specs.Option.{option_map};
ghost use Rattle.bd_stream.specs.Exporting.{names_after, are_rising, is_count};

use bd_command::{Listed, Reply};
use bd_limits::MAX_LISTING;
use bd_names::Name;
use std::alloc::{AllocError, Global};
use std::collections::VecDeque;

/// The names that the reply to a `list` gives, where it can be one: names after one that rise, and
/// as many as there may be.
pub(crate) fn names_after(
    alloc: Global,
    after: &[u8],
    reply: &Reply,
) -> Result<Option<VecDeque<Name>>, AllocError>
    ensures { IfOk result (λ found. option_map (λ names. names.items) found
        ≡ names_after after.now reply.now) }
{
    let Reply::Names(listing) = reply else {
        return Ok(None);
    };
    let names = listing.names.as_slice();
    if !is_count(listing.more, names.len()) || !are_rising(after, names) {
        return Ok(None);
    }
    Ok(Some(copied(alloc, names)?))
}

// Whether a listing may have so many names.
fn is_count(more: bool, count: usize) -> bool
    ensures { result ≡ is_count more count }
{
    if more {
        count == MAX_LISTING
    } else {
        count <= MAX_LISTING
    }
}

// Whether names rise above one.
fn are_rising(after: &[u8], names: &[Listed]) -> bool
    ensures { result ≡ are_rising after.now names.now }
{
    let mut last = after;
    for listed in names {
        let name = listed.name.as_bytes();
        if !last.cmp(&name).is_lt() {
            return false;
        }
        last = name;
    }
    true
}

// The names alone.
fn copied(alloc: Global, names: &[Listed]) -> Result<VecDeque<Name>, AllocError>
    ensures { IfOk result (λ copies. copies.items ≡ map (λ l. l.name) names.now) }
{
    let mut copies = VecDeque::new(alloc);
    for listed in names {
        copies.push_back(listed.name.clone()?)?;
    }
    Ok(copies)
}
