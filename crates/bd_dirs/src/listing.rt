//! The names of what stands in a directory.

ghost use Rattle.std.specs.Prelude.{◌≡◌, ◌≤◌, ℕ, List, [], ◌∷◌, ◌++◌, length, Option, Some, not, ◌==◌, true, IsTrue, IsSome, IfOk, IfErr};
ghost use Rattle.std.specs.List.{prefix_len, list_all};
ghost use Rattle.std.specs.Option.{option_copied};
ghost use Rattle.bd_limits.specs.Limits.{listing_limit};
ghost use Rattle.bd_names.specs.Names.{is_name, is_name_byte, AreNames, key_of};
ghost use Rattle.bd_command.specs.Command.{IsReply};
ghost use Rattle.bd_command.specs.declared.Command.TheVariants as command;
ghost use Rattle.bd_command.specs.declared.reply.Listed.{Listed};
ghost use Rattle.bd_model.specs.Tree.{Entry, Tree, IsTree, is_directory};
ghost use Rattle.bd_model.specs.Step.{step, children, those_after, listing_of};
ghost use Rattle.bd_message.specs.declared.fault.MapFault.TheVariants as fault;
ghost use Rattle.bd_message.specs.KeyMaps.{At, IsNextEntry, HasMapCause, NeverWorn};
ghost use Rattle.bd_message.specs.Reads.{IsLeft};
ghost use Rattle.bd_represent.specs.Represents.{Represents, record_of};
ghost use Rattle.bd_dirs.specs.Listings.{first_of, lower, key_after, IsListedTo, IsAdded};
ghost use Rattle.bd_scan.specs.Scans.{AreNext};

use bd_command::{Listed, Listing, Names, Refusal, Reply};
use bd_files::record;
use bd_keys::tail;
use bd_limits::MAX_LISTING;
use bd_message::MapFault;
use bd_names::{Name, Path, PathFault};
use bd_records::{Record, read_record};
use bd_scan::{Found, Scan};
use std::alloc::{AllocError, Global};

// How many scans in a row may find none but entries that are none of a tree's, before a directory
// is taken to end there.
const MAX_PASSED: u32 = 65_536;

// How many entries the first scan of a listing asks for.
const FIRST_SCAN: usize = 16;

// How many entries a later scan asks for at most.
const MAX_SCAN: usize = 64;

// How many entries a later scan asks for at least.
const MIN_SCAN: usize = 4;

// What follows a name in the key of its record.
const RECORD_END: [u8; 3] = [0, 0, 0];

/// The names of what stands in the directory at a path, at most 100 of them, in the order of their
/// bytes: those greater than `after`, if it is given. They come with whether more follow. In a map
/// that no tree is represented by, entries that are none of a tree's (a name that is none, or that
/// has no record) are passed over, and after 65,536 scans in a row that find none but those the
/// directory is taken to end.
pub fn list<M: Scan>(
    alloc: Global,
    m: &mut M,
    path: &Path,
    after: Option<&Name>,
) -> Result<Reply, MapFault>
    ensures reply { M.is_known m.old → (t : Tree) → IsTree t → Represents (M.has m.old) t
        → IfOk result (λ reply.
        reply ≡ (step t (command.List path.now (option_copied after.entry))).1) }
    ensures small { IfOk result IsReply }
    ensures left { IsLeft M.KeyMap m.old m.new }
    ensures cause { HasMapCause (M.fault_count m.old) (M.fault_count m.new)
        (M.last_failed m.new) (M.bad m.new) NeverWorn result }
{
    match record(alloc, m, path)? {
        None => Ok(Reply::Refused(Refusal::NotFound)),
        Some(Record::File(..)) => Ok(Reply::Refused(Refusal::NotDir)),
        Some(Record::Dir(_)) => Ok(Reply::Names(listing(alloc, m, path, after)?)),
    }
}

/// The names, where a directory is at the path.
fn listing<M: Scan>(
    alloc: Global,
    m: &mut M,
    path: &Path,
    after: Option<&Name>,
) -> Result<Listing, MapFault>
    ensures listing { M.is_known m.old → (t : Tree) → IsTree t → Represents (M.has m.old) t
        → IfOk result (λ listing.
        listing ≡ listing_of (those_after (option_copied after.entry) (children path.now t))) }
    ensures few { IfOk result (λ listing. length listing.names ≤ listing_limit) }
    ensures left { IsLeft M.KeyMap m.old m.new }
    ensures cause { HasMapCause (M.fault_count m.old) (M.fault_count m.new)
        (M.last_failed m.new) (M.bad m.new) NeverWorn result }
{
    let within = path.key(alloc)?;
    let mut from = key_after(alloc, &within, after)?;
    let mut names = Vec::new(alloc);
    let mut most = FIRST_SCAN;
    let mut passed = 0;
    'scans: while passed < MAX_PASSED {
        let found = m.scan(alloc, &from, &within, most)?;
        let before = names.len();
        if found.is_empty() {
            break 'scans;
        }
        if add_found(alloc, &within, &found, &mut from, &mut names)? {
            return Ok(listing_from(names, true));
        }
        let added = names.len() - before;
        most = next_most(added);
        passed = if added == 0 { passed + 1 } else { 0 };
    }
    Ok(listing_from(names, false))
}

/// A listing of these names.
fn listing_from(names: Vec<Listed>, more: bool) -> Listing
    ensures { result ≡ record { names = names.items; more = more } }
{
    Listing {
        names: Names::from_vec(names),
        more,
    }
}

/// How many entries a scan asks for after one that had so many children: more where most of what
/// was found were children, and few where it was mostly what stands below them.
fn next_most(children: usize) -> usize
    ensures { 1 ≤ result }
{
    children.saturating_mul(4).clamp(MIN_SCAN, MAX_SCAN)
}

/// Adds the children that are among what was found, as many as there is room for, and says whether
/// there is one more. `from` is the key from which the search goes on after the last of them.
fn add_found(
    alloc: Global,
    within: &[u8],
    found: &[Found],
    from: &mut Vec<u8>,
    names: &mut Vec<Listed>,
) -> Result<bool, MapFault>
    ensures added { (at : At) (t : Tree) (path : List (List ℕ)) (all : List Listed)
        → IsTree t → Represents at t → AreNames path → within.now ≡ key_of path
        → IsListedTo t path all names.old.items from.old.items
        → AreNext at from.old.items within.now found.now
        → length names.old.items ≤ listing_limit
        → IfOk result (IsAdded t path all names.old.items names.new.items from.new.items
        (length found.now)) }
    ensures few { length names.old.items ≤ listing_limit
        → IfOk result (λ _. length names.new.items ≤ listing_limit) }
    ensures more { IfOk result (λ _. length names.old.items ≤ length names.new.items) }
    ensures fault { IfErr result (λ cause. cause ≡ fault.NoMemory) }
{
    for each in found {
        let key = each.key.as_slice();
        if key.cmp(from.as_slice()).is_lt() {
            continue;
        }
        match child_at(alloc, within, key, each.value.as_slice())? {
            Some(_) if names.len() >= MAX_LISTING => return Ok(true),
            Some(child) => {
                *from = key_after(alloc, within, Some(&child.name))?;
                names.push(child)?;
            }
            None => *from = key_past(alloc, within, key)?,
        }
    }
    Ok(false)
}

/// The key from which a search goes on past an entry that is none of a tree's: that of the record
/// of its name, where the entry stands before that, and else the key after all those of the name.
fn key_past(alloc: Global, within: &[u8], key: &[u8]) -> Result<Vec<u8>, AllocError> {
    let text = tail(key, within.len());
    let len = len_before_zero(text);
    let mut past = Vec::from_slice(alloc, within)?;
    past.extend_from_slice(&text[..len])?;
    if text[len..].cmp(RECORD_END.as_slice()).is_lt() {
        past.extend_from_slice(RECORD_END.as_slice())?;
    } else {
        past.push(1)?;
    }
    Ok(past)
}

/// The key after all that begin with a directory's key and a name, or the key before all names.
fn key_after(alloc: Global, within: &[u8], after: Option<&Name>) -> Result<Vec<u8>, AllocError>
    ensures key { IfOk result (λ key.
        key.items ≡ within.now ++ (lower (option_copied after.entry) ++ 1 ∷ [])) }
    ensures name { IfOk result (λ key.
        IsTrue (list_all is_name_byte (lower (option_copied after.entry)))) }
{
    let mut key = Vec::from_slice(alloc, within)?;
    if let Some(name) = after {
        key.extend_from_slice(name.as_bytes())?;
    }
    key.push(1)?;
    Ok(key)
}

/// The child whose record was found, by its key and value.
fn child_at(
    alloc: Global,
    within: &[u8],
    key: &[u8],
    value: &[u8],
) -> Result<Option<Listed>, MapFault>
    ensures child { (at : At) (t : Tree) → IsTree t → Represents at t
        → (path : List (List ℕ)) (after : Option (List ℕ)) → AreNames path
        → IsTrue (list_all is_name_byte (lower after)) → within.now ≡ key_of path
        → IsNextEntry at (key_after path after) (key_of path) (Some (key.now, value.now))
        → IfOk result (λ child. IsSome child
        × (child ≡ first_of (those_after after (children path t)))) }
    ensures fault { IfErr result (λ cause. cause ≡ fault.NoMemory) }
{
    let text = tail(key, within.len());
    let Some(name) = first_name(alloc, text)? else {
        return Ok(None);
    };
    if tail(text, name.as_bytes().len()) != RECORD_END.as_slice() {
        return Ok(None);
    }
    Ok(listed_as(name, read_record(value)))
}

/// A name and whether its record is a directory's.
fn listed_as(name: Name, found: Option<Record>) -> Option<Listed>
    ensures { (e : Entry) → found ≡ Some (record_of e)
        → result ≡ Some (record { name = name; is_dir = is_directory e }) }
{
    match found {
        None => None,
        Some(Record::Dir(_)) => Some(Listed { name, is_dir: true }),
        Some(Record::File(..)) => Some(Listed {
            name,
            is_dir: false,
        }),
    }
}

/// The name before the first zero byte, if it is one.
fn first_name(alloc: Global, text: &[u8]) -> Result<Option<Name>, MapFault>
    ensures name { IfOk result (λ found. (name rest : List ℕ) → is_name name ≡ true
        → text.now ≡ name ++ 0 ∷ rest → found ≡ Some name) }
    ensures fault { IfErr result (λ cause. cause ≡ fault.NoMemory) }
{
    let len = len_before_zero(text);
    match Name::read(alloc, &text[..len]) {
        Ok(name) => Ok(Some(name)),
        Err(PathFault::BadPath) => Ok(None),
        Err(PathFault::NoMemory) => Err(MapFault::NoMemory),
    }
}

/// How many bytes stand before the first zero byte.
fn len_before_zero(text: &[u8]) -> usize
    ensures len { result ≡ prefix_len (λ byte. not (byte == 0)) text.now }
    ensures within { result ≤ length text.now }
{
    text.iter().take_while(|byte| **byte != 0).count()
}
