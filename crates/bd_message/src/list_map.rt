//! A key map in memory.

ghost use Rattle.std.specs.Prelude.{◌≡◌, ℕ, false, List, IfOk, ⊤};
ghost use Rattle.std.specs.Option.{option_map, option_copied};
ghost use Rattle.std.specs.FinMap.{empty};

use crate::entries::{self, Entry};
use crate::{KeyMap, MapFault, Message};
use bd_limits::MAX_BUFFER;
use std::alloc::{AllocError, Global};
use std::marker::Model;

/// A key map in memory, seen as the map from its keys to their values. It is slow, and for small
/// maps. It fails only for want of memory.
#[derive(Drop)]
pub struct ListMap {
    alloc: Global,
    entries: Vec<Entry>,
}

impl Model for ListMap {
    ghost use Rattle.std.specs.Prelude.{List, ℕ};
    ghost use Rattle.std.specs.Coded.{coded_list, coded_ℕ};
    ghost use Rattle.std.specs.FinMap.{FinMap, from_entries, code};
    ghost use Rattle.bd_keys.specs.Keys.{key_cmp};

    ghost Value = { FinMap key_cmp (List ℕ) };

    ghost coded = { code (coded_list coded_ℕ) (coded_list coded_ℕ) };

    ghost view = { λ m. from_entries m.entries.items };
}

impl ListMap {
    /// A map without keys, which takes its memory of this allocator.
    pub fn new(alloc: Global) -> ListMap
        ensures { result ≡ empty }
    {
        ListMap {
            alloc,
            entries: Vec::new(alloc),
        }
    }
}

impl KeyMap for ListMap {
    ghost use Rattle.std.specs.FinMap.{get};
    ghost use Rattle.bd_limits.specs.Limits.{buffer_limit};

    ghost is_known = { λ _. ⊤ };

    ghost has = { λ m k. get m k };

    ghost room_of = { λ _. buffer_limit };

    ghost fault_count = { λ _. 0 };

    ghost last_failed = { λ _. false };

    ghost bad = { λ _ _. ⊥ };

    ghost worn = { λ _ _. ⊥ };

    ghost use Rattle.std.specs.Prelude.{refl};
    ghost use Rattle.std.proofs.Common.{◌∙◌};

    ghost reads = { λ a b. b ≡ a };

    ghost reads_none = { λ m. refl };

    ghost reads_both = { λ a b c first second. second ∙ first };

    fn get(&mut self, key: &[u8]) -> Result<Option<Vec<u8>>, MapFault> {
        Ok(owned(self.alloc, entries::find(&self.entries, key))?)
    }

    fn next(&mut self, from: &[u8], within: &[u8]) -> Result<Option<(Vec<u8>, Vec<u8>)>, MapFault> {
        Ok(owned_entry(self.alloc, entries::next_entry(&self.entries, from, within))?)
    }

    fn room(&self) -> usize {
        MAX_BUFFER
    }

    fn apply(&mut self, list: &[Message]) -> Result<(), MapFault> {
        let mut entries = self.entries.clone()?;
        entries::act_all(self.alloc, &mut entries, list)?;
        self.entries = entries;
        Ok(())
    }

    fn graft(&mut self, s: &[u8], d: &[u8], keep: bool) -> Result<(), MapFault> {
        self.entries = entries::grafted(self.alloc, &self.entries, s, d, keep)?;
        Ok(())
    }

    fn faults(&self) -> u64 {
        0
    }
}

// The bytes that were found, as the caller's own.
fn owned(alloc: Global, found: Option<&[u8]>) -> Result<Option<Vec<u8>>, AllocError>
    ensures { IfOk result (λ owned.
        option_map (λ bytes. bytes.items) owned ≡ option_copied found.entry) }
{
    match found {
        Some(bytes) => Ok(Some(Vec::from_slice(alloc, bytes)?)),
        None => Ok(None),
    }
}

// The key and the value that were found, as the caller's own.
fn owned_entry(
    alloc: Global,
    found: Option<(&[u8], &[u8])>,
) -> Result<Option<(Vec<u8>, Vec<u8>)>, AllocError>
    ensures { IfOk result (λ owned.
        option_map {U = List ℕ × List ℕ} (λ entry. (entry.0.items, entry.1.items)) owned
        ≡ option_map (λ entry. (entry.0.now, entry.1.now)) found.entry) }
{
    match found {
        Some((key, value)) => Ok(Some((
            Vec::from_slice(alloc, key)?,
            Vec::from_slice(alloc, value)?,
        ))),
        None => Ok(None),
    }
}
