//! The key map.

ghost use Rattle.std.specs.Prelude.{◌≡◌, ℕ, Bool, List, [], ◌∷◌, Option, IfOk, OnOk, OnErr};
ghost use Rattle.std.specs.Option.{option_map};
ghost use Rattle.bd_message.specs.declared.fault.Counter.{Counter};
ghost use Rattle.bd_message.specs.KeyMaps.{At, SameAt, IsNextEntry, IsBatch, CanGraft, IsApplied, IsGrafted, IsLeftBy, HasMapCause, NeverWorn};

use crate::{MapFault, Message};

/// A map from keys to values, both byte strings. It holds the allocator that it takes its memory
/// of. A call that fails leaves what stands at its keys as it was.
pub trait KeyMap {
    /// Whether it is known what stands at its keys: over a real file it isn't.
    ghost is_known: { Self → Type 0 };

    /// What stands at each key, of any length, where it is known.
    ghost has: { Self → At };

    /// For how many bytes of messages there is room.
    ghost room_of: { Self → ℕ };

    /// How often what it stands on has failed, up to a u64's last value.
    ghost fault_count: { Self → ℕ };

    /// Whether the last call that it made of what it stands on failed.
    ghost last_failed: { Self → Bool };

    /// The blocks whose bytes aren't of the format.
    ghost bad: { Self → ℕ → Type 0 };

    /// The counters that a change could take past their last value.
    ghost worn: { Self → Counter → Type 0 };

    /// What reads may change: from the first map to the second only what is kept in memory and what
    /// is counted has changed.
    ghost reads: { Self → Self → Type 0 };

    /// The loans through which calls reach the map, the outermost first: none for the map itself.
    ghost loans: { Self → List ℕ } = { λ _. [] };

    /// What stands at a key.
    fn get(&mut self, key: &[u8]) -> Result<Option<Vec<u8>>, MapFault>
        ensures value { is_known self.old → IfOk result (λ found.
            option_map (λ value. value.items) found ≡ has self.old key.now) }
        ensures left { IsLeftBy is_known has room_of worn reads loans self.old self.new }
        ensures cause { HasMapCause (fault_count self.old) (fault_count self.new)
            (last_failed self.new) (bad self.new) NeverWorn result };

    /// The least key that is at least `from`, begins with `within` and has a value, and that value.
    fn next(&mut self, from: &[u8], within: &[u8]) -> Result<Option<(Vec<u8>, Vec<u8>)>, MapFault>
        ensures next { is_known self.old → IfOk result (λ found.
            IsNextEntry (has self.old) from.now within.now
            (option_map (λ entry. (entry.0.items, entry.1.items)) found)) }
        ensures left { IsLeftBy is_known has room_of worn reads loans self.old self.new }
        ensures cause { HasMapCause (fault_count self.old) (fault_count self.new)
            (last_failed self.new) (bad self.new) NeverWorn result };

    /// For how many bytes of messages there is room.
    fn room(&self) -> usize
        ensures { result ≡ room_of self.now };

    /// Changes what stands at the keys by messages, the first one first.
    fn apply(&mut self, list: &[Message]) -> Result<(), MapFault>
        requires { IsBatch list.now (room_of self.old) }
        ensures applied { is_known self.old
            → OnOk result (IsApplied (has self.old) list.now (has self.new)) }
        ensures known { is_known self.old → is_known self.new }
        ensures kept { is_known self.old → OnErr result (SameAt (has self.old) (has self.new)) }
        ensures room { OnErr result (room_of self.new ≡ room_of self.old) }
        ensures cause { HasMapCause (fault_count self.old) (fault_count self.new)
            (last_failed self.new) (bad self.new) (worn self.old) result }
        ensures same_loans { loans self.new ≡ loans self.old };

    /// Gives each key `d x` what stands at `s x`, for all `x`; without `keep` nothing stays at the
    /// keys that begin with `s`.
    fn graft(&mut self, s: &[u8], d: &[u8], keep: bool) -> Result<(), MapFault>
        requires { CanGraft s.now d.now keep (room_of self.old) }
        ensures grafted { is_known self.old
            → OnOk result (IsGrafted (has self.old) s.now d.now keep (has self.new)) }
        ensures known { is_known self.old → is_known self.new }
        ensures kept { is_known self.old → OnErr result (SameAt (has self.old) (has self.new)) }
        ensures room { OnErr result (room_of self.new ≡ room_of self.old) }
        ensures cause { HasMapCause (fault_count self.old) (fault_count self.new)
            (last_failed self.new) (bad self.new) (worn self.old) result }
        ensures same_loans { loans self.new ≡ loans self.old };

    /// How often what it stands on has failed. It never falls, and stays at a u64's last value.
    fn faults(&self) -> u64
        ensures { result ≡ fault_count self.now };

    /// No read changes nothing.
    ghost reads_none: { (m : Self) → reads m m };

    /// What two reads change, one after the other, reads change.
    ghost reads_both: { (a b c : Self) → reads a b → reads b c → reads a c };
}

impl<M: KeyMap> KeyMap for &mut M {
    ghost is_known = { λ m. M.is_known m.now };

    ghost has = { λ m. M.has m.now };

    ghost room_of = { λ m. M.room_of m.now };

    ghost fault_count = { λ m. M.fault_count m.now };

    ghost last_failed = { λ m. M.last_failed m.now };

    ghost bad = { λ m. M.bad m.now };

    ghost worn = { λ m. M.worn m.now };

    ghost reads = { λ a b. M.reads a.now b.now };

    ghost loans = { λ m. m.ghost_name ∷ M.loans m.now };

    ghost reads_none = { λ m. M.reads_none m.now };

    ghost reads_both = { λ a b c. M.reads_both a.now b.now c.now };

    fn get(&mut self, key: &[u8]) -> Result<Option<Vec<u8>>, MapFault> {
        KeyMap::get(&mut **self, key)
    }

    fn next(&mut self, from: &[u8], within: &[u8]) -> Result<Option<(Vec<u8>, Vec<u8>)>, MapFault> {
        KeyMap::next(&mut **self, from, within)
    }

    fn room(&self) -> usize {
        KeyMap::room(&**self)
    }

    fn apply(&mut self, list: &[Message]) -> Result<(), MapFault> {
        KeyMap::apply(&mut **self, list)
    }

    fn graft(&mut self, s: &[u8], d: &[u8], keep: bool) -> Result<(), MapFault> {
        KeyMap::graft(&mut **self, s, d, keep)
    }

    fn faults(&self) -> u64 {
        KeyMap::faults(&**self)
    }
}
