//! The tree as a key map.

ghost use Rattle.std.specs.Prelude.{◌≡◌, ◌-◌, refl};
ghost use Rattle.std.proofs.Common.{◌∙◌};
ghost use Rattle.bd_limits.specs.Limits.{buffer_limit};
ghost use Rattle.bd_node.specs.Tables.{IsSound, root_at};
ghost use Rattle.bd_graft.specs.Grafting.{IsWornForGraft};

use crate::tree::Tree;
use bd_message::{KeyMap, MapFault, Message};
use bd_node::NodeStore;
use bd_scan::{Found, Scan};
use std::alloc::Global;

impl<S: NodeStore> KeyMap for Tree<S> {
    ghost is_known = { λ tree. S.is_known tree.store
        × IsSound (S.nodes tree.store) (S.table tree.store) };

    ghost has = { λ tree. root_at (S.nodes tree.store) (S.table tree.store) };

    ghost room_of = { λ tree. buffer_limit - (S.table tree.store).size };

    ghost fault_count = { λ tree. S.fault_count tree.store };

    ghost last_failed = { λ tree. S.last_failed tree.store };

    ghost bad = { λ tree. S.bad tree.store };

    ghost worn = { λ tree. IsWornForGraft (S.table tree.store) };

    ghost reads = { λ a b. S.reads a.store b.store × (b.walk ≡ a.walk) };

    ghost loans = { λ tree. S.loans tree.store };

    ghost reads_none = { λ tree. (S.reads_none tree.store, refl) };

    ghost reads_both = { λ a b c first second.
        (S.reads_both a.store b.store c.store first.0 second.0, second.1 ∙ first.1) };

    fn get(&mut self, key: &[u8]) -> Result<Option<Vec<u8>>, MapFault> {
        Tree::get(self, key)
    }

    fn next(&mut self, from: &[u8], within: &[u8]) -> Result<Option<(Vec<u8>, Vec<u8>)>, MapFault> {
        Tree::next(self, from, within)
    }

    fn room(&self) -> usize {
        Tree::room(self)
    }

    fn apply(&mut self, list: &[Message]) -> Result<(), MapFault> {
        Tree::apply(self, list)
    }

    fn graft(&mut self, s: &[u8], d: &[u8], keep: bool) -> Result<(), MapFault> {
        Tree::graft(self, s, d, keep)
    }

    fn faults(&self) -> u64 {
        Tree::faults(self)
    }
}

impl<S: NodeStore> Scan for Tree<S> {
    fn scan(
        &mut self,
        alloc: Global,
        from: &[u8],
        within: &[u8],
        most: usize,
    ) -> Result<Vec<Found>, MapFault> {
        Tree::scan(self, alloc, from, within, most)
    }
}
