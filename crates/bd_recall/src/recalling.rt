//! A key map that recalls what was looked up in it.

ghost use Rattle.bd_recall.specs.Kept.{findings, IsKept};

use crate::recalled::{Recalled, shown};
use bd_message::{KeyMap, MapFault, Message};
use bd_scan::{Found, Scan};
use std::alloc::Global;

/// A key map, and what is known of it. Who changes the map itself has to let what is kept follow
/// that, or forget what it may change.
#[derive(Drop)]
pub struct Recalling<M: KeyMap> {
    pub map: M,
    pub recalled: Recalled,
}

impl<M: KeyMap> KeyMap for Recalling<M> {
    ghost is_known = { λ r. M.is_known r.map × IsKept (M.has r.map) (findings r.recalled) };

    ghost has = { λ r. M.has r.map };

    ghost room_of = { λ r. M.room_of r.map };

    ghost fault_count = { λ r. M.fault_count r.map };

    ghost last_failed = { λ r. M.last_failed r.map };

    ghost bad = { λ r. M.bad r.map };

    ghost worn = { λ r. M.worn r.map };

    ghost reads = { λ a b. M.reads a.map b.map };

    ghost loans = { λ r. M.loans r.map };

    ghost reads_none = { λ r. M.reads_none r.map };

    ghost reads_both = { λ a b c. M.reads_both a.map b.map c.map };

    fn get(&mut self, key: &[u8]) -> Result<Option<Vec<u8>>, MapFault> {
        if let Some(value) = self.recalled.find(key)? {
            return Ok(value);
        }
        let value = self.map.get(key)?;
        self.recalled.keep(key, shown(&value));
        Ok(value)
    }

    fn next(&mut self, from: &[u8], within: &[u8]) -> Result<Option<(Vec<u8>, Vec<u8>)>, MapFault> {
        self.map.next(from, within)
    }

    fn room(&self) -> usize {
        self.map.room()
    }

    fn apply(&mut self, list: &[Message]) -> Result<(), MapFault> {
        self.map.apply(list)?;
        self.recalled.follow(list);
        Ok(())
    }

    fn graft(&mut self, s: &[u8], d: &[u8], keep: bool) -> Result<(), MapFault> {
        self.recalled.forget_grafted(s, d, keep);
        self.map.graft(s, d, keep)
    }

    fn faults(&self) -> u64 {
        self.map.faults()
    }
}

impl<M: Scan> Scan for Recalling<M> {
    fn scan(
        &mut self,
        alloc: Global,
        from: &[u8],
        within: &[u8],
        most: usize,
    ) -> Result<Vec<Found>, MapFault> {
        self.map.scan(alloc, from, within, most)
    }
}
