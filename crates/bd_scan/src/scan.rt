//! Scans of a key map.

ghost use Rattle.std.specs.Prelude.{◌≤◌, length, IfOk};
ghost use Rattle.bd_message.specs.KeyMaps.{HasMapCause, IsLeftBy, NeverWorn};
ghost use Rattle.bd_scan.specs.Scans.{IsScan};

use bd_keys::Bytes;
use bd_message::{KeyMap, MapFault};
use std::alloc::Global;

/// A key, and what stands there.
#[derive(Drop)]
pub struct Found {
    pub key: Bytes,
    pub value: Bytes,
}

/// A key map that gives what stands at keys in a row, as many as it comes by on one way.
pub trait Scan: KeyMap {
    /// What stands at the keys from `from` on that begin with `within`, the least key first and none
    /// left out: at least one and at most `most` of them, and none where there is none. Memory for
    /// them is taken of `alloc`.
    fn scan(
        &mut self,
        alloc: Global,
        from: &[u8],
        within: &[u8],
        most: usize,
    ) -> Result<Vec<Found>, MapFault>
        requires some { 1 ≤ most }
        ensures found { Self.is_known self.old → IfOk result (λ found.
            IsScan (Self.has self.old) from.now within.now found.items) }
        ensures few { IfOk result (λ found. length found.items ≤ most) }
        ensures left { IsLeftBy Self.is_known Self.has Self.room_of Self.worn Self.reads Self.loans
            self.old self.new }
        ensures cause { HasMapCause (Self.fault_count self.old) (Self.fault_count self.new)
            (Self.last_failed self.new) (Self.bad self.new) NeverWorn result };
}

impl<M: Scan> Scan for &mut M {
    fn scan(
        &mut self,
        alloc: Global,
        from: &[u8],
        within: &[u8],
        most: usize,
    ) -> Result<Vec<Found>, MapFault> {
        Scan::scan(&mut **self, alloc, from, within, most)
    }
}
