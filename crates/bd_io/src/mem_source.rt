ghost use Rattle.std.specs.Prelude.{◌≡◌, ◌≤◌, ◌<◌, ◌++◌, Some, [], length, take, IfOk, OnErr, is_err, ◌==◌, if◌then◌else◌};
ghost use Rattle.bd_io.specs.Cause.{HasCause, next_count};
ghost use Rattle.bd_io.specs.Memory.{given_count, takes_of};
ghost use Rattle.bd_io.specs.Plan.{planned, next_fails, calls_after};
ghost use Rattle.bd_io.specs.Takes.{given_by, takes_after};

use crate::{CallPlan, Failed, Source};
use std::alloc::{AllocError, Global};
use std::marker::Model;

/// A source in memory. It tells its contents, takes no memory after it is made, and fails at the
/// listed calls and at a count of calls that stands at its last value, and nowhere else.
#[derive(Drop)]
pub struct MemSource {
    bytes: Vec<u8>,
    at: usize,
    piece: usize,
    plan: CallPlan,
    idle: u64,
    last: usize,
}

impl Model for MemSource {
    ghost use Rattle.std.specs.Prelude.{◌≤◌, ◌-◌, length, take, drop};
    ghost use Rattle.bd_io.specs.Memory.{MemorySource};

    ghost Value = { MemorySource };

    ghost view = { λ s. record {
      left = drop s.at s.bytes.items;
      piece = s.piece;
      plan = s.plan;
      idle = s.idle;
      last = drop (s.at - s.last) (take s.at s.bytes.items);
    } };

    ghost invariant = { λ s.
        (s.at ≤ length s.bytes.items) × (1 ≤ s.piece) × (s.last ≤ s.at) };
}

impl MemSource {
    /// A source of these bytes that gives at most `piece` of them a take. `fail` lists the numbers
    /// of the calls that are to fail, the first being 1.
    pub fn new(
        alloc: Global,
        bytes: &[u8],
        piece: usize,
        fail: &[u64],
    ) -> Result<MemSource, AllocError>
        requires { 1 ≤ piece }
        ensures { IfOk result (λ source. source ≡ record {
          left = bytes.now;
          piece = piece;
          plan = planned fail.now;
          idle = 0;
          last = [];
        }) }
    {
        Ok(MemSource {
            bytes: Vec::from_slice(alloc, bytes)?,
            at: 0,
            piece,
            plan: CallPlan::new(alloc, fail)?,
            idle: 0,
            last: 0,
        })
    }
}

// How many takes gave no byte, after one more that gave this many.
fn idle_takes(before: u64, count: usize) -> u64
    ensures { result ≡ (if count == 0 then next_count before else before) }
{
    if count == 0 {
        before.saturating_add(1)
    } else {
        before
    }
}

impl Source for MemSource {
    ghost left = { λ s. Some s.left };

    ghost fault_count = { λ s. s.plan.faults };

    ghost takes = { λ s. Some (takes_of s) };

    fn take(&mut self, into: &mut [u8]) -> Result<usize, Failed>
        ensures room { IfOk result (λ n. n ≤ length into.new) }
        ensures bytes { IfOk result (λ n. self.old.left ≡ take n into.new ++ self.new.left) }
        ensures end { IfOk result (λ n. n ≡ 0 → 0 < length into.new → self.new.left ≡ []) }
        ensures kept { OnErr result (self.new.left ≡ self.old.left) }
        ensures cause { HasCause self.old.plan.faults self.new.plan.faults result }

        // It fails exactly by its plan, and gives as much as it can.
        ensures fails { is_err result ≡ next_fails self.old.plan }
        ensures count { IfOk result (λ n. n ≡ given_count self.old (length into.new)) }
        ensures calls { self.new.plan ≡ calls_after self.old.plan result }
        ensures told { takes_of self.new
            ≡ takes_after (given_by result into.new) (takes_of self.old) }
        ensures piece { self.new.piece ≡ self.old.piece }
    {
        if let Err(failed) = self.plan.call(false) {
            self.last = 0;
            self.idle = idle_takes(self.idle, 0);
            return Err(failed);
        }
        let left = &self.bytes[self.at..];
        let count = left.len().min(self.piece).min(into.len());
        into[..count].copy_from_slice(&left[..count]);
        self.at += count;
        self.last = count;
        self.idle = idle_takes(self.idle, count);
        Ok(count)
    }

    fn faults(&self) -> u64 {
        self.plan.faults()
    }
}
