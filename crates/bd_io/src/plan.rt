ghost use Rattle.std.specs.Prelude.{◌≡◌, ◌||◌, IfOk, is_err};
ghost use Rattle.bd_io.specs.Cause.{HasCause, IsCounted};
ghost use Rattle.bd_io.specs.Plan.{planned, next_fails, calls_after};

use crate::Failed;
use std::alloc::{AllocError, Global};
use std::marker::Model;

/// Counts the calls of an object in memory from 1 on, and lets those fail whose numbers are listed.
/// Its counts stop at a u64's last value, and at that count of calls each further call fails.
#[derive(Drop)]
pub struct CallPlan {
    fail: Vec<u64>,
    calls: u64,
    faults: u64,
    last_failed: bool,
}

impl Model for CallPlan {
    ghost use Rattle.bd_io.specs.Plan.{PlannedCalls};

    ghost Value = { PlannedCalls };

    ghost view = { λ p. record {
      fail = p.fail.items;
      calls = p.calls;
      faults = p.faults;
      last_failed = p.last_failed;
    } };
}

impl CallPlan {
    /// A plan in which the calls with these numbers fail. No call was made yet.
    pub fn new(alloc: Global, fail: &[u64]) -> Result<CallPlan, AllocError>
        ensures { IfOk result (λ plan. plan ≡ planned fail.now) }
    {
        Ok(CallPlan {
            fail: Vec::from_slice(alloc, fail)?,
            calls: 0,
            faults: 0,
            last_failed: false,
        })
    }

    /// Counts a call, which fails also where `refused` says so.
    pub fn call(&mut self, refused: bool) -> Result<(), Failed>
        ensures fails { is_err result ≡ (next_fails self.old || refused) }
        ensures after { self.new ≡ calls_after self.old result }
        ensures cause { HasCause self.old.faults self.new.faults result }
        ensures counted { IsCounted self.old.calls self.new.calls result }
    {
        let fails = self.calls == u64::MAX || self.fail.contains(&(self.calls + 1)) || refused;
        self.calls = self.calls.saturating_add(1);
        self.last_failed = fails;
        if fails {
            self.faults = self.faults.saturating_add(1);
            return Err(Failed);
        }
        Ok(())
    }

    /// How many calls were counted.
    pub fn calls(&self) -> u64
        ensures { result ≡ self.now.calls }
    {
        self.calls
    }

    /// How many of them failed.
    pub fn faults(&self) -> u64
        ensures { result ≡ self.now.faults }
    {
        self.faults
    }
}
