//! The source and the sink of a call.

use crate::plan::Plan;
use bd_io::{Failed, Sink, Source};
use std::alloc::Global;
use std::cell::Cell;

/// A script in pieces, which notes at each take how many bytes the sink has passed on, and fails at
/// one of them.
#[derive(Drop)]
pub struct ScriptSource<'a> {
    left: &'a [u8],
    piece: usize,
    takes: u64,
    fail: u64,
    faults: u64,
    passed_on: &'a Cell<u64>,
    seen: Vec<u64>,
}

impl<'a> ScriptSource<'a> {
    /// The source of a script in a call.
    pub fn new(
        alloc: Global,
        script: &'a [u8],
        plan: &Plan<'_>,
        passed_on: &'a Cell<u64>,
    ) -> ScriptSource<'a> {
        ScriptSource {
            left: script,
            piece: plan.piece(),
            takes: 0,
            fail: plan.take,
            faults: 0,
            passed_on,
            seen: Vec::new(alloc),
        }
    }

    /// How many bytes the sink had passed on at each take.
    pub fn seen(&self) -> &[u64] {
        self.seen.as_slice()
    }
}

impl Source for ScriptSource<'_> {
    ghost use Rattle.std.specs.Prelude.{None};

    ghost left = { λ _. None };

    ghost fault_count = { λ s. s.faults };

    ghost takes = { λ _. None };

    fn take(&mut self, into: &mut [u8]) -> Result<usize, Failed> {
        let _ = self.seen.push(self.passed_on.get());
        self.takes = self.takes.saturating_add(1);
        if self.takes == self.fail {
            self.faults = self.faults.saturating_add(1);
            return Err(Failed);
        }
        let count = self.left.len().min(self.piece).min(into.len());
        into[..count].copy_from_slice(&self.left[..count]);
        self.left = &self.left[count..];
        Ok(count)
    }

    fn faults(&self) -> u64 {
        self.faults
    }
}

/// A sink that keeps all it is given. It passes nothing on until it is flushed, and counts there how
/// many bytes it has passed on; one put and one flush may fail.
#[derive(Drop)]
pub struct KeepingSink<'a> {
    written: Vec<u8>,
    kept: u64,
    puts: u64,
    fail: u64,
    flushes: u64,
    fail_flush: u64,
    faults: u64,
    passed_on: &'a Cell<u64>,
}

impl<'a> KeepingSink<'a> {
    /// The sink of a call.
    pub fn new(alloc: Global, plan: &Plan<'_>, passed_on: &'a Cell<u64>) -> KeepingSink<'a> {
        KeepingSink {
            written: Vec::new(alloc),
            kept: 0,
            puts: 0,
            fail: plan.put,
            flushes: 0,
            fail_flush: plan.flush,
            faults: 0,
            passed_on,
        }
    }

    /// All that was written.
    pub fn written(&self) -> &[u8] {
        self.written.as_slice()
    }
}

impl Sink for KeepingSink<'_> {
    ghost use Rattle.std.specs.Prelude.{None};

    ghost written = { λ _. None };

    ghost fault_count = { λ s. s.faults };

    ghost waiting = { λ s. s.kept };

    fn put(&mut self, piece: &[u8]) -> Result<usize, Failed> {
        self.puts = self.puts.saturating_add(1);
        if self.puts == self.fail || self.written.extend_from_slice(piece).is_err() {
            self.faults = self.faults.saturating_add(1);
            return Err(Failed);
        }
        self.kept = self.kept.saturating_add(piece.len() as u64);
        Ok(piece.len())
    }

    fn flush(&mut self) -> Result<(), Failed> {
        self.flushes = self.flushes.saturating_add(1);
        if self.flushes == self.fail_flush {
            self.faults = self.faults.saturating_add(1);
            return Err(Failed);
        }
        let passed = self.passed_on.get().saturating_add(self.kept);
        self.passed_on.set(passed);
        self.kept = 0;
        Ok(())
    }

    fn faults(&self) -> u64 {
        self.faults
    }
}
