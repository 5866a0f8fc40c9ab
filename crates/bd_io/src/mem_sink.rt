ghost use Rattle.std.specs.Prelude.{◌≡◌, ◌≤◌, ◌<◌, ◌++◌, Some, [], length, take, IfOk, OnErr, is_err, IsOk};
ghost use Rattle.bd_io.specs.Cause.{HasCause};
ghost use Rattle.bd_io.specs.Memory.{taken_count, put_fails};
ghost use Rattle.bd_io.specs.Plan.{planned, calls_after};

use crate::{CallPlan, Failed, Sink};
use std::alloc::{AllocError, Global};
use std::marker::Model;

/// A sink in memory. It tells its contents, takes no memory after it is made, and fails at the
/// listed calls of `put`, at a count of them that stands at its last value, and at a piece of some
/// bytes without a byte of room, and nowhere else.
#[derive(Drop)]
pub struct MemSink {
    written: Vec<u8>,
    room: usize,
    plan: CallPlan,
}

impl Model for MemSink {
    ghost use Rattle.std.specs.Prelude.{◌≤◌, length};
    ghost use Rattle.std.specs.Vec.{vec_capacity};
    ghost use Rattle.bd_io.specs.Memory.{MemorySink};

    ghost Value = { MemorySink };

    ghost view = { λ s. record { written = s.written.items; room = s.room; plan = s.plan } };

    ghost invariant = { λ s.
        (length s.written.items ≤ s.room) × (s.room ≤ vec_capacity s.written) };
}

impl MemSink {
    /// An empty sink with room for `room` bytes. `fail` lists the numbers of the calls that are to
    /// fail, the first being 1.
    pub fn new(alloc: Global, room: usize, fail: &[u64]) -> Result<MemSink, AllocError>
        ensures { IfOk result
            (λ sink. sink ≡ record { written = []; room = room; plan = planned fail.now }) }
    {
        Ok(MemSink {
            written: Vec::with_capacity(alloc, room)?,
            room,
            plan: CallPlan::new(alloc, fail)?,
        })
    }

    /// The bytes that were written.
    pub fn bytes(&self) -> &[u8]
        ensures { result.now ≡ self.now.written }
    {
        &self.written
    }
}

impl Sink for MemSink {
    ghost written = { λ s. Some s.written };

    ghost fault_count = { λ s. s.plan.faults };

    ghost waiting = { λ _. 0 };

    fn put(&mut self, piece: &[u8]) -> Result<usize, Failed>
        ensures within { IfOk result (λ n. n ≤ length piece.now) }
        ensures advances { IfOk result (λ n. 0 < length piece.now → 0 < n) }
        ensures bytes { IfOk result (λ n. self.new.written ≡ self.old.written ++ take n piece.now) }
        ensures kept { OnErr result (self.new.written ≡ self.old.written) }
        ensures cause { HasCause self.old.plan.faults self.new.plan.faults result }

        // It fails exactly by its plan or for want of room, and takes as much as it can.
        ensures fails { is_err result ≡ put_fails self.old (length piece.now) }
        ensures count { IfOk result (λ n. n ≡ taken_count self.old (length piece.now)) }
        ensures calls { self.new.plan ≡ calls_after self.old.plan result }
        ensures room { self.new.room ≡ self.old.room }
    {
        let free = self.room - self.written.len();
        self.plan.call(free == 0 && !piece.is_empty())?;
        let count = piece.len().min(free);
        self.written.extend_from_slice(&piece[..count]).unwrap();
        Ok(count)
    }

    fn flush(&mut self) -> Result<(), Failed>
        // It keeps nothing back.
        ensures flushed { IsOk result }
        ensures unchanged { self.new ≡ self.old }
    {
        Ok(())
    }

    fn faults(&self) -> u64 {
        self.plan.faults()
    }
}
