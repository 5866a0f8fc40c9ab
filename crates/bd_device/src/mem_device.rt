ghost use Rattle.std.specs.Prelude.{◌≡◌, ◌<◌, ◌≤◌, ◌||◌, ◌++◌, ◌∷◌, [], true, length, All, Some, IfOk, OnOk, OnErr, is_ok, is_err, IsTrue, ◌^◌, ◌-◌, ◌+◌, reverse, if◌then◌else◌, unwrap_or, slice_get, slice_set};
ghost use Rattle.bd_io.specs.Cause.{HasCause, IsCounted};
ghost use Rattle.bd_io.specs.Plan.{planned, next_fails, calls_after};
ghost use Rattle.bd_device.specs.Blocks.{HasBlocks, IsBlock, ChangesOnly};
ghost use Rattle.bd_device.specs.Crash.{torn_blocks, after_crash};
ghost use Rattle.bd_device.specs.Moments.{Nothing, TornAt, Elapses, IsOnly};
ghost use Rattle.bd_device.specs.Calls.{faults_after};
ghost use Rattle.bd_device.specs.Memory.{held_image, held-attached, attached_image, attached_size, write_fails, attach_fails, recorded, after_write, after_barrier, left_of, HasLeft-earlier, IsRecordIn, IsZero};

use crate::{Attach, BLOCK_SIZE, Device, Torn, WriteRecord};
use bd_io::{CallPlan, Failed};
use std::alloc::{AllocError, Global};
use std::marker::Model;

/// A device in memory, with a record of the writes. Its contents are known, and what a crash may
/// leave; it shows its one image for every name, and takes no memory after it is made. It fails at
/// the listed calls, at a count of calls that stands at its last value, at an attach that asks for
/// more blocks than it was made with and at a write past its number of writes, and nowhere else. A
/// failed write changes no block; until a barrier succeeds a crash may leave any bytes there, but
/// not where it failed without a record.
#[derive(Drop)]
pub struct MemDevice {
    blocks: Vec<[u8; BLOCK_SIZE]>,
    size: u64,
    attached: bool,
    writes: Vec<WriteRecord>,
    room: usize,
    barrier: u64,
    plan: CallPlan,
    write_faults: u64,
}

impl Model for MemDevice {
    ghost use Rattle.std.specs.Prelude.{◌≤◌, length, reverse, All};
    ghost use Rattle.std.specs.Vec.{vec_capacity};
    ghost use Rattle.bd_device.specs.Blocks.{IsBlock};
    ghost use Rattle.bd_device.specs.Memory.{MemoryDevice, IsAmongCalls, IsRecordIn};

    ghost Value = { MemoryDevice };

    ghost view = { λ d. record {
      blocks = d.blocks.items;
      size = d.size;
      attached = d.attached;
      writes = d.writes.items;
      room = d.room;
      barrier = d.barrier;
      plan = d.plan;
      write_faults = d.write_faults;
    } };

    ghost invariant = { λ d. (d.size ≤ length d.blocks.items) × All IsBlock d.blocks.items
        × (length d.writes.items ≤ d.room) × (d.room ≤ vec_capacity d.writes)
        × All (IsRecordIn (length d.blocks.items)) d.writes.items
        × (d.barrier ≤ d.plan.calls) × IsAmongCalls d.plan.calls (reverse d.writes.items) };
}

impl MemDevice {
    /// A device of `blocks` zero blocks, attached, with room for the records of `writes` writes.
    /// `fail` lists the numbers of the calls that are to fail, the first being 1.
    pub fn new(
        alloc: Global,
        blocks: u64,
        writes: usize,
        fail: &[u64],
    ) -> Result<MemDevice, AllocError>
        ensures zero { IfOk result (λ device. All IsZero device.blocks) }
        ensures shape { IfOk result (λ device. HasBlocks blocks device.blocks) }
        ensures fresh { IfOk result (λ device. device ≡ record {
          blocks = device.blocks;
          size = blocks;
          attached = true;
          writes = [];
          room = writes;
          barrier = 0;
          plan = planned fail.now;
          write_faults = 0;
        }) }
    {
        Ok(MemDevice {
            blocks: zero_blocks(alloc, blocks as usize)?,
            size: blocks,
            attached: true,
            writes: Vec::with_capacity(alloc, writes)?,
            room: writes,
            barrier: 0,
            plan: CallPlan::new(alloc, fail)?,
            write_faults: 0,
        })
    }

    /// The writes since the device was made or last lost power, in their order, also those that
    /// failed by its list.
    pub fn writes(&self) -> &[WriteRecord]
        ensures { result.now ≡ self.now.writes }
    {
        &self.writes
    }

    /// The power is lost: each block that was written since the last barrier that succeeded, also
    /// by a write that failed, has what `how` says, and the others stay. That is one of the images
    /// that a crash might have left. Nothing is in flight then, and there is room for as many
    /// writes as the device was made for. It is no call of the device, and takes no memory.
    pub fn crash(&mut self, how: Torn)
        ensures after { self.new ≡ after_crash how self.old }
        ensures left { left_of self.old self.old.plan.calls (held_image self.new) }
    {
        tear(&mut self.blocks, &self.writes, self.barrier, how);
        self.writes.clear();
        self.barrier = 0;
    }

    // Counts a write or a barrier, which fails also where `refused` says so.
    fn writing_call(&mut self, refused: bool) -> Result<(), Failed>
        ensures fails { is_err result ≡ (next_fails self.old.plan || refused) }
        ensures after { self.new ≡ record self.old {
          plan = calls_after self.old.plan result;
          write_faults = faults_after self.old.write_faults result;
        } }
        ensures cause { HasCause self.old.plan.faults self.new.plan.faults result }
        ensures calls { IsCounted self.old.plan.calls self.new.plan.calls result }
    {
        let result = self.plan.call(refused);
        if result.is_err() {
            self.write_faults = self.write_faults.saturating_add(1);
        }
        result
    }

    // Records a write after so many calls, where there is room and a number for it.
    fn record(&mut self, calls: u64, b: u64, from: &[u8; BLOCK_SIZE], is_done: bool)
        requires room { b < self.old.size }
        requires past { calls ≤ self.old.plan.calls }
        requires counted { calls < 2 ^ 64 - 1 → self.old.plan.calls ≡ calls + 1 }
        ensures { self.new ≡ recorded calls b from.now is_done self.old }
    {
        if self.writes.len() < self.room && calls < u64::MAX {
            let record = WriteRecord {
                call: calls + 1,
                block: b,
                bytes: *from,
                before: self.blocks[b as usize],
                is_done,
                barrier: self.barrier,
            };
            self.writes.push(record).unwrap();
            self.barrier = 0;
        }
    }
}

// Tears the blocks of the writes in flight, the last of which a barrier of this number followed.
fn tear(blocks: &mut [[u8; BLOCK_SIZE]], writes: &[WriteRecord], barrier: u64, how: Torn)
    requires room { All (IsRecordIn (length blocks.old)) writes.now }
    requires whole { All IsBlock blocks.old }
    ensures torn { blocks.new ≡ torn_blocks how barrier (reverse writes.now) blocks.old }
    ensures whole { All IsBlock blocks.new }
{
    let mut barrier = barrier;
    let mut left = writes.len();
    while left > 0 && barrier == 0 {
        left -= 1;
        let write = &writes[left];
        let b = write.block as usize;
        let bytes = how.bytes(write, &blocks[b]);
        blocks[b] = bytes;
        barrier = write.barrier;
    }
}

// This many zero blocks.
fn zero_blocks(alloc: Global, count: usize) -> Result<Vec<[u8; BLOCK_SIZE]>, AllocError>
    ensures zero { IfOk result (λ blocks. All IsZero blocks.items) }
    ensures shape { IfOk result (λ blocks. HasBlocks count blocks.items) }
{
    let mut blocks = Vec::with_capacity(alloc, count)?;
    while blocks.len() < count {
        blocks.push([0; BLOCK_SIZE])?;
    }
    Ok(blocks)
}

impl Device for MemDevice {
    ghost block_count = { attached_size };

    ghost contents = { λ d. Some (attached_image d) };

    ghost fault_count = { λ d. d.plan.faults };

    ghost write_fault_count = { λ d. d.write_faults };

    ghost call_count = { λ d. d.plan.calls };

    ghost last_failed = { λ d. d.plan.last_failed };

    ghost left_since = { left_of };

    ghost since_earlier = { λ d. HasLeft-earlier d.barrier (reverse d.writes) (held_image d) };

    ghost is_named = { λ d _. IsTrue d.attached };

    fn blocks(&self) -> u64 {
        if self.attached { self.size } else { 0 }
    }

    fn read(&mut self, b: u64, into: &mut [u8; BLOCK_SIZE]) -> Result<(), Failed>
        requires { b < attached_size self.old }
        ensures bytes { OnOk result (slice_get (attached_image self.old) b ≡ Some into.new) }
        ensures cause { HasCause self.old.plan.faults self.new.plan.faults result }
        ensures calls { IsCounted self.old.plan.calls self.new.plan.calls result }

        // It fails exactly by its plan, and changes only its counts.
        ensures fails { is_err result ≡ next_fails self.old.plan }
        ensures after { self.new ≡ record self.old { plan = calls_after self.old.plan result } }
    {
        self.plan.call(false)?;
        *into = self.blocks[b as usize];
        Ok(())
    }

    fn write(&mut self, b: u64, from: &[u8; BLOCK_SIZE]) -> Result<(), Failed>
        requires { b < attached_size self.old }
        ensures written { OnOk result
            (attached_image self.new ≡ slice_set (attached_image self.old) b from.now) }
        ensures others { OnErr result
            (ChangesOnly b (Some (attached_image self.old)) (Some (attached_image self.new))) }
        ensures shape { HasBlocks (attached_size self.new) (attached_image self.new) }
        ensures cause { HasCause self.old.plan.faults self.new.plan.faults result }
        ensures calls { IsCounted self.old.plan.calls self.new.plan.calls result }
        ensures time { Elapses self.old.plan.calls self.new.plan.calls
            (left_of self.old) (left_of self.new)
            (TornAt b (left_of self.old self.old.plan.calls)) }

        // It fails exactly by its plan or for want of room, and then changes no block.
        ensures fails { is_err result ≡ write_fails self.old }
        ensures after { self.new ≡ after_write b from.now result self.old }
    {
        let calls = self.plan.calls();
        let is_full = self.writes.len() >= self.room;
        let result = self.writing_call(is_full);
        self.record(calls, b, from, result.is_ok());
        result?;
        self.blocks[b as usize] = *from;
        Ok(())
    }

    fn barrier(&mut self) -> Result<(), Failed>
        ensures cause { HasCause self.old.plan.faults self.new.plan.faults result }
        ensures calls { IsCounted self.old.plan.calls self.new.plan.calls result }
        ensures time { Elapses self.old.plan.calls self.new.plan.calls
            (left_of self.old) (left_of self.new) Nothing }
        ensures durable { OnOk result
            (IsOnly (Some (held_image self.new)) (left_of self.new self.new.plan.calls)) }

        // It fails exactly by its plan, and changes no block.
        ensures fails { is_err result ≡ next_fails self.old.plan }
        ensures after { self.new ≡ after_barrier result self.old }
    {
        self.writing_call(false)?;
        if self.barrier == 0 {
            self.barrier = self.plan.calls();
        }
        Ok(())
    }

    fn faults(&self) -> u64 {
        self.plan.faults()
    }

    fn write_faults(&self) -> u64 {
        self.write_faults
    }

    fn calls(&self) -> u64 {
        self.plan.calls()
    }
}

impl Attach for MemDevice {
    ghost shows = { λ d _. Some (held_image d) };

    ghost left_behind = { λ d _. left_of d };

    ghost shows_named = { λ d _. held-attached d };

    ghost left_named = { λ d _ t c _. (λ left. left, λ left. left) };

    fn attach(&mut self, _name: &str, create: Option<u64>) -> Result<(), Failed>
        ensures shape { HasBlocks (attached_size self.new) (attached_image self.new) }
        ensures cause { HasCause self.old.plan.faults self.new.plan.faults result }
        ensures calls { IsCounted self.old.plan.calls self.new.plan.calls result }

        // It fails exactly by its plan or for want of blocks. No block changes.
        ensures fails { is_err result ≡ attach_fails self.old create }
        ensures after { self.new ≡ record self.old {
          plan = calls_after self.old.plan result;
          attached = is_ok result;
          size = if is_ok result then unwrap_or create self.old.size else self.old.size;
        } }
    {
        let size = create.unwrap_or(self.size);
        self.attached = false;
        self.plan.call(size > self.blocks.len() as u64)?;
        self.attached = true;
        self.size = size;
        Ok(())
    }
}
