//! The log.

ghost use Rattle.std.specs.Prelude.{◌≡◌, ◌≤◌, ◌+◌, ◌++◌, ◌∷◌, [], ℕ, List, length, IfOk, IfSome, OnOk, OnErr, IsTrue, is_ok};
ghost use Rattle.bd_limits.specs.Limits.{first_slot_block, log_blocks};
ghost use Rattle.bd_device.specs.Blocks.{Image};
ghost use Rattle.bd_device.specs.Calls.{faults_after};
ghost use Rattle.bd_device.specs.Changes.{StaysBut, IsInRange};
ghost use Rattle.bd_device.specs.Device.{left_now, Goes, Stays, OnlyReads, FailsLast, HasImageCause};
ghost use Rattle.bd_log.specs.Batches.{IsLogRecord, AreBatches, IsDamagedAt};
ghost use Rattle.bd_log.specs.Logs.{IsLogHalf, room_at, room_left, fresh_log, after_sync, IsSyncing, IsSynced};

use crate::batch::Batch;
use crate::body::{HEADER_SIZE, MAX_BODY, blocks_for, seal};
use crate::commit::write_committed;
use crate::read::read_batches;
use bd_device::{BLOCK_SIZE, Device, ImageFault, put};
use bd_io::Failed;
use bd_limits::MAX_BODY_BLOCKS;
use std::alloc::{AllocError, Global};
use std::marker::Model;

/// One half of the log, of 64 blocks: batches of records, each of which a commit block and a body
/// make. It keeps the records that wait for a sync.
#[derive(Drop)]
pub struct Log {
    first: u64,
    epoch: u64,
    place: u64,
    body: Vec<u8>,
    size: usize,
    count: u32,
    batches: Vec<Batch>,
}

impl Model for Log {
    ghost use Rattle.std.specs.Prelude.{◌<◌};
    ghost use Rattle.bd_limits.specs.Limits.{log_blocks};
    ghost use Rattle.bd_log.specs.Batches.{records_in, after_header};
    ghost use Rattle.bd_log.specs.Logs.{LogState, IsLogHalf, IsBuffer};

    ghost Value = { LogState };

    ghost view = { λ l. record {
      first = l.first;
      epoch = l.epoch;
      place = l.place;
      waiting = records_in l.count (after_header l.size l.body.items);
      batches = l.batches.items;
    } };

    ghost invariant = { λ l. IsLogHalf l.first × (l.place < log_blocks)
        × IsBuffer l.place l.size l.count l.body.items };
}

impl Log {
    /// A log without batches and with nothing waiting, in the half that begins at block `first`, 4
    /// or 68. It makes no call of a device.
    pub fn fresh(alloc: Global, first: u64, epoch: u64) -> Result<Log, AllocError>
        requires { IsLogHalf first }
        ensures { IfOk result (λ log. log ≡ fresh_log first epoch) }
    {
        Ok(Log {
            first,
            epoch,
            place: 0,
            body: vec![in alloc; 0; MAX_BODY]?,
            size: 0,
            count: 0,
            batches: Vec::new(alloc),
        })
    }

    /// Reads the batches of the half that begins at block `first`, 4 or 68, and goes on after them.
    /// `DeviceFault` comes only where a call of the device failed, which is the last one then,
    /// `Damaged` exactly where after a batch a commit block is committed and no batch of this epoch
    /// stands there, and names the first block of its body. It reads, and writes nothing.
    #[tactic(auto, using(bd_device::proofs::Calls::calls))]
    pub fn resume<D: Device>(
        alloc: Global,
        dev: &mut D,
        first: u64,
        epoch: u64,
    ) -> Result<Log, ImageFault>
        requires room { first_slot_block ≤ D.block_count dev.old }
        requires half { IsLogHalf first }
        ensures batches { IfOk result (λ log. IfSome (D.contents dev.old) (λ image.
            AreBatches image first epoch log.batches log.place)) }
        ensures idle { IfOk result (λ log. log ≡ record (fresh_log first epoch) {
          place = log.place;
          batches = log.batches;
        }) }
        ensures cause { HasImageCause D.Device dev.old dev.new (λ block.
            IfSome (D.contents dev.old) (λ image. IsDamagedAt image first epoch block)) result }
        ensures reads { OnlyReads D.Device dev.old dev.new }
    {
        let mut body = vec![in alloc; 0; MAX_BODY]?;
        let (batches, place) = read_batches(alloc, dev, first, epoch, &mut body)?;
        Ok(Log {
            first,
            epoch,
            place,
            body,
            size: 0,
            count: 0,
            batches,
        })
    }

    /// The batches that were there when it was resumed, in the order in which they were committed.
    pub fn batches(&self) -> &[Batch]
        ensures { result.now ≡ self.now.batches }
    {
        self.batches.as_slice()
    }

    /// How many more bytes of records the next batch has room for.
    pub fn left(&self) -> usize
        ensures { result ≡ room_left self.now }
    {
        room_at(self.place) - self.size
    }

    /// Appends a record, which has its length of two bytes in front: it waits for the next sync.
    /// It takes no memory.
    pub fn append(&mut self, bytes: &[u8])
        requires is_record { IsLogRecord bytes.now }
        requires room { length bytes.now ≤ room_left self.old }
        ensures { self.new ≡ record self.old {
          waiting = self.old.waiting ++ bytes.now ∷ [];
        } }
    {
        put(&mut self.body, HEADER_SIZE + self.size, bytes);
        self.size += bytes.len();
        self.count += 1;
    }

    /// Goes on in the half that begins at block `first`, 4 or 68, with another epoch: without
    /// batches, and with nothing waiting. It takes no memory.
    pub fn turn(&mut self, first: u64, epoch: u64)
        requires { IsLogHalf first }
        ensures { self.new ≡ fresh_log first epoch }
    {
        self.first = first;
        self.epoch = epoch;
        self.place = 0;
        self.size = 0;
        self.count = 0;
        self.batches.clear();
    }

    /// Commits the waiting records as one batch. Inside it and after it a crash leaves all of them
    /// or none, and all once it is Ok; what stood outside this half stays. With nothing waiting it
    /// makes no call of the device. `Failed` comes only where a call of the device failed, which is
    /// the last one then; the records then still wait. It takes no memory.
    #[tactic(auto, using(bd_device::proofs::Calls::calls))]
    pub fn sync<D: Device>(&mut self, dev: &mut D) -> Result<(), Failed>
        requires { first_slot_block ≤ D.block_count dev.old }
        ensures ok { OnOk result (self.new ≡ after_sync self.old) }
        ensures err { OnErr result (self.new ≡ self.old) }
        ensures time { Goes D.Device dev.old dev.new
            (IsSyncing self.old (left_now D.Device dev.old)) }
        ensures synced { OnOk result ((c : Image) → left_now D.Device dev.new c
            → IsSynced self.old (left_now D.Device dev.old) c) }
        ensures others { StaysBut (IsInRange self.old.first (self.old.first + log_blocks))
            (D.contents dev.old) (D.contents dev.new) }
        ensures idle { self.old.waiting ≡ [] → dev.new ≡ dev.old }
        ensures idle_ok { self.old.waiting ≡ [] → IsTrue (is_ok result) }
        ensures stays { Stays D.Device dev.old dev.new }
        ensures cause { FailsLast D.Device dev.old dev.new result }
        ensures write_faults { D.write_fault_count dev.new
            ≡ faults_after (D.write_fault_count dev.old) result }
    {
        if self.count == 0 {
            return Ok(());
        }
        let blocks = blocks_for(self.size);
        seal(&mut self.body, blocks, self.epoch, self.count, self.size);
        let end = blocks as usize * BLOCK_SIZE;
        write_committed(dev, self.first + self.place, &self.body[..end], blocks)?;
        self.place += 1 + blocks;
        self.size = 0;
        self.count = 0;
        Ok(())
    }
}

// The bytes of records that a batch has room for whose commit block has this place.
fn room_at(place: u64) -> usize
    ensures { result ≡ room_at place }
{
    let blocks = MAX_BODY_BLOCKS.saturating_sub(place) as usize;
    (blocks * BLOCK_SIZE).saturating_sub(HEADER_SIZE)
}
