ghost use Rattle.std.specs.Prelude.{◌≡◌, ◌≤◌, ◌<◌, ◌+◌, ◌*◌, ◌^◌, ℕ, List, OnOk, OnErr, length};
ghost use Rattle.bd_io.specs.Cause.{HasCause};
ghost use Rattle.bd_limits.specs.Limits.{block_size};
ghost use Rattle.bd_device.specs.Changes.{IsBeforeBut, IsInRange};
ghost use Rattle.bd_device.specs.Device.{left_now, Goes, Stays};
ghost use Rattle.bd_device.specs.Moments.{IsOnly};
ghost use Rattle.bd_mirror.specs.Writing.{HasBytes, IsWithin, IsBarrier, bytes_of, contents_after, contents_with_run, run_bytes, TornBy};

use bd_device::{BLOCK_SIZE, Device, write_blocks};
use bd_io::Failed;

/// A call that each half in use gets.
#[derive(Clone, Copy)]
pub enum WritingCall<'a> {
    /// A write of this block.
    Write(u64, &'a [u8; BLOCK_SIZE]),
    /// A write of blocks in a row: the first one, the bytes, and how many blocks they are.
    Run(u64, &'a [u8], usize),
    /// A barrier.
    Barrier,
}

impl<'a> WritingCall<'a> {
    /// Makes this call of a half. Where it fails, its blocks hold any bytes.
    pub fn make<D: Device>(self, half: &mut D) -> Result<(), Failed>
        requires within { IsWithin self (D.block_count half.old) }
        requires bytes { HasBytes self }
        ensures done { OnOk result (D.contents half.new
            ≡ contents_after self.entry (bytes_of self.entry) (D.contents half.old)) }
        ensures others { OnErr result ((bytes : ℕ → List ℕ)
            × (D.contents half.new ≡ contents_after self.entry bytes (D.contents half.old))) }
        ensures durable { OnOk result (IsBarrier self.entry → 0 < D.block_count half.old
            → IsOnly (D.contents half.new) (left_now D.Device half.new)) }
        ensures time { Goes D.Device half.old half.new
            (TornBy self.entry (left_now D.Device half.old)) }
        ensures stays { Stays D.Device half.old half.new }
        ensures cause { HasCause (D.fault_count half.old) (D.fault_count half.new) result }
    {
        match self {
            WritingCall::Write(b, from) => half.write(b, from),
            WritingCall::Run(first, from, count) => write_run(half, first, from, count),
            WritingCall::Barrier => half.barrier(),
        }
    }
}

/// Writes blocks of a half, from block `first` on. Where that fails, they hold any bytes.
fn write_run<D: Device>(half: &mut D, first: u64, from: &[u8], count: usize) -> Result<(), Failed>
    requires room { first + count ≤ D.block_count half.old }
    requires fits { first + count < 2 ^ 64 }
    requires length { count * block_size ≤ length from.now }
    ensures done { OnOk result (D.contents half.new
        ≡ contents_with_run first count (run_bytes first from.now) (D.contents half.old)) }
    ensures others { OnErr result ((bytes : ℕ → List ℕ)
        × (D.contents half.new ≡ contents_with_run first count bytes (D.contents half.old))) }
    ensures time { Goes D.Device half.old half.new
        (IsBeforeBut (IsInRange first (first + count)) (left_now D.Device half.old)) }
    ensures stays { Stays D.Device half.old half.new }
    ensures cause { HasCause (D.fault_count half.old) (D.fault_count half.new) result }
{
    let result = write_blocks(half, first, from, count);
    let _ = half.blocks();
    result
}
