ghost use Rattle.std.specs.Prelude.{◌≡◌, ◌<◌, ◌-◌, ◌↔◌, false, if◌then◌else◌, ℕ, List, Some, IfSome, IfNone, is_some, is_ok, is_err, OnOk, OnErr, IsErr, min, slice_get};
ghost use Rattle.bd_io.specs.Cause.{HasCause, IsCounted, next_count};
ghost use Rattle.bd_device.specs.Blocks.{HasBlocks, with_block, ChangesOnly};
ghost use Rattle.bd_device.specs.Calls.{faults_after};
ghost use Rattle.bd_device.specs.Moments.{Nothing, TornAt, Elapses, IsOnly};
ghost use Rattle.bd_device.specs.Fuse.{passes_left, refused_by, is_blown};

use crate::{Attach, BLOCK_SIZE, Device};
use bd_io::Failed;

// A fuse, which blows once.
#[derive(Clone, Copy)]
enum Fuse {
    // So many calls pass it still.
    Whole(u64),
    // It has refused so many calls.
    Blown(u64),
}

impl Fuse {
    // Lets a call pass, or refuses it where none is left.
    fn spend(&mut self) -> Result<(), Failed>
        ensures blown { IsErr result ↔ (passes_left self.old ≡ 0) }
        ensures spent { passes_left self.new ≡ passes_left self.old - 1 }
        ensures whole { OnOk result ((refused_by self.old ≡ 0) × (refused_by self.new ≡ 0)) }
        ensures refused { OnErr result (refused_by self.new ≡ next_count (refused_by self.old)) }
        ensures last { is_blown self.new ≡ is_err result }
    {
        match *self {
            Fuse::Whole(0) => {
                *self = Fuse::Blown(1);
                Err(Failed)
            }
            Fuse::Whole(left) => {
                *self = Fuse::Whole(left - 1);
                Ok(())
            }
            Fuse::Blown(refused) => {
                *self = Fuse::Blown(refused.saturating_add(1));
                Err(Failed)
            }
        }
    }

    // How many calls it has refused.
    fn refused(self) -> u64
        ensures { result ≡ refused_by self }
    {
        match self {
            Fuse::Whole(_) => 0,
            Fuse::Blown(refused) => refused,
        }
    }
}

/// A device that passes so many calls on to another one, and then refuses each: reads, writes,
/// barriers and attaches. What it refuses changes nothing of the other device, and is a fault of
/// its own. After an attach that it refused it has 0 blocks.
#[derive(Drop)]
pub struct FuseDevice<D> {
    inner: D,
    fuse: Fuse,
    refused_writes: u64,
    detached: bool,
}

impl<D> FuseDevice<D> {
    ghost use Rattle.bd_device.specs.Fuse.{inner_of, calls_left, IsFresh};

    /// A device that passes this many calls on.
    pub fn new(inner: D, calls: u64) -> FuseDevice<D>
        ensures inner { inner_of result ≡ inner }
        ensures calls { calls_left result ≡ calls }
        ensures fresh { IsFresh result }
    {
        FuseDevice {
            inner,
            fuse: Fuse::Whole(calls),
            refused_writes: 0,
            detached: false,
        }
    }

    /// The device behind the fuse.
    pub fn into_inner(self) -> D
        ensures { result ≡ inner_of self }
    {
        let FuseDevice {
            inner,
            fuse: _,
            refused_writes: _,
            detached: _,
        } = self;
        inner
    }

    // Lets a write or a barrier pass, or refuses it.
    fn spend_writing(&mut self) -> Result<(), Failed>
        ensures blown { IsErr result ↔ (calls_left self.old ≡ 0) }
        ensures spent { calls_left self.new ≡ calls_left self.old - 1 }
        ensures ok { OnOk result ((refused_by self.old.fuse ≡ 0) × (refused_by self.new.fuse ≡ 0)
            × (self.new ≡ record self.old { fuse = self.new.fuse })) }
        ensures err { OnErr result (
            (refused_by self.new.fuse ≡ next_count (refused_by self.old.fuse))
            × (self.new ≡ record self.old {
              fuse = self.new.fuse;
              refused_writes = next_count self.old.refused_writes;
            })) }
        ensures last { is_blown self.new.fuse ≡ is_err result }
    {
        let result = self.fuse.spend();
        if result.is_err() {
            self.refused_writes = self.refused_writes.saturating_add(1);
        }
        result
    }
}

impl<D: Device> Device for FuseDevice<D> {
    ghost use Rattle.std.specs.Prelude.{◌≡◌, ◌||◌, false, if◌then◌else◌};
    ghost use Rattle.bd_device.specs.Fuse.{inner_of, has_blown, is_detached, refused_writes, refused_count, with_refused, unless_detached, up_to, up_to-earlier, Spends};

    ghost block_count = { λ f. if is_detached f then 0 else D.block_count (inner_of f) };

    ghost contents = { λ f. unless_detached (is_detached f) (D.contents (inner_of f)) };

    ghost fault_count = { λ f. with_refused (D.fault_count (inner_of f)) (refused_count f) };

    ghost write_fault_count = { λ f.
        with_refused (D.write_fault_count (inner_of f)) (refused_writes f) };

    ghost call_count = { λ f. with_refused (D.call_count (inner_of f)) (refused_count f) };

    ghost last_failed = { λ f. has_blown f || D.last_failed (inner_of f) };

    ghost left_since = { λ f. up_to (D.call_count (inner_of f)) (D.left_since (inner_of f)) };

    ghost since_earlier = { λ f. up_to-earlier (D.call_count (inner_of f))
        (D.left_since (inner_of f)) (D.since_earlier (inner_of f)) };

    ghost is_named = { λ f name. (is_detached f ≡ false) × D.is_named (inner_of f) name };

    ghost loans = { λ f. D.loans (inner_of f) };

    ghost also = { Spends };

    fn blocks(&self) -> u64 {
        if self.detached {
            return 0;
        }
        // Its count of calls fits a u64, so that what a crash leaves now is what it leaves there.
        let _ = self.inner.calls();
        self.inner.blocks()
    }

    fn read(&mut self, b: u64, into: &mut [u8; BLOCK_SIZE]) -> Result<(), Failed> {
        self.fuse.spend()?;
        self.inner.read(b, into)
    }

    fn write(&mut self, b: u64, from: &[u8; BLOCK_SIZE]) -> Result<(), Failed> {
        // What stays of a write that is refused has whole blocks.
        let _ = self.inner.blocks();
        self.spend_writing()?;
        self.inner.write(b, from)
    }

    fn barrier(&mut self) -> Result<(), Failed> {
        self.spend_writing()?;
        self.inner.barrier()
    }

    fn faults(&self) -> u64 {
        self.inner.faults().saturating_add(self.fuse.refused())
    }

    fn write_faults(&self) -> u64 {
        self.inner
            .write_faults()
            .saturating_add(self.refused_writes)
    }

    fn calls(&self) -> u64 {
        self.inner.calls().saturating_add(self.fuse.refused())
    }
}

impl<D: Attach> Attach for FuseDevice<D> {
    ghost use Rattle.std.specs.Prelude.{min};
    ghost use Rattle.bd_device.specs.Fuse.{inner_of, is_detached, up_to, shows-attached};

    ghost shows = { λ f. D.shows (inner_of f) };

    ghost left_behind = { λ f name.
        up_to (D.call_count (inner_of f)) (D.left_behind (inner_of f) name) };

    ghost shows_named = { λ f name named.
        shows-attached (is_detached f) named.0 (D.shows_named (inner_of f) name named.1) };

    ghost left_named = { λ f name t c named.
        D.left_named (inner_of f) name (min t (D.call_count (inner_of f))) c named.1 };

    fn attach(&mut self, name: &str, create: Option<u64>) -> Result<(), Failed> {
        if let Err(failed) = self.fuse.spend() {
            self.detached = true;
            return Err(failed);
        }
        self.detached = false;
        self.inner.attach(name, create)
    }
}
