ghost use Rattle.std.specs.Prelude.{◌≡◌, true, false, OnOk, OnErr, is_err};
ghost use Rattle.bd_io.specs.Cause.{next_count};
ghost use Rattle.bd_device.specs.Fuse.{with_refused};
ghost use Rattle.bd_device.specs.Faulty.{refuses_after};

use crate::{Attach, BLOCK_SIZE, Device};
use bd_io::Failed;

/// A device of which the listed calls fail: it refuses them, and passes the others on to another
/// one. What it refuses changes nothing of the other device, and is a fault of its own. It refuses
/// each call too where its count of calls stands at its last value. After an attach that it refused
/// it has 0 blocks until the next attach.
#[derive(Drop)]
pub struct FaultyDevice<D> {
    inner: D,
    fail: Vec<u64>,
    refused: u64,
    refused_writes: u64,
    refused_last: bool,
    detached: bool,
}

impl<D> FaultyDevice<D> {
    ghost use Rattle.bd_device.specs.Faulty.{faulty_inner, listed_calls, faulty_refused};

    /// A device that refuses the calls with these numbers, the first call of the other device being
    /// 1: what was called there before counts too.
    pub fn new(inner: D, fail: Vec<u64>) -> FaultyDevice<D>
        ensures inner { faulty_inner result ≡ inner }
        ensures listed { listed_calls result ≡ fail.items }
        ensures fresh { faulty_refused result ≡ 0 }
    {
        FaultyDevice {
            inner,
            fail,
            refused: 0,
            refused_writes: 0,
            refused_last: false,
            detached: false,
        }
    }

    /// The device behind it.
    pub fn into_inner(self) -> D
        ensures { result ≡ faulty_inner self }
    {
        let FaultyDevice {
            inner,
            fail: _,
            refused: _,
            refused_writes: _,
            refused_last: _,
            detached: _,
        } = self;
        inner
    }
}

impl<D: Device> FaultyDevice<D> {
    // Lets a call pass, or refuses it.
    fn pass(&mut self) -> Result<(), Failed>
        ensures fails { is_err result
            ≡ refuses_after self.old.fail.items
            (with_refused (D.call_count self.old.inner) self.old.refused) }
        ensures ok { OnOk result (self.new ≡ record self.old { refused_last = false }) }
        ensures err { OnErr result (self.new ≡ record self.old {
          refused = next_count self.old.refused;
          refused_last = true;
        }) }
    {
        let calls = self.inner.calls().saturating_add(self.refused);
        self.refused_last = calls == u64::MAX || self.fail.contains(&(calls + 1));
        if self.refused_last {
            self.refused = self.refused.saturating_add(1);
            return Err(Failed);
        }
        Ok(())
    }

    // Lets a write or a barrier pass, or refuses it.
    fn pass_writing(&mut self) -> Result<(), Failed>
        ensures fails { is_err result
            ≡ refuses_after self.old.fail.items
            (with_refused (D.call_count self.old.inner) self.old.refused) }
        ensures ok { OnOk result (self.new ≡ record self.old { refused_last = false }) }
        ensures err { OnErr result (self.new ≡ record self.old {
          refused = next_count self.old.refused;
          refused_writes = next_count self.old.refused_writes;
          refused_last = true;
        }) }
    {
        let result = self.pass();
        if result.is_err() {
            self.refused_writes = self.refused_writes.saturating_add(1);
        }
        result
    }
}

impl<D: Device> Device for FaultyDevice<D> {
    ghost use Rattle.std.specs.Prelude.{◌≡◌, ◌||◌, false, if◌then◌else◌};
    ghost use Rattle.bd_device.specs.Fuse.{with_refused, unless_detached};
    ghost use Rattle.bd_device.specs.Faulty.{faulty_inner, listed_calls, faulty_refused, faulty_writes, faulty_detached, has_refused_last, through, through-earlier, refuses_after, Refuses};

    ghost block_count = { λ f. if faulty_detached f then 0 else D.block_count (faulty_inner f) };

    ghost contents = { λ f. unless_detached (faulty_detached f) (D.contents (faulty_inner f)) };

    ghost fault_count = { λ f. with_refused (D.fault_count (faulty_inner f)) (faulty_refused f) };

    ghost write_fault_count = { λ f.
        with_refused (D.write_fault_count (faulty_inner f)) (faulty_writes f) };

    ghost call_count = { λ f. with_refused (D.call_count (faulty_inner f)) (faulty_refused f) };

    ghost last_failed = { λ f. has_refused_last f || D.last_failed (faulty_inner f) };

    ghost left_since = { λ f. through (listed_calls f) (D.call_count (faulty_inner f))
        (with_refused (D.call_count (faulty_inner f)) (faulty_refused f))
        (D.left_since (faulty_inner f)) };

    ghost since_earlier = { λ f. through-earlier (listed_calls f) (D.call_count (faulty_inner f))
        (with_refused (D.call_count (faulty_inner f)) (faulty_refused f))
        (D.left_since (faulty_inner f)) (D.since_earlier (faulty_inner f)) };

    ghost is_named = { λ f name.
        (faulty_detached f ≡ false) × D.is_named (faulty_inner f) name };

    ghost loans = { λ f. D.loans (faulty_inner f) };

    ghost also = { λ f. Refuses (refuses_after (listed_calls f)
        (with_refused (D.call_count (faulty_inner f)) (faulty_refused f))) f };

    fn blocks(&self) -> u64 {
        if self.detached {
            0
        } else {
            self.inner.blocks()
        }
    }

    fn read(&mut self, b: u64, into: &mut [u8; BLOCK_SIZE]) -> Result<(), Failed> {
        self.pass()?;
        self.inner.read(b, into)
    }

    fn write(&mut self, b: u64, from: &[u8; BLOCK_SIZE]) -> Result<(), Failed> {
        // What stays of a write that is refused has whole blocks.
        let _ = self.inner.blocks();
        self.pass_writing()?;
        self.inner.write(b, from)
    }

    fn barrier(&mut self) -> Result<(), Failed> {
        self.pass_writing()?;
        self.inner.barrier()
    }

    fn faults(&self) -> u64 {
        self.inner.faults().saturating_add(self.refused)
    }

    fn write_faults(&self) -> u64 {
        self.inner
            .write_faults()
            .saturating_add(self.refused_writes)
    }

    fn calls(&self) -> u64 {
        self.inner.calls().saturating_add(self.refused)
    }
}

impl<D: Attach> Attach for FaultyDevice<D> {
    ghost use Rattle.std.specs.Prelude.{◌-◌};
    ghost use Rattle.bd_device.specs.Fuse.{with_refused, shows-attached};
    ghost use Rattle.bd_device.specs.Faulty.{faulty_inner, listed_calls, faulty_refused, faulty_detached, passes_since, through};

    ghost shows = { λ f. D.shows (faulty_inner f) };

    ghost left_behind = { λ f name. through (listed_calls f) (D.call_count (faulty_inner f))
        (with_refused (D.call_count (faulty_inner f)) (faulty_refused f))
        (D.left_behind (faulty_inner f) name) };

    ghost shows_named = { λ f name named.
        shows-attached (faulty_detached f) named.0 (D.shows_named (faulty_inner f) name named.1) };

    ghost left_named = { λ f name t c named.
        D.left_named (faulty_inner f) name (D.call_count (faulty_inner f)
        - passes_since (listed_calls f) t
        (with_refused (D.call_count (faulty_inner f)) (faulty_refused f))) c named.1 };

    fn attach(&mut self, name: &str, create: Option<u64>) -> Result<(), Failed> {
        if let Err(failed) = self.pass() {
            self.detached = true;
            return Err(failed);
        }
        self.detached = false;
        self.inner.attach(name, create)
    }
}
