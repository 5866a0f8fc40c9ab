ghost use Rattle.std.specs.Prelude.{◌≡◌, ◌+◌, ◌^◌, ◌||◌, not, nat_le, is_err};
ghost use Rattle.bd_io.specs.Cause.{HasCause, IsCounted};
ghost use Rattle.bd_device.specs.Calls.{faults_after, no_calls};

use bd_io::Failed;

/// The counts of a device, each of which stays at a u64's last value, and whether the last call
/// failed.
#[derive(Clone, Copy)]
pub struct Counts {
    pub calls: u64,
    pub faults: u64,
    pub write_faults: u64,
    pub last_failed: bool,
}

impl Counts {
    /// No call was made yet.
    pub fn new() -> Counts
        ensures { result ≡ no_calls }
    {
        Counts {
            calls: 0,
            faults: 0,
            write_faults: 0,
            last_failed: false,
        }
    }

    /// Counts a read or an attach, which was done or not. It fails where it wasn't, and where the
    /// count of calls stands at its last value.
    pub fn settle(&mut self, is_done: bool) -> Result<(), Failed>
        ensures fails { is_err result ≡ (not is_done || nat_le (2 ^ 64) (self.old.calls + 1)) }
        ensures cause { HasCause self.old.faults self.new.faults result }
        ensures faults { self.new.faults ≡ faults_after self.old.faults result }
        ensures last { self.new.last_failed ≡ is_err result }
        ensures calls { IsCounted self.old.calls self.new.calls result }
        ensures write_faults { self.new.write_faults ≡ self.old.write_faults }
    {
        let is_full = self.calls == u64::MAX;
        self.calls = self.calls.saturating_add(1);
        self.last_failed = is_full || !is_done;
        if self.last_failed {
            self.faults = self.faults.saturating_add(1);
            return Err(Failed);
        }
        Ok(())
    }

    /// Counts a write or a barrier, as `settle` does.
    pub fn settle_writing(&mut self, is_done: bool) -> Result<(), Failed>
        ensures fails { is_err result ≡ (not is_done || nat_le (2 ^ 64) (self.old.calls + 1)) }
        ensures cause { HasCause self.old.faults self.new.faults result }
        ensures faults { self.new.faults ≡ faults_after self.old.faults result }
        ensures last { self.new.last_failed ≡ is_err result }
        ensures calls { IsCounted self.old.calls self.new.calls result }
        ensures write_faults { self.new.write_faults
            ≡ faults_after self.old.write_faults result }
    {
        let result = self.settle(is_done);
        if result.is_err() {
            self.write_faults = self.write_faults.saturating_add(1);
        }
        result
    }
}
