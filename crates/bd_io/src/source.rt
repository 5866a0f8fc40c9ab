ghost use Rattle.std.specs.Prelude.{◌≡◌, ◌≤◌, ◌<◌, ℕ, List, Option, length, take, IfOk, OnErr};
ghost use Rattle.std.specs.Io.KnownBytes.{prepend_known, IsAtEnd};
ghost use Rattle.std.specs.Option.{option_map};
ghost use Rattle.bd_io.specs.Cause.{HasCause};
ghost use Rattle.bd_io.specs.Takes.{Takes, given_by, takes_after};

use crate::Failed;

/// Where bytes are taken from, in pieces.
pub trait Source {
    /// The bytes that are left, where they are known.
    ghost left: { Self → Option (List ℕ) };

    /// How often it has failed, up to a u64's last value.
    ghost fault_count: { Self → ℕ };

    /// How bytes were asked for, where that is known.
    ghost takes: { Self → Option Takes };

    /// Takes the next bytes into the front of `into`, and says how many. For a place of at least
    /// one byte, 0 means the end. At `Failed` nothing was taken, and the count of faults has risen
    /// in this call or stands at its last value.
    fn take(&mut self, into: &mut [u8]) -> Result<usize, Failed>
        ensures room { IfOk result (λ n. n ≤ length into.new) }
        ensures bytes { IfOk result
            (λ n. left self.old ≡ prepend_known (take n into.new) (left self.new)) }
        ensures end { IfOk result (λ n. n ≡ 0 → 0 < length into.new → IsAtEnd (left self.new)) }
        ensures kept { OnErr result (left self.new ≡ left self.old) }
        ensures told { takes self.new
            ≡ option_map (takes_after (given_by result into.new)) (takes self.old) }
        ensures cause { HasCause (fault_count self.old) (fault_count self.new) result };

    /// How often it has failed. It never falls, and stays at a u64's last value.
    fn faults(&self) -> u64
        ensures { result ≡ fault_count self.now };
}

impl<S: Source> Source for &mut S {
    ghost left = { λ s. S.left s.now };

    ghost fault_count = { λ s. S.fault_count s.now };

    ghost takes = { λ s. S.takes s.now };

    fn take(&mut self, into: &mut [u8]) -> Result<usize, Failed> {
        Source::take(&mut **self, into)
    }

    fn faults(&self) -> u64 {
        Source::faults(&**self)
    }
}
