ghost use Rattle.std.specs.Prelude.{◌≡◌, ◌≤◌, ◌<◌, ℕ, List, Option, length, take, IfOk, OnOk, OnErr};
ghost use Rattle.std.specs.Io.KnownBytes.{append_known};
ghost use Rattle.bd_io.specs.Cause.{HasCause};
ghost use Rattle.bd_io.specs.Written.{WrotePart};

use crate::Failed;

/// Where bytes are written to.
pub trait Sink {
    /// The bytes that were written, where they are known.
    ghost written: { Self → Option (List ℕ) };

    /// How often it has failed, up to a u64's last value.
    ghost fault_count: { Self → ℕ };

    /// How many of the written bytes it still keeps back, 0 where it passes each on at once.
    ghost waiting: { Self → ℕ };

    /// Writes a front part of `piece`, and says how many bytes: at least 1 of a piece that isn't
    /// empty. At `Failed` nothing was written, and the count of faults has risen in this call or
    /// stands at its last value.
    fn put(&mut self, piece: &[u8]) -> Result<usize, Failed>
        ensures within { IfOk result (λ n. n ≤ length piece.now) }
        ensures advances { IfOk result (λ n. 0 < length piece.now → 0 < n) }
        ensures bytes { IfOk result
            (λ n. written self.new ≡ append_known (written self.old) (take n piece.now)) }
        ensures kept { OnErr result (written self.new ≡ written self.old) }
        ensures cause { HasCause (fault_count self.old) (fault_count self.new) result };

    /// Passes on what it still keeps back of the written bytes. At `Failed` some of them may still
    /// be kept back, and the count of faults has risen in this call or stands at its last value.
    fn flush(&mut self) -> Result<(), Failed>
        ensures flushed { OnOk result (waiting self.new ≡ 0) }
        ensures bytes { written self.new ≡ written self.old }
        ensures cause { HasCause (fault_count self.old) (fault_count self.new) result };

    /// How often it has failed. It never falls, and stays at a u64's last value.
    fn faults(&self) -> u64
        ensures { result ≡ fault_count self.now };
}

impl<K: Sink> Sink for &mut K {
    ghost written = { λ k. K.written k.now };

    ghost fault_count = { λ k. K.fault_count k.now };

    ghost waiting = { λ k. K.waiting k.now };

    fn put(&mut self, piece: &[u8]) -> Result<usize, Failed> {
        Sink::put(&mut **self, piece)
    }

    fn flush(&mut self) -> Result<(), Failed> {
        Sink::flush(&mut **self)
    }

    fn faults(&self) -> u64 {
        Sink::faults(&**self)
    }
}

/// Writes all of `bytes`, in as many calls of `put` as it takes. At `Failed` some of them were
/// written, from the first on.
pub fn put_all<K: Sink>(sink: &mut K, bytes: &[u8]) -> Result<(), Failed>
    ensures ok { OnOk result (K.written sink.new ≡ append_known (K.written sink.old) bytes.now) }
    ensures err { OnErr result (WrotePart bytes.now (K.written sink.old) (K.written sink.new)) }
    ensures cause { HasCause (K.fault_count sink.old) (K.fault_count sink.new) result }
{
    let mut rest = bytes;
    while !rest.is_empty() {
        let count = sink.put(rest)?;
        rest = &rest[count..];
    }
    Ok(())
}
