ghost use Rattle.std.specs.Prelude.{◌≡◌};
ghost use Rattle.bd_device.specs.Calls.{no_calls};
ghost use Rattle.bd_mirror.specs.Calls.{first_of, second_of, attached_to, counts_of, moments_of};
ghost use Rattle.bd_mirror.specs.declared.halves.Attached.TheVariants.{Nothing};

use crate::parts::Parts;
use bd_device::{Attach, BLOCK_SIZE, Device};
use bd_io::Failed;
use std::marker::Model;

/// A device over two others, its halves, which keeps what it is given on both. A name without `+`
/// is the first half alone, `X+Y` are both halves, the name cut at the first `+`, and `X+` is the
/// first half alone, kept so that a second one can be added. A half of `X+Y` and that of `X+` have
/// one block more than the mirror, the last one, its mark: it is open exactly where its first byte
/// is 1. The mirror has no blocks where a half has none, or where two differ in their blocks, and
/// then there are no marks.
///
/// A read asks the halves in use, the first one first. A write and a barrier go to each; where one
/// of two fails, the mark of the other is opened before the call returns, and the one that failed
/// is out of use until the next attach. Where both fail, or that mark does, the mirror is broken:
/// this and each later call but an attach fails. A half alone stays in use when it fails.
///
/// The counts are the mirror's own; blocks that are read or written in a row are one call, of the
/// mirror and of each half. No call takes memory.
#[derive(Drop)]
pub struct Mirror<A: Attach, B: Attach> {
    parts: Parts<A, B>,
}

impl<A: Attach, B: Attach> Model for Mirror<A, B> {
    ghost use Rattle.bd_mirror.specs.declared.parts.Parts.{Parts};
    ghost use Rattle.bd_mirror.specs.Sound.{IsSound};

    ghost Value = { Parts A B };

    ghost view = { λ m. m.parts };

    ghost invariant = { λ m. IsSound A.Device B.Device m.parts };
}

impl<A: Attach, B: Attach> Mirror<A, B> {
    ghost use Rattle.std.specs.Prelude.{[]};

    /// A mirror of these halves, with nothing attached and none of them in use.
    pub fn new(first: A, second: B) -> Mirror<A, B>
        ensures first { first_of result ≡ first }
        ensures second { second_of result ≡ second }
        ensures attached { attached_to result ≡ Nothing }
        ensures counts { counts_of result ≡ no_calls }
        ensures moments { moments_of result ≡ [] }
    {
        let parts = Parts::new(first, second);
        parts.are_whole();
        Mirror { parts }
    }
}

impl<A: Attach, B: Attach> Device for Mirror<A, B> {
    ghost use Rattle.std.specs.Prelude.{ℕ, ◌+◌, ◌*◌, ◌^◌, ◌<◌, ◌≤◌, List, IfSome, IsTrue, OnOk, OnErr, is_ok, length, take};
    ghost use Rattle.bd_limits.specs.Limits.{block_size};
    ghost use Rattle.bd_device.specs.Calls.{faults_after};
    ghost use Rattle.bd_device.specs.Changes.{StaysBut, IsBeforeBut, IsInRange, bytes_at};
    ghost use Rattle.bd_device.specs.Moments.{Elapses, Nothing as Unwritten};
    ghost use Rattle.bd_mirror.specs.Calls.{blocks_now, faults_of, write_faults_of, calls_of, last_of};
    ghost use Rattle.bd_mirror.specs.Did.{MirrorDid};
    ghost use Rattle.bd_mirror.specs.Laws.{earlier_law};
    ghost use Rattle.bd_mirror.specs.Sound.{mirror_contents, mirror_since, GoesBy};

    ghost block_count = { blocks_now A.Device B.Device };

    ghost contents = { mirror_contents A.Device B.Device };

    ghost fault_count = { faults_of };

    ghost write_fault_count = { write_faults_of };

    ghost call_count = { calls_of };

    ghost last_failed = { last_of };

    ghost left_since = { mirror_since A.Device B.Device A.shows B.shows A.left_behind
        B.left_behind };

    ghost is_named = { GoesBy A.Device B.Device };

    ghost also = { MirrorDid A.Device B.Device A.shows B.shows A.left_behind B.left_behind };

    ghost since_earlier = { earlier_law A.Device.own B.Device.own A.shows B.shows A.left_behind
        B.left_behind };

    fn blocks(&self) -> u64 {
        self.parts.blocks()
    }

    fn read(&mut self, b: u64, into: &mut [u8; BLOCK_SIZE]) -> Result<(), Failed> {
        let result = self.parts.read(b, into);
        self.parts.are_whole();
        result
    }

    fn write(&mut self, b: u64, from: &[u8; BLOCK_SIZE]) -> Result<(), Failed> {
        let result = self.parts.write(b, from);
        self.parts.are_whole();
        result
    }

    /// Reads so many blocks, from block `first` on, into the front of `into`, as one call, which
    /// fails only where a read does.
    fn read_run(&mut self, first: u64, into: &mut [u8], count: usize) -> Result<(), Failed>
        requires room { first + count ≤ blocks_now A.Device B.Device self.old }
        requires fits { first + count < 2 ^ 64 }
        requires length { count * block_size ≤ length into.old }
        ensures bytes { OnOk result (IfSome (mirror_contents A.Device B.Device self.old)
            (λ image. take (count * block_size) into.new ≡ bytes_at image first count)) }
        ensures kept { mirror_contents A.Device B.Device self.new
            ≡ mirror_contents A.Device B.Device self.old }
        ensures count { blocks_now A.Device B.Device self.new
            ≡ blocks_now A.Device B.Device self.old }
        ensures faults { faults_of self.new ≡ faults_after (faults_of self.old) result }
        ensures later { faults_of self.old ≤ faults_of self.new }
        ensures last { OnErr result (IsTrue (last_of self.new)) }
        ensures write_faults { write_faults_of self.new ≡ write_faults_of self.old }
        ensures time { Elapses (calls_of self.old) (calls_of self.new)
            (mirror_since A.Device B.Device A.shows B.shows A.left_behind B.left_behind self.old)
            (mirror_since A.Device B.Device A.shows B.shows A.left_behind B.left_behind self.new)
            Unwritten }
        ensures same_name { (name : List ℕ) → GoesBy A.Device B.Device self.old name
            → GoesBy A.Device B.Device self.new name }
        ensures also { MirrorDid A.Device B.Device A.shows B.shows A.left_behind B.left_behind
            self.old self.new (is_ok result) }
    {
        let result = self.parts.read_run(first, into, count);
        self.parts.are_whole();
        result
    }

    /// Writes so many blocks, from block `first` on, of the front of `from`, as one call, which
    /// fails only where a write does. These blocks then hold any bytes.
    fn write_run(&mut self, first: u64, from: &[u8], count: usize) -> Result<(), Failed>
        requires room { first + count ≤ blocks_now A.Device B.Device self.old }
        requires fits { first + count < 2 ^ 64 }
        requires length { count * block_size ≤ length from.now }
        ensures written { OnOk result (IfSome (mirror_contents A.Device B.Device self.new)
            (λ image. bytes_at image first count ≡ take (count * block_size) from.now)) }
        ensures others { StaysBut (IsInRange first (first + count))
            (mirror_contents A.Device B.Device self.old)
            (mirror_contents A.Device B.Device self.new) }
        ensures count { blocks_now A.Device B.Device self.new
            ≡ blocks_now A.Device B.Device self.old }
        ensures faults { faults_of self.new ≡ faults_after (faults_of self.old) result }
        ensures later { faults_of self.old ≤ faults_of self.new }
        ensures last { OnErr result (IsTrue (last_of self.new)) }
        ensures write_faults { write_faults_of self.new
            ≡ faults_after (write_faults_of self.old) result }
        ensures time { Elapses (calls_of self.old) (calls_of self.new)
            (mirror_since A.Device B.Device A.shows B.shows A.left_behind B.left_behind self.old)
            (mirror_since A.Device B.Device A.shows B.shows A.left_behind B.left_behind self.new)
            (IsBeforeBut (IsInRange first (first + count)) (mirror_since A.Device B.Device
            A.shows B.shows A.left_behind B.left_behind self.old (calls_of self.old))) }
        ensures same_name { (name : List ℕ) → GoesBy A.Device B.Device self.old name
            → GoesBy A.Device B.Device self.new name }
        ensures also { MirrorDid A.Device B.Device A.shows B.shows A.left_behind B.left_behind
            self.old self.new (is_ok result) }
    {
        let result = self.parts.write_run(first, from, count);
        self.parts.are_whole();
        result
    }

    fn barrier(&mut self) -> Result<(), Failed> {
        let result = self.parts.barrier();
        self.parts.are_whole();
        result
    }

    fn faults(&self) -> u64 {
        self.parts.counts.faults
    }

    fn write_faults(&self) -> u64 {
        self.parts.counts.write_faults
    }

    fn calls(&self) -> u64 {
        self.parts.counts.calls
    }
}

impl<A: Attach, B: Attach> Attach for Mirror<A, B> {
    ghost use Rattle.bd_mirror.specs.Laws.{shows_law, left_law};
    ghost use Rattle.bd_mirror.specs.Sound.{mirror_shows, IsLeftBehind};

    ghost shows = { mirror_shows B.Device A.shows B.shows };

    ghost left_behind = { IsLeftBehind A.Device B.Device A.shows B.shows A.left_behind
        B.left_behind };

    ghost shows_named = { shows_law A.Device.own B.Device.own A.shows B.shows A.shows_named
        B.shows_named };

    ghost left_named = { left_law A.Device.own B.Device.own A.shows B.shows A.left_behind
        B.left_behind };

    fn attach(&mut self, name: &str, create: Option<u64>) -> Result<(), Failed> {
        let result = self.parts.attach(name, create);
        self.parts.are_whole();
        result
    }
}
