ghost use Rattle.std.specs.Prelude.{is_some, ◌≡◌, ◌≢◌, ℕ, List, [], ◌∷◌, ◌<◌, ◌≤◌, ◌+◌, ◌-◌, ◌*◌, ◌^◌, if◌then◌else◌, ◌⊎◌, true, false, IsTrue, length, take, None, Some, IfSome, IfNone, IfOk, OnOk, OnErr, is_ok, is_err, slice_get};
ghost use Rattle.bd_limits.specs.Limits.{block_size};
ghost use Rattle.bd_io.specs.Cause.{HasCause, IsCounted, Rose};
ghost use Rattle.bd_device.specs.Calls.{faults_after, no_calls};
ghost use Rattle.bd_device.specs.Blocks.{Image, with_block, ChangesOnly};
ghost use Rattle.bd_mirror.specs.declared.halves.Halves.TheVariants.{Both, First, Second, Neither};
ghost use Rattle.bd_mirror.specs.declared.halves.Attached.TheVariants.{Nothing, Member, Pair};
ghost use Rattle.std.specs.Option.{option_map};
ghost use Rattle.bd_mirror.specs.Contents.{is_open_at, shown_together};
ghost use Rattle.bd_mirror.specs.Crashes.{IsPickOf, Stretch, GoesOn, LosesNothing};
ghost use Rattle.bd_mirror.specs.Names.{HasPlus, IsNamed, first_name, second_name, without_last, shown_for};
ghost use Rattle.bd_device.specs.Changes.{StaysBut, IsBeforeBut, IsInRange, bytes_at};
ghost use Rattle.bd_device.specs.Device.{left_now, Goes, FailsLast, Stays};
ghost use Rattle.bd_device.specs.Moments.{Nothing as Unwritten, TornAt, Elapses, IsOnly};
ghost use Rattle.bd_mirror.specs.Halves.{has_marks, IsInUse, halves_of, with_halves, uses_first, uses_second, blocks_in, EachDid, LeftOnly, AttachedTo, is_two, is_too_many};
ghost use Rattle.bd_mirror.specs.Past.{GoesAsBefore, GoesByName, MemberGoes};
ghost use Rattle.bd_mirror.specs.Since.{IsLeftOf};
ghost use Rattle.bd_mirror.specs.Sound.{AreWhole, KeepsMoments, are_told};
ghost use Rattle.bd_mirror.specs.Writing.{HasBytes, IsWithin, IsBarrier, bytes_of, contents_after, contents_with_run, run_bytes, TornBy, IsLeftBy};
ghost use Rattle.bd_mirror.specs.Calls.{blocks_now, shown_now, shown_of, IsMirror, KeepsMarks, mirror_left, LeavesImages, IsMade, LeavesWhatItShows, attached_as, AreSettled, in_use, attached_to, first_of, second_of, counts_of, moments_of, calls_of, faults_of, write_faults_of, last_of, IsFull, FirstFailed, SecondFailed, HalvesNamed, HalvesStay};

use crate::copying::{go_on_alone, is_alone, is_open, mirror_onto, open_member};
use crate::halves::{Attached, Halves};
use crate::history::{Call, History};
use crate::writing::WritingCall;
use bd_device::{Attach, BLOCK_SIZE, Counts, Device, read_blocks};
use bd_io::Failed;

/// What a mirror is made of: its halves, which of them are attached and in use, its own counts, and
/// the history of its calls.
#[derive(Drop)]
pub struct Parts<A, B> {
    pub first: A,
    pub second: B,
    pub attached: Attached,
    pub counts: Counts,
    pub history: History<A, B>,
}

impl<A, B> Parts<A, B> {
    /// These halves, with nothing attached and none of them in use.
    pub fn new(first: A, second: B) -> Parts<A, B>
        ensures first { first_of result ≡ first }
        ensures second { second_of result ≡ second }
        ensures attached { attached_to result ≡ Nothing }
        ensures counts { counts_of result ≡ no_calls }
        ensures moments { moments_of result ≡ [] }
    {
        Parts {
            first,
            second,
            attached: Attached::Nothing,
            counts: Counts::new(),
            history: History::new(),
        }
    }
}

impl<A: Device, B: Device> Parts<A, B> {
    // Reads a block of the first half in use that doesn't fail.
    fn read_halves(&mut self, b: u64, into: &mut [u8; BLOCK_SIZE]) -> Result<(), Failed>
        requires { b < blocks_in self.old.attached
            (A.block_count self.old.first) (B.block_count self.old.second) }
        ensures bytes { OnOk result (IsMirror A.Device B.Device self.old
            → IfSome (shown_now A.Device B.Device self.old)
            (λ image. slice_get image b ≡ Some into.new)) }
        ensures first_kept { A.contents self.new.first ≡ A.contents self.old.first }
        ensures second_kept { B.contents self.new.second ≡ B.contents self.old.second }
        ensures why { OnErr result (EachDid (halves_of self.old.attached)
            (FirstFailed A.Device self.old self.new) (SecondFailed B.Device self.old self.new)) }
        ensures stays { HalvesStay A.Device B.Device self.old self.new }
        ensures attached { self.new.attached ≡ self.old.attached }
        ensures first_time { Goes A.Device self.old.first self.new.first Unwritten }
        ensures second_time { Goes B.Device self.old.second self.new.second Unwritten }
        ensures marks { KeepsMarks A.Device B.Device self.old
            → KeepsMarks A.Device B.Device self.new }
        ensures counts { self.new.counts ≡ self.old.counts }
        ensures moments { self.new.history.moments ≡ self.old.history.moments }
    {
        match self.attached.halves() {
            Halves::Neither => Err(Failed),
            Halves::First => self.first.read(b, into),
            Halves::Second => self.second.read(b, into),
            Halves::Both => match self.first.read(b, into) {
                Ok(()) => Ok(()),
                Err(_) => self.second.read(b, into),
            },
        }
    }

    // Reads blocks in a row of the first half in use that doesn't fail.
    fn read_run_halves(&mut self, first: u64, into: &mut [u8], count: usize) -> Result<(), Failed>
        requires room { first + count ≤ blocks_in self.old.attached
            (A.block_count self.old.first) (B.block_count self.old.second) }
        requires fits { first + count < 2 ^ 64 }
        requires length { count * block_size ≤ length into.old }
        ensures bytes { OnOk result (IsMirror A.Device B.Device self.old
            → IfSome (shown_now A.Device B.Device self.old)
            (λ image. take (count * block_size) into.new ≡ bytes_at image first count)) }
        ensures first_kept { A.contents self.new.first ≡ A.contents self.old.first }
        ensures second_kept { B.contents self.new.second ≡ B.contents self.old.second }
        ensures why { OnErr result (EachDid (halves_of self.old.attached)
            (FirstFailed A.Device self.old self.new) (SecondFailed B.Device self.old self.new)) }
        ensures stays { HalvesStay A.Device B.Device self.old self.new }
        ensures attached { self.new.attached ≡ self.old.attached }
        ensures first_time { Goes A.Device self.old.first self.new.first Unwritten }
        ensures second_time { Goes B.Device self.old.second self.new.second Unwritten }
        ensures marks { KeepsMarks A.Device B.Device self.old
            → KeepsMarks A.Device B.Device self.new }
        ensures counts { self.new.counts ≡ self.old.counts }
        ensures moments { self.new.history.moments ≡ self.old.history.moments }
    {
        match self.attached.halves() {
            Halves::Neither => Err(Failed),
            Halves::First => read_blocks(&mut self.first, first, into, count),
            Halves::Second => read_blocks(&mut self.second, first, into, count),
            Halves::Both => match read_blocks(&mut self.first, first, into, count) {
                Ok(()) => Ok(()),
                Err(_) => read_blocks(&mut self.second, first, into, count),
            },
        }
    }

    // Makes a call of each half in use. Where one of both fails, goes on with the other one.
    fn call_halves(&mut self, call: WritingCall) -> Result<(), Failed>
        requires within { IsWithin call (blocks_in self.old.attached
            (A.block_count self.old.first) (B.block_count self.old.second)) }
        requires bytes { HasBytes call }
        ensures done { OnOk result (IsMirror A.Device B.Device self.old
            → shown_now A.Device B.Device self.new ≡ contents_after call.entry
            (bytes_of call.entry) (shown_now A.Device B.Device self.old)) }
        ensures others { OnErr result (IsMirror A.Device B.Device self.old → (bytes : ℕ → List ℕ)
            × (shown_now A.Device B.Device self.new
            ≡ contents_after call.entry bytes (shown_now A.Device B.Device self.old))) }
        ensures mirror { IsMirror A.Device B.Device self.old
            → IsMirror A.Device B.Device self.new }
        ensures durable { OnOk result (IsBarrier call.entry
            → AreSettled A.Device B.Device self.new) }
        ensures told { are_told A.Device B.Device self.new
            ≡ are_told A.Device B.Device self.old }
        ensures works { OnOk result (IsInUse (halves_of self.new.attached)) }
        ensures marks { IsMirror A.Device B.Device self.old
            → KeepsMarks A.Device B.Device self.old → KeepsMarks A.Device B.Device self.new }
        ensures inside { has_marks self.old.attached ≡ true
            → KeepsMarks A.Device B.Device self.old
            → LeavesImages A.Device B.Device self.old self.new
            (IsLeftBy call.entry (mirror_left A.Device B.Device self.old)) }
        ensures alone { is_two self.old.attached ≡ false
            → Goes A.Device self.old.first self.new.first
            (TornBy call.entry (left_now A.Device self.old.first)) }
        ensures why { OnErr result (EachDid (halves_of self.old.attached)
            (FirstFailed A.Device self.old self.new) (SecondFailed B.Device self.old self.new)) }
        ensures in_use { LeftOnly (halves_of self.old.attached) (halves_of self.new.attached)
            (FirstFailed A.Device self.old self.new) (SecondFailed B.Device self.old self.new) }
        ensures stays { HalvesStay A.Device B.Device self.old self.new }
        ensures counts { self.new.counts ≡ self.old.counts }
        ensures moments { self.new.history.moments ≡ self.old.history.moments }
    {
        match self.attached.halves() {
            Halves::Neither => Err(Failed),
            Halves::First => call.make(&mut self.first),
            Halves::Second => call.make(&mut self.second),
            Halves::Both => {
                let first = call.make(&mut self.first);
                let second = call.make(&mut self.second);
                match (first, second) {
                    (Ok(()), Ok(())) => Ok(()),
                    (Ok(()), Err(_)) => {
                        go_on_alone(&mut self.first, &mut self.attached, Halves::First)
                    }
                    (Err(_), Ok(())) => {
                        go_on_alone(&mut self.second, &mut self.attached, Halves::Second)
                    }
                    (Err(failed), Err(_)) => {
                        self.attached = self.attached.with(Halves::Neither);
                        Err(failed)
                    }
                }
            }
        }
    }
}

impl<A: Device, B: Device> Parts<A, B> {
    /// How many blocks there are.
    pub fn blocks(&self) -> u64
        ensures { result ≡ blocks_now A.Device B.Device self.now }
    {
        match self.attached {
            Attached::Nothing | Attached::Apart(_) => 0,
            Attached::Alone => self.first.blocks(),
            Attached::Member => self.first.blocks().saturating_sub(1),
            Attached::Pair(_) => self
                .first
                .blocks()
                .min(self.second.blocks())
                .saturating_sub(1),
        }
    }

    /// What each half says of its blocks.
    pub fn are_whole(&self)
        ensures { AreWhole A.Device B.Device self.now }
    {
        self.first.blocks();
        self.second.blocks();
    }

    /// Reads a block of the first half in use that doesn't fail.
    pub fn read(&mut self, b: u64, into: &mut [u8; BLOCK_SIZE]) -> Result<(), Failed>
        requires { b < blocks_now A.Device B.Device self.old }

        // A mirror reads what its halves hold, by their marks, and changes neither.
        ensures bytes { OnOk result (IsMirror A.Device B.Device self.old
            → IfSome (shown_now A.Device B.Device self.old)
            (λ image. slice_get image b ≡ Some into.new)) }
        ensures first_kept { A.contents (first_of self.new) ≡ A.contents (first_of self.old) }
        ensures second_kept { B.contents (second_of self.new) ≡ B.contents (second_of self.old) }
        ensures attached { attached_to self.new ≡ attached_to self.old }
        ensures stays { HalvesStay A.Device B.Device self.old self.new }

        // Inside it and after it a crash leaves of each half only what it could before.
        ensures first_time { Goes A.Device (first_of self.old) (first_of self.new) Unwritten }
        ensures second_time { Goes B.Device (second_of self.old) (second_of self.new) Unwritten }
        ensures marks { KeepsMarks A.Device B.Device self.old
            → KeepsMarks A.Device B.Device self.new }
        ensures noted { moments_of self.new
            ≡ (None, first_of self.old, second_of self.old) ∷ moments_of self.old }
        ensures moments { KeepsMoments self.old → KeepsMoments self.new }

        // It fails only where each half in use did, or the count of calls stands at its last value.
        ensures why { OnErr result (IsFull self.old ⊎ EachDid (in_use self.old)
            (FirstFailed A.Device self.old self.new) (SecondFailed B.Device self.old self.new)) }
        ensures cause { HasCause (faults_of self.old) (faults_of self.new) result }
        ensures faults { faults_of self.new ≡ faults_after (faults_of self.old) result }
        ensures last { last_of self.new ≡ is_err result }
        ensures write_faults { write_faults_of self.new ≡ write_faults_of self.old }
        ensures calls { IsCounted (calls_of self.old) (calls_of self.new) result }
    {
        self.history = self.history.and(&Call::Other, &self.first, &self.second);
        let result = self.read_halves(b, into);
        self.counts.settle(result.is_ok())
    }

    /// Reads blocks in a row, as one call, of the first half in use that doesn't fail.
    pub fn read_run(&mut self, first: u64, into: &mut [u8], count: usize) -> Result<(), Failed>
        requires room { first + count ≤ blocks_now A.Device B.Device self.old }
        requires fits { first + count < 2 ^ 64 }
        requires length { count * block_size ≤ length into.old }

        // It does what a read of each of them does.
        ensures bytes { OnOk result (IsMirror A.Device B.Device self.old
            → IfSome (shown_now A.Device B.Device self.old)
            (λ image. take (count * block_size) into.new ≡ bytes_at image first count)) }
        ensures first_kept { A.contents (first_of self.new) ≡ A.contents (first_of self.old) }
        ensures second_kept { B.contents (second_of self.new) ≡ B.contents (second_of self.old) }
        ensures attached { attached_to self.new ≡ attached_to self.old }
        ensures stays { HalvesStay A.Device B.Device self.old self.new }
        ensures first_time { Goes A.Device (first_of self.old) (first_of self.new) Unwritten }
        ensures second_time { Goes B.Device (second_of self.old) (second_of self.new) Unwritten }
        ensures marks { KeepsMarks A.Device B.Device self.old
            → KeepsMarks A.Device B.Device self.new }
        ensures noted { moments_of self.new
            ≡ (None, first_of self.old, second_of self.old) ∷ moments_of self.old }
        ensures moments { KeepsMoments self.old → KeepsMoments self.new }
        ensures why { OnErr result (IsFull self.old ⊎ EachDid (in_use self.old)
            (FirstFailed A.Device self.old self.new) (SecondFailed B.Device self.old self.new)) }
        ensures faults { faults_of self.new ≡ faults_after (faults_of self.old) result }
        ensures later { faults_of self.old ≤ faults_of self.new }
        ensures last { last_of self.new ≡ is_err result }
        ensures write_faults { write_faults_of self.new ≡ write_faults_of self.old }
        ensures calls { IsCounted (calls_of self.old) (calls_of self.new) result }
    {
        self.history = self.history.and(&Call::Other, &self.first, &self.second);
        let result = self.read_run_halves(first, into, count);
        self.counts.settle(result.is_ok())
    }

    /// Writes a block of each half in use.
    pub fn write(&mut self, b: u64, from: &[u8; BLOCK_SIZE]) -> Result<(), Failed>
        requires { b < blocks_now A.Device B.Device self.old }

        ensures untold { OnErr result (ChangesOnly b None None) }
        ensures failed { OnErr result (IsMirror A.Device B.Device self.old → (bytes : List ℕ)
            × (shown_now A.Device B.Device self.new
            ≡ with_block b bytes (shown_now A.Device B.Device self.old))) }

        // A mirror shows the block, where this succeeds, and stays a mirror.
        ensures written { OnOk result (IsMirror A.Device B.Device self.old
            → shown_now A.Device B.Device self.new
            ≡ with_block b from.now (shown_now A.Device B.Device self.old)) }
        ensures others { IsMirror A.Device B.Device self.old
            → StaysBut (λ i. i ≡ b) (shown_now A.Device B.Device self.old)
            (shown_now A.Device B.Device self.new) }
        ensures mirror { IsMirror A.Device B.Device self.old
            → IsMirror A.Device B.Device self.new }
        ensures told { are_told A.Device B.Device self.new
            ≡ are_told A.Device B.Device self.old }
        ensures stays { HalvesStay A.Device B.Device self.old self.new }

        // Inside it and after it each pair of images that a crash may leave of halves with marks
        // gives, by the pick in either order, an image that one could give before, or such an image
        // with the block torn. A half alone is written alone.
        ensures inside { has_marks (attached_to self.old) ≡ true
            → KeepsMarks A.Device B.Device self.old
            → LeavesImages A.Device B.Device self.old self.new
            (λ image. mirror_left A.Device B.Device self.old image
            ⊎ TornAt b (mirror_left A.Device B.Device self.old) image) }
        ensures marks { IsMirror A.Device B.Device self.old
            → KeepsMarks A.Device B.Device self.old → KeepsMarks A.Device B.Device self.new }
        ensures noted { moments_of self.new
            ≡ (None, first_of self.old, second_of self.old) ∷ moments_of self.old }
        ensures moments { KeepsMoments self.old → KeepsMoments self.new }
        ensures alone { is_two (attached_to self.old) ≡ false
            → Goes A.Device (first_of self.old) (first_of self.new)
            (TornAt b (left_now A.Device (first_of self.old))) }

        // It fails only where each half in use did, or the count of calls stands at its last value,
        // and a half goes out of use only where it did.
        ensures why { OnErr result (IsFull self.old ⊎ EachDid (in_use self.old)
            (FirstFailed A.Device self.old self.new) (SecondFailed B.Device self.old self.new)) }
        ensures in_use { LeftOnly (in_use self.old) (in_use self.new)
            (FirstFailed A.Device self.old self.new) (SecondFailed B.Device self.old self.new) }
        ensures cause { HasCause (faults_of self.old) (faults_of self.new) result }
        ensures faults { faults_of self.new ≡ faults_after (faults_of self.old) result }
        ensures last { last_of self.new ≡ is_err result }
        ensures write_faults { write_faults_of self.new
            ≡ faults_after (write_faults_of self.old) result }
        ensures calls { IsCounted (calls_of self.old) (calls_of self.new) result }
    {
        self.history = self.history.and(&Call::Other, &self.first, &self.second);
        let result = self.call_halves(WritingCall::Write(b, from));
        self.counts.settle_writing(result.is_ok())
    }

    /// Writes blocks in a row of each half in use, as one call.
    pub fn write_run(&mut self, first: u64, from: &[u8], count: usize) -> Result<(), Failed>
        requires room { first + count ≤ blocks_now A.Device B.Device self.old }
        requires fits { first + count < 2 ^ 64 }
        requires length { count * block_size ≤ length from.now }

        // A mirror shows these blocks, where this succeeds, and stays a mirror. Else they hold any
        // bytes.
        ensures written { OnOk result (IsMirror A.Device B.Device self.old
            → shown_now A.Device B.Device self.new ≡ contents_with_run first count
            (run_bytes first from.now) (shown_now A.Device B.Device self.old)) }
        ensures others { IsMirror A.Device B.Device self.old → (bytes : ℕ → List ℕ)
            × (shown_now A.Device B.Device self.new
            ≡ contents_with_run first count bytes (shown_now A.Device B.Device self.old)) }
        ensures mirror { IsMirror A.Device B.Device self.old
            → IsMirror A.Device B.Device self.new }
        ensures told { are_told A.Device B.Device self.new
            ≡ are_told A.Device B.Device self.old }
        ensures stays { HalvesStay A.Device B.Device self.old self.new }

        // Inside it and after it each pair of images that a crash may leave of halves with marks
        // gives, by the pick in either order, an image that one could give before, or such an image
        // with these blocks torn. A half alone is written alone.
        ensures inside { has_marks (attached_to self.old) ≡ true
            → KeepsMarks A.Device B.Device self.old
            → LeavesImages A.Device B.Device self.old self.new
            (λ image. mirror_left A.Device B.Device self.old image
            ⊎ IsBeforeBut (IsInRange first (first + count))
            (mirror_left A.Device B.Device self.old) image) }
        ensures marks { IsMirror A.Device B.Device self.old
            → KeepsMarks A.Device B.Device self.old → KeepsMarks A.Device B.Device self.new }
        ensures noted { moments_of self.new
            ≡ (None, first_of self.old, second_of self.old) ∷ moments_of self.old }
        ensures moments { KeepsMoments self.old → KeepsMoments self.new }
        ensures alone { is_two (attached_to self.old) ≡ false
            → Goes A.Device (first_of self.old) (first_of self.new)
            (IsBeforeBut (IsInRange first (first + count))
            (left_now A.Device (first_of self.old))) }

        // It fails as a write does.
        ensures why { OnErr result (IsFull self.old ⊎ EachDid (in_use self.old)
            (FirstFailed A.Device self.old self.new) (SecondFailed B.Device self.old self.new)) }
        ensures in_use { LeftOnly (in_use self.old) (in_use self.new)
            (FirstFailed A.Device self.old self.new) (SecondFailed B.Device self.old self.new) }
        ensures faults { faults_of self.new ≡ faults_after (faults_of self.old) result }
        ensures later { faults_of self.old ≤ faults_of self.new }
        ensures last { last_of self.new ≡ is_err result }
        ensures write_faults { write_faults_of self.new
            ≡ faults_after (write_faults_of self.old) result }
        ensures calls { IsCounted (calls_of self.old) (calls_of self.new) result }
    {
        self.history = self.history.and(&Call::Other, &self.first, &self.second);
        let result = self.call_halves(WritingCall::Run(first, from, count));
        self.counts.settle_writing(result.is_ok())
    }

    /// Waits until all that was written is kept in each half in use.
    pub fn barrier(&mut self) -> Result<(), Failed>

        // A mirror shows what it showed, and of each half in use a crash leaves only what it holds.
        ensures kept { IsMirror A.Device B.Device self.old
            → shown_now A.Device B.Device self.new ≡ shown_now A.Device B.Device self.old }
        ensures mirror { IsMirror A.Device B.Device self.old
            → IsMirror A.Device B.Device self.new }
        ensures told { are_told A.Device B.Device self.new
            ≡ are_told A.Device B.Device self.old }
        ensures durable { OnOk result (AreSettled A.Device B.Device self.new) }
        ensures stays { HalvesStay A.Device B.Device self.old self.new }

        // Inside it and after it a crash leaves of halves with marks, by the pick in either order,
        // only what it could before, and where it succeeded just what the mirror shows.
        ensures inside { has_marks (attached_to self.old) ≡ true
            → KeepsMarks A.Device B.Device self.old
            → LeavesImages A.Device B.Device self.old self.new
            (mirror_left A.Device B.Device self.old) }
        ensures marks { IsMirror A.Device B.Device self.old
            → KeepsMarks A.Device B.Device self.old → KeepsMarks A.Device B.Device self.new }
        ensures left { OnOk result (IsMirror A.Device B.Device self.old
            → KeepsMarks A.Device B.Device self.old
            → LeavesWhatItShows A.Device B.Device self.new) }
        ensures noted { moments_of self.new
            ≡ (None, first_of self.old, second_of self.old) ∷ moments_of self.old }
        ensures moments { KeepsMoments self.old → KeepsMoments self.new }
        ensures alone { is_two (attached_to self.old) ≡ false
            → Goes A.Device (first_of self.old) (first_of self.new) Unwritten }

        // It fails as a write does.
        ensures why { OnErr result (IsFull self.old ⊎ EachDid (in_use self.old)
            (FirstFailed A.Device self.old self.new) (SecondFailed B.Device self.old self.new)) }
        ensures in_use { LeftOnly (in_use self.old) (in_use self.new)
            (FirstFailed A.Device self.old self.new) (SecondFailed B.Device self.old self.new) }
        ensures cause { HasCause (faults_of self.old) (faults_of self.new) result }
        ensures faults { faults_of self.new ≡ faults_after (faults_of self.old) result }
        ensures last { last_of self.new ≡ is_err result }
        ensures write_faults { write_faults_of self.new
            ≡ faults_after (write_faults_of self.old) result }
        ensures calls { IsCounted (calls_of self.old) (calls_of self.new) result }
    {
        self.history = self.history.and(&Call::Other, &self.first, &self.second);
        let result = self.call_halves(WritingCall::Barrier);
        self.counts.settle_writing(result.is_ok())
    }
}

impl<A: Attach, B: Attach> Parts<A, B> {
    // Takes the images of this name: what is attached then.
    fn attach_halves(&mut self, name: &str, create: Option<u64>) -> Result<Attached, Failed>
        ensures attached { IfOk result (λ at. AttachedTo at
            (FirstFailed A.Device self.old self.new) (SecondFailed B.Device self.old self.new)) }
        ensures made { IfOk result (λ at. IfSome create (λ n. blocks_in at
            (A.block_count (first_of self.new)) (B.block_count (second_of self.new)) ≡ n)) }
        ensures told { OnOk result (IfSome create (λ _. are_told A.Device B.Device self.new
            ≡ are_told A.Device B.Device self.old)) }
        ensures second_kept { (HasPlus name.now → second_name name.now ≡ [])
            → second_of self.new ≡ second_of self.old }
        ensures named { IfOk result (λ at. IsNamed name.now at
            (A.block_count (first_of self.new)) (B.block_count (second_of self.new))) }
        ensures halves { OnOk result (HalvesNamed A.Device B.Device name.now self.new) }
        ensures mirror { IfOk result (λ at. IsMade A.Device B.Device (attached_as at self.new)) }
        ensures opened { IfOk result (λ at. at ≡ Member → 0 < A.block_count (first_of self.new)
            → IfSome (A.contents (first_of self.new))
            (λ image. is_open_at (A.block_count (first_of self.new) - 1) image ≡ true)) }
        ensures shown { IfOk result (λ at. IfNone create
            (shown_now A.Device B.Device (attached_as at self.new)
            ≡ shown_of A.Device B.Device (attached_as at self.new)
            (A.shows (first_of self.old) (first_name name.now))
            (B.shows (second_of self.old) (second_name name.now)))) }
        ensures inside { IfNone create (HasPlus name.now → second_name name.now ≢ []
            → LosesNothing
            (λ d. A.shows d (first_name name.now)) (λ d. B.shows d (second_name name.now))
            (λ d. A.left_behind d (first_name name.now))
            (λ d. B.left_behind d (second_name name.now))
            (λ d. A.call_count d) (λ d. B.call_count d)
            (first_of self.old) (second_of self.old) (first_of self.new) (second_of self.new)) }
        ensures by_name { IfNone create (GoesByName name.now
            (A.shows (first_of self.old) (first_name name.now))
            (B.shows (second_of self.old) (second_name name.now))
            (λ d. A.left_behind d (first_name name.now))
            (λ d. B.left_behind d (second_name name.now))
            (λ d. A.call_count d) (λ d. B.call_count d)
            (first_of self.old) (second_of self.old) (first_of self.new) (second_of self.new)) }
        ensures behind { IfNone create (shown_for name.now
            (A.shows (first_of self.new) (first_name name.now))
            (B.shows (second_of self.new) (second_name name.now))
            ≡ shown_for name.now
            (A.shows (first_of self.old) (first_name name.now))
            (B.shows (second_of self.old) (second_name name.now))) }
        ensures why { OnErr result ((is_too_many create ≡ true)
            ⊎ FirstFailed A.Device self.old self.new ⊎ SecondFailed B.Device self.old self.new) }
        ensures same { attached_to self.new ≡ attached_to self.old }
        ensures counts { counts_of self.new ≡ counts_of self.old }
        ensures moments { moments_of self.new ≡ moments_of self.old }
    {
        match name.split_once('+') {
            None => {
                self.first.attach(name, create)?;
                Ok(Attached::Alone)
            }
            Some((first, second)) => {
                let size = with_mark(create)?;
                if second.is_empty() {
                    self.attach_member(first, size)?;
                    Ok(Attached::Member)
                } else {
                    self.attach_pair(first, second, size)
                }
            }
        }
    }

    // Takes an image of the first half, and opens its mark.
    fn attach_member(&mut self, name: &str, size: Option<u64>) -> Result<(), Failed>
        ensures made { OnOk result
            (IfSome size (λ n. A.block_count (first_of self.new) ≡ n)) }
        ensures shown { OnOk result (IfNone size
            (StaysBut (λ i. i ≡ A.block_count (first_of self.new) - 1)
            (A.shows (first_of self.old) name.now) (A.contents (first_of self.new)))) }
        ensures behind { IfNone size
            (option_map without_last (A.shows (first_of self.new) name.now)
            ≡ option_map without_last (A.shows (first_of self.old) name.now)) }
        ensures by_name { IfNone size ((x : Image)
            → A.shows (first_of self.old) name.now ≡ Some x
            → MemberGoes (λ d. A.left_behind d name.now) (λ d. A.call_count d)
            (take (length x - 1)) (first_of self.old) (first_of self.new)) }
        ensures told { OnOk result (IfSome size (λ _. is_some (A.contents (first_of self.new))
            ≡ is_some (A.contents (first_of self.old)))) }
        ensures named { OnOk result (A.is_named (first_of self.new) name.now) }
        ensures opened { OnOk result (0 < A.block_count (first_of self.new)
            → IfSome (A.contents (first_of self.new))
            (λ image. is_open_at (A.block_count (first_of self.new) - 1) image ≡ true)) }
        ensures why { OnErr result (FirstFailed A.Device self.old self.new) }
        ensures after { self.new ≡ record self.old { first = first_of self.new } }
    {
        self.first.attach(name, size)?;
        self.first.barrier()?;
        open_member(&mut self.first)
    }

    // Takes the images of both halves, and makes one a copy of the other where they have marks.
    fn attach_pair(
        &mut self,
        first: &str,
        second: &str,
        size: Option<u64>,
    ) -> Result<Attached, Failed>
        ensures attached { IfOk result (λ at. AttachedTo at
            (FirstFailed A.Device self.old self.new) (SecondFailed B.Device self.old self.new)) }
        ensures two { IfOk result (λ at. is_two at ≡ true) }
        ensures told { OnOk result (IfSome size (λ _. are_told A.Device B.Device self.new
            ≡ are_told A.Device B.Device self.old)) }
        ensures first_named { OnOk result (A.is_named (first_of self.new) first.now) }
        ensures second_named { OnOk result (B.is_named (second_of self.new) second.now) }
        ensures marks { IfOk result (λ at. 0 < A.block_count (first_of self.new)
            → A.block_count (first_of self.new) ≡ B.block_count (second_of self.new)
            → has_marks at ≡ true) }
        ensures equal { IfOk result (λ at. has_marks at ≡ true
            → A.block_count (first_of self.new) ≡ B.block_count (second_of self.new)) }
        ensures mirror { IfOk result (λ at. IsMade A.Device B.Device (attached_as at self.new)) }
        ensures shown { IfOk result (λ at. IfNone size
            (shown_now A.Device B.Device (attached_as at self.new)
            ≡ shown_of A.Device B.Device (attached_as at self.new)
            (A.shows (first_of self.old) first.now) (B.shows (second_of self.old) second.now))) }
        ensures inside { IfNone size (LosesNothing
            (λ d. A.shows d first.now) (λ d. B.shows d second.now)
            (λ d. A.left_behind d first.now) (λ d. B.left_behind d second.now)
            (λ d. A.call_count d) (λ d. B.call_count d)
            (first_of self.old) (second_of self.old) (first_of self.new) (second_of self.new)) }
        ensures by_names { IfNone size ((x y : Image)
            → A.shows (first_of self.old) first.now ≡ Some x
            → B.shows (second_of self.old) second.now ≡ Some y
            → 0 < length x → length x ≡ length y → GoesAsBefore
            (λ d. A.left_behind d first.now) (λ d. B.left_behind d second.now)
            (λ d. A.call_count d) (λ d. B.call_count d)
            (IsLeftOf (Pair Both) (length x) (length x))
            (first_of self.old) (second_of self.old) (first_of self.new) (second_of self.new)) }
        ensures behind { IfNone size (shown_together
            (A.shows (first_of self.new) first.now) (B.shows (second_of self.new) second.now)
            ≡ shown_together
            (A.shows (first_of self.old) first.now) (B.shows (second_of self.old) second.now)) }
        ensures made { IfOk result (λ at. IfSome size (λ n. blocks_in at
            (A.block_count (first_of self.new)) (B.block_count (second_of self.new)) ≡ n - 1)) }
        ensures why { OnErr result (FirstFailed A.Device self.old self.new
            ⊎ SecondFailed B.Device self.old self.new) }
        ensures same { attached_to self.new ≡ attached_to self.old }
        ensures counts { counts_of self.new ≡ counts_of self.old }
        ensures moments { moments_of self.new ≡ moments_of self.old }
    {
        self.first.attach(first, size)?;
        self.second.attach(second, size)?;
        self.first.barrier()?;
        self.second.barrier()?;
        self.join()
    }
}

impl<A: Device, B: Device> Parts<A, B> {
    // Makes one of two halves a copy of the other where they have marks: the source is the one
    // whose mark alone is open, else the first one.
    fn join(&mut self) -> Result<Attached, Failed>
        requires first_settled { 0 < A.block_count (first_of self.old)
            → IsOnly (A.contents (first_of self.old)) (left_now A.Device (first_of self.old)) }
        requires second_settled { 0 < B.block_count (second_of self.old)
            → IsOnly (B.contents (second_of self.old)) (left_now B.Device (second_of self.old)) }
        ensures attached { IfOk result (λ at. AttachedTo at
            (FirstFailed A.Device self.old self.new) (SecondFailed B.Device self.old self.new)) }
        ensures pair { IfOk result (λ at. is_two at ≡ true) }
        ensures marks { IfOk result (λ at. 0 < A.block_count (first_of self.old)
            → A.block_count (first_of self.old) ≡ B.block_count (second_of self.old)
            → has_marks at ≡ true) }
        ensures equal { IfOk result (λ at. has_marks at ≡ true
            → A.block_count (first_of self.old) ≡ B.block_count (second_of self.old)) }
        ensures mirror { IfOk result (λ at. IsMade A.Device B.Device (attached_as at self.new)) }
        ensures shown { IfOk result (λ at. shown_now A.Device B.Device (attached_as at self.new)
            ≡ shown_now A.Device B.Device (attached_as at self.old)) }
        ensures first_holds { 0 < A.block_count (first_of self.old)
            → A.block_count (first_of self.old) ≡ B.block_count (second_of self.old)
            → IfSome (A.contents (first_of self.old)) (left_now A.Device (first_of self.old)) }
        ensures second_holds { 0 < A.block_count (first_of self.old)
            → A.block_count (first_of self.old) ≡ B.block_count (second_of self.old)
            → IfSome (B.contents (second_of self.old)) (left_now B.Device (second_of self.old)) }
        ensures inside { 0 < A.block_count (first_of self.old)
            → A.block_count (first_of self.old) ≡ B.block_count (second_of self.old)
            → (a b : Image) → A.contents (first_of self.old) ≡ Some a
            → B.contents (second_of self.old) ≡ Some b → GoesOn (Stretch A.Device B.Device
            (IsPickOf (A.block_count (first_of self.old) - 1) a b))
            (first_of self.old) (second_of self.old) (first_of self.new) (second_of self.new) }
        ensures made { IfOk result (λ at. A.block_count (first_of self.old)
            ≡ B.block_count (second_of self.old) → blocks_in at
            (A.block_count (first_of self.new)) (B.block_count (second_of self.new))
            ≡ A.block_count (first_of self.old) - 1) }
        ensures why { OnErr result (FirstFailed A.Device self.old self.new
            ⊎ SecondFailed B.Device self.old self.new) }
        ensures behind { shown_together
            (A.contents (first_of self.new)) (B.contents (second_of self.new))
            ≡ shown_together
            (A.contents (first_of self.old)) (B.contents (second_of self.old)) }
        ensures first_stays { Stays A.Device (first_of self.old) (first_of self.new) }
        ensures second_stays { Stays B.Device (second_of self.old) (second_of self.new) }
        ensures first_later { A.fault_count (first_of self.old)
            ≤ A.fault_count (first_of self.new) }
        ensures second_later { B.fault_count (second_of self.old)
            ≤ B.fault_count (second_of self.new) }
        ensures same { attached_to self.new ≡ attached_to self.old }
        ensures counts { counts_of self.new ≡ counts_of self.old }
        ensures moments { moments_of self.new ≡ moments_of self.old }
    {
        let blocks = self.first.blocks();
        if blocks == 0 || blocks != self.second.blocks() {
            return Ok(Attached::Apart(Halves::Both));
        }
        let mark = blocks - 1;
        let first_open = is_open(&mut self.first, mark)?;
        let second_open = is_open(&mut self.second, mark)?;
        if is_alone(second_open, first_open) {
            if mirror_onto(
                &mut self.second,
                &mut self.first,
                mark,
                second_open,
                first_open,
            )? {
                return Ok(Attached::Pair(Halves::Both));
            }
            return Ok(Attached::Pair(Halves::Second));
        }
        if mirror_onto(
            &mut self.first,
            &mut self.second,
            mark,
            first_open,
            second_open,
        )? {
            return Ok(Attached::Pair(Halves::Both));
        }
        Ok(Attached::Pair(Halves::First))
    }
}

// The size of a member of a mirror of so many blocks.
fn with_mark(create: Option<u64>) -> Result<Option<u64>, Failed>
    ensures fails { is_err result ≡ is_too_many create }
    ensures more { IfOk result (λ size. size ≡ option_map (λ n. n + 1) create) }
{
    match create {
        None => Ok(None),
        Some(u64::MAX) => Err(Failed),
        Some(count) => Ok(Some(count + 1)),
    }
}

impl<A: Attach, B: Attach> Parts<A, B> {
    /// Takes the images of this name.
    pub fn attach(&mut self, name: &str, create: Option<u64>) -> Result<(), Failed>
        ensures made { OnOk result
            (IfSome create (λ n. blocks_now A.Device B.Device self.new ≡ n)) }
        ensures told { OnOk result (IfSome create (λ _. are_told A.Device B.Device self.new
            ≡ are_told A.Device B.Device self.old)) }
        ensures second_kept { (HasPlus name.now → second_name name.now ≡ [])
            → second_of self.new ≡ second_of self.old }
        ensures detached { OnErr result (attached_to self.new ≡ Nothing) }

        // The name says what is attached, and that is a mirror, also after a crash: each pair of
        // images that one may leave gives what the mirror shows. With `None` that is what its
        // halves showed, by the pick.
        ensures named { OnOk result (IsNamed name.now (attached_to self.new)
            (A.block_count (first_of self.new)) (B.block_count (second_of self.new))) }
        ensures halves { OnOk result (HalvesNamed A.Device B.Device name.now self.new) }
        ensures mirror { OnOk result (IsMirror A.Device B.Device self.new) }
        ensures left { OnOk result (LeavesWhatItShows A.Device B.Device self.new) }
        ensures marks { OnOk result (KeepsMarks A.Device B.Device self.new) }
        ensures noted { moments_of self.new ≡ (
          Some (name.now, create),
          first_of self.old,
          second_of self.old,
        ) ∷ moments_of self.old }
        ensures moments { KeepsMoments self.old → KeepsMoments self.new }
        ensures shows { OnOk result (IfNone create (shown_now A.Device B.Device self.new
            ≡ shown_of A.Device B.Device self.new
            (A.shows (first_of self.old) (first_name name.now))
            (B.shows (second_of self.old) (second_name name.now)))) }

        // With `None` it leaves what the mirror shows for that name, also where it fails.
        ensures behind { IfNone create (shown_for name.now
            (A.shows (first_of self.new) (first_name name.now))
            (B.shows (second_of self.new) (second_name name.now))
            ≡ shown_for name.now
            (A.shows (first_of self.old) (first_name name.now))
            (B.shows (second_of self.old) (second_name name.now))) }

        // Inside an attach of two halves with `None`, and after it, also where it fails, a crash
        // loses nothing of what they showed.
        ensures inside { IfNone create (HasPlus name.now → second_name name.now ≢ []
            → LosesNothing
            (λ d. A.shows d (first_name name.now)) (λ d. B.shows d (second_name name.now))
            (λ d. A.left_behind d (first_name name.now))
            (λ d. B.left_behind d (second_name name.now))
            (λ d. A.call_count d) (λ d. B.call_count d)
            (first_of self.old) (second_of self.old) (first_of self.new) (second_of self.new)) }

        // Of the image of that name a crash might then have left, since each earlier call, what it
        // might have left before, whatever was attached in between: by what a crash left of the
        // images of the halves' names at each moment, also inside this attach, and also where it
        // fails.
        ensures by_name { IfNone create (GoesByName name.now
            (A.shows (first_of self.old) (first_name name.now))
            (B.shows (second_of self.old) (second_name name.now))
            (λ d. A.left_behind d (first_name name.now))
            (λ d. B.left_behind d (second_name name.now))
            (λ d. A.call_count d) (λ d. B.call_count d)
            (first_of self.old) (second_of self.old) (first_of self.new) (second_of self.new)) }

        // The first half of `X+` has its mark open.
        ensures opened { OnOk result (attached_to self.new ≡ Member
            → 0 < A.block_count (first_of self.new) → IfSome (A.contents (first_of self.new))
            (λ image. is_open_at (A.block_count (first_of self.new) - 1) image ≡ true)) }

        // Each half that is attached is in use, unless it counted a fault.
        ensures attached { OnOk result (AttachedTo (attached_to self.new)
            (FirstFailed A.Device self.old self.new) (SecondFailed B.Device self.old self.new)) }

        // It fails only where a half did, the mirror has as many blocks as a u64 can say, or the
        // count of calls stands at its last value.
        ensures why { OnErr result (IsFull self.old ⊎ (is_too_many create ≡ true)
            ⊎ FirstFailed A.Device self.old self.new ⊎ SecondFailed B.Device self.old self.new) }
        ensures cause { HasCause (faults_of self.old) (faults_of self.new) result }
        ensures faults { faults_of self.new ≡ faults_after (faults_of self.old) result }
        ensures last { last_of self.new ≡ is_err result }
        ensures write_faults { write_faults_of self.new ≡ write_faults_of self.old }
        ensures calls { IsCounted (calls_of self.old) (calls_of self.new) result }
    {
        let call = Call::Attach(name, create);
        self.history = self.history.and(&call, &self.first, &self.second);
        self.attached = Attached::Nothing;
        let attached = self.attach_halves(name, create);
        self.counts.settle(attached.is_ok())?;
        if let Ok(attached) = attached {
            self.attached = attached;
        }
        Ok(())
    }
}
