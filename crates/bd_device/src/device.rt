ghost use Rattle.std.specs.Prelude.{◌≡◌, ◌<◌, ◌+◌, ◌*◌, ◌^◌, ⊤, ℕ, List, Option, Some, IfSome, IfNone, IsTrue, is_some, [], ◌∷◌, OnOk, OnErr, length, take, slice_get, ◌≤◌, ◌↔◌, Bool, is_ok, is_err};
ghost use Rattle.bd_io.specs.Cause.{HasCause, IsCounted};
ghost use Rattle.bd_limits.specs.Limits.{block_size};
ghost use Rattle.bd_device.specs.Blocks.{Image, HasBlocks, with_block, ChangesOnly};
ghost use Rattle.bd_device.specs.Calls.{faults_after};
ghost use Rattle.bd_device.specs.Changes.{StaysBut, IsBeforeBut, IsInRange, bytes_at};
ghost use Rattle.bd_device.specs.Moments.{Nothing, TornAt, Elapses, IsOnly};

use crate::blocks::{nth_block, put};
use bd_io::Failed;
use bd_limits::BLOCK_SIZE;

/// A device of numbered blocks. Its counts never fall, and each stays at a u64's last value. A call
/// that fails counts one fault.
pub trait Device {
    /// How many blocks it has.
    ghost block_count: { Self → ℕ };

    /// What a read of each block gives, where that is known.
    ghost contents: { Self → Option Image };

    /// How often it has failed.
    ghost fault_count: { Self → ℕ };

    /// How often a write or a barrier has failed.
    ghost write_fault_count: { Self → ℕ };

    /// How many reads, writes, barriers and attaches there were, also those that failed.
    ghost call_count: { Self → ℕ };

    /// Whether the last of them failed.
    ghost last_failed: { Self → Bool };

    /// A crash at some moment after the device's first `t` calls, also inside a later call, might
    /// have left this image. So a crash now may leave what is left since the count of calls today.
    /// Of a device whose contents aren't known nothing is said.
    ghost left_since: { Self → ℕ → Image → Type 0 } = { λ _ _ _. ⊥ };

    /// The image that is attached goes by this name.
    ghost is_named: { Self → List ℕ → Type 0 } = { λ _ _. ⊥ };

    /// The loans through which calls reach the device, the outermost first: none for the device
    /// itself.
    ghost loans: { Self → List ℕ } = { λ _. [] };

    /// What else a read, a write, a barrier or an attach of this device does, from before it to
    /// after it, and whether it was Ok. In general nothing is said.
    ghost also: { Self → Self → Bool → Type 0 } = { λ _ _ _. ⊤ };

    /// How many blocks it has. Only an attach changes it.
    fn blocks(&self) -> u64
        ensures count { result ≡ block_count self.now }
        ensures shape { IfSome (contents self.now) (HasBlocks (block_count self.now)) }

        // A crash may leave what reads give, and only images of as many whole blocks.
        ensures may_stay { 0 < block_count self.now
            → IfSome (contents self.now) (left_since self.now (call_count self.now)) }
        ensures crash_shape { 0 < block_count self.now → (c : Image)
            → left_since self.now (call_count self.now) c → HasBlocks (block_count self.now) c };

    /// Reads block `b` into `into`. `Failed` comes only where the count of faults rose in this call
    /// or stands at its last value; `into` then holds any bytes.
    fn read(&mut self, b: u64, into: &mut [u8; BLOCK_SIZE]) -> Result<(), Failed>
        requires { b < block_count self.old }
        ensures bytes { OnOk result
            (IfSome (contents self.old) (λ image. slice_get image b ≡ Some into.new)) }
        ensures kept { contents self.new ≡ contents self.old }
        ensures count { block_count self.new ≡ block_count self.old }
        ensures cause { HasCause (fault_count self.old) (fault_count self.new) result }
        ensures faults { fault_count self.new ≡ faults_after (fault_count self.old) result }
        ensures last { last_failed self.new ≡ is_err result }
        ensures write_faults { write_fault_count self.new ≡ write_fault_count self.old }
        ensures calls { IsCounted (call_count self.old) (call_count self.new) result }
        ensures time { Elapses (call_count self.old) (call_count self.new)
            (left_since self.old) (left_since self.new) Nothing }
        ensures same_name { (name : List ℕ) → is_named self.old name → is_named self.new name }
        ensures same_loans { loans self.new ≡ loans self.old }
        ensures also { also self.old self.new (is_ok result) };

    /// Writes block `b`. `Failed` comes as of `read`; block `b` then holds any bytes, and the
    /// others stay. Until a barrier succeeds a crash may leave any bytes in block `b`, also after
    /// `Failed`.
    fn write(&mut self, b: u64, from: &[u8; BLOCK_SIZE]) -> Result<(), Failed>
        requires { b < block_count self.old }
        ensures written { OnOk result
            (contents self.new ≡ with_block b from.now (contents self.old)) }
        ensures others { OnErr result (ChangesOnly b (contents self.old) (contents self.new)) }
        ensures shape { IfSome (contents self.new) (HasBlocks (block_count self.new)) }
        ensures count { block_count self.new ≡ block_count self.old }
        ensures cause { HasCause (fault_count self.old) (fault_count self.new) result }
        ensures faults { fault_count self.new ≡ faults_after (fault_count self.old) result }
        ensures last { last_failed self.new ≡ is_err result }
        ensures write_faults { write_fault_count self.new
            ≡ faults_after (write_fault_count self.old) result }
        ensures calls { IsCounted (call_count self.old) (call_count self.new) result }
        ensures time { Elapses (call_count self.old) (call_count self.new)
            (left_since self.old) (left_since self.new)
            (TornAt b (left_since self.old (call_count self.old))) }
        ensures same_name { (name : List ℕ) → is_named self.old name → is_named self.new name }
        ensures same_loans { loans self.new ≡ loans self.old }
        ensures also { also self.old self.new (is_ok result) };

    /// Waits until all that was written is kept: then a crash leaves what reads give. `Failed`
    /// comes as of `read`, and then a crash may leave what it might have left before.
    fn barrier(&mut self) -> Result<(), Failed>
        ensures kept { contents self.new ≡ contents self.old }
        ensures count { block_count self.new ≡ block_count self.old }
        ensures cause { HasCause (fault_count self.old) (fault_count self.new) result }
        ensures faults { fault_count self.new ≡ faults_after (fault_count self.old) result }
        ensures last { last_failed self.new ≡ is_err result }
        ensures write_faults { write_fault_count self.new
            ≡ faults_after (write_fault_count self.old) result }
        ensures calls { IsCounted (call_count self.old) (call_count self.new) result }
        ensures time { Elapses (call_count self.old) (call_count self.new)
            (left_since self.old) (left_since self.new) Nothing }
        ensures durable { OnOk result (0 < block_count self.old
            → IsOnly (contents self.new) (left_since self.new (call_count self.new))) }
        ensures same_name { (name : List ℕ) → is_named self.old name → is_named self.new name }
        ensures same_loans { loans self.new ≡ loans self.old }
        ensures also { also self.old self.new (is_ok result) };

    /// Reads so many blocks, from block `first` on, into the front of `into`: in one call, or in
    /// one for each block up to the first that fails. `Failed` comes as of `read`, and only of the
    /// last call; `into` then holds any bytes.
    #[tactic(auto, using(crate::proofs::Calls::calls))]
    fn read_run(&mut self, first: u64, into: &mut [u8], count: usize) -> Result<(), Failed>
        requires room { first + count ≤ block_count self.old }
        requires fits { first + count < 2 ^ 64 }
        requires length { count * block_size ≤ length into.old }
        ensures bytes { OnOk result (IfSome (contents self.old) (λ image.
            take (count * block_size) into.new ≡ bytes_at image first count)) }
        ensures kept { contents self.new ≡ contents self.old }
        ensures count { block_count self.new ≡ block_count self.old }
        ensures faults { fault_count self.new ≡ faults_after (fault_count self.old) result }
        ensures later { fault_count self.old ≤ fault_count self.new }
        ensures last { OnErr result (IsTrue (last_failed self.new)) }
        ensures write_faults { write_fault_count self.new ≡ write_fault_count self.old }
        ensures time { Elapses (call_count self.old) (call_count self.new)
            (left_since self.old) (left_since self.new) Nothing }
        ensures same_name { (name : List ℕ) → is_named self.old name → is_named self.new name }
        ensures same_loans { loans self.new ≡ loans self.old }
    {
        let mut block = [0; BLOCK_SIZE];
        for i in 0..count {
            self.read(first + i as u64, &mut block)?;
            put(into, i * BLOCK_SIZE, &block);
        }
        Ok(())
    }

    /// Writes so many blocks, from block `first` on, of the front of `from`: in one call, or in one
    /// for each block up to the first that fails. `Failed` comes as of `read`, and only of the last
    /// call. These blocks then hold any bytes, and the others stay. Until a barrier succeeds a
    /// crash may leave any bytes in each of these blocks, also after `Failed`.
    #[tactic(auto, using(crate::proofs::Calls::calls))]
    fn write_run(&mut self, first: u64, from: &[u8], count: usize) -> Result<(), Failed>
        requires room { first + count ≤ block_count self.old }
        requires fits { first + count < 2 ^ 64 }
        requires length { count * block_size ≤ length from.now }
        ensures written { OnOk result (IfSome (contents self.new) (λ image.
            bytes_at image first count ≡ take (count * block_size) from.now)) }
        ensures others { StaysBut (IsInRange first (first + count))
            (contents self.old) (contents self.new) }
        ensures count { block_count self.new ≡ block_count self.old }
        ensures faults { fault_count self.new ≡ faults_after (fault_count self.old) result }
        ensures later { fault_count self.old ≤ fault_count self.new }
        ensures last { OnErr result (IsTrue (last_failed self.new)) }
        ensures write_faults { write_fault_count self.new
            ≡ faults_after (write_fault_count self.old) result }
        ensures time { Elapses (call_count self.old) (call_count self.new)
            (left_since self.old) (left_since self.new)
            (IsBeforeBut (IsInRange first (first + count))
            (left_since self.old (call_count self.old))) }
        ensures same_name { (name : List ℕ) → is_named self.old name → is_named self.new name }
        ensures same_loans { loans self.new ≡ loans self.old }
    {
        for i in 0..count {
            let block = nth_block(from, i);
            self.write(first + i as u64, &block)?;
        }
        Ok(())
    }

    /// How often it has failed.
    fn faults(&self) -> u64
        ensures { result ≡ fault_count self.now };

    /// How often a write or a barrier has failed.
    fn write_faults(&self) -> u64
        ensures { result ≡ write_fault_count self.now };

    /// How many reads, writes, barriers and attaches there were, also those that failed.
    fn calls(&self) -> u64
        ensures { result ≡ call_count self.now };

    /// The moments since a call are among those since an earlier one.
    ghost since_earlier: { (d : Self) (t u : ℕ) (c : Image) → t ≤ u
        → left_since d u c → left_since d t c };
}

/// A device whose image has a name and is found by it.
pub trait Attach: Device {
    /// What it shows for a name, where that is known: what reads give once an attach of it with
    /// `None` is done.
    ghost shows: { Self → List ℕ → Option Image };

    /// What a crash might have left of the image of a name, as `left_since` says it of what is
    /// attached.
    ghost left_behind: { Self → List ℕ → ℕ → Image → Type 0 } = { λ _ _ _ _. ⊥ };

    /// Takes the image of this name: the one that is there, or with `Some(n)` a new one of `n`
    /// blocks, which may hold any bytes. `Failed` comes only where the count of faults rose in this
    /// call or stands at its last value. The device then has 0 blocks, and with `None` the image of
    /// that name stays as it was, for a crash and for the next attach.
    fn attach(&mut self, name: &str, create: Option<u64>) -> Result<(), Failed>
        ensures shown { OnOk result (IfNone create
            (Self.contents self.new ≡ shows self.old name.now)) }
        ensures made { OnOk result (IfSome create (λ n. Self.block_count self.new ≡ n)) }
        ensures told { OnOk result (IfSome create
            (λ _. is_some (Self.contents self.new) ≡ is_some (Self.contents self.old))) }
        ensures named { OnOk result (Self.is_named self.new name.now) }
        ensures detached { OnErr result (Self.block_count self.new ≡ 0) }
        ensures behind { OnErr result (IfNone create
            (shows self.new name.now ≡ shows self.old name.now)) }
        ensures time { OnOk result (IfNone create
            (Elapses (Self.call_count self.old) (Self.call_count self.new)
            (left_behind self.old name.now) (Self.left_since self.new) Nothing)) }
        ensures behind_time { OnErr result (IfNone create
            (Elapses (Self.call_count self.old) (Self.call_count self.new)
            (left_behind self.old name.now) (left_behind self.new name.now) Nothing)) }
        ensures shape { IfSome (Self.contents self.new) (HasBlocks (Self.block_count self.new)) }
        ensures cause { HasCause (Self.fault_count self.old) (Self.fault_count self.new) result }
        ensures faults { Self.fault_count self.new
            ≡ faults_after (Self.fault_count self.old) result }
        ensures last { Self.last_failed self.new ≡ is_err result }
        ensures write_faults { Self.write_fault_count self.new ≡ Self.write_fault_count self.old }
        ensures calls { IsCounted (Self.call_count self.old) (Self.call_count self.new) result }
        ensures same_loans { Self.loans self.new ≡ Self.loans self.old }
        ensures also { Self.also self.old self.new (is_ok result) };

    /// What it shows for the name of what is attached is what reads give.
    ghost shows_named: { (d : Self) (name : List ℕ) → Self.is_named d name
        → shows d name ≡ Self.contents d };

    /// What a crash might have left of the name of what is attached is what it might have left of
    /// that.
    ghost left_named: { (d : Self) (name : List ℕ) (t : ℕ) (c : Image) → Self.is_named d name
        → left_behind d name t c ↔ Self.left_since d t c };
}

impl<D: Device> Device for &mut D {
    ghost block_count = { λ d. D.block_count d.now };

    ghost contents = { λ d. D.contents d.now };

    ghost fault_count = { λ d. D.fault_count d.now };

    ghost write_fault_count = { λ d. D.write_fault_count d.now };

    ghost call_count = { λ d. D.call_count d.now };

    ghost last_failed = { λ d. D.last_failed d.now };

    ghost left_since = { λ d. D.left_since d.now };

    ghost since_earlier = { λ d. D.since_earlier d.now };

    ghost is_named = { λ d name. D.is_named d.now name };

    ghost loans = { λ d. d.ghost_name ∷ D.loans d.now };

    ghost also = { λ d e. D.also d.now e.now };

    fn blocks(&self) -> u64 {
        Device::blocks(&**self)
    }

    fn read(&mut self, b: u64, into: &mut [u8; BLOCK_SIZE]) -> Result<(), Failed> {
        Device::read(&mut **self, b, into)
    }

    fn write(&mut self, b: u64, from: &[u8; BLOCK_SIZE]) -> Result<(), Failed> {
        Device::write(&mut **self, b, from)
    }

    fn barrier(&mut self) -> Result<(), Failed> {
        Device::barrier(&mut **self)
    }

    fn read_run(&mut self, first: u64, into: &mut [u8], count: usize) -> Result<(), Failed> {
        Device::read_run(&mut **self, first, into, count)
    }

    fn write_run(&mut self, first: u64, from: &[u8], count: usize) -> Result<(), Failed> {
        Device::write_run(&mut **self, first, from, count)
    }

    fn faults(&self) -> u64 {
        Device::faults(&**self)
    }

    fn write_faults(&self) -> u64 {
        Device::write_faults(&**self)
    }

    fn calls(&self) -> u64 {
        Device::calls(&**self)
    }
}

impl<D: Attach> Attach for &mut D {
    ghost shows = { λ d. D.shows d.now };

    ghost left_behind = { λ d. D.left_behind d.now };

    ghost shows_named = { λ d. D.shows_named d.now };

    ghost left_named = { λ d. D.left_named d.now };

    fn attach(&mut self, name: &str, create: Option<u64>) -> Result<(), Failed> {
        Attach::attach(&mut **self, name, create)
    }
}
