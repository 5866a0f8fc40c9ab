//! Checkpoints that the calls of a volume make, and nodes that they write early.

ghost use Rattle.std.specs.Prelude.{◌≡◌, ◌≢◌, ◌≤◌, ◌⊎◌, ℕ, true, false, None, IfErr, OnOk, OnErr};
ghost use Rattle.bd_model.specs.Tree.{Tree};
ghost use Rattle.bd_device.specs.Device.{left_now};
ghost use Rattle.bd_device.specs.Moments.{IsOnly};
ghost use Rattle.bd_checkpoint.specs.Kept.{AllStandFor};
ghost use Rattle.bd_view.specs.Views.{changed_count, free_slots, save_slots};
ghost use Rattle.bd_view.specs.Moves.{Saves, CannotSave};
ghost use Rattle.bd_pager.specs.Counting.{memory_of, IsFull};
ghost use Rattle.bd_message.specs.KeyMaps.{SameAt};
ghost use Rattle.bd_engine.specs.Engines.{keys_of, memory_limit, IsSoundOn, IsBegunAnew, WritesEarly};
ghost use Rattle.bd_volume.specs.Volume.{StandsFor, view_of, count_of, device_of, stop_of};
ghost use Rattle.bd_volume.specs.Steps.{Ends, KeepsStanding, IsSaveFault};

use super::Volume;
use crate::fault::Fault;
use bd_device::Device;
use bd_io::Failed;

impl<D: Device> Volume<D> {
    // Whether a checkpoint can make more slots free: something was changed since the last one, and
    // slots are free for it.
    pub(crate) fn can_save(&self) -> bool
        ensures room { result ≡ true → save_slots (view_of D.Device self.now)
            ≤ free_slots (view_of D.Device self.now) }
        ensures some { result ≡ true → 1 ≤ changed_count (view_of D.Device self.now) }
        ensures cannot { result ≡ false → CannotSave (view_of D.Device self.now) }
    {
        if self.engine.changed() == 0 {
            return false;
        }
        self.engine.save_need() <= self.engine.free()
    }

    // Makes a checkpoint, for which slots are free.
    pub(crate) fn save(&mut self) -> Result<(), Fault>
        requires going { stop_of self.old ≡ None }
        requires room { save_slots (view_of D.Device self.old)
            ≤ free_slots (view_of D.Device self.old) }
        ensures saves { IsSoundOn D.Device self.old.engine
            → OnOk result (Saves (view_of D.Device self.old) (view_of D.Device self.new)) }
        ensures err { IsSoundOn D.Device self.old.engine
            → OnErr result (view_of D.Device self.new ≡ view_of D.Device self.old) }
        ensures sound { IsSoundOn D.Device self.old.engine
            → IsSoundOn D.Device self.new.engine }
        ensures same { IsSoundOn D.Device self.old.engine
            → SameAt (keys_of D.Device self.old.engine.pager)
            (keys_of D.Device self.new.engine.pager) }
        ensures keeps { KeepsStanding D.Device self.old self.new }
        ensures kept { OnOk result ((t : Tree) (n : ℕ) → StandsFor D.Device self.old t n
            → AllStandFor t n (left_now D.Device (device_of self.new))) }
        ensures only { OnOk result (IsOnly (D.contents (device_of self.new))
            (left_now D.Device (device_of self.new))) }

        // Whatever is known.
        ensures none { OnOk result (changed_count (view_of D.Device self.new) ≡ 0) }
        ensures anew { OnOk result (IsBegunAnew self.new.engine) }
        ensures same_live { OnErr result (self.new.engine.live ≡ self.old.engine.live) }
        ensures same_log { OnErr result (self.new.engine.log ≡ self.old.engine.log) }
        ensures fails { IfErr result (IsSaveFault self.old self.new) }
        ensures ends { Ends D.Device self.old self.new result }
        ensures flushes { self.new.engine.flushes ≡ self.old.engine.flushes }
        ensures count_stays { count_of self.new ≡ count_of self.old }
        ensures untouched { IfErr result (λ fault. fault ≢ Fault.Device
            → device_of self.new ≡ device_of self.old) }
    {
        self.engine.save(self.count)?;
        Ok(())
    }

    // Writes changed nodes early where more than eight are in memory, while slots are free. It fails
    // by `Device` alone, which stops the volume.
    pub(crate) fn spill(&mut self) -> Result<(), Fault>
        requires { stop_of self.old ≡ None }
        ensures early { WritesEarly D.Device self.old.engine self.new.engine }
        ensures few { OnOk result ((memory_of self.new.engine.pager ≤ memory_limit)
            ⊎ IsFull self.new.engine.pager) }
        ensures view { IsSoundOn D.Device self.old.engine
            → view_of D.Device self.new ≡ view_of D.Device self.old }
        ensures sound { IsSoundOn D.Device self.old.engine
            → IsSoundOn D.Device self.new.engine }
        ensures same { IsSoundOn D.Device self.old.engine
            → SameAt (keys_of D.Device self.old.engine.pager)
            (keys_of D.Device self.new.engine.pager) }
        ensures keeps { KeepsStanding D.Device self.old self.new }
        ensures kind { IfErr result (λ fault. fault ≡ Fault.Device) }
        ensures ends { Ends D.Device self.old self.new result }
        ensures flushes { self.new.engine.flushes ≡ self.old.engine.flushes }
        ensures count_stays { count_of self.new ≡ count_of self.old }
    {
        match self.engine.spill() {
            Ok(()) => Ok(()),
            Err(Failed) => Err(Fault::Device),
        }
    }
}
