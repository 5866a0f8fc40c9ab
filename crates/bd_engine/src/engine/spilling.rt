//! Nodes that an engine writes early.

ghost use Rattle.std.specs.Prelude.{◌≡◌, ◌≤◌, ◌⊎◌, min, None, OnOk, OnErr};
ghost use Rattle.bd_device.specs.Calls.{faults_after};
ghost use Rattle.bd_device.specs.Device.{FailsLast};
ghost use Rattle.bd_message.specs.KeyMaps.{SameAt};
ghost use Rattle.bd_pager.specs.Counting.{memory_of, IsFull};
ghost use Rattle.bd_engine.specs.Engines.{keys_of, memory_limit, IsSoundOn, IsStopped, WritesEarly};

use super::Engine;
use super::logging::stop_by;
use bd_device::Device;
use bd_io::Failed;
use bd_log::laws::batches_are_one;
use bd_pager::laws::spills_change_nothing;
use bd_table::laws::tables_are_read_again;

// How many changed nodes stay in memory when a step begins.
const MEMORY_LIMIT: u64 = 8;

impl<D: Device> Engine<D> {
    /// Writes changed nodes early, those of the lowest level first, until at most eight of them are
    /// in memory or no slot is free, and no more than that. It writes without a barrier, to slots
    /// alone that the last checkpoint doesn't hold: those of the nodes that it moves out of memory,
    /// and where it fails that of the next one too. The view and what stands at the keys stay, also
    /// where it fails, and an image that a crash leaves, inside it or after it, stands for all that
    /// one of before stood for. `Failed` comes only where a call of the device failed, a write,
    /// which is the last one then and stops the engine. It needs no memory.
    pub fn spill(&mut self) -> Result<(), Failed>
        requires going { self.old.stop ≡ None }
        ensures early { WritesEarly D.Device self.old self.new }
        ensures few { OnOk result
            ((memory_of self.new.pager ≤ memory_limit) ⊎ IsFull self.new.pager) }
        ensures enough { min memory_limit (memory_of self.old.pager)
            ≤ memory_of self.new.pager }
        ensures sound { IsSoundOn D.Device self.old → IsSoundOn D.Device self.new }
        ensures same { IsSoundOn D.Device self.old
            → SameAt (keys_of D.Device self.old.pager) (keys_of D.Device self.new.pager) }
        ensures goes { OnOk result (self.new.stop ≡ None) }
        ensures stop { OnErr result (IsStopped D.Device self.old self.new) }
        ensures cause { FailsLast D.Device self.old.pager.dev self.new.pager.dev result }
        ensures write_faults { D.write_fault_count self.new.pager.dev
            ≡ faults_after (D.write_fault_count self.old.pager.dev) result }
    {
        spills_change_nothing::<D>();
        tables_are_read_again();
        batches_are_one();
        self.tree.map.store().nodes_are_placed();
        let spilled = self.tree.map.store_mut().spill(MEMORY_LIMIT);
        self.stop = stop_by(self.tree.map.store(), &spilled);
        spilled
    }
}
