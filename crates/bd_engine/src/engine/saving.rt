//! Checkpoints of an engine.

ghost use Rattle.std.specs.Prelude.{◌≡◌, ◌+◌, ◌^◌, ◌≤◌, ◌⊎◌, None, Err, IfErr, IfSome, OnOk, OnErr};
ghost use Rattle.bd_model.specs.Tree.{Tree};
ghost use Rattle.bd_device.specs.Device.{left_now, Goes, Stays};
ghost use Rattle.bd_device.specs.Moments.{IsOnly};
ghost use Rattle.bd_message.specs.KeyMaps.{SameAt};
ghost use Rattle.bd_pager.specs.Pagers.{nodes_of, table_of, is_known};
ghost use Rattle.bd_image.specs.Standing.{IsOldOrNew};
ghost use Rattle.bd_checkpoint.specs.Kept.{AllStandFor, AreOfTree};
ghost use Rattle.bd_checkpoint.specs.Saving.{IsCheckpointCause};
ghost use Rattle.bd_view.specs.Moves.{Saves};
ghost use Rattle.bd_view.specs.Views.{changed_count, free_slots, save_slots};
ghost use Rattle.bd_engine.specs.Engines.{view_of, keys_of, stop_after, IsSoundOn, IsGoingOn, IsStopped, IsBegunAnew};
ghost use Rattle.bd_engine.specs.Stored.{HasSaved};
ghost use Rattle.bd_engine.specs.Writes.{WritesOn};

use super::Engine;
use bd_checkpoint::checkpoint;
use bd_device::Device;
use bd_format::laws::{images_are_decoded, images_are_of_one_node};
use bd_message::{Counter, MapFault};
use bd_pager::Pager;
use bd_shown::laws::{checkpoints_are_shown, numbers_are_shown};
use bd_view::laws::{checkpoints_keep_all, kept_nodes_are_listed};

impl<D: Device> Engine<D> {
    /// Makes a checkpoint of all nodes, as that of an image in which so many commands were accepted.
    /// Slots have to be free for it. An image that a crash inside it leaves, also where it fails,
    /// stands for what one of before stood for, or for the tree of the nodes and the count; one that
    /// a crash after it leaves, once it is Ok, is what reads give, and stands for the latter.
    ///
    /// A fault leaves the view and what stands at the keys. A failed write or barrier stops the
    /// engine. `DeviceFault` comes only where a call of the device failed, which is the last one
    /// then, `Worn` exactly where the epoch stands at its last value. At `Worn` and `NoMemory` the
    /// device wasn't called.
    pub fn save(&mut self, count: u64) -> Result<(), MapFault>
        requires going { self.old.stop ≡ None }
        requires room { save_slots (view_of D.Device self.old)
            ≤ free_slots (view_of D.Device self.old) }
        ensures saves { is_known D.Device self.old.pager
            → OnOk result (Saves (view_of D.Device self.old) (view_of D.Device self.new)) }
        ensures err { is_known D.Device self.old.pager
            → OnErr result (view_of D.Device self.new ≡ view_of D.Device self.old) }
        ensures sound { IsSoundOn D.Device self.old → IsSoundOn D.Device self.new }
        ensures same { IsSoundOn D.Device self.old
            → SameAt (keys_of D.Device self.old.pager) (keys_of D.Device self.new.pager) }
        ensures walk { self.new.walk ≡ self.old.walk }
        ensures flushes { self.new.flushes ≡ self.old.flushes }

        // What a crash leaves, inside it and after it.
        ensures time { (tree : Tree) → is_known D.Device self.old.pager
            → AreOfTree (nodes_of D.Device self.old.pager) (table_of self.old.pager) tree
            → Goes D.Device self.old.pager.dev self.new.pager.dev
            (IsOldOrNew (left_now D.Device self.old.pager.dev) tree count) }
        ensures kept { OnOk result ((tree : Tree) → is_known D.Device self.old.pager
            → AreOfTree (nodes_of D.Device self.old.pager) (table_of self.old.pager) tree
            → AllStandFor tree count (left_now D.Device self.new.pager.dev)) }
        ensures only { OnOk result (IsOnly (D.contents self.new.pager.dev)
            (left_now D.Device self.new.pager.dev)) }

        // Whatever is known.
        ensures goes { OnOk result (self.new.stop ≡ None) }
        ensures stop { IfErr result (λ fault.
            (IsStopped D.Device self.old self.new × (fault ≡ MapFault.DeviceFault))
            ⊎ IsGoingOn D.Device self.old self.new) }
        ensures none { OnOk result (changed_count (view_of D.Device self.new) ≡ 0) }
        ensures anew { OnOk result (IsBegunAnew self.new) }
        ensures same_live { OnErr result (self.new.live ≡ self.old.live) }
        ensures same_log { OnErr result (self.new.log ≡ self.old.log) }
        ensures writes { WritesOn D.Device self.old self.new }
        ensures later { D.fault_count self.old.pager.dev ≤ D.fault_count self.new.pager.dev }
        ensures cause { IfErr result (IsCheckpointCause D.Device self.old.pager.dev
            self.new.pager.dev self.old.live) }
        ensures worn { 2 ^ 64 ≤ self.old.live.epoch + 1
            → result ≡ Err (MapFault.Worn Counter.Epoch) }
        ensures faults { OnOk result
            (D.fault_count self.new.pager.dev ≡ D.fault_count self.old.pager.dev) }
        ensures write_faults { OnOk result
            (D.write_fault_count self.new.pager.dev ≡ D.write_fault_count self.old.pager.dev) }
        ensures stays { Stays D.Device self.old.pager.dev self.new.pager.dev }
    {
        numbers_are_shown::<D>();
        checkpoints_are_shown::<D>();
        checkpoints_keep_all();
        kept_nodes_are_listed();
        images_are_decoded();
        images_are_of_one_node();
        let before = self.tree.map.store().write_faults();
        self.tree.map.store().nodes_are_placed();
        let saved = checkpoint(
            self.tree.map.store_mut(),
            &mut self.log,
            &mut self.live,
            count,
        );
        self.tree.map.store().nodes_are_placed();
        self.stop = stop_after(self.tree.map.store(), before, &saved);
        saved
    }

    /// What reads give is an image whose last checkpoint has just the nodes that the view has as
    /// saved, unless it is stopped. It does nothing.
    pub fn saved_is_shown(&self)
        ensures { self.now.stop ≡ None
            → IfSome (D.contents self.now.pager.dev) (HasSaved (view_of D.Device self.now)) }
    {
        let _ = self.tree.map.store().blocks();
    }
}

// The number of the device's last call, where that stopped it: the call failed, and was a write or a
// barrier, of which so many had failed before. At the last value of their count each failed call is
// taken for one.
fn stop_after<D: Device>(pager: &Pager<D>, before: u64, saved: &Result<(), MapFault>) -> Option<u64>
    ensures { result ≡ stop_after before (D.write_fault_count pager.now.dev)
        (D.call_count pager.now.dev) saved.now }
{
    match saved {
        Ok(()) => None,
        Err(MapFault::DeviceFault) => {
            if pager.write_faults() == before && before < u64::MAX {
                return None;
            }
            Some(pager.calls())
        }
        Err(MapFault::Damaged { .. } | MapFault::Worn(_) | MapFault::NoMemory) => None,
    }
}
