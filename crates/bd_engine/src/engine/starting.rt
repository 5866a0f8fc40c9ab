//! How an engine starts: from an image, or on a new one.

ghost use Rattle.std.specs.Prelude.{◌≡◌, ◌≢◌, ◌<◌, ℕ, [], map, None, IsSome, IfOk, IfErr, IfSome, IsSomeAnd, All};
ghost use Rattle.bd_model.specs.Tree.{Tree, root_only};
ghost use Rattle.bd_slots.specs.Layout.{IsSlotCount, image_blocks};
ghost use Rattle.bd_device.specs.Device.{left_now, OnlyReads, Stays, IsImageCause};
ghost use Rattle.bd_device.specs.Moments.{IsOnly};
ghost use Rattle.bd_device.specs.declared.fault.ImageFault.TheVariants.{Damaged};
ghost use Rattle.bd_pager.specs.Pagers.{nodes_of, table_of, is_known};
ghost use Rattle.bd_image.specs.Versions.{version_of};
ghost use Rattle.bd_image.specs.ImageTree.{ImageStandsFor};
ghost use Rattle.bd_checkpoint.specs.Commands.{IsPlacedIn};
ghost use Rattle.bd_checkpoint.specs.Kept.{AllStandFor, AreOfTree};
ghost use Rattle.bd_checkpoint.specs.Recovering.{OnlySettles, HasSettled, FailsFirst, IsBadIn, LeadsTo};
ghost use Rattle.bd_view.specs.Views.{fresh_view};
ghost use Rattle.bd_engine.specs.Engines.{view_of, IsFreshOn};
ghost use Rattle.bd_engine.specs.Stored.{IsFound, IsStoredBy, ArePlaced};

use super::Engine;
use bd_checkpoint::{Formatted, PlacedCommand, Recovered, format, recover};
use bd_device::Device;
use bd_limits::MAX_CACHED;
use bd_log::laws::batches_are_one;
use bd_pager::Refused;
use bd_table::laws::tables_are_read_again;
use bd_view::laws::kept_nodes_are_listed;
use std::alloc::Global;

/// What is found in an image.
#[derive(Drop)]
pub struct Opened<D: Device> {
    /// The nodes of its last checkpoint, with its log, in which nothing waits.
    pub engine: Engine<D>,
    /// The commands of the records of open batches, in order.
    pub commands: Vec<PlacedCommand>,
}

impl<D: Device> Engine<D> {
    /// Starts from the image of a device. It makes one barrier, so that from then on a crash leaves
    /// what reads give, and reads the superblocks, the table, the root and the log. From an image
    /// that stands for a tree it starts unless the device fails or there is no memory: the commands
    /// then lead from the tree of the nodes to that one. Where it fails, it returns the device, and
    /// unless the barrier failed a crash leaves what reads give there too, of a device that has
    /// blocks. `DeviceFault` comes only where a call of the device failed, which is the last one then.
    /// `Damaged` names a bad block of the image, of the superblock first, then of the table, of the
    /// root, of a batch, and of a record of no command.
    pub fn open(alloc: Global, dev: D) -> Result<Opened<D>, Refused<D>>
        ensures going { IfOk result (λ o. o.engine.stop ≡ None) }
        ensures known { IsSome (D.contents dev)
            → IfOk result (λ o. is_known D.Device o.engine.pager) }
        ensures fresh { IfOk result (λ o. IsFreshOn D.Device o.engine) }
        ensures flushes { IfOk result (λ o. o.engine.flushes ≡ 0) }
        ensures first { IfOk result (λ o. (tree : Tree) (count : ℕ) → IfSome (D.contents dev)
            (λ image. ImageStandsFor tree count image → IsFound image
            (view_of D.Device o.engine) (map (λ p. p.command) o.commands.items))) }
        ensures placed { IfOk result (λ o. IfSome (D.contents dev)
            (λ image. ArePlaced image o.engine.live o.commands.items)) }
        ensures each { IfOk result (λ o.
            All (IsPlacedIn (version_of o.engine.live)) o.commands.items) }
        ensures stored { IfOk result (λ o.
            IfSome (D.contents dev) (IsStoredBy D.Device o.engine)) }
        ensures idle { IfOk result (λ o. o.engine.log.waiting ≡ []) }
        ensures replay { IfOk result (λ o. (tree : Tree) (count : ℕ)
            → IsSomeAnd (D.contents dev) (ImageStandsFor tree count)
            → LeadsTo D.Device o.engine.pager o.engine.live o.commands.items tree count) }
        ensures only { IfOk result (λ o. IsOnly (D.contents o.engine.pager.dev)
            (left_now D.Device o.engine.pager.dev)) }
        ensures reads { IfOk result (λ o. OnlyReads D.Device dev o.engine.pager.dev) }
        ensures settled { IfOk result (λ o. HasSettled D.Device dev o.engine.pager.dev) }
        ensures faults { IfOk result
            (λ o. D.fault_count o.engine.pager.dev ≡ D.fault_count dev) }

        // The fault, and the device that is returned.
        ensures cause { IfErr result (λ refused. IsImageCause D.Device dev refused.device
            (IsBadIn (D.contents dev)) refused.fault) }
        ensures undamaged { (tree : Tree) (count : ℕ)
            → IsSomeAnd (D.contents dev) (ImageStandsFor tree count)
            → IfErr result (λ refused. (block : ℕ) → refused.fault ≢ Damaged block) }
        ensures left { IfErr result (λ refused. OnlySettles D.Device dev refused.device) }
        ensures settles { IfErr result (λ refused. 0 < D.block_count dev
            → ¬ FailsFirst D.Device dev refused.device
            → HasSettled D.Device dev refused.device) }
    {
        batches_are_one();
        tables_are_read_again();
        let recovered = match recover(alloc, dev, MAX_CACHED) {
            Ok(recovered) => recovered,
            Err(refused) => return Err(refused),
        };
        let Recovered {
            pager,
            log,
            live,
            commands,
        } = recovered;
        Ok(Opened {
            engine: Engine::over(alloc, pager, log, live),
            commands,
        })
    }

    /// Makes an image of so many slots on a device, whatever it has, of the tree of `/` alone and of
    /// no commands, and starts from it. Once it is Ok, an image that a crash after it leaves is what
    /// reads give, and stands for that tree and a count of 0. Where it fails, it returns the device,
    /// which may have no image any more. `DeviceFault` comes only where a call of the device failed,
    /// which is the last one then. It is never `Damaged`.
    pub fn format(alloc: Global, dev: D, slots: u32) -> Result<Engine<D>, Refused<D>>
        requires slots { IsSlotCount slots }
        requires size { D.block_count dev ≡ image_blocks slots }
        ensures going { IfOk result (λ engine. engine.stop ≡ None) }
        ensures view { IsSome (D.contents dev)
            → IfOk result (λ engine. view_of D.Device engine ≡ fresh_view slots) }
        ensures known { IsSome (D.contents dev)
            → IfOk result (λ engine. is_known D.Device engine.pager) }
        ensures fresh { IfOk result (IsFreshOn D.Device) }
        ensures tree { IsSome (D.contents dev) → IfOk result (λ engine. AreOfTree
            (nodes_of D.Device engine.pager) (table_of engine.pager) root_only) }
        ensures stands { IsSome (D.contents dev) → IfOk result
            (λ engine. AllStandFor root_only 0 (left_now D.Device engine.pager.dev)) }
        ensures idle { IfOk result (λ engine. engine.log.waiting ≡ []) }
        ensures only { IfOk result (λ engine. IsOnly (D.contents engine.pager.dev)
            (left_now D.Device engine.pager.dev)) }
        ensures stays { IfOk result (λ engine. Stays D.Device dev engine.pager.dev) }
        ensures faults { IfOk result
            (λ engine. D.fault_count engine.pager.dev ≡ D.fault_count dev) }

        // The fault, and the device that is returned.
        ensures cause { IfErr result (λ refused.
            IsImageCause D.Device dev refused.device (λ _. ⊥) refused.fault) }
        ensures left { IfErr result (λ refused. Stays D.Device dev refused.device) }
    {
        kept_nodes_are_listed();
        let formatted = match format(alloc, dev, slots, MAX_CACHED) {
            Ok(formatted) => formatted,
            Err(refused) => return Err(refused),
        };
        let Formatted { pager, log, live } = formatted;
        pager.nodes_are_placed();
        Ok(Engine::over(alloc, pager, log, live))
    }
}
