//! How the commands of an image's log are tried.

ghost use Rattle.std.specs.Prelude.{◌≡◌, IfOk, IfErr, All};
ghost use Rattle.bd_command.specs.Log.{IsLogged};
ghost use Rattle.bd_device.specs.Device.{OnlyReads};
ghost use Rattle.bd_engine.specs.Engines.{MayStart};
ghost use Rattle.bd_volume.specs.Rehearsals.{HasRehearsed, IsRehearsalFault};

use super::Volume;
use super::replaying::Replay;
use crate::fault::Refused;
use bd_checkpoint::Recovered;
use bd_device::Device;
use bd_engine::Engine;
use std::alloc::Global;

impl<D: Device> Volume<D> {
    /// Replays the commands of the log's open batches as `start` does, but only reads: nodes that
    /// they change stay in memory. It returns the device with how many commands are then counted:
    /// each was accepted in its turn. Where it stops, the device is returned too, and the fault is
    /// one of the next command: `Damaged` names the first body block of its batch, where the tree
    /// before it refuses it. `Device` comes only where a call of the device failed, which is the
    /// last one then; `Full` and `Stopped` never come.
    pub fn rehearse(alloc: Global, recovered: Recovered<D>) -> Result<(u64, D), Refused<D>>
        requires may { MayStart D.Device recovered.pager recovered.log recovered.live }
        requires logged { All (λ p. IsLogged p.command) recovered.commands.items }
        ensures done { IfOk result (λ r. HasRehearsed D.Device recovered r.0) }
        ensures reads { IfOk result (λ r. OnlyReads D.Device recovered.pager.dev r.1) }
        ensures faults { IfOk result
            (λ r. D.fault_count r.1 ≡ D.fault_count recovered.pager.dev) }

        // The fault, and the device that is returned.
        ensures fails { IfErr result (λ refused.
            IsRehearsalFault D.Device recovered refused.device refused.fault) }
        ensures left { IfErr result
            (λ refused. OnlyReads D.Device recovered.pager.dev refused.device) }
    {
        let Recovered {
            pager,
            log,
            live,
            commands,
        } = recovered;
        let engine = Engine::over(alloc, pager, log, live);
        engine.sound_nodes_are_undamaged();
        let count = engine.saved_count();
        let mut volume = Volume { engine, count };
        match volume.replay(Replay::WritesNothing, &commands) {
            Ok(()) => {
                let count = volume.count;
                Ok((count, volume.into_device()))
            }
            Err(fault) => Err(Refused {
                fault,
                device: volume.into_device(),
            }),
        }
    }
}
