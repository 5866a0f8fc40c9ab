//! Whether the image of a device stands for a tree.

ghost use Rattle.std.specs.Prelude.{◌≡◌, ◌<◌, IfErr, IfOk, OnOk};
ghost use Rattle.bd_checkpoint.specs.Recovering.{OnlySettles, HasSettled, FailsFirst};
ghost use Rattle.bd_check.specs.Causes.{CanStop, HasStopCause, HasCheckCause, IsSaid};
ghost use Rattle.bd_check.specs.Verdicts.{IsRightOf, SaysYes};

use crate::fault::CheckFault;
use crate::recovered::check_recovered;
use crate::verdict::Verdict;
use bd_checkpoint::recover;
use bd_device::Device;
use bd_limits::MAX_CACHED;
use bd_pager::Refused;
use bd_volume::Fault;
use std::alloc::Global;

/// A device that is given up, and what was found out of its image.
#[derive(Drop)]
pub struct Checked<D> {
    pub device: D,
    pub found: Result<Verdict, CheckFault>,
}

/// A verdict on the image of a device, and the device again. No block is written: a barrier comes
/// first, since whose return a crash leaves what reads give. `BadBlock` names a block that isn't
/// what it has to be: a superblock, a table, a node or a record of the log, also one whose command
/// the map doesn't accept. `BadNode` names a node that isn't named as often as the table says, where
/// each node is good, or the root, where each is also named as often and no tree has the root's
/// keys. `Limit` comes where that is so, a tree has the first 16,777,216 keys, and there are more.
/// From an image that stands for a tree it is a `Yes`, or `Limit`.
///
/// `DeviceFault` comes only where a call of the device failed, which is the last one then; `Worn`
/// only where a counter has no room for a command of the log.
pub fn check<D: Device>(alloc: Global, dev: D) -> Checked<D>
    ensures verdict { IfOk result.found (IsRightOf (D.contents dev)) }
    ensures left { OnlySettles D.Device dev result.device }
    ensures settles { 0 < D.block_count dev → ¬ FailsFirst D.Device dev result.device
        → HasSettled D.Device dev result.device }
    ensures writes { IfOk result.found (λ verdict. SaysYes verdict
        → D.write_fault_count result.device ≡ D.write_fault_count dev) }
    ensures cause { HasCheckCause D.Device dev result.device result.found }
{
    let (device, found) = check_device(alloc, dev);
    Checked {
        device,
        found: said(found),
    }
}

// The same, where damage is a fault, or already a verdict.
fn check_device<D: Device>(alloc: Global, dev: D) -> (D, Result<Verdict, Fault>)
    ensures verdict { IfOk result.1 (IsRightOf (D.contents dev)) }
    ensures left { OnlySettles D.Device dev result.0 }
    ensures settles { 0 < D.block_count dev → ¬ FailsFirst D.Device dev result.0
        → HasSettled D.Device dev result.0 }
    ensures writes { OnOk result.1 (D.write_fault_count result.0 ≡ D.write_fault_count dev) }
    ensures cause { HasStopCause D.Device dev result.0 result.1 }
{
    match recover(alloc, dev, MAX_CACHED) {
        Ok(recovered) => check_recovered(alloc, recovered),
        Err(refused) => {
            let Refused { fault, device } = refused;
            (device, Err(Fault::from(fault)))
        }
    }
}

// A fault that is damage is a verdict.
fn said(found: Result<Verdict, Fault>) -> Result<Verdict, CheckFault>
    requires { IfErr found CanStop }
    ensures { IsSaid found result }
{
    match found {
        Ok(verdict) => Ok(verdict),
        Err(Fault::Device) => Err(CheckFault::DeviceFault),
        Err(Fault::Damaged { block }) => Ok(Verdict::BadBlock { block }),
        Err(Fault::Worn(counter)) => Err(CheckFault::Worn(counter)),
        Err(Fault::NoMemory) => Err(CheckFault::NoMemory),
        Err(Fault::Full { .. } | Fault::Stopped { .. }) => unreachable!(),
    }
}
