//! Why a volume isn't started, with what is left of it.

use crate::fault::{Fault, Refused};
use crate::volume::Volume;
use bd_device::Device;

/// What is left where no volume is started: the device alone, or a volume that has replayed some of
/// the commands of its log.
#[derive(Drop)]
pub(crate) enum Left<D: Device> {
    Device(D),
    Volume(Volume<D>),
}

/// Why a volume isn't started, with what is left of it: its device, and the commands of the log that
/// were replayed.
#[derive(Drop)]
pub struct Unstarted<D: Device> {
    pub(crate) fault: Fault,
    pub(crate) left: Left<D>,
}

impl<D: Device> Unstarted<D> {
    ghost use Rattle.std.specs.Prelude.{◌≡◌};
    ghost use Rattle.bd_volume.specs.Unstarted.{fault_in, device_left};

    /// What kept it from starting.
    pub fn fault(&self) -> Fault
        ensures { result ≡ fault_in self.now }
    {
        self.fault
    }

    /// The device, which is given up.
    pub fn into_device(self) -> D
        ensures { result ≡ device_left self }
    {
        match self.left {
            Left::Device(device) => device,
            Left::Volume(volume) => volume.into_device(),
        }
    }
}

impl<D: Device> From<bd_pager::Refused<D>> for Unstarted<D> {
    ghost use Rattle.std.specs.Prelude.{◌≡◌};
    ghost use Rattle.bd_volume.specs.Faults.{image_fault_of};
    ghost use Rattle.bd_volume.specs.Unstarted.{fault_in, device_left};

    ghost from_gives = { λ cause unstarted. (fault_in unstarted ≡ image_fault_of cause.fault)
        × (device_left unstarted ≡ cause.device) };

    fn from(cause: bd_pager::Refused<D>) -> Unstarted<D> {
        Unstarted {
            fault: Fault::from(cause.fault),
            left: Left::Device(cause.device),
        }
    }
}

impl<D: Device> From<Unstarted<D>> for Refused<D> {
    ghost use Rattle.std.specs.Prelude.{◌≡◌};
    ghost use Rattle.bd_volume.specs.Unstarted.{fault_in, device_left};

    ghost from_gives = { λ cause refused. (refused.fault ≡ fault_in cause)
        × (refused.device ≡ device_left cause) };

    fn from(cause: Unstarted<D>) -> Refused<D> {
        let fault = cause.fault();
        Refused {
            fault,
            device: cause.into_device(),
        }
    }
}
