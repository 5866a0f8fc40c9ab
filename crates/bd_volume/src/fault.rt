//! Why a volume's call did nothing.

use bd_device::ImageFault;
use bd_message::{Counter, MapFault};
use thiserror::Error;

/// Why a call of a volume did nothing.
#[derive(Clone, Copy, Debug, PartialEq, Eq, Error)]
pub enum Fault {
    /// The device failed.
    #[error("the device failed")]
    Device,
    /// The bytes at this block aren't of the format.
    #[error("block {block} is damaged")]
    Damaged { block: u64 },
    /// A counter had to rise past its last value.
    #[error("the counter {0} is worn")]
    Worn(Counter),
    /// There is no memory.
    #[error("there is no memory")]
    NoMemory,
    /// The free slots aren't enough.
    #[error("{free} slots are free and {need} are needed")]
    Full { free: u64, need: u64 },
    /// The volume was stopped by a failed device call, of this number.
    #[error("the volume was stopped by device call {call}")]
    Stopped { call: u64 },
}

impl From<MapFault> for Fault {
    ghost use Rattle.std.specs.Prelude.{◌≡◌};
    ghost use Rattle.bd_volume.specs.Faults.{fault_of};

    ghost from_gives = { λ cause fault. fault ≡ fault_of cause };

    fn from(cause: MapFault) -> Fault {
        match cause {
            MapFault::DeviceFault => Fault::Device,
            MapFault::Damaged { block } => Fault::Damaged { block },
            MapFault::Worn(counter) => Fault::Worn(counter),
            MapFault::NoMemory => Fault::NoMemory,
        }
    }
}

impl From<ImageFault> for Fault {
    ghost use Rattle.std.specs.Prelude.{◌≡◌};
    ghost use Rattle.bd_volume.specs.Faults.{image_fault_of};

    ghost from_gives = { λ cause fault. fault ≡ image_fault_of cause };

    fn from(cause: ImageFault) -> Fault {
        match cause {
            ImageFault::DeviceFault => Fault::Device,
            ImageFault::Damaged { block } => Fault::Damaged { block },
            ImageFault::NoMemory => Fault::NoMemory,
        }
    }
}

/// Why a volume isn't opened, with its device.
#[derive(Debug, Drop)]
pub struct Refused<D> {
    /// What refused it.
    pub fault: Fault,
    /// The device.
    pub device: D,
}

impl<D> From<bd_pager::Refused<D>> for Refused<D> {
    ghost use Rattle.std.specs.Prelude.{◌≡◌};
    ghost use Rattle.bd_volume.specs.Faults.{image_fault_of};

    ghost from_gives = { λ cause refused. (refused.fault ≡ image_fault_of cause.fault)
        × (refused.device ≡ cause.device) };

    fn from(cause: bd_pager::Refused<D>) -> Refused<D> {
        Refused {
            fault: Fault::from(cause.fault),
            device: cause.device,
        }
    }
}
