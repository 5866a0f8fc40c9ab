//! Why a row ends before its last line.

use bd_device::ImageFault;
use bd_io::Failed;
use bd_message::MapFault;
use std::alloc::{AllocError, AllocFailed};

/// Why a row ends before its last line.
#[derive(Clone, Copy, Debug, PartialEq, Eq)]
pub enum Stop {
    /// There is no memory.
    NoMemory,
    /// The line has no meaning, or what it asks for isn't allowed there.
    NoLine,
    /// A call of a key map failed.
    Map(MapFault),
    /// A call of an image failed.
    Image(ImageFault),
    /// A call of the device failed.
    Device,
    /// A number isn't between those of the line.
    Number(u64),
    /// What is found isn't what the line says.
    Differs,
}

impl<T: Drop> From<AllocFailed<T>> for Stop {
    ghost use Rattle.std.specs.Prelude.{◌≡◌};
    ghost use Rattle.rows_tree.specs.declared.stop.Stop.TheVariants.{NoMemory};

    ghost from_gives = { λ _ stop. stop ≡ NoMemory };

    fn from(_error: AllocFailed<T>) -> Stop {
        Stop::NoMemory
    }
}

impl From<AllocError> for Stop {
    ghost use Rattle.std.specs.Prelude.{◌≡◌};
    ghost use Rattle.rows_tree.specs.declared.stop.Stop.TheVariants.{NoMemory};

    ghost from_gives = { λ _ stop. stop ≡ NoMemory };

    fn from(_error: AllocError) -> Stop {
        Stop::NoMemory
    }
}

impl From<MapFault> for Stop {
    ghost use Rattle.std.specs.Prelude.{◌≡◌};
    ghost use Rattle.rows_tree.specs.declared.stop.Stop.TheVariants.{Map};

    ghost from_gives = { λ fault stop. stop ≡ Map fault };

    fn from(fault: MapFault) -> Stop {
        Stop::Map(fault)
    }
}

impl From<ImageFault> for Stop {
    ghost use Rattle.std.specs.Prelude.{◌≡◌};
    ghost use Rattle.rows_tree.specs.declared.stop.Stop.TheVariants.{Image};

    ghost from_gives = { λ fault stop. stop ≡ Image fault };

    fn from(fault: ImageFault) -> Stop {
        Stop::Image(fault)
    }
}

impl From<Failed> for Stop {
    ghost use Rattle.std.specs.Prelude.{◌≡◌};
    ghost use Rattle.rows_tree.specs.declared.stop.Stop.TheVariants.{Device};

    ghost from_gives = { λ _ stop. stop ≡ Device };

    fn from(_error: Failed) -> Stop {
        Stop::Device
    }
}

/// Whether what a line says is so.
pub fn ensure(is_so: bool) -> Result<(), Stop> {
    if is_so { Ok(()) } else { Err(Stop::Differs) }
}

/// Whether a number is between two others.
pub fn within(number: u64, low: u64, high: u64) -> Result<(), Stop> {
    if low <= number && number <= high {
        Ok(())
    } else {
        Err(Stop::Number(number))
    }
}
