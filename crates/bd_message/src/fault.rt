//! Why a call of a key map did nothing.

ghost use Rattle.std.specs.Prelude.{Some};
ghost use Rattle.bd_message.specs.Counters.{counter_name};

use std::alloc::{AllocError, AllocFailed};
use std::fmt;

/// A kept counter, which may have to rise past its last value.
#[derive(Clone, Copy, Debug, PartialEq, Eq)]
pub enum Counter {
    /// The accepted commands.
    Count,
    /// The next id of a node.
    NextId,
    /// A node's level.
    Level,
    /// A node's references.
    Refs,
    /// The superblock's epoch.
    Epoch,
    /// The flush steps of one command.
    Flushes,
}

impl fmt::Display for Counter {
    ghost output = { λ counter. Some (counter_name counter) };

    fn fmt<W: fmt::Write>(&self, f: &mut fmt::Formatter<W>) -> fmt::Result {
        let name = match self {
            Counter::Count => "count",
            Counter::NextId => "id",
            Counter::Level => "level",
            Counter::Refs => "refs",
            Counter::Epoch => "epoch",
            Counter::Flushes => "flushes",
        };
        write!(f, "{name}")
    }
}

/// Why a call of a key map did nothing.
#[derive(Clone, Copy, Debug, PartialEq, Eq)]
pub enum MapFault {
    /// The device failed.
    DeviceFault,
    /// The bytes at this block aren't of the format.
    Damaged { block: u64 },
    /// A counter had to rise past its last value.
    Worn(Counter),
    /// There is no memory.
    NoMemory,
}

impl<T: Drop> From<AllocFailed<T>> for MapFault {
    ghost use Rattle.std.specs.Prelude.{◌≡◌};
    ghost use Rattle.bd_message.specs.declared.fault.MapFault.TheVariants.{NoMemory};

    ghost from_gives = { λ _ fault. fault ≡ NoMemory };

    fn from(_error: AllocFailed<T>) -> MapFault {
        MapFault::NoMemory
    }
}

impl From<AllocError> for MapFault {
    ghost use Rattle.std.specs.Prelude.{◌≡◌};
    ghost use Rattle.bd_message.specs.declared.fault.MapFault.TheVariants.{NoMemory};

    ghost from_gives = { λ _ fault. fault ≡ NoMemory };

    fn from(_error: AllocError) -> MapFault {
        MapFault::NoMemory
    }
}
