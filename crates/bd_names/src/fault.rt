// Why a text isn't read as a path or a name.
ghost use Rattle.std.specs.Prelude.{◌≡◌, Some};
ghost use Rattle.bd_names.specs.Faults.{fault_text};
ghost use Rattle.bd_names.specs.declared.fault.PathFault.TheVariants.{NoMemory};

use std::alloc::AllocError;
use std::error::Error;
use std::fmt;

/// Why a text isn't read as a path or a name.
#[derive(Clone, Copy, Debug, PartialEq, Eq)]
pub enum PathFault {
    /// The text isn't a path of at most 512 bytes, or isn't a name.
    BadPath,
    /// There was no memory.
    NoMemory,
}

impl fmt::Display for PathFault {
    ghost output = { λ fault. Some (fault_text fault) };

    fn fmt<W: fmt::Write>(&self, f: &mut fmt::Formatter<W>) -> fmt::Result {
        match self {
            PathFault::BadPath => write!(f, "bad path"),
            PathFault::NoMemory => write!(f, "out of memory"),
        }
    }
}

impl Error for PathFault {}

impl From<AllocError> for PathFault {
    ghost from_gives = { λ _ fault. fault ≡ NoMemory };

    fn from(_error: AllocError) -> PathFault {
        PathFault::NoMemory
    }
}
