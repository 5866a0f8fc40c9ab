//! Why a stream isn't imported, or isn't exported.

ghost use Rattle.std.specs.Prelude.{◌≡◌};

use bd_command::Refusal;
use std::alloc::AllocError;

/// Why a stream isn't imported.
#[derive(Clone, Copy, Debug, PartialEq, Eq)]
pub enum ImportFault {
    /// The bytes begin no stream.
    BadStream,
    /// The path of the next entry has more than 512 bytes.
    LongPath,
    /// There was no memory.
    NoMemory,
}

impl From<AllocError> for ImportFault {
    ghost use Rattle.bd_stream.specs.declared.fault.ImportFault.TheVariants.{NoMemory};

    ghost from_gives = { λ _ fault. fault ≡ NoMemory };

    fn from(_error: AllocError) -> ImportFault {
        ImportFault::NoMemory
    }
}

/// Why a subtree isn't exported.
#[derive(Clone, Copy, Debug, PartialEq, Eq)]
pub enum ExportFault {
    /// The exported path isn't there, or an answer was no reply to what was asked.
    Refused(Refusal),
    /// The path of the next entry has more than 512 bytes.
    LongPath,
    /// There was no memory.
    NoMemory,
}

impl From<AllocError> for ExportFault {
    ghost use Rattle.bd_stream.specs.declared.fault.ExportFault.TheVariants.{NoMemory};

    ghost from_gives = { λ _ fault. fault ≡ NoMemory };

    fn from(_error: AllocError) -> ExportFault {
        ExportFault::NoMemory
    }
}
