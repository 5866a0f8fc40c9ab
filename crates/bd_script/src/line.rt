//! A line of a script, and why a line is refused.

ghost use Rattle.std.specs.Prelude.{◌≡◌, Some};
ghost use Rattle.bd_script.specs.Faults.{fault_text};

use bd_command::Command;
use bd_names::PathFault;
use std::alloc::AllocError;
use std::error::Error;
use std::fmt;

/// A line of a script.
#[derive(Debug, Drop)]
pub enum Line {
    /// Runs a command of the plain map.
    Run(Command),
    /// Tells how the last walk went.
    Walk,
    /// Tells how many slots of the image are free.
    Df,
    /// Makes all that was accepted durable.
    Sync,
    /// Makes a checkpoint.
    Checkpoint,
    /// Reclaims slots of what was removed.
    Reclaim,
    /// Ends the run.
    Stop,
}

/// Why a line isn't read.
#[derive(Clone, Copy, Debug, PartialEq, Eq)]
pub enum LineFault {
    /// The line is none of the shell's.
    BadLine,
    /// A word isn't a path of at most 512 bytes, or isn't a name.
    BadPath,
    /// There was no memory.
    NoMemory,
}

impl fmt::Display for LineFault {
    ghost output = { λ fault. Some (fault_text fault) };

    fn fmt<W: fmt::Write>(&self, f: &mut fmt::Formatter<W>) -> fmt::Result {
        match self {
            LineFault::BadLine => write!(f, "bad line"),
            LineFault::BadPath => write!(f, "bad path"),
            LineFault::NoMemory => write!(f, "out of memory"),
        }
    }
}

impl Error for LineFault {}

impl From<PathFault> for LineFault {
    ghost use Rattle.bd_script.specs.Reading.{line_fault};

    ghost from_gives = { λ fault gives. gives ≡ line_fault fault };

    fn from(fault: PathFault) -> LineFault {
        match fault {
            PathFault::BadPath => LineFault::BadPath,
            PathFault::NoMemory => LineFault::NoMemory,
        }
    }
}

impl From<AllocError> for LineFault {
    ghost use Rattle.bd_script.specs.declared.line.LineFault.TheVariants.{NoMemory};

    ghost from_gives = { λ _ gives. gives ≡ NoMemory };

    fn from(_error: AllocError) -> LineFault {
        LineFault::NoMemory
    }
}
