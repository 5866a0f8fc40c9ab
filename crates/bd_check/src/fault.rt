//! Why there is no verdict.

use bd_message::Counter;

/// Why there is no verdict.
#[derive(Clone, Copy, Debug, PartialEq, Eq)]
pub enum CheckFault {
    /// The device failed.
    DeviceFault,
    /// A counter had to rise past its last value for a command of the log.
    Worn(Counter),
    /// There is no memory.
    NoMemory,
}
