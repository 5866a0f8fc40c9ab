ghost use Rattle.std.specs.Prelude.{◌≡◌, ◌+◌, ◌≤◌, ◌++◌, length, take};
ghost use Rattle.bd_device.specs.declared.fault.ImageFault.{ImageFault};
ghost use Rattle.bd_volume.specs.Faults.{image_fault_of};
ghost use Rattle.bd_shell.specs.Fault.{ComesAtStart, IsOfImage, IsStartFault, fault_line, fault_of_image, status_of};

use bd_message::Counter;
use bd_volume::Fault as VolumeFault;
use itoa::Buffer;
use std::alloc::AllocError;

/// The bytes of a buffer for a fault's line, which has room for each.
pub const FAULT_SIZE: usize = 64;

/// What ends a run before its script does.
#[derive(Clone, Copy, Debug, PartialEq, Eq)]
pub enum Fault {
    /// The device failed.
    Device,
    /// The bytes at this block aren't of the format.
    Damaged {
        /// The number of the block.
        block: u64,
    },
    /// The source failed.
    Source,
    /// There is no memory.
    Memory,
    /// The script has more than 16,777,216 bytes.
    TooLong,
    /// A counter had to rise past its last value.
    Worn(Counter),
    /// The sink failed.
    Sink,
}

impl Fault {
    /// The status that the program ends with.
    pub fn status(self) -> u8
        ensures { result ≡ status_of self }
    {
        match self {
            Fault::Device => 3,
            Fault::Damaged { .. } => 4,
            Fault::Source => 5,
            Fault::Memory => 6,
            Fault::TooLong => 7,
            Fault::Worn(_) => 8,
            Fault::Sink => 9,
        }
    }

    /// The fault of a call whose image isn't made.
    pub fn of_image(fault: VolumeFault) -> Fault
        requires { IsOfImage fault }
        ensures { (cause : ImageFault) → fault ≡ image_fault_of cause
            → result ≡ fault_of_image cause }
    {
        match fault {
            VolumeFault::Device => Fault::Device,
            VolumeFault::Damaged { block } => Fault::Damaged { block },
            VolumeFault::NoMemory => Fault::Memory,
            VolumeFault::Worn(_) | VolumeFault::Full { .. } | VolumeFault::Stopped { .. } => {
                unreachable!()
            }
        }
    }

    /// The fault of a run whose volume doesn't start.
    pub fn of_start(fault: VolumeFault) -> Fault
        requires { ComesAtStart fault }
        ensures { IsStartFault fault result }
    {
        match fault {
            VolumeFault::Device => Fault::Device,
            VolumeFault::Damaged { block } => Fault::Damaged { block },
            VolumeFault::Worn(counter) => Fault::Worn(counter),
            VolumeFault::NoMemory => Fault::Memory,
            VolumeFault::Full { .. } | VolumeFault::Stopped { .. } => unreachable!(),
        }
    }

    /// Writes the line that says so, with its newline, at the front of `into`, and returns how many
    /// bytes it has: none for the sink's own fault.
    pub fn write_line(self, into: &mut [u8; FAULT_SIZE]) -> usize
        ensures text { take result into.new ≡ fault_line self }
        ensures bound { result ≤ FAULT_SIZE }
    {
        match self {
            Fault::Device => put(into, 0, b"fault device\n"),
            Fault::Damaged { block } => {
                let end = put(into, 0, b"fault damaged ");
                let mut digits = Buffer::new();
                let end = put(into, end, digits.format(block).as_bytes());
                put(into, end, b"\n")
            }
            Fault::Source => put(into, 0, b"fault source\n"),
            Fault::Memory => put(into, 0, b"fault memory\n"),
            Fault::TooLong => put(into, 0, b"fault too-long\n"),
            Fault::Worn(counter) => put(into, 0, worn_line(counter)),
            Fault::Sink => 0,
        }
    }
}

// The line of a counter that had to rise past its last value.
fn worn_line(counter: Counter) -> &'static [u8]
    ensures text { result.now ≡ fault_line (Fault.Worn counter) }
    ensures bound { length result.now ≤ FAULT_SIZE }
{
    match counter {
        Counter::Count => b"fault worn count\n",
        Counter::NextId => b"fault worn id\n",
        Counter::Level => b"fault worn level\n",
        Counter::Refs => b"fault worn refs\n",
        Counter::Epoch => b"fault worn epoch\n",
        Counter::Flushes => b"fault worn flushes\n",
    }
}

// Writes bytes at a place, and returns the place after them.
fn put(into: &mut [u8; FAULT_SIZE], at: usize, bytes: &[u8]) -> usize
    requires room { at + length bytes.now ≤ FAULT_SIZE }
    ensures text { take result into.new ≡ take at into.old ++ bytes.now }
    ensures end { result ≡ at + length bytes.now }
{
    let end = at + bytes.len();
    into[at..end].copy_from_slice(bytes);
    end
}

impl From<AllocError> for Fault {
    ghost use Rattle.std.specs.Prelude.{◌≡◌};
    ghost use Rattle.bd_shell.specs.declared.fault.Fault.TheVariants.{Memory};

    ghost from_gives = { λ _ fault. fault ≡ Memory };

    fn from(_error: AllocError) -> Fault {
        Fault::Memory
    }
}
