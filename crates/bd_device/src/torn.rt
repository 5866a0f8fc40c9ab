ghost use Rattle.std.specs.Prelude.{◌≡◌, replicate};
ghost use Rattle.bd_limits.specs.Limits.{block_size};
ghost use Rattle.bd_device.specs.Blocks.{IsBlock};

use crate::{BLOCK_SIZE, WriteRecord};

/// What a loss of power leaves of a block that was written since the last barrier that succeeded.
#[derive(Clone, Copy)]
pub enum Torn {
    /// The bytes that it had at that barrier.
    Old,
    /// The bytes that a read gave before the loss.
    New,
    /// This byte, 4,096 times.
    Fill(u8),
}

impl Torn {
    ghost use Rattle.bd_device.specs.Crash.{torn_bytes};

    // What it leaves of the block of a write in flight, of which a read gives these bytes.
    pub(crate) fn bytes(self, write: &WriteRecord, now: &[u8; BLOCK_SIZE]) -> [u8; BLOCK_SIZE]
        requires before { IsBlock write.now.before }
        requires now { IsBlock now.now }
        ensures torn { result ≡ torn_bytes self write.now now.now }
        ensures whole { IsBlock result }
    {
        match self {
            Torn::Old => write.before,
            Torn::New => *now,
            Torn::Fill(byte) => full_block(byte),
        }
    }
}

// A block of this byte.
fn full_block(byte: u8) -> [u8; BLOCK_SIZE]
    ensures bytes { result ≡ replicate block_size byte }
    ensures whole { IsBlock result }
{
    [byte; BLOCK_SIZE]
}
