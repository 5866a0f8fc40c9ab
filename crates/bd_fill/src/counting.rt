//! A sink that counts replies.

ghost use Rattle.std.specs.Prelude.{◌≡◌, ◌++◌, Some, [], ◌∷◌};
ghost use Rattle.bd_fill.specs.Counting.{tally_of};

use crate::history::History;
use crate::tally::Tally;
use bd_io::{Failed, Sink};
use std::marker::Model;

/// A sink that counts the lines that are written to it, and keeps no byte of them. It takes no
/// memory and never fails. It is seen as what was written.
#[derive(Drop)]
pub struct CountingSink {
    tally: Tally,
    history: History,
}

impl Model for CountingSink {
    ghost use Rattle.std.specs.Prelude.{◌≡◌, ℕ, List};
    ghost use Rattle.bd_fill.specs.Counting.{tally_of};

    ghost Value = { List ℕ };

    ghost view = { λ s. s.history.bytes };

    ghost invariant = { λ s. s.tally ≡ tally_of s.history.bytes };
}

impl CountingSink {
    /// Before anything was written.
    pub fn new() -> CountingSink
        ensures { result ≡ [] }
    {
        CountingSink {
            tally: Tally::new(),
            history: History::new(),
        }
    }

    /// How many lines were written, by how they begin.
    pub fn tally(&self) -> Tally
        ensures { result ≡ tally_of self.now }
    {
        self.tally
    }

    // One byte more is written.
    fn count(&mut self, byte: &u8)
        ensures { self.new ≡ self.old ++ byte.now ∷ [] }
    {
        self.tally = self.tally.after(*byte);
        self.history = self.history.and(byte);
    }
}

impl Sink for CountingSink {
    ghost written = { λ s. Some s };

    ghost fault_count = { λ _. 0 };

    ghost waiting = { λ _. 0 };

    fn put(&mut self, piece: &[u8]) -> Result<usize, Failed> {
        for byte in piece {
            self.count(byte);
        }
        Ok(piece.len())
    }

    fn flush(&mut self) -> Result<(), Failed> {
        Ok(())
    }

    fn faults(&self) -> u64 {
        0
    }
}
