ghost use Rattle.std.specs.Prelude.{◌≡◌, IfOk};

use crate::{Failed, Sink};
use std::alloc::{AllocError, Global};
use std::io::{BufWriter, Write};
use std::marker::Model;

/// A sink over a writer of std, which doesn't tell its contents. It gathers up to 8,192 bytes, which
/// go to the writer where a piece has no room beside them and at a flush. Each error of the writer
/// is a fault, but that of an interrupted write of gathered bytes, which is tried again; so is a
/// write that takes nothing of a piece that isn't empty. Bytes that weren't passed on stay. It is
/// seen as its count of faults and how many bytes it keeps back.
#[derive(Drop)]
pub struct StdSink<W: Write + Drop> {
    writer: BufWriter<W>,
    faults: u64,
}

impl<W: Write + Drop> Model for StdSink<W> {
    ghost use Rattle.std.specs.Prelude.{length};
    ghost use Rattle.std.specs.Io.Buffered.{writer_buffer};
    ghost use Rattle.bd_io.specs.Gathering.{GatheringSink};

    ghost Value = { GatheringSink };

    ghost view = { λ s. record {
      faults = s.faults;
      waiting = length (writer_buffer s.writer);
    } };
}

impl<W: Write + Drop> StdSink<W> {
    /// A sink that passes its bytes on to this writer, which is let go where there is no memory.
    pub fn new(alloc: Global, writer: W) -> Result<StdSink<W>, AllocError>
        ensures { IfOk result (λ sink. sink ≡ record { faults = 0; waiting = 0 }) }
    {
        match BufWriter::new(alloc, writer) {
            Ok(writer) => Ok(StdSink { writer, faults: 0 }),
            Err(_) => Err(AllocError),
        }
    }
}

impl<W: Write + Drop> Sink for StdSink<W> {
    ghost use Rattle.std.specs.Prelude.{None};

    ghost written = { λ _. None };

    ghost fault_count = { λ s. s.faults };

    ghost waiting = { λ s. s.waiting };

    fn put(&mut self, piece: &[u8]) -> Result<usize, Failed> {
        match self.writer.write(piece) {
            Ok(count) if count > 0 || piece.is_empty() => Ok(count),
            Ok(_) | Err(_) => {
                self.faults = self.faults.saturating_add(1);
                Err(Failed)
            }
        }
    }

    fn flush(&mut self) -> Result<(), Failed> {
        match self.writer.flush() {
            Ok(()) => Ok(()),
            Err(_) => {
                self.faults = self.faults.saturating_add(1);
                Err(Failed)
            }
        }
    }

    fn faults(&self) -> u64 {
        self.faults
    }
}
