//! How the program fills an image with generated files.

ghost use Rattle.std.specs.Prelude.{◌≡◌, ◌≢◌, ◌≤◌, ◌⊎◌, ℕ, Err, OnOk};
ghost use Rattle.bd_io.specs.Cause.{next_count};
ghost use Rattle.bd_fill.specs.Counting.{tally_line};
ghost use Rattle.bd_words.specs.Words.{fill_limit};
ghost use Rattle.bd_shell.specs.Fault.{IsCaused};
ghost use Rattle.bd_calls.specs.Fill.{CanEndLines, TellsSummary, cut_status, result_named};
ghost use Rattle.bd_calls.specs.Work.{disk};
ghost use Rattle.bd_calls.specs.Run.{IsFlushed, RanGenerated};
ghost use Rattle.bd_shell.specs.Session.{end_of};
ghost use Rattle.bd_shell.specs.Shell.{counts_of};

use crate::calling::{Ended, end_call, run_image};
use crate::format::say;
use bd_device::Attach;
use bd_fill::{CountingSink, GeneratedSource, SUMMARY_SIZE, Tally};
use bd_io::Sink;
use bd_shell::{Fault, Outcome};
use std::alloc::Global;

/// How the lines of a generated script ended, and how many replies there were.
#[derive(Debug, Drop)]
pub struct Filled {
    pub ended: Ended,
    pub tally: Tally,
}

/// Executes the script of a seed, with so many drawn lines, on the image of this name, and counts
/// the replies. `Memory` comes also where there is none for a line of the script.
pub fn fill_image<D: Attach>(
    alloc: Global,
    image: &str,
    seed: u32,
    count: u32,
    dev: &mut D,
) -> Filled
    requires { count ≤ fill_limit }
    ensures ran { RanGenerated seed count (end_of result.ended.result) result.ended.acks
        (tally_line result.tally)
        (disk (D.shows dev.old image.now) (D.call_count dev.old)
        (D.left_behind dev.old image.now) (D.write_fault_count dev.old)
        (D.last_failed dev.old))
        (disk (D.shows dev.new image.now) (D.call_count dev.new)
        (D.left_behind dev.new image.now) (D.write_fault_count dev.new)
        (D.last_failed dev.new)) }
    ensures kind { CanEndLines (end_of result.ended.result) }
    ensures attached { D.is_named dev.new image.now ⊎ ((result.ended.result ≡ Err Fault.Device)
        × (D.block_count dev.new ≡ 0)
        × (D.call_count dev.new ≡ next_count (D.call_count dev.old))
        × (D.shows dev.new image.now ≡ D.shows dev.old image.now)) }
    ensures writes { OnOk result.ended.result
        (D.write_fault_count dev.new ≡ D.write_fault_count dev.old) }
    ensures same_loans { D.loans dev.new ≡ D.loans dev.old }
    ensures cause { (sink : ℕ) → IsCaused (counts_of D.Device dev.old sink)
        (counts_of D.Device dev.new sink) (D.last_failed dev.new) result.ended.result }
{
    let mut src = GeneratedSource::new(alloc, seed, count);
    let mut replies = CountingSink::new();
    let Ended { result, acks } = run_image(alloc, image, dev, &mut src, &mut replies);
    Filled {
        ended: Ended {
            result: name_memory(result),
            acks,
        },
        tally: replies.tally(),
    }
}

// A fault of the generated script's source is want of memory.
fn name_memory(ended: Result<(), Fault>) -> Result<(), Fault>
    ensures { result ≡ result_named ended }
{
    match ended {
        Ok(()) => Ok(()),
        Err(Fault::Source) => Err(Fault::Memory),
        Err(fault) => Err(fault),
    }
}

// The status where the sink fails at the summary: that of the fault before, if there was one.
fn status_after(ended: Result<(), Fault>) -> u8
    ensures { result ≡ cut_status (end_of ended) }
{
    match ended {
        Ok(()) => Fault::Sink.status(),
        Err(fault) => fault.status(),
    }
}

/// Writes the summary, and after it the line of the fault that ended the lines, and has the sink
/// pass that on. Where the sink fails nothing more is written, and its fault ends the call where
/// none did before.
pub fn end_fill<K: Sink>(sink: &mut K, filled: Filled) -> Outcome
    requires { CanEndLines (end_of filled.ended.result) }
    ensures told { TellsSummary (end_of filled.ended.result) result.status
        (tally_line filled.tally) (K.written sink.old) (K.written sink.new)
        (K.fault_count sink.old) (K.fault_count sink.new) }
    ensures known { result.status ≢ 2 }
    ensures acks { result.acks ≡ filled.ended.acks }
    ensures flushed { IsFlushed (K.waiting sink.new)
        (K.fault_count sink.old) (K.fault_count sink.new) }
    ensures all_flushed { result.status ≡ 0 → K.waiting sink.new ≡ 0 }
    ensures later { K.fault_count sink.old ≤ K.fault_count sink.new }
{
    let Filled { ended, tally } = filled;
    let mut line = [0; SUMMARY_SIZE];
    let size = tally.write_line(&mut line);
    match say(sink, &line[..size]) {
        Ok(()) => end_call(sink, ended),
        Err(_) => {
            let Ended { result, acks } = ended;
            Outcome {
                status: status_after(result),
                acks,
            }
        }
    }
}
