ghost use Rattle.std.specs.Prelude.{◌≡◌, ℕ, List, Option, Some, map, string_bytes, IsNone, IfSome, IfOk, IsTrue, ⊤};
ghost use Rattle.bd_io.specs.Takes.{Takes, no_takes};
ghost use Rattle.bd_shell.specs.Fault.{faults};
ghost use Rattle.bd_calls.specs.Offered.{offered};
ghost use Rattle.bd_calls.specs.Run.{EndsUncalled, ends, disk_in_memory, Does, Uses, WritesLast, seen_in_memory, usage_line};

use crate::calling::run;
use bd_device::MemDevice;
use bd_io::{MemSink, MemSource};
use bd_limits::MAX_PIECE;
use bd_shell::Outcome;
use std::alloc::{AllocError, Global};

/// Runs the program over memory: a script in pieces of up to 4,096 bytes.
pub fn row(
    alloc: Global,
    dev: &mut MemDevice,
    words: &[String],
    script: &[u8],
    sink: &mut MemSink,
) -> Result<Outcome, AllocError>
    ensures does { IfOk result (λ r. IfSome (offered (map string_bytes words.now)) (λ call.
        (rest : Option (List ℕ)) × (takes : Option Takes) × (source : ℕ)
        × Does call r.status r.acks
        (ends (disk_in_memory dev.old) (Some script.now) (Some no_takes)
        (Some sink.old.written) (faults dev.old.plan.faults 0 sink.old.plan.faults))
        (ends (disk_in_memory dev.new) rest takes (Some sink.new.written)
        (faults dev.new.plan.faults source sink.new.plan.faults)))) }
    ensures device { IfOk result (λ r. IfSome (offered (map string_bytes words.now)) (λ call.
        Uses call r.status (seen_in_memory dev.old) (seen_in_memory dev.new)
        (IsTrue dev.new.attached) (dev.new ≡ dev.old) ⊤)) }
    ensures refused { IfOk result (λ r.
        r.status ≡ 2 → IsNone (offered (map string_bytes words.now))) }
    ensures uncalled { IfOk result (λ r. IsNone (offered (map string_bytes words.now))
        → EndsUncalled r.status (Some sink.old.written) (Some sink.new.written)
        sink.old.plan.faults sink.new.plan.faults) }
    ensures usage { IfOk result (λ r. r.status ≡ 2 → WritesLast usage_line
        (Some sink.old.written) (Some sink.new.written)
        sink.old.plan.faults sink.new.plan.faults) }
    ensures untouched { IfOk result (λ r. IsNone (offered (map string_bytes words.now))
        → dev.new ≡ dev.old) }
{
    let mut src = MemSource::new(alloc, script, MAX_PIECE, &[])?;
    Ok(run(alloc, words, dev, &mut src, sink))
}
