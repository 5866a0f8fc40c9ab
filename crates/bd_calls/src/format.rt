//! How the program makes an image.

ghost use Rattle.std.specs.Prelude.{◌≡◌, ◌⊎◌, false, IsSome, None, Err, OnOk, OnErr, IfOk, IfErr};
ghost use Rattle.std.specs.Io.KnownBytes.{append_known};
ghost use Rattle.bd_io.specs.Cause.{next_count};
ghost use Rattle.bd_io.specs.Written.{WrotePart};
ghost use Rattle.bd_slots.specs.Layout.{IsSlotCount, image_blocks};
ghost use Rattle.bd_device.specs.Device.{Stays};
ghost use Rattle.bd_shell.specs.Fault.{IsCaused, of_sink};
ghost use Rattle.bd_calls.specs.Format.{HasNewImage, IsMadeAt, SaysDone, format_acks};
ghost use Rattle.bd_shell.specs.Session.{end_of};
ghost use Rattle.bd_shell.specs.Shell.{counts_of};

use crate::calling::Ended;
use bd_device::{Attach, Device};
use bd_io::{Failed, Sink, put_all};
use bd_keys::Items;
use bd_shell::{Ack, Fault, flush};
use bd_slots::image_blocks;
use bd_volume::{Refused, Volume};
use std::alloc::Global;

/// What is written once an image is made.
const DONE: &[u8] = b"ok\n";

/// Makes an image of this name and of so many slots, whatever had the name, and writes `ok`. The
/// image stands for the tree of `/` alone and for no commands, and is acknowledged as that. `Device`
/// comes only where a call of the device failed, its last one, and it may have no image then;
/// `Memory` leaves what `Device` leaves; at `Sink` the image is made. At a fault nothing is
/// acknowledged.
pub fn format_image<D: Attach, K: Sink>(
    alloc: Global,
    image: &str,
    slots: u32,
    dev: &mut D,
    sink: &mut K,
) -> Ended
    requires { IsSlotCount slots }
    ensures acks { result.acks ≡ format_acks (end_of result.result) (D.call_count dev.new) }
    ensures size { IsMadeAt (end_of result.result)
        → D.block_count dev.new ≡ image_blocks slots }
    ensures made { IsMadeAt (end_of result.result) → IsSome (D.contents dev.old)
        → HasNewImage D.Device dev.new }
    ensures said { SaysDone (end_of result.result) (K.written sink.old) (K.written sink.new) }
    ensures flushed { OnOk result.result (K.waiting sink.new ≡ 0) }
    ensures attached { D.is_named dev.new image.now ⊎ ((result.result ≡ Err Fault.Device)
        × (D.block_count dev.new ≡ 0)
        × (D.call_count dev.new ≡ next_count (D.call_count dev.old))) }
    ensures same_loans { D.loans dev.new ≡ D.loans dev.old }
    ensures cause { IsCaused (counts_of D.Device dev.old (K.fault_count sink.old))
        (counts_of D.Device dev.new (K.fault_count sink.new)) (D.last_failed dev.new)
        result.result }
{
    if dev.attach(image, Some(image_blocks(slots))).is_err() {
        return Ended {
            result: Err(Fault::Device),
            acks: Items::new(alloc),
        };
    }
    match make_acknowledged(alloc, slots, dev, sink) {
        Ok(acks) => Ended {
            result: Ok(()),
            acks,
        },
        Err(fault) => Ended {
            result: Err(fault),
            acks: Items::new(alloc),
        },
    }
}

// Makes an image on a device that has blocks for it, writes `ok`, and returns the acknowledgement,
// whose memory is taken before: so none is wanting once the image is made.
fn make_acknowledged<D: Attach, K: Sink>(
    alloc: Global,
    slots: u32,
    dev: &mut D,
    sink: &mut K,
) -> Result<Items<Ack>, Fault>
    requires slots { IsSlotCount slots }
    requires size { D.block_count dev.old ≡ image_blocks slots }
    ensures acks { IfOk result (λ acks. acks ≡ format_acks None (D.call_count dev.new)) }
    ensures made { IsMadeAt (end_of result) → IsSome (D.contents dev.old)
        → HasNewImage D.Device dev.new }
    ensures said { SaysDone (end_of result) (K.written sink.old) (K.written sink.new) }
    ensures flushed { OnOk result (K.waiting sink.new ≡ 0) }
    ensures stays { Stays D.Device dev.old dev.new }
    ensures cause { IsCaused (counts_of D.Device dev.old (K.fault_count sink.old))
        (counts_of D.Device dev.new (K.fault_count sink.new)) (D.last_failed dev.new) result }
{
    let mut acks = Vec::new(alloc);
    acks.reserve(1)?;
    make_image(alloc, slots, dev)?;
    say(sink, DONE)?;
    let calls = dev.calls();
    match acks.push(Ack { calls, count: 0 }) {
        Ok(()) => Ok(Items::from_vec(acks)),
        Err(_full) => unreachable!(),
    }
}

// Makes an image on a device that has blocks for it.
fn make_image<D: Attach>(alloc: Global, slots: u32, dev: &mut D) -> Result<(), Fault>
    requires slots { IsSlotCount slots }
    requires size { D.block_count dev.old ≡ image_blocks slots }
    ensures made { OnOk result (IsSome (D.contents dev.old) → HasNewImage D.Device dev.new) }
    ensures kind { IfErr result (λ e. (e ≡ Fault.Device) ⊎ (e ≡ Fault.Memory)) }
    ensures stays { Stays D.Device dev.old dev.new }
    ensures cause { IsCaused (counts_of D.Device dev.old 0) (counts_of D.Device dev.new 0)
        (D.last_failed dev.new) result }
{
    let _ = dev.faults();
    match Volume::format(alloc, &mut *dev, slots) {
        Ok(volume) => {
            let _device = volume.into_device();
            let _ = dev.blocks();
            Ok(())
        }
        Err(refused) => {
            let Refused {
                fault,
                device: _device,
            } = refused;
            Err(Fault::of_image(fault))
        }
    }
}

/// Writes a line, and has the sink pass that on. At `Sink` some of it may be written.
pub fn say<K: Sink>(sink: &mut K, line: &[u8]) -> Result<(), Fault>
    ensures written { OnOk result (K.written sink.new ≡ append_known (K.written sink.old) line.now) }
    ensures part { OnErr result ((K.written sink.new ≡ append_known (K.written sink.old) line.now)
        ⊎ WrotePart line.now (K.written sink.old) (K.written sink.new)) }
    ensures flushed { OnOk result (K.waiting sink.new ≡ 0) }
    ensures kind { IfErr result (λ e. e ≡ Fault.Sink) }
    ensures cause { IsCaused (of_sink (K.fault_count sink.old)) (of_sink (K.fault_count sink.new))
        false result }
{
    match put_all(sink, line) {
        Ok(()) => flush(sink),
        Err(Failed) => Err(Fault::Sink),
    }
}
