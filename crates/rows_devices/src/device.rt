//! Devices: calls in turn, and what each of them gives.

use bd_device::{Attach, BLOCK_SIZE, Device, FaultyDevice, FuseDevice, MemDevice, Torn, put};
use bd_io::Failed;
use std::process::Abort;
use std::test::Fail;

/// A call of a device, or a look at it.
#[derive(Clone, Copy)]
pub enum Call {
    /// Writes a block of one byte.
    Write(u64, u8),
    /// Reads a block, and gives its last byte.
    Read(u64),
    /// Writes the first two blocks as one call, each of one byte.
    WriteTwo(u8, u8),
    /// Reads the first two blocks as one call, and gives the last byte of each as the digits of a
    /// number.
    ReadTwo,
    Barrier,
    Attach,
    /// Attaches an image of so many blocks, which is made.
    Make(u64),
    Blocks,
    Calls,
    Faults,
    WriteFaults,
}

/// What a call gives that is done, and gives nothing else.
pub const DONE: u64 = 0;

/// What a call gives that fails.
pub const FAILS: u64 = u64::MAX;

/// Calls, and what each of them gives.
pub type Calls = &'static [(Call, u64)];

/// Writes a block of this byte.
fn write_byte<D: Device>(device: &mut D, b: u64, byte: u8) -> Result<(), Failed> {
    if b >= device.blocks() {
        return Err(Failed);
    }
    device.write(b, &[byte; BLOCK_SIZE])
}

/// The last byte of a block.
fn read_byte<D: Device>(device: &mut D, b: u64) -> u64 {
    if b >= device.blocks() {
        return FAILS;
    }
    let mut into = [0; BLOCK_SIZE];
    match device.read(b, &mut into) {
        Ok(()) => u64::from(into[BLOCK_SIZE - 1]),
        Err(Failed) => FAILS,
    }
}

/// Writes the first two blocks, each of one of these bytes.
fn write_two<D: Device>(device: &mut D, first: u8, second: u8) -> Result<(), Failed> {
    if device.blocks() < 2 {
        return Err(Failed);
    }
    let mut from = [first; 2 * BLOCK_SIZE];
    put(&mut from, BLOCK_SIZE, &[second; BLOCK_SIZE]);
    device.write_run(0, &from, 2)
}

/// The last bytes of the first two blocks, as digits.
fn read_two<D: Device>(device: &mut D) -> u64 {
    if device.blocks() < 2 {
        return FAILS;
    }
    let mut into = [0; 2 * BLOCK_SIZE];
    match device.read_run(0, &mut into, 2) {
        Ok(()) => u64::from(into[BLOCK_SIZE - 1])
            .saturating_mul(10)
            .saturating_add(u64::from(into[2 * BLOCK_SIZE - 1])),
        Err(Failed) => FAILS,
    }
}

/// Whether a call was done.
fn told(done: Result<(), Failed>) -> u64 {
    match done {
        Ok(()) => DONE,
        Err(Failed) => FAILS,
    }
}

/// Makes a call on the image of this name, and returns what it gives.
fn made<D: Attach>(device: &mut D, name: &str, call: Call) -> u64 {
    match call {
        Call::Write(b, byte) => told(write_byte(device, b, byte)),
        Call::Read(b) => read_byte(device, b),
        Call::WriteTwo(first, second) => told(write_two(device, first, second)),
        Call::ReadTwo => read_two(device),
        Call::Barrier => told(device.barrier()),
        Call::Attach => told(device.attach(name, None)),
        Call::Make(blocks) => told(device.attach(name, Some(blocks))),
        Call::Blocks => device.blocks(),
        Call::Calls => device.calls(),
        Call::Faults => device.faults(),
        Call::WriteFaults => device.write_faults(),
    }
}

/// Makes calls in turn on the image of this name, each of which gives what is wanted.
pub fn run<D: Attach>(
    rt: &impl Abort,
    label: &str,
    device: &mut D,
    name: &str,
    calls: &[(Call, u64)],
) {
    for (at, (call, want)) in calls.iter().enumerate() {
        let found = made(device, name, *call);
        assert_eq!(rt; found, *want, "{label}: call {at}");
    }
}

/// A call that fails for want of room for its record leaves what was there.
const ONE_WRITE: Calls = &[
    (Call::Write(1, 7), DONE),
    (Call::Barrier, DONE),
    (Call::Write(2, 8), FAILS),
    (Call::Read(0), 0),
    (Call::Read(1), 7),
    (Call::Read(2), 0),
];

#[test]
fn reads_give_what_was_written(rt: HostRuntime) -> Result<(), Fail> {
    let mut device = MemDevice::new(rt.alloc(), 3, 1, &[])?;
    run(&rt, "one write", &mut &mut device, "img", ONE_WRITE);
    assert_eq!(rt; device.writes().len(), 1);
    Ok(())
}

/// An attach takes the image or makes one, of no more blocks than there are.
const ATTACHES: Calls = &[
    (Call::Write(1, 7), DONE),
    (Call::Attach, DONE),
    (Call::Blocks, 3),
    (Call::Make(2), DONE),
    (Call::Blocks, 2),
    (Call::Make(4), FAILS),
    (Call::Blocks, 0),
    (Call::Attach, DONE),
    (Call::Blocks, 2),
    (Call::Read(1), 7),
];

/// What calls give where the one of this number fails.
const FAILING: [(u64, Calls); 4] = [
    (
        1,
        &[
            (Call::Write(0, 5), FAILS),
            (Call::Barrier, DONE),
            (Call::Read(0), 0),
            (Call::Attach, DONE),
            (Call::WriteFaults, 1),
        ],
    ),
    (
        2,
        &[
            (Call::Write(0, 5), DONE),
            (Call::Barrier, FAILS),
            (Call::Read(0), 5),
            (Call::Attach, DONE),
            (Call::WriteFaults, 1),
        ],
    ),
    (
        3,
        &[
            (Call::Write(0, 5), DONE),
            (Call::Barrier, DONE),
            (Call::Read(0), FAILS),
            (Call::Attach, DONE),
            (Call::WriteFaults, 0),
        ],
    ),
    (
        4,
        &[
            (Call::Write(0, 5), DONE),
            (Call::Barrier, DONE),
            (Call::Read(0), 5),
            (Call::Attach, FAILS),
            (Call::WriteFaults, 0),
        ],
    ),
];

#[test]
fn an_attach_takes_the_image_or_makes_one(rt: HostRuntime) -> Result<(), Fail> {
    let mut device = MemDevice::new(rt.alloc(), 3, 1, &[])?;
    run(&rt, "attaches", &mut &mut device, "img", ATTACHES);
    Ok(())
}

#[test]
fn each_call_fails_where_it_is_told_to(rt: HostRuntime) -> Result<(), Fail> {
    for (fail, calls) in FAILING {
        let mut device = MemDevice::new(rt.alloc(), 2, 9, &[fail])?;
        run(&rt, "a call that fails", &mut device, "img", calls);
    }
    Ok(())
}

/// Writes before a loss of power, the first of which a barrier followed, and the last of which fails.
const IN_FLIGHT: Calls = &[
    (Call::Write(0, 1), DONE),
    (Call::Barrier, DONE),
    (Call::Write(0, 2), DONE),
    (Call::Write(1, 3), FAILS),
];

/// What is there after a loss of power that tears so.
const TORN: [(Torn, Calls); 3] = [
    (
        Torn::Old,
        &[(Call::Read(0), 1), (Call::Read(1), 0), (Call::Read(2), 0)],
    ),
    (
        Torn::New,
        &[(Call::Read(0), 2), (Call::Read(1), 0), (Call::Read(2), 0)],
    ),
    (
        Torn::Fill(9),
        &[(Call::Read(0), 9), (Call::Read(1), 9), (Call::Read(2), 0)],
    ),
];

#[test]
fn a_loss_of_power_tears_what_is_in_flight(rt: HostRuntime) -> Result<(), Fail> {
    for (how, left) in TORN {
        let mut device = MemDevice::new(rt.alloc(), 3, 4, &[4])?;
        run(&rt, "in flight", &mut device, "img", IN_FLIGHT);
        device.crash(how);
        run(&rt, "after a loss of power", &mut device, "img", left);
        assert_eq!(rt; device.writes().len(), 0);
    }
    Ok(())
}

/// Calls of which two are passed on.
const BLOWN: Calls = &[
    (Call::Write(0, 1), DONE),
    (Call::Barrier, DONE),
    (Call::Barrier, FAILS),
    (Call::Read(0), FAILS),
    (Call::Attach, FAILS),
    (Call::Calls, 5),
    (Call::Faults, 3),
    (Call::WriteFaults, 1),
    (Call::Blocks, 0),
];

#[test]
fn a_fuse_blows_once_and_for_all(rt: HostRuntime) -> Result<(), Fail> {
    let mut device = FuseDevice::new(MemDevice::new(rt.alloc(), 3, 4, &[])?, 2);
    run(&rt, "a fuse", &mut device, "img", BLOWN);
    let inner = device.into_inner();
    assert_eq!(rt; (inner.calls(), inner.blocks()), (2, 3));
    Ok(())
}

/// Calls of which the second and the third fail.
const LISTED: Calls = &[
    (Call::Write(0, 1), DONE),
    (Call::Write(0, 1), FAILS),
    (Call::Attach, FAILS),
    (Call::Blocks, 0),
    (Call::Attach, DONE),
    (Call::Read(0), 1),
    (Call::Calls, 5),
    (Call::Faults, 2),
    (Call::WriteFaults, 1),
    (Call::Blocks, 3),
];

#[test]
fn listed_calls_fail_over_another_device(rt: HostRuntime) -> Result<(), Fail> {
    let inner = MemDevice::new(rt.alloc(), 3, 4, &[])?;
    let mut device = FaultyDevice::new(inner, [2, 3].to_vec(rt.alloc())?);
    run(&rt, "listed calls", &mut device, "img", LISTED);
    Ok(())
}
