//! Mirrors of two devices in memory: calls of a mirror and of its halves.

use crate::device::{Call, Calls, DONE, FAILS, run};
use bd_device::{Attach, FaultyDevice, FuseDevice, MemDevice, Torn};
use bd_mirror::Mirror;
use std::alloc::{AllocError, Global};
use std::process::Abort;
use std::test::Fail;

/// How many calls of the first half an attach takes that copies it to the second one, which has two
/// blocks and a mark.
const FIRST_CALLS: u64 = 9;

/// How many calls of the second half that takes.
const SECOND_CALLS: u64 = 6;

/// How many calls of a half the writes and barriers of `AGAIN` take.
const TURN_CALLS: u64 = 4;

/// The mirror is made anew, and two blocks are written and read.
const MADE: Calls = &[
    (Call::Make(2), DONE),
    (Call::Write(0, 1), DONE),
    (Call::Barrier, DONE),
    (Call::Write(1, 2), DONE),
    (Call::Barrier, DONE),
    (Call::Read(0), 1),
    (Call::Read(1), 2),
];

/// It is attached again, and both are written once more.
const AGAIN: Calls = &[
    (Call::Attach, DONE),
    (Call::Write(0, 3), DONE),
    (Call::Barrier, DONE),
    (Call::Write(1, 4), DONE),
    (Call::Barrier, DONE),
    (Call::Read(0), 3),
    (Call::Read(1), 4),
];

/// It can't be attached again.
const REFUSED: Calls = &[(Call::Attach, FAILS)];

/// What is there before `AGAIN`, and after it.
const OLD: Calls = &[(Call::Read(0), 1), (Call::Read(1), 2)];

const NEW: Calls = &[(Call::Read(0), 3), (Call::Read(1), 4)];

/// The same where it is attached first.
const OLD_AGAIN: Calls = &[(Call::Attach, DONE), (Call::Read(0), 1), (Call::Read(1), 2)];

const NEW_AGAIN: Calls = &[(Call::Attach, DONE), (Call::Read(0), 3), (Call::Read(1), 4)];

/// A half in memory: two blocks and a mark.
fn half(alloc: Global) -> Result<MemDevice, AllocError> {
    MemDevice::new(alloc, 3, 99, &[])
}

/// A half of which a call fails.
fn faulty(alloc: Global, call: u64) -> Result<FaultyDevice<MemDevice>, AllocError> {
    let calls = [call].to_vec(alloc)?;
    Ok(FaultyDevice::new(half(alloc)?, calls))
}

/// Makes calls of a mirror of two halves.
fn joined<A: Attach + Drop, B: Attach + Drop>(
    rt: &impl Abort,
    label: &str,
    first: A,
    second: B,
    calls: &[(Call, u64)],
) {
    run(rt, label, &mut Mirror::new(first, second), "x+y", calls);
}

/// A mirror is made, and attached again, where the first half fails after so many calls: what is
/// seen then, in the second half after that, and in the mirror and in both halves at last.
#[derive(Clone, Copy)]
struct Turns {
    calls: u64,
    during: Calls,
    second: Calls,
    at_last: Calls,
    in_each: Calls,
}

fn take_turns(rt: &impl Abort, alloc: Global, turns: &Turns) -> Result<(), AllocError> {
    let mut first = half(alloc)?;
    let mut second = half(alloc)?;
    joined(rt, "made", &mut first, &mut second, MADE);
    let fuse = FuseDevice::new(&mut first, turns.calls);
    joined(rt, "during", fuse, &mut second, turns.during);
    run(rt, "second", &mut second, "y", turns.second);
    joined(rt, "at last", &mut first, &mut second, turns.at_last);
    run(rt, "first at last", &mut first, "x", turns.in_each);
    run(rt, "second at last", &mut second, "y", turns.in_each);
    Ok(())
}

#[test]
fn without_its_first_half_it_goes_on(rt: HostRuntime) -> Result<(), Fail> {
    for calls in FIRST_CALLS..FIRST_CALLS + TURN_CALLS {
        let turns = Turns {
            calls,
            during: AGAIN,
            second: NEW,
            at_last: NEW_AGAIN,
            in_each: NEW,
        };
        take_turns(&rt, rt.alloc(), &turns)?;
    }
    Ok(())
}

#[test]
fn an_attach_that_fails_loses_nothing(rt: HostRuntime) -> Result<(), Fail> {
    for calls in 0..FIRST_CALLS {
        let turns = Turns {
            calls,
            during: REFUSED,
            second: &[],
            at_last: OLD_AGAIN,
            in_each: OLD,
        };
        take_turns(&rt, rt.alloc(), &turns)?;
    }
    Ok(())
}

#[test]
fn one_fault_of_one_half_is_not_seen(rt: HostRuntime) -> Result<(), Fail> {
    let alloc = rt.alloc();
    for call in FIRST_CALLS + 1..FIRST_CALLS + TURN_CALLS + 3 {
        joined(&rt, "first", faulty(alloc, call)?, half(alloc)?, MADE);
    }
    for call in SECOND_CALLS + 1..SECOND_CALLS + TURN_CALLS + 3 {
        joined(&rt, "second", half(alloc)?, faulty(alloc, call)?, MADE);
    }
    Ok(())
}

/// Blocks in a row are one call of a mirror.
const ROWS: Calls = &[
    (Call::Make(2), DONE),
    (Call::WriteTwo(5, 6), DONE),
    (Call::Barrier, DONE),
    (Call::ReadTwo, 56),
    (Call::Read(1), 6),
    (Call::Calls, 5),
    (Call::Attach, DONE),
    (Call::ReadTwo, 56),
];

/// The calls of a half by which the blocks in a row of `ROWS` and the barrier are done.
const ROW_CALLS: u64 = 3;

#[test]
fn blocks_in_a_row_go_to_both(rt: HostRuntime) -> Result<(), Fail> {
    let alloc = rt.alloc();
    joined(&rt, "both", half(alloc)?, half(alloc)?, ROWS);
    run(
        &rt,
        "alone",
        &mut Mirror::new(half(alloc)?, half(alloc)?),
        "x",
        ROWS,
    );
    for call in FIRST_CALLS + 1..FIRST_CALLS + ROW_CALLS + 3 {
        joined(&rt, "first", faulty(alloc, call)?, half(alloc)?, ROWS);
    }
    for call in SECOND_CALLS + 1..SECOND_CALLS + ROW_CALLS + 1 {
        joined(&rt, "second", half(alloc)?, faulty(alloc, call)?, ROWS);
    }
    Ok(())
}

/// Calls of both halves that fail, and what a mirror gives then. It is broken until it is attached
/// again.
const BROKEN: [(u64, u64, Calls); 4] = [
    (
        10,
        7,
        &[
            (Call::Make(2), DONE),
            (Call::Write(0, 1), FAILS),
            (Call::Read(0), FAILS),
            (Call::Barrier, FAILS),
            (Call::Blocks, 2),
            (Call::Attach, DONE),
            (Call::Read(0), 0),
            (Call::Read(1), 0),
        ],
    ),
    (
        11,
        8,
        &[
            (Call::Make(2), DONE),
            (Call::Write(0, 1), DONE),
            (Call::Barrier, FAILS),
            (Call::Read(0), FAILS),
            (Call::Barrier, FAILS),
            (Call::Blocks, 2),
            (Call::Attach, DONE),
            (Call::Read(0), 1),
            (Call::Read(1), 0),
        ],
    ),
    (
        12,
        9,
        &[
            (Call::Make(2), DONE),
            (Call::Write(0, 1), DONE),
            (Call::Barrier, DONE),
            (Call::Write(1, 2), FAILS),
            (Call::Read(0), FAILS),
            (Call::Barrier, FAILS),
            (Call::Blocks, 2),
            (Call::Attach, DONE),
            (Call::Read(0), 1),
            (Call::Read(1), 0),
        ],
    ),
    (
        13,
        10,
        &[
            (Call::Make(2), DONE),
            (Call::Write(0, 1), DONE),
            (Call::Barrier, DONE),
            (Call::Write(1, 2), DONE),
            (Call::Barrier, FAILS),
            (Call::Read(0), FAILS),
            (Call::Barrier, FAILS),
            (Call::Blocks, 2),
            (Call::Attach, DONE),
            (Call::Read(0), 1),
            (Call::Read(1), 2),
        ],
    ),
];

#[test]
fn with_both_failing_it_is_broken(rt: HostRuntime) -> Result<(), Fail> {
    let alloc = rt.alloc();
    for (first, second, calls) in BROKEN {
        joined(
            &rt,
            "broken",
            faulty(alloc, first)?,
            faulty(alloc, second)?,
            calls,
        );
    }
    Ok(())
}

/// Two writes over blocks that a barrier followed, and then a loss of power.
#[derive(Clone, Copy)]
struct Loss {
    /// After so many calls the first half fails.
    calls: u64,
    /// The writes, maybe with a barrier after them.
    writes: Calls,
    /// What the loss leaves of each half.
    first: Torn,
    second: Torn,
}

const WRITES: Calls = &[
    (Call::Attach, DONE),
    (Call::Write(0, 3), DONE),
    (Call::Write(1, 4), DONE),
];

const SETTLED: Calls = &[
    (Call::Attach, DONE),
    (Call::Write(0, 3), DONE),
    (Call::Write(1, 4), DONE),
    (Call::Barrier, DONE),
];

/// What is found after it, with the halves named in their order or turned.
fn lose_power(
    rt: &impl Abort,
    alloc: Global,
    loss: Loss,
    turned: bool,
    found: [u64; 2],
) -> Result<(), AllocError> {
    let mut first = half(alloc)?;
    let mut second = half(alloc)?;
    joined(rt, "made", &mut first, &mut second, MADE);
    let fuse = FuseDevice::new(&mut first, loss.calls);
    joined(rt, "lost", fuse, &mut second, loss.writes);
    first.crash(loss.first);
    second.crash(loss.second);
    let left = [
        (Call::Attach, DONE),
        (Call::Read(0), found[0]),
        (Call::Read(1), found[1]),
    ];
    if turned {
        joined(rt, "turned", &mut second, &mut first, &left);
    } else {
        joined(rt, "named", &mut first, &mut second, &left);
    }
    Ok(())
}

const ALL: u64 = 99;

/// Losses, and what is found after each, with the halves named in their order and turned.
const LOSSES: [(u64, Calls, Torn, Torn, [u64; 2], [u64; 2]); 9] = [
    (ALL, WRITES, Torn::Old, Torn::Old, [1, 2], [1, 2]),
    (ALL, WRITES, Torn::Old, Torn::New, [1, 2], [3, 4]),
    (ALL, WRITES, Torn::New, Torn::Old, [3, 4], [1, 2]),
    (ALL, WRITES, Torn::Fill(9), Torn::New, [9, 9], [3, 4]),
    (ALL, WRITES, Torn::New, Torn::Fill(9), [3, 4], [9, 9]),
    (ALL, SETTLED, Torn::Old, Torn::Fill(9), [3, 4], [3, 4]),
    (
        FIRST_CALLS,
        WRITES,
        Torn::Fill(9),
        Torn::Old,
        [3, 2],
        [3, 2],
    ),
    (
        FIRST_CALLS,
        WRITES,
        Torn::Old,
        Torn::Fill(9),
        [3, 9],
        [3, 9],
    ),
    (
        FIRST_CALLS + 1,
        WRITES,
        Torn::Fill(9),
        Torn::Fill(9),
        [3, 4],
        [3, 4],
    ),
];

#[test]
fn a_loss_of_power_leaves_what_one_half_had(rt: HostRuntime) -> Result<(), Fail> {
    for (calls, writes, first, second, named, turned) in LOSSES {
        let loss = Loss {
            calls,
            writes,
            first,
            second,
        };
        lose_power(&rt, rt.alloc(), loss, false, named)?;
        lose_power(&rt, rt.alloc(), loss, true, turned)?;
    }
    Ok(())
}

/// Names, the blocks of both halves, an attach, what it gives, and how many blocks there are then.
const NAMES: [(&str, u64, u64, Call, u64, u64); 13] = [
    ("x", 3, 3, Call::Attach, DONE, 3),
    ("x", 3, 3, Call::Make(2), DONE, 2),
    ("x+", 3, 4, Call::Attach, DONE, 2),
    ("x+", 3, 4, Call::Make(2), DONE, 2),
    ("x+", 3, 4, Call::Make(3), FAILS, 0),
    ("x+", 3, 4, Call::Make(u64::MAX), FAILS, 0),
    ("x+", 0, 4, Call::Attach, DONE, 0),
    ("x+y", 3, 3, Call::Attach, DONE, 2),
    ("x+y", 3, 4, Call::Attach, DONE, 0),
    ("x+y", 0, 0, Call::Attach, DONE, 0),
    ("x+y", 3, 4, Call::Make(2), DONE, 2),
    ("x+y+z", 3, 3, Call::Make(1), DONE, 1),
    ("x+y", 3, 3, Call::Make(u64::MAX), FAILS, 0),
];

#[test]
fn names_say_which_halves_are_attached(rt: HostRuntime) -> Result<(), Fail> {
    for (name, first, second, call, want, blocks) in NAMES {
        let first = MemDevice::new(rt.alloc(), first, 9, &[])?;
        let second = MemDevice::new(rt.alloc(), second, 9, &[])?;
        let calls = [(call, want), (Call::Blocks, blocks)];
        run(&rt, name, &mut Mirror::new(first, second), name, &calls);
    }
    Ok(())
}
