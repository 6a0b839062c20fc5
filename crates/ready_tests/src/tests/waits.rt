// The bits of a handle and what waits for them, in runs that are told by what each wake names.
use crate::tests::named::{Bit, union};
use ready_driver::{Direction, Ready, ScheduledIo, Waiter};
use rent_buf::{NumList, OutOfMemory};
use std::alloc::Global;
use std::process::Abort;

// One step, and what it is to answer. Bits are those of a list together.
enum Step {
    // An operation is polled with a task, in a direction.
    Poll(u64, u64, Direction, Option<Bit>),
    // Bits wake these tasks.
    Wake(&'static [Bit], &'static [u64]),
    // Bits are added.
    Set(&'static [Bit]),
    // Those of a direction are taken away.
    Clear(Direction),
    // The bits are these.
    Bits(Bit),
    // An operation waits no longer, and waited with this task.
    Forget(u64, Option<u64>),
    // What an operation waits with.
    Waiting(u64, Option<Waiter>),
}

use Direction::{Read, Write};
use Step::{Bits, Clear, Forget, Poll, Set, Waiting, Wake};

// What operation 5 waits with.
const FIFTH: Waiter = Waiter {
    serial: 5,
    task: 50,
    direction: Write,
};

// Runs: the name of each, and its steps.
const ROWS: &[(&str, &[Step])] = &[
    (
        "a poll waits until a wake",
        &[
            Poll(0, 7, Read, None),
            Wake(&[Bit::Readable], &[7]),
            Wake(&[Bit::Readable], &[]),
            Bits(Bit::Empty),
            Set(&[Bit::Readable, Bit::WriteClosed]),
            Poll(0, 8, Read, Some(Bit::Readable)),
            Clear(Read),
            Bits(Bit::WriteClosed),
            Waiting(0, None),
        ],
    ),
    (
        "wakes keep the order",
        &[
            Poll(4, 40, Read, None),
            Poll(3, 30, Write, None),
            Poll(9, 90, Read, None),
            Poll(5, 50, Write, None),
            Poll(4, 41, Read, None),
            Poll(2, 20, Read, None),
            Forget(9, Some(90)),
            Forget(9, None),
            Wake(&[], &[]),
            Wake(&[Bit::ReadClosed], &[41, 20]),
            Waiting(5, Some(FIFTH)),
            Poll(4, 42, Read, None),
            Wake(&[Bit::Readable, Bit::Writable], &[30, 50, 42]),
            Waiting(5, None),
        ],
    ),
];

// The bits that a poll answers.
fn ready_of(bit: &Option<Bit>) -> Option<Ready> {
    match bit {
        Some(bit) => Some(bit.ready()),
        None => None,
    }
}

// Two answers are the same.
fn is_same<T: PartialEq>(answer: &T, want: &T) -> bool {
    answer == want
}

// The tasks that were woken are these.
fn are_tasks(woken: &NumList, tasks: &[u64]) -> bool {
    woken.as_slice() == tasks
}

// Makes a step, and answers whether it is as it says.
fn make_step(io: &mut ScheduledIo, step: &Step) -> Result<bool, OutOfMemory> {
    match step {
        Poll(serial, task, dir, want) => {
            let ready = io.poll_readiness(*serial, *task, *dir)?;
            Ok(is_same(&ready, &ready_of(want)))
        }
        Wake(bits, tasks) => Ok(are_tasks(&io.wake(union(bits)), tasks)),
        Set(bits) => {
            io.set_readiness(union(bits));
            Ok(true)
        }
        Clear(dir) => {
            io.clear_readiness(dir.mask());
            Ok(true)
        }
        Bits(want) => Ok(is_same(&io.readiness(), &want.ready())),
        Forget(serial, want) => Ok(is_same(&io.forget(*serial), want)),
        Waiting(serial, want) => Ok(is_same(&io.waiter(*serial), want)),
    }
}

// Makes steps in order. It answers the place of the first one that isn't as it says; None: each is.
fn run(io: &mut ScheduledIo, steps: &[Step]) -> Result<Option<usize>, OutOfMemory> {
    for i in 0..steps.len() {
        if !make_step(io, &steps[i])? {
            return Ok(Some(i));
        }
    }
    Ok(None)
}

// Makes the steps of a row on new bits, each of which is as it says.
fn run_row(
    rt: &impl Abort,
    alloc: Global,
    (name, steps): &(&str, &[Step]),
) -> Result<(), OutOfMemory> {
    assert_eq!(rt;
        run(&mut ScheduledIo::new(alloc), steps)?,
        None,
        "in the row {name:?}"
    );
    Ok(())
}

#[test]
fn operations_wait_for_bits(rt: HostRuntime) -> Result<(), OutOfMemory> {
    for i in 0..ROWS.len() {
        run_row(&rt, rt.alloc(), &ROWS[i])?;
    }
    Ok(())
}
