// The numbers that stand for bits, as their texts tell them, and each public call on them.
use crate::tests::named::{Bit, Watch, union};
use ready_driver::{Direction, Interest, Ready};
use std::alloc::Global;
use std::fmt::Debug;
use std::process::Abort;
use std::test::Fail;

// The number of each constant.
const NUMBERS: &[(Bit, &str)] = &[
    (Bit::Empty, "Ready { bits: 0 }"),
    (Bit::Readable, "Ready { bits: 1 }"),
    (Bit::Writable, "Ready { bits: 2 }"),
    (Bit::ReadClosed, "Ready { bits: 4 }"),
    (Bit::WriteClosed, "Ready { bits: 8 }"),
    (Bit::ReadCanceled, "Ready { bits: 16 }"),
    (Bit::WriteCanceled, "Ready { bits: 32 }"),
    (Bit::ReadAll, "Ready { bits: 21 }"),
    (Bit::WriteAll, "Ready { bits: 42 }"),
    (Bit::Canceled, "Ready { bits: 48 }"),
];

// The number of what each interest is watched for.
const INTERESTS: &[(Watch, &str)] = &[
    (Watch::Reads, "Interest { bits: 1 }"),
    (Watch::Writes, "Interest { bits: 2 }"),
    (Watch::Both, "Interest { bits: 3 }"),
];

// What is made of two sets of bits.
enum Makes {
    Or,
    OrAssign,
    And,
    Minus,
}

use Makes::{And, Minus, Or, OrAssign};

// Sets that are made of two: the left one is that of a list together.
const MADE: &[(&[Bit], Makes, Bit, &str)] = &[
    (
        &[Bit::ReadAll],
        Minus,
        Bit::ReadClosed,
        "Ready { bits: 17 }",
    ),
    (
        &[Bit::Readable],
        Or,
        Bit::ReadCanceled,
        "Ready { bits: 17 }",
    ),
    (
        &[Bit::Readable, Bit::ReadCanceled],
        OrAssign,
        Bit::WriteClosed,
        "Ready { bits: 25 }",
    ),
    (
        &[Bit::Readable, Bit::ReadCanceled, Bit::WriteClosed],
        And,
        Bit::WriteAll,
        "Ready { bits: 8 }",
    ),
];

// What is asked of a set of bits.
enum Asks {
    Empty,
    Readable,
    Writable,
    ReadClosed,
    WriteClosed,
    Canceled,
    Has(Bit),
}

use Asks::{Canceled, Empty, Has, ReadClosed, Readable, Writable, WriteClosed};

// A set of bits that has some on reads.
const REST: &[Bit] = &[Bit::Readable, Bit::ReadCanceled];

// What is asked of the bits of a list together, and the answer.
const ASKED: &[(&[Bit], Asks, bool)] = &[
    (REST, Readable, true),
    (REST, Writable, false),
    (REST, ReadClosed, false),
    (REST, Canceled, true),
    (REST, Has(Bit::Readable), true),
    (REST, Has(Bit::ReadAll), false),
    (&[], Empty, true),
    (REST, WriteClosed, false),
];

// Interests that are joined.
enum Joins {
    Add,
    Or,
    OrAssign,
}

const JOINED: &[(Watch, Joins, Watch, Watch)] = &[
    (Watch::Reads, Joins::Add, Watch::Writes, Watch::Both),
    (Watch::Writes, Joins::Or, Watch::Writes, Watch::Writes),
    (Watch::Writes, Joins::OrAssign, Watch::Reads, Watch::Both),
];

// The directions with their bits.
const MASKS: &[(Direction, Bit)] = &[
    (Direction::Read, Bit::ReadAll),
    (Direction::Write, Bit::WriteAll),
];

// What is made of two sets.
fn made(mut left: Ready, makes: &Makes, right: Ready) -> Ready {
    match makes {
        Makes::Or => left | right,
        Makes::OrAssign => {
            left |= right;
            left
        }
        Makes::And => left & right,
        Makes::Minus => left - right,
    }
}

// What a set answers.
fn answer(ready: Ready, asks: &Asks) -> bool {
    match asks {
        Asks::Empty => ready.is_empty(),
        Asks::Readable => ready.is_readable(),
        Asks::Writable => ready.is_writable(),
        Asks::ReadClosed => ready.is_read_closed(),
        Asks::WriteClosed => ready.is_write_closed(),
        Asks::Canceled => ready.is_canceled(),
        Asks::Has(other) => ready.contains(other.ready()),
    }
}

// What two interests are joined to.
fn joined(mut left: Interest, joins: &Joins, right: Interest) -> Interest {
    match joins {
        Joins::Add => left.add(right),
        Joins::Or => left | right,
        Joins::OrAssign => {
            left |= right;
            left
        }
    }
}

// A value is told by this text, in the row of this number.
fn is_told<T: Copy + Debug>(
    rt: &impl Abort,
    alloc: Global,
    value: T,
    want: &str,
    at: usize,
) -> Result<(), Fail> {
    let text = format!(in alloc; "{value:?}")?;
    assert_eq!(rt; text.as_str(), want, "in the row {at}");
    Ok(())
}

// Two values are the same, in the row of this number.
fn is_same<T: Copy + PartialEq + Debug>(rt: &impl Abort, value: T, want: T, at: usize) {
    assert_eq!(rt; value, want, "in the row {at}");
}

#[test]
fn bits_have_their_numbers(rt: HostRuntime) -> Result<(), Fail> {
    for i in 0..NUMBERS.len() {
        is_told(&rt, rt.alloc(), NUMBERS[i].0.ready(), NUMBERS[i].1, i)?;
    }
    for i in 0..INTERESTS.len() {
        is_told(
            &rt,
            rt.alloc(),
            INTERESTS[i].0.interest(),
            INTERESTS[i].1,
            i,
        )?;
    }
    for i in 0..MADE.len() {
        let (left, makes, right, want) = &MADE[i];
        is_told(
            &rt,
            rt.alloc(),
            made(union(left), makes, right.ready()),
            want,
            i,
        )?;
    }
    Ok(())
}

#[test]
fn bits_are_sets(rt: HostRuntime) {
    for i in 0..ASKED.len() {
        is_same(&rt, answer(union(ASKED[i].0), &ASKED[i].1), ASKED[i].2, i);
    }
    for i in 0..MASKS.len() {
        is_same(&rt, MASKS[i].0.mask(), MASKS[i].1.ready(), i);
    }
}

#[test]
fn interests_are_joined(rt: HostRuntime) {
    for i in 0..JOINED.len() {
        let (left, joins, right, want) = &JOINED[i];
        let whole = joined(left.interest(), joins, right.interest());
        is_same(&rt, whole, want.interest(), i);
    }
}
