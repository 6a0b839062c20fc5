// Numbers, by plain reads and by reads under a cancel group.
use crate::tests::base::{going, has_left, is_well, stream};
use crate::tests::noting::{Noting, handle, has_noted};
use cancel_core::CancelHandle;
use rent_buf::OutOfMemory;
use rent_io::{
    AsyncReadRentExt, CancelableAsyncReadRentExt, CancelableReadNumber, IoFault, Number,
    ReadNumber, ScriptedStream, Step,
};
use std::alloc::Global;
use std::fmt::Debug;
use std::process::Abort;
use std::test::Fail;

const UP: [u8; 16] = [1, 2, 3, 4, 5, 6, 7, 8, 9, 10, 11, 12, 13, 14, 15, 16];

const ONES: [u8; 16] = [255; 16];

// The read of a number ended so.
fn ends<N: Number + PartialEq + Debug, S: Drop>(
    rt: &impl Abort,
    step: Step<S, Result<N, IoFault>>,
    want: Result<N, IoFault>,
) {
    match step {
        Step::Ready(outcome) => assert_eq!(rt; outcome, want),
        _ => rt.panic("not ready"),
    }
}

// Polls the read of a number over bytes that are all there, and compares its end.
fn reads<N: Number + PartialEq + Debug>(
    rt: &impl Abort,
    state: Result<ReadNumber<N>, OutOfMemory>,
    bytes: &[u8],
    want: Result<N, IoFault>,
) {
    let mut bytes = bytes;
    match state {
        Ok(state) => ends(rt, state.drive(&mut bytes, 0, 3), want),
        Err(_) => rt.panic("out of memory"),
    }
}

// The numbers of 8 bits, unsigned and signed, in both orders.
fn of_8_bits(rt: &impl Abort, alloc: Global, io: &ScriptedStream) {
    reads(rt, io.read_u8(alloc), &UP, Ok(1));
    reads(rt, io.read_u8_le(alloc), &UP, Ok(1));
    reads(rt, io.read_i8(alloc), &ONES, Ok(-1));
    reads(rt, io.read_i8_le(alloc), &[128], Ok(-128));
}

// Those of 16 bits.
fn of_16_bits(rt: &impl Abort, alloc: Global, io: &ScriptedStream) {
    reads(rt, io.read_u16(alloc), &UP, Ok(258));
    reads(rt, io.read_u16_le(alloc), &UP, Ok(513));
    reads(rt, io.read_i16(alloc), &[255, 254], Ok(-2));
    reads(rt, io.read_i16_le(alloc), &[254, 255], Ok(-2));
}

// Those of 32 bits.
fn of_32_bits(rt: &impl Abort, alloc: Global, io: &ScriptedStream) {
    reads(rt, io.read_u32(alloc), &UP, Ok(16909060));
    reads(rt, io.read_u32_le(alloc), &UP, Ok(67305985));
    reads(rt, io.read_i32(alloc), &ONES, Ok(-1));
    reads(rt, io.read_i32_le(alloc), &UP, Ok(67305985));
}

// Those of 64 bits.
fn of_64_bits(rt: &impl Abort, alloc: Global, io: &ScriptedStream) {
    reads(rt, io.read_u64(alloc), &UP, Ok(72623859790382856));
    reads(rt, io.read_u64_le(alloc), &UP, Ok(578437695752307201));
    reads(rt, io.read_i64(alloc), &ONES, Ok(-1));
    reads(rt, io.read_i64_le(alloc), &ONES, Ok(-1));
}

// Those of 128 bits.
fn of_128_bits(rt: &impl Abort, alloc: Global, io: &ScriptedStream) {
    let up = 21345817372864405881847059188222722561;
    reads(rt, io.read_u128(alloc), &ONES, Ok(u128::MAX));
    reads(rt, io.read_u128_le(alloc), &UP, Ok(up));
    reads(rt, io.read_i128(alloc), &ONES, Ok(-1));
    reads(rt, io.read_i128_le(alloc), &ONES, Ok(-1));
}

#[test]
fn numbers_have_their_order_and_their_sign(rt: HostRuntime) -> Result<(), Fail> {
    let io = stream(rt.alloc(), b"", &[])?;
    of_8_bits(&rt, rt.alloc(), &io);
    of_16_bits(&rt, rt.alloc(), &io);
    of_32_bits(&rt, rt.alloc(), &io);
    of_64_bits(&rt, rt.alloc(), &io);
    of_128_bits(&rt, rt.alloc(), &io);
    Ok(())
}

#[test]
fn a_number_takes_all_its_bytes(rt: HostRuntime) -> Result<(), Fail> {
    let io = stream(rt.alloc(), b"", &[])?;
    let short = Err(IoFault::UnexpectedEof);
    reads(&rt, io.read_u128(rt.alloc()), &ONES[..15], short);
    Ok(())
}

// Polls the read of a number under a group once, and compares its end.
fn reads_under<N: Number + PartialEq + Debug>(
    rt: &impl Abort,
    state: Result<CancelableReadNumber<N>, OutOfMemory>,
    io: &mut Noting,
    want: Result<N, IoFault>,
) {
    match state {
        Ok(state) => match going(state.drive(io, 0, 0)) {
            Ok(state) => ends(rt, state.poll(io, 0), want),
            Err(_) => rt.panic("a poll too many"),
        },
        Err(_) => rt.panic("out of memory"),
    }
}

// Reads each number of 8 bits.
fn under_8_bits(rt: &impl Abort, alloc: Global, io: &mut Noting, c: CancelHandle) {
    reads_under(rt, io.cancelable_read_u8(alloc, c), io, Ok(u8::MAX));
    reads_under(rt, io.cancelable_read_u8_le(alloc, c), io, Ok(u8::MAX));
    reads_under(rt, io.cancelable_read_i8(alloc, c), io, Ok(-1));
    reads_under(rt, io.cancelable_read_i8_le(alloc, c), io, Ok(-1));
}

// Reads each number of 16 bits.
fn under_16_bits(rt: &impl Abort, alloc: Global, io: &mut Noting, c: CancelHandle) {
    reads_under(rt, io.cancelable_read_u16(alloc, c), io, Ok(u16::MAX));
    reads_under(rt, io.cancelable_read_u16_le(alloc, c), io, Ok(u16::MAX));
    reads_under(rt, io.cancelable_read_i16(alloc, c), io, Ok(-1));
    reads_under(rt, io.cancelable_read_i16_le(alloc, c), io, Ok(-1));
}

// Reads each number of 32 bits.
fn under_32_bits(rt: &impl Abort, alloc: Global, io: &mut Noting, c: CancelHandle) {
    reads_under(rt, io.cancelable_read_u32(alloc, c), io, Ok(u32::MAX));
    reads_under(rt, io.cancelable_read_u32_le(alloc, c), io, Ok(u32::MAX));
    reads_under(rt, io.cancelable_read_i32(alloc, c), io, Ok(-1));
    reads_under(rt, io.cancelable_read_i32_le(alloc, c), io, Ok(-1));
}

// Reads each number of 64 bits.
fn under_64_bits(rt: &impl Abort, alloc: Global, io: &mut Noting, c: CancelHandle) {
    reads_under(rt, io.cancelable_read_u64(alloc, c), io, Ok(u64::MAX));
    reads_under(rt, io.cancelable_read_u64_le(alloc, c), io, Ok(u64::MAX));
    reads_under(rt, io.cancelable_read_i64(alloc, c), io, Ok(-1));
    reads_under(rt, io.cancelable_read_i64_le(alloc, c), io, Ok(-1));
}

// Reads each number of 128 bits.
fn under_128_bits(rt: &impl Abort, alloc: Global, io: &mut Noting, c: CancelHandle) {
    reads_under(rt, io.cancelable_read_u128(alloc, c), io, Ok(u128::MAX));
    reads_under(rt, io.cancelable_read_u128_le(alloc, c), io, Ok(u128::MAX));
    reads_under(rt, io.cancelable_read_i128(alloc, c), io, Ok(-1));
    reads_under(rt, io.cancelable_read_i128_le(alloc, c), io, Ok(-1));
}

#[test]
fn numbers_are_read_under_a_group(rt: HostRuntime) -> Result<(), Fail> {
    let c = handle(rt.alloc())?;
    let mut io = Noting {
        io: stream(rt.alloc(), &[255; 124], &[])?,
        plain: 0,
        under: 0,
        group: 0,
    };
    under_8_bits(&rt, rt.alloc(), &mut io, c);
    under_16_bits(&rt, rt.alloc(), &mut io, c);
    under_32_bits(&rt, rt.alloc(), &mut io, c);
    under_64_bits(&rt, rt.alloc(), &mut io, c);
    under_128_bits(&rt, rt.alloc(), &mut io, c);
    is_well(&rt, "the calls", has_noted(&io, 20));
    is_well(&rt, "what is left", has_left(&io.io, ""));
    Ok(())
}
