// Executions that send from a payload and store into it.
use crate::tests::bench::{Bench, bench_of};
use crate::tests::request::{list, parts_of};
use crate::tests::stage::{Handles, Stage, Why, is_like};
use crate::tests::steps::{read_entry, send_entry, shows};
use machine::{HandleKind, Payloads, Told, append_first_parts, copy_first_parts};
use rent_buf::{ByteList, OutOfMemory, VecBuf};
use ring_core::{MemRing, Push};
use std::alloc::Global;
use std::test::Fail;

// Bytes that are offered in parts, and those that came.
#[derive(Drop)]
struct Parts {
    parts: VecBuf,
    came: ByteList,
}

impl Payloads for Parts {
    ghost use Rattle.std.specs.Prelude.{◌≡◌, ◌++◌, true};
    ghost use Rattle.std.specs.List.{concat};
    ghost use Rattle.rent_buf.specs.Parts.{bytes_of};

    ghost offered = { λ payloads word. concat (bytes_of payloads.parts) };

    ghost stores = { λ before word bytes after. after.came ≡ before.came ++ bytes };

    ghost takes_memory = { λ n. true };

    fn append_to(&self, _word: u64, count: u32, output: &mut ByteList) -> Result<(), OutOfMemory> {
        append_first_parts(output, count as usize, &self.parts)
    }

    fn copy_to(&self, _word: u64, target: &mut [u8]) -> usize {
        copy_first_parts(target, &self.parts)
    }

    fn store(&mut self, _word: u64, bytes: &[u8]) -> Result<(), OutOfMemory> {
        self.came.append(bytes)
    }
}

// The executions of the test, in order: the place of each, what is told of it, and whether it is done.
const EXECUTED: [(usize, Told, bool); 4] = [
    (1, Told::Count(2), true),
    (0, Told::Count(2), true),
    (0, Told::Fail(5), true),
    (0, Told::Fail(5), false),
];

// Three parts that show `x`, nothing and `yz`.
fn make_parts(alloc: Global) -> Result<VecBuf, OutOfMemory> {
    let first = list(alloc, "x")?;
    let second = list(alloc, "")?;
    let third = list(alloc, "yz")?;
    parts_of(alloc, [first, second, third])
}

// No bytes came for these parts.
fn payloads(alloc: Global) -> Result<Parts, OutOfMemory> {
    Ok(Parts {
        parts: make_parts(alloc)?,
        came: ByteList::new(alloc),
    })
}

// Whether an execution is done.
fn execute(bench: &mut Bench<MemRing>, payloads: &mut Parts, place: usize, told: Told) -> bool {
    bench.ring.execute(place, told, payloads).is_ok()
}

// A read and two sends are in flight, and `abc` was fed to the one handle.
fn enters<S: Stage + Handles>(stage: &mut S) -> Result<(), Why> {
    is_like(stage.give(HandleKind::Stream)? == 0)?;
    is_like(stage.feed(0, "abc")?.is_none())?;
    is_like(stage.push(read_entry(5, 7, 2))? == Push::Done)?;
    is_like(stage.push(send_entry(6, 8, 3))? == Push::Done)?;
    is_like(stage.push(send_entry(7, 9, 3))? == Push::Done)?;
    is_like(stage.enter() == Ok(3))
}

#[test]
fn an_execution_sends_from_its_payload_and_stores_into_it(rt: HostRuntime) -> Result<(), Fail> {
    let mut payloads = payloads(rt.alloc())?;
    let mut bench = bench_of(rt.alloc(), 3)?;
    enters(&mut bench)?;
    for (place, told, is_done) in EXECUTED {
        let done = execute(&mut bench, &mut payloads, place, told);
        assert_eq!(rt; done, is_done, "at {place}");
    }
    assert_eq!(rt; payloads.came.as_slice(), b"ab".as_slice());
    shows(&bench, 0, "xy")?;
    Ok(())
}
