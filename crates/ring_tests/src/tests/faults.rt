// A ring in memory whose enters fail where they are told to, and to which completions are added.
use crate::tests::bench::Bench;
use crate::tests::stage::{Stage, Why, is_like};
use machine::{Completion, Outcome};
use rent_buf::{NumList, OutOfMemory};
use ring_core::{Body, EnterError, Entry, FaultRing, MemRing, Push, Ring};
use std::alloc::Global;
use std::process::Abort;
use std::test::Fail;

// Which enters fail and which are busy; then what three enters answer, each behind one push, and how many entries stay queued.
#[rattlefmt::skip]
const ROWS: [(&[u64], &[u64], [(Result<u32, EnterError>, u32); 3]); 4] = [
    (&[], &[], [(Ok(1), 0), (Ok(1), 0), (Ok(1), 0)]),
    (&[1], &[], [(Ok(1), 0), (Err(EnterError::Fault), 1), (Ok(2), 0)]),
    (&[2, 0], &[1], [(Err(EnterError::Fault), 1), (Err(EnterError::Busy), 2), (Err(EnterError::Fault), 3)]),
    (&[0], &[0, 1], [(Err(EnterError::Fault), 1), (Err(EnterError::Busy), 2), (Ok(3), 0)]),
];

// An entry of a word, which asks for the close of a handle.
fn entry(word: u64) -> Entry {
    Entry {
        word,
        serial: word,
        linked: false,
        body: Body::Close(word),
    }
}

// A completion of a word.
fn completion(word: u64) -> Completion {
    Completion {
        word,
        serial: word,
        outcome: Outcome::Count(0),
    }
}

// These numbers as a list.
fn list(alloc: Global, numbers: &[u64]) -> Result<NumList, OutOfMemory> {
    let mut list = NumList::new(alloc);
    for number in numbers {
        list.push(*number)?;
    }
    Ok(list)
}

// A bench of a ring whose enters of these numbers fail or are busy.
fn bench_of(
    alloc: Global,
    entries: u32,
    failing: &[u64],
    busy: &[u64],
) -> Result<Bench<FaultRing>, Why> {
    if entries == 0 {
        return Err(Why::Unmet);
    }
    let failing = list(alloc, failing)?;
    let busy = list(alloc, busy)?;
    let ring = FaultRing::new(MemRing::new(alloc, entries), failing, busy);
    Ok(Bench::new(alloc, ring))
}

// A push and an enter answer this, and so many entries are queued then.
fn enters<S: Stage>(
    stage: &mut S,
    word: u64,
    want: Result<u32, EnterError>,
    queued: u32,
) -> Result<(), Why> {
    is_like(stage.push(entry(word))? == Push::Done)?;
    is_like(stage.enter() == want)?;
    is_like(stage.has().1 == queued)
}

// Three enters are as a row says.
fn run_row<S: Stage>(rt: &impl Abort, stage: &mut S, want: [(Result<u32, EnterError>, u32); 3]) {
    for i in 0..3 {
        let (entered, queued) = want[i];
        assert_eq!(rt;
            enters(stage, i as u64, entered, queued),
            Ok(()),
            "the enter {i}"
        );
    }
}

#[test]
fn an_enter_fails_where_it_is_told_to(rt: HostRuntime) -> Result<(), Fail> {
    for (failing, busy, want) in ROWS {
        let mut bench = bench_of(rt.alloc(), 4, failing, busy)?;
        run_row(&rt, &mut bench, want);
    }
    Ok(())
}

// A ring to which completions are added.
trait Injects {
    // Adds a completion.
    fn inject(&mut self, completion: Completion) -> Result<(), OutOfMemory>;

    // How many completions are ready in the ring inside.
    fn ready(&self) -> usize;
}

impl Injects for Bench<FaultRing> {
    fn inject(&mut self, completion: Completion) -> Result<(), OutOfMemory> {
        self.ring.inject(completion)
    }

    fn ready(&self) -> usize {
        Ring::standing(self.ring.ring())
    }
}

// Two completions are added, and taken off in order.
fn has_injected<S: Stage + Injects>(stage: &mut S) -> Result<(), Why> {
    for word in [7, 5] {
        stage.inject(completion(word))?;
    }
    is_like((stage.ready(), stage.has().0) == (2, 1))?;
    for word in [7, 5] {
        is_like(stage.next() == Some(completion(word)))?;
    }
    is_like(stage.next().is_none())
}

#[test]
fn an_injected_completion_is_behind_those_that_are_ready(rt: HostRuntime) -> Result<(), Fail> {
    let mut bench = bench_of(rt.alloc(), 1, &[], &[])?;
    assert_eq!(rt; has_injected(&mut bench), Ok(()));
    Ok(())
}
