// The steps of the state, on one thread.
ghost use Rattle.std.specs.Prelude.{◌≡◌, ◌<◌};

use crate::tests::why::{Numbers, Why, are, are_wakers, ended, is_like};
use std::alloc::Global;
use std::marker::{Brand, Model};
use std::process::Abort;
use std::sync::ledger::{Blank, Ledger, Share};
use std::test::Fail;
use wake_core::{
    MAX_PUSHED, MAX_SENDERS, OutOfMemory, PUSH_PARTS, SenderStage, SleeperStage, WakeState, Waker,
    WakerList,
};

// Which drain.
#[derive(Clone, Copy)]
enum Drain {
    // The first one of a round.
    First,
    // The second one of a round.
    Again,
    // A drain at any stage.
    Rest,
}

// A state: each call makes one step. `Unmet` comes where the step's condition isn't met, and then it isn't made.
trait Steps {
    fn push(&mut self, sender: u64, task: u64) -> Result<(), Why>;

    fn read_flag(&mut self, sender: u64) -> Result<bool, Why>;

    fn set_token(&mut self, sender: u64) -> Result<(), Why>;

    fn nudge(&mut self);

    fn drain(&mut self, drain: Drain) -> Result<WakerList, Why>;

    fn clear_flag(&mut self) -> Result<(), Why>;

    fn fall_asleep(&mut self) -> Result<(), Why>;

    fn take_token(&mut self) -> Result<bool, Why>;

    fn rouse(&mut self) -> Result<(), Why>;

    fn set_flag(&mut self) -> Result<(), Why>;

    // The stage of the sleeper.
    fn stage(&self) -> SleeperStage;

    // The stage of a sender, and how many wakers it pushed.
    fn sender(&self, sender: u64) -> (SenderStage, u64);
}

// A state, with parts of both ledgers.
#[derive(Drop)]
struct Bench<P: Ledger, D: Ledger> {
    state: WakeState<P, D>,
    pushed: Share<P>,
    drained: Share<D>,
}

impl<P: Ledger, D: Ledger> Model for Bench<P, D> {
    ghost use Rattle.std.specs.Prelude.{◌<◌, ℕ};

    ghost Value = { ℕ };

    ghost view = { λ s. s.pushed.parts };

    ghost invariant = { λ s. (0 < s.pushed.parts) × (0 < s.drained.parts) };
}

impl<P: Ledger, D: Ledger> Steps for Bench<P, D> {
    fn push(&mut self, sender: u64, task: u64) -> Result<(), Why> {
        if sender >= MAX_SENDERS || self.state.pushed(sender) >= MAX_PUSHED {
            return Err(Why::Unmet);
        }
        match self.state.sender_stage(sender) {
            SenderStage::Idle => is_like(self.state.push(sender, task, &mut self.pushed).is_ok()),
            _ => Err(Why::Unmet),
        }
    }

    fn read_flag(&mut self, sender: u64) -> Result<bool, Why> {
        match self.state.sender_stage(sender) {
            SenderStage::Pushed => Ok(self.state.read_flag(sender)),
            _ => Err(Why::Unmet),
        }
    }

    fn set_token(&mut self, sender: u64) -> Result<(), Why> {
        match self.state.sender_stage(sender) {
            SenderStage::Called => Ok(self.state.set_token(sender)),
            _ => Err(Why::Unmet),
        }
    }

    fn nudge(&mut self) {
        self.state.is_safe();
        self.state.nudge();
    }

    fn drain(&mut self, drain: Drain) -> Result<WakerList, Why> {
        match (drain, self.state.stage()) {
            (Drain::First, SleeperStage::Awake) => Ok(self.state.drain_first(&mut self.drained)),
            (Drain::Again, SleeperStage::First(false) | SleeperStage::Cleared) => {
                Ok(self.state.drain_again(&mut self.drained))
            }
            (Drain::Rest, _) => Ok(self.state.drain_rest(&mut self.drained)),
            _ => Err(Why::Unmet),
        }
    }

    fn clear_flag(&mut self) -> Result<(), Why> {
        match self.state.stage() {
            SleeperStage::First(true) => Ok(self.state.clear_flag()),
            _ => Err(Why::Unmet),
        }
    }

    fn fall_asleep(&mut self) -> Result<(), Why> {
        match self.state.stage() {
            SleeperStage::Second(true) => Ok(self.state.fall_asleep()),
            _ => Err(Why::Unmet),
        }
    }

    fn take_token(&mut self) -> Result<bool, Why> {
        match self.state.stage() {
            SleeperStage::Asleep => Ok(self.state.take_token()),
            _ => Err(Why::Unmet),
        }
    }

    fn rouse(&mut self) -> Result<(), Why> {
        match self.state.stage() {
            SleeperStage::Asleep => Ok(self.state.rouse()),
            _ => Err(Why::Unmet),
        }
    }

    fn set_flag(&mut self) -> Result<(), Why> {
        match self.state.stage() {
            SleeperStage::Up | SleeperStage::Second(false) => Ok(self.state.set_flag()),
            _ => Err(Why::Unmet),
        }
    }

    fn stage(&self) -> SleeperStage {
        self.state.stage()
    }

    fn sender(&self, sender: u64) -> (SenderStage, u64) {
        (self.state.sender_stage(sender), self.state.pushed(sender))
    }
}

// One step, and what it is to answer.
#[derive(Clone, Copy)]
enum Step {
    // A sender pushes a waker for a task.
    Push(u64, u64),
    // A sender reads the flag, which is so.
    ReadFlag(u64, bool),
    // A sender sets the token.
    SetToken(u64),
    Nudge,
    // A drain gives these wakers.
    Drains(Drain, &'static [Numbers]),
    ClearFlag,
    FallAsleep,
    // The token, which is so, is taken.
    TakeToken(bool),
    Rouse,
    SetFlag,
    // The sleeper is at this stage.
    IsAt(SleeperStage),
    // A sender is at this stage, and pushed so many wakers.
    Sender(u64, SenderStage, u64),
}

use Step::{
    ClearFlag, Drains, FallAsleep, IsAt, Nudge, Push, ReadFlag, Rouse, Sender, SetFlag, SetToken,
    TakeToken,
};

// A row: its name, and its steps over a new state.
type Row = (&'static str, &'static [Step]);

// The first drain gives nothing.
const NONE: Step = Drains(Drain::First, &[]);

// The second drain gives nothing.
const NONE_AGAIN: Step = Drains(Drain::Again, &[]);

#[rattlefmt::skip]
const ROWS: &[Row] = &[
    // The sleeper drains twice and falls asleep, a sender sends and sets the token, and the sleeper wakes and drains.
    ("a sleeper falls asleep and is woken",
        &[NONE, ClearFlag, NONE_AGAIN, FallAsleep, Push(0, 7), ReadFlag(0, false), SetToken(0), TakeToken(true), SetFlag,
          Drains(Drain::First, &[(0, 0, 7)])]),
    // Two senders send to a sleeper that is awake, which drains, finds some, and is awake again.
    ("an awake sleeper drains what senders sent",
        &[Push(1, 5), Sender(1, SenderStage::Pushed, 1), ReadFlag(1, true), Sender(1, SenderStage::Idle, 1), Push(0, 6), Push(1, 7),
          Sender(1, SenderStage::Pushed, 2), Drains(Drain::First, &[(1, 0, 5), (0, 0, 6), (1, 1, 7)]),
          IsAt(SleeperStage::First(false)), NONE_AGAIN, SetFlag, IsAt(SleeperStage::Awake)]),
    // A sleeper that sleeps is nudged, and is roused before it takes the token.
    ("a sleeper is nudged and roused",
        &[NONE, ClearFlag, NONE_AGAIN, FallAsleep, Nudge, Rouse, IsAt(SleeperStage::Up), SetFlag, Drains(Drain::Rest, &[])]),
];

// A drain gives these wakers.
fn drains<S: Steps>(state: &mut S, drain: Drain, want: &[Numbers]) -> Result<(), Why> {
    is_like(are(&state.drain(drain)?, want))
}

// Makes a step. `Unlike` comes where it answers otherwise than it says.
fn make<S: Steps>(state: &mut S, step: Step) -> Result<(), Why> {
    match step {
        Step::Push(sender, task) => state.push(sender, task),
        Step::ReadFlag(sender, want) => is_like(state.read_flag(sender)? == want),
        Step::SetToken(sender) => state.set_token(sender),
        Step::Nudge => Ok(state.nudge()),
        Step::Drains(drain, want) => drains(state, drain, want),
        Step::ClearFlag => state.clear_flag(),
        Step::FallAsleep => state.fall_asleep(),
        Step::TakeToken(want) => is_like(state.take_token()? == want),
        Step::Rouse => state.rouse(),
        Step::SetFlag => state.set_flag(),
        Step::IsAt(stage) => is_like(state.stage() == stage),
        Step::Sender(sender, stage, pushed) => is_like(state.sender(sender) == (stage, pushed)),
    }
}

// Makes steps in order.
fn run<S: Steps>(state: &mut S, steps: &[Step]) -> Result<(), (usize, Why)> {
    for i in 0..steps.len() {
        if let Err(why) = make(state, steps[i]) {
            return Err((i, why));
        }
    }
    Ok(())
}

// Makes the steps of a row in order over a new state.
fn run_new<P: Ledger, D: Ledger, R: Abort>(
    rt: &R,
    alloc: Global,
    pushes: Blank,
    drains: Blank,
    row: Row,
)
    requires pushes { (pushes.name ≡ P.name) × (pushes.parts ≡ P.parts) × (0 < pushes.parts) }
    requires drains { (drains.name ≡ D.name) × (drains.parts ≡ D.parts) × (0 < drains.parts) }
{
    let (state, pushed, drained) = WakeState::<P, D>::new(alloc, pushes, drains);
    let mut bench = Bench {
        state,
        pushed,
        drained,
    };
    ended(rt, row.0, run(&mut bench, row.1));
}

// One row.
fn row<R: Abort>(rt: &R, alloc: Global, row: Row) {
    run_new::<Brand, Brand, R>(rt, alloc, Blank::new(PUSH_PARTS), Blank::new(1), row);
}

#[test]
fn a_state_makes_its_steps(rt: HostRuntime) -> Result<(), Fail> {
    for each in ROWS {
        row(&rt, rt.alloc(), *each);
    }
    Ok(())
}

#[test]
fn a_list_takes_wakers_and_returns_them(rt: HostRuntime) -> Result<(), Fail> {
    let waker = Waker {
        sender: 2,
        number: 0,
        task: 9,
    };
    let mut list = WakerList::from_vec(Vec::new(rt.alloc()));
    list.push(waker)?;
    assert!(rt; are(&list, &[(2, 0, 9)]));
    assert!(rt; are_wakers(list.into_vec().as_slice(), &[(2, 0, 9)]));
    Ok(())
}

#[test]
fn out_of_memory_has_a_text(rt: HostRuntime) -> Result<(), Fail> {
    let text = OutOfMemory.to_string(rt.alloc())?;
    assert_eq!(rt; text.as_str(), "OutOfMemory");
    Ok(())
}
