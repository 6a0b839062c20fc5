// What parks drain, on one thread, with the sleeper's last sender.
use crate::tests::threads::LIMIT;
use crate::tests::why::{Numbers, Why, are, is_like};
use std::alloc::Global;
use std::sync::Wait;
use std::sync::ledger::Ledger;
use std::time::{Clock, Duration, Instant};
use wake_core::{MAX_PUSHED, OpenGate, RemoteSender, SenderError, Settled, Sleeper, Woken};

/// One step, and what it is to answer.
#[derive(Clone, Copy)]
pub(crate) enum Step {
    /// Senders are made, so many, of which the last one, of this number, is kept.
    Senders(u64, u64),
    /// No sender is made, for this reason.
    Refused(SenderError),
    /// The sleeper made so many senders.
    Made(u64),
    /// The sender sends a waker for a task.
    Send(u64),
    /// The same through a gate that is open.
    SendGated(u64),
    /// The sender sent so many wakers.
    Sent(u64),
    /// A park, with a limit and ready or not, drains these wakers at first, and none again.
    Park(Option<u64>, bool, &'static [Numbers]),
    /// A park that isn't ready, with a limit that no test waits for, drains these wakers at first and none again, without a wait.
    AtOnce(&'static [Numbers]),
    /// With the only sender back, all drains gave so many wakers, of which the last one gives these.
    Settle(u64, &'static [Numbers]),
}

/// A sleeper with its last sender: each call makes one call of them.
pub(crate) trait Parks {
    /// Makes a sender, keeps it in place of the last one, and answers its number.
    fn make_sender(&mut self) -> Result<u64, SenderError>;

    /// How many senders were made.
    fn made(&self) -> u64;

    /// Sends a waker for a task.
    fn send<R: Wait>(&mut self, rt: &R, task: u64) -> Result<(), Why>;

    /// The same through a gate that is open.
    fn send_gated<R: Wait + Clock>(&mut self, rt: &R, task: u64) -> Result<(), Why>;

    /// How many wakers the last sender sent.
    fn sent(&self) -> Result<u64, Why>;

    /// Parks.
    fn park<R: Wait + Clock>(&mut self, rt: &R, limit: Option<u64>, ready: bool) -> Woken;

    /// Settles with the last sender, if it is the only one.
    fn settle<R: Wait>(&mut self, rt: &R) -> Result<Settled, Why>;
}

/// A sleeper, and the last sender that it made.
#[derive(Drop)]
pub(crate) struct Bench<P: Ledger, D: Ledger> {
    pub sleeper: Sleeper<P, D>,
    pub sender: Option<RemoteSender<P, D>>,
    pub alloc: Global,
}

// Settles with a sender, if it is the only one.
fn settle_one<P: Ledger, D: Ledger, R: Wait>(
    rt: &R,
    alloc: Global,
    sleeper: &mut Sleeper<P, D>,
    sender: RemoteSender<P, D>,
) -> Result<Settled, Why> {
    let mut senders = Vec::new(alloc);
    if senders.push(sender).is_err() {
        return Err(Why::OutOfMemory);
    }
    if sleeper.made() != 1 {
        return Err(Why::Unmet);
    }
    Ok(sleeper.settle(rt, senders))
}

// A sender sends a waker for a task.
fn send_by<P: Ledger, D: Ledger, R: Wait>(
    rt: &R,
    sender: &mut RemoteSender<P, D>,
    task: u64,
) -> Result<(), Why> {
    if sender.sent() >= MAX_PUSHED {
        return Err(Why::Unmet);
    }
    is_like(sender.send(rt, task).is_ok())
}

// The same through a gate that is open.
fn send_gated_by<P: Ledger, D: Ledger, R: Wait + Clock>(
    rt: &R,
    sender: &mut RemoteSender<P, D>,
    task: u64,
) -> Result<(), Why> {
    if sender.sent() >= MAX_PUSHED {
        return Err(Why::Unmet);
    }
    is_like(sender.send_gated(rt, task, &OpenGate).is_ok())
}

impl<P: Ledger, D: Ledger> Parks for Bench<P, D> {
    fn make_sender(&mut self) -> Result<u64, SenderError> {
        let sender = self.sleeper.sender()?;
        let number = sender.number();
        self.sender = Some(sender);
        Ok(number)
    }

    fn made(&self) -> u64 {
        self.sleeper.made()
    }

    fn send<R: Wait>(&mut self, rt: &R, task: u64) -> Result<(), Why> {
        match &mut self.sender {
            Some(sender) => send_by(rt, sender, task),
            None => Err(Why::Unmet),
        }
    }

    fn send_gated<R: Wait + Clock>(&mut self, rt: &R, task: u64) -> Result<(), Why> {
        match &mut self.sender {
            Some(sender) => send_gated_by(rt, sender, task),
            None => Err(Why::Unmet),
        }
    }

    fn sent(&self) -> Result<u64, Why> {
        match &self.sender {
            Some(sender) => Ok(sender.sent()),
            None => Err(Why::Unmet),
        }
    }

    fn park<R: Wait + Clock>(&mut self, rt: &R, limit: Option<u64>, ready: bool) -> Woken {
        self.sleeper.park(rt, limit, ready)
    }

    fn settle<R: Wait>(&mut self, rt: &R) -> Result<Settled, Why> {
        match self.sender.take() {
            Some(sender) => settle_one(rt, self.alloc, &mut self.sleeper, sender),
            None => Err(Why::Unmet),
        }
    }
}

// Makes so many senders. Each has the number that follows that of the one before, and the last one has this number.
fn makes<S: Parks>(stage: &mut S, count: u64, last: u64) -> Result<(), Why> {
    for i in 0..count {
        match stage.make_sender() {
            Ok(number) => is_like(number.wrapping_add(count - i) == last.wrapping_add(1))?,
            Err(_) => return Err(Why::OutOfMemory),
        }
    }
    Ok(())
}

/// Whether a round drained these wakers, all in its first drain.
pub(crate) fn drained(woken: &Woken, first: &[Numbers]) -> bool {
    are(&woken.first, first) && are(&woken.again, &[])
}

// How long the clock says that it is since its begin.
fn since_begin<R: Clock>(rt: &R, begin: &Instant) -> Result<Duration, Why> {
    match begin.elapsed(rt) {
        Ok(time) => Ok(time),
        Err(_) => Err(Why::Unmet),
    }
}

// A park that drains these wakers, and takes less than half of its limit.
fn parks_at_once<S: Parks, R: Wait + Clock>(
    rt: &R,
    stage: &mut S,
    first: &[Numbers],
) -> Result<(), Why> {
    let Ok(begin) = Instant::now(rt) else {
        return Err(Why::Unmet);
    };
    is_like(drained(&stage.park(rt, Some(LIMIT), false), first))?;
    is_like(since_begin(rt, &begin)? < Duration::from_millis(LIMIT / 2))
}

// Settles with the only sender.
fn settles<S: Parks, R: Wait>(
    rt: &R,
    stage: &mut S,
    count: u64,
    rest: &[Numbers],
) -> Result<(), Why> {
    let settled = stage.settle(rt)?;
    is_like(settled.drained == count && are(&settled.rest, rest))
}

// Makes a step. `Unlike` comes where it answers otherwise than it says.
fn make<S: Parks, R: Wait + Clock>(rt: &R, stage: &mut S, step: Step) -> Result<(), Why> {
    match step {
        Step::Senders(count, last) => makes(stage, count, last),
        Step::Refused(why) => is_like(stage.make_sender() == Err(why)),
        Step::Made(count) => is_like(stage.made() == count),
        Step::Send(task) => stage.send(rt, task),
        Step::SendGated(task) => stage.send_gated(rt, task),
        Step::Sent(count) => is_like(stage.sent()? == count),
        Step::Park(limit, ready, first) => is_like(drained(&stage.park(rt, limit, ready), first)),
        Step::AtOnce(first) => parks_at_once(rt, stage, first),
        Step::Settle(count, rest) => settles(rt, stage, count, rest),
    }
}

/// Makes steps in order. Else it answers the place of the first one that isn't as it says, and why.
pub(crate) fn run<S: Parks, R: Wait + Clock>(
    rt: &R,
    stage: &mut S,
    steps: &[Step],
) -> Result<(), (usize, Why)> {
    for i in 0..steps.len() {
        if let Err(why) = make(rt, stage, steps[i]) {
            return Err((i, why));
        }
    }
    Ok(())
}
