// When connections are idle.
ghost use Rattle.std.specs.Prelude.{◌<◌};

use std::alloc::Global;

// Of how many parts of that time a deadline is put off once in each.
const PARTS: u64 = 16;

// How many places there are for tasks whose deadline was put off.
const PLACES: u64 = 1 << 15;

// The number of no task.
const NOBODY: u64 = u64::MAX;

/// The deadlines of connections: a connection is idle that does nothing for so many milliseconds, or up to a sixteenth more.
#[derive(Drop)]
pub struct Idle {
    limit: u64,
    // The part that is now.
    part: u64,
    // The tasks whose deadline was put off in it, each in the place of its lowest bits, so that it is looked up without a search. One that
    // another has displaced is put off again, and so is each without memory for the places.
    dated: Vec<u64>,
}

// The place of a task.
fn place_of(task: u64) -> usize {
    (task % PLACES) as usize
}

impl Idle {
    /// For connections that are idle behind so many milliseconds.
    pub fn over(alloc: Global, limit: u64) -> Idle {
        let mut dated = Vec::new(alloc);
        let _ = dated.resize(PLACES as usize, NOBODY);
        Idle {
            limit,
            part: 0,
            dated,
        }
    }

    // How many milliseconds a part takes.
    fn size(&self) -> u64
        ensures { 0 < result }
    {
        (self.limit / PARTS).max(1)
    }

    /// A round is made at this moment.
    pub fn go_to(&mut self, now: u64) {
        let part = now / self.size();
        if part != self.part {
            self.part = part;
            self.dated.fill(NOBODY);
        }
    }

    /// The deadline of a connection that does something now: it counts from the end of the part that is now.
    pub fn deadline(&self) -> u64 {
        self.part
            .saturating_add(1)
            .saturating_mul(self.size())
            .saturating_add(self.limit)
    }

    /// The deadline of a task isn't yet that, as far as is known.
    pub fn is_due(&self, task: u64) -> bool {
        match self.dated.get(place_of(task)) {
            Some(dated) => *dated != task,
            None => true,
        }
    }

    /// The deadline of a task is that.
    pub fn put_off(&mut self, task: u64) {
        if let Some(dated) = self.dated.get_mut(place_of(task)) {
            *dated = task;
        }
    }
}
