// The counts of a box.
ghost use Rattle.std.specs.Prelude.{◌≡◌, Some};
ghost use Rattle.rent_io.specs.Counts.{AfterCall, Rose, no_counts};
ghost use Rattle.rent_io.specs.Polls.{Fails, Pauses};
ghost use Rattle.std.specs.Prelude.{None};

use rent_buf::IoFault;
use std::marker::Model;

// What a box counts of the calls on it. No call is interrupted, and it counts no calls.
#[derive(Debug, Drop)]
pub(crate) struct Tally {
    faults: u64,
    fault: Option<IoFault>,
    pauses: u64,
    waiter: u64,
    zeros: u64,
}

impl Model for Tally {
    ghost use Rattle.rent_io.specs.Counts.{Counts, no_counts};

    ghost Value = { Counts };

    ghost view = { λ t. record no_counts {
      faults = t.faults;
      fault = t.fault;
      pauses = t.pauses;
      waiter = t.waiter;
      zeros = t.zeros;
    } };
}

impl Tally {
    // Of a box that was never called.
    pub(crate) fn new() -> Tally
        ensures { result ≡ no_counts }
    {
        Tally {
            faults: 0,
            fault: None,
            pauses: 0,
            waiter: 0,
            zeros: 0,
        }
    }

    // A call failed so.
    pub(crate) fn fail(&mut self, fault: IoFault)
        ensures fails { Fails self.old self.new fault }
        ensures counts { AfterCall None self.old self.new }
    {
        self.faults = self.faults.saturating_add(1);
        self.fault = Some(fault);
    }

    // A call paused, for this task.
    pub(crate) fn pause(&mut self, task: u64)
        ensures pauses { Pauses task self.old self.new }
        ensures counts { AfterCall None self.old self.new }
    {
        self.pauses = self.pauses.saturating_add(1);
        self.waiter = task;
    }

    // A call moved so many bytes.
    pub(crate) fn moved(&mut self, count: usize)
        ensures none { count ≡ 0 → Rose self.old.zeros self.new.zeros }
        ensures counts { AfterCall None self.old self.new }
    {
        if count == 0 {
            self.zeros = self.zeros.saturating_add(1);
        }
    }
}

// What a call on a box is to answer.
#[derive(Clone, Copy)]
pub(crate) enum Turn {
    // It moves so many bytes.
    Gives(usize),
    // It moves nothing yet.
    Waits,
    // It fails so.
    Fails(IoFault),
}
