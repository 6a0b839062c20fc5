//! Jobs: states that are polled with a driver until they are done.
ghost use Rattle.std.specs.Prelude.{◌≡◌, ◌<◌, ◌+◌, ◌^◌, ℕ, List, OnOk, OnErr};
ghost use Rattle.core_exec.specs.Job.{Steps, IfBack, IfPending};

use rent_buf::OutOfMemory;

/// What a poll of a job answers.
pub enum JobStep<J, O> {
    /// It is done, with an output.
    Done(O),
    /// It isn't done: the driver names its task when another poll may do more.
    Pending(J),
    /// Memory ran out.
    OutOfMemory(J),
}

/// A state that is polled with a driver of the type `D`. It may own operations of the driver, so it isn't dropped. (not in monoio)
pub trait Job<D>: Sized {
    /// What it is done with.
    type Out: Drop;

    // How often it was polled.
    ghost polls: { Self → ℕ };

    // How often its cancel was asked for.
    ghost cancels: { Self → ℕ };

    // What it is for: no call changes it.
    ghost aim: { Self → List ℕ };

    // An output meets an aim.
    ghost meets: { List ℕ → Self.Out → Type 0 };

    // The driver holds each of its operations for the task of this number.
    ghost fits: { D → ℕ → Self → Type 0 };

    // It waits in the driver, which names the task of this number when it can go on.
    ghost waits: { D → ℕ → Self → Type 0 };

    // No operation is of both.
    ghost apart: { Self → Self → Type 0 };

    // It has no operation.
    ghost idle: { Self → Type 0 };

    /// Polls it, as the task of a number. A poll that is pending leaves it waiting.
    fn poll(self, driver: &mut D, task: u64) -> JobStep<Self, Self::Out>
        requires fits { fits driver.old task self }
        requires counter { polls self < 2 ^ 62 }
        ensures step { Steps polls cancels aim meets self result }
        ensures fits { IfBack result (fits driver.new task) }
        ensures left_waiting { IfPending result (waits driver.new task) }

        // Each other job that has no operation with this one fits still, and has none with the one that comes back.
        ensures others { (other : Self) (s : ℕ) → fits driver.old s other → apart self other → fits driver.new s other }
        ensures apart { IfBack result (λ job. (other : Self) (s : ℕ) → fits driver.old s other → apart self other → apart job other) }

        // One that waits, waits still.
        ensures stays { (other : Self) (s : ℕ) → fits driver.old s other → apart self other → waits driver.old s other
            → waits driver.new s other };

    /// Asks for the cancel of what it waits for. If memory runs out, the job is as it was.
    fn cancel(&mut self, driver: &mut D) -> Result<(), OutOfMemory>
        requires fits { (s : ℕ) × fits driver.old s self.old }
        requires counter { cancels self.old < 2 ^ 62 }
        ensures ok { OnOk result (cancels self.new ≡ cancels self.old + 1) }
        ensures err { OnErr result (self.new ≡ self.old) }
        ensures polls { polls self.new ≡ polls self.old }
        ensures aim { aim self.new ≡ aim self.old }
        ensures fits { (s : ℕ) → fits driver.old s self.old → fits driver.new s self.new }
        ensures others { (other : Self) (s : ℕ) → fits driver.old s other → apart self.old other → fits driver.new s other }
        ensures apart { (other : Self) (s : ℕ) → fits driver.old s other → apart self.old other → apart self.new other }
        ensures stays { (other : Self) (s : ℕ) → fits driver.old s other → apart self.old other → waits driver.old s other
            → waits driver.new s other };

    // It is so from either side.
    ghost apart_both: { (one other : Self) → apart one other → apart other one };

    // A job that has no operation has none with another.
    ghost apart_idle: { (one other : Self) → idle one → apart one other };
}
