// The ready tasks of a turn, one after another.
ghost use Rattle.std.specs.Prelude.{◌≡◌, ◌≢◌, ◌<◌, ◌≤◌, ◌+◌, ◌^◌, ◌&&◌, ℕ, OnOk, true, false, drop};
ghost use Rattle.std.specs.Ordering.{nat_cmp};
ghost use Rattle.std.specs.List.Sorted.{IsSorted};
ghost use Rattle.std.specs.Vec.{vec_len, vec_capacity};
ghost use Rattle.std.specs.HashMap.{hash_map_len};
ghost use Rattle.core_exec.specs.Deadlines.{is_set, KeepsSet};
ghost use Rattle.core_exec.specs.Tasks.{AreSound, AreWaiting, HaveJobs, task_at, job_at, unmarked_in, mark_of, count_in};
ghost use Rattle.core_exec.specs.Marks.{AreListed, Covers, HasDeadlines, is_late};
ghost use Rattle.core_exec.specs.Numbers.{AreNumbers, is_in};
ghost use Rattle.core_exec.specs.Steps.{StepsTask, StepsOutput, MarksStep, with_number, polls_at, ends_at, is_polled, is_done, is_stopped};
ghost use Rattle.core_exec.specs.Places.{StayPlaced};
ghost use Rattle.core_exec.specs.Turns.{AddsOutputs, DidNothing, GrowsByOne, HasRoom, Reaches, Turns};

use crate::deadlines::Deadlines;
use crate::job::Job;
use crate::numbers::Numbers;
use crate::ready::Ready;
use crate::visit::{Visit, visit_task};
use rent_buf::OutOfMemory;
use std::alloc::Global;

/// What a turn did.
#[derive(Drop)]
pub struct Ran {
    /// The tasks that were polled, ascending.
    pub polled: Vec<u64>,
    /// Those of them whose cancel was asked for, since they were late.
    pub canceled: Vec<u64>,
    /// Those of them that are done.
    pub done: Vec<u64>,
    /// The task at which memory ran out, if it did. It is to be polled in the next turn, as are those behind it.
    pub stopped: Option<u64>,
}

impl Ran {
    /// The answer of no turn: its lists are empty. It takes no memory. (not in monoio)
    pub fn new(alloc: Global) -> Ran
        ensures { DidNothing result }
    {
        Ran {
            polled: Vec::new(alloc),
            canceled: Vec::new(alloc),
            done: Vec::new(alloc),
            stopped: None,
        }
    }

    // Empties the lists, with room for so many tasks. If memory runs out they are empty.
    pub(crate) fn make_room(&mut self, count: usize) -> Result<(), OutOfMemory>
        ensures polled { OnOk result (HasRoom self.new.polled count) }
        ensures canceled { OnOk result (HasRoom self.new.canceled count) }
        ensures done { OnOk result (HasRoom self.new.done count) }
        ensures nothing { DidNothing self.new }
    {
        self.polled.clear();
        self.canceled.clear();
        self.done.clear();
        self.stopped = None;
        self.polled.reserve(count)?;
        self.canceled.reserve(count)?;
        self.done.reserve(count)?;
        Ok(())
    }
}

// Notes what a turn did with a ready task.
fn note(ran: &mut Ran, t: u64, late: bool, visit: Visit)
    requires polled { vec_len ran.old.polled < vec_capacity ran.old.polled }
    requires canceled { vec_len ran.old.canceled < vec_capacity ran.old.canceled }
    requires done { vec_len ran.old.done < vec_capacity ran.old.done }
    ensures polled { ran.new.polled.items ≡ with_number (polls_at visit) t ran.old.polled.items }
    ensures canceled { ran.new.canceled.items ≡ with_number (polls_at visit && late) t ran.old.canceled.items }
    ensures done { ran.new.done.items ≡ with_number (ends_at visit) t ran.old.done.items }
    ensures polled_room { GrowsByOne ran.old.polled ran.new.polled }
    ensures canceled_room { GrowsByOne ran.old.canceled ran.new.canceled }
    ensures done_room { GrowsByOne ran.old.done ran.new.done }
    ensures stopped { ran.new.stopped ≡ ran.old.stopped }
{
    match visit {
        Visit::Refused => return,
        Visit::Done => ran.done.push_reserved(t),
        Visit::Pending => {}
        Visit::Short => {}
    }
    ran.polled.push_reserved(t);
    if late {
        ran.canceled.push_reserved(t);
    }
}

// Drops the deadline of a task that is done.
fn drop_deadline(deadlines: &mut Deadlines, t: u64, at: Option<u64>, visit: Visit)
    ensures others { (d s : ℕ) → s ≢ t → is_set deadlines.old d s ≡ true → is_set deadlines.new d s ≡ true }
    ensures stays { ends_at visit ≡ false → KeepsSet deadlines.old deadlines.new }
{
    match visit {
        Visit::Done => match at {
            Some(at) => deadlines.drop_of(at, t),
            None => {}
        },
        Visit::Pending => {}
        Visit::Short => {}
        Visit::Refused => {}
    }
}

// Drops the number of a task that is done.
fn drop_number(numbers: &mut Numbers, t: u64, visit: Visit)
    ensures this { ends_at visit ≡ true → is_in numbers.new t ≡ false }
    ensures rest { (s : ℕ) → s ≢ t → is_in numbers.new s ≡ is_in numbers.old s }
    ensures stays { ends_at visit ≡ false → (s : ℕ) → is_in numbers.new s ≡ is_in numbers.old s }
{
    match visit {
        Visit::Done => numbers.drop_of(t),
        Visit::Pending => {}
        Visit::Short => {}
        Visit::Refused => {}
    }
}

// A task's part of a turn, if it is marked.
#[tactic(auto, using(crate::proofs::Stepping::set_behind_step, crate::proofs::Stepping::jobs_behind_step, crate::proofs::Numbering::numbers_behind_step))]
fn poll_at<D, J: Job<D>>(
    driver: &mut D,
    ready: &mut Ready<J>,
    outputs: &mut Vec<(u64, J::Out)>,
    ran: &mut Ran,
    t: u64,
) -> Option<Visit>
    requires sound { AreSound J.fits J.apart driver.old (job_at ready.old.table) }
    requires jobs { HaveJobs (task_at ready.old.table) }
    requires deadlines { HasDeadlines ready.old }
    requires numbers { AreNumbers (task_at ready.old.table) ready.old.numbers }
    requires polls { mark_of (task_at ready.old.table t) ≡ true → count_in J.polls (job_at ready.old.table t) < 2 ^ 62 }
    requires cancels { mark_of (task_at ready.old.table t) ≡ true → count_in J.cancels (job_at ready.old.table t) < 2 ^ 62 }
    requires room { vec_len outputs.old + hash_map_len ready.old.table.map ≤ vec_capacity outputs.old }
    requires polled { vec_len ran.old.polled < vec_capacity ran.old.polled }
    requires canceled { vec_len ran.old.canceled < vec_capacity ran.old.canceled }
    requires done { vec_len ran.old.done < vec_capacity ran.old.done }
    ensures sound { AreSound J.fits J.apart driver.new (job_at ready.new.table) }
    ensures waits { AreWaiting J.waits driver.old (task_at ready.old.table) → AreWaiting J.waits driver.new (task_at ready.new.table) }
    ensures jobs { HaveJobs (task_at ready.new.table) }
    ensures deadlines { HasDeadlines ready.new }
    ensures numbers { AreNumbers (task_at ready.new.table) ready.new.numbers }
    ensures this { StepsTask J.polls J.cancels J.aim ready.old.moment (task_at ready.old.table t) (task_at ready.new.table t) result }
    ensures rest { (s : ℕ) → s ≢ t → task_at ready.new.table s ≡ task_at ready.old.table s }
    ensures output { StepsOutput J.aim J.meets t (job_at ready.old.table t) outputs.old.items outputs.new.items result }
    ensures len { vec_len outputs.new + hash_map_len ready.new.table.map ≡ vec_len outputs.old + hash_map_len ready.old.table.map }
    ensures capacity { vec_capacity outputs.new ≡ vec_capacity outputs.old }
    ensures unmarked { MarksStep result (unmarked_in ready.old.table) (unmarked_in ready.new.table) }
    ensures marks { (ready.new.marks ≡ ready.old.marks) × (ready.new.moment ≡ ready.old.moment) }
    ensures polled { ran.new.polled.items ≡ with_number (is_polled result) t ran.old.polled.items }
    ensures canceled { ran.new.canceled.items
        ≡ with_number (is_polled result && is_late ready.old.moment (task_at ready.old.table t)) t ran.old.canceled.items }
    ensures done { ran.new.done.items ≡ with_number (is_done result) t ran.old.done.items }
    ensures polled_room { GrowsByOne ran.old.polled ran.new.polled }
    ensures canceled_room { GrowsByOne ran.old.canceled ran.new.canceled }
    ensures done_room { GrowsByOne ran.old.done ran.new.done }
    ensures stopped { ran.new.stopped ≡ ran.old.stopped }
{
    match visit_task(driver, &mut ready.table, outputs, t, ready.moment) {
        Some(visited) => {
            note(ran, t, visited.late, visited.visit);
            drop_deadline(&mut ready.deadlines, t, visited.deadline, visited.visit);
            drop_number(&mut ready.numbers, t, visited.visit);
            Some(visited.visit)
        }
        None => None,
    }
}

// Whether memory ran out at a task.
fn stops(seen: Option<Visit>) -> bool
    ensures { result ≡ is_stopped seen }
{
    match seen {
        Some(Visit::Short) => true,
        Some(Visit::Refused) => true,
        Some(Visit::Done) => false,
        Some(Visit::Pending) => false,
        None => false,
    }
}

// Goes over the listed numbers, ascending, and ends at the first task that memory runs out at: how many numbers it is done with, and that
// task.
pub(crate) fn poll_ready<D, J: Job<D>>(
    driver: &mut D,
    ready: &mut Ready<J>,
    outputs: &mut Vec<(u64, J::Out)>,
    ran: &mut Ran,
) -> (usize, Option<u64>)
    requires sound { AreSound J.fits J.apart driver.old (job_at ready.old.table) }
    requires jobs { HaveJobs (task_at ready.old.table) }
    requires deadlines { HasDeadlines ready.old }
    requires numbers { AreNumbers (task_at ready.old.table) ready.old.numbers }
    requires polls { (s : ℕ) → count_in J.polls (job_at ready.old.table s) < 2 ^ 62 }
    requires cancels { (s : ℕ) → count_in J.cancels (job_at ready.old.table s) < 2 ^ 62 }
    requires listed { AreListed ready.old }
    requires sorted { IsSorted nat_cmp ready.old.marks.items }
    requires room { vec_len outputs.old + hash_map_len ready.old.table.map ≤ vec_capacity outputs.old }
    requires polled { HasRoom ran.old.polled (vec_len ready.old.marks) }
    requires canceled { HasRoom ran.old.canceled (vec_len ready.old.marks) }
    requires done { HasRoom ran.old.done (vec_len ready.old.marks) }
    ensures sound { AreSound J.fits J.apart driver.new (job_at ready.new.table) }
    ensures waits { AreWaiting J.waits driver.old (task_at ready.old.table) → AreWaiting J.waits driver.new (task_at ready.new.table) }
    ensures jobs { HaveJobs (task_at ready.new.table) }
    ensures deadlines { HasDeadlines ready.new }
    ensures numbers { AreNumbers (task_at ready.new.table) ready.new.numbers }
    ensures turns { Turns J.polls J.cancels J.aim ready.old.moment (task_at ready.old.table) (task_at ready.new.table)
        ran.new.polled.items ran.new.canceled.items ran.new.done.items result.1 }
    ensures reaches { Reaches (task_at ready.old.table) (task_at ready.new.table) ran.new.polled.items result.1 }
    ensures outputs { AddsOutputs J.aim J.meets (task_at ready.old.table) ran.new.done.items outputs.old.items outputs.new.items }
    ensures places { StayPlaced (task_at ready.old.table) outputs.old.items (task_at ready.new.table) outputs.new.items }
    ensures covers { Covers (task_at ready.new.table) (drop result.0 ready.new.marks.items) }
    ensures came { result.0 ≤ vec_len ready.new.marks }
    ensures marks_room { vec_len ready.new.marks + unmarked_in ready.new.table ≤ vec_capacity ready.new.marks + result.0 }
    ensures marks { ready.new.marks ≡ ready.old.marks }
    ensures moment { ready.new.moment ≡ ready.old.moment }
    ensures len { vec_len outputs.new + hash_map_len ready.new.table.map ≡ vec_len outputs.old + hash_map_len ready.old.table.map }
    ensures capacity { vec_capacity outputs.new ≡ vec_capacity outputs.old }
    ensures stopped { ran.new.stopped ≡ ran.old.stopped }
{
    let count = ready.marks.len();
    for k in 0..count {
        let t = ready.marks[k];
        let seen = poll_at(driver, ready, outputs, ran, t);
        if stops(seen) {
            return (k, Some(t));
        }
    }
    (count, None)
}
