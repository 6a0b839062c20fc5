// One ready task's part of a turn.
ghost use Rattle.std.specs.Prelude.{◌≡◌, ◌≢◌, ◌<◌, ◌≤◌, ◌+◌, ◌^◌, ℕ, None, IsSome, IfSome, OnOk, OnErr, true};
ghost use Rattle.std.specs.Vec.{vec_len, vec_capacity};
ghost use Rattle.std.specs.HashMap.{hash_map_len};
ghost use Rattle.core_exec.specs.Tasks.{AreSound, AreWaiting, HaveJobs, task_at, job_at, unmarked_in, mark_of, count_in, deadline_of};
ghost use Rattle.core_exec.specs.Answers.{AnswersJob, AsksJob, IfKept, IfPends, OutputFor, settled_by, visit_of};
ghost use Rattle.core_exec.specs.Marks.{is_late};
ghost use Rattle.core_exec.specs.Visits.{MarksAfter};
ghost use Rattle.core_exec.specs.Steps.{StepsTask, StepsOutput, MarksStep, visit_in};

use crate::job::{Job, JobStep};
use crate::ready::late_at;
use crate::table::{Table, Taken};
use rent_buf::OutOfMemory;

// How a ready task's part of a turn ended.
#[derive(Clone, Copy)]
pub(crate) enum Visit {
    // It was polled, and is done.
    Done,
    // It was polled, and isn't done.
    Pending,
    // It was polled, and memory ran out.
    Short,
    // It wasn't polled, since memory ran out as its cancel was asked for.
    Refused,
}

// The same of its job, which goes on, or has an output.
pub(crate) enum Answer<J, O> {
    // It was polled, and is done.
    Done(O),
    // It was polled, and isn't done.
    Pending(J),
    // It was polled, and memory ran out.
    Short(J),
    // It wasn't polled, since memory ran out as its cancel was asked for.
    Refused(J),
}

// A ready task's part of a turn: how it ended, whether it was late, and its deadline.
#[derive(Clone, Copy)]
pub(crate) struct Visited {
    // How it ended.
    pub(crate) visit: Visit,
    // It was late, so that its cancel was asked for.
    pub(crate) late: bool,
    // Its deadline, if it has one.
    pub(crate) deadline: Option<u64>,
}

// Asks for the cancel of a job if it is late.
fn cancel_late<D, J: Job<D>>(driver: &mut D, job: &mut J, late: bool) -> Result<(), OutOfMemory>
    requires fits { (s : ℕ) × J.fits driver.old s job.old }
    requires counter { J.cancels job.old < 2 ^ 62 }
    ensures ok { OnOk result (AsksJob J.polls J.cancels J.aim late job.old job.new) }
    ensures err { OnErr result ((job.new ≡ job.old) × (late ≡ true)) }
    ensures fits { (s : ℕ) → J.fits driver.old s job.old → J.fits driver.new s job.new }
    ensures others { (other : J) (s : ℕ) → J.fits driver.old s other → J.apart job.old other → J.fits driver.new s other }
    ensures apart { (other : J) (s : ℕ) → J.fits driver.old s other → J.apart job.old other → J.apart job.new other }
    ensures stays { (other : J) (s : ℕ) → J.fits driver.old s other → J.apart job.old other → J.waits driver.old s other
        → J.waits driver.new s other }
{
    if late {
        return job.cancel(driver);
    }
    Ok(())
}

// A job of a task is canceled if it is late, and then it is polled.
#[tactic(auto, using(crate::proofs::Visiting::visited))]
fn visit_job<D, J: Job<D>>(driver: &mut D, job: J, t: u64, late: bool) -> Answer<J, J::Out>
    requires fits { J.fits driver.old t job }
    requires polls { J.polls job < 2 ^ 62 }
    requires cancels { J.cancels job < 2 ^ 62 }
    ensures this { AnswersJob J.polls J.cancels J.aim J.meets late job result }
    ensures fits { IfKept result (J.fits driver.new t) }
    ensures others { (other : J) (s : ℕ) → J.fits driver.old s other → J.apart job other → J.fits driver.new s other }
    ensures apart { IfKept result (λ next. (other : J) (s : ℕ) → J.fits driver.old s other → J.apart job other → J.apart next other) }
    ensures waits { IfPends result (J.waits driver.new t) }
    ensures stays { (other : J) (s : ℕ) → J.fits driver.old s other → J.apart job other → J.waits driver.old s other
        → J.waits driver.new s other }
{
    let mut job = job;
    if cancel_late(driver, &mut job, late).is_err() {
        return Answer::Refused(job);
    }
    match job.poll(driver, t) {
        JobStep::Done(out) => Answer::Done(out),
        JobStep::Pending(next) => Answer::Pending(next),
        JobStep::OutOfMemory(next) => Answer::Short(next),
    }
}

// A marked task whose job was taken out gets back what goes on of it, or ends: its output joins the others.
#[tactic(auto, using(crate::proofs::Visiting::cost_marked))]
fn settle<J, O: Drop>(
    table: &mut Table<J>,
    outputs: &mut Vec<(u64, O)>,
    t: u64,
    answer: Answer<J, O>,
    canceled: bool,
    late: bool,
) -> Visit
    requires unfinished { IsSome (task_at table.old t) }
    requires gone { job_at table.old t ≡ None }
    requires marked { mark_of (task_at table.old t) ≡ true }
    requires room { vec_len outputs.old < vec_capacity outputs.old }
    ensures visit { result ≡ visit_of answer }
    ensures this { task_at table.new t ≡ settled_by answer canceled late (task_at table.old t) }
    ensures rest { (s : ℕ) → s ≢ t → task_at table.new s ≡ task_at table.old s }
    ensures output { OutputFor answer t outputs.old.items outputs.new.items }
    ensures len { vec_len outputs.new + hash_map_len table.new.map ≡ vec_len outputs.old + hash_map_len table.old.map }
    ensures capacity { vec_capacity outputs.new ≡ vec_capacity outputs.old }
    ensures unmarked { MarksAfter result (unmarked_in table.old) (unmarked_in table.new) }
{
    match answer {
        Answer::Done(out) => {
            table.end(t);
            outputs.push_reserved((t, out));
            Visit::Done
        }
        Answer::Pending(next) => {
            table.put(t, next, false, canceled || late);
            Visit::Pending
        }
        Answer::Short(next) => {
            table.put(t, next, true, canceled || late);
            Visit::Short
        }
        Answer::Refused(job) => {
            table.put(t, job, true, canceled);
            Visit::Refused
        }
    }
}

// A ready task is canceled if it is late, and then it is polled. Its output joins the others. None if it isn't ready.
pub(crate) fn visit_task<D, J: Job<D>>(
    driver: &mut D,
    table: &mut Table<J>,
    outputs: &mut Vec<(u64, J::Out)>,
    t: u64,
    now: u64,
) -> Option<Visited>
    requires jobs { HaveJobs (task_at table.old) }
    requires sound { AreSound J.fits J.apart driver.old (job_at table.old) }
    requires polls { mark_of (task_at table.old t) ≡ true → count_in J.polls (job_at table.old t) < 2 ^ 62 }
    requires cancels { mark_of (task_at table.old t) ≡ true → count_in J.cancels (job_at table.old t) < 2 ^ 62 }
    requires room { vec_len outputs.old + hash_map_len table.old.map ≤ vec_capacity outputs.old }
    ensures sound { AreSound J.fits J.apart driver.new (job_at table.new) }
    ensures waits { AreWaiting J.waits driver.old (task_at table.old) → AreWaiting J.waits driver.new (task_at table.new) }
    ensures this { StepsTask J.polls J.cancels J.aim now (task_at table.old t) (task_at table.new t) (visit_in result) }
    ensures rest { (s : ℕ) → s ≢ t → task_at table.new s ≡ task_at table.old s }
    ensures output { StepsOutput J.aim J.meets t (job_at table.old t) outputs.old.items outputs.new.items (visit_in result) }
    ensures len { vec_len outputs.new + hash_map_len table.new.map ≡ vec_len outputs.old + hash_map_len table.old.map }
    ensures capacity { vec_capacity outputs.new ≡ vec_capacity outputs.old }
    ensures unmarked { MarksStep (visit_in result) (unmarked_in table.old) (unmarked_in table.new) }
    ensures late { IfSome result (λ visited. visited.late ≡ is_late now (task_at table.old t)) }
    ensures deadline { IfSome result (λ visited. visited.deadline ≡ deadline_of (task_at table.old t)) }
{
    let Taken {
        job,
        deadline,
        canceled,
    } = match table.take_marked(t) {
        Some(taken) => taken,
        None => return None,
    };
    let late = late_at(deadline, canceled, now);
    let answer = visit_job(driver, job, t, late);
    let visit = settle(table, outputs, t, answer, canceled, late);
    Some(Visited {
        visit,
        late,
        deadline,
    })
}
