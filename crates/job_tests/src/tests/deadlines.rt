// A few jobs, and rows of turns.
ghost use Rattle.std.specs.Prelude.{◌∷◌, ◌≡◌, []};
ghost use Rattle.core_exec.specs.Tasks.{AreSound};
ghost use Rattle.core_exec.specs.Exec.{Stands, jobs_of, left_of};

use core_exec::{Exec, Job, JobStep};
use rent_buf::OutOfMemory;
use std::test::Fail;

// A driver of no operations: how many polls and cancels may still be made until memory runs out.
#[derive(Drop)]
struct Memory {
    calls: u64,
}

// A job that is done with its number at its last poll, or at the first one behind its cancel.
struct Steps {
    number: u64,
    last: u64,
    polls: u64,
    cancels: u64,
}

impl Job<Memory> for Steps {
    type Out = u64;

    ghost polls = { λ job. job.polls };

    ghost cancels = { λ job. job.cancels };

    ghost aim = { λ job. job.number ∷ [] };

    ghost meets = { λ aim out. aim ≡ out ∷ [] };

    ghost fits = { λ driver task job. Unit {0} };

    ghost waits = { λ driver task job. Unit {0} };

    ghost apart = { λ one other. Unit {0} };

    ghost idle = { λ job. Unit {0} };

    ghost apart_both = { λ one other apart. tt };

    ghost apart_idle = { λ one other idle. tt };

    fn poll(self, driver: &mut Memory, _task: u64) -> JobStep<Steps, u64> {
        let Steps {
            number,
            last,
            polls,
            cancels,
        } = self;
        let next = Steps {
            number,
            last,
            polls: polls + 1,
            cancels,
        };
        if driver.calls == 0 {
            return JobStep::OutOfMemory(next);
        }
        driver.calls -= 1;
        if polls + 1 < last && cancels == 0 {
            return JobStep::Pending(next);
        }
        JobStep::Done(forget(next))
    }

    fn cancel(&mut self, driver: &mut Memory) -> Result<(), OutOfMemory> {
        if driver.calls == 0 {
            return Err(OutOfMemory);
        }
        driver.calls -= 1;
        self.cancels += 1;
        Ok(())
    }
}

type Steppers = Exec<Memory, Steps, u64>;

// A job: at which poll it is done, and its deadline.
const JOBS: [(u64, Option<u64>); 6] = [
    (1, None),
    (3, Some(9)),
    (9, Some(5)),
    (2, None),
    (9, None),
    (9, None),
];

// A turn: the deadlines that tasks are given before it, its moment, the tasks that are named, and after how many calls memory runs out.
// Then what is wanted: the tasks that are polled, canceled and done, and at which memory runs out.
#[derive(Clone, Copy)]
struct Row {
    dated: &'static [(u64, Option<u64>)],
    now: u64,
    named: &'static [u64],
    calls: u64,
    polled: &'static [u64],
    canceled: &'static [u64],
    done: &'static [u64],
    stopped: Option<u64>,
}

#[rattlefmt::skip]
const ROWS: [Row; 7] = [
    // fresh tasks are polled, and memory runs out at the fourth
    Row { dated: &[], now: 1, named: &[], calls: 3, polled: &[0, 1, 2, 3], canceled: &[], done: &[0], stopped: Some(3) },
    // it keeps its mark, and so do those behind it; a task that is finished or unknown is named, and given a deadline, in vain
    Row { dated: &[(0, Some(1)), (9, Some(1))], now: 2, named: &[0, 1, 9, 1], calls: 9, polled: &[1, 3, 4, 5], canceled: &[], done: &[3],
        stopped: None },
    // nothing is ready
    Row { dated: &[(4, Some(5))], now: 4, named: &[], calls: 9, polled: &[], canceled: &[], done: &[], stopped: None },
    // a deadline has come, and memory runs out at the cancel
    Row { dated: &[(4, Some(8))], now: 5, named: &[4], calls: 0, polled: &[], canceled: &[], done: &[], stopped: Some(2) },
    // the cancel is made; a deadline that was put off hasn't come
    Row { dated: &[], now: 5, named: &[], calls: 9, polled: &[2, 4], canceled: &[2], done: &[2], stopped: None },
    // its last poll is before its deadline; one that was taken back doesn't come
    Row { dated: &[(4, None)], now: 8, named: &[1], calls: 9, polled: &[1], canceled: &[], done: &[1], stopped: None },
    // the deadline of a finished task; one that is given late comes at once
    Row { dated: &[(5, Some(4))], now: 9, named: &[], calls: 9, polled: &[5], canceled: &[5], done: &[5], stopped: None },
];

// A job is let go: it has no operation.
fn forget(job: Steps) -> u64
    ensures { result ≡ job.number }
{
    let Steps {
        number,
        last: _,
        polls: _,
        cancels: _,
    } = job;
    number
}

// Spawns a job.
fn spawn_one(exec: &mut Steppers, number: u64, last: u64, deadline: Option<u64>) -> bool
    requires stands { Stands (λ (job : Steps). job.polls) (λ job. job.cancels) exec.old }
    requires sound { AreSound (λ driver task (job : Steps). Unit {0}) (λ one other. Unit {0}) exec.old.driver (jobs_of exec.old) }
    ensures stands { Stands (λ (job : Steps). job.polls) (λ job. job.cancels) exec.new }
    ensures sound { AreSound (λ driver task (job : Steps). Unit {0}) (λ one other. Unit {0}) exec.new.driver (jobs_of exec.new) }
{
    if exec.spawned() >= 1 << 62 {
        return false;
    }
    let job = Steps {
        number,
        last,
        polls: 0,
        cancels: 0,
    };
    let spawned = match deadline {
        Some(at) => exec.spawn_until(job, at),
        None => exec.spawn(job),
    };
    match spawned {
        Ok(task) => task == number,
        Err((_, job)) => {
            forget(job);
            false
        }
    }
}

// Spawns the jobs.
fn spawn_all(exec: &mut Steppers) -> bool
    requires stands { Stands (λ (job : Steps). job.polls) (λ job. job.cancels) exec.old }
    requires sound { AreSound (λ driver task (job : Steps). Unit {0}) (λ one other. Unit {0}) exec.old.driver (jobs_of exec.old) }
    ensures stands { Stands (λ (job : Steps). job.polls) (λ job. job.cancels) exec.new }
    ensures sound { AreSound (λ driver task (job : Steps). Unit {0}) (λ one other. Unit {0}) exec.new.driver (jobs_of exec.new) }
{
    for k in 0..JOBS.len() {
        let (last, deadline) = JOBS[k];
        if !spawn_one(exec, k as u64, last, deadline) {
            return false;
        }
    }
    true
}

// Gives tasks their deadlines.
fn date_each(exec: &mut Steppers, dated: &[(u64, Option<u64>)]) -> bool
    requires stands { Stands (λ (job : Steps). job.polls) (λ job. job.cancels) exec.old }
    requires sound { AreSound (λ driver task (job : Steps). Unit {0}) (λ one other. Unit {0}) exec.old.driver (jobs_of exec.old) }
    ensures stands { Stands (λ (job : Steps). job.polls) (λ job. job.cancels) exec.new }
    ensures sound { AreSound (λ driver task (job : Steps). Unit {0}) (λ one other. Unit {0}) exec.new.driver (jobs_of exec.new) }
{
    for k in 0..dated.len() {
        let (task, deadline) = dated[k];
        if exec.set_deadline(task, deadline).is_err() {
            return false;
        }
    }
    true
}

// A turn does as its row wants.
fn turns_so(exec: &mut Steppers, row: &Row) -> bool
    requires stands { Stands (λ (job : Steps). job.polls) (λ job. job.cancels) exec.old }
    requires sound { AreSound (λ driver task (job : Steps). Unit {0}) (λ one other. Unit {0}) exec.old.driver (jobs_of exec.old) }
    ensures stands { Stands (λ (job : Steps). job.polls) (λ job. job.cancels) exec.new }
    ensures sound { AreSound (λ driver task (job : Steps). Unit {0}) (λ one other. Unit {0}) exec.new.driver (jobs_of exec.new) }
{
    exec.driver.calls = row.calls;
    if !date_each(exec, row.dated) {
        return false;
    }
    if exec.turns() >= 1 << 62 || exec.moment() > row.now {
        return false;
    }
    match exec.turn(row.now, row.named) {
        Ok(ran) => {
            ran.polled.as_slice() == row.polled
                && ran.canceled.as_slice() == row.canceled
                && ran.done.as_slice() == row.done
                && ran.stopped == row.stopped
        }
        Err(_) => false,
    }
}

// All turns do as their rows want.
fn turn_all(exec: &mut Steppers) -> bool
    requires stands { Stands (λ (job : Steps). job.polls) (λ job. job.cancels) exec.old }
    requires sound { AreSound (λ driver task (job : Steps). Unit {0}) (λ one other. Unit {0}) exec.old.driver (jobs_of exec.old) }
    ensures stands { Stands (λ (job : Steps). job.polls) (λ job. job.cancels) exec.new }
    ensures sound { AreSound (λ driver task (job : Steps). Unit {0}) (λ one other. Unit {0}) exec.new.driver (jobs_of exec.new) }
{
    for k in 0..ROWS.len() {
        if !turns_so(exec, &ROWS[k]) {
            return false;
        }
    }
    true
}

// Takes out all jobs: how many there were, and the task of the last.
fn take_all(exec: &mut Steppers) -> (u64, u64)
    requires stands { Stands (λ (job : Steps). job.polls) (λ job. job.cancels) exec.old }
    ensures none { left_of exec.new ≡ 0 }
{
    let mut count = 0u64;
    let mut last = 0;
    while let Some((task, job)) = exec.take_left() {
        count = count.saturating_add(1);
        last = task;
        forget(job);
    }
    (count, last)
}

// Jobs with deadlines and without, over memory that runs out at a poll and at a cancel.
#[test]
fn turns_do_as_their_rows_want(rt: HostRuntime) -> Result<(), Fail> {
    let mut exec: Steppers = Exec::new(rt.alloc(), Memory { calls: 0 });
    let spawned = spawn_all(&mut exec);
    let turned = turn_all(&mut exec);
    let outputs = exec.take_done();
    let left = exec.left();
    let taken = take_all(&mut exec);
    match exec.finish() {
        Ok(_) => {}
        Err(_) => unreachable!(),
    }
    assert!(rt; spawned && turned);
    assert!(rt; left == 1 && taken == (1, 4));
    let outputs = outputs?;
    assert_eq!(rt;
        outputs.as_slice(),
        [(0, 0), (1, 1), (2, 2), (3, 3), (5, 5)].as_slice()
    );
    Ok(())
}
