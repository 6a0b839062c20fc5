//! Unfinished tasks, by number.
ghost use Rattle.std.specs.Prelude.{◌≡◌, ◌≢◌, ◌+◌, ℕ, Some, None, IsSome, IfSome, IfNone, OnOk, OnErr, IfErr};
ghost use Rattle.std.specs.Prelude.{cond, false, true, option_map};
ghost use Rattle.std.specs.HashMap.{hash_map_len};
ghost use Rattle.core_exec.specs.Tasks.{task_at, job_at, mark_of, unmarked_in, cost, is_unmarked, marked, without_job, with_job, FlagsOf};
ghost use Rattle.core_exec.specs.Tasks.{TakesMarked};
ghost use Rattle.core_exec.specs.Marks.{dated};

use std::alloc::Global;
use std::collections::HashMap;

/// An unfinished task.
pub struct Task<J> {
    /// Its job. It is taken out while it is polled.
    pub job: Option<J>,
    /// The next turn polls it.
    pub marked: bool,
    /// The moment from which on it is late, if it has one.
    pub deadline: Option<u64>,
    /// Its cancel was asked for.
    pub canceled: bool,
}

// What is asked of a task, without its job.
#[derive(Clone, Copy)]
pub(crate) struct Flags {
    // The next turn polls it.
    pub(crate) marked: bool,
    // The moment from which on it is late, if it has one.
    pub(crate) deadline: Option<u64>,
    // Its cancel was asked for.
    pub(crate) canceled: bool,
}

// The job of a marked task, with what a turn asks of the task.
pub(crate) struct Taken<J> {
    // Its job.
    pub(crate) job: J,
    // The moment from which on it is late, if it has one.
    pub(crate) deadline: Option<u64>,
    // Its cancel was asked for.
    pub(crate) canceled: bool,
}

// The unfinished tasks, found by their numbers.
pub(crate) struct Table<J> {
    pub(crate) map: HashMap<u64, Task<J>>,
}

impl<J> Table<J> {
    // No tasks. It takes no memory.
    pub(crate) fn new(alloc: Global) -> Table<J>
        ensures none { (s : ℕ) → task_at result s ≡ None }
        ensures len { hash_map_len result.map ≡ 0 }
        ensures unmarked { unmarked_in result ≡ 0 }
    {
        Table {
            map: HashMap::new(alloc),
        }
    }

    // How many tasks are unfinished.
    pub(crate) fn len(&self) -> usize
        ensures { result ≡ hash_map_len self.now.map }
    {
        self.map.len()
    }

    // Whether a task is marked, its deadline, and whether it was canceled. None if it is finished.
    pub(crate) fn flags(&self, t: u64) -> Option<Flags>
        ensures { FlagsOf (task_at self.now t) result }
    {
        match self.map.get(&t) {
            Some(task) => Some(Flags {
                marked: task.marked,
                deadline: task.deadline,
                canceled: task.canceled,
            }),
            None => None,
        }
    }

    // Marks a task, if there is one of that number: whether it had no mark before.
    pub(crate) fn mark(&mut self, t: u64) -> bool
        ensures value { result ≡ is_unmarked (task_at self.old t) }
        ensures this { task_at self.new t ≡ option_map marked (task_at self.old t) }
        ensures rest { (s : ℕ) → s ≢ t → task_at self.new s ≡ task_at self.old s }
        ensures len { hash_map_len self.new.map ≡ hash_map_len self.old.map }
        ensures unmarked { unmarked_in self.new + cost (task_at self.old t) ≡ unmarked_in self.old }
    {
        match self.map.get_mut(&t) {
            Some(task) => {
                let fresh = !task.marked;
                task.marked = true;
                fresh
            }
            None => false,
        }
    }

    // Gives a task another deadline or none, if there is one of that number.
    pub(crate) fn set_deadline(&mut self, t: u64, deadline: Option<u64>)
        ensures this { task_at self.new t ≡ option_map (dated true deadline) (task_at self.old t) }
        ensures rest { (s : ℕ) → s ≢ t → task_at self.new s ≡ task_at self.old s }
        ensures len { hash_map_len self.new.map ≡ hash_map_len self.old.map }
        ensures unmarked { unmarked_in self.new ≡ unmarked_in self.old }
    {
        match self.map.get_mut(&t) {
            Some(task) => task.deadline = deadline,
            None => {}
        }
    }

    // Takes the job of a marked task out, with what else the turn asks of it. None if it isn't marked, or finished.
    pub(crate) fn take_marked(&mut self, t: u64) -> Option<Taken<J>>
        requires jobs { IsSome (task_at self.old t) → IsSome (job_at self.old t) }
        ensures some { IfSome result (TakesMarked (task_at self.old t) (task_at self.new t)) }
        ensures none { IfNone result ((mark_of (task_at self.old t) ≡ false) × (task_at self.new t ≡ task_at self.old t)) }
        ensures rest { (s : ℕ) → s ≢ t → task_at self.new s ≡ task_at self.old s }
        ensures len { hash_map_len self.new.map ≡ hash_map_len self.old.map }
        ensures unmarked { unmarked_in self.new ≡ unmarked_in self.old }
    {
        match self.map.get_mut(&t) {
            Some(task) => {
                let unmarked = !task.marked;
                if unmarked {
                    return None;
                }
                match task.job.take() {
                    Some(job) => Some(Taken {
                        job,
                        deadline: task.deadline,
                        canceled: task.canceled,
                    }),
                    None => unreachable!(),
                }
            }
            None => None,
        }
    }

    // Takes the job of an unfinished task out.
    pub(crate) fn take(&mut self, t: u64) -> J
        requires unfinished { IsSome (job_at self.old t) }
        ensures value { job_at self.old t ≡ Some result }
        ensures this { task_at self.new t ≡ option_map without_job (task_at self.old t) }
        ensures rest { (s : ℕ) → s ≢ t → task_at self.new s ≡ task_at self.old s }
        ensures len { hash_map_len self.new.map ≡ hash_map_len self.old.map }
        ensures unmarked { unmarked_in self.new ≡ unmarked_in self.old }
    {
        match self.map.get_mut(&t) {
            Some(task) => match task.job.take() {
                Some(job) => job,
                None => unreachable!(),
            },
            None => unreachable!(),
        }
    }

    // Puts the job of an unfinished task back, with whether it is marked, and whether it was canceled.
    pub(crate) fn put(&mut self, t: u64, job: J, marked: bool, canceled: bool)
        requires unfinished { IsSome (task_at self.old t) }
        requires gone { job_at self.old t ≡ None }
        ensures this { task_at self.new t ≡ option_map (with_job job marked canceled) (task_at self.old t) }
        ensures rest { (s : ℕ) → s ≢ t → task_at self.new s ≡ task_at self.old s }
        ensures len { hash_map_len self.new.map ≡ hash_map_len self.old.map }
        ensures unmarked { unmarked_in self.new + cost (task_at self.old t) ≡ unmarked_in self.old + cond marked 0 1 }
    {
        match self.map.get_mut(&t) {
            Some(task) => {
                task.marked = marked;
                task.canceled = canceled;
                match task.job.replace(job) {
                    Some(_) => unreachable!(),
                    None => {}
                }
            }
            None => unreachable!(),
        }
    }

    // Ends a task whose job was taken out.
    pub(crate) fn end(&mut self, t: u64)
        requires unfinished { IsSome (task_at self.old t) }
        requires gone { job_at self.old t ≡ None }
        ensures this { task_at self.new t ≡ None }
        ensures rest { (s : ℕ) → s ≢ t → task_at self.new s ≡ task_at self.old s }
        ensures len { hash_map_len self.new.map + 1 ≡ hash_map_len self.old.map }
        ensures unmarked { unmarked_in self.new + cost (task_at self.old t) ≡ unmarked_in self.old }
    {
        match self.map.remove(&t) {
            Some(task) => {
                let Task {
                    job,
                    marked: _,
                    deadline: _,
                    canceled: _,
                } = task;
                match job {
                    Some(_) => unreachable!(),
                    None => {}
                }
            }
            None => unreachable!(),
        }
    }

    // Adds a task of a number that no task has. If memory runs out, its job comes back.
    pub(crate) fn add(&mut self, t: u64, task: Task<J>) -> Result<(), Task<J>>
        requires absent { task_at self.old t ≡ None }
        ensures this { OnOk result (task_at self.new t ≡ Some task) }
        ensures rest { (s : ℕ) → s ≢ t → task_at self.new s ≡ task_at self.old s }
        ensures len { OnOk result (hash_map_len self.new.map ≡ hash_map_len self.old.map + 1) }
        ensures unmarked { OnOk result (unmarked_in self.new ≡ unmarked_in self.old + cost (Some task)) }
        ensures back { IfErr result (λ back. back ≡ task) }
        ensures err { OnErr result (self.new.map.entries ≡ self.old.map.entries) }
    {
        match self.map.insert(t, task) {
            Ok(old) => match old {
                Some(_) => unreachable!(),
                None => Ok(()),
            },
            Err(failed) => {
                let (_, task) = failed.value;
                Err(task)
            }
        }
    }

    // Frees the table of no tasks.
    pub(crate) fn destroy(self)
        requires { hash_map_len self.map ≡ 0 }
    {
        let Table { map } = self;
        map.destroy_empty();
    }
}
