//! An executor: jobs by number, and the turns that poll them.
ghost use Rattle.std.specs.Prelude.{◌≡◌, ◌≢◌, ◌<◌, ◌≤◌, ◌+◌, ◌^◌, ◌↔◌, ℕ, List, []};
ghost use Rattle.std.specs.Prelude.{◌==◌, Some, None, IsSome, IsOk, IfOk, IfErr, IfSome, OnOk, OnErr, IsNone, IfNone, option_map};
ghost use Rattle.std.specs.List.{All};
ghost use Rattle.std.specs.List.Sorted.{IsNonDecreasingBy, IsPermutation};
ghost use Rattle.std.specs.Vec.{vec_len, vec_capacity};
ghost use Rattle.core_exec.specs.Tasks.{AreWaiting, HaveJobs, IsApart, unmarked_in};
ghost use Rattle.core_exec.specs.Turns.{AreCounted, DidNothing, Reaches};
ghost use Rattle.core_exec.specs.Exec.{IsSound, KeepsDriver, KeepsPlaces, MeetAims, NoneForgotten, OutputsOf, Spawns, Stands, TakesOut, TurnsTo};
ghost use Rattle.core_exec.specs.Marks.{AreListed, HasDeadlines, dated, with_mark};
ghost use Rattle.core_exec.specs.Numbers.{AreNumbers};
ghost use Rattle.core_exec.specs.Places.{ArePlaced, outputs_at};
ghost use Rattle.core_exec.specs.Exec.{jobs_of, left_of, moment_of, outputs_of, ready_of, spawned_of, tasks_of, turns_of};

use crate::deadlines::Deadlines;
use crate::job::Job;
use crate::numbers::Numbers;
use crate::ready::Ready;
use crate::table::{Table, Task};
use crate::turn::{Ran, poll_ready};
use rent_buf::OutOfMemory;
use std::alloc::Global;

/// Jobs over a driver. It may hold operations of the driver, so it isn't dropped. (not in monoio)
pub struct Exec<D, J, O> {
    /// The driver that the jobs are polled with.
    pub driver: D,
    pub(crate) ready: Ready<J>,
    pub(crate) outputs: Vec<(u64, O)>,
    pub(crate) spawned: u64,
    pub(crate) turns: u64,
}

impl<D, J: Job<D>> Exec<D, J, J::Out> {
    /// An executor of no jobs over a driver. It takes no memory.
    #[tactic(auto, using(crate::proofs::Numbering::numbers_none))]
    pub fn new(alloc: Global, driver: D) -> Exec<D, J, J::Out>
        ensures stands { Stands J.polls J.cancels result }
        ensures driver { result.driver ≡ driver }
        ensures none { (t : ℕ) → tasks_of result t ≡ None }
        ensures outputs { outputs_of result ≡ [] }
        ensures sound { IsSound J.fits J.apart result }
        ensures waits { NoneForgotten J.waits result }
        ensures aims { (aims : ℕ → List ℕ) → MeetAims J.aim J.meets aims result }
        ensures counts { (left_of result ≡ 0) × (spawned_of result ≡ 0) × (turns_of result ≡ 0) × (moment_of result ≡ 0) }
    {
        Exec {
            driver,
            ready: Ready {
                table: Table::new(alloc),
                numbers: Numbers::new(alloc),
                marks: Vec::new(alloc),
                deadlines: Deadlines::new(alloc),
                moment: 0,
            },
            outputs: Vec::new(alloc),
            spawned: 0,
            turns: 0,
        }
    }

    /// How many tasks are unfinished.
    pub fn left(&self) -> usize
        ensures { result ≡ left_of self.now }
    {
        self.ready.table.len()
    }

    /// How many turns were made.
    pub fn turns(&self) -> u64
        ensures { result ≡ turns_of self.now }
    {
        self.turns
    }

    /// How many tasks were spawned: the next one gets this number.
    pub fn spawned(&self) -> u64
        ensures { result ≡ spawned_of self.now }
    {
        self.spawned
    }

    /// The moment of the last turn, or 0.
    pub fn moment(&self) -> u64
        ensures { result ≡ moment_of self.now }
    {
        self.ready.moment
    }

    /// A turn at a moment, which is at least that of the turn before. The tasks of the given numbers become ready, as a turn of the driver
    /// names them, and those whose deadline has come and that weren't canceled. Each ready task is polled once, in ascending order; a late
    /// one is canceled before. If memory runs out at a task, the turn ends there, and that task and those behind it are ready in the next
    /// turn. `OutOfMemory` comes if memory runs out for the lists of the answer; then no task is polled, and the ready ones are marked.
    pub fn turn(&mut self, now: u64, named: &[u64]) -> Result<Ran, OutOfMemory>
        requires stands { Stands J.polls J.cancels self.old }
        requires sound { IsSound J.fits J.apart self.old }
        requires moment { moment_of self.old ≤ now }
        requires counter { turns_of self.old < 2 ^ 62 }
        ensures stands { Stands J.polls J.cancels self.new }
        ensures sound { IsSound J.fits J.apart self.new }
        ensures moment { moment_of self.new ≡ now }
        ensures spawned { spawned_of self.new ≡ spawned_of self.old }
        ensures aims { (aims : ℕ → List ℕ) → MeetAims J.aim J.meets aims self.old → MeetAims J.aim J.meets aims self.new }

        // What it polled, what it made of each task, and the outputs of those that are done.
        ensures turns { IfOk result (λ ran. TurnsTo J.polls J.cancels J.aim now named.now self.old self.new ran) }
        ensures reaches { IfOk result (λ ran. Reaches (ready_of now named.now self.old) (tasks_of self.new) ran.polled.items ran.stopped) }
        ensures outputs { IfOk result (λ ran. OutputsOf J.aim J.meets (ready_of now named.now self.old) self.old self.new ran) }
        ensures places { KeepsPlaces self.old self.new }
        // Where each task that wasn't ready waited in the driver, each that isn't ready in the next turn does.
        ensures waits { AreWaiting J.waits self.old.driver (ready_of now named.now self.old) → NoneForgotten J.waits self.new }
        ensures counted { OnOk result (turns_of self.new ≡ turns_of self.old + 1) }

        // Without memory for the lists, the ready tasks are marked.
        ensures marked { OnErr result ((t : ℕ) → tasks_of self.new t ≡ ready_of now named.now self.old t) }
        ensures err { OnErr result ((self.new.driver ≡ self.old.driver) × (outputs_of self.new ≡ outputs_of self.old)) }
        ensures not_counted { OnErr result (turns_of self.new ≡ turns_of self.old) }
    {
        let mut ran = Ran::new(*self.outputs.allocator());
        match self.turn_into(now, named, &mut ran) {
            Ok(()) => Ok(ran),
            Err(error) => Err(error),
        }
    }

    /// A turn as `turn` makes it. Its answer is put into the lists of an earlier one, so that it takes memory only where these are too
    /// short. `OutOfMemory` comes as there, and then the lists are empty. (not in monoio)
    #[tactic(auto, using(crate::proofs::Aims::aims_ready, crate::proofs::Aims::aims_same, crate::proofs::Aims::aims_turn, crate::proofs::Placing::stay_marked, crate::proofs::Placing::stay_turn, crate::proofs::Placing::placed_marked, crate::proofs::Placing::placed_turn, crate::proofs::Numbering::numbers_ready, crate::proofs::Waiting::waiting_same))]
    pub fn turn_into(&mut self, now: u64, named: &[u64], ran: &mut Ran) -> Result<(), OutOfMemory>
        requires stands { Stands J.polls J.cancels self.old }
        requires sound { IsSound J.fits J.apart self.old }
        requires moment { moment_of self.old ≤ now }
        requires counter { turns_of self.old < 2 ^ 62 }
        ensures stands { Stands J.polls J.cancels self.new }
        ensures sound { IsSound J.fits J.apart self.new }
        ensures moment { moment_of self.new ≡ now }
        ensures spawned { spawned_of self.new ≡ spawned_of self.old }
        ensures aims { (aims : ℕ → List ℕ) → MeetAims J.aim J.meets aims self.old → MeetAims J.aim J.meets aims self.new }
        ensures turns { OnOk result (TurnsTo J.polls J.cancels J.aim now named.now self.old self.new ran.new) }
        ensures reaches { OnOk result (Reaches (ready_of now named.now self.old) (tasks_of self.new) ran.new.polled.items ran.new.stopped) }
        ensures outputs { OnOk result (OutputsOf J.aim J.meets (ready_of now named.now self.old) self.old self.new ran.new) }
        ensures places { KeepsPlaces self.old self.new }
        // Where each task that wasn't ready waited in the driver, each that isn't ready in the next turn does.
        ensures waits { AreWaiting J.waits self.old.driver (ready_of now named.now self.old) → NoneForgotten J.waits self.new }
        ensures counted { OnOk result (turns_of self.new ≡ turns_of self.old + 1) }
        ensures marked { OnErr result ((t : ℕ) → tasks_of self.new t ≡ ready_of now named.now self.old t) }
        ensures err { OnErr result ((self.new.driver ≡ self.old.driver) × (outputs_of self.new ≡ outputs_of self.old)) }
        ensures not_counted { OnErr result (turns_of self.new ≡ turns_of self.old) }
        ensures nothing { OnErr result (DidNothing ran.new) }
    {
        self.ready.mark_ready(now, named);
        ran.make_room(self.ready.marks.len())?;
        let (came, stopped) = poll_ready(&mut self.driver, &mut self.ready, &mut self.outputs, ran);
        self.ready.drop_first(came);
        self.turns += 1;
        ran.stopped = stopped;
        Ok(())
    }

    /// Makes an unfinished task ready in the next turn, as a waker from another thread does. It takes no memory, and a number of no
    /// unfinished task is ignored. (monoio: `Waker::wake`)
    #[tactic(auto, using(crate::proofs::Aims::aims_woken, crate::proofs::Aims::sound_woken, crate::proofs::Placing::placed_woken, crate::proofs::Late::set_woken, crate::proofs::Numbering::numbers_woken, crate::proofs::Waiting::waiting_woken))]
    pub fn wake(&mut self, t: u64)
        requires stands { Stands J.polls J.cancels self.old }
        ensures stands { Stands J.polls J.cancels self.new }
        ensures tasks { (s : ℕ) → tasks_of self.new s ≡ option_map (with_mark (s == t)) (tasks_of self.old s) }
        ensures kept { KeepsDriver self.old self.new }
        ensures numbers { (spawned_of self.new ≡ spawned_of self.old) × (left_of self.new ≡ left_of self.old) }
        ensures outputs { outputs_of self.new ≡ outputs_of self.old }
        ensures sound { IsSound J.fits J.apart self.old → IsSound J.fits J.apart self.new }
        ensures waits { NoneForgotten J.waits self.old → NoneForgotten J.waits self.new }
        ensures aims { (aims : ℕ → List ℕ) → MeetAims J.aim J.meets aims self.old → MeetAims J.aim J.meets aims self.new }
    {
        self.ready.mark(t);
    }

    /// Gives an unfinished task this deadline in place of the one that it had, or none: the first turn at that moment or a later one that
    /// comes to it asks for its cancel, if it is unfinished then, unless that was asked for before. A number of no unfinished task is
    /// ignored. Memory may run out only for a deadline of an unfinished task, and then nothing changes. (own: an idle deadline is put off
    /// so)
    #[tactic(auto, using(crate::proofs::Dating::aims_dated, crate::proofs::Dating::sound_dated, crate::proofs::Dating::placed_dated, crate::proofs::Dating::jobs_dated, crate::proofs::Dating::counted_dated, crate::proofs::Dating::numbers_dated, crate::proofs::Dating::there_dated, crate::proofs::Dating::waiting_dated))]
    pub fn set_deadline(&mut self, t: u64, deadline: Option<u64>) -> Result<(), OutOfMemory>
        requires stands { Stands J.polls J.cancels self.old }
        ensures stands { Stands J.polls J.cancels self.new }
        ensures ok { OnOk result ((s : ℕ) → tasks_of self.new s ≡ option_map (dated (s == t) deadline) (tasks_of self.old s)) }
        ensures err { OnErr result ((s : ℕ) → tasks_of self.new s ≡ tasks_of self.old s) }
        ensures ignored { tasks_of self.old t ≡ None → IsOk result }
        ensures free { deadline ≡ None → IsOk result }
        ensures kept { KeepsDriver self.old self.new }
        ensures numbers { (spawned_of self.new ≡ spawned_of self.old) × (left_of self.new ≡ left_of self.old) }
        ensures outputs { outputs_of self.new ≡ outputs_of self.old }
        ensures sound { IsSound J.fits J.apart self.old → IsSound J.fits J.apart self.new }
        ensures waits { NoneForgotten J.waits self.old → NoneForgotten J.waits self.new }
        ensures aims { (aims : ℕ → List ℕ) → MeetAims J.aim J.meets aims self.old → MeetAims J.aim J.meets aims self.new }
    {
        self.ready.change_deadline(t, deadline)
    }

    // Room for one more task: for its mark, and for its output.
    #[tactic(auto, using(crate::proofs::Counted::unmarked_within, crate::proofs::Placing::placed_same))]
    fn reserve(&mut self) -> Result<(), OutOfMemory>
        requires stands { Stands J.polls J.cancels self.old }
        ensures stands { Stands J.polls J.cancels self.new }
        ensures marks { OnOk result (vec_len self.new.ready.marks + unmarked_in self.new.ready.table < vec_capacity self.new.ready.marks) }
        ensures outputs { OnOk result (vec_len self.new.outputs + left_of self.new < vec_capacity self.new.outputs) }
        ensures kept { KeepsDriver self.old self.new }
        ensures tasks { (self.new.ready.table ≡ self.old.ready.table) × (self.new.ready.deadlines ≡ self.old.ready.deadlines) }
        ensures known { self.new.ready.numbers ≡ self.old.ready.numbers }
        ensures numbers { spawned_of self.new ≡ spawned_of self.old }
        ensures items { outputs_of self.new ≡ outputs_of self.old }
    {
        let count = self.ready.table.len() + 1;
        self.ready.marks.reserve(count)?;
        self.outputs.reserve(count)?;
        Ok(())
    }

    // Spawns a job, with a deadline or without.
    #[tactic(auto, using(crate::proofs::Aims::aims_spawn, crate::proofs::Aims::aims_same, crate::proofs::Aims::sound_spawn, crate::proofs::Aims::sound_same, crate::proofs::Placing::placed_same, crate::proofs::Numbering::numbers_but_one, crate::proofs::Numbering::absent_number, crate::proofs::Waiting::waiting_spawn, crate::proofs::Waiting::waiting_same))]
    fn spawn_at(&mut self, job: J, deadline: Option<u64>) -> Result<u64, (OutOfMemory, J)>
        requires stands { Stands J.polls J.cancels self.old }
        requires counts { (J.polls job ≡ 0) × (J.cancels job ≡ 0) }
        requires counter { spawned_of self.old < 2 ^ 62 }
        ensures listed { AreListed self.new.ready }
        ensures deadlines { HasDeadlines self.new.ready }
        ensures known { AreNumbers (tasks_of self.new) self.new.ready.numbers }
        ensures jobs { HaveJobs (tasks_of self.new) }
        ensures turns { AreCounted J.polls J.cancels (turns_of self.new) (tasks_of self.new) }
        ensures below { (t : ℕ) → IsSome (tasks_of self.new t) → t < spawned_of self.new }
        ensures room { vec_len self.new.outputs + left_of self.new ≤ vec_capacity self.new.outputs }
        ensures placed { ArePlaced (spawned_of self.new) (tasks_of self.new) (outputs_of self.new) }
        ensures ok { IfOk result (Spawns job deadline self.old self.new) }
        ensures rest { (s : ℕ) → s ≢ spawned_of self.old → tasks_of self.new s ≡ tasks_of self.old s }
        ensures err { IfErr result (λ refused. (refused.1 ≡ job) × ((s : ℕ) → tasks_of self.new s ≡ tasks_of self.old s)) }
        ensures kept { KeepsDriver self.old self.new }
        ensures outputs { outputs_of self.new ≡ outputs_of self.old }
        ensures counted { OnErr result ((spawned_of self.new ≡ spawned_of self.old) × (left_of self.new ≡ left_of self.old)) }
        // A job that fits the driver as its task and has no operation joins the others; with its number's aim, it meets it.
        ensures sound { J.fits self.old.driver (spawned_of self.old) job → J.idle job → IsSound J.fits J.apart self.old
            → IsSound J.fits J.apart self.new }
        ensures waits { NoneForgotten J.waits self.old → NoneForgotten J.waits self.new }
        ensures aims { (aims : ℕ → List ℕ) → aims (spawned_of self.old) ≡ J.aim job
            → MeetAims J.aim J.meets aims self.old → MeetAims J.aim J.meets aims self.new }
    {
        let t = self.spawned;
        if self.reserve().is_err() || self.ready.add_number(t, deadline).is_err() {
            return Err((OutOfMemory, job));
        }
        let task = Task {
            job: Some(job),
            marked: true,
            deadline,
            canceled: false,
        };
        match self.ready.table.add(t, task) {
            Ok(()) => {
                self.ready.marks.push_reserved(t);
                self.spawned += 1;
                Ok(t)
            }
            Err(task) => {
                self.ready.drop_number(t, deadline);
                let Task {
                    job,
                    marked: _,
                    deadline: _,
                    canceled: _,
                } = task;
                match job {
                    Some(job) => Err((OutOfMemory, job)),
                    None => unreachable!(),
                }
            }
        }
    }

    /// Spawns a job that was never polled: its task's number. It is ready in the next turn. If memory runs out, the job comes back.
    pub fn spawn(&mut self, job: J) -> Result<u64, (OutOfMemory, J)>
        requires stands { Stands J.polls J.cancels self.old }
        requires counts { (J.polls job ≡ 0) × (J.cancels job ≡ 0) }
        requires counter { spawned_of self.old < 2 ^ 62 }
        ensures stands { Stands J.polls J.cancels self.new }
        ensures ok { IfOk result (Spawns job None self.old self.new) }
        ensures rest { (s : ℕ) → s ≢ spawned_of self.old → tasks_of self.new s ≡ tasks_of self.old s }
        ensures err { IfErr result (λ refused. (refused.1 ≡ job) × ((s : ℕ) → tasks_of self.new s ≡ tasks_of self.old s)) }
        ensures kept { KeepsDriver self.old self.new }
        ensures outputs { outputs_of self.new ≡ outputs_of self.old }
        ensures counted { OnErr result ((spawned_of self.new ≡ spawned_of self.old) × (left_of self.new ≡ left_of self.old)) }
        // A job that fits the driver as its task and has no operation joins the others; with its number's aim, it meets it.
        ensures sound { J.fits self.old.driver (spawned_of self.old) job → J.idle job → IsSound J.fits J.apart self.old
            → IsSound J.fits J.apart self.new }
        ensures waits { NoneForgotten J.waits self.old → NoneForgotten J.waits self.new }
        ensures aims { (aims : ℕ → List ℕ) → aims (spawned_of self.old) ≡ J.aim job
            → MeetAims J.aim J.meets aims self.old → MeetAims J.aim J.meets aims self.new }
    {
        self.spawn_at(job, None)
    }

    /// Spawns a job as `spawn` does, with a deadline: the first turn at that moment or a later one that comes to it asks for its cancel, if
    /// it is unfinished then.
    pub fn spawn_until(&mut self, job: J, deadline: u64) -> Result<u64, (OutOfMemory, J)>
        requires stands { Stands J.polls J.cancels self.old }
        requires counts { (J.polls job ≡ 0) × (J.cancels job ≡ 0) }
        requires counter { spawned_of self.old < 2 ^ 62 }
        ensures stands { Stands J.polls J.cancels self.new }
        ensures ok { IfOk result (Spawns job (Some deadline) self.old self.new) }
        ensures rest { (s : ℕ) → s ≢ spawned_of self.old → tasks_of self.new s ≡ tasks_of self.old s }
        ensures err { IfErr result (λ refused. (refused.1 ≡ job) × ((s : ℕ) → tasks_of self.new s ≡ tasks_of self.old s)) }
        ensures kept { KeepsDriver self.old self.new }
        ensures outputs { outputs_of self.new ≡ outputs_of self.old }
        ensures counted { OnErr result ((spawned_of self.new ≡ spawned_of self.old) × (left_of self.new ≡ left_of self.old)) }
        // A job that fits the driver as its task and has no operation joins the others; with its number's aim, it meets it.
        ensures sound { J.fits self.old.driver (spawned_of self.old) job → J.idle job → IsSound J.fits J.apart self.old
            → IsSound J.fits J.apart self.new }
        ensures waits { NoneForgotten J.waits self.old → NoneForgotten J.waits self.new }
        ensures aims { (aims : ℕ → List ℕ) → aims (spawned_of self.old) ≡ J.aim job
            → MeetAims J.aim J.meets aims self.old → MeetAims J.aim J.meets aims self.new }
    {
        self.spawn_at(job, Some(deadline))
    }

    /// Takes the outputs that weren't taken, each with its task, ascending by task. If memory runs out, they stay.
    #[tactic(auto, using(crate::proofs::Aims::sound_same, crate::proofs::Placing::placed_same, crate::proofs::Placing::placed_taken, crate::proofs::Waiting::waiting_same))]
    pub fn take_done(&mut self) -> Result<Vec<(u64, J::Out)>, OutOfMemory>
        requires stands { Stands J.polls J.cancels self.old }
        ensures stands { Stands J.polls J.cancels self.new }
        ensures ok { IfOk result (λ taken. IsPermutation (outputs_of self.old) taken.items) }
        ensures ascending { IfOk result (λ taken. IsNonDecreasingBy (λ o. o.0) taken.items) }
        ensures once { IfOk result (λ taken. (t : ℕ) → outputs_at taken.items t ≤ 1) }
        ensures of_spawned { IfOk result (λ taken. (t : ℕ) → spawned_of self.old ≤ t → outputs_at taken.items t ≡ 0) }
        ensures meet { IfOk result (λ taken. (aims : ℕ → List ℕ) → MeetAims J.aim J.meets aims self.old
            → All (λ o. J.meets (aims o.0) o.1) taken.items) }
        ensures taken { OnOk result (outputs_of self.new ≡ []) }
        ensures err { OnErr result (outputs_of self.new ≡ outputs_of self.old) }
        ensures tasks { (s : ℕ) → tasks_of self.new s ≡ tasks_of self.old s }
        ensures kept { KeepsDriver self.old self.new }
        ensures numbers { (spawned_of self.new ≡ spawned_of self.old) × (left_of self.new ≡ left_of self.old) }
        ensures aims { (aims : ℕ → List ℕ) → MeetAims J.aim J.meets aims self.old → MeetAims J.aim J.meets aims self.new }
        ensures sound { IsSound J.fits J.apart self.old → IsSound J.fits J.apart self.new }
        ensures waits { NoneForgotten J.waits self.old → NoneForgotten J.waits self.new }
    {
        let mut taken = Vec::new(*self.outputs.allocator());
        taken.append(&mut self.outputs)?;
        taken.sort_unstable_by_key(|output| output.0);
        Ok(taken)
    }

    /// Takes out the unfinished task of the lowest number, with its job. It takes no memory.
    #[tactic(auto, using(crate::proofs::Aims::aims_out, crate::proofs::Aims::aims_same, crate::proofs::Aims::sound_out, crate::proofs::Aims::sound_same, crate::proofs::Aims::apart_out, crate::proofs::Numbering::first_number, crate::proofs::Waiting::waiting_out, crate::proofs::Waiting::waiting_same))]
    pub fn take_left(&mut self) -> Option<(u64, J)>
        requires stands { Stands J.polls J.cancels self.old }
        ensures stands { Stands J.polls J.cancels self.new }
        ensures some { IfSome result (λ taken. TakesOut self.old self.new taken.0 taken.1) }
        ensures none { IsNone result ↔ (left_of self.old ≡ 0) }
        ensures unchanged { IfNone result ((s : ℕ) → tasks_of self.new s ≡ tasks_of self.old s) }
        ensures same_left { IfNone result (left_of self.new ≡ left_of self.old) }
        ensures kept { KeepsDriver self.old self.new }
        ensures numbers { (spawned_of self.new ≡ spawned_of self.old) × (outputs_of self.new ≡ outputs_of self.old) }
        ensures aims { (aims : ℕ → List ℕ) → MeetAims J.aim J.meets aims self.old → MeetAims J.aim J.meets aims self.new }
        ensures sound { IsSound J.fits J.apart self.old → IsSound J.fits J.apart self.new }
        ensures waits { NoneForgotten J.waits self.old → NoneForgotten J.waits self.new }
        // It fits the driver as that task, and has no operation with those that are left.
        ensures apart { IfSome result (λ taken. IsSound J.fits J.apart self.old
            → IsApart J.fits J.apart self.new.driver (jobs_of self.new) taken.0 taken.1) }
    {
        match self.ready.numbers.first() {
            Some(t) => Some((t, self.take_out(t))),
            None => None,
        }
    }

    // Takes out an unfinished task: its job.
    #[tactic(auto, using(crate::proofs::Placing::placed_out, crate::proofs::Numbering::numbers_but_one))]
    fn take_out(&mut self, t: u64) -> J
        requires stands { Stands J.polls J.cancels self.old }
        requires there { IsSome (tasks_of self.old t) }
        ensures stands { Stands J.polls J.cancels self.new }
        ensures own { jobs_of self.old t ≡ Some result }
        ensures gone { tasks_of self.new t ≡ None }
        ensures rest { (s : ℕ) → s ≢ t → tasks_of self.new s ≡ tasks_of self.old s }
        ensures len { left_of self.new + 1 ≡ left_of self.old }
        ensures kept { KeepsDriver self.old self.new }
        ensures numbers { (spawned_of self.new ≡ spawned_of self.old) × (outputs_of self.new ≡ outputs_of self.old) }
    {
        let deadline = match self.ready.table.flags(t) {
            Some(flags) => flags.deadline,
            None => None,
        };
        let job = self.ready.table.take(t);
        self.ready.table.end(t);
        self.ready.drop_number(t, deadline);
        job
    }

    /// Ends an executor of no unfinished tasks: its driver. Outputs that weren't taken are dropped. With tasks left it comes back. It takes
    /// no memory.
    pub fn finish(self) -> Result<D, Exec<D, J, J::Out>>
        ensures ok { IfOk result (λ driver. driver ≡ self.driver) }
        ensures done { IsOk result ↔ (left_of self ≡ 0) }
        ensures err { IfErr result (λ exec. exec ≡ self) }
    {
        if self.left() != 0 {
            return Err(self);
        }
        let Exec {
            driver,
            ready,
            outputs: _,
            spawned: _,
            turns: _,
        } = self;
        let Ready {
            table,
            numbers: _,
            marks: _,
            deadlines: _,
            moment: _,
        } = ready;
        table.destroy();
        Ok(driver)
    }
}
