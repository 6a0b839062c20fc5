// Unfinished tasks, a list of those that are marked, and the deadlines that are to come.
ghost use Rattle.std.specs.Prelude.{◌≡◌, ◌≢◌, ◌<◌, ◌≤◌, ◌+◌, ◌==◌, ◌&&◌, ℕ, not, option_map, true, false, drop, IsOk, None, OnErr, OnOk};
ghost use Rattle.std.specs.Ordering.{nat_cmp};
ghost use Rattle.std.specs.List.Sorted.{IsSorted};
ghost use Rattle.std.specs.Vec.{vec_len, vec_capacity};
ghost use Rattle.std.specs.HashMap.{hash_map_len};
ghost use Rattle.std.specs.BTreeSet.{btree_set_len};
ghost use Rattle.core_exec.specs.Deadlines.{is_set, IsSetAt, KeepsSet};
ghost use Rattle.core_exec.specs.Tasks.{task_at, mark_of, unmarked_in};
ghost use Rattle.core_exec.specs.Numbers.{is_in};
ghost use Rattle.core_exec.specs.Marks.{AreListed, Covers, HasDeadlines, KeepsButDeadline, MarkedLate, dated, with_mark, has_come, has_number, is_late, ready_tasks};

use crate::deadlines::Deadlines;
use crate::numbers::Numbers;
use crate::table::Table;
use rent_buf::OutOfMemory;

// The unfinished tasks, with what finds those that are ready.
pub(crate) struct Ready<J> {
    // The tasks.
    pub(crate) table: Table<J>,
    // Their numbers, in order.
    pub(crate) numbers: Numbers,
    // Numbers, among them that of each marked task.
    pub(crate) marks: Vec<u64>,
    // The deadlines that are to come.
    pub(crate) deadlines: Deadlines,
    // The moment of the last turn.
    pub(crate) moment: u64,
}

// A task of this deadline, which was canceled or not, is late at a moment.
pub(crate) fn late_at(deadline: Option<u64>, canceled: bool, now: u64) -> bool
    ensures { result ≡ (not canceled && has_come now deadline) }
{
    if canceled {
        return false;
    }
    match deadline {
        Some(at) => at <= now,
        None => false,
    }
}

impl<J> Ready<J> {
    // Marks a task, if there is one of that number.
    #[tactic(auto, using(crate::proofs::Marking::mark_once, crate::proofs::Marking::covers_more, crate::proofs::Marking::covers_again, crate::proofs::Marking::costs_one, crate::proofs::Marking::costs_none))]
    pub(crate) fn mark(&mut self, t: u64)
        requires listed { AreListed self.old }
        ensures listed { AreListed self.new }
        ensures each { (s : ℕ) → task_at self.new.table s ≡ option_map (with_mark (s == t)) (task_at self.old.table s) }
        ensures len { hash_map_len self.new.table.map ≡ hash_map_len self.old.table.map }
        ensures deadlines { self.new.deadlines ≡ self.old.deadlines }
        ensures numbers { self.new.numbers ≡ self.old.numbers }
        ensures moment { self.new.moment ≡ self.old.moment }
    {
        if self.table.mark(t) {
            self.marks.push_reserved(t);
        }
    }

    // Marks the tasks of some numbers.
    #[tactic(auto, using(crate::proofs::Marking::mark_next))]
    pub(crate) fn mark_each(&mut self, named: &[u64])
        requires listed { AreListed self.old }
        ensures listed { AreListed self.new }
        ensures each { (s : ℕ) → task_at self.new.table s ≡ option_map (with_mark (has_number s named.now)) (task_at self.old.table s) }
        ensures len { hash_map_len self.new.table.map ≡ hash_map_len self.old.table.map }
        ensures deadlines { self.new.deadlines ≡ self.old.deadlines }
        ensures numbers { self.new.numbers ≡ self.old.numbers }
        ensures moment { self.new.moment ≡ self.old.moment }
    {
        for k in 0..named.len() {
            self.mark(named[k]);
        }
    }

    // Marks a task if it is late.
    #[tactic(auto, using(crate::proofs::Late::late_flags, crate::proofs::Late::late_marked, crate::proofs::Late::late_mark))]
    fn mark_if_late(&mut self, t: u64)
        requires listed { AreListed self.old }
        ensures listed { AreListed self.new }
        ensures each { (s : ℕ) → MarkedLate self.old.moment (task_at self.old.table s) (task_at self.new.table s) }
        ensures marked { is_late self.old.moment (task_at self.old.table t) ≡ true → mark_of (task_at self.new.table t) ≡ true }
        ensures len { hash_map_len self.new.table.map ≡ hash_map_len self.old.table.map }
        ensures deadlines { self.new.deadlines ≡ self.old.deadlines }
        ensures numbers { self.new.numbers ≡ self.old.numbers }
        ensures moment { self.new.moment ≡ self.old.moment }
    {
        match self.table.flags(t) {
            Some(flags) => {
                if late_at(flags.deadline, flags.canceled, self.moment) {
                    self.mark(t);
                }
            }
            None => {}
        }
    }

    // Takes out the first deadline that has come, and marks its task if it is late: whether there was one.
    #[tactic(auto, using(crate::proofs::Late::set_behind_pop))]
    fn mark_first(&mut self) -> bool
        requires listed { AreListed self.old }
        requires deadlines { HasDeadlines self.old }
        ensures listed { AreListed self.new }
        ensures deadlines { HasDeadlines self.new }
        ensures each { (s : ℕ) → MarkedLate self.old.moment (task_at self.old.table s) (task_at self.new.table s) }
        ensures none { result ≡ false → (d s : ℕ) → is_set self.new.deadlines d s ≡ true → self.new.moment < d }
        ensures fewer { result ≡ true → btree_set_len self.new.deadlines.set + 1 ≡ btree_set_len self.old.deadlines.set }
        ensures len { hash_map_len self.new.table.map ≡ hash_map_len self.old.table.map }
        ensures numbers { self.new.numbers ≡ self.old.numbers }
        ensures moment { self.new.moment ≡ self.old.moment }
    {
        match self.deadlines.pop(self.moment) {
            Some(t) => {
                self.mark_if_late(t);
                true
            }
            None => false,
        }
    }

    // Marks the tasks that are late.
    #[tactic(auto, using(crate::proofs::Late::late_then, crate::proofs::Late::late_all))]
    pub(crate) fn mark_late(&mut self)
        requires listed { AreListed self.old }
        requires deadlines { HasDeadlines self.old }
        ensures listed { AreListed self.new }
        ensures deadlines { HasDeadlines self.new }
        ensures each { (s : ℕ) → task_at self.new.table s
            ≡ option_map (with_mark (is_late self.old.moment (task_at self.old.table s))) (task_at self.old.table s) }
        ensures len { hash_map_len self.new.table.map ≡ hash_map_len self.old.table.map }
        ensures numbers { self.new.numbers ≡ self.old.numbers }
        ensures moment { self.new.moment ≡ self.old.moment }
    {
        while self.mark_first() {}
    }

    // Marks the tasks of some numbers, and those that are late at a moment, which is at least that of the last turn. The list is sorted.
    #[tactic(auto, using(crate::proofs::Late::set_later, crate::proofs::Late::set_marked, crate::proofs::Late::named_or_late))]
    pub(crate) fn mark_ready(&mut self, now: u64, named: &[u64])
        requires listed { AreListed self.old }
        requires deadlines { HasDeadlines self.old }
        requires moment { self.old.moment ≤ now }
        ensures listed { AreListed self.new }
        ensures deadlines { HasDeadlines self.new }
        ensures each { (s : ℕ) → task_at self.new.table s ≡ ready_tasks now named.now (task_at self.old.table) s }
        ensures sorted { IsSorted nat_cmp self.new.marks.items }
        ensures len { hash_map_len self.new.table.map ≡ hash_map_len self.old.table.map }
        ensures numbers { self.new.numbers ≡ self.old.numbers }
        ensures moment { self.new.moment ≡ now }
    {
        self.moment = now;
        self.mark_each(named);
        self.mark_late();
        self.marks.sort_unstable();
    }

    // Drops the first numbers of the list.
    pub(crate) fn drop_first(&mut self, came: usize)
        requires covers { Covers (task_at self.old.table) (drop came self.old.marks.items) }
        requires came { came ≤ vec_len self.old.marks }
        requires room { vec_len self.old.marks + unmarked_in self.old.table ≤ vec_capacity self.old.marks + came }
        ensures listed { AreListed self.new }
        ensures table { self.new.table ≡ self.old.table }
        ensures deadlines { self.new.deadlines ≡ self.old.deadlines }
        ensures numbers { self.new.numbers ≡ self.old.numbers }
        ensures moment { self.new.moment ≡ self.old.moment }
    {
        let count = self.marks.len();
        self.marks.rotate_left(came);
        self.marks.truncate(count - came);
    }

    // Sets a deadline of a number, if it is to have one.
    fn set_deadline(&mut self, t: u64, deadline: Option<u64>) -> Result<(), OutOfMemory>
        ensures ok { OnOk result (IsSetAt self.new.deadlines t deadline) }
        ensures free { deadline ≡ None → IsOk result }
        ensures kept { KeepsSet self.old.deadlines self.new.deadlines }
        ensures same { (self.new.table ≡ self.old.table) × (self.new.marks ≡ self.old.marks) × (self.new.moment ≡ self.old.moment) }
        ensures numbers { self.new.numbers ≡ self.old.numbers }
    {
        match deadline {
            Some(at) => self.deadlines.add(at, t),
            None => Ok(()),
        }
    }

    // Gives a task another deadline or none, if there is one of that number: the one that it had is to come no more.
    #[tactic(auto, using(crate::proofs::Dating::dated_once, crate::proofs::Dating::dated_none, crate::proofs::Dating::dated_keeps, crate::proofs::Dating::same_keeps, crate::proofs::Dating::set_dated, crate::proofs::Dating::covers_dated))]
    pub(crate) fn change_deadline(
        &mut self,
        t: u64,
        deadline: Option<u64>,
    ) -> Result<(), OutOfMemory>
        requires listed { AreListed self.old }
        requires deadlines { HasDeadlines self.old }
        ensures listed { AreListed self.new }
        ensures deadlines { HasDeadlines self.new }
        ensures ok { OnOk result ((s : ℕ) → task_at self.new.table s ≡ option_map (dated (s == t) deadline) (task_at self.old.table s)) }
        ensures err { OnErr result (self.new.table ≡ self.old.table) }
        ensures ignored { task_at self.old.table t ≡ None → IsOk result }
        ensures free { deadline ≡ None → IsOk result }
        ensures kept { (s : ℕ) → KeepsButDeadline (task_at self.old.table s) (task_at self.new.table s) }
        ensures len { hash_map_len self.new.table.map ≡ hash_map_len self.old.table.map }
        ensures numbers { self.new.numbers ≡ self.old.numbers }
        ensures moment { self.new.moment ≡ self.old.moment }
    {
        let Some(flags) = self.table.flags(t) else {
            return Ok(());
        };
        self.set_deadline(t, deadline)?;
        self.drop_other(t, flags.deadline, deadline);
        self.table.set_deadline(t, deadline);
        Ok(())
    }

    // Drops the deadline that a task had, if that isn't the one it has.
    fn drop_other(&mut self, t: u64, was: Option<u64>, is: Option<u64>)
        requires set { IsSetAt self.old.deadlines t is }
        ensures set { IsSetAt self.new.deadlines t is }
        ensures others { (d s : ℕ) → s ≢ t → is_set self.old.deadlines d s ≡ true → is_set self.new.deadlines d s ≡ true }
        ensures same { (self.new.table ≡ self.old.table) × (self.new.marks ≡ self.old.marks) × (self.new.moment ≡ self.old.moment) }
        ensures numbers { self.new.numbers ≡ self.old.numbers }
    {
        match (was, is) {
            (None, _) => {}
            (Some(at), None) => self.deadlines.drop_of(at, t),
            (Some(at), Some(d)) => {
                if d != at {
                    self.deadlines.drop_of(at, t);
                }
            }
        }
    }

    // Adds a number that no task has, with its deadline, if it has one.
    #[tactic(auto, using(crate::proofs::Numbering::absent_still))]
    pub(crate) fn add_number(&mut self, t: u64, deadline: Option<u64>) -> Result<(), OutOfMemory>
        requires absent { is_in self.old.numbers t ≡ false }
        ensures ok { OnOk result ((IsSetAt self.new.deadlines t deadline) × (is_in self.new.numbers t ≡ true)) }
        ensures err { OnErr result (is_in self.new.numbers t ≡ false) }
        ensures rest { (s : ℕ) → s ≢ t → is_in self.new.numbers s ≡ is_in self.old.numbers s }
        ensures kept { KeepsSet self.old.deadlines self.new.deadlines }
        ensures same { (self.new.table ≡ self.old.table) × (self.new.marks ≡ self.old.marks) × (self.new.moment ≡ self.old.moment) }
    {
        self.numbers.add(t)?;
        if self.set_deadline(t, deadline).is_err() {
            self.numbers.drop_of(t);
            return Err(OutOfMemory);
        }
        Ok(())
    }

    // Drops a number, and its deadline, if it has one.
    pub(crate) fn drop_number(&mut self, t: u64, deadline: Option<u64>)
        ensures this { is_in self.new.numbers t ≡ false }
        ensures rest { (s : ℕ) → s ≢ t → is_in self.new.numbers s ≡ is_in self.old.numbers s }
        ensures kept { (d s : ℕ) → s ≢ t → is_set self.old.deadlines d s ≡ true → is_set self.new.deadlines d s ≡ true }
        ensures same { (self.new.table ≡ self.old.table) × (self.new.marks ≡ self.old.marks) × (self.new.moment ≡ self.old.moment) }
    {
        self.numbers.drop_of(t);
        match deadline {
            Some(at) => self.deadlines.drop_of(at, t),
            None => {}
        }
    }
}
