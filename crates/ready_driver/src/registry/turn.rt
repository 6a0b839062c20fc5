// What a turn does to handles: it waits for reports, and treats them.
ghost use Rattle.std.specs.Prelude.{◌≡◌, ◌++◌, ◌+◌, ◌≤◌, ◌^◌, [], length, IsOk, IsTrue, OnOk, OnErr, IfSome, IfNone};
ghost use Rattle.std.specs.Vec.{vec_len, vec_capacity};
ghost use Rattle.ready_driver.specs.Io.{WaitsFor};
ghost use Rattle.ready_driver.specs.Records.{io_named};
ghost use Rattle.ready_driver.specs.Turns.{reported, reported_each, woken_by, woken_each, waiting_on, AreShown};

use crate::non_block::{NonBlock, NonBlockError, Report, Reports};
use crate::records::Records;
use crate::registry::Registry;
use rent_buf::OutOfMemory;
use wake_core::Bell;

impl<I: NonBlock> Registry<I> {
    /// Waits for reports, no longer than so many milliseconds, and puts them into an empty list. `Fault` comes only where the object
    /// failed, and `OutOfMemory` if memory runs out; then the list stays empty. No handle changes. (monoio: `Poll::poll`, of the legacy
    /// driver)
    pub fn wait(&mut self, limit: Option<u64>, reports: &mut Reports) -> Result<(), NonBlockError>
        requires { reports.old ≡ [] }
        ensures waits { WaitsFor I.tells I.reporting I.memory limit (I.view self.old.io) (I.view self.new.io) reports.new result }
        ensures rest { self.new ≡ record self.old { io = self.new.io } }
    {
        self.io.wait(limit, reports)
    }

    /// What ends a wait of the object from another thread, if something does. (not in monoio)
    pub fn bell(&mut self) -> Option<Bell>
        ensures { self.new ≡ self.old }
    {
        self.io.bell()
    }

    /// Treats reports, in order: the bits of each are added to those of the handle of its key, and the tasks that wait in a direction that
    /// they meet join `woken`, and wait no longer. A report whose key no held handle has is passed over. The memory for the tasks
    /// is taken first; if that runs out, nothing changes. It looks at the handles alone that are reported. (monoio: `dispatch`, of the
    /// legacy driver)
    pub fn report(&mut self, reports: &Reports, woken: &mut Vec<u64>) -> Result<(), OutOfMemory>
        ensures tasks { OnOk result (woken.new.items ≡ woken.old.items ++ woken_each self.old.records reports.now) }
        ensures rest { OnOk result (self.new ≡ record self.old { records = reported_each self.old.records reports.now }) }
        // Of a world in memory each held handle is due or has its bits then, where that was so with what is reported.
        ensures shown { OnOk result (IsTrue I.memory → AreShown I.view self.old reports.now → AreShown I.view self.new []) }
        // It runs out of memory only where `woken` hasn't room for as many as wait for the handles that are reported.
        ensures there { vec_len woken.old + waiting_on self.old.records reports.now ≤ vec_capacity woken.old → IsOk result }
        ensures err { OnErr result ((woken.new.items ≡ woken.old.items) × (self.new ≡ self.old)) }
    {
        self.records.named();
        let Some(most) = count_waiting(&self.records, reports) else {
            return Err(OutOfMemory);
        };
        woken.reserve(most)?;
        treat(&mut self.records, reports, woken);
        Ok(())
    }
}

// How many operations wait for the handles that are reported, report by report; None where that is no `usize`.
#[tactic(auto, using(crate::proofs::Reporting::waiting_drop, crate::proofs::Reporting::drop_end))]
fn count_waiting(records: &Records, reports: &Reports) -> Option<usize>
    ensures some { IfSome result (λ n. n ≡ waiting_on records.now.records reports.now) }
    ensures none { IfNone result (2 ^ 64 ≤ waiting_on records.now.records reports.now) }
{
    let mut count: usize = 0;
    for at in 0..reports.len() {
        let Some(report) = reports.get(at) else {
            unreachable!();
        };
        count = count.checked_add(records.waiting(report.key))?;
    }
    Some(count)
}

// Treats reports, in order, in memory that was reserved for the tasks that they wake.
fn treat(records: &mut Records, reports: &Reports, woken: &mut Vec<u64>)
    requires room { vec_len woken.old + waiting_on records.old.records reports.now ≤ vec_capacity woken.old }
    ensures records { records.new ≡ record records.old { records = reported_each records.old.records reports.now } }
    ensures tasks { woken.new.items ≡ woken.old.items ++ woken_each records.old.records reports.now }
{
    for at in 0..reports.len() {
        let Some(report) = reports.get(at) else {
            unreachable!();
        };
        treat_one(records, report, woken);
    }
}

// Treats a report, in memory that was reserved for the tasks that it wakes.
fn treat_one(records: &mut Records, report: Report, woken: &mut Vec<u64>)
    requires { vec_len woken.old + length (io_named records.old.records report.key).waiting ≤ vec_capacity woken.old }
    ensures records { records.new ≡ record records.old { records = reported records.old.records report } }
    ensures tasks { woken.new.items ≡ woken.old.items ++ woken_by records.old.records report }
    ensures len { vec_len woken.new ≡ vec_len woken.old + length (woken_by records.old.records report) }
    ensures capacity { vec_capacity woken.old ≤ vec_capacity woken.new }
{
    records.report_into(report.key, report.ready, woken);
}
