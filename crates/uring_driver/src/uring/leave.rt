//! What the leaving of an operation does to the handles that it named, and to the one that it made.
ghost use Rattle.std.specs.Prelude.{◌≡◌, ◌≤◌, ◌<◌, ℕ, true, false, [], ◌∷◌, map, length, IsTrue, IfSome};
ghost use Rattle.machine.specs.Ledger.{with_made};
ghost use Rattle.machine.specs.Lists.{has_number};
ghost use Rattle.ring_core.specs.Entry.{close_entry};
ghost use Rattle.machine.specs.Request.{listed};
ghost use Rattle.driver_core.specs.Holds.{unheld_by, CanLeave};
ghost use Rattle.uring_driver.specs.Holding.{ops_left};
ghost use Rattle.uring_driver.specs.Making.{kept_if, lost_if, refuses_made, op_closes, op_ended, handed_if};
ghost use Rattle.handle_core.specs.Table.{holders_at};
ghost use Rattle.uring_driver.specs.Submissions.{PostsEach, PendingMovesEach, pending_ring};

use crate::holding::Handles;
use crate::submissions::Submissions;
use handle_core::Released;
use machine::{MOST_HANDLES, Names};
use ring_core::{Entry, Ring};

/// An operation that named these handles is gone: it holds each no more, and the close of one that nobody holds joins what is pending. It
/// takes no memory.
pub fn let_go<R: Ring>(ring: &mut Submissions<R>, handles: &mut Handles, names: Names)
    requires held { CanLeave handles.old.table (listed names) }
    requires room { length (unheld_by handles.old.table (listed names)) ≤ ring.old.room }
    ensures handles { handles.new ≡ ops_left handles.old (listed names) }
    ensures posts { PostsEach R.view R.tells R.steady ring.old ring.new (map close_entry (unheld_by handles.old.table (listed names))) }
    ensures moves { IsTrue R.tells → PendingMovesEach (pending_ring R.view ring.old).queue (pending_ring R.view ring.new).queue
        (map close_entry (unheld_by handles.old.table (listed names))) }
    ensures below { (h : ℕ) → has_number h (unheld_by handles.old.table (listed names)) ≡ true → h < MOST_HANDLES }
    ensures none_due { IsTrue R.steady → ring.old.due ≡ [] → ring.new.due ≡ [] }
{
    match names {
        Names::Nothing => {}
        Names::One(h) => let_one_go(ring, handles, h),
        Names::Two(lower, upper) => {
            let_one_go(ring, handles, lower);
            let_one_go(ring, handles, upper);
        }
    }
}

// The same, of one handle.
fn let_one_go<R: Ring>(ring: &mut Submissions<R>, handles: &mut Handles, h: u64)
    requires held { 0 < (holders_at handles.old.table h).operations }
    requires room { length (unheld_by handles.old.table (h ∷ [])) ≤ ring.old.room }
    ensures handles { handles.new ≡ ops_left handles.old (h ∷ []) }
    ensures posts { PostsEach R.view R.tells R.steady ring.old ring.new (map close_entry (unheld_by handles.old.table (h ∷ []))) }
    ensures below { (k : ℕ) → has_number k (unheld_by handles.old.table (h ∷ [])) ≡ true → k < MOST_HANDLES }
    ensures none_due { IsTrue R.steady → ring.old.due ≡ [] → ring.new.due ≡ [] }
{
    match handles.release_op(h) {
        Released::Held => {}
        Released::Last => ring.post(Entry::close(h)),
    }
}

/// The same, of an operation that made a handle too, or none.
pub fn let_all_go<R: Ring>(
    ring: &mut Submissions<R>,
    handles: &mut Handles,
    names: Names,
    made: Option<u64>,
)
    requires held { CanLeave handles.old.table (with_made made (listed names)) }
    requires room { length (unheld_by handles.old.table (with_made made (listed names))) ≤ ring.old.room }
    ensures handles { handles.new ≡ ops_left handles.old (with_made made (listed names)) }
    ensures posts { PostsEach R.view R.tells R.steady ring.old ring.new
        (map close_entry (unheld_by handles.old.table (with_made made (listed names)))) }
    ensures moves { IsTrue R.tells → PendingMovesEach (pending_ring R.view ring.old).queue (pending_ring R.view ring.new).queue
        (map close_entry (unheld_by handles.old.table (with_made made (listed names)))) }
    ensures below { (h : ℕ) → has_number h (unheld_by handles.old.table (with_made made (listed names))) ≡ true → h < MOST_HANDLES }
    ensures none_due { IsTrue R.steady → ring.old.due ≡ [] → ring.new.due ≡ [] }
{
    let_go(ring, handles, names);
    match made {
        None => {}
        Some(h) => let_one_go(ring, handles, h),
    }
}

/// The completion of an operation in flight was treated. Where the operation was dropped, the handles that it named are let go, and the
/// close of one that it made joins what is pending; else it holds the one that it made. It takes no memory.
pub fn end_op<R: Ring>(
    ring: &mut Submissions<R>,
    handles: &mut Handles,
    names: Names,
    maker: bool,
    dropped: bool,
    made: Option<u64>,
)
    requires held { CanLeave handles.old.table (listed names) }
    requires room { length (op_closes handles.old.table (listed names) (lost_if dropped made)) ≤ ring.old.room }
    requires some { maker ≡ true → 0 < handles.old.makers }
    requires made { refuses_made handles.old maker made ≡ false }
    ensures handles { handles.new ≡ op_ended handles.old (listed names) maker (kept_if dropped made) (lost_if dropped made) }
    ensures posts { PostsEach R.view R.tells R.steady ring.old ring.new
        (map close_entry (op_closes handles.old.table (listed names) (lost_if dropped made))) }
    ensures below { (h : ℕ) → has_number h (op_closes handles.old.table (listed names) (lost_if dropped made)) ≡ true → h < MOST_HANDLES }
    ensures none_due { IsTrue R.steady → ring.old.due ≡ [] → ring.new.due ≡ [] }
{
    let_go(ring, handles, names);
    if !maker {
        return;
    }
    handles.end_maker(dropped, made);
    match made {
        Some(h) if dropped => ring.post(Entry::close(h)),
        _ => {}
    }
}

/// The handle that an operation made becomes its user's, where it made one. It takes no memory.
pub fn hand_over(handles: &mut Handles, made: Option<u64>)
    requires { IfSome made (λ h. 0 < (holders_at handles.old.table h).operations) }
    ensures { handles.new ≡ handed_if handles.old made }
{
    match made {
        None => {}
        Some(h) => handles.hand_over(h),
    }
}
