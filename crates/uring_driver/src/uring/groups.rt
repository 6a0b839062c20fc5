//! The calls of a driver on its cancel groups.
ghost use Rattle.std.specs.Prelude.{◌≡◌, ◌≤◌, ◌<◌, [], length, IsTrue, IfOk, IfErr, OnOk, OnErr};
ghost use Rattle.std.specs.List.Sorted.{IsStrictlyIncreasing};
ghost use Rattle.cancel_core.specs.Group.{group_at};
ghost use Rattle.machine.specs.Ledger.{Ledger, is_marked};
ghost use Rattle.driver_core.specs.Answers.{CancellerFor, HandleFor, CancelsFor};
ghost use Rattle.driver_core.specs.Groups as groups;
ghost use Rattle.driver_core.specs.Members.{with_fresh, cancels, HaveKeys};
ghost use Rattle.uring_driver.specs.Groups.{cancels_of};
ghost use Rattle.uring_driver.specs.Op.{KeepsTokens, KeepsRequests};
ghost use Rattle.uring_driver.specs.Reaps.{PendingJoins};
ghost use Rattle.uring_driver.specs.Stands.{Stands};
ghost use Rattle.uring_driver.specs.Submissions.{PostsEach};
ghost use Rattle.uring_driver.specs.Submitted.{SameSlots, IsSameRing};
ghost use Rattle.uring_driver.specs.Uring.{due_in, pending, members_in, group_count};

use crate::submissions::Submissions;
use crate::uring::{IoUringDriver, owed};
use driver_core::{CancelHandle, Canceller, Members};
use rent_buf::{IoBufMut, NumList, OutOfMemory};
use ring_core::{Entry, Ring};

impl<R: Ring, B: IoBufMut + Drop> IoUringDriver<R, B> {
    /// How many cancel groups were made: each has a number below it. (not in monoio)
    pub fn groups(&self) -> u64
        ensures { result ≡ group_count self.now }
    {
        self.members.count()
    }

    /// Makes a group with no members, that isn't canceled, and answers its canceller. If memory runs out, nothing changed. (monoio:
    /// `Canceller::new`)
    pub fn new_canceller(&mut self) -> Result<Canceller, OutOfMemory>
        ensures answers { IfOk result (λ c. (L : Ledger) → Stands R.view B.buffer self.old L →
            CancellerFor (Stands R.view B.buffer) L c self.new) }
        ensures number { IfOk result (λ c. c ≡ group_count self.old) }
        ensures made { OnOk result (self.new ≡ record self.old { members = with_fresh (members_in self.old) }) }
        ensures tokens { KeepsTokens self.old self.new }
        ensures requests { KeepsRequests self.old self.new }
        ensures err { OnErr result (self.new ≡ self.old) }
    {
        self.members.new_canceller()
    }

    /// A cancel handle of a canceller's group. (monoio: `Canceller::handle`)
    pub fn cancel_handle(&self, c: &Canceller) -> CancelHandle
        requires { c.now < group_count self.now }
        ensures group { result ≡ c.now }
        // The driver stays as it is, and stands for the ledger with that cancel handle too.
        ensures answers { (L : Ledger) → Stands R.view B.buffer self.now L → HandleFor (Stands R.view B.buffer) L c.now self.now }
    {
        self.members.handle(c)
    }

    /// Whether a group is canceled. No call takes that back. (monoio: `CancelHandle::canceled`)
    pub fn canceled(&self, g: CancelHandle) -> bool
        requires { g < group_count self.now }
        ensures mark { result ≡ groups.is_canceled (members_in self.now) g }
        ensures answers { (L : Ledger) → Stands R.view B.buffer self.now L → result ≡ is_marked L g }
    {
        self.members.canceled(g)
    }

    /// Cancels a canceller's group for good: the cancel of each member joins what is pending, ascending by their numbers, which are the
    /// answer. The members are the operations that were submitted under the group and are neither returned nor dropped. The canceller that
    /// comes back is of a fresh group. All memory is taken first: if it runs out, nothing has changed but reserved memory, and the same
    /// canceller comes back. (monoio: `Canceller::cancel`)
    pub fn cancel(&mut self, c: Canceller) -> Result<(Canceller, NumList), (OutOfMemory, Canceller)>
        requires { c < group_count self.old }
        ensures answers { IfOk result (λ canceling. IsTrue R.steady → (L : Ledger) → Stands R.view B.buffer self.old L →
            CancelsFor (Stands R.view B.buffer) L c canceling.1 canceling.0 self.new) }
        // Over every ring: the group's members are named, their cancels join what is pending, and nothing passes what is pending.
        ensures members { IfOk result (λ canceling. canceling.1 ≡ (group_at (members_in self.old).groups c).members) }
        ensures ascending { IfOk result (λ canceling. IsStrictlyIncreasing canceling.1) }
        ensures moves { IfOk result (λ canceling. IsTrue R.tells →
            PendingJoins (pending R.view self.old) (cancels_of (members_in self.old) canceling.1) (pending R.view self.new)) }
        ensures none_due { IsTrue R.steady → due_in self.old ≡ [] → due_in self.new ≡ [] }
        ensures number { IfOk result (λ canceling. canceling.0 ≡ group_count self.old) }
        ensures marked { OnOk result (self.new ≡
            record self.old { ring = self.new.ring; members = cancels (members_in self.old) c }) }
        ensures tokens { KeepsTokens self.old self.new }
        ensures requests { KeepsRequests self.old self.new }

        ensures back { IfErr result (λ refused. refused.1 ≡ c) }
        ensures err { OnErr result (SameSlots self.old self.new × IsSameRing R.view self.old self.new) }
        ensures stands { OnErr result ((L : Ledger) → Stands R.view B.buffer self.old L → Stands R.view B.buffer self.new L) }
    {
        let Some(room) = owed(&self.ops, self.handles.places(), self.members.size(&c)) else {
            return Err((OutOfMemory, c));
        };
        if self.ring.make_spare(room).is_err() {
            return Err((OutOfMemory, c));
        }
        let (fresh, numbers) = match self.members.cancel(c) {
            Ok(canceling) => canceling,
            Err(refused) => return Err(refused),
        };
        post_cancels(&mut self.ring, &self.members, numbers.as_slice());
        Ok((fresh, numbers))
    }
}

// The cancels of operations that are under groups join what is pending, in order. It takes no memory.
fn post_cancels<R: Ring>(ring: &mut Submissions<R>, members: &Members, numbers: &[u64])
    requires keys { HaveKeys members.now numbers.now }
    requires room { length numbers.now ≤ ring.old.room }
    ensures posts { PostsEach R.view R.tells R.steady ring.old ring.new (cancels_of members.now numbers.now) }
    ensures none_due { IsTrue R.steady → ring.old.due ≡ [] → ring.new.due ≡ [] }
{
    for i in 0..numbers.len() {
        let number = numbers[i];
        match members.key_of(number) {
            Some(key) => ring.post(Entry::cancel(key, number)),
            None => unreachable!(),
        }
    }
}
