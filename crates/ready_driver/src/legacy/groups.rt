//! The calls of a readiness driver on its cancel groups.
ghost use Rattle.std.specs.Prelude.{◌≡◌, ◌<◌, ◌≤◌, ◌+◌, length, IsTrue, IfOk, IfErr, OnOk, OnErr};
ghost use Rattle.std.specs.List.Sorted.{IsStrictlyIncreasing};
ghost use Rattle.cancel_core.specs.Group.{group_at};
ghost use Rattle.machine.specs.Ledger.{is_marked};
ghost use Rattle.driver_core.specs.Groups as groups;
ghost use Rattle.driver_core.specs.Groups.{AreInSlots};
ghost use Rattle.driver_core.specs.Members.{with_fresh, cancels, HaveKeys};
ghost use Rattle.driver_core.specs.Op.{KeepsTokens as KeepsTokensIn};
ghost use Rattle.driver_core.specs.Requests.{KeepsRequests as KeepsRequestsIn};
ghost use Rattle.std.specs.Vec.{vec_len, vec_capacity};
ghost use Rattle.ready_driver.specs.Legacy.{Legacy, seen};
ghost use Rattle.ready_driver.specs.LegacyCalls.{asks_each, asking_in};
ghost use Rattle.ready_driver.specs.LegacyStep.{ask_each};
ghost use Rattle.ready_driver.specs.Polling.{OpsStand};
ghost use Rattle.ready_driver.specs.LegacyState.{KeepsTokens, KeepsRequests, group_count};
ghost use Rattle.ready_driver.specs.LegacyStands.{LegacyStands, CancellerFor, HandleFor, CancelsFor};

use crate::legacy::{LegacyDriver, ask, note};
use crate::non_block::NonBlock;
use crate::registry::Registry;
use driver_core::{CancelHandle, Canceller, Members, Operations};
use rent_buf::{IoBufMut, NumList, OutOfMemory};

impl<I: NonBlock, B: IoBufMut + Drop> LegacyDriver<I, B> {
    /// How many cancel groups were made: each has a number below it. (not in monoio)
    pub fn groups(&self) -> u64
        ensures { result ≡ group_count self.now }
    {
        self.members.count()
    }

    /// Makes a group with no members, that isn't canceled, and answers its canceller. If memory runs out, nothing changes. (monoio:
    /// `Canceller::new`)
    pub fn new_canceller(&mut self) -> Result<Canceller, OutOfMemory>
        ensures answers { IfOk result (λ c. IsTrue I.memory → (D : Legacy) → LegacyStands I.view B.buffer self.old D →
            CancellerFor I.view B.buffer D c self.new) }
        ensures number { IfOk result (λ c. c ≡ group_count self.old) }
        ensures made { OnOk result (self.new ≡ record self.old { members = with_fresh self.old.members }) }
        ensures err { OnErr result (self.new ≡ self.old) }
    {
        self.members.new_canceller()
    }

    /// A cancel handle of a canceller's group. (monoio: `Canceller::handle`)
    pub fn cancel_handle(&self, c: &Canceller) -> CancelHandle
        requires { c.now < group_count self.now }
        ensures group { result ≡ c.now }
        // The driver stays as it is, and is the driver as plain data with that cancel handle too.
        ensures answers { (D : Legacy) → LegacyStands I.view B.buffer self.now D → HandleFor I.view B.buffer D c.now self.now }
    {
        self.members.handle(c)
    }

    /// Whether a group is canceled. No call takes that back. (monoio: `CancelHandle::canceled`)
    pub fn canceled(&self, g: CancelHandle) -> bool
        requires { g < group_count self.now }
        ensures mark { result ≡ groups.is_canceled self.now.members g }
        ensures answers { (D : Legacy) → LegacyStands I.view B.buffer self.now D → result ≡ is_marked (seen D) g }
    {
        self.members.canceled(g)
    }

    /// Cancels a canceller's group for good: the cancel of each member is asked for (`cancel_op`), ascending by their numbers, which are
    /// the answer. The members are the operations that were submitted under the group and are neither returned nor dropped. The canceller
    /// that comes back is of a fresh group. All memory is taken first: if it runs out, nothing changes, and the same canceller comes back.
    /// (monoio: `Canceller::cancel`)
    pub fn cancel(&mut self, c: Canceller) -> Result<(Canceller, NumList), (OutOfMemory, Canceller)>
        requires { c < group_count self.old }
        ensures answers { IfOk result (λ canceling. IsTrue I.memory → (D : Legacy) → LegacyStands I.view B.buffer self.old D →
            CancelsFor I.view B.buffer D c canceling.1 canceling.0 self.new) }
        // Over every object: the group's members are named, and the next turn names the task of each that waits.
        ensures members { IfOk result (λ canceling. canceling.1 ≡ (group_at self.old.members.groups c).members) }
        ensures ascending { IfOk result (λ canceling. IsStrictlyIncreasing canceling.1) }
        ensures number { IfOk result (λ canceling. canceling.0 ≡ group_count self.old) }
        ensures marked { OnOk result (self.new.members ≡ cancels self.old.members c) }
        ensures asks { IfOk result (λ canceling.
            asking_in self.new ≡ asks_each self.old.members (asking_in self.old) canceling.1) }
        ensures untreated { self.new.untreated ≡ self.old.untreated }
        ensures tokens { KeepsTokens self.old self.new }
        ensures requests { KeepsRequests self.old self.new }
        ensures given { self.new.given ≡ self.old.given }

        ensures back { IfErr result (λ refused. refused.1 ≡ c) }
        ensures err { OnErr result (self.new ≡ self.old) }
    {
        if self.asked.reserve(self.members.size(&c)).is_err() {
            return Err((OutOfMemory, c));
        }
        let (fresh, numbers) = match self.members.cancel(c) {
            Ok(canceling) => canceling,
            Err(refused) => return Err(refused),
        };
        ask_each(
            &mut self.registry,
            &mut self.ops,
            &self.members,
            numbers.as_slice(),
            &mut self.asked,
        );
        Ok((fresh, numbers))
    }
}

// Asks for the cancel of each of these operations, which are under groups, in order. Their tasks, if they wait, join those that the next
// turn names, in memory that was reserved.
fn ask_each<I: NonBlock, B: IoBufMut + Drop>(
    registry: &mut Registry<I>,
    ops: &mut Operations<B>,
    members: &Members,
    numbers: &[u64],
    asked: &mut Vec<u64>,
)
    requires keys { HaveKeys members.now numbers.now }
    requires in_slots { AreInSlots members.now ops.old.slots.values }
    requires room { vec_len asked.old + length numbers.now ≤ vec_capacity asked.old }
    ensures asks { record { handling = registry.new; slots = ops.new.slots.values; asked = asked.new.items } ≡ asks_each members.now
        (record { handling = registry.old; slots = ops.old.slots.values; asked = asked.old.items }) numbers.now }
    ensures cancels { (D : Legacy) → OpsStand B.buffer ops.old D →
        OpsStand B.buffer ops.new (record D { slots = ask_each D.slots numbers.now }) }
    ensures tokens { KeepsTokensIn ops.old ops.new }
    ensures requests { KeepsRequestsIn ops.old ops.new }
    ensures given { ops.new.given ≡ ops.old.given }
{
    for i in 0..numbers.len() {
        let number = numbers[i];
        match members.key_of(number) {
            Some(key) => {
                let task = ask(registry, ops, key, number);
                note(asked, task);
            }
            None => unreachable!(),
        }
    }
}
