// The cancel groups of a driver, whose members are operations in slots.
use crate::tests::stage::{Why, is_like};
use driver_core::{CancelHandle, Canceller, Members};
use rent_buf::NumList;
use std::alloc::Global;
use std::test::Fail;

// Groups, by the order in which they were made. `Unmet` comes where the condition of a call isn't met, and then the call isn't made.
trait Groups {
    // Makes a group.
    fn make(&mut self) -> Result<(), Why>;

    // An operation, whose slot is at a key, joins a group. It answers whether it may: it is under no group.
    fn join(&mut self, g: usize, number: u64, key: usize) -> Result<bool, Why>;

    // An operation leaves its group, if it is under one.
    fn leave(&mut self, number: u64);

    // Cancels a group, and makes another one. It answers the members that it had.
    fn cancel(&mut self, g: usize) -> Result<NumList, Why>;

    // How many groups were made.
    fn count(&self) -> u64;

    // How many members a group has, which isn't canceled.
    fn size(&self, g: usize) -> Result<usize, Why>;

    // Whether a group is canceled.
    fn canceled(&self, g: usize) -> Result<bool, Why>;

    // The key of the slot of an operation that joined a group and hasn't left it.
    fn key_of(&self, number: u64) -> Option<usize>;
}

// Groups with their handles, and with the cancellers of those that aren't canceled.
#[derive(Drop)]
struct Grouped {
    members: Members,
    handles: Vec<CancelHandle>,
    cancellers: Vec<Option<Canceller>>,
}

// No groups.
fn no_groups(alloc: Global) -> Grouped {
    Grouped {
        members: Members::new(alloc),
        handles: Vec::new(alloc),
        cancellers: Vec::new(alloc),
    }
}

// A handle of a canceller's group.
fn handle_of(members: &Members, c: &Canceller) -> Result<CancelHandle, Why> {
    if c.group() >= members.count() {
        return Err(Why::Unmet);
    }
    Ok(members.handle(c))
}

// The fresh canceller, and the members of a group that is canceled.
fn cancel(members: &mut Members, c: Canceller) -> Result<(Canceller, NumList), Why> {
    if c.group() >= members.count() {
        return Err(Why::Unmet);
    }
    match members.cancel(c) {
        Ok(canceling) => Ok(canceling),
        Err(_) => Err(Why::OutOfMemory),
    }
}

// An operation joins a group, if it is under none.
fn join(members: &mut Members, g: CancelHandle, number: u64, key: usize) -> Result<bool, Why> {
    if g.group() >= members.count() || members.canceled(g) {
        return Err(Why::Unmet);
    }
    if members.key_of(number).is_some() {
        return Ok(false);
    }
    members.join(g, number, key)?;
    Ok(true)
}

impl Grouped {
    // Keeps the canceller of a new group.
    fn keep(&mut self, c: Canceller) -> Result<(), Why> {
        let handle = handle_of(&self.members, &c)?;
        match (self.handles.push(handle), self.cancellers.push(Some(c))) {
            (Ok(()), Ok(())) => Ok(()),
            _ => Err(Why::OutOfMemory),
        }
    }

    // The handle of a group.
    fn handle(&self, g: usize) -> Result<CancelHandle, Why> {
        match self.handles.get(g) {
            Some(handle) => Ok(*handle),
            None => Err(Why::Unmet),
        }
    }

    // Takes the canceller of a group.
    fn take(&mut self, g: usize) -> Result<Canceller, Why> {
        if g >= self.cancellers.len() {
            return Err(Why::Unmet);
        }
        self.cancellers[g].take().ok_or(Why::Unmet)
    }
}

impl Groups for Grouped {
    fn make(&mut self) -> Result<(), Why> {
        let canceller = self.members.new_canceller()?;
        self.keep(canceller)
    }

    fn join(&mut self, g: usize, number: u64, key: usize) -> Result<bool, Why> {
        let handle = self.handle(g)?;
        join(&mut self.members, handle, number, key)
    }

    fn leave(&mut self, number: u64) {
        self.members.leave(number);
    }

    fn cancel(&mut self, g: usize) -> Result<NumList, Why> {
        let canceller = self.take(g)?;
        let (fresh, canceling) = cancel(&mut self.members, canceller)?;
        self.keep(fresh)?;
        Ok(canceling)
    }

    fn count(&self) -> u64 {
        self.members.count()
    }

    fn size(&self, g: usize) -> Result<usize, Why> {
        match self.cancellers.get(g) {
            Some(Some(c)) if c.group() < self.members.count() => Ok(self.members.size(c)),
            _ => Err(Why::Unmet),
        }
    }

    fn canceled(&self, g: usize) -> Result<bool, Why> {
        let handle = self.handle(g)?;
        if handle.group() >= self.members.count() {
            return Err(Why::Unmet);
        }
        Ok(self.members.canceled(handle))
    }

    fn key_of(&self, number: u64) -> Option<usize> {
        self.members.key_of(number)
    }
}

// One step, and what it is to answer. A group is named by how many were made before it.
#[derive(Clone, Copy)]
enum Does {
    // A group is made.
    Make,
    // An operation, whose slot is at a key, joins a group, or may not.
    Join(usize, u64, usize, bool),
    // An operation leaves its group.
    Leave(u64),
    // A group is canceled, which has these members.
    Cancel(usize, &'static [u64]),
    // So many groups were made.
    Count(u64),
    // A group has so many members.
    Size(usize, usize),
    // Whether a group is canceled.
    Canceled(usize, bool),
    // The key of the slot of an operation.
    Key(u64, Option<usize>),
}

// Operations 7 and 3 join the first group, and 5 the second, where 3 can't join. Then 5 leaves, the first group is canceled, and 3
// leaves.
#[rattlefmt::skip]
const RUN: [Does; 20] = [
    Does::Make, Does::Make,
    Does::Join(0, 7, 70, true), Does::Join(0, 3, 30, true), Does::Join(1, 3, 31, false), Does::Join(1, 5, 50, true),
    Does::Leave(8), Does::Leave(5), Does::Size(0, 2), Does::Size(1, 0),
    Does::Cancel(0, &[3, 7]), Does::Key(3, Some(30)), Does::Leave(3),
    Does::Count(3), Does::Size(2, 0), Does::Canceled(0, true), Does::Canceled(1, false),
    Does::Key(3, None), Does::Key(5, None), Does::Key(7, Some(70)),
];

// Makes a step.
fn make_step<G: Groups>(groups: &mut G, step: Does) -> Result<(), Why> {
    match step {
        Does::Make => groups.make(),
        Does::Join(g, number, key, want) => is_like(groups.join(g, number, key)? == want),
        Does::Leave(number) => {
            groups.leave(number);
            Ok(())
        }
        Does::Cancel(g, want) => is_like(groups.cancel(g)?.as_slice() == want),
        Does::Count(want) => is_like(groups.count() == want),
        Does::Size(g, want) => is_like(groups.size(g)? == want),
        Does::Canceled(g, want) => is_like(groups.canceled(g)? == want),
        Does::Key(number, want) => is_like(groups.key_of(number) == want),
    }
}

// Makes the steps in order. It answers the place of the first one that isn't as it says, and why; None: each is.
fn run<G: Groups>(groups: &mut G) -> Option<(usize, Why)> {
    for i in 0..RUN.len() {
        if let Err(why) = make_step(groups, RUN[i]) {
            return Some((i, why));
        }
    }
    None
}

#[test]
fn keys_are_found_until_operations_leave(rt: HostRuntime) -> Result<(), Fail> {
    let mut groups = no_groups(rt.alloc());
    assert_eq!(rt; run(&mut groups), None);
    Ok(())
}
