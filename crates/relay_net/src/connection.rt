// A connection: what comes at either of its handles goes to the other.
ghost use Rattle.std.specs.Prelude.{◌≡◌, ◌≢◌, ◌≤◌, ◌<◌, ◌+◌, [], true, false, length, IsTrue, ℕ};
ghost use Rattle.rent_buf.specs.declared.plain.Buf.{Buf};
ghost use Rattle.driver_core.specs.Ops.{Ops};
ghost use Rattle.ready_driver.specs.LegacyState.{ops_in};
ghost use Rattle.ready_driver.specs.Registry.{is_users};
ghost use Rattle.relay_net.specs.Connection.{EndsConnection, FitsConnection, FitsBack, FollowsAs, IsGoing, IsLostAs, IsOver, IsOverIf};
ghost use Rattle.relay_net.specs.Connection.{Releases, Serves};
ghost use Rattle.relay_net.specs.Connection.{far_of, held_back, held_forth, near_of};
ghost use Rattle.relay_net.specs.Flow.{IsLoad};
ghost use Rattle.relay_net.specs.Forwarding.{CanForward, ForwardsBoth, KeepsSeen, KeepsSeenBut, StepsBack, StepsForth};
ghost use Rattle.relay_net.specs.Keyed.{KeepsKeys};

use crate::flow::{Came, Flow, Reads, abandon, step};
use crate::round::{Lost, RelayError};
use driver_core::MOST_GIVEN;
use handle_core::SharedFd;
use ready_driver::NonBlock;
use std::alloc::Global;

/// A connection of a relay. Both of its handles may be the same.
pub struct Connection {
    /// From the near handle to the far one.
    pub forth: Flow,
    /// From the far handle to the near one, where they aren't the same.
    pub back: Option<Flow>,
    /// A receive brought the end: no further one is submitted.
    pub ending: bool,
    /// How many bytes a receive asks for.
    pub room: usize,
}

/// What became of a connection.
#[derive(Clone, Copy)]
pub enum Served {
    /// It is open.
    Open,
    /// Its end came, and it holds nothing.
    Closed,
    /// An operation failed, with this error number.
    Failed(u16),
    /// It was stopped: the next round goes on.
    Stopped(RelayError),
}

// What follows the step of a direction: the connection goes on, or not.
fn follow(ending: &mut bool, came: Came) -> Served
    ensures follows { FollowsAs came ending.old ending.new result }
    ensures going { IsGoing result }
{
    match came {
        Came::Goes => Served::Open,
        Came::Ended => {
            *ending = true;
            Served::Open
        }
        Came::Failed(error) => Served::Failed(error),
        Came::Stopped(why) => Served::Stopped(why),
    }
}

// A step from the near handle to the far one.
#[tactic(auto, using(crate::proofs::Connections::users_held))]
fn step_forth<I: NonBlock>(driver: &mut Reads<I>, alloc: Global, conn: &mut Connection) -> Served
    requires roomy { IsLoad conn.old.room }
    requires fits { FitsConnection (ops_in driver.old) conn.old }
    requires near { is_users driver.old.handling.table (near_of conn.old) ≡ true }
    requires far { is_users driver.old.handling.table (far_of conn.old) ≡ true }
    requires counter { driver.old.given < MOST_GIVEN }
    ensures serves { Serves I.view I.tells driver.old driver.new conn.old conn.new result }
    ensures going { IsGoing result }
    ensures given { driver.new.given ≤ driver.old.given + 1 }
    ensures keyed { KeepsKeys I.view I.memory driver.old driver.new }
    ensures seen { KeepsSeen I.view I.memory driver.old driver.new }
    ensures forwards { StepsForth I.view I.tells I.memory driver.old driver.new conn.old conn.new result }
{
    let reads = !conn.ending;
    let came = step(driver, alloc, conn.room, &mut conn.forth, reads);
    follow(&mut conn.ending, came)
}

// A step from the far handle to the near one, where they aren't the same.
#[tactic(auto, using(crate::proofs::Connections::users_held, crate::proofs::Connections::none_serves, crate::proofs::Keyed::keeps_none))]
fn step_back<I: NonBlock>(driver: &mut Reads<I>, alloc: Global, conn: &mut Connection) -> Served
    requires roomy { IsLoad conn.old.room }
    requires fits { FitsConnection (ops_in driver.old) conn.old }
    requires near { is_users driver.old.handling.table (near_of conn.old) ≡ true }
    requires far { is_users driver.old.handling.table (far_of conn.old) ≡ true }
    requires counter { driver.old.given < MOST_GIVEN }
    ensures serves { Serves I.view I.tells driver.old driver.new conn.old conn.new result }
    ensures going { IsGoing result }
    ensures given { driver.new.given ≤ driver.old.given + 1 }
    ensures keyed { KeepsKeys I.view I.memory driver.old driver.new }
    ensures seen { KeepsSeen I.view I.memory driver.old driver.new }
    ensures forwards { StepsBack I.view I.tells I.memory driver.old driver.new conn.old conn.new result }
{
    let reads = !conn.ending;
    match &mut conn.back {
        None => Served::Open,
        Some(flow) => {
            let came = step(driver, alloc, conn.room, flow, reads);
            follow(&mut conn.ending, came)
        }
    }
}

// A round of a connection: a step of each direction.
pub(crate) fn serve<I: NonBlock>(
    driver: &mut Reads<I>,
    alloc: Global,
    conn: &mut Connection,
) -> Served
    requires roomy { IsLoad conn.old.room }
    requires fits { FitsConnection (ops_in driver.old) conn.old }
    requires near { is_users driver.old.handling.table (near_of conn.old) ≡ true }
    requires far { is_users driver.old.handling.table (far_of conn.old) ≡ true }
    requires counter { driver.old.given + 1 < MOST_GIVEN }
    ensures serves { Serves I.view I.tells driver.old driver.new conn.old conn.new result }
    ensures over { IsOverIf (ops_in driver.new) conn.new result }
    ensures given { driver.new.given ≤ driver.old.given + 2 }
    ensures keyed { KeepsKeys I.view I.memory driver.old driver.new }
    ensures seen { KeepsSeen I.view I.memory driver.old driver.new }
    ensures forwards { IsTrue I.memory → CanForward I.view driver.old (near_of conn.old) (far_of conn.old) → conn.new.ending ≡ false
        → result ≡ Served.Open → ForwardsBoth I.view driver.old conn.old driver.new conn.new }
{
    match step_forth(driver, alloc, conn) {
        Served::Open => {}
        other => return other,
    }
    match step_back(driver, alloc, conn) {
        Served::Open => {}
        other => return other,
    }
    if conn.is_over() {
        return Served::Closed;
    }
    Served::Open
}

// Releases a handle.
pub(crate) fn release<I: NonBlock>(driver: &mut Reads<I>, fd: SharedFd)
    requires held { is_users driver.old.handling.table fd ≡ true }
    ensures releases { Releases I.view I.tells driver.old fd driver.new }
    ensures given { driver.new.given ≡ driver.old.given }
    ensures keyed { KeepsKeys I.view I.memory driver.old driver.new }
    ensures seen { KeepsSeenBut I.view I.memory driver.old fd fd driver.new }
{
    let _ = driver.release(fd);
}

// Ends the direction from the far handle to the near one, where there is one, with the far handle.
#[tactic(auto, using(crate::proofs::Keyed::keeps_none, crate::proofs::Keyed::keeps_then))]
fn end_back<I: NonBlock>(driver: &mut Reads<I>, near: SharedFd, far: SharedFd, back: Option<Flow>)
    requires fits { (room : ℕ) × FitsBack room (ops_in driver.old) near far back }
    requires held { is_users driver.old.handling.table far ≡ true }
    ensures ends { EndsConnection I.view I.tells driver.old near far driver.new }
    ensures near { near ≢ far → is_users driver.old.handling.table near ≡ true → is_users driver.new.handling.table near ≡ true }
    ensures same { near ≡ far → driver.new ≡ driver.old }
    ensures given { driver.new.given ≡ driver.old.given }
    ensures keyed { KeepsKeys I.view I.memory driver.old driver.new }
    ensures seen { KeepsSeenBut I.view I.memory driver.old near far driver.new }
{
    match back {
        None => {}
        Some(flow) => {
            let Flow {
                from: _,
                to: _,
                stage,
            } = flow;
            abandon(driver, far, near, stage);
            release(driver, far);
        }
    }
}

impl Connection {
    // One of these handles, that nothing came at, whose receives have so much room.
    pub(crate) fn new(near: SharedFd, far: SharedFd, room: usize) -> Connection
        ensures handles { (near_of result ≡ near) × (far_of result ≡ far) }
        ensures room { result.room ≡ room }
        ensures fits { (ops : Ops Buf) → FitsConnection ops result }
        ensures none { (ops : Ops Buf) → (held_forth ops result ≡ []) × (held_back ops result ≡ []) }
        ensures going { result.ending ≡ false }
    {
        let back = if near == far {
            None
        } else {
            Some(Flow::new(far, near))
        };
        Connection {
            forth: Flow::new(near, far),
            back,
            ending: false,
            room,
        }
    }

    // Its end came, and it holds no byte.
    fn is_over(&self) -> bool
        ensures { (ops : Ops Buf) → FitsConnection ops self.now → IsTrue result → IsOver ops self.now }
    {
        self.ending && self.held_forth() == 0 && self.held_back() == 0
    }

    // The next step of a direction submits an operation.
    pub(crate) fn is_at_hand(&self) -> bool {
        let reads = !self.ending;
        let back = match &self.back {
            Some(flow) => flow.is_at_hand(reads),
            None => false,
        };
        back || self.forth.is_at_hand(reads)
    }

    // Its near handle, as a number.
    pub(crate) fn near(&self) -> u64
        ensures { result ≡ near_of self.now }
    {
        self.forth.from.number()
    }

    // It as one that is lost.
    pub(crate) fn lost(&self, fault: u16) -> Lost
        ensures { (ops : Ops Buf) → FitsConnection ops self.now → IsLostAs ops self.now fault result }
    {
        Lost {
            connection: self.near(),
            fault,
            unsent: self.held_forth() as u64,
            unsent_back: self.held_back() as u64,
        }
    }

    // How many bytes it holds from the near handle to the far one.
    fn held_forth(&self) -> usize
        ensures { (ops : Ops Buf) → FitsConnection ops self.now → result ≡ length (held_forth ops self.now) }
    {
        self.forth.held()
    }

    // How many bytes it holds from the far handle to the near one.
    pub(crate) fn held_back(&self) -> usize
        ensures { (ops : Ops Buf) → FitsConnection ops self.now → result ≡ length (held_back ops self.now) }
    {
        match &self.back {
            Some(flow) => flow.held(),
            None => 0,
        }
    }

    // Ends it: what waits is dropped, and its handles are released.
    pub(crate) fn end<I: NonBlock>(self, driver: &mut Reads<I>)
        requires fits { FitsConnection (ops_in driver.old) self }
        requires near { is_users driver.old.handling.table (near_of self) ≡ true }
        requires far { is_users driver.old.handling.table (far_of self) ≡ true }
        ensures ends { EndsConnection I.view I.tells driver.old (near_of self) (far_of self) driver.new }
        ensures given { driver.new.given ≡ driver.old.given }
        ensures keyed { KeepsKeys I.view I.memory driver.old driver.new }
        ensures seen { KeepsSeenBut I.view I.memory driver.old (near_of self) (far_of self) driver.new }
    {
        let Connection {
            forth,
            back,
            ending: _,
            room: _,
        } = self;
        let Flow {
            from: near,
            to: far,
            stage,
        } = forth;
        abandon(driver, near, far, stage);
        end_back(driver, near, far, back);
        release(driver, near);
    }
}
