//! One round of a copy from a connection to another.
ghost use Rattle.std.specs.Prelude.{◌≡◌, ◌++◌, ℕ, IsTrue};
ghost use Rattle.op_driver.specs.Legacy.{LegacyPolls, LegacySubmits};
ghost use Rattle.ready_driver.specs.LegacyState.{ops_in};
ghost use Rattle.rent_buf.specs.Rent.{buffer_of_rent};
ghost use Rattle.stream_util.specs.Copy.{held_in};
ghost use Rattle.net_stream.specs.Connection.{AreBeside, FitsConnection, KeepsBeside, OnlyComes, OnlyGoes, ReceivesFor, SendsFor};
ghost use Rattle.net_stream.specs.Told.{IsSentTo, IsStream, IsTaken, sent_at, unread_in, unsent_in, waiting_at, world_of};
ghost use Rattle.net_copy.specs.Round.{KeepsBesideBoth, MadeIf, MaySubmit, Rounds, line_of};

use driver_core::{MOST_GIVEN, SubmitFault};
use handle_core::SharedFd;
use machine::Names;
use net_stream::{Connection, Progress};
use ready_driver::{LegacyDriver, NonBlock};
use rent_buf::Rent;
use rent_io::Step;
use stream_util::{Copied, Copy};

/// What a round of a copy came to. (not in monoio)
#[derive(Drop)]
#[must_use]
pub struct Round {
    /// What the receive of the first connection came to. `None`: its user doesn't hold its handle, or `MOST_GIVEN` operations were
    /// submitted, and the driver wasn't asked.
    pub received: Option<Result<Progress, SubmitFault>>,
    /// What the copy came to.
    pub copied: Step<Copy, Copied>,
    /// What the send of the second connection came to, or `None` as above.
    pub sent: Option<Result<Progress, SubmitFault>>,
}

// An operation on this handle may be submitted.
fn may_submit<I: NonBlock>(driver: &LegacyDriver<I, Rent>, fd: SharedFd) -> bool
    ensures yes { IsTrue result → MaySubmit driver.now fd }
    ensures no { MaySubmit driver.now fd → IsTrue result }
{
    driver.given() < MOST_GIVEN && driver.holds_names(Names::One(fd.number()))
}

// Receives, where that may be asked.
fn receive<I: NonBlock>(
    driver: &mut LegacyDriver<I, Rent>,
    conn: &mut Connection,
    task: u64,
) -> Option<Result<Progress, SubmitFault>>
    requires fits { FitsConnection (ops_in driver.old) conn.old }
    ensures receives { MadeIf (MaySubmit driver.old conn.old.fd) (ReceivesFor (LegacySubmits I.view I.tells I.memory)
        (LegacyPolls I.files buffer_of_rent I.called I.view I.tells I.memory) driver.old driver.new conn.old conn.new task)
        ((driver.new ≡ driver.old) × (conn.new ≡ conn.old)) result }
    ensures came { IsTrue I.tells → unread_in conn.new ++ waiting_at I.view driver.new conn.old.fd
        ≡ unread_in conn.old ++ waiting_at I.view driver.old conn.old.fd }
    ensures handles { IsTrue I.tells → IsTaken (world_of I.view driver.old) conn.old.fd (world_of I.view driver.new) }
    ensures same { OnlyComes conn.old conn.new }
    ensures fits { FitsConnection (ops_in driver.new) conn.new }
    ensures others { KeepsBeside (ops_in driver.old) conn.old (ops_in driver.new) conn.new }
{
    if !may_submit(driver, conn.fd) {
        return None;
    }
    Some(conn.receive_ready(driver, task))
}

// Sends, where that may be asked.
pub(crate) fn send<I: NonBlock>(
    driver: &mut LegacyDriver<I, Rent>,
    conn: &mut Connection,
    task: u64,
) -> Option<Result<Progress, SubmitFault>>
    requires fits { FitsConnection (ops_in driver.old) conn.old }
    ensures sends { MadeIf (MaySubmit driver.old conn.old.fd) (SendsFor ops_in (LegacySubmits I.view I.tells I.memory)
        (LegacyPolls I.files buffer_of_rent I.called I.view I.tells I.memory) driver.old driver.new conn.old conn.new task)
        ((driver.new ≡ driver.old) × (conn.new ≡ conn.old)) result }
    ensures went { IsTrue I.tells → IsStream (world_of I.view driver.old) conn.old.fd →
        sent_at I.view driver.new conn.old.fd ++ unsent_in (ops_in driver.new) conn.new
        ≡ sent_at I.view driver.old conn.old.fd ++ unsent_in (ops_in driver.old) conn.old }
    ensures handles { IsTrue I.tells → IsSentTo (world_of I.view driver.old) conn.old.fd (world_of I.view driver.new) }
    ensures same { OnlyGoes conn.old conn.new }
    ensures fits { FitsConnection (ops_in driver.new) conn.new }
    ensures others { KeepsBeside (ops_in driver.old) conn.old (ops_in driver.new) conn.new }
{
    if !may_submit(driver, conn.fd) {
        return None;
    }
    Some(conn.send_ready(driver, task))
}

/// One round of a copy from a connection to another: the first receives, the copy makes so many turns at most between the boxes, and the
/// second sends. Where the driver's object tells its handles, and the second's is a stream, no byte is lost, repeated or moved, whatever
/// pauses, whichever call is short or fails: what was sent to it, what isn't sent yet, what the copy holds, what came and wasn't read,
/// and what waits at the first, joined, is what it was. (monoio: `copy`, a part of it)
pub fn copy_round<I: NonBlock>(
    driver: &mut LegacyDriver<I, Rent>,
    from: &mut Connection,
    to: &mut Connection,
    copy: Copy,
    task: u64,
    turns: u64,
) -> Round
    requires from { FitsConnection (ops_in driver.old) from.old }
    requires to { FitsConnection (ops_in driver.old) to.old }
    requires beside { AreBeside from.old to.old }
    ensures line { IsTrue I.tells → IsStream (world_of I.view driver.old) to.old.fd →
        line_of I.view driver.new from.new to.new (held_in result.copied) ≡ line_of I.view driver.old from.old to.old copy.held }
    ensures streams { IsTrue I.tells → (h : ℕ) → IsStream (world_of I.view driver.old) h → IsStream (world_of I.view driver.new) h }
    ensures rounds { Rounds (LegacySubmits I.view I.tells I.memory) (LegacyPolls I.files buffer_of_rent I.called I.view I.tells I.memory)
        driver.old driver.new from.old to.old from.new to.new copy task turns result.received result.copied result.sent }
    ensures handles { (from.new.fd ≡ from.old.fd) × (to.new.fd ≡ to.old.fd) }
    ensures from { FitsConnection (ops_in driver.new) from.new }
    ensures to { FitsConnection (ops_in driver.new) to.new }
    ensures beside { AreBeside from.new to.new }
    ensures others { KeepsBesideBoth (ops_in driver.old) from.old to.old (ops_in driver.new) from.new to.new }
{
    let received = receive(driver, from, task);
    let copied = copy.run(&mut from.inbox, &mut to.outbox, task, turns);
    let sent = send(driver, to, task);
    Round {
        received,
        copied,
        sent,
    }
}
