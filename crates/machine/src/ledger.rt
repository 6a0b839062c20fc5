//! The events of the machine, its replies and its refusals. The machine is the specification, `step` of `specs/Step.antt`; a ledger
//! is its state.
ghost use Rattle.machine.specs.Rows.{OneRead, RefusedInOrder, LateCancel, FullQueue, CloseUnderRead};
ghost use Rattle.machine.specs.GroupRows.{CanceledGroup, FullQueueGroup, GroupMembers};
ghost use Rattle.machine.specs.OutcomeRows.{RefusedOutcomes, Errors, ReadAtTheEnd};
ghost use Rattle.machine.specs.BufferRows.{ShortRead, GrownRead, FixedRead, RangeRead, PartsRead, ShortSend, PartsSend};
ghost use Rattle.machine.specs.RequestRows.{MessagesInAndOut, FilePositions, Splices, PlainRequests};
ghost use Rattle.machine.specs.MadeRows.{AbandonedAccept, EchoServer, OpenedFile};
ghost use Rattle.machine.specs.LinkRows.{LinkedReads, BrokenChain, TakenApart, CanceledFollower};

use crate::request::{Outcome, Request, Told};
use crate::world::HandleKind;
use rent_buf::{BufSpec, ByteList, HeldBuf, MessageList, NumList, PartsSpec};

/// The most operations that may be live at once: submitted, and neither returned nor reaped after a drop.
pub const MOST_LIVE: usize = 4294967232;

/// What a user or an executor does.
#[derive(Debug, Drop)]
pub enum Event {
    /// Creates a handle of this kind.
    Give(HandleKind),
    /// These bytes arrive at the handle of this number.
    Feed(u64, ByteList),
    /// A message arrives at the datagram of this number: its address, and its bytes.
    FeedMessage(u64, u64, ByteList),
    /// No more bytes arrive at the handle of this number.
    End(u64),
    /// Looks at what was sent to the handle of this number, or at the bytes of a pipe or a file.
    Look(u64),
    /// The user gives up the handle of this number.
    Close(u64),
    /// Submits this request as a new operation, under the cancel handle of this number or under none, and linked or not: the request that
    /// is taken directly behind a linked one, by the same taking, waits for its operation.
    Submit(Request<BufSpec, PartsSpec>, Option<u64>, bool),
    /// Polls an operation, by its number, for a task.
    Poll(u64, u64),
    /// Drops an operation, by its number: its user wants no outcome.
    Drop(u64),
    /// Asks for the cancel of an operation, by its number.
    Cancel(u64),
    /// Creates a canceller, with a group of its own.
    NewCanceller,
    /// Creates a cancel handle of the present group of the canceller of this number.
    NewHandle(u64),
    /// Cancels the present group of the canceller of this number for good, and asks for the cancel of each operation in it. The
    /// canceller gets a fresh group.
    CancelAll(u64),
    /// Takes the queue, then reaps what is done.
    Turn,
    /// Executes what is at this place of the in-flight list, with this report.
    Exec(usize, Told),
}

/// Why an event changed nothing. Where several hold, the first in this order is replied.
#[derive(Clone, Copy, Debug, PartialEq, Eq)]
pub enum Refusal {
    /// The operation was never submitted, was returned, or was dropped.
    NoOp,
    /// The canceller, or of a submission the cancel handle, was never created.
    NoCanceller,
    /// The user doesn't hold a handle that the event names.
    NoHandle,
    /// `MOST_LIVE` operations are live. A submission under a canceled group is never refused as this.
    Full,
    /// The place isn't below the length of the in-flight list.
    NotFlying,
    /// The operation at the place waits for another.
    Waiting,
    /// The reported outcome isn't allowed to what is at the place.
    BadOutcome,
    /// The handle doesn't take what arrives, by its kind, or because its end is marked.
    BadHandleEvent,
}

/// What the machine replies to an event.
#[derive(Debug, Drop)]
pub enum Reply {
    /// The number of the new handle.
    Handle(u64),
    /// The bytes, or the message, arrived.
    Fed,
    /// The end is marked.
    Ended,
    /// The user holds the handle no more. It is closed once no operation holds it.
    Released,
    /// The bytes that were sent to the handle, or those of a pipe or a file.
    Output(ByteList),
    /// The messages that were sent by the datagram: of each the address, where it has one, and its bytes.
    Messages(MessageList),
    /// The number of the new operation.
    Submitted(u64),
    /// The request was submitted under a canceled group: it is no operation, and what it holds comes back.
    CanceledAtOnce(HeldBuf),
    /// The operation isn't reaped yet.
    Pending,
    /// The operation's outcome, and its buffer, its parts, or nothing. The operation is its user's no more.
    Handed(Outcome, HeldBuf),
    /// The operation is dropped.
    Dropped,
    /// The cancel is asked for.
    Asked,
    /// The number of the new canceller.
    Canceller(u64),
    /// The number of the new cancel handle.
    CancelHandle(u64),
    /// The operations whose cancels are asked for, ascending.
    Cancels(NumList),
    /// The operations that were reaped, the handles whose closes were, and the tasks that were woken, each by number.
    Turned(NumList, NumList, NumList),
    /// The number of the operation that was executed.
    ExecutedOp(u64),
    /// The number of the handle whose close was executed.
    ExecutedClose(u64),
    /// The event was refused, and changed nothing.
    Refused(Refusal),
}

/// Worked runs of the machine, computed from its definitions: the clauses hold what each replies. (not in monoio)
pub fn worked_rows()
    // Operations.
    ensures one_read { OneRead }
    ensures refused_in_order { RefusedInOrder }
    ensures late_cancel { LateCancel }
    ensures full_queue { FullQueue }
    ensures close_under_read { CloseUnderRead }

    // Groups.
    ensures canceled_group { CanceledGroup }
    ensures full_queue_group { FullQueueGroup }
    ensures group_members { GroupMembers }

    // Outcomes.
    ensures refused_outcomes { RefusedOutcomes }
    ensures errors { Errors }
    ensures read_at_the_end { ReadAtTheEnd }

    // Buffers and bytes.
    ensures short_read { ShortRead }
    ensures grown_read { GrownRead }
    ensures fixed_read { FixedRead }
    ensures range_read { RangeRead }
    ensures parts_read { PartsRead }
    ensures short_send { ShortSend }
    ensures parts_send { PartsSend }

    // Messages, positions, splices and plain requests.
    ensures messages_in_and_out { MessagesInAndOut }
    ensures file_positions { FilePositions }
    ensures splices { Splices }
    ensures plain_requests { PlainRequests }

    // Handles that an operation makes.
    ensures abandoned_accept { AbandonedAccept }
    ensures echo_server { EchoServer }
    ensures opened_file { OpenedFile }

    // Linked submissions.
    ensures linked_reads { LinkedReads }
    ensures broken_chain { BrokenChain }
    ensures taken_apart { TakenApart }
    ensures canceled_follower { CanceledFollower }
{}
