//! What a readiness driver over handles in memory is to the machine.
ghost use Rattle.ready_driver.specs.Readiness.{DriverFollows, PendingBlocked, CanceledAsked};
ghost use Rattle.ready_driver.specs.SpelledRows.{OneWait, OrderOfPolls, DropAndClose, CanceledMembers};
ghost use Rattle.ready_driver.specs.CallRows.{DatagramAtOnce, FileAtOnce, SplicesAtOnce, MadeAtOnce};

/// The laws of a readiness driver over handles in memory, as plain data with its own step (`legacy_step`): for every capacity of the
/// machine and every list of events without Turn, Exec and linked Submit, with numbers of any size.
///
/// It answers each event as the machine answers the list of events that the event is spelled as (`spelled`): a poll that isn't blocked is a
/// turn, the execution of its operation with what its call makes, a turn and the poll; a drop, and the close of a handle, are followed by
/// the same. After each event the driver holds just the operations that aren't gone in the machine, each with its request, its group and
/// whether its cancel is asked for; the handles with their holders, and the groups with their members, are the same.
///
/// So an unrefused poll is answered `Pending` exactly where its operation is blocked: its cancel isn't asked for, and its call would block.
/// And it ends with the error of a cancel only where the cancel of that operation was asked for. The body does nothing. (not in monoio)
pub fn readiness()
    ensures follows { DriverFollows }
    ensures pending { PendingBlocked }
    ensures canceled { CanceledAsked }
{}

/// Worked runs of a readiness driver over handles in memory, computed from its definitions and from the machine's: the clauses hold what
/// each replies. (not in monoio)
pub fn worked_runs()
    ensures one_wait { OneWait }
    ensures order_of_polls { OrderOfPolls }
    ensures drop_and_close { DropAndClose }
    ensures canceled_members { CanceledMembers }
    ensures datagram_at_once { DatagramAtOnce }
    ensures file_at_once { FileAtOnce }
    ensures splices_at_once { SplicesAtOnce }
    ensures made_at_once { MadeAtOnce }
{}
