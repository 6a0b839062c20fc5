//! The laws of whole runs of the machine.
ghost use Rattle.std.specs.Prelude.{ℕ, List};
ghost use Rattle.machine.specs.declared.ledger.Event.{Event};
ghost use Rattle.machine.specs.Ledger.{empty};
ghost use Rattle.machine.specs.Run.{replies};
ghost use Rattle.run_laws.specs.Headline.{OneReplyEach, RefusedExactly, PendingUntilReaped, ReapedOrNot, HandsBackOwn, HandedOnce};
ghost use Rattle.run_laws.specs.Headline.{DroppedOnce, RefusedWhereGone, FirstPollHands, ReapNames, KeptUntilReaped};
ghost use Rattle.run_laws.specs.Headline.{CanceledWhereAsked, BreaksByFailure, GivenOnce, ExecutedOnce, ReapedOnce, OneOwn, GivenInOrder};
ghost use Rattle.run_laws.specs.Waits.{WaitsOnceTaken, WaitsOnlyTaken, WaitsBehind, StartsFree, StartsAfterLeader};
ghost use Rattle.run_laws.specs.Waits.{MovesBehindLeader, StartsBehindLeader, BreaksWithLeader, BreaksChain, CompletesInOrder};
ghost use Rattle.run_laws.specs.Closes.{ClosedOnce, ClosedWhenReleased, ClosedWhenOver, ClosedWhenMakerOver, UnheldCloses, ClosedOnly};
ghost use Rattle.run_laws.specs.Closes.{CreatedOnce, MadeOnce, UsedWhenReturned, MadeOnly};
ghost use Rattle.run_laws.specs.Bytes.{InputInOrder, MessagesInOrder, FilesHoldLast, OutputInOrder, SentInOrder};
ghost use Rattle.run_laws.specs.Bytes.{MovesOwn, ReadsTakeOwn, ReceivesTakeOwn, SplicesPassOn};
ghost use Rattle.run_laws.specs.Groups.{CancelsMembers, CanceledAtOnceExactly, NoCancellerExactly};
ghost use Rattle.run_laws.specs.Groups.{CancellersInOrder, HandlesInOrder};

/// The laws of whole runs of the machine, read from its definitions alone: for every capacity and every list of
/// events, with numbers of any size. There is one reply for each event, and it is `Refused` exactly when the
/// machine names a cause, with that name. A poll that isn't refused is answered `Pending` until its operation's
/// reap, the first turn after the operation was executed. The first poll after it hands back, once, that
/// operation's own buffer with its own outcome, as the events that gave and executed it tell them. What was handed
/// over or dropped is there no more. A turn names exactly the operations that it reaps, and until then each is
/// kept, also a dropped one. The error of a cancel comes from an execution only where that operation's own cancel was
/// asked for, it was dropped, or a cancel of its group named it; an operation that ends by another item's execution
/// ends as that one, an operation, fails. Each operation is given, executed and reaped at most once, and numbers are
/// given in order from 0.
///
/// A request that stands in the queue directly behind that of a linked operation stands there until one event takes
/// both; then its operation waits for that one, and no other does. An operation waits for another only while both
/// are in flight, directly one behind the other. It is executed only once it waits for none: where that one fails
/// it ends by the same event, and else it waits no more. So one that waited is executed only after its leader was,
/// which didn't fail, and what its leader moved at a handle was moved before. What a failed operation takes with it
/// is exactly what waits for it, what waits for that one, and so on, and they complete behind it in this order.
///
/// The close of a handle is named by at most one turn, and once: only after its user closed it, or the operation
/// that made it was dropped and reaped, and after each operation on it was handed back, or was dropped and reaped.
/// A handle that nobody holds has its close on the way, or it was named. A handle is created once, by a Give or by one
/// operation; until that operation is handed back nobody else holds the handle, and each event about it is refused.
///
/// The bytes that leave the input of a handle that is no file are those of its executed reads and splices, in the
/// order of their executions, and each read stores what it takes in its own buffer: they and what waits are all
/// that came, in order. So it is with messages, each whole. A file has the bytes of its last writes and feeds. The
/// output of a handle is what was sent to it, in order.
///
/// A cancel of a canceller's group names, in ascending order, exactly the operations that were given under a cancel
/// handle of that group and were neither handed over nor dropped. From then on a submission under such a handle
/// that isn't refused is no operation: it is answered with its own buffer, and no other event is answered so. An
/// event is refused as `NoCanceller` exactly when no reply before it created the canceller, or the cancel handle,
/// that it names; both are numbered in order from 0. The body does nothing. (not in monoio)
pub fn headline()
    ensures one_each { (capacity : ℕ) (events : List Event) → OneReplyEach events (replies (empty capacity) events) }
    ensures refused { (capacity : ℕ) (events : List Event) → RefusedExactly capacity events (replies (empty capacity) events) }

    // What a poll is answered, by what came before it.
    ensures pending { (capacity : ℕ) (events : List Event) → PendingUntilReaped capacity events (replies (empty capacity) events) }
    ensures decided { (capacity : ℕ) (events : List Event) → ReapedOrNot capacity events }
    ensures handed { (capacity : ℕ) (events : List Event) → HandsBackOwn capacity events (replies (empty capacity) events) }
    ensures once { (capacity : ℕ) (events : List Event) → HandedOnce events (replies (empty capacity) events) }
    ensures dropped { (capacity : ℕ) (events : List Event) → DroppedOnce events (replies (empty capacity) events) }
    ensures gone { (capacity : ℕ) (events : List Event) → RefusedWhereGone capacity events (replies (empty capacity) events) }
    ensures first { (capacity : ℕ) (events : List Event) → FirstPollHands capacity events (replies (empty capacity) events) }

    // What a turn names, what is kept until then, and where a cancel comes from.
    ensures names { (capacity : ℕ) (events : List Event) → ReapNames capacity events (replies (empty capacity) events) }
    ensures kept { (capacity : ℕ) (events : List Event) → KeptUntilReaped capacity events }
    ensures canceled { (capacity : ℕ) (events : List Event) → CanceledWhereAsked capacity events (replies (empty capacity) events) }
    ensures breaks { (capacity : ℕ) (events : List Event) → BreaksByFailure capacity events }

    // What a linked request and the one behind it do.
    ensures once_taken { (capacity : ℕ) (events : List Event) → WaitsOnceTaken capacity events }
    ensures only_taken { (capacity : ℕ) (events : List Event) → WaitsOnlyTaken capacity events }
    ensures waits { (capacity : ℕ) (events : List Event) → WaitsBehind capacity events }
    ensures starts { (capacity : ℕ) (events : List Event) → StartsFree capacity events }
    ensures behind { (capacity : ℕ) (events : List Event) → StartsBehindLeader capacity events }
    ensures broken { (capacity : ℕ) (events : List Event) → BreaksWithLeader capacity events }
    ensures after_leader { (capacity : ℕ) (events : List Event) → StartsAfterLeader capacity events }
    ensures moves_behind { (capacity : ℕ) (events : List Event) → MovesBehindLeader capacity events }
    ensures chain { (capacity : ℕ) (events : List Event) → BreaksChain capacity events }
    ensures chain_order { (capacity : ℕ) (events : List Event) → CompletesInOrder capacity events }

    // The moments of an operation.
    ensures given { (capacity : ℕ) (events : List Event) → GivenOnce capacity events }
    ensures executed { (capacity : ℕ) (events : List Event) → ExecutedOnce capacity events }
    ensures reaped { (capacity : ℕ) (events : List Event) → ReapedOnce capacity events }
    ensures own { (capacity : ℕ) (events : List Event) → OneOwn capacity events }
    ensures in_order { (capacity : ℕ) (events : List Event) → GivenInOrder (replies (empty capacity) events) }

    // The close of a handle.
    ensures closed_once { (capacity : ℕ) (events : List Event) → ClosedOnce (replies (empty capacity) events) }
    ensures closed_released { (capacity : ℕ) (events : List Event) → ClosedWhenReleased capacity events (replies (empty capacity) events) }
    ensures closed_over { (capacity : ℕ) (events : List Event) → ClosedWhenOver capacity events (replies (empty capacity) events) }
    ensures closed_made { (capacity : ℕ) (events : List Event) → ClosedWhenMakerOver capacity events (replies (empty capacity) events) }
    ensures closed_unheld { (capacity : ℕ) (events : List Event) → UnheldCloses capacity events (replies (empty capacity) events) }
    ensures closed_only { (capacity : ℕ) (events : List Event) → ClosedOnly capacity events }

    // A handle that an operation makes.
    ensures created_once { (capacity : ℕ) (events : List Event) → CreatedOnce capacity events (replies (empty capacity) events) }
    ensures made_once { (capacity : ℕ) (events : List Event) → MadeOnce capacity events }
    ensures made_used { (capacity : ℕ) (events : List Event) → UsedWhenReturned capacity events (replies (empty capacity) events) }
    ensures made_alone { (capacity : ℕ) (events : List Event) → MadeOnly capacity events }

    // What a handle has, and what leaves it.
    ensures input { (capacity : ℕ) (events : List Event) → InputInOrder capacity events }
    ensures messages { (capacity : ℕ) (events : List Event) → MessagesInOrder capacity events }
    ensures files { (capacity : ℕ) (events : List Event) → FilesHoldLast capacity events }
    ensures output { (capacity : ℕ) (events : List Event) → OutputInOrder capacity events }
    ensures sent { (capacity : ℕ) (events : List Event) → SentInOrder capacity events }
    ensures moves { (capacity : ℕ) (events : List Event) → MovesOwn capacity events }
    ensures reads { (capacity : ℕ) (events : List Event) → ReadsTakeOwn capacity events }
    ensures receives { (capacity : ℕ) (events : List Event) → ReceivesTakeOwn capacity events }
    ensures splices { (capacity : ℕ) (events : List Event) → SplicesPassOn capacity events }

    // The group of a canceller.
    ensures cancels { (capacity : ℕ) (events : List Event) → CancelsMembers capacity events (replies (empty capacity) events) }
    ensures at_once { (capacity : ℕ) (events : List Event) → CanceledAtOnceExactly capacity events (replies (empty capacity) events) }
    ensures cancellers { (capacity : ℕ) (events : List Event) → CancellersInOrder (replies (empty capacity) events) }
    ensures handles { (capacity : ℕ) (events : List Event) → HandlesInOrder (replies (empty capacity) events) }
    ensures no_canceller { (capacity : ℕ) (events : List Event) → NoCancellerExactly events (replies (empty capacity) events) }
{}
