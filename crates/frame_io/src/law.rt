// What is written is read.
ghost use Rattle.frame_io.specs.Received.{AllIsReceived, FirstIsRead, RunReceives, SendKeeps, SentIsReceived, WriteKeeps};
ghost use Rattle.frame_io.specs.Turns.{TurnsAreRead};
ghost use Rattle.frame_io.specs.Written.{WrittenIsRead};

/// The pieces of messages are read as these messages, with an end between messages (not in monoio). It does nothing:
/// its clause is a law of the format.
pub fn written_is_read()
    ensures { WrittenIsRead }
{}

/// What a writer delivered, a reader gives back (not in monoio). A writer that had nothing buffered is given messages:
/// whatever its stream answers and whichever of its calls fail, what the stream delivered since is read as the first of
/// these messages, and as all of them, and then an end, when nothing is left to be sent. A run of a reader that was to
/// read them ends with all of them, or at no fault of a piece. It does nothing: its clauses are laws over what the
/// clauses `pieces` and `pushes` of a writer's calls and `reads`, `run` and `end` of a reader's say.
pub fn sent_is_received()
    // A send, by `pieces`, and a write, by `pushes`, keep what was delivered, what is buffered and what isn't sent yet.
    ensures send { SendKeeps }
    ensures write { WriteKeeps }

    // What was delivered is read as the first of what was sent, and in the end as all of it.
    ensures first { FirstIsRead }
    ensures sent { SentIsReceived }
    ensures all { AllIsReceived }
    ensures run { RunReceives }
{}

/// However the pieces of channels take turns, the messages of each channel are those that its own pieces make, in order,
/// unless a piece is refused, as one channel or one byte too many (not in monoio). It does nothing: its clause is a law
/// of the format.
pub fn turns_are_read()
    ensures { TurnsAreRead }
{}
