// What one operation goes through, from its submission to its result.
ghost use Rattle.std.specs.Prelude.{◌≡◌};
ghost use Rattle.op_slots.specs.Lifecycle.{IsCompleted, IsIgnored, after_complete, polled, after_poll, dropped, after_drop};

/// How far an operation is, with `R` for its result (monoio: `Lifecycle`). A task is a number that its owner chose. A clause sees the
/// variants.
#[derive(Debug, Drop)]
pub enum Lifecycle<R> {
    /// Submitted, and no task asked for its result since.
    Submitted,
    /// Submitted, and this task asked last.
    Waiting(u64),
    /// Its owner dropped it before it completed: nobody will ask for its result.
    Ignored,
    /// Completed with this result, which nobody has taken.
    Completed(R),
}

/// What is to be done after an operation completed (not in monoio).
#[derive(Clone, Copy, Debug, PartialEq, Eq)]
pub enum AfterComplete {
    /// Nothing: the result is kept for the first task that asks.
    Kept,
    /// Wake this task, which waits.
    Wake(u64),
    /// Free the slot: nobody will ask for the result.
    Free,
}

/// What is to be done after a task asked for a result (not in monoio).
#[derive(Clone, Copy, Debug, PartialEq, Eq)]
pub enum AfterPoll {
    /// Nothing: the task waits from now on.
    Pending,
    /// Take the result out, which frees the slot.
    Take,
}

/// What is to be done after the owner of an operation dropped it (not in monoio).
#[derive(Clone, Copy, Debug, PartialEq, Eq)]
pub enum AfterDrop {
    /// Nothing: the slot stays until the operation completes.
    Left,
    /// Free the slot: its result was there, and is dropped.
    Free,
}

impl<R: Drop> Lifecycle<R> {
    /// Keeps the result of an operation that hasn't completed, and answers which task to wake, or that the slot is to be
    /// freed, since the owner dropped it (monoio: `complete`, which wakes the task and frees the slot itself).
    pub fn complete(&mut self, r: R) -> AfterComplete
        requires { ¬ IsCompleted self.old }
        ensures state { self.new ≡ Lifecycle.Completed r }
        ensures answer { result ≡ after_complete self.old }
    {
        let answer = match self {
            Lifecycle::Waiting(task) => AfterComplete::Wake(*task),
            Lifecycle::Ignored => AfterComplete::Free,
            _ => AfterComplete::Kept,
        };
        *self = Lifecycle::Completed(r);
        answer
    }

    /// Asks for the result (monoio: `poll_op`, which takes it out itself). If there is none yet, `task` waits in place of any task that
    /// asked before.
    pub fn poll(&mut self, task: u64) -> AfterPoll
        requires { ¬ IsIgnored self.old }
        ensures state { self.new ≡ polled self.old task }
        ensures answer { result ≡ after_poll self.old }
    {
        match self {
            Lifecycle::Completed(_) => AfterPoll::Take,
            _ => {
                *self = Lifecycle::Waiting(task);
                AfterPoll::Pending
            }
        }
    }

    /// The owner drops the operation (monoio: `drop_op`, which frees the slot itself). Without a result it is ignored from then on; a
    /// result is to be freed with its slot.
    pub fn drop_owner(&mut self) -> AfterDrop
        requires { ¬ IsIgnored self.old }
        ensures state { self.new ≡ dropped self.old }
        ensures answer { result ≡ after_drop self.old }
    {
        match self {
            Lifecycle::Completed(_) => AfterDrop::Free,
            _ => {
                *self = Lifecycle::Ignored;
                AfterDrop::Left
            }
        }
    }
}
