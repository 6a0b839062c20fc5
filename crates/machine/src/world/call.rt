//! Calls that are made at once on the handles of a machine in memory.
ghost use Rattle.std.specs.Prelude.{◌≡◌, ◌≤◌, ℕ, Bool, false, IfSome, IsTrue};
ghost use Rattle.machine.specs.Request.{plain_request, shown_by};
ghost use Rattle.machine.specs.Surroundings.{around, request_around};
ghost use Rattle.machine.specs.Outcome.{is_allowed, may_count};
ghost use Rattle.machine.specs.Attempt.{is_file_at as file_at, is_readable_at as readable_at, attempt as attempt_of, greatest};
ghost use Rattle.machine.specs.WorldCall.{StoresFitting, CallsFor};

use crate::payloads::Payloads;
use crate::request::{Call, Outcome, Request, Told};
use crate::world::allows::is_file_at;
use crate::world::attempt::{attempt, is_readable_at};
use crate::world::{RunError, World};
use rent_buf::{ByteList, IoBufMut, OutOfMemory, VecBuf};

/// The error of a call that its handles can't have: one isn't there, is of another kind, or is spliced to itself. (Linux: `EINVAL`)
pub const INVALID: u16 = 22;

/// The error of a write to a file that begins at `MOST_FILE` or behind it. (Linux: `EFBIG`)
pub const FILE_TOO_BIG: u16 = 27;

/// The error of a call that sends to a pipe whose end is marked. (Linux: `EPIPE`)
pub const BROKEN_PIPE: u16 = 32;

/// What `World::call` answers. (not in monoio, whose calls answer an `io::Result`)
#[derive(Clone, Copy, Debug, PartialEq, Eq)]
pub enum WorldCall {
    /// The call was made, and ended so.
    Done(Outcome),
    /// It would block. Nothing has changed.
    WouldBlock,
    /// Memory ran out, or a handle that it would make is one too many. Nothing has changed.
    OutOfMemory,
}

impl World {
    /// A handle of the world is a file: there is one of this number, and it is of that kind. (not in monoio)
    pub fn is_file(&self, h: u64) -> bool
        ensures { result ≡ file_at self.now h }
    {
        is_file_at(&self.handles, h)
    }

    /// A read may make progress on a handle: it is a listener; a message waits on a datagram; on another one a byte waits, or its end is
    /// marked. (not in monoio)
    pub fn readable(&self, h: u64) -> bool
        ensures { result ≡ readable_at self.now h }
    {
        is_readable_at(&self.handles, h)
    }

    /// What is reported of a call if it is made at once, with the greatest count that it may have; None exactly when it would
    /// block. (not in monoio)
    #[tactic(auto, using(crate::proofs::Attempting::attempt_allows, crate::proofs::Greatest::greatest_count))]
    pub fn attempt(&self, call: Call) -> Option<Told>
        ensures attempt { result ≡ attempt_of self.now call }

        // What it reports is allowed to the call, whether its cancel was taken or not.
        ensures allowed { IfSome result (λ told. (canceled : Bool) → IsTrue (is_allowed self.now canceled call told)) }
        // No greater count is.
        ensures greatest { (k : ℕ) → IsTrue (may_count self.now call k) → k ≤ greatest self.now call }
    {
        attempt(&self.handles, call)
    }

    /// Makes the call of a request at once, where it doesn't block: its bytes move between the handle and what the request holds, and
    /// after an error nothing has. `OutOfMemory` comes also to what would make a handle where there are `MOST_HANDLES`. (not in monoio)
    #[tactic(auto, using(crate::proofs::Called::ran_allowed))]
    pub fn call<B: IoBufMut>(&mut self, request: &mut Request<B, VecBuf>) -> WorldCall
        ensures calls { CallsFor self.old (plain_request B.buffer request.old) self.new (plain_request B.buffer request.new) result }
        // What surrounds its buffer stays: the ranges under it, and the parts beside it.
        ensures surroundings { request_around (around B.under B.beside) request.new ≡ request_around (around B.under B.beside) request.old }
    {
        let call = request.call();
        let told = match self.attempt(call) {
            Some(told) => told,
            None => return WorldCall::WouldBlock,
        };
        match self.execute(call, false, told, 0, request) {
            Ok(outcome) => WorldCall::Done(outcome),
            Err(RunError::OutOfMemory) => WorldCall::OutOfMemory,
            Err(RunError::NotAllowed) => unreachable!(),
        }
    }
}

/// A request by itself holds the bytes of whatever data word.
impl<B: IoBufMut> Payloads for Request<B, VecBuf> {
    ghost offered = { λ request word. shown_by (plain_request B.buffer request) };

    ghost stores = { λ old word bytes new. StoresFitting B.buffer (around B.under B.beside) old bytes new };

    ghost takes_memory = { λ count. false };

    /// The bytes that it shows. (not in monoio)
    fn append_to(&self, word: u64, count: u32, output: &mut ByteList) -> Result<(), OutOfMemory> {
        self.append_shown(count as usize, output)
    }

    /// Copies the first bytes that it shows. (not in monoio)
    fn copy_to(&self, word: u64, target: &mut [u8]) -> usize {
        self.copy_shown(target)
    }

    /// Stores bytes in what it holds, when they fit. It takes no memory. (not in monoio)
    fn store(&mut self, word: u64, bytes: &[u8]) -> Result<(), OutOfMemory> {
        if bytes.len() <= self.room() {
            Request::store(self, bytes);
        }
        Ok(())
    }
}
