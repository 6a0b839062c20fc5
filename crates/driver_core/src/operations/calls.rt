//! Calls of requests that are made at once, each on the request in its operation's slot.
ghost use Rattle.std.specs.Prelude.{◌≡◌, IsSome};
ghost use Rattle.std.specs.FinMap as map;
ghost use Rattle.rent_buf.specs.Buffer.{Buffer};
ghost use Rattle.rent_buf.specs.Parts.{Parts};
ghost use Rattle.machine.specs.Request.{plain_request};
ghost use Rattle.machine.specs.Surroundings.{around, request_around};
ghost use Rattle.machine.specs.declared.request.Request.{Request};
ghost use Rattle.driver_core.specs.declared.operations.calls.CallAnswer.{CallAnswer};
ghost use Rattle.driver_core.specs.Calls.{CallsSlot, CallsOp};
ghost use Rattle.driver_core.specs.Op.{Holds, KeepsTokens};
ghost use Rattle.driver_core.specs.Requests.{KeepsSurroundings, surroundings_in, StaysHeld};
ghost use Rattle.driver_core.specs.Slot.{KeepsNumbers};

use crate::op::Op;
use crate::operations::Operations;
use crate::slot::Slot;
use machine::{Outcome, Request};
use op_slots::Slab;
use rent_buf::{IoBufMut, VecBuf};

/// What a call that is made at once answers. (monoio: the `io::Result` of a `legacy_call`)
#[derive(Clone, Copy, Debug, PartialEq, Eq)]
pub enum CallAnswer {
    /// The call was made, and ended so.
    Done(Outcome),
    /// It would block. The request is as it was.
    WouldBlock,
    /// Memory ran out. The request is as it was.
    OutOfMemory,
}

/// What makes the calls of requests at once. (monoio: `OpAble::legacy_call`, of each request by itself)
pub trait Calls {
    // The call of a request: the caller and the request before it and after it, and the answer.
    ghost called: { Self → Request Buffer Parts → Self → Request Buffer Parts → CallAnswer → Type 0 };

    /// Makes the call of a request, where it doesn't block.
    fn call<B: IoBufMut>(&mut self, request: &mut Request<B, VecBuf>) -> CallAnswer
        ensures called { called self.old (plain_request B.buffer request.old) self.new (plain_request B.buffer request.new) result }
        // What surrounds its buffer stays: the ranges under it, and the parts beside it.
        ensures surroundings { request_around (around B.under B.beside) request.new ≡
            request_around (around B.under B.beside) request.old };
}

/// What is lent makes its calls. (not in monoio)
impl<C: Calls> Calls for &mut C {
    ghost called = { λ old request new now answer. C.called old.now request new.now now answer };

    fn call<B: IoBufMut>(&mut self, request: &mut Request<B, VecBuf>) -> CallAnswer {
        (**self).call(request)
    }
}

impl<B: IoBufMut + Drop> Operations<B> {
    /// Makes the call of an operation's request. Its slot stays, with what the request holds after the call, and so does each other.
    pub fn call<C: Calls>(&mut self, op: &Op, caller: &mut C) -> CallAnswer
        requires { Holds self.old op.now }
        ensures calls { CallsOp B.buffer C.called self.old op.now caller.old self.new caller.new result }
        ensures tokens { KeepsTokens self.old self.new }
        ensures surroundings { KeepsSurroundings (around B.under B.beside) self.old self.new }
        ensures given { self.new.given ≡ self.old.given }
    {
        call_slot(&mut self.slots, op.key(), caller)
    }
}

// Makes the call of the request in a live slot.
fn call_slot<B: IoBufMut + Drop, C: Calls>(
    slots: &mut Slab<Slot<B>>,
    key: usize,
    caller: &mut C,
) -> CallAnswer
    requires { IsSome (map.get slots.old.values key) }
    ensures calls { CallsSlot B.buffer C.called slots.old.values key caller.old slots.new.values caller.new result }
    ensures numbers { KeepsNumbers slots.old.values slots.new.values }
    ensures surroundings { StaysHeld (surroundings_in (around B.under B.beside)) slots.old.values slots.new.values }
{
    let slot = slots.value_mut(key);
    caller.call(&mut slot.request)
}
