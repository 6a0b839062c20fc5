//! The commands `echo` and `relay`.
ghost use Rattle.std.specs.Prelude.{◌≡◌, ◌≤◌, ◌<◌};
ghost use Rattle.machine.specs.Counts.{Rose};
ghost use Rattle.relay_run.specs.declared.plan.TheConstants.{MOST_LIMIT, MOST_RELAY_ROUNDS};
ghost use Rattle.session_core.specs.Ends.{writing};
ghost use Rattle.session_core.specs.Relays.{OpensFor, RelaysFor};

use crate::output::write_number;
use crate::top::Status;
use ready_driver::Sockets;
use relay_run::{Plan, Relayed, relay_all};
use rent_io::ByteSink;
use std::alloc::Global;
use std::rt::Clock;
use std::sync::Wait;

// Makes the rounds of a relay, and writes how many connections they closed.
pub(crate) fn run_relay<R: Wait + Clock, K: ByteSink, N: Sockets>(
    rt: &R,
    alloc: Global,
    plan: Plan,
    sink: &mut K,
    net: &mut N,
) -> Status
    requires limit { plan.limit ≤ MOST_LIMIT }
    requires rounds { plan.rounds ≤ MOST_RELAY_ROUNDS }
    ensures relays { RelaysFor K.tells plan.rounds (writing K.taken K.faults K.is_flushed sink.old sink.new) result }
    ensures net_fault { result ≡ Status.NetFault → Rose (N.view net.old).faults (N.view net.new).faults }
    ensures listens { result ≡ Status.Done → (N.view net.old).made < (N.view net.new).made }
    ensures opens { OpensFor K.tells N.memory plan.limit plan.rounds (writing K.taken K.faults K.is_flushed sink.old sink.new)
        (N.view net.old) (N.view net.new) result }
{
    match relay_all(rt, alloc, plan, net) {
        Relayed::Closed(count) => match write_number(b"closed ", count, sink) {
            Ok(()) => Status::Done,
            Err(_) => Status::WriteFault,
        },
        Relayed::Fault => Status::NetFault,
        Relayed::OutOfMemory => Status::OutOfMemory,
    }
}
