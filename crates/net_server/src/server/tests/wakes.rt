// A waker from another thread makes a connection's task ready.
use super::sent_is;
use crate::serve::{Serve, Served};
use crate::server::{Limits, Server};
use net_stream::{Inbox, Outbox};
use ready_driver::{LegacyDriver, MemIo};
use rent_buf::OutOfMemory;
use rent_io::{Step, WriteAll};
use std::alloc::Global;
use std::sync::Wait;
use std::sync::ledger::Ledger;
use std::test::Fail;
use std::time::Clock;
use wake_core::{MAX_PUSHED, Parks, RemoteSender, Sends, Sleeper, UnparkHandle, with_senders};

// The task of the first connection: that of its accept was 0.
const TASK: u64 = 1;

// What the thread does: it sends the waker of that task.
struct Wakes;

impl Sends for Wakes {
    fn send<P: Ledger, D: Ledger, R: Wait + Clock>(
        &self,
        rt: &R,
        mut sender: RemoteSender<P, D>,
        _handle: UnparkHandle<P, D>,
    ) {
        if sender.sent() < MAX_PUSHED {
            let _ = sender.send(rt, TASK);
        }
    }
}

// Writes a byte when it is called for the second time. Nothing comes at its connection, so that only a waker leads to that.
#[derive(Drop)]
struct Nudged {
    calls: u64,
    byte: Option<Vec<u8>>,
}

impl Serve for Nudged {
    fn new(alloc: Global) -> Result<Nudged, OutOfMemory> {
        let mut byte = Vec::new(alloc);
        byte.push(b'w')?;
        Ok(Nudged {
            calls: 0,
            byte: Some(byte),
        })
    }

    fn serve(&mut self, _inbox: &mut Inbox, outbox: &mut Outbox, task: u64) -> Served {
        self.calls = self.calls.saturating_add(1);
        if self.calls == 2
            && let Some(byte) = self.byte.take()
        {
            let _: Step<_, _> = WriteAll::new(byte).poll(outbox, task);
        }
        Served::Open
    }
}

// What is done meanwhile: a server parks until the connection has written.
#[derive(Drop)]
struct ParksUntil<'a, R> {
    rt: &'a R,
    alloc: Global,
}

impl<'a, R: Wait + Clock> Parks for ParksUntil<'a, R> {
    type Out = bool;

    // Nothing is known of it.
    ghost gives = { λ work made out. Unit {0} };

    fn park<P: Ledger, D: Ledger>(self, mut sleeper: Sleeper<P, D>) -> bool {
        let driver = LegacyDriver::over(self.alloc, MemIo::new(self.alloc));
        let limits = Limits {
            room: 64,
            most: 1,
            life: None,
        };
        let mut server: Server<MemIo, Nudged> = Server::over(self.alloc, driver, limits);
        let mut begun = server.listen(0).is_ok();
        for now in 0..40 {
            begun = server.turn(now).accepted.is_none_or(|task| task == TASK) && begun;
        }
        let silent = sent_is(server.io(), 1, "");
        for _ in 0..1000 {
            let _ = server.park(self.rt, &mut sleeper, 1);
            if sent_is(server.io(), 1, "w") {
                return begun && silent;
            }
        }
        false
    }
}

#[test]
fn a_thread_wakes_a_connection(rt: HostRuntime) -> Result<(), Fail> {
    let alloc = rt.alloc();
    let written = with_senders(&rt, alloc, 1, &Wakes, ParksUntil { rt: &rt, alloc })?;
    assert!(rt; written);
    Ok(())
}
