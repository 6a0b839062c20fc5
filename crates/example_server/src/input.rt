// A thread that ends the server as the program's input ends.
use crate::clients::DONE;
use std::io::{Input, Read};
use std::sync::Wait;
use std::sync::ledger::Ledger;
use std::time::Clock;
use wake_core::{MAX_PUSHED, RemoteSender, Sends, UnparkHandle};

/// Reads the input to its end, and then wakes the server.
#[derive(Drop)]
pub struct UntilEnd<'a, N> {
    /// The program's input.
    pub rt: &'a N,
}

impl<'a, N: Input + Sync> Sends for UntilEnd<'a, N> {
    fn send<P: Ledger, D: Ledger, R: Wait + Clock>(
        &self,
        rt: &R,
        mut sender: RemoteSender<P, D>,
        _handle: UnparkHandle<P, D>,
    ) {
        let mut reader = self.rt.reader();
        let mut bytes = [0u8; 64];
        for _ in 0..u64::MAX {
            match reader.read(&mut bytes) {
                Ok(0) | Err(_) => break,
                Ok(_) => {}
            }
        }
        if sender.sent() < MAX_PUSHED {
            let _ = sender.send(rt, DONE);
        }
    }
}
