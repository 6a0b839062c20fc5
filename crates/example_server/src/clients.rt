// The clients of a trial, each on a thread of its own. One that is done wakes the server.
use std::io;
use std::io::{Read, Write};
use std::net::{Ipv4Addr, Net, SocketAddr, TcpStream};
use std::sync::Wait;
use std::sync::ledger::Ledger;
use std::time::Clock;
use wake_core::{MAX_PUSHED, RemoteSender, Sends, UnparkHandle};

/// How many clients there are.
pub const CLIENTS: u64 = 16;

/// What a thread sends that is done: no task has this number.
pub const DONE: u64 = u64::MAX;

/// What it sends where something was wrong.
pub const FAILED: u64 = u64::MAX - 1;

// How many messages a client sends, and how many bytes each has.
const MESSAGES: usize = 100;

const SIZE: usize = 64;

/// The clients of a server.
#[derive(Drop)]
pub struct Clients<'a, N> {
    /// The network.
    pub rt: &'a N,
    /// The server's port.
    pub port: u16,
}

impl<'a, N: Net + Sync> Sends for Clients<'a, N> {
    fn send<P: Ledger, D: Ledger, R: Wait + Clock>(
        &self,
        rt: &R,
        mut sender: RemoteSender<P, D>,
        _handle: UnparkHandle<P, D>,
    ) {
        let number = match self.play(sender.number()) {
            Ok(()) => DONE,
            Err(_) => FAILED,
        };
        if sender.sent() < MAX_PUSHED {
            let _ = sender.send(rt, number);
        }
    }
}

impl<'a, N: Net> Clients<'a, N> {
    // A client by its number: the first waits until the server closes its connection, the second resets its own, with bytes that it didn't
    // read, and each other one has its messages back.
    fn play(&self, number: u64) -> io::Result<()> {
        let address = SocketAddr::from((Ipv4Addr::LOCALHOST, self.port));
        let mut stream = TcpStream::connect(self.rt, address)?;
        match number {
            0 => wait_for_end(&mut stream),
            1 => {
                stream.write_all(&[7; SIZE])?;
                stream.read_exact(&mut [0u8; 1])
            }
            _ => exchange(&mut stream),
        }
    }
}

// Waits for the end of a stream.
fn wait_for_end<S: Read>(stream: &mut S) -> io::Result<()> {
    if stream.read(&mut [0u8; 1])? == 0 {
        return Ok(());
    }
    Err(io::Error::from(io::ErrorKind::InvalidData))
}

// Sends messages, and receives each before the next.
fn exchange<S: Read + Write>(stream: &mut S) -> io::Result<()> {
    for k in 0..MESSAGES {
        let message = [k as u8; SIZE];
        stream.write_all(&message)?;
        let mut back = [0u8; SIZE];
        stream.read_exact(&mut back)?;
        if back != message {
            return Err(io::Error::from(io::ErrorKind::InvalidData));
        }
    }
    Ok(())
}
