//! An echo server and two clients, one of which resets its connection: over sockets of this machine, on one thread.
#![tactic(auto)]

mod calls;
mod server;

use anyhow::{Result, bail};
use calls::{Asked, Calls, Polled, make_parking};
use handle_core::SharedFd;
use machine::Request;
use rent_buf::Rent;
use server::{SIZE, Server};
use socket_io::MioIo;
use std::alloc::Global;
use std::io::Print;
use std::net::Net;
use std::str;
use std::sync::Wait;
use std::sync::ledger::Ledger;
use std::time::Clock;
use wake_core::{Sleeper, WakeCell, Work, with_sleeper};

// How many ports are tried, and how often the server is stepped at most before something has happened.
const PORTS: u16 = 100;

const STEPS: u32 = 10000;

// A handle that listens, on the first port that is free, and two that dial it.
fn connect<C: Calls>(io: &mut C) -> Result<(SharedFd, SharedFd, SharedFd)> {
    for port in 40817..40817 + PORTS {
        if let Some(listener) = io.listen(port) {
            return Ok((listener, io.dial(port)?, io.dial(port)?));
        }
    }
    bail!("no port is free")
}

// Submits a client's request, and steps the server until it has ended.
fn run<C: Calls>(io: &mut C, server: &mut Server, request: Asked) -> Result<Asked> {
    let mut held = io.submit(request)?;
    for _ in 0..STEPS {
        server.step(io)?;
        match io.poll(held)? {
            Polled::Ready(_, request) => return Ok(request),
            Polled::Pending(client) => held = client,
        }
        io.park()?;
    }
    bail!("nothing came")
}

// A buffer that holds a text.
fn buffer_of(alloc: Global, text: &str) -> Result<Rent> {
    let bytes = text.as_bytes().to_vec(alloc)?;
    let total = bytes.len();
    match Rent::from_vec(bytes, total) {
        Ok(buf) => Ok(buf),
        Err((why, _)) => Err(why.into()),
    }
}

// A client sends a text, and receives at most so many bytes of what comes back.
fn talk<C: Calls>(
    io: &mut C,
    server: &mut Server,
    alloc: Global,
    fd: SharedFd,
    text: &str,
    most: usize,
) -> Result<Asked> {
    let buf = buffer_of(alloc, text)?;
    run(io, server, Request::Send { fd, buf })?;
    let buf = Rent::with_total(alloc, most)?;
    run(io, server, Request::Recv { fd, buf })
}

// Steps the server until no connection is open.
fn close_all<C: Calls>(io: &mut C, server: &mut Server) -> Result<()> {
    for _ in 0..STEPS {
        server.step(io)?;
        if server.open() == 0 {
            return Ok(());
        }
        io.park()?;
    }
    bail!("a connection stays open")
}

// Two clients, one after the other, and the end of the server.
fn play<C: Calls, R: Print>(rt: &R, io: &mut C, alloc: Global) -> Result<()> {
    let (listener, first, second) = connect(io)?;
    let mut server = Server::new(io, alloc, listener)?;

    // A socket that is closed before all that came was read resets its connection.
    tell(
        rt,
        "first",
        talk(io, &mut server, alloc, first, "read in part", 4)?,
    )?;
    io.close(first)?;
    for text in ["hello", "again"] {
        tell(
            rt,
            "second",
            talk(io, &mut server, alloc, second, text, SIZE)?,
        )?;
    }
    io.close(second)?;
    close_all(io, &mut server)?;

    println!(rt; "{} closed, {} reset", server.closed, server.failed)?;
    server.end(io)?;
    io.close(listener)?;
    println!(rt; "{} operations are left", io.live())?;
    Ok(())
}

// What a client received.
fn tell<R: Print>(rt: &R, name: &str, request: Asked) -> Result<()> {
    if let Request::Recv { fd: _, buf } = request {
        let text = str::from_utf8(buf.as_slice())?;
        println!(rt; "{name} client: {text}")?;
    }
    Ok(())
}

// What is done with a new sleeper: a driver over sockets is lent it.
#[derive(Drop)]
struct Playing<'a, R> {
    rt: &'a R,
    alloc: Global,
}

impl<'a, R: Net + Print + Wait + Clock> Work for Playing<'a, R> {
    type Out = Result<()>;

    // Nothing is known of it.
    ghost gives = { λ work out. Unit {0} };

    fn run<P: Ledger + Send + Sync, D: Ledger + Send + Sync>(
        self,
        _cell: WakeCell<P, D>,
        sleeper: Sleeper<P, D>,
    ) -> Result<()> {
        let sockets = MioIo::new(self.rt, self.alloc);
        let mut io = make_parking(self.rt, self.alloc, sockets, sleeper);
        play(self.rt, &mut io, self.alloc)
    }
}

fn main(rt: HostRuntime) -> Result<()> {
    let alloc = rt.alloc();
    with_sleeper(alloc, Playing { rt: &rt, alloc })?
}
