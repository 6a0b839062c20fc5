//! An echo server whose connections are jobs of an executor: idle ones end at their deadline, and other threads end the server. With the
//! words PORT, IDLE and MOST it serves until its input ends; with none, it is tried by clients of its own.
#![tactic(auto)]

mod clients;
mod echo;
mod idle;
mod input;
mod jobs;
mod serve;
mod serving;

use anyhow::{Result, bail};
use clients::{CLIENTS, Clients};
use echo::{Counts, Limits};
use handle_core::SharedFd;
use input::UntilEnd;
use ready_driver::{LegacyDriver, Sockets};
use rent_buf::Rent;
use serve::Serves;
use socket_io::MioIo;
use std::env;
use wake_core::with_senders;

// For how many milliseconds a connection of the trial may be idle, and how many may be open.
const TRIAL: Limits = Limits {
    idle: 5000,
    most: 100,
};

// A handle that listens, on the first port that is free, and that port.
fn listen<I: Sockets>(driver: &mut LegacyDriver<I, Rent>) -> Result<(SharedFd, u16)> {
    for port in 41017..41117 {
        if let Ok(listener) = driver.listen(port) {
            return Ok((listener, port));
        }
    }
    bail!("no port is free")
}

fn main(rt: HostRuntime) -> Result<()> {
    let alloc = rt.alloc();
    let mut driver = LegacyDriver::over(alloc, MioIo::new(&rt, alloc));
    let mut words = env::args(&rt)?.skip(1);
    let counts = match (words.next(), words.next(), words.next()) {
        (Some(port), Some(idle), Some(most)) => {
            let Ok(listener) = driver.listen(port.as_str().parse()?) else {
                bail!("the port {port} is taken");
            };
            let limits = Limits {
                idle: idle.as_str().parse()?,
                most: most.as_str().parse()?,
            };
            let serves = Serves::over(&rt, alloc, driver, listener, limits, 1);
            with_senders(&rt, alloc, 1, &UntilEnd { rt: &rt }, serves)??
        }
        _ => {
            let (listener, port) = listen(&mut driver)?;
            let clients = Clients { rt: &rt, port };
            let serves = Serves::over(&rt, alloc, driver, listener, TRIAL, CLIENTS);
            with_senders(&rt, alloc, CLIENTS, &clients, serves)??
        }
    };
    let Counts {
        closed,
        idle,
        failed,
    } = counts;
    println!(&rt;
        "{closed} connections were closed by their peers, {idle} were idle; {failed} clients failed"
    )?;
    Ok(())
}
