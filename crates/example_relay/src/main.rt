//! A relay over sockets. With the words echo, PORT and CONNECTIONS what comes at a connection goes back; with relay, PORT, TO and CONNECTIONS
//! it goes to the port TO of this machine, and what comes from there goes back. It ends once so many connections have ended. With no words
//! it is tried by peers of its own.
#![tactic(auto)]

mod rounds;
mod trial;

use anyhow::{Result, bail};
use ready_driver::{LegacyDriver, Sockets};
use relay_net::{Mirror, PortFar};
use rent_buf::Buf;
use rounds::{Ended, listen, serve};
use socket_io::MioIo;
use std::alloc::Global;
use std::env;
use std::sync::Wait;
use std::time::Clock;
use trial::trial;

// What the program is told by its words.
const USAGE: &str = "echo PORT CONNECTIONS, or relay PORT TO CONNECTIONS";

// What comes at a port goes back.
fn echo<R: Wait + Clock, I: Sockets>(
    rt: &R,
    alloc: Global,
    driver: LegacyDriver<I, Buf>,
    port: &str,
    count: &str,
) -> Result<Ended> {
    let mut relay = listen(alloc, driver, port.parse()?, Mirror)?;
    serve(rt, alloc, &mut relay, count.parse()?)
}

// What comes at a port goes to another one, and back.
fn pass<R: Wait + Clock, I: Sockets>(
    rt: &R,
    alloc: Global,
    driver: LegacyDriver<I, Buf>,
    port: &str,
    to: &str,
    count: &str,
) -> Result<Ended> {
    let far = PortFar::new(to.parse()?);
    let mut relay = listen(alloc, driver, port.parse()?, far)?;
    serve(rt, alloc, &mut relay, count.parse()?)
}

// The word at a place; none is empty.
fn word(words: &[String], at: usize) -> &str {
    match words.get(at) {
        Some(word) => word.as_str(),
        None => "",
    }
}

// What the words ask for.
fn work<R: Wait + Clock, I: Sockets>(
    rt: &R,
    alloc: Global,
    driver: LegacyDriver<I, Buf>,
    words: &[String],
) -> Result<Ended> {
    let port = word(words, 1);
    let next = word(words, 2);
    match (word(words, 0), words.len()) {
        ("echo", 3) => echo(rt, alloc, driver, port, next),
        ("relay", 4) => {
            let count = word(words, 3);
            pass(rt, alloc, driver, port, next, count)
        }
        _ => bail!("{}", USAGE),
    }
}

fn main(rt: HostRuntime) -> Result<()> {
    let alloc = rt.alloc();
    let driver = LegacyDriver::over(alloc, MioIo::new(&rt, alloc));
    let mut words = Vec::new(alloc);
    for word in env::args(&rt)?.skip(1) {
        words.push(word)?;
    }
    if words.is_empty() {
        return trial(&rt, alloc, driver);
    }
    let ended = work(&rt, alloc, driver, &words)?;
    println!(&rt; "{} closed, {} failed", ended.closed, ended.failed)?;
    Ok(())
}
