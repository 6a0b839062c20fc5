//! Copies what comes from a port of this machine to another port, until it ends. With the words FROM and TO it dials both; with none, it
//! listens at both itself, by std's sockets, and writes what came at the second.
#![tactic(auto)]

use anyhow::Result;
use net_copy::copy;
use ready_driver::LegacyDriver;
use rent_buf::Rent;
use socket_io::MioIo;
use std::env;
use std::io::{Read as _, Write as _};
use std::net::{Ipv4Addr, SocketAddr, TcpListener};

// The size of each buffer.
const ROOM: usize = 4096;

// What is copied where no port is named.
const TEXT: &str = "from one socket\nto another\n";

fn main(rt: HostRuntime) -> Result<()> {
    let alloc = rt.alloc();
    let mut driver: LegacyDriver<MioIo<_>, Rent> = LegacyDriver::over(
        alloc,
        MioIo::new(&rt, alloc),
    );
    let mut words = env::args(&rt)?.skip(1);
    if let (Some(from), Some(to)) = (words.next(), words.next()) {
        let from = driver.dial(from.as_str().parse()?)?;
        let to = driver.dial(to.as_str().parse()?)?;
        println!(&rt; "{} bytes", copy(&rt, alloc, &mut driver, from, to, ROOM)?)?;
        return Ok(());
    }
    let first = TcpListener::bind(&rt, SocketAddr::from((Ipv4Addr::LOCALHOST, 0)))?;
    let second = TcpListener::bind(&rt, SocketAddr::from((Ipv4Addr::LOCALHOST, 0)))?;
    let from = driver.dial(first.local_addr()?.port())?;
    let to = driver.dial(second.local_addr()?.port())?;
    let (mut source, _) = first.accept()?;
    let (mut sink, _) = second.accept()?;
    source.write_all(TEXT.as_bytes())?;
    drop(source);
    let count = copy(&rt, alloc, &mut driver, from, to, ROOM)?;
    drop(driver);
    let mut got = String::new(alloc);
    sink.read_to_string(&mut got)?;
    print!(&rt; "{got}")?;
    println!(&rt; "{count} bytes")?;
    Ok(())
}
