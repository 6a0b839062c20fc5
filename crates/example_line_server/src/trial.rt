// Three peers of the server, by std's sockets.
use crate::capitals::{Left, Lines};
use anyhow::{Result, bail};
use net_server::{Server, run};
use ready_driver::Sockets;
use std::alloc::Global;
use std::io::{Print, Read as _, Write};
use std::net::{Ipv4Addr, Net, Shutdown, SocketAddr, TcpStream};
use std::sync::Wait;
use std::time::Clock;

// What they say.
const TEXTS: [&str; 3] = ["a first line\n", "b\nsecond\n", "c third, without an end"];

// Listens on the first port that is free: which one that is.
fn listen<I: Sockets>(server: &mut Server<I, Lines>) -> Result<u16> {
    for port in 41017..41117 {
        if server.listen(port).is_ok() {
            return Ok(port);
        }
    }
    bail!("no port is free")
}

/// Dials the server by each, and writes what they were answered.
pub fn trial<R: Wait + Clock + Print + Net<Stream = TcpStream>, I: Sockets>(
    rt: &R,
    alloc: Global,
    server: &mut Server<I, Lines>,
) -> Result<()> {
    let port = listen(server)?;
    let mut peers = Vec::new(alloc);
    for text in TEXTS {
        let mut peer = TcpStream::connect(rt, SocketAddr::from((Ipv4Addr::LOCALHOST, port)))?;
        peer.write_all(text.as_bytes())?;
        peer.shutdown(Shutdown::Write)?;
        peers.push(peer)?;
    }
    run(rt, alloc, server, &mut Left(3), 1000)?;
    for mut peer in peers {
        let mut got = String::new(alloc);
        peer.read_to_string(&mut got)?;
        println!(rt; "{got:?}")?;
    }
    println!(rt; "{} open", server.connections())?;
    Ok(())
}
