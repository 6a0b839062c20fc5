// Peers of an echo, by std's sockets.
use crate::rounds::{Ended, over, serve};
use anyhow::{Result, bail};
use handle_core::SharedFd;
use ready_driver::{LegacyDriver, Sockets};
use relay_net::Mirror;
use rent_buf::Buf;
use std::alloc::Global;
use std::io::{Print, Read as _, Write};
use std::net::{Ipv4Addr, Net, Shutdown, SocketAddr, TcpStream};
use std::sync::Wait;
use std::time::Clock;

// What they say.
const TEXTS: [&str; 3] = ["there and back", "", "x"];

// A handle that listens on the first port that is free, and that port.
fn bind<I: Sockets>(driver: &mut LegacyDriver<I, Buf>) -> Result<(SharedFd, u16)> {
    for port in 41217..41317 {
        if let Ok(listener) = driver.listen(port) {
            return Ok((listener, port));
        }
    }
    bail!("no port is free")
}

/// Dials the echo by each, and writes what came back.
pub fn trial<R: Wait + Clock + Print + Net<Stream = TcpStream>, I: Sockets>(
    rt: &R,
    alloc: Global,
    mut driver: LegacyDriver<I, Buf>,
) -> Result<()> {
    let (listener, port) = bind(&mut driver)?;
    let mut relay = over(alloc, driver, listener, Mirror)?;
    let mut peers = Vec::new(alloc);
    for text in TEXTS {
        let mut peer = TcpStream::connect(rt, SocketAddr::from((Ipv4Addr::LOCALHOST, port)))?;
        peer.write_all(text.as_bytes())?;
        peer.shutdown(Shutdown::Write)?;
        peers.push(peer)?;
    }
    let Ended { closed, failed } = serve(rt, alloc, &mut relay, TEXTS.len())?;
    for mut peer in peers {
        let mut got = String::new(alloc);
        peer.read_to_string(&mut got)?;
        println!(rt; "{got:?}")?;
    }
    println!(rt; "{closed} closed, {failed} failed")?;
    Ok(())
}
