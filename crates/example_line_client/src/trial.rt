// A server of two answers, by std's sockets.
use crate::talk::Talk;
use anyhow::Result;
use net_server::{ByLines, Lines as _, Server, wait_for};
use ready_driver::Sockets;
use std::alloc::Global;
use std::io::{Print, Read as _, Write as _};
use std::net::{Ipv4Addr, Net, SocketAddr, TcpListener, TcpStream};
use std::sync::Wait;
use std::time::Clock;

/// Dials that server, says two lines, and writes what both said.
pub fn trial<R: Wait + Clock + Print + Net<Listener = TcpListener, Stream = TcpStream>, I: Sockets>(
    rt: &R,
    alloc: Global,
    client: &mut Server<I, ByLines<Talk>>,
) -> Result<()> {
    let listener = TcpListener::bind(rt, SocketAddr::from((Ipv4Addr::LOCALHOST, 0)))?;
    let mut talk = Talk::new(alloc)?;
    for line in ["and this\n", "say this\n"] {
        talk.says.push(line.as_bytes().to_vec(alloc)?)?;
    }
    let dialled = client.dial(listener.local_addr()?.port(), ByLines::over(alloc, talk));
    let task = dialled.map_err(|refused| refused.0)?;
    let (mut server, _) = listener.accept()?;
    server.write_all("an answer\nanother\n".as_bytes())?;
    let ended = wait_for(rt, alloc, client, task, 1000)?;
    let mut said = String::new(alloc);
    server.read_to_string(&mut said)?;
    print!(rt; "{said}")?;
    if let Some(ended) = ended {
        let state = ended.state;
        let talk = state.lines;
        for answer in talk.answers {
            print!(rt; "{answer}")?;
        }
    }
    Ok(())
}
