//! A client of a line server: it says its lines, one behind the answer to the other, and writes the answers. With the words PORT and LINE.. it
//! dials that port; with none, std's sockets play a server.
#![tactic(auto)]

mod talk;
mod trial;

use anyhow::Result;
use net_server::{ByLines, Limits, Lines as _, Server, wait_for};
use ready_driver::LegacyDriver;
use socket_io::MioIo;
use std::env;
use talk::Talk;
use trial::trial;

fn main(rt: HostRuntime) -> Result<()> {
    let alloc = rt.alloc();
    let driver = LegacyDriver::over(alloc, MioIo::new(&rt, alloc));
    let mut client = Server::over(alloc, driver, Limits::new(4096));
    let mut words = env::args(&rt)?.skip(1);
    let Some(port) = words.next() else {
        return trial(&rt, alloc, &mut client);
    };
    let mut talk = Talk::new(alloc)?;
    for mut line in words {
        line.push('\n')?;
        talk.says.push(line.into_bytes())?;
    }
    talk.says.reverse();
    let dialled = client.dial(port.as_str().parse()?, ByLines::over(alloc, talk));
    let task = dialled.map_err(|refused| refused.0)?;
    if let Some(ended) = wait_for(&rt, alloc, &mut client, task, 1000)? {
        let state = ended.state;
        let talk = state.lines;
        for answer in talk.answers {
            print!(&rt; "{answer}")?;
        }
    }
    Ok(())
}
