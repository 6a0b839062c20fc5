//! A line server: many connections on one thread, each line answered in capitals. With the words PORT and CONNECTIONS it serves until so many
//! have ended; with none, it is tried by peers of its own.
#![tactic(auto)]

mod capitals;
mod trial;

use anyhow::Result;
use capitals::{Left, Lines};
use net_server::{Limits, Server, run};
use ready_driver::LegacyDriver;
use socket_io::MioIo;
use std::env;
use trial::trial;

fn main(rt: HostRuntime) -> Result<()> {
    let alloc = rt.alloc();
    let driver = LegacyDriver::over(alloc, MioIo::new(&rt, alloc));
    let mut server: Server<_, Lines> = Server::over(alloc, driver, Limits::new(4096));
    let mut words = env::args(&rt)?.skip(1);
    let (Some(port), Some(count)) = (words.next(), words.next()) else {
        return trial(&rt, alloc, &mut server);
    };
    server.listen(port.as_str().parse()?)?;
    let mut left = Left(count.as_str().parse()?);
    run(&rt, alloc, &mut server, &mut left, 1000)?;
    println!(&rt; "{} open", server.connections())?;
    Ok(())
}
