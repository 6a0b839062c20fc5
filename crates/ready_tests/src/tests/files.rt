// A process that may open no further file.
use crate::tests::dials::{accepts, dials, listens};
use crate::tests::scene::{Scene, play_on};
use crate::tests::stage::{Stage, Why, failed, is_like, run};
use machine::{Request, SharedFd};
use ready_driver::NonBlockError;
use socket_io::MioIo;
use std::net::{Ipv4Addr, SocketAddr, UdpSocket};
use std::test::Fail;

// How many files are opened at most: where a process may open more, nothing is shown.
const MOST: u32 = 25000;

// How many more files may be opened then: of a listener, a connection and the poll.
const SPARE: u32 = 3;

// The error of a process that may open no further file. (Linux: `EMFILE`)
const TOO_MANY: u16 = 24;

// Opens files until no further one may be, but for a few. It answers none where more than so many may be opened.
fn filled(rt: &HostRuntime) -> Result<Vec<UdpSocket>, Fail> {
    let mut files = Vec::new(rt.alloc());
    let first = UdpSocket::bind(rt, SocketAddr::from((Ipv4Addr::LOCALHOST, 0)))?;
    for _ in 0..MOST {
        match first.try_clone() {
            Ok(file) => files.push(file)?,
            Err(_) => {
                for _ in 0..SPARE {
                    let _ = files.pop();
                }
                files.push(first)?;
                return Ok(files);
            }
        }
    }
    files.clear();
    Ok(files)
}

// An accept fails, and is gone: it doesn't wait.
fn accepts_none<S: Stage>(stage: &mut S, listener: u64) -> Result<(), Why> {
    let fd = SharedFd::new(listener);
    failed(run(stage, Request::Accept { fd })?, TOO_MANY)
}

/// A driver that listens and dials may open no further file: a call that listens, one that dials and an accept are told that by its number,
/// as often as they are made, and no handle is lost. Once a handle is closed the accept makes one.
pub(crate) fn crowds<S: Stage>(stage: &mut S) -> Result<(), Why> {
    let (listener, port) = listens(stage)?;
    let near = dials(stage, port)?;
    is_like(stage.listen(0) == Err(NonBlockError::Fault(TOO_MANY)))?;
    is_like(stage.dial(port) == Err(NonBlockError::Fault(TOO_MANY)))?;
    accepts_none(stage, listener)?;
    accepts_none(stage, listener)?;
    is_like(stage.left() == (0, 2))?;
    stage.release(near)?;
    is_like(accepts(stage, listener)? == 2)?;
    is_like(stage.left() == (0, 2))
}

#[test]
fn the_process_has_too_many_files(rt: HostRuntime) -> Result<(), Fail> {
    let alloc = rt.alloc();
    let files = filled(&rt)?;
    if files.len() > 0 {
        play_on(&rt, alloc, MioIo::new(&rt, alloc), Scene::Crowd)?;
    }
    Ok(())
}
