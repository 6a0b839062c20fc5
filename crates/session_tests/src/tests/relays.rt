// The commands `echo` and `relay`: over handles in memory, and over sockets of this machine.
use crate::tests::program::{Case, calm, case_holds, is_like, run_over};
use ready_driver::{LegacyDriver, Sockets};
use relay_net::{Mirror, Relay};
use rent_buf::Buf;
use session_core::Status;
use socket_io::MioIo;
use std::alloc::Global;
use std::io::{self, Read as _, Write};
use std::net::{Ipv4Addr, Net, Shutdown, SocketAddr, TcpListener, TcpStream};
use std::sync::Wait;
use std::sync::ledger::Ledger;
use std::test::Fail;
use std::thread;
use std::thread::{Scope, Threads};
use std::time::{Clock, Duration};
use wake_core::{Sleeper, WakeCell, Work, with_sleeper};

// Words, an input, a read that fails, a write or flush that fails, the status, and what was written.
#[rattlefmt::skip]
const ROWS: [Case; 19] = [
    ("echo 40019 1 0", "", None, None, Status::Done, "closed 0;"),
    ("echo 40019 64 5", "unread", Some(0), None, Status::Done, "closed 0;"),
    ("relay 40019 40018 2 5", "", None, None, Status::Done, "closed 0;"),
    ("relay 65535 1 64 0", "", None, None, Status::Done, "closed 0;"),
    ("echo 40019 1 2", "", None, Some(0), Status::WriteFault, ""),
    ("echo 40019 1 2", "", None, Some(1), Status::WriteFault, "closed "),
    ("echo 0 1 1", "", None, None, Status::BadWords, ""),
    ("echo 65536 1 1", "", None, None, Status::BadWords, ""),
    ("echo 01 1 1", "", None, None, Status::BadWords, ""),
    ("echo 1 0 1", "", None, None, Status::BadWords, ""),
    ("echo 1 65 1", "", None, None, Status::BadWords, ""),
    ("echo 1 1 1000001", "", None, None, Status::BadWords, ""),
    ("echo 1 1 -1", "", None, None, Status::BadWords, ""),
    ("echo 1 1", "", None, None, Status::BadWords, ""),
    ("echo 1 1 1 1", "", None, None, Status::BadWords, ""),
    ("relay 1 0 1 1", "", None, None, Status::BadWords, ""),
    ("relay 1 65536 1 1", "", None, None, Status::BadWords, ""),
    ("relay 1 1 1", "", None, None, Status::BadWords, ""),
    ("Relay 1 1 1 1", "", None, None, Status::BadWords, ""),
];

#[test]
fn relays_over_memory(rt: HostRuntime) {
    for case in ROWS {
        assert_eq!(rt;
            case_holds(&rt, rt.alloc(), case),
            Ok(()),
            "for {:?}",
            case.0
        );
    }
}

// A connection to a port of this machine.
fn dial<R: Net>(rt: &R, port: u16) -> io::Result<R::Stream> {
    TcpStream::connect(rt, SocketAddr::from((Ipv4Addr::LOCALHOST, port)))
}

// How many rounds a test makes at most.
const ROUNDS: u32 = 4000;

// A relay with one client, in one thread.
#[derive(Drop)]
struct Echoing<'a, R> {
    rt: &'a R,
    alloc: Global,
}

// An echo relay over sockets.
fn echo_on<R: Net>(rt: &R, alloc: Global, port: u16) -> Option<Relay<MioIo<&R>, Mirror>> {
    let mut driver: LegacyDriver<MioIo<&R>, Buf> = LegacyDriver::over(alloc, MioIo::new(rt, alloc));
    let listener = driver.listen(port).ok()?;
    if !driver.user_holds(listener.number()) {
        return None;
    }
    Relay::new(alloc, driver, listener, 1, Mirror).ok()
}

// Makes rounds until one closes a connection.
fn until_closed<R: Wait + Clock, I: Sockets, P: Ledger, D: Ledger>(
    rt: &R,
    relay: &mut Relay<I, Mirror>,
    sleeper: &mut Sleeper<P, D>,
) -> bool {
    for _ in 0..ROUNDS {
        if relay.driver().given() > 1 << 32 {
            return false;
        }
        match relay.round(rt, sleeper, Some(1)) {
            Ok(round) => {
                if !round.closed.is_empty() {
                    return true;
                }
            }
            Err(_) => return false,
        }
    }
    false
}

impl<'a, R: Wait + Clock + Net<Stream = TcpStream>> Work for Echoing<'a, R> {
    type Out = io::Result<bool>;

    // Nothing is known of it.
    ghost gives = { λ work out. Unit {0} };

    fn run<P: Ledger + Send + Sync, D: Ledger + Send + Sync>(
        self,
        _cell: WakeCell<P, D>,
        sleeper: Sleeper<P, D>,
    ) -> io::Result<bool> {
        let Echoing { rt, alloc } = self;
        let mut sleeper = sleeper;
        let Some(relay) = echo_on(rt, alloc, 21018) else {
            return Ok(false);
        };
        let mut relay = relay;
        let mut client = dial(rt, 21018)?;
        client.write_all(b"hello")?;
        client.shutdown(Shutdown::Write)?;
        if !until_closed(rt, &mut relay, &mut sleeper) {
            return Ok(false);
        }
        let mut came = String::new(alloc);
        client.read_to_string(&mut came)?;
        Ok(came.as_str() == "hello")
    }
}

#[test]
fn a_client_in_the_same_thread_is_echoed(rt: HostRuntime) -> Result<(), Fail> {
    let alloc = rt.alloc();
    let good = with_sleeper(alloc, Echoing { rt: &rt, alloc })??;
    assert!(rt; good);
    Ok(())
}

// The program echoes one client, which closes its connection.
fn serve<R: Threads + Wait + Net + Clock + Sync>(rt: &R, alloc: Global) -> bool {
    let call = calm("echo 21020 1 4000", b"");
    match run_over(rt, alloc, call, MioIo::new(rt, alloc)) {
        Ok(ran) => is_like(&ran, Status::Done, b"closed 1\n").is_ok(),
        Err(_) => false,
    }
}

// Dials until the program listens, for twenty seconds at least. (Its port is below those that Linux gives to connections.)
fn dial_until<R: Net + Clock>(rt: &R, port: u16) -> io::Result<R::Stream> {
    for _ in 0..20000 {
        if let Ok(stream) = dial(rt, port) {
            return Ok(stream);
        }
        thread::sleep(rt, Duration::from_millis(1));
    }
    dial(rt, port)
}

// Sends a text, receives it again, and closes.
fn talk<R: Net<Stream = TcpStream> + Clock>(rt: &R) -> io::Result<bool> {
    let mut client = dial_until(rt, 21020)?;
    client.write_all(b"hello")?;
    let mut came = [0; 5];
    client.read_exact(&mut came)?;
    Ok(&came == b"hello")
}

// Serves in a thread, and talks beside it.
fn serve_and_talk<'s, E, R>(rt: &'s R, alloc: Global, scope: &Scope<'s, E>) -> io::Result<bool>
where
    R: Threads + Wait + Net<Listener = TcpListener, Stream = TcpStream> + Clock + Sync,
{
    let Ok(server) = scope.spawn(move || serve(rt, alloc)) else {
        return Ok(false);
    };
    let talked = talk(rt)?;
    Ok(server.join(rt) && talked)
}

#[test]
fn the_program_counts_a_client_that_it_echoed(rt: HostRuntime) -> Result<(), Fail> {
    let alloc = rt.alloc();
    let runtime = &rt;
    let good = thread::scope(
        thread::scope_env(),
        runtime,
        move |scope| -> io::Result<bool> { serve_and_talk(runtime, alloc, scope) },
    )?;
    assert!(rt; good);
    Ok(())
}

#[test]
fn a_port_that_is_taken_is_a_fault(rt: HostRuntime) -> Result<(), Fail> {
    let alloc = rt.alloc();
    let taken = TcpListener::bind(&rt, SocketAddr::from((Ipv4Addr::LOCALHOST, 0)))?;
    let words = format!(in alloc; "echo {} 1 1", taken.local_addr()?.port())?;
    let ran = run_over(
        &rt,
        alloc,
        calm(words.as_str(), b""),
        MioIo::new(&rt, alloc),
    )?;
    assert_eq!(rt; is_like(&ran, Status::NetFault, b""), Ok(()));
    Ok(())
}
