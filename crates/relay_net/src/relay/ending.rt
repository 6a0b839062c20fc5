// The end of a relay: what waits is dropped, and each connection is ended.
ghost use Rattle.std.specs.Prelude.{◌≡◌};
ghost use Rattle.ready_driver.specs.Io.{IsLater};
ghost use Rattle.ready_driver.specs.LegacyState.{ops_in};
ghost use Rattle.relay_net.specs.Flow.{IsPending};
ghost use Rattle.relay_net.specs.Opening.{Widens};
ghost use Rattle.relay_net.specs.Relay.{AreServed, IsAccept, IsSound};

use crate::connection::Connection;
use crate::flow::Reads;
use crate::state::State;
use driver_core::Op;
use handle_core::SharedFd;
use op_driver::OpDriver;
use ready_driver::Sockets;

// Drops the accept that waits.
fn drop_accept<I: Sockets>(driver: &mut Reads<I>, op: Op, listener: SharedFd)
    requires pending { IsPending (ops_in driver.old) op (IsAccept listener) }
    ensures widens { Widens I.view I.tells driver.old driver.new }
    ensures made { (I.view driver.new.handling.io).made ≡ (I.view driver.old.handling.io).made }
{
    let _ = listener;
    OpDriver::drop_op(driver, op);
}

// Drops the accept that waits, if one does.
fn end_accept<I: Sockets>(
    driver: &mut Reads<I>,
    accept: Option<Op>,
    listener: SharedFd,
    room: usize,
    conns: &Vec<Connection>,
)
    requires sound { IsSound room (ops_in driver.old) driver.old.handling.table listener accept conns.now.items }
    ensures served { AreServed room (ops_in driver.new) driver.new.handling.table listener conns.now.items }
    ensures later { IsLater (I.view driver.old.handling.io) (I.view driver.new.handling.io) }
    ensures made { (I.view driver.new.handling.io).made ≡ (I.view driver.old.handling.io).made }
{
    let _ = (room, conns.len());
    match accept {
        Some(op) => drop_accept(driver, op, listener),
        None => {}
    }
}

// Ends each connection.
fn end_each<I: Sockets>(
    driver: &mut Reads<I>,
    listener: SharedFd,
    room: usize,
    conns: Vec<Connection>,
)
    requires served { AreServed room (ops_in driver.old) driver.old.handling.table listener conns.items }
    ensures later { IsLater (I.view driver.old.handling.io) (I.view driver.new.handling.io) }
    ensures made { (I.view driver.new.handling.io).made ≡ (I.view driver.old.handling.io).made }
{
    let _ = (listener, room);
    let mut conns = conns;
    while let Some(conn) = conns.pop() {
        conn.end(driver);
    }
    conns.destroy_empty();
}

// Drops the accept that waits, and ends each connection. The driver comes back.
pub(crate) fn end_all<I: Sockets>(state: State<I>) -> Reads<I>
    requires sound { IsSound state.room (ops_in state.driver) state.driver.handling.table state.listener state.accept state.open.items }
    ensures later { IsLater (I.view state.driver.handling.io) (I.view result.handling.io) }
    ensures made { (I.view result.handling.io).made ≡ (I.view state.driver.handling.io).made }
{
    let State {
        driver,
        listener,
        accept,
        open,
        room,
    } = state;
    let mut driver = driver;
    end_accept(&mut driver, accept, listener, room, &open);
    end_each(&mut driver, listener, room, open);
    driver
}
