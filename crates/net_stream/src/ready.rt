// Receiving and sending over the readiness driver, whose object may tell its handles.
ghost use Rattle.std.specs.Prelude.{◌≡◌, ◌≤◌, ◌<◌, ◌+◌, ◌++◌, ◌∷◌, [], None, IsTrue};
ghost use Rattle.op_driver.specs.Legacy.{LegacyPolls, LegacySubmits};
ghost use Rattle.ready_driver.specs.LegacyState.{holds_all, ops_in};
ghost use Rattle.rent_buf.specs.Rent.{buffer_of_rent};
ghost use Rattle.net_stream.specs.Connection.{FitsConnection, KeepsBeside, OnlyComes, OnlyGoes, ReceivesFor, SendsFor};
ghost use Rattle.net_stream.specs.Drives.{KeepsOther};
ghost use Rattle.net_stream.specs.Told.{IsSentTo, IsStream, IsTaken, sent_at, unread_in, unsent_in, waiting_at, world_of};

use crate::connection::Connection;
use crate::progress::Progress;
use driver_core::{MOST_GIVEN, SubmitFault};
use ready_driver::{LegacyDriver, NonBlock};
use rent_buf::Rent;

impl Connection {
    /// `receive` over the readiness driver. Where its object tells its handles no byte is lost, repeated or moved: what came and wasn't
    /// read, and then what waits at the handle, is what it was. Of all handles only this one has changed, by what was taken. (monoio:
    /// `TcpStream::read`, without its stream)
    pub fn receive_ready<I: NonBlock>(
        &mut self,
        driver: &mut LegacyDriver<I, Rent>,
        task: u64,
    ) -> Result<Progress, SubmitFault>
        requires fits { FitsConnection (ops_in driver.old) self.old }
        requires held { self.old.incoming.op ≡ None → IsTrue (holds_all driver.old.handling.table (self.old.fd ∷ [])) }
        requires counter { self.old.incoming.op ≡ None → driver.old.given < MOST_GIVEN }
        ensures receives { ReceivesFor (LegacySubmits I.view I.tells I.memory)
            (LegacyPolls I.files buffer_of_rent I.called I.view I.tells I.memory) driver.old driver.new self.old self.new task result }
        ensures came { IsTrue I.tells → unread_in self.new ++ waiting_at I.view driver.new self.old.fd
            ≡ unread_in self.old ++ waiting_at I.view driver.old self.old.fd }
        ensures handles { IsTrue I.tells → IsTaken (world_of I.view driver.old) self.old.fd (world_of I.view driver.new) }
        ensures same { OnlyComes self.old self.new }
        ensures fits { FitsConnection (ops_in driver.new) self.new }
        ensures keeps { KeepsOther (ops_in driver.old) self.old.incoming.op (ops_in driver.new) self.new.incoming.op }
        ensures others { KeepsBeside (ops_in driver.old) self.old (ops_in driver.new) self.new }
        ensures given { driver.new.given ≤ driver.old.given + 1 }
    {
        let _ = driver.given();
        self.receive(driver, task)
    }

    /// `send` over the readiness driver. Where its object tells its handles no byte is lost, repeated or moved: what was sent to the
    /// stream, and then what was written and isn't sent, is what it was. Of all handles only this one has changed, by what was sent.
    /// (monoio: `TcpStream::write`, without its stream)
    pub fn send_ready<I: NonBlock>(
        &mut self,
        driver: &mut LegacyDriver<I, Rent>,
        task: u64,
    ) -> Result<Progress, SubmitFault>
        requires fits { FitsConnection (ops_in driver.old) self.old }
        requires held { self.old.outgoing.op ≡ None → IsTrue (holds_all driver.old.handling.table (self.old.fd ∷ [])) }
        requires counter { self.old.outgoing.op ≡ None → driver.old.given < MOST_GIVEN }
        ensures sends { SendsFor ops_in (LegacySubmits I.view I.tells I.memory)
            (LegacyPolls I.files buffer_of_rent I.called I.view I.tells I.memory) driver.old driver.new self.old self.new task result }
        ensures went { IsTrue I.tells → IsStream (world_of I.view driver.old) self.old.fd →
            sent_at I.view driver.new self.old.fd ++ unsent_in (ops_in driver.new) self.new
            ≡ sent_at I.view driver.old self.old.fd ++ unsent_in (ops_in driver.old) self.old }
        ensures handles { IsTrue I.tells → IsSentTo (world_of I.view driver.old) self.old.fd (world_of I.view driver.new) }
        ensures same { OnlyGoes self.old self.new }
        ensures fits { FitsConnection (ops_in driver.new) self.new }
        ensures keeps { KeepsOther (ops_in driver.old) self.old.outgoing.op (ops_in driver.new) self.new.outgoing.op }
        ensures others { KeepsBeside (ops_in driver.old) self.old (ops_in driver.new) self.new }
        ensures given { driver.new.given ≤ driver.old.given + 1 }
    {
        let _ = driver.given();
        let _ = self.outgoing.waits();
        self.send(driver, task)
    }
}
