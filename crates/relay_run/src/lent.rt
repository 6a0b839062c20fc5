//! An object that is lent to a run and comes back.
ghost use Rattle.std.specs.Prelude.{◌≡◌, ℕ};

use driver_core::{CallAnswer, Calls};
use machine::{Outcome, Request};
use ready_driver::{NonBlock, NonBlockError, Reports, Sockets};
use rent_buf::{IoBufMut, VecBuf};
use std::marker::{Brand, PhantomData};
use wake_core::Bell;

/// The name of the borrow with which an object is lent, as a constant of a type.
pub trait NetPlaces {
    ghost net: { ℕ };
}

impl NetPlaces for Brand {
    ghost net = { 0 };
}

/// An object that is lent: its borrow is the one of that name.
#[derive(Drop)]
pub(crate) struct Lent<'a, N: Sockets, P: NetPlaces> {
    net: &'a mut N,
    of: PhantomData<P>,
    ghost home: { net.ghost_name ≡ P.net },
}

/// Lends an object.
pub(crate) fn lend<'a, N: Sockets, P: NetPlaces>(net: &'a mut N) -> Lent<'a, N, P>
    requires net { net.ghost_name ≡ P.net }
    ensures { result.net.now ≡ net.old }
{
    Lent {
        net,
        of: PhantomData,
    }
}

/// Gives the object back.
pub(crate) fn give_back<'a, N: Sockets, P: NetPlaces>(lent: Lent<'a, N, P>) -> &'a mut N
    ensures same { result.ghost_name ≡ P.net }
    ensures net { result.now ≡ lent.entry.net.now }
{
    let Lent { net, of: _ } = lent;
    net
}

impl<'a, N: Sockets, P: NetPlaces> Calls for Lent<'a, N, P> {
    ghost called = { λ old request new now answer. N.called old.net.now request new.net.now now answer };

    fn call<B: IoBufMut>(&mut self, request: &mut Request<B, VecBuf>) -> CallAnswer {
        self.net.call(request)
    }
}

impl<'a, N: Sockets, P: NetPlaces> NonBlock for Lent<'a, N, P> {
    ghost view = { λ lent. N.view lent.net.now };

    ghost files = { λ lent h. N.files lent.net.now h };

    ghost tells = { N.tells };

    ghost reporting = { N.reporting };

    ghost memory = { N.memory };

    ghost memory_tells = { N.memory_tells };

    ghost memory_files = { λ memory lent h. N.memory_files memory lent.net.now h };

    ghost memory_reports = { λ memory. ((N.memory_reports memory).0, λ lent. (N.memory_reports memory).1 lent.net.now) };

    ghost calls = { λ old request new now answer called. N.calls old.net.now request new.net.now now answer called };

    fn register(&mut self, h: u64, key: usize) -> Result<(), NonBlockError> {
        self.net.register(h, key)
    }

    fn deregister(&mut self, h: u64) -> Result<(), NonBlockError> {
        self.net.deregister(h)
    }

    fn close(&mut self, h: u64) -> Outcome {
        self.net.close(h)
    }

    fn is_file(&self, h: u64) -> bool {
        self.net.is_file(h)
    }

    fn wait(&mut self, limit: Option<u64>, reports: &mut Reports) -> Result<(), NonBlockError> {
        self.net.wait(limit, reports)
    }

    fn bell(&mut self) -> Option<Bell> {
        self.net.bell()
    }
}

impl<'a, N: Sockets, P: NetPlaces> Sockets for Lent<'a, N, P> {
    ghost numbered = { λ old request new now h called. N.numbered old.net.now request new.net.now now h called };

    fn count(&self) -> u64 {
        self.net.count()
    }

    fn listen(&mut self, port: u16) -> Result<u64, NonBlockError> {
        self.net.listen(port)
    }

    fn dial(&mut self, port: u16) -> Result<u64, NonBlockError> {
        self.net.dial(port)
    }
}
