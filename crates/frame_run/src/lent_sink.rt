//! A sink that is lent to a writer and comes back.
ghost use Rattle.std.specs.Prelude.{◌≡◌, ◌<◌, ℕ, List, [], true, false};
ghost use Rattle.frame_run.specs.SinkPlace.{SinkAt};

use crate::framing::Framed;
use rent_io::{ByteSink, Failed};
use std::marker::{Brand, PhantomData};

/// How a sink was before the call, as constants of a type, since values that are borrowed for the call speak of them: the name of
/// the sink's borrow, what was taken, and its count of faults; and the text whose messages are written.
pub trait SinkPlaces {
    ghost sink: { ℕ };

    ghost text: { List ℕ };

    ghost taken: { List ℕ };

    ghost write_faults: { ℕ };
}

impl SinkPlaces for Brand {
    ghost sink = { 0 };

    ghost text = { [] };

    ghost taken = { [] };

    ghost write_faults = { 0 };
}

/// A sink, and how the writing to it ended.
pub(crate) struct Written<'b, K> {
    pub(crate) sink: &'b mut K,
    pub(crate) ending: Framed,
}

/// A sink that knows whether it failed.
pub(crate) struct LentSink<'b, K: ByteSink, P: SinkPlaces> {
    sink: &'b mut K,
    failures: u64,
    of: PhantomData<P>,
    ghost home: { SinkAt K.tells P.taken P.write_faults P.sink (K.taken sink.now) (K.faults sink.now) sink.ghost_name failures },
}

/// Lends a sink.
pub(crate) fn lend_sink<'b, K: ByteSink, P: SinkPlaces>(
    written: Written<'b, K>,
) -> LentSink<'b, K, P>
    requires sink { written.sink.ghost_name ≡ P.sink }
    requires taken { K.taken written.sink.now ≡ P.taken }
    requires write_faults { K.faults written.sink.now ≡ P.write_faults }
    ensures sink { result.sink.now ≡ written.entry.sink.now }
    ensures failures { result.failures ≡ 0 }
{
    let Written { sink, ending: _ } = written;
    LentSink {
        sink,
        failures: 0,
        of: PhantomData,
    }
}

/// Gives the sink back.
pub(crate) fn give_sink_back<'b, K: ByteSink, P: SinkPlaces>(
    ending: Framed,
    sink: LentSink<'b, K, P>,
) -> Written<'b, K>
    ensures ending { result.ending ≡ ending }
    ensures sink { result.sink.now ≡ sink.entry.sink.now }
    ensures same_sink { result.sink.ghost_name ≡ P.sink }
{
    let LentSink {
        sink,
        failures: _,
        of: _,
    } = sink;
    Written { sink, ending }
}

impl<'b, K: ByteSink, P: SinkPlaces> LentSink<'b, K, P> {
    /// A write or a flush failed.
    pub(crate) fn has_failed(&self) -> bool
        ensures failed { result ≡ true → 0 < self.now.failures }
        ensures calm { result ≡ false → self.now.failures ≡ 0 }
    {
        self.failures > 0
    }
}

impl<'b, K: ByteSink, P: SinkPlaces> ByteSink for LentSink<'b, K, P> {
    ghost tells = { K.tells };

    ghost taken = { λ s. K.taken s.sink.now };

    ghost faults = { λ s. s.failures };

    ghost is_flushed = { λ s. K.is_flushed s.sink.now };

    fn write(&mut self, bytes: &[u8]) -> Result<usize, Failed> {
        match self.sink.write(bytes) {
            Ok(count) => Ok(count),
            Err(failed) => {
                self.failures = self.failures.saturating_add(1);
                Err(failed)
            }
        }
    }

    fn flush(&mut self) -> Result<(), Failed> {
        match self.sink.flush() {
            Ok(()) => Ok(()),
            Err(failed) => {
                self.failures = self.failures.saturating_add(1);
                Err(failed)
            }
        }
    }
}
