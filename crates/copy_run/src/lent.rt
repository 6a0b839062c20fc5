//! A source and a sink that are lent to streams and come back.
ghost use Rattle.std.specs.Prelude.{◌≡◌, ℕ, List, []};
ghost use Rattle.copy_run.specs.Places.{SourceAt, SinkAt};

use crate::copying::Ending;
use rent_io::{ByteSink, ByteSource, Failed};
use std::marker::{Brand, PhantomData};

/// How a source and a sink were when a copy began, as constants of a type, since values that are borrowed for the copy speak of
/// them: the names of the two borrows, what was left and what was taken, and the counts of faults; the prefix of the copy, and
/// how many bytes of the source it copies at most.
pub trait Places {
    ghost source: { ℕ };

    ghost sink: { ℕ };

    ghost most: { ℕ };

    ghost prefix: { List ℕ };

    ghost left: { List ℕ };

    ghost taken: { List ℕ };

    ghost read_faults: { ℕ };

    ghost write_faults: { ℕ };
}

impl Places for Brand {
    ghost source = { 0 };

    ghost sink = { 0 };

    ghost most = { 0 };

    ghost prefix = { [] };

    ghost left = { [] };

    ghost taken = { [] };

    ghost read_faults = { 0 };

    ghost write_faults = { 0 };
}

/// The ends of a copy, and how it ended.
pub(crate) struct Ends<'a, 'b, S, K> {
    pub(crate) source: &'a mut S,
    pub(crate) sink: &'b mut K,
    pub(crate) ending: Ending,
}

/// A source that is lent.
pub(crate) struct LentSource<'a, S: ByteSource, P: Places> {
    source: &'a mut S,
    of: PhantomData<P>,
    ghost home: { SourceAt S.tells P.left P.read_faults P.source (S.left source.now) (S.faults source.now) source.ghost_name },
}

/// A sink that is lent.
pub(crate) struct LentSink<'b, K: ByteSink, P: Places> {
    sink: &'b mut K,
    of: PhantomData<P>,
    ghost home: { SinkAt K.tells P.taken P.write_faults P.sink (K.taken sink.now) (K.faults sink.now) sink.ghost_name },
}

/// Both.
pub(crate) struct Lents<'a, 'b, S: ByteSource, K: ByteSink, P: Places> {
    pub(crate) source: LentSource<'a, S, P>,
    pub(crate) sink: LentSink<'b, K, P>,
}

/// Lends both ends.
pub(crate) fn lend<'a, 'b, S: ByteSource, K: ByteSink, P: Places>(
    ends: Ends<'a, 'b, S, K>,
) -> Lents<'a, 'b, S, K, P>
    requires source { ends.source.ghost_name ≡ P.source }
    requires sink { ends.sink.ghost_name ≡ P.sink }
    requires left { S.left ends.source.now ≡ P.left }
    requires taken { K.taken ends.sink.now ≡ P.taken }
    requires read_faults { S.faults ends.source.now ≡ P.read_faults }
    requires write_faults { K.faults ends.sink.now ≡ P.write_faults }
    ensures source { result.source.source.now ≡ ends.entry.source.now }
    ensures sink { result.sink.sink.now ≡ ends.entry.sink.now }
{
    let Ends {
        source,
        sink,
        ending: _,
    } = ends;
    Lents {
        source: LentSource {
            source,
            of: PhantomData,
        },
        sink: LentSink {
            sink,
            of: PhantomData,
        },
    }
}

/// Gives both ends back.
pub(crate) fn give_back<'a, 'b, S: ByteSource, K: ByteSink, P: Places>(
    ending: Ending,
    source: LentSource<'a, S, P>,
    sink: LentSink<'b, K, P>,
) -> Ends<'a, 'b, S, K>
    ensures ending { result.ending ≡ ending }
    ensures source { result.source.now ≡ source.entry.source.now }
    ensures sink { result.sink.now ≡ sink.entry.sink.now }
    ensures same_source { result.source.ghost_name ≡ P.source }
    ensures same_sink { result.sink.ghost_name ≡ P.sink }
{
    let LentSource { source, of: _ } = source;
    let LentSink { sink, of: _ } = sink;
    Ends {
        source,
        sink,
        ending,
    }
}

impl<'a, S: ByteSource, P: Places> ByteSource for LentSource<'a, S, P> {
    ghost tells = { S.tells };

    ghost left = { λ s. S.left s.source.now };

    ghost faults = { λ s. S.faults s.source.now };

    #[tactic(auto, using(crate::proofs::Endings::gave_more))]
    fn read(&mut self, room: &mut [u8]) -> Result<usize, Failed> {
        self.source.read(room)
    }
}

impl<'b, K: ByteSink, P: Places> ByteSink for LentSink<'b, K, P> {
    ghost tells = { K.tells };

    ghost taken = { λ s. K.taken s.sink.now };

    ghost faults = { λ s. K.faults s.sink.now };

    ghost is_flushed = { λ s. K.is_flushed s.sink.now };

    fn write(&mut self, bytes: &[u8]) -> Result<usize, Failed> {
        self.sink.write(bytes)
    }

    fn flush(&mut self) -> Result<(), Failed> {
        self.sink.flush()
    }
}
