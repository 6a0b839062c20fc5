// A source as a stream.
ghost use Rattle.std.specs.Prelude.{◌≡◌, ◌≤◌, None, IfOk, IfErr};
ghost use Rattle.rent_buf.specs.Buffer.{room};
ghost use Rattle.rent_io.specs.Counts.{AfterCall};
ghost use Rattle.rent_io.specs.Polls.{CountsNone, IsCaused};
ghost use Rattle.rent_io.specs.Reader.{Reads, ReadsParts, IfGiven, first_room as room_of, source_reader};

use crate::async_read_rent::AsyncReadRent;
use crate::poll::PollBuf;
use crate::source::ByteSource;
use crate::vectored::first_room;
use rent_buf::{FixedVec, IoBufMut, IoFault, IoVecBufMut, OutOfMemory};
use std::alloc::Global;
use std::marker::Model;

/// The most bytes that one read of a `SourceStream` asks its source for.
pub const PIECE: usize = 4096;

/// A source as a stream (not in monoio). It never pauses. A clause sees the source.
#[derive(Debug, Drop)]
pub struct SourceStream<S: ByteSource> {
    source: S,
    piece: Vec<u8>,
}

impl<S: ByteSource> Model for SourceStream<S> {
    ghost use Rattle.std.specs.Prelude.{◌≡◌, length};
    ghost use Rattle.rent_io.specs.declared.source_stream.TheConstants.{PIECE};

    ghost Value = { S };

    ghost view = { λ s. s.source };

    ghost invariant = { λ s. length s.piece.items ≡ PIECE };
}

impl<S: ByteSource> SourceStream<S> {
    /// A stream of a source. If memory runs out, the same source comes back.
    pub fn new(alloc: Global, source: S) -> Result<SourceStream<S>, (OutOfMemory, S)>
        ensures ok { IfOk result (λ s. s ≡ source) }
        ensures err { IfErr result (λ refused. refused.1 ≡ source) }
    {
        match vec![in alloc; 0; PIECE] {
            Ok(piece) => Ok(SourceStream { source, piece }),
            Err(_) => Err((OutOfMemory, source)),
        }
    }

    /// The source, lent.
    pub fn get_ref(&self) -> &S
        ensures { result.now ≡ self.now }
    {
        &self.source
    }

    /// The source.
    pub fn into_inner(self) -> S
        ensures { result ≡ self }
    {
        let SourceStream { source, piece: _ } = self;
        source
    }
}

impl<S: ByteSource> AsyncReadRent for SourceStream<S> {
    ghost tells = { S.tells };

    ghost reader = { λ s. source_reader (S.left s) (S.faults s) };

    /// One read of the source, of 4096 bytes at most. `ReadFault` where the source failed.
    #[tactic(auto, using(crate::proofs::Pieces::taken_piece))]
    fn poll_read<T: IoBufMut>(&mut self, buf: T, _task: u64) -> PollBuf<T>
        ensures reads { Reads S.tells (S.left self.old) (S.left self.new) T.buffer T.under T.beside buf result }
        ensures none { CountsNone (room (T.buffer buf)) (source_reader (S.left self.old) (S.faults self.old)).counts
            (source_reader (S.left self.new) (S.faults self.new)).counts result }
        ensures cause { IsCaused _task (source_reader (S.left self.old) (S.faults self.old)).counts
            (source_reader (S.left self.new) (S.faults self.new)).counts result }
        ensures counts { AfterCall None (source_reader (S.left self.old) (S.faults self.old)).counts
            (source_reader (S.left self.new) (S.faults self.new)).counts }
        ensures most { IfGiven result (λ n. n ≤ PIECE) }
    {
        let mut buf = buf;
        let room = buf.bytes_total().min(self.piece.len());
        let piece = self.piece.slice_mut(0..room);
        match self.source.read(piece) {
            Ok(count) => {
                let (front, _) = piece.split_at(count);
                buf.store(0, front);
                PollBuf::Ready(Ok(count), buf)
            }
            Err(_) => PollBuf::Ready(Err(IoFault::ReadFault), buf),
        }
    }

    /// One read of the source, of 4096 bytes at most. `ReadFault` where the source failed.
    #[tactic(auto, using(crate::proofs::Pieces::scattered_piece))]
    fn poll_readv<T: IoVecBufMut>(&mut self, buf: T, _task: u64) -> PollBuf<T>
        ensures reads { ReadsParts S.tells (S.left self.old) (S.left self.new) T.held buf result }
        ensures none { CountsNone (room_of (T.held buf)) (source_reader (S.left self.old) (S.faults self.old)).counts
            (source_reader (S.left self.new) (S.faults self.new)).counts result }
        ensures cause { IsCaused _task (source_reader (S.left self.old) (S.faults self.old)).counts
            (source_reader (S.left self.new) (S.faults self.new)).counts result }
        ensures counts { AfterCall None (source_reader (S.left self.old) (S.faults self.old)).counts
            (source_reader (S.left self.new) (S.faults self.new)).counts }
        ensures most { IfGiven result (λ n. n ≤ PIECE) }
    {
        let mut buf = buf;
        let room = first_room(&buf).min(self.piece.len());
        let piece = self.piece.slice_mut(0..room);
        match self.source.read(piece) {
            Ok(count) => {
                let (front, _) = piece.split_at(count);
                buf.store_front(front);
                PollBuf::Ready(Ok(count), buf)
            }
            Err(_) => PollBuf::Ready(Err(IoFault::ReadFault), buf),
        }
    }

    /// One read of the source, of the whole buffer. `ReadFault` where the source failed.
    #[tactic(auto, using(crate::proofs::Pieces::front_read))]
    fn poll_fixed(&mut self, buf: FixedVec, _task: u64) -> PollBuf<FixedVec> {
        let mut items = buf.into_vec();
        match self.source.read(items.as_mut_slice()) {
            Ok(count) => PollBuf::Ready(Ok(count), FixedVec::from_vec(items)),
            Err(_) => PollBuf::Ready(Err(IoFault::ReadFault), FixedVec::from_vec(items)),
        }
    }
}
