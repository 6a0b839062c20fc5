// A stream of two: one that is read, and one that is written.
ghost use Rattle.std.specs.Prelude.{◌≡◌};

use crate::split::Split;
use cancel_core::CancelHandle;
use rent_buf::{FixedVec, IoBuf, IoBufMut, IoVecBuf, IoVecBufMut};
use rent_io::{
    AsyncReadRent, AsyncWriteRent, CancelableAsyncReadRent, CancelableAsyncWriteRent, PollBuf,
    PollCount,
};
use std::marker::Model;

/// A stream that reads from one stream and writes to another (not in monoio). A clause sees it as the two.
#[derive(Debug, Drop)]
pub struct Duplex<R, W> {
    read: R,
    write: W,
}

impl<R, W> Model for Duplex<R, W> {
    ghost use Rattle.stream_util.specs.Split.{Two};

    ghost Value = { Two R W };

    ghost view = { λ d. record { read = d.read; write = d.write } };
}

impl<R, W> Duplex<R, W> {
    /// A stream that reads from `read` and writes to `write`.
    pub fn new(read: R, write: W) -> Duplex<R, W>
        ensures { result ≡ record { read = read; write = write } }
    {
        Duplex { read, write }
    }
}

impl<R: AsyncReadRent, W: AsyncWriteRent> Split for Duplex<R, W> {
    type Read = R;

    type Write = W;

    ghost joined = { λ r w. record { read = r; write = w } };

    fn part(self) -> (R, W) {
        let Duplex { read, write } = self;
        (read, write)
    }

    fn join(read: R, write: W) -> Duplex<R, W> {
        Duplex { read, write }
    }
}

impl<R: AsyncReadRent, W> AsyncReadRent for Duplex<R, W> {
    ghost tells = { R.tells };

    ghost reader = { λ d. R.reader d.read };

    fn poll_read<B: IoBufMut>(&mut self, buf: B, task: u64) -> PollBuf<B> {
        self.read.poll_read(buf, task)
    }

    fn poll_readv<B: IoVecBufMut>(&mut self, buf: B, task: u64) -> PollBuf<B> {
        self.read.poll_readv(buf, task)
    }

    fn poll_fixed(&mut self, buf: FixedVec, task: u64) -> PollBuf<FixedVec> {
        self.read.poll_fixed(buf, task)
    }
}

impl<R: CancelableAsyncReadRent, W> CancelableAsyncReadRent for Duplex<R, W> {
    fn poll_cancelable_read<B: IoBufMut>(
        &mut self,
        buf: B,
        c: CancelHandle,
        task: u64,
    ) -> PollBuf<B> {
        self.read.poll_cancelable_read(buf, c, task)
    }

    fn poll_cancelable_readv<B: IoVecBufMut>(
        &mut self,
        buf: B,
        c: CancelHandle,
        task: u64,
    ) -> PollBuf<B> {
        self.read.poll_cancelable_readv(buf, c, task)
    }
}

impl<R, W: AsyncWriteRent> AsyncWriteRent for Duplex<R, W> {
    ghost tells = { W.tells };

    ghost writer = { λ d. W.writer d.write };

    fn poll_write<B: IoBuf>(&mut self, buf: B, task: u64) -> PollBuf<B> {
        self.write.poll_write(buf, task)
    }

    fn poll_writev<B: IoVecBuf>(&mut self, buf: B, task: u64) -> PollBuf<B> {
        self.write.poll_writev(buf, task)
    }

    fn poll_flush(&mut self, task: u64) -> PollCount {
        self.write.poll_flush(task)
    }

    fn poll_shutdown(&mut self, task: u64) -> PollCount {
        self.write.poll_shutdown(task)
    }
}

impl<R, W: CancelableAsyncWriteRent> CancelableAsyncWriteRent for Duplex<R, W> {
    fn poll_cancelable_write<B: IoBuf>(
        &mut self,
        buf: B,
        c: CancelHandle,
        task: u64,
    ) -> PollBuf<B> {
        self.write.poll_cancelable_write(buf, c, task)
    }

    fn poll_cancelable_writev<B: IoVecBuf>(
        &mut self,
        buf: B,
        c: CancelHandle,
        task: u64,
    ) -> PollBuf<B> {
        self.write.poll_cancelable_writev(buf, c, task)
    }

    fn poll_cancelable_flush(&mut self, c: CancelHandle, task: u64) -> PollCount {
        self.write.poll_cancelable_flush(c, task)
    }

    fn poll_cancelable_shutdown(&mut self, c: CancelHandle, task: u64) -> PollCount {
        self.write.poll_cancelable_shutdown(c, task)
    }
}
