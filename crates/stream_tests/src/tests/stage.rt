// What tests do with a stream: each call here makes one call of the stream, or reads or writes all, and answers plain values.
use crate::tests::base::{Why, going, made, parted, whole};
use cancel_core::CancelHandle;
use rent_buf::{Ranges, Rent, VecBuf};
use rent_io::{
    AsyncReadRent, AsyncReadRentExt, AsyncWriteRent, AsyncWriteRentExt, CancelableAsyncReadRent,
    CancelableAsyncReadRentExt, CancelableAsyncWriteRent, CancelableAsyncWriteRentExt, PollCount,
};

/// A stream that is read.
pub(crate) trait Reads {
    /// A read into a buffer, or a read that fills it.
    fn read(&mut self, buf: Rent, exact: bool) -> Result<(PollCount, Rent), Why>;

    /// A read into parts, or a read that fills them.
    fn read_parts(&mut self, parts: VecBuf, exact: bool) -> Result<(PollCount, VecBuf), Why>;
}

/// A stream that is written.
pub(crate) trait Writes {
    /// A write of a buffer, or of all of it.
    fn write(&mut self, bytes: Vec<u8>, all: bool) -> Result<(PollCount, Vec<u8>), Why>;

    /// A write of parts, or of all of them.
    fn write_parts(&mut self, parts: VecBuf, all: bool) -> Result<PollCount, Why>;

    /// A flush.
    fn flush(&mut self) -> PollCount;

    /// A shutdown.
    fn shutdown(&mut self) -> PollCount;
}

/// A stream whose plain calls are made. A read or a write of all is polled nine times at most.
#[derive(Drop)]
pub(crate) struct Plain<A> {
    pub io: A,
}

/// A stream whose calls are made under a cancel group. A read or a write of all is polled once, after no polls.
#[derive(Drop)]
pub(crate) struct Under<A> {
    pub io: A,
    pub c: CancelHandle,
}

impl<A: AsyncReadRent> Reads for Plain<A> {
    fn read(&mut self, buf: Rent, exact: bool) -> Result<(PollCount, Rent), Why> {
        if !exact {
            return Ok(parted(self.io.poll_read(buf, 0)));
        }
        whole(self.io.read_exact(buf).drive(&mut self.io, 0, 9))
    }

    fn read_parts(&mut self, parts: VecBuf, exact: bool) -> Result<(PollCount, VecBuf), Why> {
        if !exact {
            return Ok(parted(self.io.poll_readv(parts, 0)));
        }
        whole(made(self.io.read_vectored_exact(parts))?.drive(&mut self.io, 0, 9))
    }
}

impl<A: AsyncWriteRent> Writes for Plain<A> {
    fn write(&mut self, bytes: Vec<u8>, all: bool) -> Result<(PollCount, Vec<u8>), Why> {
        if !all {
            return Ok(parted(self.io.poll_write(bytes, 0)));
        }
        whole(AsyncWriteRentExt::write_all(&self.io, bytes).drive(&mut self.io, 0, 9))
    }

    fn write_parts(&mut self, parts: VecBuf, all: bool) -> Result<PollCount, Why> {
        if !all {
            return Ok(parted(self.io.poll_writev(parts, 0)).0);
        }
        if !Ranges::read_fits(&parts) {
            return Err(Why::Unmet);
        }
        let state = made(AsyncWriteRentExt::write_vectored_all(&self.io, parts))?;
        Ok(whole(state.drive(&mut self.io, 0, 9))?.0)
    }

    fn flush(&mut self) -> PollCount {
        self.io.poll_flush(0)
    }

    fn shutdown(&mut self) -> PollCount {
        self.io.poll_shutdown(0)
    }
}

impl<A: CancelableAsyncReadRent> Reads for Under<A> {
    fn read(&mut self, buf: Rent, exact: bool) -> Result<(PollCount, Rent), Why> {
        if !exact {
            return Ok(parted(self.io.poll_cancelable_read(buf, self.c, 0)));
        }
        let state = self.io.cancelable_read_exact(buf, self.c);
        whole(going(state.drive(&mut self.io, 0, 0))?.poll(&mut self.io, 0))
    }

    fn read_parts(&mut self, parts: VecBuf, exact: bool) -> Result<(PollCount, VecBuf), Why> {
        if !exact {
            return Ok(parted(self.io.poll_cancelable_readv(parts, self.c, 0)));
        }
        let state = made(self.io.cancelable_read_vectored_exact(parts, self.c))?;
        whole(going(state.drive(&mut self.io, 0, 0))?.poll(&mut self.io, 0))
    }
}

impl<A: CancelableAsyncWriteRent> Writes for Under<A> {
    fn write(&mut self, bytes: Vec<u8>, all: bool) -> Result<(PollCount, Vec<u8>), Why> {
        if !all {
            return Ok(parted(self.io.poll_cancelable_write(bytes, self.c, 0)));
        }
        let state = CancelableAsyncWriteRentExt::write_all(&self.io, bytes, self.c);
        whole(going(state.drive(&mut self.io, 0, 0))?.poll(&mut self.io, 0))
    }

    fn write_parts(&mut self, parts: VecBuf, all: bool) -> Result<PollCount, Why> {
        if !all {
            return Ok(parted(self.io.poll_cancelable_writev(parts, self.c, 0)).0);
        }
        if !Ranges::read_fits(&parts) {
            return Err(Why::Unmet);
        }
        let state = made(CancelableAsyncWriteRentExt::write_vectored_all(&self.io, parts, self.c))?;
        Ok(whole(going(state.drive(&mut self.io, 0, 0))?.poll(&mut self.io, 0))?.0)
    }

    fn flush(&mut self) -> PollCount {
        self.io.poll_cancelable_flush(self.c, 0)
    }

    fn shutdown(&mut self) -> PollCount {
        self.io.poll_cancelable_shutdown(self.c, 0)
    }
}
