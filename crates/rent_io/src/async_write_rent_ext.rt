// The whole writes of a stream, as calls of the stream.
ghost use Rattle.std.specs.Prelude.{◌≡◌, ◌^◌, ◌<◌, length, sum_by, IsOk, IfOk};
ghost use Rattle.rent_io.specs.State.{plain, under};
ghost use Rattle.rent_io.specs.WriteAll.{sending, sending_parts};

use crate::async_rent_cancelable::CancelableAsyncWriteRent;
use crate::async_write_rent::AsyncWriteRent;
use crate::write_all::{CancelableWriteAll, WriteAll};
use crate::write_vectored_all::{CancelableWriteVectoredAll, WriteVectoredAll};
use cancel_core::CancelHandle;
use rent_buf::{IoBuf, IoVecBuf, OutOfMemory};

/// Whole writes of a stream (monoio: `AsyncWriteRentExt`). Each answers a state, to be polled with the stream.
pub trait AsyncWriteRentExt: AsyncWriteRent {
    /// A write of this buffer's bytes (monoio: `write_all`).
    fn write_all<T: IoBuf>(&self, buf: T) -> WriteAll<T>
        ensures { result ≡ plain (sending buf (T.content buf)) }
    {
        WriteAll::new(buf)
    }

    /// A write of the parts' bytes, in order (monoio: `write_vectored_all`). `Ranges::read_fits` tests whether their
    /// number fits `usize`. It takes no memory, so the answer is always `Ok`.
    fn write_vectored_all<T: IoVecBuf>(
        &self,
        buf: T,
    ) -> Result<WriteVectoredAll<T>, (OutOfMemory, T)>
        requires { sum_by length (T.parts buf) < 2 ^ 64 }
        ensures made { IsOk result }
        ensures value { IfOk result (λ s. s ≡ plain (sending_parts buf (T.parts buf))) }
    {
        WriteVectoredAll::new(buf)
    }
}

impl<A: AsyncWriteRent> AsyncWriteRentExt for A {}

/// Whole writes of a stream under a cancel group (monoio: `CancelableAsyncWriteRentExt`). Each answers a state, to be
/// polled with the stream.
pub trait CancelableAsyncWriteRentExt: CancelableAsyncWriteRent {
    /// A write of this buffer's bytes, under the group of `c` (monoio: `write_all`).
    fn write_all<T: IoBuf>(&self, buf: T, c: CancelHandle) -> CancelableWriteAll<T>
        ensures { result ≡ under c (sending buf (T.content buf)) }
    {
        CancelableWriteAll::new(buf, c)
    }

    /// A write of the parts' bytes, in order, under the group of `c` (monoio: `write_vectored_all`). It takes no memory,
    /// so the answer is always `Ok`.
    fn write_vectored_all<T: IoVecBuf>(
        &self,
        buf: T,
        c: CancelHandle,
    ) -> Result<CancelableWriteVectoredAll<T>, (OutOfMemory, T)>
        requires { sum_by length (T.parts buf) < 2 ^ 64 }
        ensures made { IsOk result }
        ensures value { IfOk result (λ s. s ≡ under c (sending_parts buf (T.parts buf))) }
    {
        CancelableWriteVectoredAll::new(buf, c)
    }
}

impl<A: CancelableAsyncWriteRent> CancelableAsyncWriteRentExt for A {}
