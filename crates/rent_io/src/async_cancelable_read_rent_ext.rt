// The reads of a stream under a cancel group, as calls of the stream.
ghost use Rattle.std.specs.Prelude.{◌≡◌, true, false, IfOk, IsOk};
ghost use Rattle.rent_io.specs.ReadExact.{filling};
ghost use Rattle.rent_io.specs.ReadNumber.{number_of};
ghost use Rattle.rent_io.specs.ReadVectoredExact.{scattering};
ghost use Rattle.rent_io.specs.State.{under};

use crate::async_rent_cancelable::CancelableAsyncReadRent;
use crate::read_exact::CancelableReadExact;
use crate::read_number::CancelableReadNumber;
use crate::read_vectored_exact::CancelableReadVectoredExact;
use cancel_core::CancelHandle;
use rent_buf::{IoBufMut, IoVecBufMut, OutOfMemory};
use std::alloc::Global;

/// Whole reads of a stream under a cancel group (monoio: `CancelableAsyncReadRentExt`). Each answers a state, to be polled with the stream.
pub trait CancelableAsyncReadRentExt: CancelableAsyncReadRent {
    /// A read that fills this buffer's range from its start, under the group of `c` (monoio: `cancelable_read_exact`).
    fn cancelable_read_exact<T: IoBufMut>(&self, buf: T, c: CancelHandle) -> CancelableReadExact<T>
        ensures { result ≡ under c (filling (T.buffer buf) (T.under buf) (T.beside buf)) }
    {
        CancelableReadExact::new(buf, c)
    }

    /// A read that fills these parts, from the first on, under the group of `c` (monoio:
    /// `cancelable_read_vectored_exact`). It takes no memory, so the answer is always `Ok`.
    fn cancelable_read_vectored_exact<T: IoVecBufMut>(
        &self,
        buf: T,
        c: CancelHandle,
    ) -> Result<CancelableReadVectoredExact<T>, (OutOfMemory, T)>
        ensures made { IsOk result }
        ensures value { IfOk result (λ s. s ≡ under c (scattering (T.held buf))) }
    {
        CancelableReadVectoredExact::new(buf, c)
    }

    /// A read of a `u8`, its most significant byte first, under the group of `c`; or `OutOfMemory` (monoio: `cancelable_read_u8`).
    fn cancelable_read_u8(
        &self,
        alloc: Global,
        c: CancelHandle,
    ) -> Result<CancelableReadNumber<u8>, OutOfMemory>
        ensures { IfOk result (λ r. r ≡ under c (number_of false 1)) }
    {
        CancelableReadNumber::<u8>::new(alloc, false, c)
    }

    /// A read of a `u8`, its least significant byte first, under the group of `c`; or `OutOfMemory` (monoio: `cancelable_read_u8_le`).
    fn cancelable_read_u8_le(
        &self,
        alloc: Global,
        c: CancelHandle,
    ) -> Result<CancelableReadNumber<u8>, OutOfMemory>
        ensures { IfOk result (λ r. r ≡ under c (number_of true 1)) }
    {
        CancelableReadNumber::<u8>::new(alloc, true, c)
    }

    /// A read of a `u16`, its most significant byte first, under the group of `c`; or `OutOfMemory` (monoio: `cancelable_read_u16`).
    fn cancelable_read_u16(
        &self,
        alloc: Global,
        c: CancelHandle,
    ) -> Result<CancelableReadNumber<u16>, OutOfMemory>
        ensures { IfOk result (λ r. r ≡ under c (number_of false 2)) }
    {
        CancelableReadNumber::<u16>::new(alloc, false, c)
    }

    /// A read of a `u16`, its least significant byte first, under the group of `c`; or `OutOfMemory` (monoio: `cancelable_read_u16_le`).
    fn cancelable_read_u16_le(
        &self,
        alloc: Global,
        c: CancelHandle,
    ) -> Result<CancelableReadNumber<u16>, OutOfMemory>
        ensures { IfOk result (λ r. r ≡ under c (number_of true 2)) }
    {
        CancelableReadNumber::<u16>::new(alloc, true, c)
    }

    /// A read of a `u32`, its most significant byte first, under the group of `c`; or `OutOfMemory` (monoio: `cancelable_read_u32`).
    fn cancelable_read_u32(
        &self,
        alloc: Global,
        c: CancelHandle,
    ) -> Result<CancelableReadNumber<u32>, OutOfMemory>
        ensures { IfOk result (λ r. r ≡ under c (number_of false 4)) }
    {
        CancelableReadNumber::<u32>::new(alloc, false, c)
    }

    /// A read of a `u32`, its least significant byte first, under the group of `c`; or `OutOfMemory` (monoio: `cancelable_read_u32_le`).
    fn cancelable_read_u32_le(
        &self,
        alloc: Global,
        c: CancelHandle,
    ) -> Result<CancelableReadNumber<u32>, OutOfMemory>
        ensures { IfOk result (λ r. r ≡ under c (number_of true 4)) }
    {
        CancelableReadNumber::<u32>::new(alloc, true, c)
    }

    /// A read of a `u64`, its most significant byte first, under the group of `c`; or `OutOfMemory` (monoio: `cancelable_read_u64`).
    fn cancelable_read_u64(
        &self,
        alloc: Global,
        c: CancelHandle,
    ) -> Result<CancelableReadNumber<u64>, OutOfMemory>
        ensures { IfOk result (λ r. r ≡ under c (number_of false 8)) }
    {
        CancelableReadNumber::<u64>::new(alloc, false, c)
    }

    /// A read of a `u64`, its least significant byte first, under the group of `c`; or `OutOfMemory` (monoio: `cancelable_read_u64_le`).
    fn cancelable_read_u64_le(
        &self,
        alloc: Global,
        c: CancelHandle,
    ) -> Result<CancelableReadNumber<u64>, OutOfMemory>
        ensures { IfOk result (λ r. r ≡ under c (number_of true 8)) }
    {
        CancelableReadNumber::<u64>::new(alloc, true, c)
    }

    /// A read of a `u128`, its most significant byte first, under the group of `c`; or `OutOfMemory` (monoio: `cancelable_read_u128`).
    fn cancelable_read_u128(
        &self,
        alloc: Global,
        c: CancelHandle,
    ) -> Result<CancelableReadNumber<u128>, OutOfMemory>
        ensures { IfOk result (λ r. r ≡ under c (number_of false 16)) }
    {
        CancelableReadNumber::<u128>::new(alloc, false, c)
    }

    /// A read of a `u128`, its least significant byte first, under the group of `c`; or `OutOfMemory` (monoio: `cancelable_read_u128_le`).
    fn cancelable_read_u128_le(
        &self,
        alloc: Global,
        c: CancelHandle,
    ) -> Result<CancelableReadNumber<u128>, OutOfMemory>
        ensures { IfOk result (λ r. r ≡ under c (number_of true 16)) }
    {
        CancelableReadNumber::<u128>::new(alloc, true, c)
    }

    /// A read of a `i8`, its most significant byte first, under the group of `c`; or `OutOfMemory` (monoio: `cancelable_read_i8`).
    fn cancelable_read_i8(
        &self,
        alloc: Global,
        c: CancelHandle,
    ) -> Result<CancelableReadNumber<i8>, OutOfMemory>
        ensures { IfOk result (λ r. r ≡ under c (number_of false 1)) }
    {
        CancelableReadNumber::<i8>::new(alloc, false, c)
    }

    /// A read of a `i8`, its least significant byte first, under the group of `c`; or `OutOfMemory` (monoio: `cancelable_read_i8_le`).
    fn cancelable_read_i8_le(
        &self,
        alloc: Global,
        c: CancelHandle,
    ) -> Result<CancelableReadNumber<i8>, OutOfMemory>
        ensures { IfOk result (λ r. r ≡ under c (number_of true 1)) }
    {
        CancelableReadNumber::<i8>::new(alloc, true, c)
    }

    /// A read of a `i16`, its most significant byte first, under the group of `c`; or `OutOfMemory` (monoio: `cancelable_read_i16`).
    fn cancelable_read_i16(
        &self,
        alloc: Global,
        c: CancelHandle,
    ) -> Result<CancelableReadNumber<i16>, OutOfMemory>
        ensures { IfOk result (λ r. r ≡ under c (number_of false 2)) }
    {
        CancelableReadNumber::<i16>::new(alloc, false, c)
    }

    /// A read of a `i16`, its least significant byte first, under the group of `c`; or `OutOfMemory` (monoio: `cancelable_read_i16_le`).
    fn cancelable_read_i16_le(
        &self,
        alloc: Global,
        c: CancelHandle,
    ) -> Result<CancelableReadNumber<i16>, OutOfMemory>
        ensures { IfOk result (λ r. r ≡ under c (number_of true 2)) }
    {
        CancelableReadNumber::<i16>::new(alloc, true, c)
    }

    /// A read of a `i32`, its most significant byte first, under the group of `c`; or `OutOfMemory` (monoio: `cancelable_read_i32`).
    fn cancelable_read_i32(
        &self,
        alloc: Global,
        c: CancelHandle,
    ) -> Result<CancelableReadNumber<i32>, OutOfMemory>
        ensures { IfOk result (λ r. r ≡ under c (number_of false 4)) }
    {
        CancelableReadNumber::<i32>::new(alloc, false, c)
    }

    /// A read of a `i32`, its least significant byte first, under the group of `c`; or `OutOfMemory` (monoio: `cancelable_read_i32_le`).
    fn cancelable_read_i32_le(
        &self,
        alloc: Global,
        c: CancelHandle,
    ) -> Result<CancelableReadNumber<i32>, OutOfMemory>
        ensures { IfOk result (λ r. r ≡ under c (number_of true 4)) }
    {
        CancelableReadNumber::<i32>::new(alloc, true, c)
    }

    /// A read of a `i64`, its most significant byte first, under the group of `c`; or `OutOfMemory` (monoio: `cancelable_read_i64`).
    fn cancelable_read_i64(
        &self,
        alloc: Global,
        c: CancelHandle,
    ) -> Result<CancelableReadNumber<i64>, OutOfMemory>
        ensures { IfOk result (λ r. r ≡ under c (number_of false 8)) }
    {
        CancelableReadNumber::<i64>::new(alloc, false, c)
    }

    /// A read of a `i64`, its least significant byte first, under the group of `c`; or `OutOfMemory` (monoio: `cancelable_read_i64_le`).
    fn cancelable_read_i64_le(
        &self,
        alloc: Global,
        c: CancelHandle,
    ) -> Result<CancelableReadNumber<i64>, OutOfMemory>
        ensures { IfOk result (λ r. r ≡ under c (number_of true 8)) }
    {
        CancelableReadNumber::<i64>::new(alloc, true, c)
    }

    /// A read of a `i128`, its most significant byte first, under the group of `c`; or `OutOfMemory` (monoio: `cancelable_read_i128`).
    fn cancelable_read_i128(
        &self,
        alloc: Global,
        c: CancelHandle,
    ) -> Result<CancelableReadNumber<i128>, OutOfMemory>
        ensures { IfOk result (λ r. r ≡ under c (number_of false 16)) }
    {
        CancelableReadNumber::<i128>::new(alloc, false, c)
    }

    /// A read of a `i128`, its least significant byte first, under the group of `c`; or `OutOfMemory` (monoio: `cancelable_read_i128_le`).
    fn cancelable_read_i128_le(
        &self,
        alloc: Global,
        c: CancelHandle,
    ) -> Result<CancelableReadNumber<i128>, OutOfMemory>
        ensures { IfOk result (λ r. r ≡ under c (number_of true 16)) }
    {
        CancelableReadNumber::<i128>::new(alloc, true, c)
    }
}

impl<A: CancelableAsyncReadRent> CancelableAsyncReadRentExt for A {}
