// The reads of a stream, as calls of the stream.
ghost use Rattle.std.specs.Prelude.{◌≡◌, true, false, IfOk, IsOk};
ghost use Rattle.rent_io.specs.ReadExact.{filling};
ghost use Rattle.rent_io.specs.ReadNumber.{number_of};
ghost use Rattle.rent_io.specs.ReadVectoredExact.{scattering};
ghost use Rattle.rent_io.specs.State.{plain};

use crate::async_read_rent::AsyncReadRent;
use crate::read_exact::ReadExact;
use crate::read_number::ReadNumber;
use crate::read_vectored_exact::ReadVectoredExact;
use rent_buf::{IoBufMut, IoVecBufMut, OutOfMemory};
use std::alloc::Global;

/// Whole reads of a stream (monoio: `AsyncReadRentExt`). Each answers a state, to be polled with the stream.
pub trait AsyncReadRentExt: AsyncReadRent {
    /// A read that fills this buffer's range from its start (monoio: `read_exact`).
    fn read_exact<T: IoBufMut>(&self, buf: T) -> ReadExact<T>
        ensures { result ≡ plain (filling (T.buffer buf) (T.under buf) (T.beside buf)) }
    {
        ReadExact::new(buf)
    }

    /// A read that fills these parts, from the first on (monoio: `read_vectored_exact`). It takes no memory, so the
    /// answer is always `Ok`.
    fn read_vectored_exact<T: IoVecBufMut>(
        &self,
        buf: T,
    ) -> Result<ReadVectoredExact<T>, (OutOfMemory, T)>
        ensures made { IsOk result }
        ensures value { IfOk result (λ s. s ≡ plain (scattering (T.held buf))) }
    {
        ReadVectoredExact::new(buf)
    }

    /// A read of a `u8`, its most significant byte first; or `OutOfMemory` (monoio: `read_u8`).
    fn read_u8(&self, alloc: Global) -> Result<ReadNumber<u8>, OutOfMemory>
        ensures { IfOk result (λ r. r ≡ plain (number_of false 1)) }
    {
        ReadNumber::<u8>::new(alloc, false)
    }

    /// A read of a `u8`, its least significant byte first; or `OutOfMemory` (monoio: `read_u8_le`).
    fn read_u8_le(&self, alloc: Global) -> Result<ReadNumber<u8>, OutOfMemory>
        ensures { IfOk result (λ r. r ≡ plain (number_of true 1)) }
    {
        ReadNumber::<u8>::new(alloc, true)
    }

    /// A read of a `u16`, its most significant byte first; or `OutOfMemory` (monoio: `read_u16`).
    fn read_u16(&self, alloc: Global) -> Result<ReadNumber<u16>, OutOfMemory>
        ensures { IfOk result (λ r. r ≡ plain (number_of false 2)) }
    {
        ReadNumber::<u16>::new(alloc, false)
    }

    /// A read of a `u16`, its least significant byte first; or `OutOfMemory` (monoio: `read_u16_le`).
    fn read_u16_le(&self, alloc: Global) -> Result<ReadNumber<u16>, OutOfMemory>
        ensures { IfOk result (λ r. r ≡ plain (number_of true 2)) }
    {
        ReadNumber::<u16>::new(alloc, true)
    }

    /// A read of a `u32`, its most significant byte first; or `OutOfMemory` (monoio: `read_u32`).
    fn read_u32(&self, alloc: Global) -> Result<ReadNumber<u32>, OutOfMemory>
        ensures { IfOk result (λ r. r ≡ plain (number_of false 4)) }
    {
        ReadNumber::<u32>::new(alloc, false)
    }

    /// A read of a `u32`, its least significant byte first; or `OutOfMemory` (monoio: `read_u32_le`).
    fn read_u32_le(&self, alloc: Global) -> Result<ReadNumber<u32>, OutOfMemory>
        ensures { IfOk result (λ r. r ≡ plain (number_of true 4)) }
    {
        ReadNumber::<u32>::new(alloc, true)
    }

    /// A read of a `u64`, its most significant byte first; or `OutOfMemory` (monoio: `read_u64`).
    fn read_u64(&self, alloc: Global) -> Result<ReadNumber<u64>, OutOfMemory>
        ensures { IfOk result (λ r. r ≡ plain (number_of false 8)) }
    {
        ReadNumber::<u64>::new(alloc, false)
    }

    /// A read of a `u64`, its least significant byte first; or `OutOfMemory` (monoio: `read_u64_le`).
    fn read_u64_le(&self, alloc: Global) -> Result<ReadNumber<u64>, OutOfMemory>
        ensures { IfOk result (λ r. r ≡ plain (number_of true 8)) }
    {
        ReadNumber::<u64>::new(alloc, true)
    }

    /// A read of a `u128`, its most significant byte first; or `OutOfMemory` (monoio: `read_u128`).
    fn read_u128(&self, alloc: Global) -> Result<ReadNumber<u128>, OutOfMemory>
        ensures { IfOk result (λ r. r ≡ plain (number_of false 16)) }
    {
        ReadNumber::<u128>::new(alloc, false)
    }

    /// A read of a `u128`, its least significant byte first; or `OutOfMemory` (monoio: `read_u128_le`).
    fn read_u128_le(&self, alloc: Global) -> Result<ReadNumber<u128>, OutOfMemory>
        ensures { IfOk result (λ r. r ≡ plain (number_of true 16)) }
    {
        ReadNumber::<u128>::new(alloc, true)
    }

    /// A read of a `i8`, its most significant byte first; or `OutOfMemory` (monoio: `read_i8`).
    fn read_i8(&self, alloc: Global) -> Result<ReadNumber<i8>, OutOfMemory>
        ensures { IfOk result (λ r. r ≡ plain (number_of false 1)) }
    {
        ReadNumber::<i8>::new(alloc, false)
    }

    /// A read of a `i8`, its least significant byte first; or `OutOfMemory` (monoio: `read_i8_le`).
    fn read_i8_le(&self, alloc: Global) -> Result<ReadNumber<i8>, OutOfMemory>
        ensures { IfOk result (λ r. r ≡ plain (number_of true 1)) }
    {
        ReadNumber::<i8>::new(alloc, true)
    }

    /// A read of a `i16`, its most significant byte first; or `OutOfMemory` (monoio: `read_i16`).
    fn read_i16(&self, alloc: Global) -> Result<ReadNumber<i16>, OutOfMemory>
        ensures { IfOk result (λ r. r ≡ plain (number_of false 2)) }
    {
        ReadNumber::<i16>::new(alloc, false)
    }

    /// A read of a `i16`, its least significant byte first; or `OutOfMemory` (monoio: `read_i16_le`).
    fn read_i16_le(&self, alloc: Global) -> Result<ReadNumber<i16>, OutOfMemory>
        ensures { IfOk result (λ r. r ≡ plain (number_of true 2)) }
    {
        ReadNumber::<i16>::new(alloc, true)
    }

    /// A read of a `i32`, its most significant byte first; or `OutOfMemory` (monoio: `read_i32`).
    fn read_i32(&self, alloc: Global) -> Result<ReadNumber<i32>, OutOfMemory>
        ensures { IfOk result (λ r. r ≡ plain (number_of false 4)) }
    {
        ReadNumber::<i32>::new(alloc, false)
    }

    /// A read of a `i32`, its least significant byte first; or `OutOfMemory` (monoio: `read_i32_le`).
    fn read_i32_le(&self, alloc: Global) -> Result<ReadNumber<i32>, OutOfMemory>
        ensures { IfOk result (λ r. r ≡ plain (number_of true 4)) }
    {
        ReadNumber::<i32>::new(alloc, true)
    }

    /// A read of a `i64`, its most significant byte first; or `OutOfMemory` (monoio: `read_i64`).
    fn read_i64(&self, alloc: Global) -> Result<ReadNumber<i64>, OutOfMemory>
        ensures { IfOk result (λ r. r ≡ plain (number_of false 8)) }
    {
        ReadNumber::<i64>::new(alloc, false)
    }

    /// A read of a `i64`, its least significant byte first; or `OutOfMemory` (monoio: `read_i64_le`).
    fn read_i64_le(&self, alloc: Global) -> Result<ReadNumber<i64>, OutOfMemory>
        ensures { IfOk result (λ r. r ≡ plain (number_of true 8)) }
    {
        ReadNumber::<i64>::new(alloc, true)
    }

    /// A read of a `i128`, its most significant byte first; or `OutOfMemory` (monoio: `read_i128`).
    fn read_i128(&self, alloc: Global) -> Result<ReadNumber<i128>, OutOfMemory>
        ensures { IfOk result (λ r. r ≡ plain (number_of false 16)) }
    {
        ReadNumber::<i128>::new(alloc, false)
    }

    /// A read of a `i128`, its least significant byte first; or `OutOfMemory` (monoio: `read_i128_le`).
    fn read_i128_le(&self, alloc: Global) -> Result<ReadNumber<i128>, OutOfMemory>
        ensures { IfOk result (λ r. r ≡ plain (number_of true 16)) }
    {
        ReadNumber::<i128>::new(alloc, true)
    }
}

impl<A: AsyncReadRent> AsyncReadRentExt for A {}
