//! Buffers that a request owns: bytes, a stated total, and a range of it.
#![tactic(auto)]

pub mod boxed;
pub mod fault;
pub mod fixed;
pub mod grow;
pub mod held;
pub mod io_buf;
pub mod io_vec_buf;
pub mod kind;
pub mod lists;
pub mod plain;
pub mod plain_parts;
pub mod ranges;
pub mod rent;
pub mod slice;
pub mod vec_wrapper;

pub use fault::{BufResult, IoFault, OutOfMemory};
pub use fixed::FixedVec;
pub use grow::Grow;
pub use held::{Held, HeldBuf};
pub use io_buf::{IoBuf, IoBufMut, LendBytes, StaticBytes, StaticStr};
pub use io_vec_buf::{IoVecBuf, IoVecBufMut, LendParts, PartsError, VecBuf};
pub use kind::Kind;
pub use lists::{ByteList, MessageList, NumList};
pub use plain::{Buf, BufSpec};
pub use plain_parts::PartsSpec;
pub use ranges::Ranges;
pub use rent::Rent;
pub use slice::{Slice, SliceMut};
pub use vec_wrapper::{IoVecWrapper, IoVecWrapperMut};
