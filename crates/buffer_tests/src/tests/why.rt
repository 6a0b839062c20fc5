// How a row of a test ends, and the values that several tests make.
use rent_buf::{ByteList, OutOfMemory, VecBuf};
use std::alloc::{AllocError, AllocFailed, Global};
use std::process::Abort;

/// Why a row of a test isn't as it says.
#[derive(Clone, Copy, Debug, PartialEq, Eq)]
pub(crate) enum Why {
    /// Memory ran out.
    OutOfMemory,
    /// The condition of a call isn't met, and the call wasn't made.
    Unmet,
    /// A call answered otherwise than the row says.
    Unlike,
}

impl From<OutOfMemory> for Why {
    fn from(_: OutOfMemory) -> Why {
        Why::OutOfMemory
    }
}

impl From<AllocError> for Why {
    fn from(_: AllocError) -> Why {
        Why::OutOfMemory
    }
}

impl<T: Drop> From<AllocFailed<T>> for Why {
    fn from(_: AllocFailed<T>) -> Why {
        Why::OutOfMemory
    }
}

/// An answer is like the one that a row says.
pub(crate) fn is_like(like: bool) -> Result<(), Why> {
    if like { Ok(()) } else { Err(Why::Unlike) }
}

/// The row of this name is as it says.
pub(crate) fn ended(rt: &impl Abort, name: &str, row: Result<(), Why>) {
    assert_eq!(rt; row, Ok(()), "in the row {name:?}");
}

/// A vector of the bytes of a text.
pub(crate) fn vec_of(alloc: Global, text: &str) -> Result<Vec<u8>, Why> {
    Ok(Vec::from_slice(alloc, text.as_bytes())?)
}

/// A list of the bytes of a text.
pub(crate) fn list_of(alloc: Global, text: &str) -> Result<ByteList, Why> {
    Ok(ByteList::from_vec(vec_of(alloc, text)?))
}

/// Vectors of these texts.
pub(crate) fn vecs_of(alloc: Global, texts: &[&str]) -> Result<Vec<Vec<u8>>, Why> {
    let mut vecs = Vec::new(alloc);
    for text in texts {
        vecs.push(vec_of(alloc, text)?)?;
    }
    Ok(vecs)
}

/// Vectors of these texts as parts.
pub(crate) fn parts_of(alloc: Global, texts: &[&str]) -> Result<VecBuf, Why> {
    match VecBuf::from_parts(vecs_of(alloc, texts)?) {
        Ok(parts) => Ok(parts),
        Err(_) => Err(Why::OutOfMemory),
    }
}
