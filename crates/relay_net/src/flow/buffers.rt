// The buffers of a direction.
ghost use Rattle.std.specs.Prelude.{◌≡◌, ◌≤◌, IfOk, drop, length};
ghost use Rattle.rent_buf.specs.Buf.{built, content_of};
ghost use Rattle.rent_buf.specs.Buffer.{Buffer, shown};
ghost use Rattle.machine.specs.Request.{plain_request};
ghost use Rattle.machine.specs.declared.request.Request.TheVariants.{Recv, Send};
ghost use Rattle.relay_net.specs.Flow.{empty_buffer};

use handle_core::SharedFd;
use machine::Request;
use rent_buf::{Buf, IoBufMut, OutOfMemory, Rent, SliceMut, VecBuf};
use std::alloc::Global;

// The buffer of a receive.
pub(crate) fn received_buffer(request: Request<Buf, VecBuf>, from: SharedFd) -> Buf
    requires { (buf : Buffer) × (plain_request built request ≡ Recv from buf) }
    ensures { plain_request built request ≡ Recv from (built result) }
{
    let _ = from;
    match request {
        Request::Recv { fd: _, buf } => buf,
        _ => unreachable!(),
    }
}

// The buffer of a send.
pub(crate) fn sent_buffer(request: Request<Buf, VecBuf>, to: SharedFd) -> Buf
    requires { (buf : Buffer) × (plain_request built request ≡ Send to buf) }
    ensures { plain_request built request ≡ Send to (built result) }
{
    let _ = to;
    match request {
        Request::Send { fd: _, buf } => buf,
        _ => unreachable!(),
    }
}

// The memory of a buffer that is used no more.
pub(crate) fn spare_of(buf: Buf) -> Option<Rent> {
    match buf {
        Buf::Vector(slice) => Some(slice.into_inner()),
        _ => None,
    }
}

// This memory, or else other, which has the whole room.
fn roomy(alloc: Global, room: usize, rent: Rent) -> Result<Rent, OutOfMemory>
    ensures { IfOk result (λ roomy. roomy.total ≡ room) }
{
    if rent.total() == room {
        return Ok(rent);
    }
    Rent::with_total(alloc, room)
}

// An empty buffer for a receive, in memory that was used, where there is some.
pub(crate) fn empty(alloc: Global, room: usize, spare: Option<Rent>) -> Result<Buf, OutOfMemory>
    ensures { IfOk result (λ buf. built buf ≡ empty_buffer room) }
{
    let mut rent = match spare {
        Some(rent) => roomy(alloc, room, rent)?,
        None => Rent::with_total(alloc, room)?,
    };
    rent.clear();
    Ok(Buf::Vector(SliceMut::new(rent, 0, room)))
}

// A range without its first bytes.
fn cut_range<T: IoBufMut>(slice: SliceMut<T>, count: usize) -> SliceMut<T>
    requires { count ≤ length (shown slice.buffer) }
    ensures { shown result.buffer ≡ drop count (shown slice.buffer) }
{
    slice.keeps_bounds();
    let (begin, end) = (slice.begin() + count, slice.end());
    SliceMut::new(slice.into_inner(), begin, end)
}

// A buffer without its first bytes.
pub(crate) fn cut(buf: Buf, count: usize) -> Buf
    requires { count ≤ length (content_of buf) }
    ensures { content_of result ≡ drop count (content_of buf) }
{
    match buf {
        Buf::Vector(slice) => Buf::Vector(cut_range(slice, count)),
        Buf::Grown(slice) => Buf::Grown(cut_range(slice, count)),
        Buf::Fixed(slice) => Buf::Fixed(cut_range(slice, count)),
    }
}
