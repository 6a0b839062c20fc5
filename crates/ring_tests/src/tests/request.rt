// What requests name, ask and show, what is stored in them, and what they are made into.
use crate::tests::stage::{Why, is_like};
use machine::{Call, Names, Request, SharedFd, Way, append_first, append_first_parts};
use rent_buf::{
    ByteList, Held, IoBuf as _, IoBufMut, IoVecBuf as _, IoVecBufMut as _, OutOfMemory, Rent,
    VecBuf,
};
use std::alloc::Global;
use std::process::Abort;
use std::test::Fail;

// A request that owns a buffer and parts of these types.
type Asked = Request<Rent, VecBuf>;

// A buffer of five bytes that shows `abc`.
fn buffer(alloc: Global) -> Result<Rent, OutOfMemory> {
    let vec = Vec::from_slice(alloc, b"abc")?;
    if vec.len() > 5 {
        return Err(OutOfMemory);
    }
    match Rent::from_vec(vec, 5) {
        Ok(buf) => Ok(buf),
        Err(_) => Err(OutOfMemory),
    }
}

/// These bytes as a vector.
pub(crate) fn list(alloc: Global, bytes: &str) -> Result<Vec<u8>, OutOfMemory> {
    match Vec::from_slice(alloc, bytes.as_bytes()) {
        Ok(list) => Ok(list),
        Err(_) => Err(OutOfMemory),
    }
}

/// The parts of these lists.
pub(crate) fn parts_of<const N: usize>(
    alloc: Global,
    lists: [Vec<u8>; N],
) -> Result<VecBuf, OutOfMemory> {
    let Ok(lists) = Vec::from_array(alloc, lists) else {
        return Err(OutOfMemory);
    };
    match VecBuf::from_parts(lists) {
        Ok(parts) => Ok(parts),
        Err(_) => Err(OutOfMemory),
    }
}

// Parts that show `ab` and `c`.
fn two_parts(alloc: Global) -> Result<VecBuf, OutOfMemory> {
    let first = list(alloc, "ab")?;
    let second = list(alloc, "c")?;
    parts_of(alloc, [first, second])
}

// The form of a request.
#[derive(Clone, Copy, Debug)]
enum Form {
    Recv,
    ReadVec,
    SendMsg,
    SpliceTo,
    Rename,
}

// The request of a form, of the handle 3 and the pipe 2.
fn request_of(alloc: Global, form: Form) -> Result<Asked, OutOfMemory> {
    let fd = SharedFd::new(3);
    match form {
        Form::Recv => Ok(Request::Recv {
            fd,
            buf: buffer(alloc)?,
        }),
        Form::ReadVec => Ok(Request::ReadVec {
            fd,
            parts: two_parts(alloc)?,
        }),
        Form::SendMsg => Ok(Request::SendMsg {
            fd,
            addr: Some(7),
            buf: buffer(alloc)?,
        }),
        Form::SpliceTo => Ok(Request::SpliceTo {
            fd,
            pipe: SharedFd::new(2),
            len: 4000000000,
        }),
        Form::Rename => Ok(Request::Rename {
            from: ByteList::new(alloc),
            to: ByteList::new(alloc),
        }),
    }
}

// What is asked of a request. Each call here makes one call of it, and answers plain values.
trait Asks: Sized {
    // The handles that it names.
    fn names(&self) -> Names;

    // How many they are, and the first of them.
    fn named(&self) -> (usize, Option<u64>);

    // Which way its bytes go.
    fn way(&self) -> Way;

    // The call that it is.
    fn call(&self) -> Call;

    // How many bytes fit what it holds.
    fn room(&self) -> usize;

    // The first nine bytes that it shows.
    fn shown(&self, alloc: Global) -> Result<ByteList, OutOfMemory>;

    // Stores bytes that came, if they fit.
    fn store(&mut self, bytes: &str) -> Result<(), Why>;

    // The first nine bytes of what it held, joined.
    fn joined(self, alloc: Global) -> Result<ByteList, OutOfMemory>;
}

impl<B: IoBufMut + Drop> Asks for Request<B, VecBuf> {
    fn names(&self) -> Names {
        Request::names(self)
    }

    fn named(&self) -> (usize, Option<u64>) {
        let len = self.named_len();
        (
            len,
            if len > 0 {
                Some(self.named_at(0))
            } else {
                None
            },
        )
    }

    fn way(&self) -> Way {
        Request::way(self)
    }

    fn call(&self) -> Call {
        Request::call(self)
    }

    fn room(&self) -> usize {
        Request::room(self)
    }

    fn shown(&self, alloc: Global) -> Result<ByteList, OutOfMemory> {
        let mut list = ByteList::new(alloc);
        self.append_shown(9, &mut list)?;
        Ok(list)
    }

    fn store(&mut self, bytes: &str) -> Result<(), Why> {
        if bytes.len() > Request::room(self) {
            return Err(Why::Unmet);
        }
        Request::store(self, bytes.as_bytes());
        Ok(())
    }

    fn joined(self, alloc: Global) -> Result<ByteList, OutOfMemory> {
        joined(alloc, self.into_held())
    }
}

// The first nine bytes of what a request held, joined.
fn joined<B: IoBufMut + Drop>(
    alloc: Global,
    held: Held<B, VecBuf>,
) -> Result<ByteList, OutOfMemory> {
    let mut list = ByteList::new(alloc);
    match held {
        Held::One(buf) => append_first(&mut list, 9, buf.bytes())?,
        Held::Parts(parts) => append_first_parts(&mut list, 9, &parts)?,
        Held::Nothing => {}
    }
    Ok(list)
}

// The form of a request, its way, its handles, its call, how many bytes fit, and the bytes that it shows.
#[derive(Clone, Copy)]
struct Shows(Form, Way, Names, Call, usize, &'static str);

#[rattlefmt::skip]
const SHOWS: &[Shows] = &[
    Shows(Form::Recv, Way::Reads, Names::One(3), Call::In { h: 3, ask: 5 }, 5, ""),
    Shows(Form::ReadVec, Way::Reads, Names::One(3), Call::In { h: 3, ask: 3 }, 3, ""),
    Shows(Form::SendMsg, Way::Sends, Names::One(3), Call::MessageOut { h: 3, addr: Some(7), ask: 3 }, 0, "abc"),
    Shows(Form::SpliceTo, Way::Neither, Names::Two(2, 3), Call::ToPipe { h: 3, pipe: 2, ask: 2147483647 }, 0, ""),
    Shows(Form::Rename, Way::Neither, Names::Nothing, Call::Path, 0, ""),
];

// How many handles there are, and the first of them.
fn first_of(names: Names) -> (usize, Option<u64>) {
    match names {
        Names::Nothing => (0, None),
        Names::One(h) => (1, Some(h)),
        Names::Two(lower, _) => (2, Some(lower)),
    }
}

// The same, by the calls of the names.
fn asked_of(names: Names) -> (usize, Option<u64>) {
    let len = names.len();
    (len, if len > 0 { Some(names.at(0)) } else { None })
}

// A request is as a row says.
fn is_as<A: Asks>(alloc: Global, request: &A, row: Shows) -> Result<(), Why> {
    let Shows(_, way, names, call, room, bytes) = row;
    is_like(request.names() == names)?;
    is_like(request.named() == first_of(names) && asked_of(names) == first_of(names))?;
    is_like(request.way() == way)?;
    is_like(request.call() == call)?;
    is_like(request.room() == room)?;
    is_like(request.shown(alloc)?.as_slice() == bytes.as_bytes())
}

// A row is as it says.
fn run_row<A: Asks>(rt: &impl Abort, alloc: Global, request: &A, row: Shows) {
    assert_eq!(rt; is_as(alloc, request, row), Ok(()), "of {:?}", row.0);
}

#[test]
fn a_request_says_what_it_names_asks_and_shows(rt: HostRuntime) -> Result<(), Fail> {
    for row in SHOWS {
        let request = request_of(rt.alloc(), row.0)?;
        run_row(&rt, rt.alloc(), &request, *row);
    }
    Ok(())
}

// The form of a request, the bytes that come, and those that it holds then.
#[rattlefmt::skip]
const STORED: [(Form, &str, &str); 4] = [
    (Form::Recv, "xy", "xy"),
    (Form::ReadVec, "xy", "xyc"),
    (Form::SendMsg, "", "abc"),
    (Form::SpliceTo, "", ""),
];

// A request holds this, once bytes came.
fn stores<A: Asks + Drop>(
    alloc: Global,
    mut request: A,
    bytes: &str,
    want: &str,
) -> Result<(), Why> {
    request.store(bytes)?;
    is_like(request.joined(alloc)?.as_slice() == want.as_bytes())
}

#[test]
fn what_comes_is_stored_and_what_is_sent_stays(rt: HostRuntime) -> Result<(), Fail> {
    for (form, bytes, want) in STORED {
        let request = request_of(rt.alloc(), form)?;
        let stored = stores(rt.alloc(), request, bytes, want);
        assert_eq!(rt; stored, Ok(()), "of {form:?}");
    }
    Ok(())
}

// The form of a request, and its size as what it is made into: the bytes of a buffer, the room of parts, or none where it holds nothing.
#[rattlefmt::skip]
const MAPPED: [(Form, Option<usize>); 3] = [
    (Form::SendMsg, Some(3)),
    (Form::ReadVec, Some(3)),
    (Form::Rename, None),
];

// A request, by a map that takes the bytes of a buffer and the room of parts.
fn counted(request: Asked) -> Result<Request<usize, usize>, OutOfMemory> {
    request.try_map(|buf| Ok(buf.bytes_init()), |parts| Ok(parts.total_room()))
}

// The size of a request.
fn size(request: Asked) -> Result<Option<usize>, OutOfMemory> {
    Ok(match counted(request)?.into_held() {
        Held::One(count) | Held::Parts(count) => Some(count),
        Held::Nothing => None,
    })
}

// Whether a map that takes nothing refuses a request.
fn is_refused(request: Asked) -> bool {
    let refused: Result<Request<usize, usize>, OutOfMemory> = request.try_map(
        |_| Err(OutOfMemory),
        |_| Err(OutOfMemory),
    );
    refused.is_err()
}

#[test]
fn a_request_is_mapped_by_what_it_holds(rt: HostRuntime) -> Result<(), Fail> {
    for (form, want) in MAPPED {
        let mapped = size(request_of(rt.alloc(), form)?)?;
        assert_eq!(rt; mapped, want, "of {form:?}");
        let refused = is_refused(request_of(rt.alloc(), form)?);
        assert_eq!(rt; refused, want.is_some(), "of {form:?}");
    }
    Ok(())
}
