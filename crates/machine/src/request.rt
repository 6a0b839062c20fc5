//! What is asked of the ring, and how it ended. (monoio: `driver::op`)
ghost use Rattle.std.specs.Prelude.{◌≡◌};
ghost use Rattle.machine.specs.Effect.{made_by};

use handle_core::SharedFd;
use rent_buf::ByteList;

mod bytes;
mod copy;
mod parts;

/// The most bytes that one request asks for.
pub const MOST_ASKED: usize = 2147483647;

/// The error of a canceled operation. (monoio: `operation_canceled`)
pub const CANCELED: u16 = 125;

/// The greatest error number. (Linux: `MAX_ERRNO`)
pub const LAST_ERROR: u16 = 4095;

/// A request, with the buffer, or the vector of buffers, that it owns until it is returned. (monoio: the `OpAble` types)
#[derive(Debug, Drop)]
pub enum Request<B, V> {
    /// Read bytes from a handle into the range of a buffer. (monoio: `Recv`)
    Recv {
        /// The handle that is read.
        fd: SharedFd,
        /// The buffer that is filled.
        buf: B,
    },
    /// Read bytes from a handle into the parts of a vector of buffers, in order. (monoio: `ReadVec`)
    ReadVec {
        /// The handle that is read.
        fd: SharedFd,
        /// The parts that are filled.
        parts: V,
    },
    /// Send the bytes that the range of a buffer shows. (monoio: `Send`)
    Send {
        /// The handle that takes them.
        fd: SharedFd,
        /// The buffer that is sent.
        buf: B,
    },
    /// Send the bytes of the parts of a vector of buffers, in order. (monoio: `WriteVec`)
    WriteVec {
        /// The handle that takes them.
        fd: SharedFd,
        /// The parts that are sent.
        parts: V,
    },
    /// Receive one message of a datagram, and its address. (monoio: `RecvMsg`)
    RecvMsg {
        /// The datagram.
        fd: SharedFd,
        /// The buffer that is filled.
        buf: B,
    },
    /// Send one message from a datagram: all the bytes that the range of a buffer shows. (monoio: `SendMsg`)
    SendMsg {
        /// The datagram.
        fd: SharedFd,
        /// The address that it is sent to, where one is given.
        addr: Option<u64>,
        /// The buffer that is sent.
        buf: B,
    },
    /// Read bytes of a file from a position on. (monoio: `Read`)
    Read {
        /// The file.
        fd: SharedFd,
        /// The position, in bytes from the file's start.
        pos: u64,
        /// The buffer that is filled.
        buf: B,
    },
    /// Write the bytes that the range of a buffer shows to a file from a position on. (monoio: `Write`)
    Write {
        /// The file.
        fd: SharedFd,
        /// The position, in bytes from the file's start.
        pos: u64,
        /// The buffer that is written.
        buf: B,
    },
    /// Move bytes from a handle to a pipe. (monoio: `Splice::splice_to_pipe`)
    SpliceTo {
        /// The handle that they come from.
        fd: SharedFd,
        /// The pipe that takes them.
        pipe: SharedFd,
        /// The most bytes that are moved.
        len: u32,
    },
    /// Move bytes from a pipe to a handle. (monoio: `Splice::splice_from_pipe`)
    SpliceFrom {
        /// The pipe that they come from.
        pipe: SharedFd,
        /// The handle that takes them.
        fd: SharedFd,
        /// The most bytes that are moved.
        len: u32,
    },
    /// Accept a connection on a listener, as a new stream. (monoio: `Accept`)
    Accept {
        /// The listener.
        fd: SharedFd,
    },
    /// Open a file, as a new handle. (monoio: `Open`)
    Open {
        /// Its path: bytes that nobody interprets.
        path: ByteList,
        /// How it is opened: bits that nobody interprets.
        flags: u32,
        /// Its mode, where it is created.
        mode: u32,
    },
    /// Connect a stream or a datagram to an address. (monoio: `Connect`)
    Connect {
        /// The handle that is connected.
        fd: SharedFd,
        /// The address.
        addr: u64,
    },
    /// Have the writes to a file stored. (monoio: `Fsync`)
    Fsync {
        /// The file.
        fd: SharedFd,
        /// Only its data, and none of what describes it.
        data_only: bool,
    },
    /// Wait until a handle is ready. (monoio: `PollAdd`)
    PollAdd {
        /// The handle.
        fd: SharedFd,
        /// To be read, or else to be written.
        read: bool,
    },
    /// Make a directory. (monoio: `MkDir`)
    MkDir {
        /// Its path: bytes that nobody interprets.
        path: ByteList,
        /// Its mode.
        mode: u32,
    },
    /// Give a file another path. (monoio: `Rename`)
    Rename {
        /// The path that it has.
        from: ByteList,
        /// The path that it gets.
        to: ByteList,
    },
    /// Remove a path. (monoio: `Unlink`)
    Unlink {
        /// The path.
        path: ByteList,
        /// It is that of a directory, or else that of a file.
        remove_dir: bool,
    },
}

/// Which way a request's bytes go. (not in monoio)
#[derive(Clone, Copy, Debug, PartialEq, Eq)]
pub enum Way {
    /// From the handle into what the request holds.
    Reads,
    /// Out of what the request holds to the handle.
    Sends,
    /// Neither: the request holds no buffer.
    Neither,
}

/// The handles that a request names, without the request. (not in monoio)
#[derive(Clone, Copy, Debug, PartialEq, Eq)]
pub enum Names {
    /// No handle, or there is no request.
    Nothing,
    /// This handle.
    One(u64),
    /// These handles, the lower number first.
    Two(u64, u64),
}

/// What a request asks for, without what it holds. (not in monoio)
#[derive(Clone, Copy, Debug, PartialEq, Eq)]
pub enum Call {
    /// At most `ask` bytes from the handle `h`.
    In {
        /// The handle's number.
        h: u64,
        /// The number of bytes that are wanted.
        ask: u32,
    },
    /// At most `ask` bytes to the handle `h`.
    Out {
        /// The handle's number.
        h: u64,
        /// The number of bytes that are offered.
        ask: u32,
    },
    /// The first message of the datagram `h`, and at most `ask` bytes of it.
    MessageIn {
        /// The handle's number.
        h: u64,
        /// The number of bytes that are wanted.
        ask: u32,
    },
    /// A message of `ask` bytes from the datagram `h`.
    MessageOut {
        /// The handle's number.
        h: u64,
        /// The address that it is sent to, where one is given.
        addr: Option<u64>,
        /// The number of bytes that are offered.
        ask: u32,
    },
    /// At most `ask` bytes of the file `h`, from a position on.
    ReadAt {
        /// The handle's number.
        h: u64,
        /// The position, in bytes.
        pos: u64,
        /// The number of bytes that are wanted.
        ask: u32,
    },
    /// At most `ask` bytes to the file `h`, from a position on.
    WriteAt {
        /// The handle's number.
        h: u64,
        /// The position, in bytes.
        pos: u64,
        /// The number of bytes that are offered.
        ask: u32,
    },
    /// At most `ask` bytes from the handle `h` to a pipe.
    ToPipe {
        /// The handle's number.
        h: u64,
        /// The pipe's number.
        pipe: u64,
        /// The most bytes that are moved.
        ask: u32,
    },
    /// At most `ask` bytes from a pipe to the handle `h`.
    FromPipe {
        /// The pipe's number.
        pipe: u64,
        /// The handle's number.
        h: u64,
        /// The most bytes that are moved.
        ask: u32,
    },
    /// A connection on the listener `h`.
    Accept {
        /// The handle's number.
        h: u64,
    },
    /// A file is opened, and no handle takes part.
    Open,
    /// The handle `h` is connected.
    Connect {
        /// The handle's number.
        h: u64,
    },
    /// The writes to the file `h` are stored.
    Fsync {
        /// The handle's number.
        h: u64,
    },
    /// The handle `h` is ready.
    PollAdd {
        /// The handle's number.
        h: u64,
        /// To be read, or else to be written.
        read: bool,
    },
    /// Something is done with a path, and no handle takes part.
    Path,
}

/// What an executor reports of a call that it made. `Outcome` is what the machine makes of it. (not in monoio)
#[derive(Clone, Copy, Debug, PartialEq, Eq)]
pub enum Told {
    /// So many bytes moved.
    Count(u32),
    /// It failed with this error.
    Fail(u16),
}

/// How a request ended. (monoio: `CqeResult`)
#[derive(Clone, Copy, Debug, PartialEq, Eq)]
pub enum Outcome {
    /// So many bytes moved.
    Count(u32),
    /// It made the handle of this number.
    Made(u64),
    /// So many bytes of a message came, and this is its address.
    From(u32, u64),
    /// It failed with this error.
    Fail(u16),
}

impl Outcome {
    /// The handle that it names as made; None where it made none. (not in monoio)
    pub fn made(&self) -> Option<u64>
        ensures { result ≡ made_by self.now }
    {
        match self {
            Outcome::Made(h) => Some(*h),
            _ => None,
        }
    }
}
