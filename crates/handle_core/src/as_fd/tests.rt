//! That a stream can lend its handles.
ghost use Rattle.std.specs.Prelude.{◌≡◌};

use super::{AsReadFd, AsWriteFd};
use crate::shared_fd::{SharedFd, SharedFdWrapper};
use std::test::Fail;

// A pipe, whose ends are two handles.
#[derive(Drop)]
struct Ends {
    read: SharedFdWrapper,
    write: SharedFdWrapper,
}

impl AsReadFd for Ends {
    ghost reader = { λ ends. ends.read };

    fn as_reader_fd(&mut self) -> &SharedFdWrapper {
        &self.read
    }
}

impl AsWriteFd for Ends {
    ghost writer = { λ ends. ends.write };

    fn as_writer_fd(&mut self) -> &SharedFdWrapper {
        &self.write
    }
}

// The numbers of both handles of a stream, which stays as it is.
fn numbers<S: AsReadFd + AsWriteFd>(stream: &mut S) -> (u64, u64)
    ensures numbers { result ≡ (S.reader stream.old, S.writer stream.old) }
    ensures stays { stream.new ≡ stream.old }
{
    let read = stream.as_reader_fd().fd().number();
    let write = stream.as_writer_fd().fd().number();
    (read, write)
}

#[test]
fn a_stream_lends_both_handles(rt: HostRuntime) -> Result<(), Fail> {
    let mut ends = Ends {
        read: SharedFdWrapper::new(SharedFd::new(4)),
        write: SharedFdWrapper::new(SharedFd::new(5)),
    };
    assert_eq!(rt; numbers(&mut ends), (4, 5));
    Ok(())
}
