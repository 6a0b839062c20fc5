// A stream that notes how each of its calls is made: plainly, or under which cancel group.
ghost use Rattle.std.specs.Prelude.{◌≡◌, true};
ghost use Rattle.rent_io.specs.Scripted.{as_reader, as_writer};

use crate::tests::base::{Why, is_like, stream};
use cancel_core::{CancelHandle, Groups};
use rent_buf::{IoBuf, IoBufMut, IoVecBuf, IoVecBufMut, OutOfMemory};
use rent_io::{
    AsyncReadRent, AsyncWriteRent, CancelableAsyncReadRent, CancelableAsyncWriteRent, PollBuf,
    PollCount, ScriptedStream,
};
use std::alloc::Global;

/// A scripted stream that counts its plain calls and those under a group, and notes the group of the last one.
#[derive(Drop)]
pub(crate) struct Noting {
    pub io: ScriptedStream,
    pub plain: u64,
    pub under: u64,
    pub group: u64,
}

/// A stream of these bytes, which grants all.
pub(crate) fn stream_of(alloc: Global, bytes: &str) -> Result<Noting, Why> {
    Ok(Noting {
        io: stream(alloc, bytes.as_bytes(), &[])?,
        plain: 0,
        under: 0,
        group: 0,
    })
}

/// A handle of the second of two groups.
pub(crate) fn handle(alloc: Global) -> Result<CancelHandle, OutOfMemory> {
    let mut groups = Groups::new(alloc);
    let _ = groups.new_canceller()?;
    let canceller = groups.new_canceller()?;
    Ok(groups.handle(&canceller))
}

/// So many calls were made, each under the group of `handle`.
pub(crate) fn has_noted(io: &Noting, under: u64) -> Result<(), Why> {
    let so = io.plain == 0 && io.under == under && io.group == 1;
    is_like("the groups of the calls", so)
}

impl Noting {
    // Notes a call under a group.
    fn note(&mut self, c: CancelHandle)
        ensures { self.new.io ≡ self.old.io }
    {
        self.under = self.under.saturating_add(1);
        self.group = c.group();
    }
}

impl AsyncReadRent for Noting {
    ghost tells = { true };

    ghost reader = { λ s. as_reader s.io };

    fn poll_read<T: IoBufMut>(&mut self, buf: T, task: u64) -> PollBuf<T> {
        self.plain = self.plain.saturating_add(1);
        self.io.poll_read(buf, task)
    }

    fn poll_readv<T: IoVecBufMut>(&mut self, buf: T, task: u64) -> PollBuf<T> {
        self.plain = self.plain.saturating_add(1);
        self.io.poll_readv(buf, task)
    }
}

impl CancelableAsyncReadRent for Noting {
    fn poll_cancelable_read<T: IoBufMut>(
        &mut self,
        buf: T,
        c: CancelHandle,
        task: u64,
    ) -> PollBuf<T> {
        self.note(c);
        self.io.poll_cancelable_read(buf, c, task)
    }

    fn poll_cancelable_readv<T: IoVecBufMut>(
        &mut self,
        buf: T,
        c: CancelHandle,
        task: u64,
    ) -> PollBuf<T> {
        self.note(c);
        self.io.poll_cancelable_readv(buf, c, task)
    }
}

impl AsyncWriteRent for Noting {
    ghost tells = { true };

    ghost writer = { λ s. as_writer s.io };

    fn poll_write<T: IoBuf>(&mut self, buf: T, task: u64) -> PollBuf<T> {
        self.plain = self.plain.saturating_add(1);
        self.io.poll_write(buf, task)
    }

    fn poll_writev<T: IoVecBuf>(&mut self, buf: T, task: u64) -> PollBuf<T> {
        self.plain = self.plain.saturating_add(1);
        self.io.poll_writev(buf, task)
    }

    fn poll_flush(&mut self, task: u64) -> PollCount {
        self.plain = self.plain.saturating_add(1);
        self.io.poll_flush(task)
    }

    fn poll_shutdown(&mut self, task: u64) -> PollCount {
        self.plain = self.plain.saturating_add(1);
        self.io.poll_shutdown(task)
    }
}

impl CancelableAsyncWriteRent for Noting {
    fn poll_cancelable_write<T: IoBuf>(
        &mut self,
        buf: T,
        c: CancelHandle,
        task: u64,
    ) -> PollBuf<T> {
        self.note(c);
        self.io.poll_cancelable_write(buf, c, task)
    }

    fn poll_cancelable_writev<T: IoVecBuf>(
        &mut self,
        buf: T,
        c: CancelHandle,
        task: u64,
    ) -> PollBuf<T> {
        self.note(c);
        self.io.poll_cancelable_writev(buf, c, task)
    }

    fn poll_cancelable_flush(&mut self, c: CancelHandle, task: u64) -> PollCount {
        self.note(c);
        self.io.poll_cancelable_flush(c, task)
    }

    fn poll_cancelable_shutdown(&mut self, c: CancelHandle, task: u64) -> PollCount {
        self.note(c);
        self.io.poll_cancelable_shutdown(c, task)
    }
}
