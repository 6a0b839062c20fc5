//! Where bytes come from, and where they go.
ghost use Rattle.std.specs.Prelude.{[], Bool, List, ℕ, false};
ghost use Rattle.rent_io.specs.Source.{ReadsFor};
ghost use Rattle.rent_io.specs.Sink.{WritesFor, FlushesFor};

use std::io::{Read, Write};
use thiserror::Error;

/// A read, a write or a flush failed: the count of faults of what was asked rose.
#[derive(Clone, Copy, Debug, PartialEq, Eq, Error)]
#[error("Failed")]
pub struct Failed;

/// Bytes to be read. (not in monoio)
pub trait ByteSource {
    // It tells what is left, and then its count of faults rises only when a read fails.
    ghost tells: { Bool };

    // The bytes that are left, where it tells them.
    ghost left: { Self → List ℕ };

    // How often it failed.
    ghost faults: { Self → ℕ };

    /// Puts the next bytes at the start of the room, and returns how many. 0 for a room that isn't empty is the end.
    fn read(&mut self, room: &mut [u8]) -> Result<usize, Failed>
        ensures { ReadsFor tells (left self.old) (left self.new) (faults self.old) (faults self.new) room.old room.new result };
}

/// Where bytes are written. (not in monoio)
pub trait ByteSink {
    // It tells what was taken, and then its count of faults rises only when a call fails.
    ghost tells: { Bool };

    // The bytes that were taken, where it tells them.
    ghost taken: { Self → List ℕ };

    // How often it failed.
    ghost faults: { Self → ℕ };

    // All that was taken has gone on.
    ghost is_flushed: { Self → Bool };

    /// Takes a prefix of the bytes, and returns how many: at least 1 if there are some.
    fn write(&mut self, bytes: &[u8]) -> Result<usize, Failed>
        ensures { WritesFor tells (taken self.old) (taken self.new) (faults self.old) (faults self.new) (is_flushed self.old)
            (is_flushed self.new) bytes.now result };

    /// Passes on what was taken.
    fn flush(&mut self) -> Result<(), Failed>
        ensures { FlushesFor tells (taken self.old) (taken self.new) (faults self.old) (faults self.new) (is_flushed self.old)
            (is_flushed self.new) result };
}

impl<S: ByteSource> ByteSource for &mut S {
    ghost tells = { S.tells };

    ghost left = { λ s. S.left s.now };

    ghost faults = { λ s. S.faults s.now };

    fn read(&mut self, room: &mut [u8]) -> Result<usize, Failed> {
        (**self).read(room)
    }
}

impl<K: ByteSink> ByteSink for &mut K {
    ghost tells = { K.tells };

    ghost taken = { λ k. K.taken k.now };

    ghost faults = { λ k. K.faults k.now };

    ghost is_flushed = { λ k. K.is_flushed k.now };

    fn write(&mut self, bytes: &[u8]) -> Result<usize, Failed> {
        (**self).write(bytes)
    }

    fn flush(&mut self) -> Result<(), Failed> {
        (**self).flush()
    }
}

/// A source over any reader of the standard library. It tells no bytes. An interrupted read is a failed one. (not in monoio)
#[derive(Debug, Drop)]
pub struct StdSource<R: Read> {
    reader: R,
    faults: u64,
}

impl<R: Read> StdSource<R> {
    /// The source of a reader.
    pub fn new(reader: R) -> StdSource<R> {
        StdSource { reader, faults: 0 }
    }
}

impl<R: Read> ByteSource for StdSource<R> {
    ghost tells = { false };

    ghost left = { λ s. [] };

    ghost faults = { λ s. s.faults };

    fn read(&mut self, room: &mut [u8]) -> Result<usize, Failed> {
        match self.reader.read(room) {
            Ok(count) => Ok(count),
            Err(_) => {
                self.faults = self.faults.saturating_add(1);
                Err(Failed)
            }
        }
    }
}

/// A sink over any writer of the standard library. It tells no bytes. (not in monoio)
#[derive(Debug, Drop)]
pub struct StdSink<W: Write> {
    writer: W,
    faults: u64,
    flushed: bool,
}

impl<W: Write> StdSink<W> {
    /// The sink of a writer.
    pub fn new(writer: W) -> StdSink<W> {
        StdSink {
            writer,
            faults: 0,
            flushed: false,
        }
    }

    /// Its writer.
    pub fn into_inner(self) -> W {
        let StdSink {
            writer,
            faults: _,
            flushed: _,
        } = self;
        writer
    }
}

impl<W: Write> ByteSink for StdSink<W> {
    ghost tells = { false };

    ghost taken = { λ s. [] };

    ghost faults = { λ s. s.faults };

    ghost is_flushed = { λ s. s.flushed };

    fn write(&mut self, bytes: &[u8]) -> Result<usize, Failed> {
        match self.writer.write(bytes) {
            Ok(count) if count > 0 => {
                self.flushed = false;
                Ok(count)
            }
            Ok(_) if bytes.is_empty() => Ok(0),
            _ => {
                self.faults = self.faults.saturating_add(1);
                Err(Failed)
            }
        }
    }

    fn flush(&mut self) -> Result<(), Failed> {
        match self.writer.flush() {
            Ok(()) => {
                self.flushed = true;
                Ok(())
            }
            Err(_) => {
                self.faults = self.faults.saturating_add(1);
                Err(Failed)
            }
        }
    }
}
