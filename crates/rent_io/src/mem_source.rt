//! Sources and sinks in memory, which fail at the calls that they are told to.
ghost use Rattle.std.specs.Prelude.{◌≡◌, ◌≤◌, ◌++◌, length, take, true, false, IfOk, IsTrue, OnOk, OnErr};
ghost use Rattle.rent_io.specs.Counts.{Rose, once_more};
ghost use Rattle.rent_io.specs.MemSource.{fresh_source, fresh_sink, is_to_fail};
ghost use Rattle.rent_io.specs.Sink.{WritesFor, FlushesFor};
ghost use Rattle.rent_io.specs.Source.{ReadsFor};

use crate::source::{ByteSink, ByteSource, Failed};
use rent_buf::{ByteList, NumList};
use std::alloc::Global;
use std::marker::Model;

/// Bytes in memory, read from their start. (not in monoio)
#[derive(Debug, Drop)]
pub struct MemSource {
    bytes: ByteList,
    start: usize,
    failing: NumList,
    calls: u64,
    faults: u64,
}

impl Model for MemSource {
    ghost use Rattle.std.specs.Prelude.{◌≤◌, length, drop};
    ghost use Rattle.rent_io.specs.MemSource.{SourceView};

    ghost Value = { SourceView };

    ghost view = { λ s. record {
      left = drop s.start s.bytes;
      failing = s.failing;
      calls = s.calls;
      faults = s.faults;
    } };

    ghost invariant = { λ s. s.start ≤ length s.bytes };
}

impl MemSource {
    /// A source of these bytes, whose read calls of the numbers in `failing`, counted from 0, fail.
    pub fn new(bytes: ByteList, failing: NumList) -> MemSource
        ensures { result ≡ fresh_source bytes failing }
    {
        MemSource {
            bytes,
            start: 0,
            failing,
            calls: 0,
            faults: 0,
        }
    }

    // The next read is to fail.
    fn is_to_fail(&self) -> bool
        ensures { result ≡ is_to_fail self.now.failing self.now.calls }
    {
        self.failing.as_slice().contains(&self.calls)
    }

    /// The bytes that are left.
    pub fn left(&self) -> &[u8]
        ensures { result.now ≡ self.now.left }
    {
        &self.bytes.as_slice()[self.start..]
    }
}

impl ByteSource for MemSource {
    ghost tells = { true };

    ghost left = { λ s. s.left };

    ghost faults = { λ s. s.faults };

    /// A read whose number is one of those that are to fail does, and no other.
    fn read(&mut self, room: &mut [u8]) -> Result<usize, Failed>
        ensures reads { ReadsFor true self.old.left self.new.left self.old.faults self.new.faults room.old room.new result }
        ensures succeeds { OnOk result (is_to_fail self.old.failing self.old.calls ≡ false) }
        ensures fails { OnErr result (is_to_fail self.old.failing self.old.calls ≡ true) }
        ensures calls { self.new.calls ≡ once_more self.old.calls }
        ensures failing { self.new.failing ≡ self.old.failing }
    {
        let fails = self.is_to_fail();
        self.calls = self.calls.saturating_add(1);
        if fails {
            self.faults = self.faults.saturating_add(1);
            return Err(Failed);
        }
        let waiting = self.bytes.len() - self.start;
        let count = if room.len() < waiting {
            room.len()
        } else {
            waiting
        };
        let end = self.start + count;
        copy_front(room, &self.bytes.as_slice()[self.start..end]);
        self.start = end;
        Ok(count)
    }
}

// The bytes are at the start of the room.
fn copy_front(room: &mut [u8], bytes: &[u8])
    requires { length bytes.now ≤ length room.old }
    ensures { take (length bytes.now) room.new ≡ bytes.now }
{
    let count = bytes.len();
    room[..count].copy_from_slice(bytes);
}

/// Bytes that were written, in memory. (not in monoio)
#[derive(Debug, Drop)]
pub struct MemSink {
    taken: ByteList,
    failing: NumList,
    calls: u64,
    faults: u64,
    flushed: bool,
}

impl Model for MemSink {
    ghost use Rattle.rent_io.specs.MemSource.{SinkView};

    ghost Value = { SinkView };

    ghost view = { λ s. record {
      taken = s.taken;
      failing = s.failing;
      calls = s.calls;
      faults = s.faults;
      is_flushed = s.flushed;
    } };
}

impl MemSink {
    /// An empty sink, whose calls of the numbers in `failing`, counted from 0 over writes and flushes, fail. A write that finds no
    /// memory fails too.
    pub fn new(alloc: Global, failing: NumList) -> MemSink
        ensures { result ≡ fresh_sink failing }
    {
        MemSink {
            taken: ByteList::from_vec(Vec::new(alloc)),
            failing,
            calls: 0,
            faults: 0,
            flushed: true,
        }
    }

    /// The bytes that were taken.
    pub fn taken(&self) -> &[u8]
        ensures { result.now ≡ self.now.taken }
    {
        self.taken.as_slice()
    }

    // Counts a call, and says whether it is to fail.
    fn fails(&mut self) -> bool
        ensures value { result ≡ is_to_fail self.old.failing self.old.calls }
        ensures new { self.new ≡ record self.old { calls = once_more self.old.calls } }
    {
        let fails = self.failing.as_slice().contains(&self.calls);
        self.calls = self.calls.saturating_add(1);
        fails
    }

    // Takes the bytes; false where there is no memory, and then nothing has changed.
    fn append(&mut self, bytes: &[u8]) -> bool
        ensures yes { result ≡ true → self.new.taken ≡ self.old.taken ++ bytes.now }
        ensures no { result ≡ false → self.new ≡ self.old }
        ensures faults { self.new.faults ≡ self.old.faults }
        ensures calls { self.new.calls ≡ self.old.calls }
        ensures failing { self.new.failing ≡ self.old.failing }
        ensures flushed { IsTrue self.new.is_flushed → IsTrue self.old.is_flushed }
        ensures some { result ≡ true → 1 ≤ length bytes.now → self.new.is_flushed ≡ false }
    {
        if self.taken.append(bytes).is_err() {
            return false;
        }
        if !bytes.is_empty() {
            self.flushed = false;
        }
        true
    }

    // One failure more.
    fn fail(&mut self) -> Failed
        ensures rose { Rose self.old.faults self.new.faults }
        ensures later { self.old.faults ≤ self.new.faults }
        ensures taken { self.new.taken ≡ self.old.taken }
        ensures flushed { self.new.is_flushed ≡ self.old.is_flushed }
        ensures calls { self.new.calls ≡ self.old.calls }
        ensures failing { self.new.failing ≡ self.old.failing }
    {
        self.faults = self.faults.saturating_add(1);
        Failed
    }
}

impl ByteSink for MemSink {
    ghost tells = { true };

    ghost taken = { λ s. s.taken };

    ghost faults = { λ s. s.faults };

    ghost is_flushed = { λ s. s.is_flushed };

    /// Takes all bytes. A write whose number is one of those that are to fail does, and else one that finds no memory.
    fn write(&mut self, bytes: &[u8]) -> Result<usize, Failed>
        ensures writes { WritesFor true self.old.taken self.new.taken self.old.faults self.new.faults self.old.is_flushed
            self.new.is_flushed bytes.now result }
        ensures all { IfOk result (λ n. n ≡ length bytes.now) }
        ensures succeeds { OnOk result (is_to_fail self.old.failing self.old.calls ≡ false) }
        ensures calls { self.new.calls ≡ once_more self.old.calls }
        ensures failing { self.new.failing ≡ self.old.failing }
    {
        if self.fails() || !self.append(bytes) {
            return Err(self.fail());
        }
        Ok(bytes.len())
    }

    /// A flush whose number is one of those that are to fail does, and no other.
    fn flush(&mut self) -> Result<(), Failed>
        ensures flushes { FlushesFor true self.old.taken self.new.taken self.old.faults self.new.faults self.old.is_flushed
            self.new.is_flushed result }
        ensures succeeds { OnOk result (is_to_fail self.old.failing self.old.calls ≡ false) }
        ensures fails { OnErr result (is_to_fail self.old.failing self.old.calls ≡ true) }
        ensures calls { self.new.calls ≡ once_more self.old.calls }
        ensures failing { self.new.failing ≡ self.old.failing }
    {
        if self.fails() {
            return Err(self.fail());
        }
        self.flushed = true;
        Ok(())
    }
}
