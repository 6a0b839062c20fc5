// The standard source and sink over readers and writers that work or fail, through the top call.
use crate::tests::text::split_words;
use ready_driver::MemIo;
use rent_io::{ByteSink, ByteSource, StdSink, StdSource};
use session_core::Status;
use session_core::top::top;
use std::alloc::{AllocError, Global};
use std::io::{self, Read, Write};
use std::rt::Clock;
use std::sync::Wait;
use std::test::Fail;
use std::thread::Threads;

// A reader that gives a line, then fails.
#[derive(Drop)]
struct FailingReader {
    line: bool,
}

impl Read for FailingReader {
    fn read(&mut self, buf: &mut [u8]) -> io::Result<usize> {
        if !self.line || buf.len() < 5 {
            return Err(io::Error::from(io::ErrorKind::Unsupported));
        }
        self.line = false;
        let line = b"turn\n";
        buf[..5].copy_from_slice(line.as_slice());
        Ok(5)
    }
}

// What a writer does.
#[derive(Clone, Copy, PartialEq)]
enum Fails {
    AtWrite,
    AtFlush,
}

// A writer that fails at each write, or at each flush.
#[derive(Drop)]
struct FailingWriter {
    fails: Fails,
}

impl Write for FailingWriter {
    fn write(&mut self, buf: &[u8]) -> io::Result<usize> {
        match self.fails {
            Fails::AtWrite => Err(io::Error::from(io::ErrorKind::Unsupported)),
            Fails::AtFlush => Ok(buf.len()),
        }
    }

    fn flush(&mut self) -> io::Result<()> {
        match self.fails {
            Fails::AtWrite => Ok(()),
            Fails::AtFlush => Err(io::Error::from(io::ErrorKind::Unsupported)),
        }
    }
}

// Runs over a source and a sink with a queue of one entry: the status, and whether a session is kept.
fn run<R: Threads + Wait + Clock + Sync, S: ByteSource, K: ByteSink>(
    rt: &R,
    alloc: Global,
    source: &mut S,
    sink: &mut K,
) -> Result<(Status, bool), AllocError> {
    let words = split_words(alloc, "run 1")?;
    let mut net = MemIo::new(alloc);
    let mut kept = None;
    let mut stop = None;
    let status = top(
        rt,
        alloc,
        words.as_slice(),
        source,
        sink,
        &mut net,
        &mut kept,
        &mut stop,
    );
    Ok((status, kept.is_some()))
}

#[test]
fn what_std_reads_and_writes_goes_through(rt: HostRuntime) -> Result<(), Fail> {
    let input: &[u8] = b"turn\n";
    let mut source = StdSource::new(input);
    let mut sink = StdSink::new(Vec::new(rt.alloc()));
    let ran = run(&rt, rt.alloc(), &mut source, &mut sink)?;
    assert_eq!(rt; ran, (Status::Done, true));
    assert_eq!(rt; sink.into_inner().as_slice(), b"turned - - -\n".as_slice());
    Ok(())
}

#[test]
fn a_read_that_fails_is_no_end_of_input(rt: HostRuntime) -> Result<(), Fail> {
    let mut source = StdSource::new(FailingReader { line: true });
    let mut sink = StdSink::new(Vec::new(rt.alloc()));
    let (status, _) = run(&rt, rt.alloc(), &mut source, &mut sink)?;
    assert_eq!(rt; status, Status::ReadFault);
    assert_eq!(rt; sink.into_inner().len(), 0);
    Ok(())
}

#[test]
fn a_write_or_a_flush_that_fails_is_not_done(rt: HostRuntime) -> Result<(), Fail> {
    for fails in [Fails::AtWrite, Fails::AtFlush] {
        let input: &[u8] = b"turn\n";
        let mut source = StdSource::new(input);
        let mut sink = StdSink::new(FailingWriter { fails });
        let ran = run(&rt, rt.alloc(), &mut source, &mut sink)?;
        assert_eq!(rt; ran, (Status::WriteFault, false));
    }
    Ok(())
}
