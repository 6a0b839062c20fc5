// Runs whose replies come line by line.
use crate::tests::text::lines_of;
use live_run::run_live;
use rent_io::{StdSink, StdSource};
use session_core::Status;
use std::alloc::{AllocError, Global};
use std::cell::Cell;
use std::io::{self, Read, Write};
use std::test::Fail;

// A reader that gives one line at each read, and counts the bytes that had been flushed before it.
#[derive(Drop)]
struct Asking<'a> {
    lines: &'a [&'a str],
    at: usize,
    flushed: &'a Cell<usize>,
    seen: &'a [Cell<usize>],
}

impl Read for Asking<'_> {
    fn read(&mut self, buf: &mut [u8]) -> io::Result<usize> {
        if let Some(seen) = self.seen.get(self.at) {
            seen.set(self.flushed.get());
        }
        let Some(line) = self.lines.get(self.at) else {
            return Ok(0);
        };
        self.at += 1;
        let count = line.len();
        if buf.len() < count {
            return Err(io::Error::from(io::ErrorKind::Unsupported));
        }
        buf[..count].copy_from_slice(line.as_bytes());
        Ok(count)
    }
}

// A writer that counts what was flushed.
#[derive(Drop)]
struct Answering<'a> {
    waiting: usize,
    flushed: &'a Cell<usize>,
    text: Vec<u8>,
}

impl Write for Answering<'_> {
    fn write(&mut self, buf: &[u8]) -> io::Result<usize> {
        self.text.extend_from_slice(buf)?;
        self.waiting = self.waiting.saturating_add(buf.len());
        Ok(buf.len())
    }

    fn flush(&mut self) -> io::Result<()> {
        self.flushed
            .set(self.flushed.get().saturating_add(self.waiting));
        self.waiting = 0;
        Ok(())
    }
}

// What was flushed before each read, and all that was written, with `;` for a newline; the status, `Done` where a session came back.
fn ran(
    alloc: Global,
    lines: &[&str],
    seen: &[Cell<usize>],
) -> Result<(Status, Vec<u8>), AllocError> {
    let flushed = Cell::new(0);
    let mut source = StdSource::new(Asking {
        lines,
        at: 0,
        flushed: &flushed,
        seen,
    });
    let mut sink = StdSink::new(Answering {
        waiting: 0,
        flushed: &flushed,
        text: Vec::new(alloc),
    });
    let mut stop = None;
    let status = match run_live(alloc, 8, &mut source, &mut sink, &mut stop) {
        Ok(_) => Status::Done,
        Err(status) => status,
    };
    let Answering {
        waiting: _,
        flushed: _,
        text,
    } = sink.into_inner();
    Ok((status, text))
}

// What each read gives, what was flushed before each, the status, and what was written.
#[rattlefmt::skip]
const TALKS: [([&str; 4], [usize; 5], Status, &str); 4] = [
    (["give stream\n", "look 0\n", "turn\n", "end 0\n"], [0, 9, 18, 31, 37], Status::Done, "handle 0;output -;turned - - -;ended;"),
    (["give str", "eam\nlook", " 0\nturn\nend", " 0"], [0, 0, 9, 31, 31], Status::Done, "handle 0;output -;turned - - -;ended;"),
    (["give stream\n", "look 0\nno event\n", "turn\n", ""], [0, 9, 0, 0, 0], Status::BadLine, "handle 0;output -;line 3;"),
    (["give stream\n", "submit recv 0 v 18446744073709551615 0 0 -\n", "turn\n", ""], [0, 9, 0, 0, 0], Status::OutOfMemory, "handle 0;"),
];

#[test]
fn each_reply_is_flushed_before_more_is_read(rt: HostRuntime) -> Result<(), Fail> {
    for (lines, flushed, status, written) in TALKS {
        let seen = [
            Cell::new(0),
            Cell::new(0),
            Cell::new(0),
            Cell::new(0),
            Cell::new(0),
        ];
        let (is, text) = ran(rt.alloc(), &lines, &seen)?;
        assert_eq!(rt; is, status, "for {lines:?}");
        let wanted = lines_of(rt.alloc(), written)?;
        assert!(rt; text == wanted, "for {lines:?}");
        for (seen, flushed) in seen.iter().zip(flushed) {
            assert_eq!(rt; seen.get(), flushed, "for {lines:?}");
        }
    }
    Ok(())
}
