//! A reader and a writer that remember why they failed.
use std::io::{self, Read, Write};

/// A reader that passes on what another reads, and keeps the error with which that failed last. (not in monoio)
#[derive(Drop)]
pub struct HeardRead<R: Read> {
    reader: R,
    error: Option<io::Error>,
}

impl<R: Read> HeardRead<R> {
    /// The reader that passes on what this one reads.
    pub fn new(reader: R) -> HeardRead<R> {
        HeardRead {
            reader,
            error: None,
        }
    }

    /// The error with which it failed last.
    pub fn into_error(self) -> Option<io::Error>
    where
        R: Drop,
    {
        let HeardRead { reader: _, error } = self;
        error
    }
}

impl<R: Read> Read for HeardRead<R> {
    fn read(&mut self, buf: &mut [u8]) -> io::Result<usize> {
        match self.reader.read(buf) {
            Ok(count) => Ok(count),
            Err(error) => {
                let passed = io::Error::from(error.kind());
                self.error = Some(error);
                Err(passed)
            }
        }
    }
}

/// A writer that passes on what it is to write to another, and keeps the error with which that failed last. (not in monoio)
#[derive(Drop)]
pub struct HeardWrite<W: Write> {
    writer: W,
    error: Option<io::Error>,
}

impl<W: Write> HeardWrite<W> {
    /// The writer that passes on to this one.
    pub fn new(writer: W) -> HeardWrite<W> {
        HeardWrite {
            writer,
            error: None,
        }
    }

    /// The error with which it failed last.
    pub fn into_error(self) -> Option<io::Error>
    where
        W: Drop,
    {
        let HeardWrite { writer: _, error } = self;
        error
    }

    // Keeps an error, and gives one of its kind.
    fn keep(&mut self, error: io::Error) -> io::Error {
        let passed = io::Error::from(error.kind());
        self.error = Some(error);
        passed
    }
}

impl<W: Write> Write for HeardWrite<W> {
    fn write(&mut self, buf: &[u8]) -> io::Result<usize> {
        match self.writer.write(buf) {
            Ok(count) => Ok(count),
            Err(error) => Err(self.keep(error)),
        }
    }

    fn flush(&mut self) -> io::Result<()> {
        match self.writer.flush() {
            Ok(()) => Ok(()),
            Err(error) => Err(self.keep(error)),
        }
    }
}
