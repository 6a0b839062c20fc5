//! Numbers the lines of its input: a source is read line by line through a buffer, and a sink is written through another.
#![tactic(auto)]

use anyhow::{Result, bail};
use rent_io::{
    AsyncBufRead, AsyncBufReadExt, AsyncWriteRent, AsyncWriteRentExt, PollCount, SinkStream,
    SourceStream, StdSink, StdSource, Step,
};
use std::alloc::Global;
use stream_util::{BufReader, BufWriter};

// The task of this program, which waits for nothing: a source and a sink never pause.
const TASK: u64 = 0;

// Adds the next line to a text, with its newline. None: the input has ended.
fn next_line<A: AsyncBufRead>(input: &mut A, text: String) -> Result<Option<String>> {
    match input.read_line(text).drive(input, TASK, u64::MAX) {
        Step::Ready((Ok(0), _)) => Ok(None),
        Step::Ready((Ok(_), text)) => Ok(Some(text)),
        Step::Ready((Err(fault), _)) => Err(fault.into()),
        Step::Pending(_) | Step::Again(_) => bail!("the input paused"),
    }
}

// Writes a whole text, into the writer's buffer at first.
fn write<A: AsyncWriteRent>(output: &mut A, text: String) -> Result<()> {
    let bytes = text.into_bytes();
    match output.write_all(bytes).drive(output, TASK, u64::MAX) {
        Step::Ready((Ok(_), _)) => Ok(()),
        Step::Ready((Err(fault), _)) => Err(fault.into()),
        Step::Pending(_) | Step::Again(_) => bail!("the output paused"),
    }
}

// Writes what is buffered. A writer that is let go before loses it.
fn flush<A: AsyncWriteRent>(output: &mut A) -> Result<()> {
    for _ in 0..u64::MAX {
        match output.poll_flush(TASK) {
            PollCount::Ready(Ok(_)) => return Ok(()),
            PollCount::Ready(Err(fault)) => return Err(fault.into()),
            PollCount::Pending | PollCount::Again => {}
        }
    }
    bail!("the output paused")
}

// Each line of the input, with its number before it.
fn number_lines<A: AsyncBufRead, W: AsyncWriteRent>(
    alloc: Global,
    input: &mut A,
    output: &mut W,
) -> Result<()> {
    for number in 1..u64::MAX {
        let Some(line) = next_line(input, format!(in alloc; "{number} ")?)? else {
            break;
        };
        write(output, line)?;
    }
    flush(output)
}

fn main(rt: HostRuntime) -> Result<()> {
    let alloc = rt.alloc();
    let source = SourceStream::new(alloc, StdSource::new(rt.stdin())).map_err(|refused| refused.0)?;
    let mut input = BufReader::new(alloc, source).map_err(|refused| refused.0)?;
    let sink = SinkStream::new(StdSink::new(rt.stdout()));
    let mut output = BufWriter::new(alloc, sink).map_err(|refused| refused.0)?;
    number_lines(alloc, &mut input, &mut output)
}
