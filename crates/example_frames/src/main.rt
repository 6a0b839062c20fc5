//! Sends the lines of its input as messages through a stream in memory, and prints what the other end reads.
#![tactic(auto)]

use anyhow::{Result, bail};
use frame_io::{FrameReader, FrameWriter, Message, MessagePoll};
use rent_buf::ByteList;
use rent_io::{ScriptedStream, SinkDone};
use std::alloc::Global;
use std::collections::VecDeque;

// The task of this program, which waits for nothing: a stream in memory without a script never pauses.
const TASK: u64 = 0;

// Sends the messages of a list: the stream that delivered their pieces.
fn send(alloc: Global, messages: &mut VecDeque<Message>) -> Result<ScriptedStream> {
    let stream = ScriptedStream::new(alloc, ByteList::new(alloc), Vec::new(alloc));
    let mut writer = FrameWriter::new(alloc, stream);
    match writer.drive(messages, TASK, u64::MAX) {
        SinkDone::Ready(Ok(())) => Ok(writer.into_inner()),
        SinkDone::Ready(Err(fault)) => Err(fault.into()),
        SinkDone::Pending => bail!("the stream paused"),
    }
}

// Receives all messages of a stream of these bytes.
fn receive(alloc: Global, bytes: &[u8]) -> Result<Vec<Message>> {
    let mut reader = FrameReader::new(alloc, bytes);
    let mut messages = Vec::new(alloc);
    match reader.drive(&mut messages, TASK, u64::MAX) {
        MessagePoll::End => Ok(messages),
        MessagePoll::Fault(fault) => Err(fault.into()),
        _ => bail!("the stream paused"),
    }
}

fn main(rt: HostRuntime) -> Result<()> {
    let alloc = rt.alloc();
    let mut sent = VecDeque::new(alloc);
    for (line, channel) in rt.lines(alloc).zip(1..=u32::MAX) {
        let bytes = ByteList::from_vec(line?.into_bytes());
        sent.push_back(Message { channel, bytes })?;
    }
    let stream = send(alloc, &mut sent)?;
    println!(rt; "{} bytes were delivered", stream.delivered().len())?;
    for message in receive(alloc, stream.delivered())? {
        let text = String::from_utf8(message.bytes.into_vec())?;
        println!(rt; "on channel {}: {text}", message.channel)?;
    }
    Ok(())
}
