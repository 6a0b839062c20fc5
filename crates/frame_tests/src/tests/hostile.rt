// Streams that open as many channels, or send as long a message, as a reader takes, and one more.
use super::rows::STANDARD;
use super::stage::read;
use frame_io::{FrameFault, MOST_IN_PIECE};
use std::alloc::{AllocError, Global};
use std::test::Fail;

// Adds a channel below 16384 in its form.
fn push_channel(bytes: &mut Vec<u8>, channel: u16) -> Result<(), AllocError> {
    if channel < 128 {
        bytes.push(channel as u8)?;
        return Ok(());
    }
    bytes.push((128 + channel % 128) as u8)?;
    bytes.push((channel / 128 % 128) as u8)?;
    Ok(())
}

// So many pieces without bytes, each of a channel of its own, that aren't the last ones of their messages; and then the
// last one of one more channel.
fn opened(alloc: Global, count: u16) -> Result<Vec<u8>, AllocError> {
    let mut bytes = Vec::new(alloc);
    for channel in 0..count {
        push_channel(&mut bytes, channel)?;
        bytes.extend_from_slice(b"\x00\x00")?;
    }
    push_channel(&mut bytes, count)?;
    bytes.extend_from_slice(b"\x00\x01")?;
    Ok(bytes)
}

// How many channels are opened, the fault, the offset, and how many messages come.
#[rattlefmt::skip]
const CHANNELS: &[(u16, FrameFault, u64, usize)] = &[
    (255, FrameFault::Cut, 896, 1),
    (256, FrameFault::Cut, 900, 1),
    (257, FrameFault::Channels, 896, 0),
];

#[test]
fn a_channel_too_many_is_refused(rt: HostRuntime) -> Result<(), Fail> {
    for &(count, fault, offset, given) in CHANNELS {
        let bytes = opened(rt.alloc(), count)?;
        let mut messages = Vec::new(rt.alloc());
        let ended = read(rt.alloc(), STANDARD, bytes.as_slice(), &mut messages)?;
        assert_eq!(rt;
            (ended, messages.len()),
            ((Some(fault), offset), given),
            "with {count} channels"
        );
    }
    Ok(())
}

// A message of 1048576 bytes, and so many more in a piece of its own.
fn long(alloc: Global, more: u8) -> Result<Vec<u8>, AllocError> {
    let mut bytes = Vec::new(alloc);
    for _ in 0..16 {
        bytes.extend_from_slice(b"\x05\x80\x80\x04\x00")?;
        for _ in 0..MOST_IN_PIECE {
            bytes.push(7)?;
        }
    }
    bytes.extend_from_slice(&[5, more, 1])?;
    for _ in 0..more {
        bytes.push(7)?;
    }
    Ok(bytes)
}

#[test]
fn a_byte_too_many_is_refused(rt: HostRuntime) -> Result<(), Fail> {
    for (more, fault, offset, given) in [
        (0, None, 1048659, 1),
        (1, Some(FrameFault::Long), 1048656, 0),
    ] {
        let bytes = long(rt.alloc(), more)?;
        let mut messages = Vec::new(rt.alloc());
        let ended = read(rt.alloc(), STANDARD, bytes.as_slice(), &mut messages)?;
        assert_eq!(rt;
            (ended, messages.len()),
            ((fault, offset), given),
            "with {more} more"
        );
    }
    Ok(())
}
