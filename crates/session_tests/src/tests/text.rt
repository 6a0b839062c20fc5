// Texts of rows: words, lines, and events with their replies.
use rent_buf::ByteList;
use std::alloc::{AllocError, Global};

/// Words with one space between them.
pub(crate) fn split_words(alloc: Global, text: &str) -> Result<Vec<String>, AllocError> {
    let mut words = Vec::new(alloc);
    for word in text.split(' ') {
        words.push(String::from_str(alloc, word)?)?;
    }
    Ok(words)
}

/// Lines from text in which `;` stands for a newline.
pub(crate) fn lines_of(alloc: Global, text: &str) -> Result<Vec<u8>, AllocError> {
    let mut bytes = Vec::new(alloc);
    for byte in text.as_bytes() {
        bytes.push(if *byte == b';' { b'\n' } else { *byte })?;
    }
    Ok(bytes)
}

/// Bytes, in a list of their own.
pub(crate) fn list_of(alloc: Global, bytes: &[u8]) -> Result<ByteList, AllocError> {
    let mut list = Vec::new(alloc);
    list.extend_from_slice(bytes)?;
    Ok(ByteList::from_vec(list))
}

/// The events of a row, with a newline between them, and their replies, each with a newline behind it.
#[derive(Drop)]
pub(crate) struct Lines {
    pub events: Vec<u8>,
    pub replies: Vec<u8>,
}

// An event and its reply, written `EVENT > REPLY`, join the lines.
fn join(lines: &mut Lines, pair: &str) -> Result<(), AllocError> {
    let (event, reply) = pair.split_once(" > ").unwrap_or((pair, ""));
    if !lines.events.is_empty() {
        lines.events.push(b'\n')?;
    }
    lines.events.extend_from_slice(event.as_bytes())?;
    lines.replies.extend_from_slice(reply.as_bytes())?;
    lines.replies.push(b'\n')?;
    Ok(())
}

/// The lines of a row, in which events with their replies are separated by `;`.
pub(crate) fn pairs_of(alloc: Global, row: &str) -> Result<Lines, AllocError> {
    let mut lines = Lines {
        events: Vec::new(alloc),
        replies: Vec::new(alloc),
    };
    for pair in row.split(';') {
        join(&mut lines, pair)?;
    }
    Ok(lines)
}
