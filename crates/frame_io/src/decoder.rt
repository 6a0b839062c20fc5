// The reading of pieces, apart from the stream that they come from.
ghost use Rattle.std.specs.Prelude.{◌≡◌, ◌<◌, ◌≤◌, ◌^◌, ⊤, ℕ, List, [], ◌∷◌, ◌++◌, None, Some, IfSome, IsTrue, MatchOption, false, length, drop};
ghost use Rattle.frame_io.specs.Decoder.{Decoding, IsBounded, IsOwn, IsStop, Polled, fresh, rest_of};
ghost use Rattle.frame_io.specs.Decoder.{answer_of as answer_to, fault_of as fault_to};
ghost use Rattle.frame_io.specs.Frames.{read_from, refusal, stops, taken};
ghost use Rattle.frame_io.specs.Piece.{IsHeader, header_at};
ghost use Rattle.frame_io.specs.declared.fault.Ending.TheVariants.{Fault};
ghost use Rattle.frame_io.specs.declared.header.Header.TheVariants.{Whole};

use crate::channels::{extended, opened};
use crate::fault::{BadFrame, Ending, FrameFault};
use crate::header::{Begun, Head, Header, header_of};
use crate::limits::Limits;
use crate::message::{Message, MessagePoll};
use crate::reader::MOST_OFFSET;
use rent_buf::ByteList;
use std::alloc::Global;
use std::marker::Model;
use std::mem;

// What a reader keeps between its polls.
#[derive(Drop)]
pub(crate) struct Decoder {
    limits: Limits,
    channels: Vec<Message>,
    // The bytes of a header that is begun.
    head: ByteList,
    piece: Option<Begun>,
    // The bytes of the begun piece's channel.
    bytes: ByteList,
    stop: Option<Ending>,
    offset: u64,
}

impl Model for Decoder {
    ghost use Rattle.frame_io.specs.Decoder.{Decoding, IsDecoding};

    ghost Value = { Decoding };

    ghost view = { λ d. record {
      limits = d.limits;
      channels = d.channels.items;
      head = d.head;
      piece = d.piece;
      bytes = d.bytes;
      stop = d.stop;
      offset = d.offset;
    } };

    ghost invariant = { λ d. IsDecoding d.limits d.channels.items d.head d.piece d.bytes };
}

// The fault that a piece is refused with.
fn fault_of(bad: BadFrame) -> FrameFault
    ensures { result ≡ fault_to bad }
{
    match bad {
        BadFrame::Number => FrameFault::Number,
        BadFrame::Large => FrameFault::Large,
        BadFrame::Flag => FrameFault::Flag,
        BadFrame::Channels => FrameFault::Channels,
        BadFrame::Long => FrameFault::Long,
        BadFrame::Cut => FrameFault::Cut,
    }
}

// The answer at an end.
fn answer_of(ending: Ending) -> MessagePoll
    ensures value { result ≡ answer_to ending }
    ensures stop { IsStop (Some ending) result }
{
    match ending {
        Ending::End => MessagePoll::End,
        Ending::Fault(bad) => MessagePoll::Fault(fault_of(bad)),
    }
}

impl Decoder {
    // A decoder that read nothing. It takes no memory.
    #[tactic(auto, using(crate::proofs::Headers::no_header))]
    pub(crate) fn new(alloc: Global, limits: Limits) -> Decoder
        ensures { result ≡ fresh limits }
    {
        Decoder {
            limits,
            channels: Vec::new(alloc),
            head: ByteList::new(alloc),
            piece: None,
            bytes: ByteList::new(alloc),
            stop: None,
            offset: 0,
        }
    }

    // How many bytes the whole pieces had.
    pub(crate) fn offset(&self) -> u64
        ensures { result ≡ self.now.offset }
    {
        self.offset
    }

    // How many channels are open. What is kept is within the limits.
    pub(crate) fn open_channels(&self) -> usize
        ensures value { result ≡ length self.now.channels }
        ensures within { IsBounded self.now.limits self.now.channels self.now.piece self.now.bytes }
    {
        self.channels.len()
    }

    // The answer that needs no more bytes: the end, or that of a piece whose bytes are all there.
    #[tactic(auto, using(crate::proofs::Reading::stopped))]
    pub(crate) fn ready(&mut self) -> Option<MessagePoll>
        requires { self.old.offset < 2 ^ 62 }
        ensures none { MatchOption result ((self.new.stop ≡ None) × IfSome self.new.piece (λ p. 0 < p.lacks)) (λ answer. IsOwn answer ⊥) }
        ensures stop { IfSome result (λ answer. IsStop self.new.stop answer) }
        ensures answer { (left : List ℕ) → MatchOption result (rest_of self.new left ≡ rest_of self.old left)
            (λ answer. Polled (rest_of self.old left) (rest_of self.new left) answer) }
    {
        if let Some(ending) = self.stop {
            return Some(answer_of(ending));
        }
        match self.piece {
            Some(piece) => {
                if piece.lacks > 0 {
                    return None;
                }
                self.finish(piece)
            }
            None => None,
        }
    }

    // Takes bytes of what is buffered, and answers how many.
    pub(crate) fn feed(&mut self, bytes: &[u8]) -> (usize, MessagePoll)
        requires some { 0 < length bytes.now }
        requires stop { self.old.stop ≡ None }
        requires lacks { IfSome self.old.piece (λ p. 0 < p.lacks) }
        ensures within { result.0 ≤ length bytes.now }
        ensures own { IsOwn result.1 (0 < result.0) }
        ensures stop { IsStop self.new.stop result.1 }
        ensures answer { (more : List ℕ) → Polled (rest_of self.old (bytes.now ++ more))
            (rest_of self.new (drop result.0 bytes.now ++ more)) result.1 }
    {
        match self.piece {
            Some(piece) => self.feed_piece(piece, bytes),
            None => self.feed_start(bytes),
        }
    }

    // The answer where no bytes are left: inside a piece, a header or a message these are cut.
    pub(crate) fn end(&mut self) -> MessagePoll
        requires stop { self.old.stop ≡ None }
        requires lacks { IfSome self.old.piece (λ p. 0 < p.lacks) }
        ensures own { IsOwn result ⊥ }
        ensures stop { IsStop self.new.stop result }
        ensures answer { Polled (rest_of self.old []) (rest_of self.new []) result }
    {
        if let Some(_) = self.piece {
            return self.stop_at(BadFrame::Cut);
        }
        if !self.head.is_empty() {
            return self.stop_at(BadFrame::Cut);
        }
        if !self.channels.is_empty() {
            return self.stop_at(BadFrame::Cut);
        }
        self.stop = Some(Ending::End);
        MessagePoll::End
    }

    // Gives the message of a piece whose bytes are all there, or keeps its channel open.
    fn finish(&mut self, piece: Begun) -> Option<MessagePoll>
        requires stop { self.old.stop ≡ None }
        requires piece { self.old.piece ≡ Some piece }
        requires whole { piece.lacks ≡ 0 }
        requires offset { self.old.offset < 2 ^ 62 }
        ensures none { MatchOption result ((self.new.stop ≡ None) × (self.new.piece ≡ None)) (λ answer. IsOwn answer ⊥) }
        ensures stop { IfSome result (λ answer. IsStop self.new.stop answer) }
        ensures answer { (left : List ℕ) → MatchOption result (rest_of self.new left ≡ rest_of self.old left)
            (λ answer. Polled (rest_of self.old left) (rest_of self.new left) answer) }
    {
        let none = ByteList::new(*self.channels.allocator());
        let message = Message {
            channel: piece.channel,
            bytes: mem::replace(&mut self.bytes, none),
        };
        if piece.last {
            self.piece = None;
            self.offset += piece.size;
            return Some(MessagePoll::Message(message));
        }
        match self.channels.push(message) {
            Ok(()) => {
                self.piece = None;
                self.offset += piece.size;
                None
            }
            Err(refused) => {
                let Message { channel: _, bytes } = refused.value;
                self.bytes = bytes;
                Some(MessagePoll::Fault(FrameFault::OutOfMemory))
            }
        }
    }

    // Takes the headers that the bytes begin with, and their pieces, as far as no message is whole.
    fn feed_start(&mut self, bytes: &[u8]) -> (usize, MessagePoll)
        requires some { 0 < length bytes.now }
        requires stop { self.old.stop ≡ None }
        requires piece { self.old.piece ≡ None }
        ensures within { result.0 ≤ length bytes.now }
        ensures own { IsOwn result.1 (0 < result.0) }
        ensures stop { IsStop self.new.stop result.1 }
        ensures answer { (more : List ℕ) → Polled (rest_of self.old (bytes.now ++ more))
            (rest_of self.new (drop result.0 bytes.now ++ more)) result.1 }
    {
        let (count, answer) = self.feed_header(bytes);
        match answer {
            MessagePoll::Again => self.go_on(bytes, count),
            _ => (count, answer),
        }
    }

    // Goes on behind so many of the bytes, as far as no message is whole. Answers how many bytes are taken then.
    fn go_on(&mut self, bytes: &[u8], count: usize) -> (usize, MessagePoll)
        requires some { 0 < count }
        requires count { count ≤ length bytes.now }
        ensures within { result.0 ≤ length bytes.now }
        ensures own { IsOwn result.1 (0 < result.0) }
        ensures stop { IsStop self.new.stop result.1 }
        ensures answer { (more : List ℕ) → Polled (rest_of self.old (drop count bytes.now ++ more))
            (rest_of self.new (drop result.0 bytes.now ++ more)) result.1 }
    {
        let mut done = count;
        while done < bytes.len() && self.is_between() {
            let (_, rest) = bytes.split_at(done);
            let (more, answer) = self.feed_header(rest);
            done += more;
            let MessagePoll::Again = answer else {
                return (done, answer);
            };
        }
        let Some(piece) = self.lacking() else {
            return (done, MessagePoll::Again);
        };
        let (_, rest) = bytes.split_at(done);
        if rest.is_empty() {
            return (done, MessagePoll::Again);
        }
        let (more, answer) = self.feed_piece(piece, rest);
        (done + more, answer)
    }

    // It is between two pieces, or inside a header, and the reading goes on.
    fn is_between(&self) -> bool
        ensures { IsTrue result → (self.now.stop ≡ None) × (self.now.piece ≡ None) }
    {
        self.stop.is_none() && self.piece.is_none()
    }

    // The piece that lacks bytes, unless the reading ended.
    fn lacking(&self) -> Option<Begun>
        ensures { IfSome result (λ p. (self.now.stop ≡ None) × (self.now.piece ≡ Some p) × 0 < p.lacks) }
    {
        if let Some(_) = self.stop {
            return None;
        }
        match self.piece {
            Some(piece) if piece.lacks > 0 => Some(piece),
            _ => None,
        }
    }

    // Takes bytes of a piece that is begun.
    fn feed_piece(&mut self, piece: Begun, bytes: &[u8]) -> (usize, MessagePoll)
        requires some { 0 < length bytes.now }
        requires stop { self.old.stop ≡ None }
        requires piece { self.old.piece ≡ Some piece }
        requires lacks { 0 < piece.lacks }
        ensures within { result.0 ≤ length bytes.now }
        ensures own { IsOwn result.1 (0 < result.0) }
        ensures stop { IsStop self.new.stop result.1 }
        ensures answer { (more : List ℕ) → Polled (rest_of self.old (bytes.now ++ more))
            (rest_of self.new (drop result.0 bytes.now ++ more)) result.1 }
    {
        let count = piece.lacks.min(bytes.len());
        let (front, _) = bytes.split_at(count);
        match self.bytes.append(front) {
            Ok(()) => {
                self.piece = Some(Begun {
                    channel: piece.channel,
                    last: piece.last,
                    lacks: piece.lacks - count,
                    size: piece.size,
                });
                (count, MessagePoll::Again)
            }
            Err(_) => (0, MessagePoll::Fault(FrameFault::OutOfMemory)),
        }
    }

    // Takes the header that the bytes begin with. Bytes of less than a whole header are kept.
    fn feed_header(&mut self, bytes: &[u8]) -> (usize, MessagePoll)
        requires some { 0 < length bytes.now }
        requires stop { self.old.stop ≡ None }
        requires piece { self.old.piece ≡ None }
        ensures within { result.0 ≤ length bytes.now }
        ensures own { IsOwn result.1 (0 < result.0) }
        ensures stop { IsStop self.new.stop result.1 }
        ensures answer { (more : List ℕ) → Polled (rest_of self.old (bytes.now ++ more))
            (rest_of self.new (drop result.0 bytes.now ++ more)) result.1 }
    {
        if !self.head.is_empty() {
            return self.feed_byte(bytes[0]);
        }
        match header_of(bytes) {
            Header::Whole(head, count) => self.feed_whole(head, count, bytes),
            Header::Bad(bad) => (0, self.stop_at(bad)),
            Header::Cut => match self.head.append(bytes) {
                Ok(()) => (bytes.len(), MessagePoll::Again),
                Err(_) => (0, MessagePoll::Fault(FrameFault::OutOfMemory)),
            },
        }
    }

    // Takes the piece that the bytes begin with, if it is whole and goes on with the message of the channel that was opened last; else its
    // header.
    fn feed_whole(&mut self, head: Head, count: usize, bytes: &[u8]) -> (usize, MessagePoll)
        requires stop { self.old.stop ≡ None }
        requires piece { self.old.piece ≡ None }
        requires begun { self.old.head ≡ [] }
        requires is { header_at bytes.now ≡ Whole head count }
        requires within { IsHeader (length bytes.now) (Whole head count) }
        ensures within { result.0 ≤ length bytes.now }
        ensures own { IsOwn result.1 (0 < result.0) }
        ensures stop { IsStop self.new.stop result.1 }
        ensures answer { (more : List ℕ) → Polled (rest_of self.old (bytes.now ++ more))
            (rest_of self.new (drop result.0 bytes.now ++ more)) result.1 }
    {
        let (_, rest) = bytes.split_at(count);
        if head.size <= rest.len() {
            let (front, _) = rest.split_at(head.size);
            if self.extend(head, count, front) {
                return (count + head.size, MessagePoll::Again);
            }
        }
        (count, self.begin(head, count))
    }

    // Takes a whole piece that isn't the last one of its message, if its channel was opened last. Answers whether it did: else nothing has
    // changed.
    fn extend(&mut self, head: Head, count: usize, bytes: &[u8]) -> bool
        requires stop { self.old.stop ≡ None }
        requires piece { self.old.piece ≡ None }
        requires begun { self.old.head ≡ [] }
        requires size { length bytes.now ≡ head.size }
        requires small { head.size ≤ 65536 }
        requires count { count ≤ 11 }
        ensures same { result ≡ false → self.new ≡ self.old }
        ensures rest { IsTrue result → (left : List ℕ) → rest_of self.new left ≡ taken (λ o n b. read_from self.old.limits o n b)
            self.old.channels self.old.offset head count (bytes.now ++ left) (refusal self.old.limits self.old.channels head) }
    {
        if head.last || self.offset >= MOST_OFFSET {
            return false;
        }
        if !extended(&mut self.channels, head.channel, bytes, self.limits.bytes) {
            return false;
        }
        self.offset += count as u64 + head.size as u64;
        true
    }

    // Takes one more byte of a header that is begun.
    fn feed_byte(&mut self, byte: u8) -> (usize, MessagePoll)
        requires stop { self.old.stop ≡ None }
        requires piece { self.old.piece ≡ None }
        ensures within { result.0 ≤ 1 }
        ensures own { IsOwn result.1 (0 < result.0) }
        ensures stop { IsStop self.new.stop result.1 }
        ensures answer { (more : List ℕ) → Polled (rest_of self.old (byte ∷ more))
            (rest_of self.new (drop result.0 (byte ∷ []) ++ more)) result.1 }
    {
        match self.head.push(byte) {
            Ok(()) => match header_of(self.head.as_slice()) {
                Header::Whole(head, count) => {
                    self.head.truncate(0);
                    (1, self.begin(head, count))
                }
                Header::Bad(bad) => {
                    self.head.truncate(0);
                    (1, self.stop_at(bad))
                }
                Header::Cut => (1, MessagePoll::Again),
            },
            Err(_) => (0, MessagePoll::Fault(FrameFault::OutOfMemory)),
        }
    }

    // Begins the piece of a header of so many bytes, unless it is refused.
    fn begin(&mut self, head: Head, count: usize) -> MessagePoll
        requires stop { self.old.stop ≡ None }
        requires begun { self.old.head ≡ [] }
        requires size { head.size ≤ 65536 }
        requires count { count ≤ 11 }
        ensures own { IsOwn result ⊤ }
        ensures stop { IsStop self.new.stop result }
        ensures answer { (left : List ℕ) → Polled (taken (λ o n b. read_from self.old.limits o n b) self.old.channels self.old.offset
            head count left (refusal self.old.limits self.old.channels head)) (rest_of self.new left) result }
    {
        let already = self.channels.len();
        let (bytes, known) = opened(&mut self.channels, head.channel);
        if !head.last && !known && already >= self.limits.channels {
            return self.stop_at(BadFrame::Channels);
        }
        if bytes.len() + head.size > self.limits.bytes {
            return self.stop_at(BadFrame::Long);
        }
        self.bytes = bytes;
        self.piece = Some(Begun {
            channel: head.channel,
            last: head.last,
            lacks: head.size,
            size: count as u64 + head.size as u64,
        });
        MessagePoll::Again
    }

    // Ends the reading at a piece that is wrong.
    #[tactic(auto, using(crate::proofs::Reading::stopped))]
    fn stop_at(&mut self, bad: BadFrame) -> MessagePoll
        ensures own { IsOwn result ⊥ }
        ensures stop { IsStop self.new.stop result }
        ensures rest { (left : List ℕ) → rest_of self.new left ≡ stops (Fault bad) self.old.offset }
        ensures answer { (left : List ℕ) → Polled (stops (Fault bad) self.old.offset) (rest_of self.new left) result }
    {
        self.stop = Some(Ending::Fault(bad));
        answer_of(Ending::Fault(bad))
    }
}
