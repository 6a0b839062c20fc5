// A copy of all that a stream has left to another stream.
ghost use Rattle.std.specs.Prelude.{◌≡◌, ◌≤◌, [], length, drop, IfOk, IfErr};
ghost use Rattle.rent_io.specs.declared.poll.Step.TheVariants.{Ready};
ghost use Rattle.rent_io.specs.Polls.{TookNone};
ghost use Rattle.rent_io.specs.Writer.{EndsStay};
ghost use Rattle.stream_util.specs.Copy.{Copies, CopyCompletes, Runs, CopiesAll, OneCall, RunCalls, IsSameJoined, held_in};

use rent_buf::{ByteList, IoBufMut as _, IoFault, OutOfMemory, Rent, Slice};
use rent_io::{AsyncReadRent, AsyncWriteRent, PollBuf, Step};
use std::alloc::Global;
use std::marker::Model;

/// The most bytes that a copy holds.
pub const MOST_HELD: usize = 4096;

/// A copy from a stream to a stream (monoio: the future of `copy`). A clause sees it as the bytes that it read and did
/// not deliver, and how many bytes it delivered.
#[derive(Debug, Drop)]
#[must_use]
pub struct Copy {
    buf: Rent,
    sent: usize,
    count: u64,
}

impl Model for Copy {
    ghost use Rattle.std.specs.Prelude.{◌≡◌, ◌≤◌, ◌<◌, ◌^◌, length, drop};
    ghost use Rattle.stream_util.specs.Copy.{Copying};
    ghost use Rattle.stream_util.specs.declared.copy.TheConstants.{MOST_HELD};

    ghost Value = { Copying };

    ghost view = { λ s. record { held = drop s.sent s.buf.bytes; count = s.count } };

    ghost invariant = { λ s. (s.sent ≤ length s.buf.bytes) × (s.buf.total ≡ MOST_HELD) × (s.count < 2 ^ 64) };
}

/// How a copy ended (not in monoio).
#[derive(Debug, Drop)]
pub struct Copied {
    /// How many bytes were delivered, at most the last `u64`, or why the copy stopped.
    pub result: Result<u64, IoFault>,
    /// What was read and not delivered.
    pub rest: ByteList,
}

impl Copy {
    /// A copy that holds nothing. `OutOfMemory` if there is no memory for 4096 bytes.
    pub fn new(alloc: Global) -> Result<Copy, OutOfMemory>
        ensures { IfOk result (λ copy. copy ≡ record { held = []; count = 0 }) }
    {
        let buf = Rent::with_total(alloc, MOST_HELD)?;
        Ok(Copy {
            buf,
            sent: 0,
            count: 0,
        })
    }

    /// A copy that takes up one that ended with this rest, and counts from 0 again (not in monoio). If memory runs out,
    /// the rest comes back.
    pub fn resume(rest: ByteList) -> Result<Copy, (OutOfMemory, ByteList)>
        requires { length rest ≤ MOST_HELD }
        ensures ok { IfOk result (λ copy. copy ≡ record { held = rest; count = 0 }) }
        ensures err { IfErr result (λ refused. refused.1 ≡ rest) }
    {
        match Rent::from_vec(rest.into_vec(), MOST_HELD) {
            Ok(buf) => Ok(Copy {
                buf,
                sent: 0,
                count: 0,
            }),
            Err((refused, items)) => Err((refused, ByteList::from_vec(items))),
        }
    }

    /// What was read and not delivered: at most `MOST_HELD` bytes.
    pub fn held(&self) -> &[u8]
        ensures value { result.now ≡ self.now.held }
        ensures within { length result.now ≤ MOST_HELD }
    {
        self.buf.keeps_bounds();
        &self.buf.as_slice()[self.sent..]
    }

    /// How many bytes it delivered, or the last `u64`, if there were more (not in monoio).
    pub fn count(&self) -> u64
        ensures { result ≡ self.now.count }
    {
        self.count
    }

    /// Polls `turns` times at most, until it is done or has to wait for a pause (not in monoio). At `Again` all of them
    /// are used: each moved a byte, or a stream was interrupted. Where it ends Ok, the writer got
    /// what the copy held and all that the reader had left, and the number counts that. Whatever the schedule, no byte
    /// is lost, repeated or moved: the bytes that were delivered, those that it holds and those that are left, joined,
    /// stay the same list. It makes as many calls as turns, at most.
    pub fn run<R: AsyncReadRent, W: AsyncWriteRent>(
        self,
        reader: &mut R,
        writer: &mut W,
        task: u64,
        turns: u64,
    ) -> Step<Copy, Copied>
        ensures answer { Runs R.tells W.tells task turns (record { reader = R.reader reader.old; writer = W.writer writer.old })
            (record { reader = R.reader reader.new; writer = W.writer writer.new }) self result }
        ensures all { CopiesAll R.tells W.tells (record { reader = R.reader reader.old; writer = W.writer writer.old })
            (record { reader = R.reader reader.new; writer = W.writer writer.new }) self result }
        ensures counts { RunCalls turns (record { reader = R.reader reader.old; writer = W.writer writer.old })
            (record { reader = R.reader reader.new; writer = W.writer writer.new }) }
        ensures joined { IsSameJoined R.tells W.tells (record { reader = R.reader reader.old; writer = W.writer writer.old })
            (record { reader = R.reader reader.new; writer = W.writer writer.new }) self.held (held_in result) }
        ensures ends { EndsStay (W.writer writer.old) (W.writer writer.new) }
        ensures within { length (held_in result) ≤ MOST_HELD }
    {
        let _ = self.count();
        let _ = self.held();
        let mut copy = self;
        for _ in 0..turns {
            match copy.poll(reader, writer, task) {
                Step::Again(next) => copy = next,
                Step::Pending(next) => return Step::Pending(next),
                Step::Ready(copied) => return Step::Ready(copied),
            }
        }
        Step::Again(copy)
    }

    /// Makes one call at most: a write of what it holds, or a read where it holds nothing. It is done with the number
    /// of the bytes that it delivered, once a read gives none; with `WriteZero`, where a write took none of some bytes;
    /// or with the reader's or the writer's fault. What it then held is the rest. At `Pending` nothing moved, and at
    /// `Again` a stream was interrupted, or some bytes moved. It never flushes.
    #[tactic(auto, using(crate::proofs::Completeness::copy_completes))]
    pub fn poll<R: AsyncReadRent, W: AsyncWriteRent>(
        self,
        reader: &mut R,
        writer: &mut W,
        task: u64,
    ) -> Step<Copy, Copied>
        ensures answer { Copies R.tells W.tells task (record { reader = R.reader reader.old; writer = W.writer writer.old })
            (record { reader = R.reader reader.new; writer = W.writer writer.new }) self result }
        ensures counts { OneCall (record { reader = R.reader reader.old; writer = W.writer writer.old })
            (record { reader = R.reader reader.new; writer = W.writer writer.new }) }
        ensures ends { EndsStay (W.writer writer.old) (W.writer writer.new) }
        ensures joined { IsSameJoined R.tells W.tells (record { reader = R.reader reader.old; writer = W.writer writer.old })
            (record { reader = R.reader reader.new; writer = W.writer writer.new }) self.held (held_in result) }
        ensures within { length (held_in result) ≤ MOST_HELD }
        ensures complete { CopyCompletes R.tells W.tells (record { reader = R.reader reader.old; writer = W.writer writer.old })
            (record { reader = R.reader reader.new; writer = W.writer writer.new }) self result
            (TookNone (W.writer writer.old).counts (W.writer writer.new).counts) }
    {
        let Copy { buf, sent, count } = self;
        let len = buf.len();
        if sent == len {
            return match reader.poll_read(buf, task) {
                PollBuf::Ready(Ok(n), buf) => {
                    if n == 0 {
                        return ended(Ok(count), buf, 0);
                    }
                    Step::Again(Copy {
                        buf,
                        sent: 0,
                        count,
                    })
                }
                PollBuf::Ready(Err(fault), buf) => ended(Err(fault), buf, sent),
                PollBuf::Pending(buf) => Step::Pending(Copy { buf, sent, count }),
                PollBuf::Again(buf) => Step::Again(Copy { buf, sent, count }),
            };
        }
        match writer.poll_write(Slice::new(buf, sent, len), task) {
            PollBuf::Ready(Ok(n), part) => {
                let buf = part.into_inner();
                if n == 0 {
                    return ended(Err(IoFault::WriteZero), buf, sent);
                }
                Step::Again(Copy {
                    buf,
                    sent: sent + n,
                    count: count.saturating_add(n as u64),
                })
            }
            PollBuf::Ready(Err(fault), part) => ended(Err(fault), part.into_inner(), sent),
            PollBuf::Pending(part) => Step::Pending(Copy {
                buf: part.into_inner(),
                sent,
                count,
            }),
            PollBuf::Again(part) => Step::Again(Copy {
                buf: part.into_inner(),
                sent,
                count,
            }),
        }
    }
}

// How a copy ends that holds the bytes of the buffer from `sent` on.
fn ended(outcome: Result<u64, IoFault>, buf: Rent, sent: usize) -> Step<Copy, Copied>
    requires { sent ≤ length buf.bytes }
    ensures { result ≡ Ready (record { result = outcome; rest = drop sent buf.bytes }) }
{
    let mut items = buf.into_vec();
    let len = items.len();
    items.as_mut_slice().copy_within(sent..len, 0);
    items.truncate(len - sent);
    Step::Ready(Copied {
        result: outcome,
        rest: ByteList::from_vec(items),
    })
}
