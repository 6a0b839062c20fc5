// A copy of all that a stream has left to another stream, by splices.
ghost use Rattle.std.specs.Prelude.{◌≡◌, ◌≤◌, [], length};
ghost use Rattle.rent_io.specs.declared.poll.Step.TheVariants.{Ready};
ghost use Rattle.rent_io.specs.Writer.{EndsStay};
ghost use Rattle.stream_util.specs.Copy.{CopyCompletes, OneCall, IsSameJoined, held_in};
ghost use Rattle.stream_util.specs.ZeroCopy.{ZeroCopies, SplicesNone};

use crate::copy::Copied;
use crate::splice::{MemPipe, SpliceDestination, SpliceSource};
use rent_buf::IoFault;
use rent_io::{PollCount, Step};
use std::alloc::Global;
use std::marker::Model;

/// The most bytes that one splice of a `ZeroCopy` moves (monoio: `BUF_SIZE`).
pub const MOST_SPLICED: u32 = 4096;

/// A copy from a stream to a stream by splices through a pipe of its own (monoio: the future of `zero_copy`). A clause sees
/// it as a `Copy`: the bytes that it read and did not deliver, and how many bytes it delivered.
#[derive(Debug, Drop)]
#[must_use]
pub struct ZeroCopy {
    pipe: MemPipe,
    count: u64,
}

impl Model for ZeroCopy {
    ghost use Rattle.std.specs.Prelude.{◌≤◌, ◌<◌, ◌^◌, length};
    ghost use Rattle.stream_util.specs.Copy.{Copying};
    ghost use Rattle.stream_util.specs.declared.zero_copy.TheConstants.{MOST_SPLICED};

    ghost Value = { Copying };

    ghost view = { λ s. record { held = s.pipe; count = s.count } };

    ghost invariant = { λ s. (length s.pipe ≤ MOST_SPLICED) × (s.count < 2 ^ 64) };
}

impl ZeroCopy {
    /// A copy that holds nothing.
    pub fn new(alloc: Global) -> ZeroCopy
        ensures { result ≡ record { held = []; count = 0 } }
    {
        ZeroCopy {
            pipe: MemPipe::new(alloc),
            count: 0,
        }
    }

    /// What was read and not delivered: at most `MOST_SPLICED` bytes.
    pub fn held(&self) -> &[u8]
        ensures value { result.now ≡ self.now.held }
        ensures within { length result.now ≤ MOST_SPLICED }
    {
        let _ = self.count;
        self.pipe.bytes()
    }

    /// Makes one splice at most: out of the pipe where bytes are in it, or else into it, of 4096 bytes at most. It is done
    /// with the number of the bytes that it delivered, once a splice in gives none; with `WriteZero`, where a splice out
    /// took none of some bytes; with `OutOfMemory`, where the pipe couldn't grow; or with a stream's fault. What it then held
    /// is the rest.
    #[tactic(auto, using(crate::proofs::Completeness::zero_copy_completes))]
    pub fn poll<S: SpliceSource, D: SpliceDestination>(
        self,
        reader: &mut S,
        writer: &mut D,
        task: u64,
    ) -> Step<ZeroCopy, Copied>
        ensures answer { ZeroCopies S.tells D.tells task (record { reader = S.source reader.old; writer = D.destination writer.old })
            (record { reader = S.source reader.new; writer = D.destination writer.new }) self result }
        ensures counts { OneCall (record { reader = S.source reader.old; writer = D.destination writer.old })
            (record { reader = S.source reader.new; writer = D.destination writer.new }) }
        ensures ends { EndsStay (D.destination writer.old) (D.destination writer.new) }
        ensures joined { IsSameJoined S.tells D.tells (record { reader = S.source reader.old; writer = D.destination writer.old })
            (record { reader = S.source reader.new; writer = D.destination writer.new }) self.held (held_in result) }
        ensures within { length (held_in result) ≤ MOST_SPLICED }
        ensures complete { CopyCompletes S.tells D.tells (record { reader = S.source reader.old; writer = D.destination writer.old })
            (record { reader = S.source reader.new; writer = D.destination writer.new }) self result
            (SplicesNone (record { reader = S.source reader.old; writer = D.destination writer.old })
            (record { reader = S.source reader.new; writer = D.destination writer.new }) self) }
    {
        let ZeroCopy { mut pipe, count } = self;
        if pipe.bytes().is_empty() {
            return match reader.poll_splice_to(&mut pipe, MOST_SPLICED, task) {
                PollCount::Ready(Ok(n)) => {
                    if n == 0 {
                        return ended(Ok(count), pipe);
                    }
                    Step::Again(ZeroCopy { pipe, count })
                }
                PollCount::Ready(Err(fault)) => ended(Err(fault), pipe),
                PollCount::Pending => Step::Pending(ZeroCopy { pipe, count }),
                PollCount::Again => Step::Again(ZeroCopy { pipe, count }),
            };
        }
        match writer.poll_splice_from(&mut pipe, MOST_SPLICED, task) {
            PollCount::Ready(Ok(n)) => {
                if n == 0 {
                    return ended(Err(IoFault::WriteZero), pipe);
                }
                Step::Again(ZeroCopy {
                    pipe,
                    count: count.saturating_add(n),
                })
            }
            PollCount::Ready(Err(fault)) => ended(Err(fault), pipe),
            PollCount::Pending => Step::Pending(ZeroCopy { pipe, count }),
            PollCount::Again => Step::Again(ZeroCopy { pipe, count }),
        }
    }
}

// How a copy ends that holds the bytes of this pipe.
fn ended(outcome: Result<u64, IoFault>, pipe: MemPipe) -> Step<ZeroCopy, Copied>
    ensures { result ≡ Ready (record { result = outcome; rest = pipe }) }
{
    Step::Ready(Copied {
        result: outcome,
        rest: pipe.into_list(),
    })
}
