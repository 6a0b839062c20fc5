//! A source that is lent to a reader and comes back.
ghost use Rattle.std.specs.Prelude.{◌≡◌, ◌≤◌, ◌<◌, ℕ, List, [], IsTrue, true, false, length, IfOk, OnOk, OnErr};
ghost use Rattle.rent_io.specs.Counts.{Rose};
ghost use Rattle.rent_io.specs.Source.{Gives};
ghost use Rattle.frame_run.specs.Places.{SourceAt, StopsFor, left_of};

use crate::unframing::Unframed;
use rent_io::{ByteSource, Failed};
use std::marker::{Brand, PhantomData};

/// How a source and a sink were before the call, as constants of a type, since values that are borrowed for the call speak of
/// them: the name of the source's borrow, what was left and what was taken, the counts of faults, and how many bytes may be
/// read at most.
pub trait Places {
    ghost source: { ℕ };

    ghost most: { ℕ };

    ghost left: { List ℕ };

    ghost taken: { List ℕ };

    ghost read_faults: { ℕ };

    ghost write_faults: { ℕ };
}

impl Places for Brand {
    ghost source = { 0 };

    ghost most = { 0 };

    ghost left = { [] };

    ghost taken = { [] };

    ghost read_faults = { 0 };

    ghost write_faults = { 0 };
}

/// A source, and how its reading ended.
pub(crate) struct Ended<'a, S> {
    pub(crate) source: &'a mut S,
    pub(crate) ending: Unframed,
}

/// A source that gives so many bytes at most. Where there is one more it fails instead of giving it.
pub(crate) struct LentSource<'a, S: ByteSource, P: Places> {
    source: &'a mut S,
    // How many bytes it may still give.
    room: usize,
    // There are more than those, and this is the next one.
    over: bool,
    next: u8,
    failures: u64,
    of: PhantomData<P>,
    ghost home: { SourceAt S.tells P.most P.left P.read_faults P.source (S.left source.now) (S.faults source.now) source.ghost_name
        room over failures },
}

/// Lends a source. It gives `most` bytes at most.
pub(crate) fn lend<'a, S: ByteSource, P: Places>(
    most: usize,
    ended: Ended<'a, S>,
) -> LentSource<'a, S, P>
    requires most { P.most ≡ most }
    requires source { ended.source.ghost_name ≡ P.source }
    requires left { S.left ended.source.now ≡ P.left }
    requires read_faults { S.faults ended.source.now ≡ P.read_faults }
    ensures source { result.source.now ≡ ended.entry.source.now }
    ensures over { result.over ≡ false }
{
    let Ended { source, ending: _ } = ended;
    LentSource {
        source,
        room: most,
        over: false,
        next: 0,
        failures: 0,
        of: PhantomData,
    }
}

/// Gives the source back.
pub(crate) fn give_back<'a, S: ByteSource, P: Places>(
    ending: Unframed,
    source: LentSource<'a, S, P>,
) -> Ended<'a, S>
    ensures ending { result.ending ≡ ending }
    ensures source { result.source.now ≡ source.entry.source.now }
    ensures same_source { result.source.ghost_name ≡ P.source }
{
    let LentSource {
        source,
        room: _,
        over: _,
        next: _,
        failures: _,
        of: _,
    } = source;
    Ended { source, ending }
}

impl<'a, S: ByteSource, P: Places> LentSource<'a, S, P> {
    /// Why no more is read of it: it has too many bytes, or it failed, or else memory ran out.
    pub(crate) fn why_stopped(&self) -> Unframed
        ensures { StopsFor self.now.over self.now.failures result }
    {
        if self.over {
            return Unframed::TooLong;
        }
        if self.failures > 0 {
            return Unframed::ReadFault;
        }
        Unframed::OutOfMemory
    }

    // Looks whether there is a byte behind those that it may give, and gives none.
    fn probe(&mut self) -> Result<usize, Failed>
        requires full { self.old.room ≡ 0 }
        requires open { self.old.over ≡ false }
        ensures none { IfOk result (λ n. n ≡ 0) }
        ensures left { IsTrue S.tells → left_of self.new.over self.new.next (S.left self.new.source.now) ≡ S.left self.old.source.now }
        ensures end { OnOk result (IsTrue S.tells → S.left self.old.source.now ≡ []) }
        ensures calm { OnOk result (self.new.failures ≡ self.old.failures) }
        ensures rose { OnErr result (Rose self.old.failures self.new.failures) }
        ensures later { self.old.failures ≤ self.new.failures }
    {
        let mut more = [0];
        match self.source.read(&mut more) {
            Ok(0) => Ok(0),
            Ok(_) => {
                self.failures = self.failures.saturating_add(1);
                self.over = true;
                self.next = more[0];
                Err(Failed)
            }
            Err(failed) => {
                self.failures = self.failures.saturating_add(1);
                Err(failed)
            }
        }
    }
}

impl<'a, S: ByteSource, P: Places> ByteSource for LentSource<'a, S, P> {
    ghost tells = { S.tells };

    ghost left = { λ s. left_of s.over s.next (S.left s.source.now) };

    ghost faults = { λ s. s.failures };

    fn read(&mut self, room: &mut [u8]) -> Result<usize, Failed> {
        if room.is_empty() {
            return Ok(0);
        }
        if self.over {
            self.failures = self.failures.saturating_add(1);
            return Err(Failed);
        }
        if self.room == 0 {
            return self.probe();
        }
        let most = room.len().min(self.room);
        match read_first(self.source, room, most) {
            Ok(count) => {
                self.room -= count;
                Ok(count)
            }
            Err(failed) => {
                self.failures = self.failures.saturating_add(1);
                Err(failed)
            }
        }
    }
}

// Reads into the first bytes of the room, so many.
fn read_first<S: ByteSource>(source: &mut S, room: &mut [u8], most: usize) -> Result<usize, Failed>
    requires { most ≤ length room.old }
    ensures size { length room.new ≡ length room.old }
    ensures some { IfOk result (λ n. (n ≤ most) × (IsTrue S.tells → Gives (S.left source.old) (S.left source.new) room.new most n)) }
    ensures calm { OnOk result (IsTrue S.tells → S.faults source.new ≡ S.faults source.old) }
    ensures none { OnErr result (IsTrue S.tells → S.left source.new ≡ S.left source.old) }
    ensures rose { OnErr result (Rose (S.faults source.old) (S.faults source.new)) }
    ensures later { S.faults source.old ≤ S.faults source.new }
{
    source.read(&mut room[..most])
}
