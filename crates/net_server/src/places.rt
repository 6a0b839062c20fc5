// How many connections are open, and whether there is a place for another.
ghost use Rattle.std.specs.Prelude.{◌≡◌, ◌<◌, ◌≤◌, ◌+◌, ◌-◌, true, false, IfSome, None, Some};
ghost use Rattle.net_server.specs.Server.{IsTurnFault, connections_in, connections_of};

use crate::fault::ServerFault;
use crate::net_job::NetEnd;
use crate::serve::Serve;
use handle_core::SharedFd;

// The places of a server's connections. Those that are open have one each, and so has the one that is accepted.
#[derive(Drop)]
pub(crate) struct Places {
    // How many there are.
    pub(crate) most: usize,
    // How many connections are open.
    pub(crate) count: usize,
    // An accept waits.
    pub(crate) accepting: bool,
    // A handle that was accepted, and has no connection yet.
    pub(crate) waiting: Option<SharedFd>,
    // When the last accept failed, if none was made since.
    pub(crate) failed: Option<u64>,
}

impl Places {
    // So many places, all free.
    pub(crate) fn new(most: usize) -> Places
        ensures { (result.most ≡ most) × (result.count ≡ 0) }
    {
        Places {
            most,
            count: 0,
            accepting: false,
            waiting: None,
            failed: None,
        }
    }

    // Whether there is a place for a further connection.
    pub(crate) fn has_place(&self) -> bool
        ensures free { result ≡ true → self.now.count < self.now.most }
        ensures full { result ≡ false → self.now.most ≤ self.now.count + 1 }
    {
        let free = self.most.saturating_sub(self.count);
        if self.accepting || self.waiting.is_some() {
            free > 1
        } else {
            free > 0
        }
    }

    // A connection takes a place.
    pub(crate) fn take(&mut self)
        requires place { self.old.count < self.old.most }
        ensures count { self.new.count ≡ self.old.count + 1 }
        ensures most { self.new.most ≡ self.old.most }
    {
        self.count += 1;
    }

    // Whether a server that listens is to accept at this moment: no accept waits, there is a place, and none failed at this moment with no
    // connection ended since.
    pub(crate) fn may_accept(&self, now: u64) -> bool {
        let failed = match self.failed {
            Some(at) => at >= now,
            None => false,
        };
        !self.accepting && self.waiting.is_none() && !failed && self.has_place()
    }

    // An accept waits from now on.
    pub(crate) fn begin_accept(&mut self)
        ensures { (self.new.most ≡ self.old.most) × (self.new.count ≡ self.old.count) }
    {
        self.accepting = true;
        self.failed = None;
    }

    // Notes what a job ended with at a moment: what is to be told of it.
    pub(crate) fn note<S: Serve>(&mut self, end: &NetEnd<S>, now: u64) -> Option<ServerFault>
        ensures count { self.new.count ≡ self.old.count - connections_of end.now }
        ensures most { self.new.most ≡ self.old.most }
        ensures faults { IfSome result IsTurnFault }
    {
        match end {
            NetEnd::Accepted(fd) => {
                self.accepting = false;
                self.waiting = Some(*fd);
                None
            }
            NetEnd::NotAccepted(why) => {
                self.accepting = false;
                self.failed = Some(now);
                Some(ServerFault::Accept(*why))
            }
            NetEnd::Ended(_) => {
                self.count = self.count.saturating_sub(1);
                self.failed = None;
                None
            }
        }
    }

    // Notes what ended: the first of what is to be told.
    pub(crate) fn note_all<S: Serve>(
        &mut self,
        ended: &[(u64, NetEnd<S>)],
        now: u64,
    ) -> Option<ServerFault>
        ensures count { self.new.count ≡ self.old.count - connections_in ended.now }
        ensures most { self.new.most ≡ self.old.most }
        ensures faults { IfSome result IsTurnFault }
    {
        let mut told = None;
        let mut rest = ended;
        while let [one, behind @ ..] = rest {
            told = first(told, self.note(&one.1, now));
            rest = behind;
        }
        told
    }
}

// The first of two faults.
pub(crate) fn first(one: Option<ServerFault>, other: Option<ServerFault>) -> Option<ServerFault>
    ensures some { IfSome one (λ why. result ≡ Some why) }
    ensures none { one ≡ None → result ≡ other }
    ensures faults { IfSome one IsTurnFault → IfSome other IsTurnFault → IfSome result IsTurnFault }
{
    match one {
        Some(why) => Some(why),
        None => other,
    }
}
