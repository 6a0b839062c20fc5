// Runs of linked submissions.
use crate::tests::program::{Why, calm, ends_with, replies_are};
use session_core::Status;
use std::alloc::Global;
use std::rt::Clock;
use std::sync::Wait;
use std::thread::Threads;

// Runs that are Done: a name, the words, and each event with its reply.
#[rattlefmt::skip]
const CHAINS: [(&str, &str, &str); 11] = [
    ("a read that waits is executed once its leader succeeded", "run 8",
     "give stream > handle 0;feed 0 6162 > fed;link recv 0 v 1 0 1 - > op 0;submit recv 0 v 1 0 1 - > op 1;turn > turned - - -;\
      exec 1 ok 1 > refused Waiting;exec 0 ok 1 > executed op 0;exec 0 ok 1 > executed op 1;turn > turned 0,1 - -;\
      poll 0 1 > ready ok 1 v 1 0 1 61;poll 1 1 > ready ok 1 v 1 0 1 62"),
    ("a leader that fails takes its chain with it, in order", "run 8",
     "give stream > handle 0;link recv 0 v 1 0 1 - > op 0;link recv 0 v 1 0 1 - > op 1;submit recv 0 v 1 0 1 - > op 2;\
      turn > turned - - -;exec 0 err 104 > executed op 0;exec 0 ok 0 > refused NotFlying;turn > turned 0,1,2 - -;\
      poll 2 4 > ready err 125 v 1 0 1 -"),
    ("a queue of one entry takes two requests apart", "run 1",
     "give stream > handle 0;feed 0 61 > fed;link recv 0 v 1 0 1 - > op 0;submit recv 0 v 1 0 1 - > op 1;turn > turned - - -;\
      exec 1 ok 1 > executed op 1"),
    ("a queue of two entries takes a chain of three apart", "run 2",
     "give stream > handle 0;link recv 0 v 1 0 1 - > op 0;link recv 0 v 1 0 1 - > op 1;submit recv 0 v 1 0 1 - > op 2;\
      turn > turned - - -;exec 1 err 104 > refused Waiting;exec 2 err 104 > executed op 2;exec 0 err 32 > executed op 0;\
      turn > turned 2,0,1 - -;poll 0 1 > ready err 32 v 1 0 1 -;poll 1 1 > ready err 125 v 1 0 1 -;poll 2 1 > ready err 104 v 1 0 1 -"),
    ("a chain that fails in its middle", "run 8",
     "give stream > handle 0;feed 0 616263 > fed;link recv 0 v 1 0 1 - > op 0;link recv 0 v 1 0 1 - > op 1;link recv 0 v 1 0 1 - > op 2;\
      submit recv 0 v 1 0 1 - > op 3;turn > turned - - -;exec 0 ok 1 > executed op 0;exec 1 ok 1 > refused Waiting;\
      exec 0 err 104 > executed op 1;exec 0 ok 1 > refused NotFlying;turn > turned 0,1,2,3 - -;poll 0 1 > ready ok 1 v 1 0 1 61;\
      poll 1 1 > ready err 104 v 1 0 1 -;poll 2 1 > ready err 125 v 1 0 1 -;poll 3 1 > ready err 125 v 1 0 1 -;\
      submit recv 0 v 2 0 2 - > op 4;turn > turned - - -;exec 0 ok 2 > executed op 4;turn > turned 4 - -;\
      poll 4 1 > ready ok 2 v 2 0 2 6263"),
    ("one chain leaves another alone", "run 8",
     "give stream > handle 0;feed 0 6162 > fed;link recv 0 v 1 0 1 - > op 0;submit recv 0 v 1 0 1 - > op 1;link recv 0 v 1 0 1 - > op 2;\
      submit recv 0 v 1 0 1 - > op 3;turn > turned - - -;exec 3 ok 1 > refused Waiting;exec 0 err 104 > executed op 0;\
      exec 1 ok 1 > refused Waiting;exec 0 ok 1 > executed op 2;exec 0 ok 1 > executed op 3;turn > turned 0,1,2,3 - -;\
      poll 1 1 > ready err 125 v 1 0 1 -;poll 2 1 > ready ok 1 v 1 0 1 61;poll 3 1 > ready ok 1 v 1 0 1 62"),
    ("a short send doesn't break a link", "run 8",
     "give stream > handle 0;link send 0 v 2 0 2 6162 > op 0;submit send 0 v 1 0 1 63 > op 1;turn > turned - - -;\
      exec 1 ok 1 > refused Waiting;exec 0 ok 1 > executed op 0;exec 0 ok 1 > executed op 1;look 0 > output 6163"),
    ("what waits and isn't allowed is refused as waiting", "run 8",
     "give stream > handle 0;link recv 0 v 1 0 1 - > op 0;submit recv 0 v 1 0 1 - > op 1;turn > turned - - -;\
      exec 1 ok 7 > refused Waiting;exec 2 ok 7 > refused NotFlying;exec 0 ok 7 > refused BadOutcome"),
    ("a follower's bytes come back as they were submitted, and none is sent", "run 8",
     "give stream > handle 0;link recv 0 v 1 0 1 - > op 0;submit send 0 v 2 0 2 6869 > op 1;turn > turned - - -;poll 0 3 > pending;\
      poll 1 4 > pending;exec 0 err 104 > executed op 0;turn > turned 0,1 - 3,4;poll 1 4 > ready err 125 v 2 0 2 6869;look 0 > output -"),
    ("a link with nothing behind it", "run 8",
     "give stream > handle 0;link recv 0 v 1 0 1 - > op 0;turn > turned - - -;exec 0 err 104 > executed op 0;turn > turned 0 - -;\
      poll 0 1 > ready err 104 v 1 0 1 -"),
    ("splices that wait for each other", "run 8",
     "give stream > handle 0;give pipe > handle 1;give stream > handle 2;feed 0 616263 > fed;link spliceto 0 1 2 > op 0;\
      submit splicefrom 1 2 2 > op 1;turn > turned - - -;exec 1 ok 2 > refused Waiting;exec 0 ok 2 > executed op 0;\
      exec 0 ok 2 > executed op 1;look 1 > output -;look 2 > output 6162;turn > turned 0,1 - -;link spliceto 0 1 2 > op 2;\
      submit splicefrom 1 2 2 > op 3;turn > turned - - -;exec 0 err 32 > executed op 2;turn > turned 2,3 - -;poll 3 1 > ready err 125 -;\
      look 1 > output -;look 2 > output 6162"),
];

// What comes between a linked request and the one behind it.
#[rattlefmt::skip]
const BETWEEN: [(&str, &str, &str); 6] = [
    ("a turn parts them", "run 8",
     "give stream > handle 0;feed 0 61 > fed;link recv 0 v 1 0 1 - > op 0;turn > turned - - -;submit recv 0 v 1 0 1 - > op 1;\
      turn > turned - - -;exec 1 ok 1 > executed op 1;exec 0 err 104 > executed op 0;turn > turned 1,0 - -;\
      poll 1 7 > ready ok 1 v 1 0 1 61;poll 0 7 > ready err 104 v 1 0 1 -"),
    ("a cancel parts them", "run 8",
     "give stream > handle 0;feed 0 61 > fed;link recv 0 v 1 0 1 - > op 0;cancel 0 > asked;submit recv 0 v 1 0 1 - > op 1;\
      turn > turned - - -;exec 1 ok 1 > executed op 1;exec 0 err 125 > executed op 0;turn > turned 1,0 - -;\
      poll 0 1 > ready err 125 v 1 0 1 -;poll 1 1 > ready ok 1 v 1 0 1 61"),
    ("a close parts them", "run 8",
     "give stream > handle 0;give stream > handle 1;feed 0 61 > fed;link recv 0 v 1 0 1 - > op 0;close 1 > released;\
      submit recv 0 v 1 0 1 - > op 1;turn > turned - - -;exec 2 ok 1 > executed op 1;exec 0 err 104 > executed op 0;\
      exec 0 ok 0 > executed close 1;turn > turned 1,0 1 -"),
    ("a submission that comes back at once doesn't", "run 8",
     "give stream > handle 0;canceller > canceller 0;newhandle 0 > cancelhandle 0;cancelall 0 > cancels -;\
      link recv 0 v 1 0 1 - > op 0;under 0 recv 0 v 1 0 1 - > canceled v 1 0 1 -;linkunder 0 send 0 v 1 0 1 61 > canceled v 1 0 1 61;\
      submit recv 0 v 1 0 1 - > op 1;turn > turned - - -;exec 1 err 104 > refused Waiting;exec 0 err 104 > executed op 0;\
      exec 0 ok 0 > refused NotFlying;turn > turned 0,1 - -;poll 1 2 > ready err 125 v 1 0 1 -"),
    ("a refused submission doesn't", "run 8",
     "give stream > handle 0;feed 0 6162 > fed;link recv 0 v 1 0 1 - > op 0;link recv 9 v 1 0 1 - > refused NoHandle;\
      linkunder 5 recv 0 v 1 0 1 - > refused NoCanceller;submit recv 0 v 1 0 1 - > op 1;turn > turned - - -;\
      exec 1 ok 1 > refused Waiting;exec 0 ok 1 > executed op 0;exec 0 ok 1 > executed op 1;turn > turned 0,1 - -;\
      poll 0 1 > ready ok 1 v 1 0 1 61;poll 1 1 > ready ok 1 v 1 0 1 62"),
    ("what queues nothing doesn't", "run 8",
     "give stream > handle 0;give stream > handle 1;link recv 0 v 1 0 1 - > op 0;poll 0 3 > pending;feed 0 61 > fed;look 0 > output -;\
      end 1 > ended;canceller > canceller 0;submit recv 0 v 1 0 1 - > op 1;turn > turned - - -;exec 1 ok 1 > refused Waiting"),
];

// A leader or a follower that is canceled or dropped.
#[rattlefmt::skip]
const CANCELED: [(&str, &str, &str); 14] = [
    ("a leader is dropped before the one behind it is submitted", "run 8",
     "give stream > handle 0;feed 0 61 > fed;link recv 0 v 1 0 1 - > op 0;drop 0 > dropped;submit recv 0 v 1 0 1 - > op 1;\
      turn > turned - - -;exec 1 ok 1 > executed op 1;exec 0 err 125 > executed op 0;turn > turned 1,0 - -"),
    ("a leader is dropped before it was taken", "run 8",
     "give stream > handle 0;link recv 0 v 1 0 1 - > op 0;submit recv 0 v 1 0 1 - > op 1;drop 0 > dropped;turn > turned - - -;\
      exec 1 err 125 > refused Waiting;exec 0 err 125 > executed op 0;turn > turned 0,1 - -;poll 0 1 > refused NoOp;\
      poll 1 1 > ready err 125 v 1 0 1 -"),
    ("a leader is dropped after it was taken, and succeeds", "run 8",
     "give stream > handle 0;feed 0 6162 > fed;link recv 0 v 1 0 1 - > op 0;submit recv 0 v 1 0 1 - > op 1;turn > turned - - -;\
      poll 1 4 > pending;drop 0 > dropped;exec 1 ok 1 > refused Waiting;exec 0 ok 1 > executed op 0;exec 0 ok 1 > executed op 1;\
      turn > turned 0,1 - 4;poll 1 4 > ready ok 1 v 1 0 1 62"),
    ("a leader is dropped after it was taken, and fails", "run 8",
     "give stream > handle 0;link recv 0 v 1 0 1 - > op 0;submit recv 0 v 1 0 1 - > op 1;turn > turned - - -;drop 0 > dropped;\
      exec 0 err 104 > executed op 0;turn > turned 0,1 - -;poll 0 1 > refused NoOp;poll 1 1 > ready err 125 v 1 0 1 -"),
    ("a leader is dropped after it was taken, and ends by its cancel", "run 8",
     "give stream > handle 0;link recv 0 v 1 0 1 - > op 0;submit recv 0 v 1 0 1 - > op 1;turn > turned - - -;drop 0 > dropped;\
      turn > turned - - -;exec 0 err 125 > executed op 0;turn > turned 0,1 - -;poll 1 1 > ready err 125 v 1 0 1 -"),
    ("a leader is canceled with its group after it was taken, and ends by it", "run 8",
     "give stream > handle 0;canceller > canceller 0;newhandle 0 > cancelhandle 0;linkunder 0 recv 0 v 1 0 1 - > op 0;\
      submit recv 0 v 1 0 1 - > op 1;turn > turned - - -;cancelall 0 > cancels 0;turn > turned - - -;exec 1 err 125 > refused Waiting;\
      exec 0 err 125 > executed op 0;turn > turned 0,1 - -;poll 0 1 > ready err 125 v 1 0 1 -;poll 1 1 > ready err 125 v 1 0 1 -"),
    ("a leader's cancel is taken with it", "run 8",
     "give stream > handle 0;link recv 0 v 1 0 1 - > op 0;link recv 0 v 1 0 1 - > op 1;submit recv 0 v 1 0 1 - > op 2;cancel 0 > asked;\
      turn > turned - - -;exec 0 err 125 > executed op 0;turn > turned 0,1,2 - -;poll 0 1 > ready err 125 v 1 0 1 -;\
      poll 1 1 > ready err 125 v 1 0 1 -;poll 2 1 > ready err 125 v 1 0 1 -"),
    ("a leader's cancel is taken after it", "run 8",
     "give stream > handle 0;link recv 0 v 1 0 1 - > op 0;submit recv 0 v 1 0 1 - > op 1;turn > turned - - -;\
      exec 0 err 125 > refused BadOutcome;cancel 0 > asked;turn > turned - - -;exec 0 err 125 > executed op 0;turn > turned 0,1 - -;\
      poll 1 1 > ready err 125 v 1 0 1 -"),
    ("a leader is canceled with its group before it was taken", "run 8",
     "give stream > handle 0;canceller > canceller 0;newhandle 0 > cancelhandle 0;linkunder 0 recv 0 v 1 0 1 - > op 0;\
      submit recv 0 v 1 0 1 - > op 1;cancelall 0 > cancels 0;turn > turned - - -;exec 1 err 125 > refused Waiting;\
      exec 0 err 125 > executed op 0;turn > turned 0,1 - -;poll 1 1 > ready err 125 v 1 0 1 -"),
    ("a chain is canceled with its group after it was taken, and its leader succeeds", "run 8",
     "give stream > handle 0;feed 0 6162 > fed;canceller > canceller 0;newhandle 0 > cancelhandle 0;\
      linkunder 0 recv 0 v 1 0 1 - > op 0;under 0 recv 0 v 1 0 1 - > op 1;turn > turned - - -;cancelall 0 > cancels 0,1;\
      exec 0 err 125 > refused BadOutcome;turn > turned - - -;exec 1 err 125 > refused Waiting;exec 0 ok 1 > executed op 0;\
      exec 0 err 125 > executed op 1;turn > turned 0,1 - -;poll 0 1 > ready ok 1 v 1 0 1 61;poll 1 1 > ready err 125 v 1 0 1 -"),
    ("a follower is canceled while it waits, and its leader fails", "run 8",
     "give stream > handle 0;link recv 0 v 1 0 1 - > op 0;submit recv 0 v 1 0 1 - > op 1;turn > turned - - -;cancel 1 > asked;\
      turn > turned - - -;exec 1 err 125 > refused Waiting;exec 0 err 104 > executed op 0;turn > turned 0,1 - -;\
      poll 0 1 > ready err 104 v 1 0 1 -;poll 1 1 > ready err 125 v 1 0 1 -"),
    ("a follower is canceled while it waits, and its leader succeeds", "run 8",
     "give stream > handle 0;feed 0 6162 > fed;link recv 0 v 1 0 1 - > op 0;link recv 0 v 1 0 1 - > op 1;submit recv 0 v 1 0 1 - > op 2;\
      cancel 1 > asked;turn > turned - - -;exec 0 ok 1 > executed op 0;exec 1 ok 1 > refused Waiting;exec 0 err 125 > executed op 1;\
      turn > turned 0,1,2 - -;poll 2 1 > ready err 125 v 1 0 1 -"),
    ("a follower is dropped while it waits, and its handle is closed once", "run 8",
     "give stream > handle 0;link recv 0 v 1 0 1 - > op 0;submit recv 0 v 1 0 1 - > op 1;turn > turned - - -;drop 1 > dropped;\
      close 0 > released;turn > turned - - -;exec 0 err 104 > executed op 0;turn > turned 0,1 - -;poll 0 1 > ready err 104 v 1 0 1 -;\
      turn > turned - - -;exec 0 ok 0 > executed close 0;turn > turned - 0 -"),
    ("a queue of one entry parts a request from what is dropped behind it", "run 1",
     "give stream > handle 0;feed 0 61 > fed;link recv 0 v 1 0 1 - > op 0;drop 0 > dropped;link recv 0 v 1 0 1 - > op 1;cancel 1 > asked;\
      turn > turned - - -;exec 1 ok 1 > executed op 1;exec 0 err 125 > executed op 0;turn > turned 1,0 - -;\
      poll 1 1 > ready ok 1 v 1 0 1 61"),
];

// A leader or a follower that makes a handle.
#[rattlefmt::skip]
const MADE: [(&str, &str, &str); 4] = [
    ("an accept leads a read", "run 8",
     "give listener > handle 0;give stream > handle 1;feed 1 61 > fed;link accept 0 > op 0;submit recv 1 v 1 0 1 - > op 1;\
      turn > turned - - -;exec 1 ok 1 > refused Waiting;exec 0 ok 0 > executed op 0;exec 0 ok 1 > executed op 1;turn > turned 0,1 - -;\
      poll 0 1 > ready made 2 -;poll 1 1 > ready ok 1 v 1 0 1 61;look 2 > output -"),
    ("an open leads a new directory", "run 8",
     "link open 2f61 0 0 > op 0;submit mkdir 62 511 > op 1;turn > turned - - -;exec 1 ok 0 > refused Waiting;\
      exec 0 ok 0 > executed op 0;exec 0 err 17 > executed op 1;turn > turned 0,1 - -;poll 0 1 > ready made 0 -;poll 1 1 > ready err 17 -;\
      feed 0 61 > fed;look 0 > output 61"),
    ("behind a leader that fails nothing is made", "run 8",
     "give listener > handle 0;link accept 0 > op 0;link open 2f61 0 0 > op 1;submit accept 0 > op 2;turn > turned - - -;\
      exec 0 err 104 > executed op 0;turn > turned 0,1,2 - -;poll 1 1 > ready err 125 -;poll 2 1 > ready err 125 -;\
      feed 1 61 > refused NoHandle;give stream > handle 1;close 0 > released;poll 0 1 > ready err 104 -;turn > turned - - -;\
      exec 0 ok 0 > executed close 0;turn > turned - 0 -"),
    ("the stream that a dropped leader made is closed", "run 8",
     "give listener > handle 0;give stream > handle 1;link accept 0 > op 0;submit recv 1 v 1 0 1 - > op 1;turn > turned - - -;\
      drop 0 > dropped;exec 0 ok 0 > executed op 0;turn > turned 0 - -;turn > turned - - -;exec 1 ok 0 > executed close 2;\
      exec 0 err 104 > executed op 1;turn > turned 1 2 -"),
];

#[test]
fn rows_of_links(rt: HostRuntime) {
    for rows in [&CHAINS[..], &BETWEEN[..], &CANCELED[..], &MADE[..]] {
        for (name, words, row) in rows {
            assert_eq!(rt;
                replies_are(&rt, rt.alloc(), words, row),
                Ok(()),
                "in the row {name:?}"
            );
        }
    }
}

// How many operations a long chain has.
const LONG: u32 = 100000;

// A long chain is submitted, and its first operation fails: all of it ends behind that one, in order.
fn breaks<R: Threads + Wait + Clock + Sync>(rt: &R, alloc: Global) -> Result<(), Why> {
    let mut events = String::from_str(alloc, "give stream\n")?;
    let mut replies = String::from_str(alloc, "handle 0\n")?;
    let mut numbers = String::from_str(alloc, "0")?;
    for n in 0..LONG {
        events.push_str("link recv 0 v 1 0 1 -\n")?;
        replies.push_str(format!(in alloc; "op {n}\n")?.as_str())?;
        if n > 0 {
            numbers.push_str(format!(in alloc; ",{n}")?.as_str())?;
        }
    }
    events.push_str("turn\nexec 0 err 104\nexec 0 ok 0\nturn\npoll 99999 7\n")?;
    replies.push_str("turned - - -\nexecuted op 0\nrefused NotFlying\nturned ")?;
    replies.push_str(numbers.as_str())?;
    replies.push_str(" - -\nready err 125 v 1 0 1 -\n")?;
    let call = calm("run 100000", events.as_bytes());
    ends_with(rt, alloc, call, Status::Done, replies.as_bytes())
}

#[test]
fn a_long_chain_ends_with_its_first(rt: HostRuntime) {
    assert_eq!(rt; breaks(&rt, rt.alloc()), Ok(()), "a long chain");
}
