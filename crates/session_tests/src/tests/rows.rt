// Runs of reads, sends, cancels, drops and closes, and runs on the readiness driver.
use crate::tests::program::replies_are;

// Runs that are Done: a name, the words, and each event with its reply.
#[rattlefmt::skip]
const ROWS: [(&str, &str, &str); 18] = [
    ("one read", "run 1",
     "give stream > handle 0;submit recv 0 v 4 0 4 - > op 0;poll 0 7 > pending;feed 0 6162 > fed;turn > turned - - -;\
      exec 0 ok 2 > executed op 0;poll 0 7 > pending;turn > turned 0 - 7;poll 0 7 > ready ok 2 v 4 0 4 6162;poll 0 7 > refused NoOp"),
    ("a short read into a vector", "run 4",
     "give stream > handle 0;feed 0 6162 > fed;submit recv 0 v 4 0 4 30313233 > op 0;turn > turned - - -;exec 0 ok 2 > executed op 0;\
      turn > turned 0 - -;poll 0 1 > ready ok 2 v 4 0 4 6162"),
    ("a short read into a grown buffer", "run 4",
     "give stream > handle 0;feed 0 6162 > fed;submit recv 0 g 4 0 4 30313233 > op 0;turn > turned - - -;exec 0 ok 2 > executed op 0;\
      turn > turned 0 - -;poll 0 1 > ready ok 2 g 4 0 4 61623233"),
    ("a short read into a fixed buffer", "run 4",
     "give stream > handle 0;feed 0 6162 > fed;submit recv 0 b 4 0 4 30313233 > op 0;turn > turned - - -;exec 0 ok 2 > executed op 0;\
      turn > turned 0 - -;poll 0 1 > ready ok 2 b 4 0 4 61623233"),
    ("a read into a range", "run 4",
     "give stream > handle 0;feed 0 6162636465 > fed;submit recv 0 v 10 1 8 30313233 > op 0;turn > turned - - -;\
      exec 0 ok 5 > executed op 0;turn > turned 0 - -;poll 0 1 > ready ok 5 v 10 1 8 306162636465"),
    ("a read into parts", "run 4",
     "give stream > handle 0;feed 0 61626364 > fed;submit readv 0 p 3 2 - 3 - 4 7a > op 0;turn > turned - - -;\
      exec 0 ok 4 > executed op 0;turn > turned 0 - -;poll 0 1 > ready ok 4 p 3 2 6162 3 6364 4 7a"),
    ("a read of nothing at the end", "run 4",
     "give stream > handle 0;submit recv 0 v 4 0 4 30 > op 0;turn > turned - - -;exec 0 ok 0 > refused BadOutcome;end 0 > ended;\
      exec 0 ok 0 > executed op 0;turn > turned 0 - -;poll 0 1 > ready ok 0 v 4 0 4 -;end 0 > refused BadHandleEvent"),
    ("no feed after the end", "run 4",
     "give stream > handle 0;feed 0 61 > fed;end 0 > ended;feed 0 62 > refused BadHandleEvent;end 1 > refused NoHandle;\
      look 1 > refused NoHandle;look 0 > output -"),
    ("short sends", "run 1024",
     "give stream > handle 0;submit send 0 v 8192 0 5 68656c6c6f > op 0;turn > turned - - -;exec 0 ok 3 > executed op 0;\
      turn > turned 0 - -;poll 0 1 > ready ok 3 v 8192 0 5 68656c6c6f;submit send 0 v 8192 3 5 68656c6c6f > op 1;turn > turned - - -;\
      exec 0 ok 2 > executed op 1;turn > turned 1 - -;poll 1 1 > ready ok 2 v 8192 3 5 68656c6c6f;look 0 > output 68656c6c6f"),
    ("a short send of parts", "run 4",
     "give stream > handle 0;submit writev 0 p 3 2 6162 0 - 4 636465 > op 0;turn > turned - - -;exec 0 ok 6 > refused BadOutcome;\
      exec 0 ok 4 > executed op 0;turn > turned 0 - -;poll 0 1 > ready ok 4 p 3 2 6162 0 - 4 636465;look 0 > output 61626364"),
    ("nothing is there", "run 4",
     "submit recv 9 v 1 0 1 - > refused NoHandle;exec 0 ok 0 > refused NotFlying;poll 0 1 > refused NoOp;\
      newhandle 3 > refused NoCanceller"),
    ("outcomes that aren't allowed", "run 4",
     "give stream > handle 0;submit recv 0 v 2 0 2 - > op 0;turn > turned - - -;feed 0 61 > fed;exec 0 ok 2 > refused BadOutcome;\
      exec 0 ok 0 > refused BadOutcome;exec 0 ok 1 > executed op 0"),
    ("a late cancel, and the slot used again", "run 8",
     "give stream > handle 0;feed 0 61 > fed;submit recv 0 v 1 0 1 - > op 0;turn > turned - - -;exec 0 ok 1 > executed op 0;\
      turn > turned 0 - -;cancel 0 > asked;poll 0 1 > ready ok 1 v 1 0 1 61;submit recv 0 v 1 0 1 - > op 1;turn > turned - - -;\
      exec 0 err 125 > refused BadOutcome;feed 0 62 > fed;exec 0 ok 1 > executed op 1;turn > turned 1 - -;\
      poll 1 2 > ready ok 1 v 1 0 1 62"),
    ("a drop over a full queue", "run 1",
     "give stream > handle 0;submit recv 0 v 1 0 1 - > op 0;submit recv 0 v 1 0 1 - > op 1;drop 1 > dropped;turn > turned - - -;\
      exec 1 err 125 > executed op 1;turn > turned 1 - -"),
    ("errors", "run 4",
     "give stream > handle 0;submit recv 0 v 2 0 2 6162 > op 0;cancel 0 > asked;turn > turned - - -;exec 0 err 0 > refused BadOutcome;\
      exec 0 err 4096 > refused BadOutcome;exec 0 err 4095 > executed op 0;turn > turned 0 - -;poll 0 1 > ready err 4095 v 2 0 2 6162"),
    ("nothing after a drop", "run 4",
     "drop 0 > refused NoOp;cancel 0 > refused NoOp;give stream > handle 0;submit recv 0 v 1 0 1 - > op 0;drop 0 > dropped;\
      drop 0 > refused NoOp;cancel 0 > refused NoOp;poll 0 1 > refused NoOp"),
    ("a close under a read", "run 4",
     "give stream > handle 0;submit recv 0 v 1 0 1 - > op 0;turn > turned - - -;close 0 > released;exec 0 err 104 > executed op 0;\
      turn > turned 0 - -;poll 0 5 > ready err 104 v 1 0 1 -;look 0 > refused NoHandle;turn > turned - - -;\
      exec 0 ok 0 > executed close 0;turn > turned - 0 -;close 0 > refused NoHandle"),
    ("two closes over a full queue", "run 1",
     "give stream > handle 0;give stream > handle 1;submit recv 0 v 1 0 1 - > op 0;submit recv 1 v 1 0 1 - > op 1;turn > turned - - -;\
      close 0 > released;close 1 > released;drop 0 > dropped;drop 1 > dropped;turn > turned - - -;exec 0 err 125 > executed op 0;\
      exec 0 err 125 > executed op 1;turn > turned 0,1 - -;exec 0 ok 0 > executed close 0;turn > turned - 0 -;\
      exec 0 ok 0 > executed close 1;turn > turned - 1 -"),
];

#[test]
fn rows(rt: HostRuntime) {
    for (name, words, row) in ROWS {
        assert_eq!(rt;
            replies_are(&rt, rt.alloc(), words, row),
            Ok(()),
            "in the row {name:?}"
        );
    }
}

// The same on the readiness driver.
#[rattlefmt::skip]
const READINESS: [(&str, &str, &str); 4] = [
    ("polls that are pending and ready, a cancel, a message and a group", "ready",
     "give stream > handle 0;submit recv 0 v 4 0 4 - > op 0;poll 0 7 > pending;feed 0 6162 > fed;poll 0 7 > ready ok 2 v 4 0 4 6162;\
      submit recv 0 v 1 0 1 - > op 1;cancel 1 > asked;poll 1 7 > ready err 125 v 1 0 1 -;close 0 > released;give datagram > handle 1;\
      submit recv 1 v 1 0 1 - > op 2;poll 2 7 > pending;message 1 5 61 > fed;poll 2 7 > ready err 22 v 1 0 1 -;canceller > canceller 0;\
      newhandle 0 > cancelhandle 0;under 0 recvmsg 1 v 1 0 1 - > op 3;cancelall 0 > cancels 3;poll 3 7 > ready err 125 v 1 0 1 -;\
      under 0 recvmsg 1 v 1 0 1 - > canceled v 1 0 1 -;look 1 > messages 0"),
    ("a dropped operation takes no bytes", "ready",
     "give stream > handle 0;submit recv 0 v 1 0 1 - > op 0;feed 0 61 > fed;drop 0 > dropped;poll 0 1 > refused NoOp;\
      submit recv 0 v 1 0 1 - > op 1;poll 1 1 > ready ok 1 v 1 0 1 61"),
    ("bytes through a pipe", "ready",
     "give stream > handle 0;give pipe > handle 1;feed 0 616263 > fed;submit spliceto 0 1 2 > op 0;poll 0 1 > ready ok 2 -;\
      look 1 > output 6162;submit splicefrom 1 0 9 > op 1;poll 1 1 > ready ok 2 -;look 0 > output 6162;submit splicefrom 1 0 9 > op 2;\
      poll 2 1 > pending"),
    ("an accepted stream", "ready",
     "give listener > handle 0;submit accept 0 > op 0;feed 1 61 > refused NoHandle;poll 0 1 > ready made 1 -;feed 1 61 > fed;\
      submit recv 1 v 2 0 2 - > op 1;poll 1 1 > ready ok 1 v 2 0 2 61;close 1 > released;close 1 > refused NoHandle"),
];

#[test]
fn rows_of_readiness(rt: HostRuntime) {
    for (name, words, row) in READINESS {
        assert_eq!(rt;
            replies_are(&rt, rt.alloc(), words, row),
            Ok(()),
            "in the row {name:?}"
        );
    }
}
