// Runs of groups, messages, files, pipes and plain requests.
use crate::tests::program::replies_are;

// Runs that are Done: a name, the words, and each event with its reply.
#[rattlefmt::skip]
const REQUESTS: [(&str, &str, &str); 13] = [
    ("a group is canceled, and a submission under it comes back at once", "run 8",
     "give stream > handle 0;canceller > canceller 0;newhandle 0 > cancelhandle 0;under 0 recv 0 v 1 0 1 - > op 0;\
      under 0 recv 0 v 1 0 1 - > op 1;cancelall 0 > cancels 0,1;under 0 recv 0 v 1 0 1 - > canceled v 1 0 1 -;turn > turned - - -;\
      exec 0 err 125 > executed op 0;exec 0 err 125 > executed op 1;turn > turned 0,1 - -;poll 0 3 > ready err 125 v 1 0 1 -;\
      newhandle 0 > cancelhandle 1;under 1 recv 0 v 1 0 1 - > op 2"),
    ("a group is canceled over a full queue", "run 1",
     "give stream > handle 0;canceller > canceller 0;newhandle 0 > cancelhandle 0;under 0 recv 0 v 1 0 1 - > op 0;\
      under 0 recv 0 v 1 0 1 - > op 1;cancelall 0 > cancels 0,1;turn > turned - - -;exec 0 err 125 > executed op 0;\
      exec 0 err 125 > executed op 1;turn > turned 0,1 - -"),
    ("a cancel of a group names neither what was returned or dropped nor what is in another group", "run 8",
     "give stream > handle 0;canceller > canceller 0;canceller > canceller 1;newhandle 0 > cancelhandle 0;newhandle 1 > cancelhandle 1;\
      under 0 writev 0 p 1 2 6162 > op 0;under 0 recv 0 v 1 0 1 - > op 1;under 1 recv 0 v 1 0 1 - > op 2;\
      under 0 recv 0 v 1 0 1 - > op 3;drop 1 > dropped;turn > turned - - -;exec 0 ok 2 > executed op 0;turn > turned 0 - -;\
      poll 0 1 > ready ok 2 p 1 2 6162;cancelall 0 > cancels 3;turn > turned - - -;exec 1 err 125 > refused BadOutcome;\
      exec 2 err 125 > executed op 3;cancelall 0 > cancels -;under 0 writev 0 p 1 2 6162 > canceled p 1 2 6162"),
    ("no canceller", "run 4",
     "newhandle 3 > refused NoCanceller;cancelall 0 > refused NoCanceller;under 0 recv 9 v 1 0 1 - > refused NoCanceller;\
      canceller > canceller 0;newhandle 0 > cancelhandle 0;under 0 recv 9 v 1 0 1 - > refused NoHandle;\
      under 1 recv 9 v 1 0 1 - > refused NoCanceller;newhandle 1 > refused NoCanceller;\
      cancelall 18446744073709551615 > refused NoCanceller"),
    ("messages", "run 8",
     "give datagram > handle 0;message 0 5 616263 > fed;submit recvmsg 0 v 2 0 2 - > op 0;turn > turned - - -;\
      exec 0 ok 3 > refused BadOutcome;exec 0 ok 2 > executed op 0;turn > turned 0 - -;poll 0 1 > ready from 2 5 v 2 0 2 6162;\
      submit sendmsg 0 - v 1 0 1 78 > op 1;turn > turned - - -;exec 0 ok 1 > executed op 1;look 0 > messages 1 - 78"),
    ("positions of a file", "run 8",
     "give file > handle 0;feed 0 6162 > fed;submit write 0 3 v 1 0 1 78 > op 0;turn > turned - - -;exec 0 ok 1 > executed op 0;\
      look 0 > output 61620078;submit read 0 4 v 2 0 2 - > op 1;turn > turned 0 - -;exec 0 ok 0 > executed op 1;\
      submit write 0 16777216 v 1 0 1 78 > op 2;turn > turned 1 - -;exec 0 ok 1 > refused BadOutcome;exec 0 err 27 > executed op 2"),
    ("splices to and from a pipe", "run 8",
     "give stream > handle 0;give pipe > handle 1;feed 0 616263 > fed;submit spliceto 0 1 2 > op 0;turn > turned - - -;\
      exec 0 ok 2 > executed op 0;look 1 > output 6162;submit splicefrom 1 1 2 > op 1;turn > turned 0 - -;\
      exec 0 ok 2 > refused BadOutcome;exec 0 err 22 > executed op 1"),
    ("a splice holds both its handles, over a full queue", "run 1",
     "give pipe > handle 0;give stream > handle 1;feed 1 61 > fed;submit spliceto 1 0 1 > op 0;close 0 > released;close 1 > released;\
      turn > turned - - -;exec 0 ok 1 > executed op 0;turn > turned 0 - -;poll 0 1 > ready ok 1 -;turn > turned - - -;\
      exec 0 ok 0 > executed close 0;exec 0 ok 0 > executed close 1;turn > turned - 0,1 -;submit spliceto 1 0 1 > refused NoHandle"),
    ("plain requests", "run 8",
     "submit mkdir 62 511 > op 0;turn > turned - - -;exec 0 ok 1 > refused BadOutcome;exec 0 ok 0 > executed op 0;turn > turned 0 - -;\
      poll 0 9 > ready ok 0 -;give file > handle 0;submit fsync 0 data > op 1;submit connect 0 7 > op 2;turn > turned - - -;\
      exec 1 ok 0 > refused BadOutcome;exec 0 ok 0 > executed op 1"),
    ("the stream that an abandoned accept made is closed", "run 4",
     "give listener > handle 0;submit accept 0 > op 0;turn > turned - - -;drop 0 > dropped;exec 0 ok 0 > executed op 0;\
      turn > turned 0 - -;turn > turned - - -;exec 0 ok 0 > executed close 1;turn > turned - 1 -"),
    ("an accepted stream is read, answered in two sends and closed", "run 1024",
     "give listener > handle 0;submit accept 0 > op 0;turn > turned - - -;exec 0 ok 0 > executed op 0;feed 1 6869 > refused NoHandle;\
      turn > turned 0 - -;poll 0 1 > ready made 1 -;feed 1 6869 > fed;submit recv 1 v 8192 0 8192 - > op 1;turn > turned - - -;\
      exec 0 ok 2 > executed op 1;turn > turned 1 - -;poll 1 1 > ready ok 2 v 8192 0 8192 6869;submit send 1 v 8192 0 2 6869 > op 2;\
      turn > turned - - -;exec 0 ok 1 > executed op 2;turn > turned 2 - -;poll 2 1 > ready ok 1 v 8192 0 2 6869;\
      submit send 1 v 8192 1 2 6869 > op 3;turn > turned - - -;exec 0 ok 1 > executed op 3;turn > turned 3 - -;\
      poll 3 1 > ready ok 1 v 8192 1 2 6869;look 1 > output 6869;close 1 > released;turn > turned - - -;exec 0 ok 0 > executed close 1;\
      turn > turned - 1 -"),
    ("a file that is opened has no end", "run 8",
     "submit open 2f61 0 0 > op 0;turn > turned - - -;exec 0 ok 0 > executed op 0;turn > turned 0 - -;poll 0 9 > ready made 0 -;\
      end 0 > refused BadHandleEvent"),
    ("what a kind of handle doesn't take", "run 8",
     "give datagram > handle 0;give file > handle 1;feed 0 61 > refused BadHandleEvent;message 1 5 61 > refused BadHandleEvent;\
      end 0 > refused BadHandleEvent;end 1 > refused BadHandleEvent;look 0 > messages 0;look 1 > output -"),
];

#[test]
fn rows_of_requests(rt: HostRuntime) {
    for (name, words, row) in REQUESTS {
        assert_eq!(rt;
            replies_are(&rt, rt.alloc(), words, row),
            Ok(()),
            "in the row {name:?}"
        );
    }
}
