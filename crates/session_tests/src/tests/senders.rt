// That senders run beside each other, and that each sends all its wakers through the gate.
use session_core::wake_all;
use std::marker::Brand;
use std::sync::Wait;
use std::sync::atomic::{AtomicU64, Ordering};
use std::sync::ledger::Blank;
use std::test::Fail;
use std::thread;
use std::time::{Clock, Duration};
use wake_core::{Gate, PUSH_PARTS};

// Holds each of two senders until both have paused.
#[derive(Drop)]
struct Both {
    first: AtomicU64,
    second: AtomicU64,
    failures: AtomicU64,
}

impl Both {
    fn have_met(&self) -> bool {
        self.first.load(Ordering::SeqCst) > 0 && self.second.load(Ordering::SeqCst) > 0
    }
}

impl Gate for Both {
    fn pause<R: Wait + Clock>(&self, rt: &R, sender: u64) {
        if sender == 0 {
            self.first.fetch_add(1, Ordering::SeqCst);
        } else {
            self.second.fetch_add(1, Ordering::SeqCst);
        }
        for _i in 0..10000 {
            if self.have_met() {
                return;
            }
            thread::sleep(rt, Duration::from_millis(1));
        }
        self.failures.fetch_add(1, Ordering::SeqCst);
    }
}

#[test]
fn senders_run_beside_each_other(rt: HostRuntime) -> Result<(), Fail> {
    let gate = Both {
        first: AtomicU64::new(0),
        second: AtomicU64::new(0),
        failures: AtomicU64::new(0),
    };
    let settled = wake_all::<Brand, Brand, Both, HostRuntime>(
        &rt,
        rt.alloc(),
        Blank::new(PUSH_PARTS),
        Blank::new(1),
        2,
        3,
        &gate,
    )?;
    assert_eq!(rt; settled.drained, 6);
    assert_eq!(rt; gate.failures.load(Ordering::SeqCst), 0);
    assert_eq!(rt; gate.first.load(Ordering::SeqCst), 3);
    assert_eq!(rt; gate.second.load(Ordering::SeqCst), 3);
    Ok(())
}
