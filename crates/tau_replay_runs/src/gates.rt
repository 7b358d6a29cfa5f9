//! Records that are redone at the same time.
use crate::logs::APART;
use crate::play::is_given;
use crate::spelled::log_of;
use std::sync::atomic::{AtomicU64, Ordering};
use std::test::*;
use std::thread;
use tau_disk::{Gate, Place};
use tau_replay::replay_threads;

// Holds the first record of each of two workers until the other's was reached.
#[derive(Drop)]
struct Both {
    first: AtomicU64,
    second: AtomicU64,
    late: AtomicU64,
}

impl Both {
    // Says that one was reached, and waits for the other.
    fn meet(&self, mine: &AtomicU64, other: &AtomicU64) {
        if mine.swap(1, Ordering::SeqCst) == 1 {
            return;
        }
        for _ in 0..1_000_000_000u64 {
            if other.load(Ordering::SeqCst) == 1 {
                return;
            }
            thread::yield_now();
        }
        self.late.store(1, Ordering::SeqCst);
    }
}

impl Gate for Both {
    fn at(&self, place: Place) {
        match place {
            Place::Replay { worker: 0 } => self.meet(&self.first, &self.second),
            Place::Replay { worker: 1 } => self.meet(&self.second, &self.first),
            _ => {}
        }
    }
}

#[test]
fn two_records_in_flight(rt: HostRuntime) {
    let log = log_of(rt.alloc(), APART).expect(&rt, "a log");
    let gate = Both {
        first: AtomicU64::new(0),
        second: AtomicU64::new(0),
        late: AtomicU64::new(0),
    };
    let found = replay_threads(&rt, rt.alloc(), &log, 2, &gate);
    assert!(rt; is_given(rt.alloc(), &found, "1:5 2:6") == Some(true));
    assert!(rt; gate.first.load(Ordering::SeqCst) == 1);
    assert!(rt; gate.second.load(Ordering::SeqCst) == 1);
    assert!(rt; gate.late.load(Ordering::SeqCst) == 0);
}
