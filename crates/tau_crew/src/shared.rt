//! What the threads of a run share beside the desk. Nothing that a run returns depends on it: it tells when to stop waiting.
use std::sync::Wait;
use std::sync::atomic::{AtomicU64, Ordering};
use std::time::Duration;

/// How long a manager or the clerk rests where it found nothing, in microseconds.
const REST: u64 = 50;

/// How many workers and managers are not through, and where others rest.
#[derive(Drop)]
pub struct Crew {
    working: AtomicU64,
    flushing: AtomicU64,
    bell: AtomicU64,
}

impl Crew {
    /// So many workers and managers begin.
    pub fn new(workers: u64, managers: u64) -> Crew {
        Crew {
            working: AtomicU64::new(workers),
            flushing: AtomicU64::new(managers),
            bell: AtomicU64::new(0),
        }
    }

    /// Whether all workers are through.
    pub fn are_through(&self) -> bool {
        self.working.load(Ordering::SeqCst) == 0
    }

    /// A worker is through. Who rests is woken.
    pub fn leave(&self) {
        self.working.fetch_sub(1, Ordering::SeqCst);
        self.bell.wake_all();
    }

    /// Whether all managers are through.
    pub fn are_flushed(&self) -> bool {
        self.flushing.load(Ordering::SeqCst) == 0
    }

    /// A manager is through. Who rests is woken.
    pub fn flushed(&self) {
        self.flushing.fetch_sub(1, Ordering::SeqCst);
        self.bell.wake_all();
    }

    /// Rests a short while.
    pub fn rest<R: Wait>(&self, rt: &R) {
        self.bell.park_timeout(rt, 0, Duration::from_micros(REST));
    }
}
