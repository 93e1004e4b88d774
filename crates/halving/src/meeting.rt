//! A gate at which two workers meet.
use crossbeam_utils::Backoff;
use std::sync::atomic::{AtomicU64, Ordering};
use work_pool::Gate;

/// A gate for two workers or callers, 0 and another. It holds each one's question 0 until the other has
/// asked as many questions 0, so that a test sees that they were under way at the same time.
#[derive(Drop)]
pub struct Meeting {
    // How often 0 and the other asked question 0.
    first: AtomicU64,
    second: AtomicU64,
    // How many questions were asked, and how many of them gave up waiting.
    asked: AtomicU64,
    missed: AtomicU64,
}

impl Meeting {
    /// A gate that nobody has asked. It takes no memory.
    pub fn new() -> Meeting {
        Meeting {
            first: AtomicU64::new(0),
            second: AtomicU64::new(0),
            asked: AtomicU64::new(0),
            missed: AtomicU64::new(0),
        }
    }

    /// Whether both asked question 0 so many times, and nobody gave up waiting. It takes no memory.
    pub fn met(&self, rounds: u64) -> bool {
        self.first.load(Ordering::SeqCst) == rounds
            && self.second.load(Ordering::SeqCst) == rounds
            && self.missed.load(Ordering::SeqCst) == 0
    }

    /// How many questions were asked. It takes no memory.
    pub fn asked(&self) -> u64 {
        self.asked.load(Ordering::SeqCst)
    }

    // Returns once the other has come to this round, or after so many turns, which it counts.
    fn wait_for(&self, other: &AtomicU64, round: u64) {
        let backoff = Backoff::new();
        for _ in 0..10_000_000 {
            if other.load(Ordering::SeqCst) >= round {
                return;
            }
            backoff.snooze();
        }
        self.missed.fetch_add(1, Ordering::SeqCst);
    }
}

impl Gate for Meeting {
    fn ask(&self, worker: u32, take: u64) {
        self.asked.fetch_add(1, Ordering::SeqCst);
        if take == 0 {
            let (mine, other) = if worker == 0 {
                (&self.first, &self.second)
            } else {
                (&self.second, &self.first)
            };
            let before = mine.fetch_add(1, Ordering::SeqCst);
            self.wait_for(other, before.saturating_add(1));
        }
    }
}
