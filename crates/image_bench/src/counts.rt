//! A gate that counts.
use std::sync::atomic::{AtomicU64, Ordering};
use work_pool::Gate;

/// A gate that holds nobody and counts how often it is asked.
#[derive(Drop)]
pub struct Count {
    asked: AtomicU64,
}

impl Count {
    /// A gate that was not asked yet.
    pub fn new() -> Count {
        Count {
            asked: AtomicU64::new(0),
        }
    }

    /// How often it was asked.
    pub fn asked(&self) -> u64 {
        self.asked.load(Ordering::SeqCst)
    }
}

impl Gate for Count {
    fn ask(&self, _worker: u32, _take: u64) {
        self.asked.fetch_add(1, Ordering::SeqCst);
    }
}
