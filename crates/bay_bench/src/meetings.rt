//! A meeting of callers, timed from when all have come until all are done.
ghost use Rattle.std.specs.Prelude.{◌≤◌};

use bay_crew::Watch;
use std::io;
use std::io::{Eprint, ErrorKind};
use std::sync::atomic::{AtomicU64, Ordering};
use std::thread::yield_now;
use std::time::{Clock, Instant};

/// How often a caller looks whether all have come: a second and more.
const MOST_LOOKS: u32 = 10_000_000;

// The nanoseconds of one of so many calls, as whole ones and tenths, or 0 where there were none.
fn tenths(taken: u64, calls: u64) -> (u128, u128) {
    let all = u128::from(taken) * 10;
    let each = all.checked_div(u128::from(calls)).unwrap_or(0);
    (each / 10, each % 10)
}

/// Holds callers until all have come, and notes then and when the last is done.
#[derive(Drop)]
pub struct Meeting<'a, R> {
    clock: &'a R,
    start: Instant,
    callers: u64,
    // How many came, and how many are done.
    came: AtomicU64,
    done: AtomicU64,
    // The nanoseconds from the start until all had come, and until all were done.
    begun: AtomicU64,
    ended: AtomicU64,
    // How many saw that others did not come, or could not read the clock.
    missed: AtomicU64,
}

impl<'a, R: Clock> Meeting<'a, R> {
    /// A meeting of so many callers, of whom none has come. The error is that of the clock.
    pub fn new(clock: &'a R, callers: u32) -> io::Result<Meeting<'a, R>> {
        Ok(Meeting {
            clock,
            start: Instant::now(clock)?,
            callers: callers as u64,
            came: AtomicU64::new(0),
            done: AtomicU64::new(0),
            begun: AtomicU64::new(0),
            ended: AtomicU64::new(0),
            missed: AtomicU64::new(0),
        })
    }

    // The nanoseconds from when all had come until all were done, or none where a caller missed the
    // others.
    fn taken(&self) -> Option<u64> {
        if self.missed.load(Ordering::SeqCst) > 0 {
            return None;
        }
        let begun = self.begun.load(Ordering::SeqCst);
        self.ended.load(Ordering::SeqCst).checked_sub(begun)
    }

    // The nanoseconds from the start, or 0 where the clock cannot be read, which it counts.
    fn now(&self) -> u64 {
        match self.start.elapsed(self.clock) {
            Ok(taken) => u64::try_from(taken.as_nanos()).unwrap_or(u64::MAX),
            Err(_) => {
                self.missed.fetch_add(1, Ordering::SeqCst);
                0
            }
        }
    }

    // Returns once all have come, or after so many looks, which it counts.
    fn wait_for_all(&self) {
        for _ in 0..MOST_LOOKS {
            if self.came.load(Ordering::SeqCst) >= self.callers {
                return;
            }
            yield_now();
        }
        self.missed.fetch_add(1, Ordering::SeqCst);
    }
}

impl<'a, R: Clock + Eprint> Meeting<'a, R> {
    /// Writes to standard error what one of so many calls took, from when all had come until all were done,
    /// with one decimal, or 0 where there were none. The error is `TimedOut` where a caller missed the others,
    /// and else that of the write.
    pub fn tell(&self, name: &str, threads: u32, run: u32, calls: u64) -> io::Result<()> {
        let Some(taken) = self.taken() else {
            return Err(io::Error::from(ErrorKind::TimedOut));
        };
        let (whole, tenth) = tenths(taken, calls);
        eprintln!(self.clock; "{name} threads {threads} run {run} ns_per_op {whole}.{tenth}")
    }
}

impl<'a, R: Clock> Watch for Meeting<'a, R> {
    fn begins(&self) {
        let now = self.now();
        let before = self.came.fetch_add(1, Ordering::SeqCst);
        if before.wrapping_add(1) == self.callers {
            self.begun.store(now, Ordering::SeqCst);
        }
        self.wait_for_all();
    }

    fn ends(&self) {
        let before = self.done.fetch_add(1, Ordering::SeqCst);
        if before.wrapping_add(1) == self.callers {
            self.ended.store(self.now(), Ordering::SeqCst);
        }
    }
}
