//! How a caller waits: it spins for a while, and then yields.
use crossbeam_utils::CachePadded;
use std::sync::atomic::{AtomicU64, Ordering};
use std::{hint, thread};

/// The pauses that the first wait spins through before it yields.
const FIRST: u64 = 256;

/// A pause spins for at most 2 to this power rounds, some 160 nanoseconds.
const LONGEST: u32 = 4;

/// So many callers are taken to have a processor each.
const FEW: u32 = 4;

/// How many pauses who rests makes at most after the first.
const RESTS: u64 = 15;

/// How long callers spin before they yield, as those that wait for the same have found it to pay: a
/// wait that spun and did not yield makes it longer by one pause, and one that had to yield halves it.
/// So callers spin on where each has a processor, and yield soon where some have to share one, or where
/// others want theirs. No clause speaks of time.
#[derive(Drop)]
pub struct Patience {
    pauses: CachePadded<AtomicU64>,
}

/// One wait of one caller.
#[derive(Drop)]
pub struct Pauses<'a> {
    patience: &'a Patience,
    // Whether the callers are few.
    few: bool,
    // How long the patience was at the first pause, in pauses; 0 before.
    first: u64,
    // How many pauses it spins through, while what it sees stays the same.
    budget: u64,
    // How many it made since what it sees changed, or since it yielded.
    made: u64,
    // What it saw at its last pause.
    seen: u64,
    // Whether it has yielded.
    yielded: bool,
}

impl Patience {
    /// A patience of 256 pauses. It takes no memory.
    pub fn new() -> Patience {
        Patience {
            pauses: CachePadded::new(AtomicU64::new(FIRST)),
        }
    }

    /// Begins a wait of one of `callers` callers. Few, up to 4, are taken to have a processor each: they
    /// spin for longer, and after a yield they spin anew, for twice as long. It waits for nobody and
    /// takes no memory.
    pub fn begin(&self, callers: u32) -> Pauses<'_> {
        Pauses {
            patience: self,
            few: callers <= FEW,
            first: 0,
            budget: 0,
            made: 0,
            seen: 0,
            yielded: false,
        }
    }
}

impl Default for Patience {
    fn default() -> Patience {
        Patience::new()
    }
}

impl<'a> Pauses<'a> {
    /// Waits a little, after a try that found nothing to go on with: it spins, and once the patience is
    /// used up it yields the processor. `seen` is what the try saw of those it waits for; where that
    /// is not what the last try saw, they go on, and it spins anew. It returns, and takes no memory.
    pub fn pause(&mut self, seen: u64) {
        if self.first == 0 {
            self.first = within(self.patience.pauses.load(Ordering::SeqCst), self.few);
            self.budget = self.first;
            self.seen = seen;
        }
        if self.seen != seen {
            self.seen = seen;
            self.made = 0;
        }
        if self.made < self.budget {
            spin(self.made);
            self.made += 1;
        } else {
            self.give_way();
        }
    }

    /// Waits as `pause` does, and longer with each wait, up to 16 pauses: for who found nothing to do, so
    /// that it is not in the way of those that have work. It returns, and takes no memory.
    pub fn rest(&mut self) {
        self.pause(0);
        let more = self.made.min(RESTS);
        for _ in 0..more {
            spin(self.made);
        }
        self.made = self.made.saturating_add(more);
    }

    /// Ends the wait, whose last try went through, and tells the others whether spinning paid. It
    /// waits for nobody and takes no memory.
    pub fn end(self) {
        let next = if self.yielded {
            self.first / 2
        } else {
            self.first.saturating_add(1)
        };
        let next = within(next, self.few);
        if self.first != 0 && next != self.first {
            self.patience.pauses.store(next, Ordering::SeqCst);
        }
    }

    // Yields, after which few callers spin anew, for twice as long.
    fn give_way(&mut self) {
        self.yielded = true;
        if self.few {
            self.made = 0;
            self.budget = within(self.budget.saturating_mul(2), self.few);
        }
        thread::yield_now();
    }
}

// The nearest number of pauses to this one that a patience may have.
fn within(pauses: u64, few: bool) -> u64 {
    let (least, most) = if few { (64, 4096) } else { (4, 256) };
    pauses.max(least).min(most)
}

// Spins for twice as many rounds with each pause, up to the longest.
fn spin(made: u64) {
    let power = if made < LONGEST as u64 {
        made as u32
    } else {
        LONGEST
    };
    for _ in 0..1u32 << power {
        hint::spin_loop();
    }
}
