//! The work: each item above 0 leads twice to the one below it.
ghost use Rattle.std.specs.Prelude.{◌≡◌, ◌+◌, ◌≤◌, ℕ, IfOk, OnOk, OnErr, List, [], ◌∷◌, ◌++◌, length, All, Option, Some, None};
ghost use Rattle.std.specs.Option.{option_to_list};
ghost use Rattle.work_pool.specs.Standing.{Lacks};
ghost use Rattle.work_crew.specs.Crews.{IsNew};

use bay_core::MOST_ITEMS;
use std::alloc::{AllocError, Global};
use std::marker::Model;
use work_crew::Kept;
use work_pool::Work;

/// The items that came to be given, of which the first `at` are given, those kept, and those handled.
/// One that `lacks` wants memory for each item.
#[derive(Drop)]
pub struct Twice {
    all: Vec<u64>,
    at: usize,
    kept: Kept,
    done: Vec<u64>,
    lacks: bool,
}

impl Model for Twice {
    ghost use Rattle.std.specs.Prelude.{◌≤◌, take, drop, vec_len};
    ghost use Rattle.work_pool.specs.Standing.{Standing};

    ghost Value = { Standing };

    ghost view = { λ s. record {
      given = take s.at s.all.items;
      to_give = drop s.at s.all.items;
      kept_items = s.kept.items;
      spare = s.kept.spare;
      done = s.done.items;
    } };

    ghost invariant = { λ s. s.at ≤ vec_len s.all };
}

impl Twice {
    /// Work that gives this item first, or that has nothing to give. One that `lacks` wants memory for
    /// each item that it handles, as a test of a crew may want it. It takes memory.
    ///
    /// # Errors
    ///
    /// Want of memory alone.
    pub fn new(alloc: Global, first: Option<u64>, lacks: bool) -> Result<Twice, AllocError>
        ensures first { IfOk result (λ w. w.to_give ≡ option_to_list first) }
        ensures new { IfOk result (λ w. IsNew w) }
    {
        let mut all = Vec::new(alloc);
        if let Some(item) = first {
            all.push(item)?;
        }
        Ok(Twice {
            all,
            at: 0,
            kept: Kept::new(alloc, 1)?,
            done: Vec::new(alloc),
            lacks,
        })
    }

    /// How many items were handled. It takes no memory.
    pub fn done(&self) -> usize
        ensures { result ≡ length self.now.done }
    {
        self.done.len()
    }

    // Adds the items to which this one leads.
    fn lead(&mut self, item: u64) -> Result<(), AllocError>
        ensures more { OnOk result ((more : List ℕ) × All (λ x. x + 1 ≡ item) more × (self.new ≡ record self.old { to_give = self.old.to_give ++ more })) }
        ensures failed { OnErr result (Lacks self.old self.new) }
    {
        if self.lacks {
            return Err(AllocError);
        }
        if item > 0 {
            self.all.push(item - 1)?;
            self.all.push(item - 1)?;
        }
        Ok(())
    }
}

impl Work for Twice {
    type Made = ();

    ghost stands = { λ s. s };

    ghost leads = { λ s y x. x + 1 ≡ y };

    ghost made = { λ s. tt };

    fn handle(&mut self, item: u64) -> Result<(), AllocError> {
        self.lead(item)?;
        self.kept.widen(self.all.len() - self.at)?;
        self.done.push(item)?;
        Ok(())
    }

    fn give(&mut self) -> Option<u64> {
        if self.at < self.all.len() {
            let item = self.all[self.at];
            self.at += 1;
            Some(item)
        } else {
            None
        }
    }

    fn keep(&mut self, item: u64) {
        self.kept.keep(item);
    }

    fn kept(&mut self) -> Option<u64> {
        self.kept.hand_out()
    }

    fn has_handful(&self) -> bool {
        self.all.len() - self.at >= MOST_ITEMS
    }
}
