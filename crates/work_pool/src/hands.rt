//! A caller of a pool.
ghost use Rattle.std.specs.Prelude.{◌≡◌, ◌^◌, ◌<◌};
ghost use Rattle.work_pool.specs.Shows.{IsHand};

use bay_store::BayPass;
use std::marker::Model;

/// One caller of a pool between its calls: its pass of the bay, and its number at the gate. It may
/// be dropped; the bay can then not be closed.
#[derive(Drop)]
pub struct Hand {
    pub(crate) pass: BayPass,
    pub(crate) worker: u32,
    pub(crate) asked: u64,
}

impl Model for Hand {
    ghost use Rattle.work_pool.specs.Shows.{Worker};

    ghost Value = { Worker };

    ghost use Rattle.work_pool.specs.Tokens.{worker_of};

    ghost view = { worker_of };
}

impl Hand {
    /// The caller of this pass, with its number at the gate, where it has asked nothing yet. It
    /// waits for nobody and takes no memory.
    pub fn new(pass: BayPass, worker: u32) -> Hand
        ensures { result ≡ record { caller = pass; worker = worker; asked = 0 } }
    {
        Hand {
            pass,
            worker,
            asked: 0,
        }
    }

    /// Its pass, for calls of the bay. It waits for nobody and takes no memory.
    pub fn pass(self) -> BayPass
        ensures { result ≡ self.caller }
    {
        self.pass
    }

    /// The caller's number in the bay: its own calls are those of this number in the history that it
    /// has seen. It has made no more draws than it may, at most 2^48.
    pub fn who(&self) -> u32
        ensures value { result ≡ self.now.caller.who }
        ensures holds { IsHand self.now }
    {
        let _draws = self.pass.draws();
        let _limit = self.pass.limit();
        let _asked = self.asked;
        self.pass.who()
    }

    /// The shares that it holds.
    pub fn held(&self) -> u64
        ensures { result ≡ self.now.caller.user.held }
    {
        self.pass.held()
    }

    /// How many questions it has asked the gate. After 2^64 - 1 the number stands there.
    pub fn asked(&self) -> u64
        ensures value { result ≡ self.now.asked }
        ensures small { result < 2 ^ 64 }
    {
        self.asked
    }
}
