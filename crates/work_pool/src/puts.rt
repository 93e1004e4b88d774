//! Putting an item into a pool.
ghost use Rattle.std.specs.Prelude.{◌≡◌, ◌≤◌};
ghost use Rattle.bay_store.specs.Calls.{PutGives};
ghost use Rattle.work_pool.specs.Ways.{puts};
ghost use Rattle.work_pool.specs.Puts.{Puts, answer_to};

use crate::hands::Hand;
use crate::pools::{Pool, Way};
use bay_store::{BayPass, Pushed, Receipt};
use std::sync::Wait;

/// What a put answers.
#[derive(Clone, Copy, Debug, PartialEq, Eq)]
pub enum Put {
    /// The item is in the pool.
    Shared(Receipt),
    /// The item, for which there was no cell: the list held 32 items for each block, or, where blocks
    /// change hands, all cells of its blocks were taken and no block was free.
    Full(u64),
    /// The item, for which the caller had no draw left.
    Spent(u64),
}

impl<'a> Pool<'a> {
    /// Puts the item in by one push on the stack or one enqueue, with a hand of this bay that holds
    /// a share. Shared comes with the receipt of that call, which stored the item; Full where the
    /// call was answered so; Spent where the call was, since the pass has no draw left.
    /// It waits for those that are let in before it to leave, and takes no memory.
    pub fn put<R: Wait>(&self, rt: &R, hand: Hand, item: u64) -> (Hand, Put)
        requires own { hand.caller.site ≡ self.now.site }
        requires share { 1 ≤ hand.caller.user.held }
        ensures gives { Puts self.now.usage (puts self.now.way) item hand.caller result.0.caller result.1 }
        ensures same { result.0 ≡ record hand { caller = result.0.caller } }
        ensures same_bay { result.0.caller.site ≡ hand.caller.site }
        ensures held { result.0.caller.user.held ≡ hand.caller.user.held }
    {
        // What holds of each hand, which a proof sees by this call alone.
        let _who = hand.who();
        let Hand {
            pass,
            worker,
            asked,
        } = hand;
        let (pass, pushed) = self.call_in(rt, pass, item);
        let hand = Hand {
            pass,
            worker,
            asked,
        };
        (hand, answer(pushed, item))
    }

    // Makes the bay's call that puts the item in.
    fn call_in<R: Wait>(&self, rt: &R, pass: BayPass, item: u64) -> (BayPass, Pushed)
        requires own { pass.site ≡ self.now.site }
        requires share { 1 ≤ pass.user.held }
        ensures gives { PutGives self.now.usage (puts self.now.way) item pass result.0 result.1 }
        ensures same_bay { result.0.site ≡ pass.site }
        ensures held { result.0.user.held ≡ pass.user.held }
    {
        match self.way {
            Way::Stack => self.bay.push(rt, pass, item),
            Way::Queue => self.bay.enqueue(rt, pass, item),
        }
    }
}

// The pool's answer, where the bay's call with this item gave that one.
fn answer(pushed: Pushed, item: u64) -> Put
    ensures { result ≡ answer_to pushed item }
{
    match pushed {
        Pushed::Stored(receipt) => Put::Shared(receipt),
        Pushed::Full(_) => Put::Full(item),
        Pushed::Spent => Put::Spent(item),
    }
}
