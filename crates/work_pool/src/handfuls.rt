//! Putting several items into a pool at once.
ghost use Rattle.std.specs.Prelude.{◌≡◌, ◌≤◌, length};
ghost use Rattle.bay_core.specs.declared.numbers.TheConstants.{MOST_ITEMS};
ghost use Rattle.work_pool.specs.Several.{PutsSeveral};
ghost use Rattle.work_pool.specs.declared.pools.Way.TheVariants.{Stack};

use crate::hands::Hand;
use crate::pools::Pool;
use bay_store::Stop;
use std::sync::Wait;

/// What a put of several items answers.
#[derive(Clone, Copy, Debug, PartialEq, Eq)]
pub struct PutSome {
    /// So many of the items are in the pool, 0 to 32: the first ones.
    pub shared: u32,
    /// What stopped it: nothing, an item for which there was no cell, or that the caller had no draw left.
    /// It is never an overflow.
    pub stop: Stop,
}

impl<'a> Pool<'a> {
    /// Puts the items, 1 to 32, on the stack by one handful of the bay, with a hand of this bay that holds
    /// a share. The first items are in the pool, as many as the answer says. All comes where these are all
    /// items; Full where the others were answered so; Spent where the caller had no draw left, at the start
    /// or after an overflow, and the others have no entry.
    /// It waits for those that are let in before it to leave, and takes no memory.
    pub fn put_some<R: Wait>(&self, rt: &R, hand: Hand, items: &[u64]) -> (Hand, PutSome)
        requires own { hand.caller.site ≡ self.now.site }
        requires stack { self.now.way ≡ Stack }
        requires some { 1 ≤ length items.now }
        requires few { length items.now ≤ MOST_ITEMS }
        requires share { 1 ≤ hand.caller.user.held }
        ensures gives { PutsSeveral self.now.usage items.now hand.caller result.0.caller result.1 }
        ensures same { result.0 ≡ record hand { caller = result.0.caller } }
        ensures same_bay { result.0.caller.site ≡ hand.caller.site }
        ensures held { result.0.caller.user.held ≡ hand.caller.user.held }
    {
        // What holds of each hand, which a proof sees by this call alone.
        let _who = hand.who();
        let Hand {
            pass,
            worker,
            asked,
        } = hand;
        let (pass, handful) = self.bay.push_some(rt, pass, items);
        let hand = Hand {
            pass,
            worker,
            asked,
        };
        let put = PutSome {
            shared: handful.stored,
            stop: handful.stop,
        };
        (hand, put)
    }
}
