//! Taking an item out of a pool.
ghost use Rattle.std.specs.Prelude.{◌≡◌, ◌≤◌};
ghost use Rattle.work_pool.specs.Ways.{takes};
ghost use Rattle.work_pool.specs.Takes.{Works};

use crate::gates::Gate;
use crate::hands::Hand;
use crate::pools::Pool;
use crate::tries::Tried;
use bay_store::Receipt;
use room_gate::Patience;
use std::sync::Wait;

/// Nobody waits for a worker without work, so it rests as one of so many callers, who yield soon.
const CROWD: u32 = 64;

/// What a take answers.
#[derive(Clone, Copy, Debug, PartialEq, Eq)]
pub enum Taken {
    /// The item, with the receipt of the try that took it.
    Item(u64, Receipt),
    /// The bay is quiet: no list has an item, and nobody holds a share.
    Quiet,
    /// The pass had made its last draw.
    Spent,
}

impl<'a> Pool<'a> {
    /// Takes an item out, with a hand of this bay that holds at most one share. It tries by one pop of
    /// the stack or one dequeue, and before each try asks the gate with the hand's number and the
    /// number of the question. Item comes where a try took one, and the hand then holds one share.
    /// After a try that found nothing the hand holds none, and asks whether the bay is quiet: Quiet
    /// comes where it is, and else it rests, longer with each try, and tries again. Spent comes where
    /// the pass had made its last draw before a try; the hand then holds no share. It waits for those
    /// that are let in before it to leave, tries on while the bay is not quiet, and takes no memory.
    pub fn take<R: Wait, G: Gate>(&self, rt: &R, hand: Hand, gate: &G) -> (Hand, Taken)
        requires own { hand.caller.site ≡ self.now.site }
        requires few { hand.caller.user.held ≤ 1 }
        ensures works { Works self.now.usage (takes self.now.way) hand result.0 result.1 }
        ensures same_bay { result.0.caller.site ≡ hand.caller.site }
        ensures few { result.0.caller.user.held ≤ 1 }
    {
        // What holds of each hand, which a proof sees by this call alone.
        let _who = hand.who();
        let mut hand = hand;
        let patience = Patience::new();
        let mut pauses = patience.begin(CROWD);
        for _ in rt.forever() {
            let (after, tried) = self.try_once(rt, hand, gate);
            hand = after;
            match tried {
                Tried::Got(item, receipt) => return (hand, Taken::Item(item, receipt)),
                Tried::Nothing => pauses.rest(),
                Tried::Quiet => return (hand, Taken::Quiet),
                Tried::Spent => return (hand, Taken::Spent),
            }
        }
        unreachable!()
    }
}
