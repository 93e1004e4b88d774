//! One try to take an item out of a pool.
ghost use Rattle.std.specs.Prelude.{◌≡◌, ◌≤◌};
ghost use Rattle.bay_store.specs.Calls.{TakeGives, held_taken};
ghost use Rattle.bay_store.specs.Sharing.{holding};
ghost use Rattle.work_pool.specs.Ways.{takes};
ghost use Rattle.work_pool.specs.Tries.{least_held, most_held, Settles, Tries, questioned};

use crate::gates::Gate;
use crate::hands::Hand;
use crate::pools::{Pool, Way};
use bay_store::{BayPass, Popped, Receipt};
use std::sync::Wait;

// What one try gives.
#[derive(Clone, Copy, Debug, PartialEq, Eq)]
pub(crate) enum Tried {
    // The item.
    Got(u64, Receipt),
    // There was nothing to take, and the bay was not quiet after.
    Nothing,
    // There was nothing to take, and the bay was quiet after.
    Quiet,
    // The pass had made its last draw.
    Spent,
}

impl<'a> Pool<'a> {
    // Asks the gate, makes the bay's call that takes an item out, and keeps one share with an item and
    // else none. Where the call found nothing it asks then whether the bay is quiet.
    pub(crate) fn try_once<R: Wait, G: Gate>(&self, rt: &R, hand: Hand, gate: &G) -> (Hand, Tried)
        requires own { hand.caller.site ≡ self.now.site }
        requires few { hand.caller.user.held ≤ 1 }
        ensures tries { Tries self.now.usage (takes self.now.way) hand.caller result.0.caller result.1 }
        ensures same { result.0 ≡ questioned hand result.0.caller }
        ensures same_bay { result.0.caller.site ≡ hand.caller.site }
        ensures few { result.0.caller.user.held ≤ 1 }
    {
        let Hand {
            pass,
            worker,
            asked,
        } = hand;
        gate.ask(worker, asked);
        let (pass, popped) = self.call_out(rt, pass);
        let (pass, tried) = self.settle_by(pass, popped);
        let hand = Hand {
            pass,
            worker,
            asked: asked.saturating_add(1),
        };
        (hand, tried)
    }

    // Makes the bay's call that takes an item out.
    fn call_out<R: Wait>(&self, rt: &R, pass: BayPass) -> (BayPass, Popped)
        requires own { pass.site ≡ self.now.site }
        ensures gives { TakeGives self.now.usage (takes self.now.way) pass result.0 result.1 }
        ensures same_bay { result.0.site ≡ pass.site }
        ensures held { result.0.user.held ≡ held_taken result.1 pass.user.held }
    {
        match self.way {
            Way::Stack => self.bay.pop(rt, pass),
            Way::Queue => self.bay.dequeue(rt, pass),
        }
    }

    // Gives shares back after the bay's call, and asks whether the bay is quiet where it found nothing.
    fn settle_by(&self, pass: BayPass, popped: Popped) -> (BayPass, Tried)
        requires own { pass.site ≡ self.now.site }
        requires some { least_held popped ≤ pass.user.held }
        requires few { pass.user.held ≤ most_held popped }
        ensures settles { Settles self.now.usage popped pass result.0 result.1 }
        ensures same_bay { result.0.site ≡ pass.site }
        ensures few { result.0.user.held ≤ 1 }
    {
        let mut pass = pass;
        match popped {
            Popped::Item(item, receipt) => {
                self.keep_one(&mut pass);
                (pass, Tried::Got(item, receipt))
            }
            Popped::Empty(_) => {
                self.keep_none(&mut pass);
                if self.bay.quiet(&mut pass) {
                    (pass, Tried::Quiet)
                } else {
                    (pass, Tried::Nothing)
                }
            }
            Popped::Spent => {
                self.keep_none(&mut pass);
                (pass, Tried::Spent)
            }
        }
    }

    // Gives back the second share, where the pass holds two.
    fn keep_one(&self, pass: &mut BayPass)
        requires own { pass.old.site ≡ self.now.site }
        requires some { 1 ≤ pass.old.user.held }
        requires few { pass.old.user.held ≤ 2 }
        ensures { pass.new ≡ holding pass.old 1 }
    {
        if pass.held() == 2 {
            self.bay.settle(pass);
        }
    }

    // Gives back the last share, where the pass holds one.
    fn keep_none(&self, pass: &mut BayPass)
        requires own { pass.old.site ≡ self.now.site }
        requires few { pass.old.user.held ≤ 1 }
        ensures { pass.new ≡ holding pass.old 0 }
    {
        if pass.held() == 1 {
            self.bay.rest(pass);
        }
    }
}
