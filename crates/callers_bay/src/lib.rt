//! A caller to copy: a call of a bay in its parts, by one that has other things to do while it waits.
#![tactic(auto)]

ghost use Rattle.std.specs.Prelude.{◌≡◌, ◌≤◌, ◌<◌, MatchOption};
ghost use Rattle.bay_core.specs.declared.calls.Layout.TheVariants.{Split};
ghost use Rattle.bay_core.specs.declared.calls.Op.TheVariants.{Push};
ghost use Rattle.bay_store.specs.Wishes.{IsOne, op_of, item_of};

use bay_core::Op;
use bay_store::{Bay, BayActed, BayAsk, BayInside, BayPass, BayPolled, BayWaiting, Receipt};
use std::sync::Wait;

/// Pushes an item onto the stack of a bay whose lists have cells of their own: it asks for the room of
/// pushes, does something else after each poll that finds the room shut, acts once it is inside, and
/// leaves. The receipt is that of this push; there is none exactly where no draw was left. It waits for
/// those that are let in before it, and takes no memory.
pub fn push_in_parts<R: Wait>(
    rt: &R,
    bay: &Bay,
    pass: BayPass,
    item: u64,
) -> (BayPass, Option<Receipt>)
    requires own { pass.site ≡ bay.now.site }
    requires split { bay.now.usage.layout ≡ Split }
    requires share { 1 ≤ pass.user.held }
    ensures same_bay { result.0.site ≡ bay.now.site }
    ensures told { MatchOption result.1 (pass.draws ≡ pass.limit)
        (λ r. (pass.draws < pass.limit) × (r.entry.op ≡ Push) × (r.entry.arg ≡ item)) }
{
    match bay.ask(pass, Op::Push, item) {
        BayAsk::Spent(pass) => (pass, None),
        BayAsk::Waiting(waiting) => {
            let (pass, receipt) = goes_in(rt, bay, waiting);
            (pass, Some(receipt))
        }
    }
}

// Polls until it is inside, and goes on there.
fn goes_in<R: Wait>(rt: &R, bay: &Bay, waiting: BayWaiting) -> (BayPass, Receipt)
    requires own { waiting.waiter.caller.site ≡ bay.now.site }
    requires split { bay.now.usage.layout ≡ Split }
    requires asked { IsOne waiting.wish }
    ensures same_bay { result.0.site ≡ bay.now.site }
    ensures op { result.1.entry.op ≡ op_of waiting.wish }
    ensures item { result.1.entry.arg ≡ item_of waiting.wish }
{
    let mut waiting = waiting;
    for _ in rt.forever() {
        match bay.poll(waiting) {
            BayPolled::Entered(inside) => return acts(bay, inside),
            BayPolled::NotYet(still) => waiting = still,
        }
        something_else();
    }
    unreachable!()
}

// Does the operation, and leaves. No call overflows where each list has cells of its own.
fn acts(bay: &Bay, inside: BayInside) -> (BayPass, Receipt)
    requires own { inside.insider.caller.site ≡ bay.now.site }
    requires split { bay.now.usage.layout ≡ Split }
    requires asked { IsOne inside.wish }
    ensures same_bay { result.0.site ≡ bay.now.site }
    ensures op { result.1.entry.op ≡ op_of inside.wish }
    ensures item { result.1.entry.arg ≡ item_of inside.wish }
{
    match bay.act(inside) {
        BayActed::Answered(done, receipt) => (bay.leave(done), receipt),
        BayActed::Overflow(_done) => unreachable!(),
    }
}

// What the caller does between two polls.
fn something_else() {}

#[cfg(test)]
mod tests;
