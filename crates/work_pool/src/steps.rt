//! One step of a drive.
ghost use Rattle.std.specs.Prelude.{◌≡◌, ◌↔◌, ◌⊎◌, ◌≤◌, ℕ, [], length};
ghost use Rattle.bay_store.specs.Sharing.{holding};
ghost use Rattle.work_pool.specs.Running.{HandlesOne, Steps};

use crate::gates::Gate;
use crate::hands::Hand;
use crate::pools::Pool;
use crate::takes::Taken;
use crate::works::Work;
use std::alloc::AllocError;
use std::sync::Wait;

// What one step of a drive did.
#[derive(Clone, Copy, Debug, PartialEq, Eq)]
pub(crate) enum Did {
    // It handled an item.
    Handled,
    // It had an item, and memory was wanting.
    Wanting(AllocError),
    // It had no item, and the bay was quiet.
    Quiet,
    // It had no item, and the pass had made its last draw.
    Spent,
}

// Handles one item: one that the work keeps, or else one that is taken. There is nothing to give
// before. It waits as `take` does, and takes no memory but the work's.
pub(crate) fn next_step<R: Wait, W: Work, G: Gate>(
    rt: &R,
    pool: &Pool,
    hand: Hand,
    gate: &G,
    work: &mut W,
) -> (Hand, Did)
    requires own { hand.caller.site ≡ pool.now.site }
    requires none { (W.stands work.old).to_give ≡ [] }
    requires share { (hand.caller.user.held ≡ 1) ⊎ ((hand.caller.user.held ≡ 0) × ((W.stands work.old).kept_items ≡ [])) }
    ensures steps { Steps pool.now.usage pool.now.way (W.leads work.old) hand result.0 (W.stands work.old) (W.stands work.new) result.1 }
    ensures same_bay { result.0.caller.site ≡ hand.caller.site }
    ensures leads { (y : ℕ) (x : ℕ) → W.leads work.new y x ↔ W.leads work.old y x }
    ensures made { W.made work.new ≡ W.made work.old }
{
    // What holds of each hand, which a proof sees by this call alone.
    let _who = hand.who();
    match work.kept() {
        Some(item) => handle_one(pool, hand, work, item),
        None => take_one(rt, pool, hand, gate, work),
    }
}

// Takes an item and handles it, where the work keeps none.
fn take_one<R: Wait, W: Work, G: Gate>(
    rt: &R,
    pool: &Pool,
    hand: Hand,
    gate: &G,
    work: &mut W,
) -> (Hand, Did)
    requires own { hand.caller.site ≡ pool.now.site }
    requires few { hand.caller.user.held ≤ 1 }
    requires none { (W.stands work.old).to_give ≡ [] }
    requires none_kept { (W.stands work.old).kept_items ≡ [] }
    ensures steps { Steps pool.now.usage pool.now.way (W.leads work.old) hand result.0 (W.stands work.old) (W.stands work.new) result.1 }
    ensures same_bay { result.0.caller.site ≡ hand.caller.site }
    ensures leads { (y : ℕ) (x : ℕ) → W.leads work.new y x ↔ W.leads work.old y x }
    ensures made { W.made work.new ≡ W.made work.old }
{
    // What holds of each hand, which a proof sees by this call alone.
    let _who = hand.who();
    let (hand, taken) = pool.take(rt, hand, gate);
    match taken {
        Taken::Item(item, _) => handle_one(pool, hand, work, item),
        Taken::Quiet => (hand, Did::Quiet),
        Taken::Spent => (hand, Did::Spent),
    }
}

// Handles this item with a hand that holds a share, which it gives back on want of memory.
pub(crate) fn handle_one<W: Work>(pool: &Pool, hand: Hand, work: &mut W, item: u64) -> (Hand, Did)
    requires own { hand.caller.site ≡ pool.now.site }
    requires share { hand.caller.user.held ≡ 1 }
    ensures handles { HandlesOne (W.leads work.old item) item hand result.0 (W.stands work.old) (W.stands work.new) result.1 }
    ensures same_bay { result.0.caller.site ≡ hand.caller.site }
    ensures leads { (y : ℕ) (x : ℕ) → W.leads work.new y x ↔ W.leads work.old y x }
    ensures made { W.made work.new ≡ W.made work.old }
{
    match work.handle(item) {
        Ok(()) => (hand, Did::Handled),
        Err(error) => (rest(pool, hand), Did::Wanting(error)),
    }
}

// Gives back the last share of a hand that holds one. It waits for nobody and takes no memory.
fn rest(pool: &Pool, hand: Hand) -> Hand
    requires own { hand.caller.site ≡ pool.now.site }
    requires last { hand.caller.user.held ≡ 1 }
    ensures { result ≡ record hand { caller = holding hand.caller 0 } }
{
    let Hand {
        pass,
        worker,
        asked,
    } = hand;
    let mut pass = pass;
    pool.bay.rest(&mut pass);
    Hand {
        pass,
        worker,
        asked,
    }
}
