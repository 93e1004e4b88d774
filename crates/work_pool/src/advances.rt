//! Going on with a drive by one item.
ghost use Rattle.std.specs.Prelude.{◌≡◌, ◌↔◌, ◌⊎◌, ◌≤◌, ◌<◌, ◌^◌, ◌*◌, ℕ, [], length};
ghost use Rattle.bay_core.specs.declared.numbers.TheConstants.{MOST_ITEMS};
ghost use Rattle.work_pool.specs.Advancing.{Advances, MayUnkeep};

use crate::drives::Drive;
use crate::gates::Gate;
use crate::hands::Hand;
use crate::offers::offer_all;
use crate::pools::{Pool, Way};
use crate::steps::{Did, handle_one, next_step};
use crate::works::Work;
use std::sync::Wait;

// Handles one item. Over the stack, while fewer items are to be given than a handful has, that is one that
// the work keeps; so what several items lead to is offered at once. Else it offers all that is to be given,
// and handles one that is kept or taken. It waits as the offers and `take` do, and takes no memory but the
// work's.
pub(crate) fn advance<R: Wait, W: Work, G: Gate>(
    rt: &R,
    pool: &Pool,
    hand: Hand,
    gate: &G,
    work: &mut W,
    drive: Drive,
) -> (Hand, Did, Drive)
    requires own { hand.caller.site ≡ pool.now.site }
    requires room { length (W.stands work.old).to_give ≤ (W.stands work.old).spare }
    requires share { (hand.caller.user.held ≡ 1) ⊎ ((hand.caller.user.held ≡ 0) × ((W.stands work.old).to_give ≡ []) × ((W.stands work.old).kept_items ≡ [])) }
    requires small { (drive.shared ≤ MOST_ITEMS * hand.caller.draws) × (drive.kept < 2 ^ 64) }
    ensures advances { Advances pool.now.usage pool.now.way (W.leads work.old) hand result.0 (W.stands work.old) (W.stands work.new) drive result.2 result.1 }
    ensures same_bay { result.0.caller.site ≡ hand.caller.site }
    ensures leads { (y : ℕ) (x : ℕ) → W.leads work.new y x ↔ W.leads work.old y x }
    ensures made { W.made work.new ≡ W.made work.old }
{
    // What holds of each hand, which a proof sees by this call alone.
    let _who = hand.who();
    match spared(pool, work) {
        Some(item) => {
            let (hand, did) = handle_one(pool, hand, work, item);
            (hand, did, drive)
        }
        None => {
            let (hand, drive) = offer_all(rt, pool, hand, work, drive);
            let (hand, did) = next_step(rt, pool, hand, gate, work);
            (hand, did, drive)
        }
    }
}

// An item that is kept, if there is one, where the pool is offered handfuls and fewer items are to be given
// than one may have.
fn spared<W: Work>(pool: &Pool, work: &mut W) -> Option<u64>
    ensures unkeeps { MayUnkeep (W.stands work.old) (W.stands work.new) result }
    ensures leads { (y : ℕ) (x : ℕ) → W.leads work.new y x ↔ W.leads work.old y x }
    ensures made { W.made work.new ≡ W.made work.old }
{
    match pool.way {
        Way::Stack => {
            if work.has_handful() {
                None
            } else {
                work.kept()
            }
        }
        Way::Queue => None,
    }
}
