//! Driving work over a pool.
ghost use Rattle.std.specs.Prelude.{◌≡◌, ◌↔◌, ◌⊎◌, ◌≤◌, ℕ, [], length};
ghost use Rattle.work_pool.specs.Drives.{Drives};

use crate::advances::advance;
use crate::drives::Drive;
use crate::gates::Gate;
use crate::hands::Hand;
use crate::pools::Pool;
use crate::steps::Did;
use crate::works::Work;
use std::alloc::AllocError;
use std::sync::Wait;

/// Drives the work over the pool, with a hand of its bay that holds one share, or none where the work
/// has nothing to give and keeps nothing. It offers all that the work gives, over the stack up to 32
/// items at a time and over the queue one by one, and has the work keep what comes back; then the work
/// handles an item: one that it keeps, or else one that is taken. After each handled item it offers
/// again, until the bay is quiet or the pass is spent; over the stack it does so only once the work has
/// 32 items to give or keeps none, where the work tells that it has fewer. The hand then holds no share.
/// It waits as `put`, `put_some` and `take` do, and takes no memory but the work's.
///
/// # Errors
///
/// Want of memory while the work handled an item. The hand then holds no share.
pub fn drive<R: Wait, W: Work, G: Gate>(
    rt: &R,
    pool: &Pool,
    hand: Hand,
    gate: &G,
    work: &mut W,
) -> (Hand, Result<Drive, AllocError>)
    requires own { hand.caller.site ≡ pool.now.site }
    requires room { length (W.stands work.old).to_give ≤ (W.stands work.old).spare }
    requires share { (hand.caller.user.held ≡ 1) ⊎ ((hand.caller.user.held ≡ 0) × ((W.stands work.old).to_give ≡ []) × ((W.stands work.old).kept_items ≡ [])) }
    ensures drives { Drives pool.now.usage pool.now.way (W.leads work.old) hand result.0 (W.stands work.old) (W.stands work.new) result.1 }
    ensures same_bay { result.0.caller.site ≡ hand.caller.site }
    ensures leads { (y : ℕ) (x : ℕ) → W.leads work.new y x ↔ W.leads work.old y x }
    ensures made { W.made work.new ≡ W.made work.old }
{
    // What holds of each hand, which a proof sees by this call alone.
    let _who = hand.who();
    let mut hand = hand;
    let mut drive = Drive {
        shared: 0,
        kept: 0,
        quiet: false,
    };
    for _ in rt.forever() {
        let (after, did, then) = advance(rt, pool, hand, gate, work, drive);
        hand = after;
        drive = then;
        match did {
            Did::Handled => {}
            Did::Wanting(error) => return (hand, Err(error)),
            Did::Quiet => return (
                hand,
                Ok(Drive {
                    quiet: true,
                    ..drive
                }),
            ),
            Did::Spent => return (hand, Ok(drive)),
        }
    }
    unreachable!()
}
