//! Offering what a work gives.
ghost use Rattle.std.specs.Prelude.{◌≡◌, ◌↔◌, ◌⊎◌, ◌≤◌, ◌<◌, ◌^◌, ◌*◌, ℕ, [], length};
ghost use Rattle.bay_core.specs.declared.numbers.TheConstants.{MOST_ITEMS};
ghost use Rattle.work_pool.specs.Running.{PutsBy, OffersNext, OffersAll};

use crate::drives::Drive;
use crate::hands::Hand;
use crate::offers_some::offer_some;
use crate::pools::{Pool, Way};
use crate::puts::Put;
use crate::works::Work;
use std::sync::Wait;

// Offers all that the work gives, in its order, with a hand that holds a share if there is something to
// give, and keeps what comes back. It counts the offers on. It waits as `put` and `put_some` do, and
// takes no memory.
pub(crate) fn offer_all<R: Wait, W: Work>(
    rt: &R,
    pool: &Pool,
    hand: Hand,
    work: &mut W,
    drive: Drive,
) -> (Hand, Drive)
    requires own { hand.caller.site ≡ pool.now.site }
    requires share { (1 ≤ hand.caller.user.held) ⊎ ((W.stands work.old).to_give ≡ []) }
    requires room { length (W.stands work.old).to_give ≤ (W.stands work.old).spare }
    requires small { (drive.shared ≤ MOST_ITEMS * hand.caller.draws) × (drive.kept < 2 ^ 64) }
    ensures offers { OffersAll pool.now.usage pool.now.way (W.leads work.old) hand result.0 (W.stands work.old) (W.stands work.new) drive result.1 }
    ensures same_bay { result.0.caller.site ≡ hand.caller.site }
    ensures leads { (y : ℕ) (x : ℕ) → W.leads work.new y x ↔ W.leads work.old y x }
    ensures made { W.made work.new ≡ W.made work.old }
{
    // What holds of each hand, which a proof sees by this call alone.
    let _who = hand.who();
    let mut hand = hand;
    let mut drive = drive;
    loop {
        let (after, offered) = offer_next(rt, pool, hand, work, drive);
        hand = after;
        match offered {
            Some(then) => drive = then,
            None => return (hand, drive),
        }
    }
}

// Offers the first item that the work gives, or over the stack the first ones, and keeps what comes back.
// It answers how many offers there were then, or none if there was nothing to give.
fn offer_next<R: Wait, W: Work>(
    rt: &R,
    pool: &Pool,
    hand: Hand,
    work: &mut W,
    drive: Drive,
) -> (Hand, Option<Drive>)
    requires own { hand.caller.site ≡ pool.now.site }
    requires share { (1 ≤ hand.caller.user.held) ⊎ ((W.stands work.old).to_give ≡ []) }
    requires room { length (W.stands work.old).to_give ≤ (W.stands work.old).spare }
    requires small { (drive.shared ≤ MOST_ITEMS * hand.caller.draws) × (drive.kept < 2 ^ 64) }
    ensures offers { OffersNext pool.now.usage pool.now.way (W.leads work.old) hand result.0 (W.stands work.old) (W.stands work.new) drive result.1 }
    ensures same_bay { result.0.caller.site ≡ hand.caller.site }
    ensures leads { (y : ℕ) (x : ℕ) → W.leads work.new y x ↔ W.leads work.old y x }
    ensures made { W.made work.new ≡ W.made work.old }
{
    match pool.way {
        Way::Stack => offer_some(rt, pool, hand, work, drive),
        Way::Queue => offer_one(rt, pool, hand, work, drive),
    }
}

// Offers the first item that the work gives by a put, if it gives one.
fn offer_one<R: Wait, W: Work>(
    rt: &R,
    pool: &Pool,
    hand: Hand,
    work: &mut W,
    drive: Drive,
) -> (Hand, Option<Drive>)
    requires own { hand.caller.site ≡ pool.now.site }
    requires share { (1 ≤ hand.caller.user.held) ⊎ ((W.stands work.old).to_give ≡ []) }
    requires room { length (W.stands work.old).to_give ≤ (W.stands work.old).spare }
    requires small { (drive.shared ≤ MOST_ITEMS * hand.caller.draws) × (drive.kept < 2 ^ 64) }
    ensures offers { OffersNext pool.now.usage pool.now.way (W.leads work.old) hand result.0 (W.stands work.old) (W.stands work.new) drive result.1 }
    ensures same_bay { result.0.caller.site ≡ hand.caller.site }
    ensures leads { (y : ℕ) (x : ℕ) → W.leads work.new y x ↔ W.leads work.old y x }
    ensures made { W.made work.new ≡ W.made work.old }
{
    // What holds of each hand, which a proof sees by this call alone.
    let _who = hand.who();
    match work.give() {
        Some(item) => {
            let (hand, put) = pool.put(rt, hand, item);
            (hand, Some(count_offer(work, put, drive)))
        }
        None => (hand, None),
    }
}

// Counts an offer on, and keeps its item if it came back.
fn count_offer<W: Work>(work: &mut W, put: Put, drive: Drive) -> Drive
    requires room { 1 ≤ (W.stands work.old).spare }
    requires few { drive.shared ≤ MOST_ITEMS * 2 ^ 48 }
    ensures puts { PutsBy put (W.stands work.old) (W.stands work.new) drive result }
    ensures leads { (y : ℕ) (x : ℕ) → W.leads work.new y x ↔ W.leads work.old y x }
    ensures made { W.made work.new ≡ W.made work.old }
{
    match put {
        Put::Shared(_) => Drive {
            shared: drive.shared + 1,
            ..drive
        },
        Put::Full(item) | Put::Spent(item) => {
            work.keep(item);
            Drive {
                kept: drive.kept.saturating_add(1),
                ..drive
            }
        }
    }
}
