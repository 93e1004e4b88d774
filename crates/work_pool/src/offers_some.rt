//! Offering several items at once.
ghost use Rattle.std.specs.Prelude.{◌≡◌, ◌↔◌, ◌⊎◌, ◌≤◌, ◌<◌, ◌^◌, ◌*◌, ℕ, [], length, take};
ghost use Rattle.bay_core.specs.declared.numbers.TheConstants.{MOST_ITEMS};
ghost use Rattle.work_pool.specs.Running.{GivesSome, KeepsSome, OffersNext};
ghost use Rattle.work_pool.specs.declared.pools.Way.TheVariants.{Stack};

use crate::drives::Drive;
use crate::hands::Hand;
use crate::pools::Pool;
use crate::works::Work;
use bay_core::MOST_ITEMS;
use std::sync::Wait;

// Offers the first items that the work gives, up to 32, by one handful if it gives any, and keeps those
// that come back. It answers how many offers there were then, or none if there was nothing to give.
pub(crate) fn offer_some<R: Wait, W: Work>(
    rt: &R,
    pool: &Pool,
    hand: Hand,
    work: &mut W,
    drive: Drive,
) -> (Hand, Option<Drive>)
    requires own { hand.caller.site ≡ pool.now.site }
    requires stack { pool.now.way ≡ Stack }
    requires share { (1 ≤ hand.caller.user.held) ⊎ ((W.stands work.old).to_give ≡ []) }
    requires room { length (W.stands work.old).to_give ≤ (W.stands work.old).spare }
    requires small { (drive.shared ≤ MOST_ITEMS * hand.caller.draws) × (drive.kept < 2 ^ 64) }
    ensures offers { OffersNext pool.now.usage pool.now.way (W.leads work.old) hand result.0 (W.stands work.old) (W.stands work.new) drive result.1 }
    ensures same_bay { result.0.caller.site ≡ hand.caller.site }
    ensures leads { (y : ℕ) (x : ℕ) → W.leads work.new y x ↔ W.leads work.old y x }
    ensures made { W.made work.new ≡ W.made work.old }
{
    // What holds of each hand, which a proof sees by this call alone.
    let _who = hand.who();
    let mut room = [0; MOST_ITEMS];
    let count = take_up(work, &mut room);
    if count == 0 {
        return (hand, None);
    }
    let items = &room[..count];
    let (hand, put) = pool.put_some(rt, hand, items);
    let back = &items[put.shared as usize..];
    keep_all(work, back);
    let then = Drive {
        shared: drive.shared + put.shared as u64,
        kept: drive.kept.saturating_add(back.len() as u64),
        ..drive
    };
    (hand, Some(then))
}

// Has the work give items into the room, as many as it gives and there is room for. It answers how many.
fn take_up<W: Work>(work: &mut W, room: &mut [u64; MOST_ITEMS]) -> usize
    ensures few { result ≤ MOST_ITEMS }
    ensures gives { GivesSome (take result room.new) (W.stands work.old) (W.stands work.new) }
    ensures all { result ≡ 0 → (W.stands work.new).to_give ≡ [] }
    ensures leads { (y : ℕ) (x : ℕ) → W.leads work.new y x ↔ W.leads work.old y x }
    ensures made { W.made work.new ≡ W.made work.old }
{
    for i in 0..MOST_ITEMS {
        match work.give() {
            Some(item) => room[i] = item,
            None => return i,
        }
    }
    MOST_ITEMS
}

// Keeps the items, for which the work has room.
fn keep_all<W: Work>(work: &mut W, items: &[u64])
    requires room { length items.now ≤ (W.stands work.old).spare }
    ensures keeps { KeepsSome items.now (W.stands work.old) (W.stands work.new) }
    ensures leads { (y : ℕ) (x : ℕ) → W.leads work.new y x ↔ W.leads work.old y x }
    ensures made { W.made work.new ≡ W.made work.old }
{
    for i in 0..items.len() {
        work.keep(items[i]);
    }
}
