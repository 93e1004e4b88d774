//! Handfuls of pushes, on one thread.
ghost use Rattle.std.specs.Prelude.{◌≡◌, ◌≤◌, length};
ghost use Rattle.bay_core.specs.declared.numbers.TheConstants.{MOST_ITEMS};
ghost use Rattle.bay_store.specs.Wishes.{IsSeveral};

use super::closing::{close_one, close_two};
use super::{entered, taken};
use crate::{Bay, BayAsk, BayHandful, BayInside, BayPass, BayWaiting, Stop};
use bay_core::Layout;
use std::alloc::AllocError;
use std::process::Abort;
use std::sync::Wait;

const ITEMS: [u64; 40] = [
    1, 2, 3, 4, 5, 6, 7, 8, 9, 10, 11, 12, 13, 14, 15, 16, 17, 18, 19, 20, 21, 22, 23, 24, 25, 26,
    27, 28, 29, 30, 31, 32, 33, 34, 35, 36, 37, 38, 39, 40,
];

// Asks to push the items, where a draw is left.
fn asked_some(rt: &impl Abort, bay: &Bay, pass: BayPass, items: &[u64]) -> BayWaiting
    requires own { pass.site ≡ bay.now.site }
    requires some { 1 ≤ length items.now }
    requires few { length items.now ≤ MOST_ITEMS }
    requires share { 1 ≤ pass.user.held }
    ensures same_bay { result.waiter.caller.site ≡ bay.now.site }
    ensures who { result.waiter.caller.who ≡ pass.who }
    ensures asked { IsSeveral result.wish }
{
    match bay.ask_some(pass, items) {
        BayAsk::Waiting(waiting) => waiting,
        BayAsk::Spent(_) => panic!(rt; "the pass is spent"),
    }
}

// Does the handful and leaves. It answers how many are stored, what stopped it, the turn and the first
// rank.
fn done_some(bay: &Bay, inside: BayInside) -> (BayPass, (u32, Stop, u64, u64))
    requires own { inside.insider.caller.site ≡ bay.now.site }
    requires asked { IsSeveral inside.wish }
    ensures same_bay { result.0.site ≡ bay.now.site }
    ensures who { result.0.who ≡ inside.insider.caller.who }
{
    let BayHandful {
        done,
        stored,
        stop,
        turn,
        rank,
        first: _,
    } = bay.act_some(inside);
    (bay.leave(done), (stored, stop, turn, rank))
}

// Puts 20 items by one call, which stores them all.
fn put_twenty<R: Wait + Abort>(rt: &R, bay: &Bay, pass: BayPass) -> BayPass
    requires own { pass.site ≡ bay.now.site }
    requires share { 1 ≤ pass.user.held }
    ensures own { result.site ≡ bay.now.site }
    ensures share { 1 ≤ result.user.held }
{
    let (pass, handful) = bay.push_some(rt, pass, &ITEMS[..20]);
    assert_eq!(rt; (handful.stored, handful.stop), (20, Stop::All));
    pass
}

#[test]
fn a_handful_is_full_at_32_items(rt: HostRuntime) -> Result<(), AllocError> {
    let (bay, mut passes) = Bay::set_up(rt.alloc(), Layout::Split, 1, 1, 100)?;
    let pass = taken(&bay, &mut passes).expect(&rt, "a pass");
    let waiting = asked_some(&rt, &bay, pass, &ITEMS[..20]);
    let inside = entered(&rt, &bay, waiting);
    let (pass, first) = done_some(&bay, inside);
    assert_eq!(rt; first, (20, Stop::All, 1, 4_294_967_296));
    assert_eq!(rt; pass.held(), 1);
    let waiting = asked_some(&rt, &bay, pass, &ITEMS[20..]);
    let inside = entered(&rt, &bay, waiting);
    let (pass, second) = done_some(&bay, inside);
    assert_eq!(rt; second, (12, Stop::Full, 2, 4_294_967_316));
    assert_eq!(rt; (pass.held(), pass.draws()), (1, 2));
    let closed = close_one(rt.alloc(), bay, pass)?;
    assert_eq!(rt; closed.stack.as_slice(), &ITEMS[..32]);
    assert_eq!(rt; closed.queue.len(), 0);
    assert_eq!(rt; closed.live, 33);
    Ok(())
}

#[test]
fn handfuls_take_two_blocks(rt: HostRuntime) -> Result<(), AllocError> {
    let (bay, mut passes) = Bay::set_up(rt.alloc(), Layout::Paged, 2, 1, 100)?;
    let pass = taken(&bay, &mut passes).expect(&rt, "a pass");
    let pass = put_twenty(&rt, &bay, pass);
    assert_eq!(rt; pass.draws(), 2);
    let pass = put_twenty(&rt, &bay, pass);
    assert_eq!(rt; pass.draws(), 3);
    let pass = put_twenty(&rt, &bay, pass);
    assert_eq!(rt; pass.draws(), 4);
    let pass = put_twenty(&rt, &bay, pass);
    assert_eq!(rt; (pass.held(), pass.draws()), (1, 6));
    let closed = close_one(rt.alloc(), bay, pass)?;
    assert_eq!(rt; (closed.stack.len(), closed.queue.len()), (80, 0));
    assert_eq!(rt; &closed.stack.as_slice()[60..], &ITEMS[..20]);
    assert_eq!(rt; (closed.live, closed.blocks_free), (81, 0));
    Ok(())
}

#[test]
fn an_overflow_stores_the_first_items(rt: HostRuntime) -> Result<(), AllocError> {
    let (bay, mut passes) = Bay::set_up(rt.alloc(), Layout::Paged, 2, 1, 5)?;
    let pass = taken(&bay, &mut passes).expect(&rt, "a pass");
    let pass = put_twenty(&rt, &bay, pass);
    let pass = put_twenty(&rt, &bay, pass);
    let pass = put_twenty(&rt, &bay, pass);
    let (pass, handful) = bay.push_some(&rt, pass, &ITEMS[..20]);
    assert_eq!(rt; (handful.stored, handful.stop), (4, Stop::Spent));
    assert_eq!(rt; (pass.held(), pass.draws()), (1, 5));
    let closed = close_one(rt.alloc(), bay, pass)?;
    assert_eq!(rt; (closed.stack.len(), closed.live), (64, 65));
    Ok(())
}

#[test]
fn an_overflow_leaves_the_rest_for_the_next_turn(rt: HostRuntime) -> Result<(), AllocError> {
    let (bay, mut passes) = Bay::set_up(rt.alloc(), Layout::Paged, 2, 1, 100)?;
    let pass = taken(&bay, &mut passes).expect(&rt, "a pass");
    let pass = put_twenty(&rt, &bay, pass);
    let pass = put_twenty(&rt, &bay, pass);
    let pass = put_twenty(&rt, &bay, pass);
    let waiting = asked_some(&rt, &bay, pass, &ITEMS[..20]);
    let inside = entered(&rt, &bay, waiting);
    let (pass, first) = done_some(&bay, inside);
    assert_eq!(rt; first, (4, Stop::Overflow, 5, 4_294_967_356));
    assert_eq!(rt; pass.held(), 1);
    let waiting = asked_some(&rt, &bay, pass, &ITEMS[4..20]);
    let inside = entered(&rt, &bay, waiting);
    let (pass, second) = done_some(&bay, inside);
    assert_eq!(rt; second, (16, Stop::All, 6, 4_294_967_360));
    assert_eq!(rt; (pass.held(), pass.draws()), (1, 6));
    Ok(())
}

#[test]
fn two_handfuls_share_a_turn(rt: HostRuntime) -> Result<(), AllocError> {
    let (bay, mut passes) = Bay::set_up(rt.alloc(), Layout::Split, 1, 2, 10)?;
    let two = taken(&bay, &mut passes).expect(&rt, "a pass");
    let one = taken(&bay, &mut passes).expect(&rt, "a pass");
    let one = asked_some(&rt, &bay, one, &ITEMS[..3]);
    let two = asked_some(&rt, &bay, two, &ITEMS[3..5]);
    let one = entered(&rt, &bay, one);
    let two = entered(&rt, &bay, two);
    let (one, first) = done_some(&bay, one);
    let (two, second) = done_some(&bay, two);
    assert_eq!(rt; first, (3, Stop::All, 1, 4_294_967_296));
    assert_eq!(rt; second, (2, Stop::All, 1, 4_294_967_299));
    let closed = close_two(rt.alloc(), bay, one, two)?;
    assert_eq!(rt; closed.stack.as_slice(), &ITEMS[..5]);
    assert_eq!(rt; closed.live, 7);
    Ok(())
}
