//! Handfuls through a pool over a bay of one block, on one thread.
ghost use Rattle.std.specs.Prelude.{◌≡◌, ◌≤◌, length, IfOk};
ghost use Rattle.work_pool.specs.declared.pools.Way.TheVariants.{Stack};

use super::alone::{Left, driven_so, left_of};
use super::pools::hand_of;
use crate::Twice;
use bay_core::Layout;
use bay_store::{Bay, Stop};
use std::alloc::{AllocError, Global};
use std::process::Abort;
use std::sync::Wait;
use work_pool::{Hand, OpenGate, Pool, PutSome, Way, Work};

// Puts twenty items, and answers how many are in the pool, what stopped it and the draws then.
fn put_twenty<R: Wait>(rt: &R, pool: &Pool, hand: Hand) -> (Hand, (u32, Stop))
    requires own { hand.caller.site ≡ pool.now.site }
    requires stack { pool.now.way ≡ Stack }
    requires share { 1 ≤ hand.caller.user.held }
    ensures same_bay { result.0.caller.site ≡ hand.caller.site }
    ensures held { result.0.caller.user.held ≡ hand.caller.user.held }
{
    let items = [7; 20];
    let (hand, PutSome { shared, stop }) = pool.put_some(rt, hand, &items);
    (hand, (shared, stop))
}

#[test]
fn a_handful_is_stored_as_far_as_there_are_cells(rt: HostRuntime) -> Result<(), AllocError> {
    let (bay, mut passes) = Bay::set_up(rt.alloc(), Layout::Split, 1, 1, 2)?;
    let hand = hand_of(&bay, &mut passes).expect(&rt, "a hand");
    let pool = Pool::over(&bay, Way::Stack);
    let (hand, first) = put_twenty(&rt, &pool, hand);
    assert_eq!(rt; first, (20, Stop::All));
    let (hand, second) = put_twenty(&rt, &pool, hand);
    assert_eq!(rt; second, (12, Stop::Full));
    let (hand, third) = put_twenty(&rt, &pool, hand);
    assert_eq!(rt; third, (0, Stop::Spent));
    assert_eq!(rt; (hand.held(), hand.asked()), (1, 0));
    assert_eq!(rt; hand.pass().draws(), 2);
    Ok(())
}

// A work that is to give 2 twice and keeps a 3.
fn keeping(rt: &impl Abort, alloc: Global) -> Result<Twice, AllocError>
    ensures { IfOk result (λ w. length w.to_give ≤ w.spare) }
{
    let mut work = Twice::new(alloc, Some(3), false)?;
    work.handle(3)?;
    let first = work.give().expect(rt, "an item");
    work.keep(first);
    Ok(work)
}

// Drives it with one draw.
fn drive_keeping<R: Wait + Abort>(rt: &R, alloc: Global) -> Result<Left, AllocError> {
    let (bay, mut passes) = Bay::set_up(alloc, Layout::Split, 1, 1, 1)?;
    let hand = hand_of(&bay, &mut passes).expect(rt, "a hand");
    let work = keeping(rt, alloc)?;
    left_of(rt, alloc, bay, hand, work, &OpenGate)
}

#[test]
fn what_kept_items_lead_to_is_offered_at_once(rt: HostRuntime) -> Result<(), AllocError> {
    let left = drive_keeping(&rt, rt.alloc())?;
    assert_eq!(rt; left.driven, driven_so(4, 0, false));
    assert_eq!(rt; (left.handled, left.held), (2, 0));
    assert_eq!(rt; left.closed.stack.as_slice(), [2, 2, 2, 2].as_slice());
    assert_eq!(rt; left.closed.live, 4);
    Ok(())
}
