//! Peeks and looks at both lengths, on one thread.
ghost use Rattle.std.specs.Prelude.{◌≡◌, ◌≤◌};
ghost use Rattle.bay_store.specs.Sharing.{MayAsk};
ghost use Rattle.bay_store.specs.Wishes.{IsOne};

use super::closing::{close_one, close_two};
use super::{acted, asked, entered, put, stamp, take, taken};
use crate::{Bay, BayAsk, BayPass, BayWaiting, Counted, Peeked};
use bay_core::{Layout, Op, Reply};
use std::alloc::AllocError;
use std::process::Abort;
use std::sync::Wait;

// Asks for an operation that puts nothing in, where a draw is left.
fn asked_to_look(rt: &impl Abort, bay: &Bay, pass: BayPass, op: Op) -> BayWaiting
    requires own { pass.site ≡ bay.now.site }
    requires may { MayAsk op 0 pass.user.held }
    ensures same_bay { result.waiter.caller.site ≡ bay.now.site }
    ensures who { result.waiter.caller.who ≡ pass.who }
    ensures asked { IsOne result.wish }
{
    match bay.ask(pass, op, 0) {
        BayAsk::Waiting(waiting) => waiting,
        BayAsk::Spent(_) => panic!(rt; "the pass is spent"),
    }
}

// The turn, the rank and the reply of a peek.
fn peeked<R: Wait + Abort>(rt: &R, bay: &Bay, pass: BayPass) -> (BayPass, (u64, u64, Reply))
    requires own { pass.site ≡ bay.now.site }
    ensures own { result.0.site ≡ bay.now.site }
    ensures held { result.0.user.held ≡ pass.user.held }
{
    let (pass, peeked) = bay.peek(rt, pass);
    match peeked {
        Peeked::Item(_, receipt) | Peeked::Empty(receipt) => (pass, stamp(&receipt)),
        Peeked::Spent => panic!(rt; "the pass is spent"),
    }
}

// The turn, the rank and the reply of a look at both lengths.
fn counted<R: Wait + Abort>(rt: &R, bay: &Bay, pass: BayPass) -> (BayPass, (u64, u64, Reply))
    requires own { pass.site ≡ bay.now.site }
    ensures own { result.0.site ≡ bay.now.site }
    ensures held { result.0.user.held ≡ pass.user.held }
{
    let (pass, counted) = bay.sizes(rt, pass);
    match counted {
        Counted::Sizes(_, _, receipt) => (pass, stamp(&receipt)),
        Counted::Spent => panic!(rt; "the pass is spent"),
    }
}

// Looks at the top item, and then at both lengths, which are so in these turns.
fn shows<R: Wait + Abort>(
    rt: &R,
    bay: &Bay,
    pass: BayPass,
    turn: u64,
    top: Reply,
    sizes: (u64, u64),
) -> BayPass
    requires own { pass.site ≡ bay.now.site }
    requires share { 1 ≤ pass.user.held }
    ensures own { result.site ≡ bay.now.site }
    ensures share { 1 ≤ result.user.held }
{
    let (pass, peek) = peeked(rt, bay, pass);
    assert_eq!(rt; peek, (turn, 0, top));
    let (pass, count) = counted(rt, bay, pass);
    assert_eq!(rt;
        count,
        (turn.wrapping_add(1), 0, Reply::Sizes(sizes.0, sizes.1))
    );
    pass
}

#[test]
fn two_looks_share_a_turn(rt: HostRuntime) -> Result<(), AllocError> {
    let (bay, mut passes) = Bay::set_up(rt.alloc(), Layout::Split, 1, 2, 10)?;
    let two = taken(&bay, &mut passes).expect(&rt, "a pass");
    let one = taken(&bay, &mut passes).expect(&rt, "a pass");
    let one = asked(&rt, &bay, one, 7);
    let one = entered(&rt, &bay, one);
    let (one, stored) = acted(&rt, &bay, one);
    assert_eq!(rt; stamp(&stored), (1, 4_294_967_296, Reply::Done));
    let one = bay.leave(one);
    let one = asked_to_look(&rt, &bay, one, Op::Peek);
    let two = asked_to_look(&rt, &bay, two, Op::Sizes);
    let one = entered(&rt, &bay, one);
    let two = entered(&rt, &bay, two);
    let (one, first) = acted(&rt, &bay, one);
    let (two, second) = acted(&rt, &bay, two);
    assert_eq!(rt; stamp(&first), (2, 0, Reply::Item(7)));
    assert_eq!(rt; stamp(&second), (2, 1, Reply::Sizes(1, 0)));
    let one = bay.leave(one);
    let two = bay.leave(two);
    assert_eq!(rt;
        (one.held(), one.draws(), two.held(), two.draws()),
        (1, 2, 1, 1)
    );
    let closed = close_two(rt.alloc(), bay, one, two)?;
    assert_eq!(rt; closed.stack.as_slice(), [7].as_slice());
    assert_eq!(rt; (closed.queue.len(), closed.live), (0, 3));
    Ok(())
}

// Puts and takes items, and looks between them. The first put of each list takes so many turns more.
fn looks_between<R: Wait + Abort>(rt: &R, bay: &Bay, pass: BayPass, more: u64) -> BayPass
    requires own { pass.site ≡ bay.now.site }
    requires share { 1 ≤ pass.user.held }
    ensures own { result.site ≡ bay.now.site }
    ensures share { 1 ≤ result.user.held }
{
    let turn = more.wrapping_add(1);
    let pass = shows(rt, bay, pass, 1, Reply::Empty, (0, 0));
    let (pass, _) = put(rt, bay, pass, Op::Push, 5);
    let pass = shows(rt, bay, pass, turn.wrapping_add(3), Reply::Item(5), (1, 0));
    let (pass, _) = put(rt, bay, pass, Op::Push, 6);
    let (pass, _) = put(rt, bay, pass, Op::Enq, 8);
    let turn = turn.wrapping_add(more);
    let pass = shows(rt, bay, pass, turn.wrapping_add(7), Reply::Item(6), (2, 1));
    let (pass, item, _) = take(rt, bay, pass, Op::Pop);
    assert_eq!(rt; item, 6);
    let pass = shows(rt, bay, pass, turn.wrapping_add(10), Reply::Item(5), (1, 1));
    let (pass, item, _) = take(rt, bay, pass, Op::Deq);
    assert_eq!(rt; item, 8);
    let (pass, item, _) = take(rt, bay, pass, Op::Pop);
    assert_eq!(rt; item, 5);
    shows(rt, bay, pass, turn.wrapping_add(14), Reply::Empty, (0, 0))
}

#[test]
fn looks_show_the_lists_of_a_split_bay(rt: HostRuntime) -> Result<(), AllocError> {
    let (bay, mut passes) = Bay::set_up(rt.alloc(), Layout::Split, 1, 1, 100)?;
    let pass = taken(&bay, &mut passes).expect(&rt, "a pass");
    let pass = looks_between(&rt, &bay, pass, 0);
    assert_eq!(rt; (pass.held(), pass.draws()), (4, 16));
    let closed = close_one(rt.alloc(), bay, pass)?;
    assert_eq!(rt; (closed.stack.len(), closed.queue.len()), (0, 0));
    assert_eq!(rt; (closed.live, closed.blocks_free), (4, 0));
    Ok(())
}

#[test]
fn looks_show_the_lists_of_a_paged_bay(rt: HostRuntime) -> Result<(), AllocError> {
    let (bay, mut passes) = Bay::set_up(rt.alloc(), Layout::Paged, 2, 1, 100)?;
    let pass = taken(&bay, &mut passes).expect(&rt, "a pass");
    let pass = looks_between(&rt, &bay, pass, 1);
    assert_eq!(rt; (pass.held(), pass.draws()), (4, 18));
    let closed = close_one(rt.alloc(), bay, pass)?;
    assert_eq!(rt; (closed.stack.len(), closed.queue.len()), (0, 0));
    assert_eq!(rt; closed.live, 4);
    Ok(())
}

#[test]
fn no_look_is_made_without_a_draw(rt: HostRuntime) -> Result<(), AllocError> {
    let (bay, mut passes) = Bay::set_up(rt.alloc(), Layout::Split, 1, 1, 1)?;
    let pass = taken(&bay, &mut passes).expect(&rt, "a pass");
    let (pass, peek) = peeked(&rt, &bay, pass);
    assert_eq!(rt; peek, (1, 0, Reply::Empty));
    let (pass, peek) = bay.peek(&rt, pass);
    assert_eq!(rt; peek, Peeked::Spent);
    let (pass, count) = bay.sizes(&rt, pass);
    assert_eq!(rt; count, Counted::Spent);
    assert_eq!(rt; (pass.held(), pass.draws()), (1, 1));
    Ok(())
}
