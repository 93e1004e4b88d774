//! Drives over a bay of one block, on one thread.
ghost use Rattle.std.specs.Prelude.{◌≡◌, ◌≤◌, ◌^◌, length};

use super::pools::hand_of;
use crate::Twice;
use bay_core::Layout;
use bay_store::{Bay, BayPass, Closed};
use std::alloc::{AllocError, Global};
use std::cell::Cell;
use std::process::Abort;
use std::sync::Wait;
use work_pool::{Drive, Gate, Hand, OpenGate, Pool, Way, drive};

// What a drive left: how many items were handled, the shares of the pass, how many questions it asked,
// and the closed bay.
#[derive(Drop)]
pub(crate) struct Left {
    pub(crate) driven: Result<Drive, AllocError>,
    pub(crate) handled: usize,
    pub(crate) held: u64,
    pub(crate) asked: u64,
    pub(crate) closed: Closed,
}

// Closes a bay of one caller.
fn close_one(alloc: Global, bay: Bay, pass: BayPass) -> Result<Closed, AllocError>
    requires own { pass.site ≡ bay.site }
    requires one { bay.callers ≡ 1 }
{
    let mut passes = Vec::with_capacity(alloc, 1)?;
    passes.push_reserved(pass);
    match bay.close(alloc, passes) {
        Ok(closed) => Ok(closed),
        Err(_) => Err(AllocError),
    }
}

// Drives the work through the stack of a bay of one caller, which it closes then.
pub(crate) fn left_of<R: Wait, G: Gate>(
    rt: &R,
    alloc: Global,
    bay: Bay,
    hand: Hand,
    work: Twice,
    gate: &G,
) -> Result<Left, AllocError>
    requires own { hand.caller.site ≡ bay.site }
    requires one { bay.callers ≡ 1 }
    requires share { hand.caller.user.held ≡ 1 }
    requires room { length work.to_give ≤ work.spare }
{
    let mut work = work;
    let pool = Pool::over(&bay, Way::Stack);
    let (hand, driven) = drive(rt, &pool, hand, gate, &mut work);
    let held = hand.held();
    let asked = hand.asked();
    let handled = work.done();
    let closed = close_one(alloc, bay, hand.pass())?;
    Ok(Left {
        driven,
        handled,
        held,
        asked,
        closed,
    })
}

// Drives work that gives 3 first, with so many draws, through the stack.
fn drive_alone<R: Wait + Abort, G: Gate>(
    rt: &R,
    alloc: Global,
    draws: u64,
    lacks: bool,
    gate: &G,
) -> Result<Left, AllocError>
    requires { draws ≤ 2 ^ 48 }
{
    let (bay, mut passes) = Bay::set_up(alloc, Layout::Split, 1, 1, draws)?;
    let hand = hand_of(&bay, &mut passes).expect(rt, "a hand");
    let work = Twice::new(alloc, Some(3), lacks)?;
    left_of(rt, alloc, bay, hand, work, gate)
}

// The answer of a drive that memory did not stop.
pub(crate) fn driven_so(shared: u64, kept: u64, quiet: bool) -> Result<Drive, AllocError> {
    Ok(Drive {
        shared,
        kept,
        quiet,
    })
}

#[test]
fn a_drive_ends_where_the_bay_is_quiet(rt: HostRuntime) -> Result<(), AllocError> {
    let left = drive_alone(&rt, rt.alloc(), 1000, false, &OpenGate)?;
    assert_eq!(rt; left.driven, driven_so(15, 0, true));
    assert_eq!(rt; (left.handled, left.held), (15, 0));
    assert_eq!(rt; (left.closed.stack.len(), left.closed.live), (0, 0));
    Ok(())
}

#[test]
fn a_spent_drive_leaves_its_items_in_the_pool(rt: HostRuntime) -> Result<(), AllocError> {
    let left = drive_alone(&rt, rt.alloc(), 3, false, &OpenGate)?;
    assert_eq!(rt; left.driven, driven_so(3, 0, false));
    assert_eq!(rt; (left.handled, left.held), (1, 0));
    assert_eq!(rt; left.closed.stack.as_slice(), [2, 2].as_slice());
    assert_eq!(rt; left.closed.live, 2);
    Ok(())
}

#[test]
fn what_comes_back_is_kept_and_handled(rt: HostRuntime) -> Result<(), AllocError> {
    let left = drive_alone(&rt, rt.alloc(), 4, false, &OpenGate)?;
    assert_eq!(rt; left.driven, driven_so(3, 6, false));
    assert_eq!(rt; (left.handled, left.held), (8, 0));
    assert_eq!(rt; left.closed.stack.as_slice(), [2].as_slice());
    assert_eq!(rt; left.closed.live, 1);
    Ok(())
}

#[test]
fn want_of_memory_ends_a_drive(rt: HostRuntime) -> Result<(), AllocError> {
    let left = drive_alone(&rt, rt.alloc(), 1000, true, &OpenGate)?;
    assert_eq!(rt; left.driven, Err(AllocError));
    assert_eq!(rt; (left.handled, left.held), (0, 0));
    assert_eq!(rt; (left.closed.stack.len(), left.closed.live), (0, 0));
    Ok(())
}

// A gate that follows its questions: the number of the next one, and how many had another number.
#[derive(Drop)]
struct Follows {
    next: Cell<u64>,
    others: Cell<u64>,
}

impl Gate for Follows {
    fn ask(&self, worker: u32, take: u64) {
        if worker != 0 || take != self.next.get() {
            self.others.set(self.others.get().wrapping_add(1));
        }
        self.next.set(self.next.get().wrapping_add(1));
    }
}

#[test]
fn a_drive_asks_with_one_number_after_another(rt: HostRuntime) -> Result<(), AllocError> {
    for (draws, questions) in [(1000, 16), (4, 3), (3, 2)] {
        let gate = Follows {
            next: Cell::new(0),
            others: Cell::new(0),
        };
        let left = drive_alone(&rt, rt.alloc(), draws, false, &gate)?;
        assert_eq!(rt; (left.asked, gate.next.get()), (questions, questions));
        assert_eq!(rt; gate.others.get(), 0);
    }
    Ok(())
}
