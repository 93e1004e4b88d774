//! Pools over a bay of one block, on one thread.
ghost use Rattle.std.specs.Prelude.{◌≡◌, ◌≤◌, ℕ, IfSome};
ghost use Rattle.room_rule.specs.Use.{IsAt};
ghost use Rattle.room_gate.specs.Shows.{Caller};
ghost use Rattle.bay_rule.specs.declared.views.BayView.{BayView};

use bay_core::{Layout, Reply};
use bay_store::{Bay, BayPass};
use std::alloc::AllocError;
use std::cell::Cell;
use std::process::Abort;
use std::sync::Wait;
use work_pool::{Gate, Hand, OpenGate, Pool, Put, Taken, Way};

// A hand of the last of the passes, each of which holds one share.
pub(crate) fn hand_of(bay: &Bay, passes: &mut Vec<BayPass>) -> Option<Hand>
    requires { (i : ℕ) (p : Caller BayView) → IsAt passes.old.items i p → (p.site ≡ bay.now.site) × (p.user.held ≡ 1) }
    ensures { IfSome result (λ h. (h.caller.site ≡ bay.now.site) × (h.caller.user.held ≡ 1)) }
{
    let _ = bay;
    let pass = passes.pop()?;
    Some(Hand::new(pass, 0))
}

// The reply of the call that stored the item, or the item.
fn reply_or_item(put: Put) -> Result<Reply, u64> {
    match put {
        Put::Shared(receipt) => Ok(receipt.entry.reply),
        Put::Full(item) | Put::Spent(item) => Err(item),
    }
}

// A gate that writes down its questions: a digit for each, which is one more than its number.
#[derive(Drop)]
struct Asks {
    digits: Cell<u64>,
}

impl Gate for Asks {
    fn ask(&self, _worker: u32, take: u64) {
        let before = self.digits.get().wrapping_mul(10);
        self.digits.set(before.wrapping_add(take).wrapping_add(1));
    }
}

// The item, or none where the bay was quiet.
fn item_of(rt: &impl Abort, taken: Taken) -> Option<u64> {
    match taken {
        Taken::Item(item, _) => Some(item),
        Taken::Quiet => None,
        Taken::Spent => panic!(rt; "the pass is spent"),
    }
}

// Puts 3 in, takes it out, and then finds the bay quiet.
fn put_and_take<R: Wait + Abort>(rt: &R, bay: &Bay, hand: Hand, way: Way)
    requires own { hand.caller.site ≡ bay.now.site }
    requires one { hand.caller.user.held ≡ 1 }
{
    let pool = Pool::over(bay, way);
    let asks = Asks {
        digits: Cell::new(0),
    };
    let (hand, put) = pool.put(rt, hand, 3);
    assert_eq!(rt; reply_or_item(put), Ok(Reply::Done));
    let (hand, taken) = pool.take(rt, hand, &asks);
    assert_eq!(rt; item_of(rt, taken), Some(3));
    assert_eq!(rt; hand.held(), 1);
    let (hand, taken) = pool.take(rt, hand, &asks);
    assert_eq!(rt; item_of(rt, taken), None);
    assert_eq!(rt; (hand.who(), hand.held(), hand.asked()), (0, 0, 2));
    assert_eq!(rt; asks.digits.get(), 12);
}

#[test]
fn an_item_is_taken_and_then_all_is_quiet(rt: HostRuntime) -> Result<(), AllocError> {
    for layout in [Layout::Split, Layout::Paged] {
        for way in [Way::Stack, Way::Queue] {
            let (bay, mut passes) = Bay::set_up(rt.alloc(), layout, 2, 1, 10)?;
            let hand = hand_of(&bay, &mut passes).expect(&rt, "a hand");
            put_and_take(&rt, &bay, hand, way);
        }
    }
    Ok(())
}

#[test]
fn the_only_draw_overflows_and_the_item_comes_back(rt: HostRuntime) -> Result<(), AllocError> {
    let (bay, mut passes) = Bay::set_up(rt.alloc(), Layout::Paged, 2, 1, 1)?;
    let hand = hand_of(&bay, &mut passes).expect(&rt, "a hand");
    let pool = Pool::over(&bay, Way::Stack);
    let (hand, put) = pool.put(&rt, hand, 4);
    assert_eq!(rt; put, Put::Spent(4));
    assert_eq!(rt; (hand.held(), hand.asked()), (1, 0));
    assert_eq!(rt; hand.pass().draws(), 1);
    Ok(())
}

#[test]
fn a_take_without_a_draw_is_spent(rt: HostRuntime) -> Result<(), AllocError> {
    let (bay, mut passes) = Bay::set_up(rt.alloc(), Layout::Split, 1, 1, 1)?;
    let hand = hand_of(&bay, &mut passes).expect(&rt, "a hand");
    let pool = Pool::over(&bay, Way::Stack);
    let (hand, put) = pool.put(&rt, hand, 3);
    assert_eq!(rt; reply_or_item(put), Ok(Reply::Done));
    let (hand, taken) = pool.take(&rt, hand, &OpenGate);
    assert_eq!(rt; taken, Taken::Spent);
    assert_eq!(rt; (hand.held(), hand.asked()), (0, 1));
    Ok(())
}

#[test]
fn an_item_without_a_draw_comes_back(rt: HostRuntime) -> Result<(), AllocError> {
    let (bay, mut passes) = Bay::set_up(rt.alloc(), Layout::Split, 1, 1, 1)?;
    let hand = hand_of(&bay, &mut passes).expect(&rt, "a hand");
    let pool = Pool::over(&bay, Way::Stack);
    let (hand, put) = pool.put(&rt, hand, 3);
    assert_eq!(rt; reply_or_item(put), Ok(Reply::Done));
    let (hand, put) = pool.put(&rt, hand, 4);
    assert_eq!(rt; put, Put::Spent(4));
    assert_eq!(rt; (hand.held(), hand.asked()), (1, 0));
    assert_eq!(rt; hand.pass().draws(), 1);
    Ok(())
}
