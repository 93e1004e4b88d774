//! The call of one line.
ghost use Rattle.std.specs.Prelude.{◌≡◌, ◌≤◌};
ghost use Rattle.bay_store.specs.Calls.{CallGives};
ghost use Rattle.room_trial.specs.Scripts.{asked};
ghost use Rattle.room_trial.specs.Receipts.{put_receipt, take_receipt, peek_receipt, sizes_receipt};

use bay_store::{Bay, BayPass, Counted, Peeked, Popped, Pushed, Receipt};
use room_script::Line;
use std::sync::Wait;

/// Makes the call of a line, with a pass of this bay that holds a share. The receipt is that of the
/// bay's call; there is none exactly where the pass had made its last draw, and it is then as it was.
/// It waits for those that are let in before it to leave, and takes no memory.
pub fn call_line<R: Wait>(
    rt: &R,
    bay: &Bay,
    pass: BayPass,
    line: Line,
) -> (BayPass, Option<Receipt>)
    requires own { pass.site ≡ bay.now.site }
    requires share { 1 ≤ pass.user.held }
    ensures gives { CallGives bay.now.usage (asked line).0 (asked line).1 pass result.0 result.1 }
    ensures same_bay { result.0.site ≡ pass.site }
    ensures same_caller { result.0.who ≡ pass.who }
    ensures share { 1 ≤ result.0.user.held }
{
    match line {
        Line::Push(item) => {
            let (pass, pushed) = bay.push(rt, pass, item);
            (pass, stored(pushed))
        }
        Line::Pop => {
            let (pass, popped) = bay.pop(rt, pass);
            (pass, taken(popped))
        }
        Line::Enq(item) => {
            let (pass, pushed) = bay.enqueue(rt, pass, item);
            (pass, stored(pushed))
        }
        Line::Deq => {
            let (pass, popped) = bay.dequeue(rt, pass);
            (pass, taken(popped))
        }
        Line::Peek => {
            let (pass, peeked) = bay.peek(rt, pass);
            (pass, seen(peeked))
        }
        Line::Sizes => {
            let (pass, counted) = bay.sizes(rt, pass);
            (pass, told(counted))
        }
    }
}

// The receipt of a push or an enqueue.
fn stored(pushed: Pushed) -> Option<Receipt>
    ensures { result ≡ put_receipt pushed }
{
    match pushed {
        Pushed::Stored(receipt) | Pushed::Full(receipt) => Some(receipt),
        Pushed::Spent => None,
    }
}

// The receipt of a pop or a dequeue.
fn taken(popped: Popped) -> Option<Receipt>
    ensures { result ≡ take_receipt popped }
{
    match popped {
        Popped::Item(_, receipt) | Popped::Empty(receipt) => Some(receipt),
        Popped::Spent => None,
    }
}

// The receipt of a peek.
fn seen(peeked: Peeked) -> Option<Receipt>
    ensures { result ≡ peek_receipt peeked }
{
    match peeked {
        Peeked::Item(_, receipt) | Peeked::Empty(receipt) => Some(receipt),
        Peeked::Spent => None,
    }
}

// The receipt of a look at both lengths.
fn told(counted: Counted) -> Option<Receipt>
    ensures { result ≡ sizes_receipt counted }
{
    match counted {
        Counted::Sizes(_, _, receipt) => Some(receipt),
        Counted::Spent => None,
    }
}
