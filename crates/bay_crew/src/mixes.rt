//! Which call each is.
ghost use Rattle.std.specs.Prelude.{◌≡◌};
ghost use Rattle.bay_crew.specs.Mixes.{on_stack, line_on, line_of};

use room_script::Line;

/// Which lists the callers call on.
#[derive(Clone, Copy, Debug, PartialEq, Eq)]
pub enum Mix {
    /// The stack.
    Stack,
    /// The queue.
    Queue,
    /// The stack and the queue by turns.
    Both,
}

// Whether the turn `k` of a mix is on the stack.
pub(crate) fn is_on_stack(mix: Mix, k: u32) -> bool
    ensures { result ≡ on_stack mix k }
{
    match mix {
        Mix::Stack => true,
        Mix::Queue => false,
        Mix::Both => k % 2 == 0,
    }
}

// The call that puts the item on a list, or that takes one off it.
pub(crate) fn line(on_stack: bool, puts: bool, item: u64) -> Line
    ensures { result ≡ line_on on_stack puts item }
{
    match (on_stack, puts) {
        (true, true) => Line::Push(item),
        (true, false) => Line::Pop,
        (false, true) => Line::Enq(item),
        (false, false) => Line::Deq,
    }
}

// The call `k` of caller `who`. On each list of a mix a caller puts, puts, takes, puts, takes and
// takes, and then again from the start. What it puts is an item that no other call of any caller has.
pub(crate) fn nth_line(mix: Mix, who: u32, k: u32) -> Line
    ensures { result ≡ line_of mix who k }
{
    let turn = if mix == Mix::Both { k / 2 } else { k };
    let puts = matches!(turn % 6, 0 | 1 | 3);
    let item = who as u64 * 4_294_967_296 + k as u64;
    line(is_on_stack(mix, k), puts, item)
}
