//! A stay: entering a room, counting the stay there, and leaving.
ghost use Rattle.std.specs.Prelude.{◌≡◌, ◌^◌, ◌<◌, ◌≤◌, ◌≢◌};
ghost use Rattle.stay_tally.specs.Staying.{counts_stay, HasCounted, HasCounted_inside, Answers};

use crate::uses::Tally;
use room_gate::{Entered, ExitCode, Inside, Key, Left, Pass, Rooms};
use room_rule::Outcome;
use std::sync::Wait;

/// The step that counts a stay.
struct Counting {
    room: usize,
    turn: u64,
}

impl Outcome<Tally> for Counting {
    ghost then = { λ c. counts_stay c.room c.turn };
}

/// The exit code of the tally, whose words need none.
#[derive(Drop)]
struct NoneNeeded;

impl ExitCode<Tally> for NoneNeeded {
    ghost ran = { λ before after. after ≡ before };

    fn run(&mut self, _rooms: &Rooms<Tally>, _key: &mut Key<Tally>) {}
}

// Counts the stay.
fn count(rooms: &Rooms<Tally>, inside: &mut Inside<Tally>)
    requires own { inside.old.caller.site ≡ rooms.now.site }
    requires new { inside.old.caller.user.last < inside.old.opening.turn }
    ensures { HasCounted_inside inside.old inside.new }
{
    let room = inside.room();
    let turn = inside.turn();
    let what = Counting { room, turn };
    rooms.add::<Counting>(inside, room, 1, &what);
    let Counting { room: _, turn: _ } = what;
}

// Leaves, and passes on where it is the last.
fn leave(rooms: &Rooms<Tally>, inside: Inside<Tally>) -> Pass<Tally>
    requires own { inside.caller.site ≡ rooms.now.site }
    ensures { result ≡ record inside.caller { done = result.done; seen = result.seen } }
{
    match rooms.leave(inside) {
        Left::Out(pass) => pass,
        Left::Last(key) => rooms.finish(key, &mut NoneNeeded),
    }
}

/// Enters the room, counts the stay in the room's word, and leaves. The answer is the pass, and
/// whether it had a draw left; where it had none, nothing is changed. It waits for those that are
/// let in before it to leave, and takes no memory.
pub fn stay<R: Wait>(
    rooms: &Rooms<Tally>,
    rt: &R,
    pass: Pass<Tally>,
    room: usize,
) -> (Pass<Tally>, bool)
    requires own { pass.site ≡ rooms.now.site }
    requires room { room < 4 }
    ensures { Answers room pass result.0 result.1 }
{
    match rooms.enter(rt, pass, room) {
        Entered::Spent(pass) => (pass, false),
        Entered::Inside(inside) => {
            let mut inside = inside;
            count(rooms, &mut inside);
            (leave(rooms, inside), true)
        }
    }
}
