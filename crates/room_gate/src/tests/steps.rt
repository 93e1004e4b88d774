//! Steps on user words, looks and meeting.
ghost use Rattle.std.specs.Prelude.{◌≡◌, ◌<◌};

use super::{drawn, entered, left_last, out, pair};
use crate::{ExitCode, Inside, Key, Pass, Rooms};
use room_rule::{Outcome, RoomUse};
use std::alloc::AllocError;

/// Two rooms with a word that counts and a touch word, which caller 0 alone changes.
#[derive(Drop)]
struct Counters;

impl RoomUse for Counters {
    ghost use Rattle.room_gate.specs.Counting.{counting};
    ghost use Rattle.room_gate.specs.CountingLaws.{counting_laws};

    type View = (u64, u64);

    type Slot = ();

    ghost ROOMS = { 2 };

    const ROOMS: usize = 2;

    ghost meaning = { counting };

    ghost laws = { counting_laws };

    fn words(&self) -> usize {
        2
    }

    fn slots(&self) -> usize {
        0
    }

    fn start(&self, _word: usize, _callers: u32) -> u64 {
        0
    }
}

/// A step inside: the view says what the first word was, and is.
struct Counted;

impl Outcome<Counters> for Counted {
    ghost use Rattle.room_gate.specs.Counting.{counted};

    ghost then = { λ _. counted };
}

/// A touch: the view says what the second word was, and is.
struct Touched;

impl Outcome<Counters> for Touched {
    ghost use Rattle.room_gate.specs.Counting.{touched};

    ghost then = { λ _. touched };
}

/// A step with the key, which changes nothing.
struct Restored;

impl Outcome<Counters> for Restored {
    ghost use Rattle.room_gate.specs.Counting.{restored};

    ghost then = { λ _. restored };
}

/// Exit code that loads the first word, and stores it again.
struct Restores {
    found: u64,
}

impl ExitCode<Counters> for Restores {
    ghost ran = { λ before after. after ≡ before };

    fn run(&mut self, rooms: &Rooms<Counters>, key: &mut Key<Counters>) {
        let found = rooms.key_load(key, 0, &Restored);
        rooms.key_store(key, 0, found, &Restored);
        self.found = found;
    }
}

// What an add and a sub found, and the word after them.
fn count(rooms: &Rooms<Counters>, inside: &mut Inside<Counters>) -> (u64, u64, u64)
    requires own { inside.old.caller.site ≡ rooms.now.site }
    requires who { inside.old.caller.who ≡ 0 }
    ensures found { (result.0 ≡ 5) × (result.1 ≡ 7) × (result.2 ≡ 4) }
    ensures own { inside.new.caller.site ≡ rooms.now.site }
{
    rooms.store(inside, 0, 5, &Counted);
    let first = rooms.add(inside, 0, 2, &Counted);
    let second = rooms.sub(inside, 0, 3, &Counted);
    (first, second, rooms.load(inside, 0, &Counted))
}

// The same of the touch word, which is 0 before.
fn touch(rooms: &Rooms<Counters>, pass: &mut Pass<Counters>) -> (u64, u64, u64)
    requires own { pass.old.site ≡ rooms.now.site }
    requires who { pass.old.who ≡ 0 }
    requires start { pass.old.user.1 ≡ 0 }
    ensures found { (result.0 ≡ 0) × (result.1 ≡ 6) × (result.2 ≡ 4) }
    ensures same { pass.new ≡ record pass.old { user = pass.new.user } }
{
    let first = rooms.touch_add(pass, 1, 6, &Touched);
    let second = rooms.touch_sub(pass, 1, 2, &Touched);
    (first, second, rooms.touch_load(pass, 1, &Touched))
}

// The turns of two insiders that met, whatever the use.
fn turns<U: RoomUse>(rooms: &Rooms<U>, one: &mut Inside<U>, two: &mut Inside<U>) -> (u64, u64)
    requires own { (one.old.caller.site ≡ rooms.now.site) × (two.old.caller.site ≡ rooms.now.site) }
    ensures turns { result.0 ≡ result.1 }
    ensures one { (one.new.caller.site ≡ one.old.caller.site) × (one.new.caller.who ≡ one.old.caller.who) }
    ensures two { two.new.caller.site ≡ two.old.caller.site }
{
    rooms.meet(one, two);
    (one.turn(), two.turn())
}

#[test]
fn steps_do_what_they_say(rt: HostRuntime) -> Result<(), AllocError> {
    let (rooms, passes) = Rooms::<Counters>::set_up(rt.alloc(), Counters, 2, 1)?;
    let (mut one, two) = pair(&rooms, 1, passes).expect(&rt, "two passes");
    assert_eq!(rt; touch(&rooms, &mut one), (0, 6, 4));
    let one = drawn(&rt, &rooms, one, 1);
    let mut two = drawn(&rt, &rooms, two, 1);
    let mut one = entered(&rt, &rooms, one);
    let note = rooms.note(&mut one);
    rooms.learn(&mut two, note);
    let mut two = entered(&rt, &rooms, two);
    assert_eq!(rt; turns(&rooms, &mut one, &mut two), (1, 1));
    assert_eq!(rt; rooms.look(&mut two), (1, 1));
    assert_eq!(rt; count(&rooms, &mut one), (5, 7, 4));
    let two = out(&rt, &rooms, two);
    let mut exit = Restores { found: 0 };
    let one = left_last(&rt, &rooms, one, &mut exit);
    let Restores { found } = exit;
    assert_eq!(rt; (found, one.draws(), two.draws()), (4, 1, 1));
    Ok(())
}
