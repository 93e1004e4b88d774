//! The cycle of a room, on one thread and on two.
ghost use Rattle.std.specs.Prelude.{◌≡◌, ◌≢◌, ◌<◌, Some, IfSome, IfOk};
ghost use Rattle.room_rule.specs.Openings.{IsCovered};
ghost use Rattle.room_gate.specs.Closing.{AreAll};
ghost use Rattle.room_gate.specs.Making.{ArePasses};
ghost use Rattle.room_gate.specs.Shows.{newcomer};

use crate::{Drawn, Entered, ExitCode, Inside, Key, Left, NoExit, Pass, Polled, Rooms, Waiting};
use room_rule::{Bare, RoomUse};
use std::alloc::{AllocError, Global};
use std::process::Abort;
use std::sync::Wait;
use std::thread::join;

mod steps;

/// Two doors with no words, of which no caller has seen one.
#[derive(Drop)]
struct Doors;

/// Which doors a caller has seen. No value of it is made.
struct Seen(bool, bool);

impl RoomUse for Doors {
    ghost use Rattle.std.specs.Prelude.{false};
    ghost use Rattle.room_rule.specs.Plainly.{plain, plain_laws};

    type View = Seen;

    type Slot = ();

    ghost ROOMS = { 2 };

    const ROOMS: usize = 2;

    ghost meaning = { plain (record { 0 = false; 1 = false }) };

    ghost laws = { plain_laws (record { 0 = false; 1 = false }) };

    fn words(&self) -> usize {
        0
    }

    fn slots(&self) -> usize {
        0
    }

    fn start(&self, _word: usize, _callers: u32) -> u64 {
        0
    }
}

/// Exit code of the doors, which counts how often it runs.
struct Counter {
    runs: u64,
}

impl ExitCode<Doors> for Counter {
    ghost ran = { λ before after. after ≡ before };

    fn run(&mut self, _rooms: &Rooms<Doors>, _key: &mut Key<Doors>) {
        self.runs = self.runs.saturating_add(1);
    }
}

/// The two passes of a set-up.
fn pair<U: RoomUse>(
    rooms: &Rooms<U>,
    draws: u64,
    passes: Vec<Pass<U>>,
) -> Option<(Pass<U>, Pass<U>)>
    requires { ArePasses rooms.now.site draws U.meaning.starts 2 passes.items }
    ensures { IfSome result (λ p. (p.0 ≡ newcomer rooms.now.site draws U.meaning.starts 0) × (p.1 ≡ newcomer rooms.now.site draws U.meaning.starts 1)) }
{
    let _ = rooms;
    let _ = draws;
    let mut passes = passes;
    let two = passes.pop()?;
    let one = passes.pop()?;
    Some((one, two))
}

// Draws, where a draw is left.
fn drawn<U: RoomUse>(rt: &impl Abort, rooms: &Rooms<U>, pass: Pass<U>, room: usize) -> Waiting<U>
    requires own { pass.site ≡ rooms.now.site }
    requires room { room < U.ROOMS }
    requires may { U.meaning.may_enter rooms.now.usage pass.user }
    ensures { (result.caller.site ≡ rooms.now.site) × (result.caller.who ≡ pass.who) }
{
    match rooms.draw(pass, room) {
        Drawn::Waiting(waiting) => waiting,
        Drawn::Spent(_) => panic!(rt; "the pass is spent"),
    }
}

// Polls, where that enters.
fn entered<U: RoomUse>(rt: &impl Abort, rooms: &Rooms<U>, waiting: Waiting<U>) -> Inside<U>
    requires { waiting.caller.site ≡ rooms.now.site }
    ensures { (result.caller.site ≡ rooms.now.site) × (result.caller.who ≡ waiting.caller.who) }
{
    match rooms.poll(waiting) {
        Polled::Entered(inside) => inside,
        Polled::NotYet(_still) => panic!(rt; "the caller is held off"),
    }
}

// Polls, where that does not enter.
fn held_off<U: RoomUse>(rt: &impl Abort, rooms: &Rooms<U>, waiting: Waiting<U>) -> Waiting<U>
    requires { waiting.caller.site ≡ rooms.now.site }
    ensures { result.caller.site ≡ rooms.now.site }
{
    match rooms.poll(waiting) {
        Polled::NotYet(still) => still,
        Polled::Entered(_inside) => panic!(rt; "the caller is let in"),
    }
}

// Leaves, where others are still to leave.
fn out<U: RoomUse>(rt: &impl Abort, rooms: &Rooms<U>, inside: Inside<U>) -> Pass<U>
    requires own { inside.caller.site ≡ rooms.now.site }
    requires may { U.meaning.may_leave rooms.now.usage inside.caller.user }
    ensures { (result.site ≡ rooms.now.site) × (result.who ≡ inside.caller.who) }
{
    match rooms.leave(inside) {
        Left::Out(pass) => pass,
        Left::Last(_key) => panic!(rt; "the caller left last"),
    }
}

// Leaves, where all others have left, and passes the turn on.
fn left_last<U: RoomUse, E: ExitCode<U>>(
    rt: &impl Abort,
    rooms: &Rooms<U>,
    inside: Inside<U>,
    exit: &mut E,
) -> Pass<U>
    requires own { inside.caller.site ≡ rooms.now.site }
    requires may { U.meaning.may_leave rooms.now.usage inside.caller.user }
    ensures { (result.site ≡ rooms.now.site) × (result.who ≡ inside.caller.who) }
{
    let turn = (inside.room(), inside.turn());
    match rooms.leave(inside) {
        Left::Last(key) => {
            assert_eq!(rt; (key.room(), key.turn()), turn);
            rooms.finish(key, exit)
        }
        Left::Out(_) => panic!(rt; "others are still inside"),
    }
}

// The room and the ticket; the turn, the last ticket let in, and the first look.
fn stay<U: RoomUse>(inside: &Inside<U>) -> (usize, u64, u64, u64, u64) {
    (
        inside.room(),
        inside.ticket(),
        inside.turn(),
        inside.to(),
        inside.first(),
    )
}

// The room and the ticket; the grant and the active word, what the exchange found, the first look.
fn wait<U: RoomUse>(waiting: &Waiting<U>) -> (usize, u64, u64, u64, Option<u64>, Option<u64>) {
    (
        waiting.room(),
        waiting.ticket(),
        waiting.grant(),
        waiting.active(),
        waiting.found(),
        waiting.first(),
    )
}

#[test]
fn a_late_ticket_waits_for_a_later_turn(rt: HostRuntime) -> Result<(), AllocError> {
    let (rooms, passes) = Rooms::<Bare>::set_up(rt.alloc(), Bare, 2, 10)?;
    let (one, two) = pair(&rooms, 10, passes).expect(&rt, "two passes");
    assert_eq!(rt; (one.who(), one.draws(), one.limit()), (0, 0, 10));
    assert_eq!(rt; (two.who(), two.draws(), two.limit()), (1, 0, 10));
    let one = drawn(&rt, &rooms, one, 0);
    assert_eq!(rt; wait(&one), (0, 1, 0, 0, None, None));
    let one = entered(&rt, &rooms, one);
    assert_eq!(rt; stay(&one), (0, 1, 1, 1, 0));
    let two = drawn(&rt, &rooms, two, 0);
    let two = held_off(&rt, &rooms, two);
    assert_eq!(rt; wait(&two), (0, 2, 1, 9, None, Some(1)));
    let one = left_last(&rt, &rooms, one, &mut NoExit);
    assert_eq!(rt; (one.who(), one.draws(), one.limit()), (0, 1, 10));
    let two = entered(&rt, &rooms, two);
    assert_eq!(rt; stay(&two), (0, 2, 2, 2, 1));
    let two = left_last(&rt, &rooms, two, &mut NoExit);
    assert_eq!(rt; (two.who(), two.draws(), two.limit()), (1, 1, 10));
    let one = drawn(&rt, &rooms, one, 3);
    let one = entered(&rt, &rooms, one);
    assert_eq!(rt; stay(&one), (3, 1, 3, 1, 2));
    let one = left_last(&rt, &rooms, one, &mut NoExit);
    assert_eq!(rt; (one.who(), one.draws()), (0, 2));
    Ok(())
}

// Closes rooms with the passes of all callers: how many words and slots are left.
fn close_all<U: RoomUse>(
    alloc: Global,
    rooms: Rooms<U>,
    passes: Vec<Pass<U>>,
) -> Result<(usize, usize), AllocError>
    requires { AreAll rooms.site rooms.callers passes.items }
    ensures { IfOk result (λ n. (n.0 ≡ U.meaning.words rooms.usage) × (n.1 ≡ U.meaning.slots rooms.usage)) }
{
    match rooms.close(alloc, passes) {
        Ok(left) => Ok((left.words.len(), left.slots.len())),
        Err(_) => Err(AllocError),
    }
}

// Closes rooms of two callers.
fn close_two<U: RoomUse>(
    alloc: Global,
    rooms: Rooms<U>,
    one: Pass<U>,
    two: Pass<U>,
) -> Result<(usize, usize), AllocError>
    requires own { (one.site ≡ rooms.site) × (two.site ≡ rooms.site) }
    requires both { (rooms.callers ≡ 2) × (one.who ≢ two.who) }
    ensures { IfOk result (λ n. (n.0 ≡ U.meaning.words rooms.usage) × (n.1 ≡ U.meaning.slots rooms.usage)) }
{
    let mut passes = Vec::with_capacity(alloc, 2)?;
    passes.push_reserved(one);
    passes.push_reserved(two);
    close_all(alloc, rooms, passes)
}

#[test]
fn two_tickets_are_let_in_by_one_opening(rt: HostRuntime) -> Result<(), AllocError> {
    let (rooms, passes) = Rooms::<Bare>::set_up(rt.alloc(), Bare, 2, 10)?;
    let (one, two) = pair(&rooms, 10, passes).expect(&rt, "two passes");
    let one = drawn(&rt, &rooms, one, 0);
    let mut two = drawn(&rt, &rooms, two, 0);
    assert_eq!(rt; (one.ticket(), two.ticket()), (1, 2));
    let mut one = entered(&rt, &rooms, one);
    assert_eq!(rt; stay(&one), (0, 1, 1, 2, 0));
    let note = rooms.note(&mut one);
    rooms.learn(&mut two, note);
    let mut two = entered(&rt, &rooms, two);
    assert_eq!(rt; stay(&two), (0, 2, 1, 2, 1));
    rooms.meet(&mut one, &mut two);
    assert_eq!(rt; (one.room(), one.turn()), (0, 1));
    assert_eq!(rt; (two.room(), two.turn()), (0, 1));
    assert_eq!(rt; rooms.look(&mut two), (1, 0));
    let one = out(&rt, &rooms, one);
    let two = left_last(&rt, &rooms, two, &mut NoExit);
    assert_eq!(rt; (one.draws(), two.draws()), (1, 1));
    let left = close_two(rt.alloc(), rooms, one, two)?;
    assert_eq!(rt; left, (0, 0));
    Ok(())
}

type Stay = (usize, u64, u64, u64, u64);

// Both draw, the first opens the room, the second learns of it, and the second leaves last.
fn share_a_turn<U: RoomUse, E: ExitCode<U>>(
    rt: &impl Abort,
    rooms: &Rooms<U>,
    passes: (Pass<U>, Pass<U>),
    room: usize,
    exit: &mut E,
) -> (Stay, Stay)
    requires own { (passes.0.site ≡ rooms.now.site) × (passes.1.site ≡ rooms.now.site) }
    requires room { room < U.ROOMS }
    requires may { (v : U.View) → U.meaning.may_enter rooms.now.usage v × U.meaning.may_leave rooms.now.usage v }
{
    let (one, two) = passes;
    let one = drawn(rt, rooms, one, room);
    let mut two = drawn(rt, rooms, two, room);
    let mut one = entered(rt, rooms, one);
    let note = rooms.note(&mut one);
    rooms.learn(&mut two, note);
    let two = entered(rt, rooms, two);
    let stays = (stay(&one), stay(&two));
    let one = out(rt, rooms, one);
    let two = left_last(rt, rooms, two, exit);
    assert_eq!(rt;
        (one.who(), one.draws(), two.who(), two.draws()),
        (0, 1, 1, 1)
    );
    stays
}

#[test]
fn another_use_has_rooms_and_exit_code_of_its_own(rt: HostRuntime) -> Result<(), AllocError> {
    let (rooms, passes) = Rooms::<Doors>::set_up(rt.alloc(), Doors, 2, 1)?;
    assert_eq!(rt; rooms.usage().words(), 0);
    let passes = pair(&rooms, 1, passes).expect(&rt, "two passes");
    let mut exit = Counter { runs: 0 };
    let stays = share_a_turn(&rt, &rooms, passes, 1, &mut exit);
    let Counter { runs } = exit;
    assert_eq!(rt; runs, 1);
    assert_eq!(rt; stays, ((1, 1, 1, 2, 0), (1, 2, 1, 2, 1)));
    Ok(())
}

// Enters a room and leaves it as often as draws are left, at most ten times.
fn come_and_go(rt: &impl Wait, rooms: &Rooms<Bare>, pass: Pass<Bare>, room: usize) -> u64
    requires own { pass.site ≡ rooms.now.site }
    requires room { room < 4 }
{
    let mut pass = pass;
    for _ in 0..10 {
        let inside = match rooms.enter(rt, pass, room) {
            Entered::Inside(inside) => inside,
            Entered::Spent(spent) => return spent.draws(),
        };
        pass = match rooms.leave(inside) {
            Left::Out(pass) => pass,
            Left::Last(key) => rooms.finish(key, &mut NoExit),
        };
    }
    0
}

#[test]
fn two_threads_come_and_go(rt: HostRuntime) -> Result<(), AllocError> {
    for (first, second) in [(2, 2), (0, 3)] {
        let (rooms, passes) = Rooms::<Bare>::set_up(rt.alloc(), Bare, 2, 7)?;
        let (one, two) = pair(&rooms, 7, passes).expect(&rt, "two passes");
        let shared = &rooms;
        let handle = &rt;
        let draws = join(
            &rt,
            move || come_and_go(handle, shared, one, first),
            move || come_and_go(handle, shared, two, second),
        );
        assert_eq!(rt; draws, (7, 7));
    }
    Ok(())
}

// Who knows of an opening that covers its ticket enters, whatever the others do.
fn enters_as_told<U: RoomUse>(
    rooms: &Rooms<U>,
    inside: &mut Inside<U>,
    waiting: Waiting<U>,
) -> Inside<U>
    requires own { (inside.old.caller.site ≡ rooms.now.site) × (waiting.caller.site ≡ rooms.now.site) }
    requires covered { IsCovered inside.old.caller.seen waiting.room waiting.ticket }
{
    let mut waiting = waiting;
    let note = rooms.note(inside);
    rooms.learn(&mut waiting, note);
    match rooms.poll(waiting) {
        Polled::Entered(inside) => inside,
        Polled::NotYet(_still) => unreachable!(),
    }
}

#[test]
fn rooms_alone_leave_no_words_and_no_slots(rt: HostRuntime) -> Result<(), AllocError> {
    let (rooms, passes) = Rooms::<Bare>::set_up(rt.alloc(), Bare, 2, 10)?;
    let left = close_all(rt.alloc(), rooms, passes)?;
    assert_eq!(rt; left, (0, 0));
    Ok(())
}

#[test]
fn sixty_four_passes_close_their_rooms(rt: HostRuntime) -> Result<(), AllocError> {
    let (rooms, passes) = Rooms::<Bare>::set_up(rt.alloc(), Bare, 64, 10)?;
    assert_eq!(rt; passes.len(), 64);
    let left = close_all(rt.alloc(), rooms, passes)?;
    assert_eq!(rt; left, (0, 0));
    Ok(())
}

// Puts a value into the slot that the insider keeps, and takes it out again.
fn lend<U: RoomUse>(
    rooms: &Rooms<U>,
    inside: &mut Inside<U>,
    slot: usize,
    new: Option<U::Slot>,
) -> Option<U::Slot>
    requires own { inside.old.caller.site ≡ rooms.now.site }
    requires keeps { U.meaning.keeps inside.old.caller.user ≡ Some slot }
    ensures comes_back { result ≡ new }
    ensures same { inside.new ≡ inside.old }
{
    let old = rooms.swap_slot(inside, slot, new);
    rooms.swap_slot(inside, slot, old)
}
