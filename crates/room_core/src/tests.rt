//! Schedules and what they lead to, refusals, and the accessors.
use crate::{
    Act, Core, Event, Item, Opening, Phase, Refused, RunFault, Touch, Word, openings, run,
};
use std::alloc::{AllocError, Global};
use std::test::Fail;

// One schedule, as how often a caller does an act, and what it leads to: the trace is `before` and then
// `trace`.
#[derive(Drop)]
struct Case<'a> {
    rooms: u8,
    callers: u32,
    acts: &'a [(u64, Act, u8)],
    before: &'a [Item],
    trace: &'a [Item],
    active: u64,
    phases: &'a [&'static str],
}

// A caller draws for a room, makes so many steps, and leaves.
fn draw(caller: u64, room: u64) -> (u64, Act, u8) {
    (caller, Act::Draw(room), 1)
}

fn steps(caller: u64, many: u8) -> (u64, Act, u8) {
    (caller, Act::Step, many)
}

fn leave(caller: u64) -> (u64, Act, u8) {
    (caller, Act::Leave, 1)
}

// Caller 0 opens room 0 for itself alone, goes in, leaves and ends the exit code.
const ALONE: [Item; 5] = [
    Item::Opened {
        turn: 1,
        room: 0,
        from: 0,
        to: 1,
    },
    Item::Entered { caller: 0, room: 0 },
    Item::Left { caller: 0 },
    Item::ExitBegun { room: 0 },
    Item::ExitEnded { room: 0 },
];

fn schedule(alloc: Global, parts: &[(u64, Act, u8)]) -> Result<Vec<(u64, Act)>, AllocError> {
    let mut acts = Vec::new(alloc);
    for (caller, act, times) in parts {
        for _ in 0..*times {
            acts.push((*caller, *act))?;
        }
    }
    Ok(acts)
}

fn name(phase: &Phase) -> &'static str {
    match phase {
        Phase::Out => "Out",
        Phase::Looking { .. } => "Looking",
        Phase::Inside { .. } => "Inside",
        _ => "another",
    }
}

fn opened(turn: u64, room: u8, from: u64, to: u64) -> Item {
    Item::Opened {
        turn,
        room,
        from,
        to,
    }
}

#[test]
fn schedules_lead_to_their_traces(rt: HostRuntime) -> Result<(), Fail> {
    let cases = [
        // The first caller opens its room and enters with it.
        Case {
            rooms: 4,
            callers: 1,
            acts: &[draw(0, 0), steps(0, 5)],
            before: &[],
            trace: &[opened(1, 0, 0, 1), Item::Entered { caller: 0, room: 0 }],
            active: 9,
            phases: &["Inside"],
        },
        // A ticket drawn after the opener counted waits outside the open room.
        Case {
            rooms: 4,
            callers: 2,
            acts: &[
                draw(0, 0),
                steps(0, 4),
                draw(1, 0),
                steps(0, 1),
                steps(1, 2),
            ],
            before: &[],
            trace: &[opened(1, 0, 0, 1), Item::Entered { caller: 0, room: 0 }],
            active: 9,
            phases: &["Inside", "Looking"],
        },
        // The next room opens before the same room again.
        Case {
            rooms: 2,
            callers: 3,
            acts: &[
                draw(0, 0),
                steps(0, 5),
                draw(1, 0),
                draw(2, 1),
                leave(0),
                steps(0, 5),
                steps(2, 2),
            ],
            before: &ALONE,
            trace: &[opened(2, 1, 0, 1), Item::Entered { caller: 2, room: 1 }],
            active: 18,
            phases: &["Out", "Looking", "Inside"],
        },
        // A draw after the scan passed its room finds the idle word.
        Case {
            rooms: 2,
            callers: 2,
            acts: &[
                draw(0, 0),
                steps(0, 5),
                leave(0),
                steps(0, 1),
                draw(1, 1),
                steps(0, 4),
                steps(1, 5),
            ],
            before: &ALONE,
            trace: &[opened(2, 1, 0, 1), Item::Entered { caller: 1, room: 1 }],
            active: 18,
            phases: &["Out", "Inside"],
        },
        // The leaver finds nobody elsewhere, and opens its own room again for the late ticket.
        Case {
            rooms: 2,
            callers: 2,
            acts: &[
                draw(0, 0),
                steps(0, 5),
                draw(1, 0),
                steps(1, 2),
                leave(0),
                steps(0, 7),
                steps(1, 2),
            ],
            before: &ALONE,
            trace: &[opened(2, 0, 1, 2), Item::Entered { caller: 1, room: 0 }],
            active: 17,
            phases: &["Out", "Inside"],
        },
        // A late ticket waits while each other room opens once, and no longer.
        Case {
            rooms: 2,
            callers: 3,
            acts: &[
                draw(0, 0),
                steps(0, 5),
                draw(1, 0),
                steps(1, 2),
                draw(2, 1),
                leave(0),
                steps(0, 5),
                steps(2, 2),
                leave(2),
                steps(2, 5),
                steps(1, 2),
            ],
            before: &ALONE,
            trace: &[
                opened(2, 1, 0, 1),
                Item::Entered { caller: 2, room: 1 },
                Item::Left { caller: 2 },
                Item::ExitBegun { room: 1 },
                Item::ExitEnded { room: 1 },
                opened(3, 0, 1, 2),
                Item::Entered { caller: 1, room: 0 },
            ],
            active: 25,
            phases: &["Out", "Inside", "Out"],
        },
    ];
    for case in &cases {
        assert!(rt; 0 < case.rooms && case.rooms <= 7 && case.callers <= 64);
        let acts = schedule(rt.alloc(), case.acts)?;
        let ran = run(rt.alloc(), case.rooms, case.callers, &acts)
            .ok()
            .ok_or("refused")?;
        let many = case.before.len();
        assert_eq!(rt; ran.trace.get(..many), Some(case.before));
        assert_eq!(rt; ran.trace.get(many..), Some(case.trace));
        assert_eq!(rt; ran.core.word(Word::Active), Some(case.active));
        assert_eq!(rt; ran.core.rooms(), case.rooms);
        assert_eq!(rt; ran.core.callers(), case.callers);
        for (caller, phase) in case.phases.iter().enumerate() {
            let found = ran.core.phase(caller as u64).ok_or("no caller")?;
            assert_eq!(rt; name(found), *phase);
        }
    }
    Ok(())
}

#[test]
fn openings_are_those_of_the_trace(rt: HostRuntime) -> Result<(), Fail> {
    let mut trace = Vec::new(rt.alloc());
    for item in ALONE {
        trace.push(item)?;
    }
    trace.push(opened(2, 1, 0, 1))?;
    trace.push(Item::Entered { caller: 2, room: 1 })?;
    let found = openings(rt.alloc(), &trace)?;
    let first = Opening {
        turn: 1,
        room: 0,
        from: 0,
        to: 1,
    };
    let second = Opening {
        turn: 2,
        room: 1,
        from: 0,
        to: 1,
    };
    assert_eq!(rt; found.as_slice(), [first, second].as_slice());
    Ok(())
}

// A caller that has made all its draws is out of a test's reach.
#[test]
fn the_first_refused_act_is_named(rt: HostRuntime) -> Result<(), Fail> {
    let cases = [
        ((2, Act::Draw(9)), Refused::NoCaller),
        ((0, Act::Draw(4)), Refused::NoRoom),
        ((1, Act::Draw(0)), Refused::NotFree),
        ((1, Act::Leave), Refused::NotIn),
        ((0, Act::Step), Refused::Stuck),
    ];
    for (act, why) in cases {
        let acts = vec![in rt.alloc(); (1, Act::Draw(0)), act, (0, Act::Leave)]?;
        let fault = run(rt.alloc(), 4, 2, &acts).err().ok_or("accepted")?;
        assert_eq!(rt; fault, RunFault::Act { at: 2, why });
    }
    let fault = run(rt.alloc(), 1, 1, &[(0, Act::Leave)])
        .err()
        .ok_or("accepted")?;
    assert_eq!(rt;
        fault,
        RunFault::Act {
            at: 1,
            why: Refused::NotIn
        }
    );
    Ok(())
}

#[test]
fn a_core_shows_its_words_and_phases(rt: HostRuntime) -> Result<(), Fail> {
    let mut core = Core::new(rt.alloc(), 4, 2)?;
    assert_eq!(rt; core.phase(9), None);
    assert_eq!(rt; core.word(Word::Wait(9)), None);
    assert_eq!(rt; core.word(Word::Grant(3)), Some(0));
    assert_eq!(rt; core.word(Word::Done(4)), None);
    let event = core.step(1, Act::Draw(2)).ok().ok_or("refused")?;
    let touch = Touch::Add {
        word: Word::Wait(2),
        old: 0,
    };
    assert_eq!(rt;
        event,
        Event {
            touch,
            one: None,
            two: None
        }
    );
    assert_eq!(rt; core.word(Word::Wait(2)), Some(1));
    assert_eq!(rt; core.step(1, Act::Leave), Err(Refused::NotIn));
    let phase = *core.phase(1).ok_or("no caller")?;
    assert_eq!(rt;
        phase,
        Phase::Looking {
            room: 2,
            ticket: 1,
            first: None
        }
    );
    Ok(())
}
