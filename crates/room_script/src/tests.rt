//! Texts that are read, and the first lines that break the rules.
use crate::{Line, Piece, ScriptFault, lines, number, parts, print_run, read_schedule, read_trial};
use bay_core::Layout;
use room_core::{Act, Refused, RunFault, run};
use std::alloc::Global;
use std::test::Fail;

// What the schedule's run prints.
fn printed(alloc: Global, text: &str) -> Result<Vec<u8>, Fail> {
    let schedule = read_schedule(alloc, text.as_bytes())?;
    let ran = run(alloc, schedule.rooms, schedule.callers, &schedule.acts)?;
    Ok(print_run(alloc, &ran)?)
}

// The line that the reader refuses, or 0.
fn refused_line(alloc: Global, text: &str) -> Result<u64, Fail> {
    match read_schedule(alloc, text.as_bytes()) {
        Err(ScriptFault::Line(line)) => Ok(line),
        Err(ScriptFault::Memory) => Err("memory".into()),
        Ok(_) => Ok(0),
    }
}

#[test]
fn schedules_are_read_run_and_printed(rt: HostRuntime) -> Result<(), Fail> {
    let rows = [
        (
            "schedule 1\nrooms 4\ncallers 1\n\
             draw 0 0\nstep 0\nstep 0\nstep 0\nstep 0\nstep 0\n",
            "open 1 0 0 1\nenter 0 0\nactive 9\ncaller 0 Inside\n",
        ),
        // A ticket drawn after the count is not let in with it.
        (
            "schedule 1\nrooms 4\ncallers 2\n\
             draw 0 0\nstep 0\nstep 0\nstep 0\nstep 0\ndraw 1 0\nstep 0\nstep 1\nstep 1\n",
            "open 1 0 0 1\nenter 0 0\nactive 9\ncaller 0 Inside\ncaller 1 Looking\n",
        ),
        // Room 1 opens before room 0 opens again.
        (
            "schedule 1\nrooms 2\ncallers 3\n\
             draw 0 0\nstep 0\nstep 0\nstep 0\nstep 0\nstep 0\ndraw 1 0\ndraw 2 1\nleave 0\n\
             step 0\nstep 0\nstep 0\nstep 0\nstep 0\nstep 2\nstep 2",
            "open 1 0 0 1\nenter 0 0\nleave 0\nexit 0 begin\nexit 0 end\n\
             open 2 1 0 1\nenter 2 1\nactive 18\n\
             caller 0 Out\ncaller 1 Looking\ncaller 2 Inside\n",
        ),
        // A draw that comes after the scan passed its room finds the active word idle.
        (
            "schedule 1\nrooms 2\ncallers 2\n\
             draw 0 0\nstep 0\nstep 0\nstep 0\nstep 0\nstep 0\nleave 0\nstep 0\ndraw 1 1\n\
             step 0\nstep 0\nstep 0\nstep 0\nstep 1\nstep 1\nstep 1\nstep 1\nstep 1\n",
            "open 1 0 0 1\nenter 0 0\nleave 0\nexit 0 begin\nexit 0 end\n\
             open 2 1 0 1\nenter 1 1\nactive 18\ncaller 0 Out\ncaller 1 Inside\n",
        ),
    ];
    for (text, output) in rows {
        let bytes = printed(rt.alloc(), text)?;
        assert_eq!(rt; bytes.as_slice(), output.as_bytes());
    }
    Ok(())
}

#[test]
fn an_act_that_the_core_refuses_has_its_number(rt: HostRuntime) -> Result<(), Fail> {
    let schedule = read_schedule(rt.alloc(), b"schedule 1\nrooms 1\ncallers 1\nleave 0\n")?;
    assert_eq!(rt; schedule.acts.as_slice(), [(0, Act::Leave)].as_slice());
    match run(rt.alloc(), schedule.rooms, schedule.callers, &schedule.acts) {
        Err(RunFault::Act { at, why }) => assert_eq!(rt; (at, why), (1, Refused::NotIn)),
        _ => return Err("not refused".into()),
    }
    Ok(())
}

#[test]
fn the_first_line_that_breaks_the_rules_is_named(rt: HostRuntime) -> Result<(), Fail> {
    let rows = [
        ("", 1),
        ("\n", 1),
        ("schedule 2\nrooms 4\ncallers 1\n", 1),
        ("schedule 1", 2),
        ("schedule 1\nrooms 8\ncallers 1\n", 2),
        ("schedule 1\nrooms 0\ncallers 1\n", 2),
        ("schedule 1\n rooms 4\ncallers 1\n", 2),
        ("schedule 1\nrooms 4\n", 3),
        ("schedule 1\nrooms 4\ncallers 65\n", 3),
        ("schedule 1\nrooms 7\ncallers 64\n", 0),
        ("schedule 1\nrooms 1\ncallers 1", 0),
        ("schedule 1\nrooms 4\ncallers 1\nstep 0\nstep\nwalk 0\n", 5),
        ("schedule 1\nrooms 4\ncallers 1\nstep 0\n\n", 5),
        ("schedule 1\nrooms 4\ncallers 1\ndraw 0  0\n", 4),
        ("schedule 1\nrooms 4\ncallers 1\ndraw 0 0 \n", 4),
        ("schedule 1\nrooms 4\ncallers 1\nleave 00\n", 4),
        (
            "schedule 1\nrooms 4\ncallers 1\ndraw 18446744073709551615 0\nstep 18446744073709551616\n",
            5,
        ),
        ("schedule 1\r\nrooms 4\r\ncallers 1\r\n", 1),
    ];
    for (text, line) in rows {
        assert_eq!(rt; refused_line(rt.alloc(), text)?, line, "{text}");
    }
    Ok(())
}

#[test]
fn numbers_have_one_spelling(rt: HostRuntime) {
    let rows = [
        ("0", Some(0)),
        ("10", Some(10)),
        ("18446744073709551615", Some(18446744073709551615)),
        ("18446744073709551616", None),
        ("00", None),
        ("007", None),
        ("", None),
        ("+1", None),
        ("-1", None),
        ("1 ", None),
        ("1\u{e9}", None),
    ];
    for (bytes, value) in rows {
        assert_eq!(rt; number(bytes.as_bytes()), value, "{bytes}");
    }
}

#[test]
fn lines_end_at_newlines(rt: HostRuntime) -> Result<(), Fail> {
    let two = lines(rt.alloc(), b"ab\n\nc\n")?;
    let pieces = [
        Piece { from: 0, to: 2 },
        Piece { from: 3, to: 3 },
        Piece { from: 4, to: 5 },
    ];
    assert_eq!(rt; two.as_slice(), pieces.as_slice());
    assert_eq!(rt;
        lines(rt.alloc(), b"ab\n\nc")?.as_slice(),
        pieces.as_slice()
    );
    assert_eq!(rt; lines(rt.alloc(), b"")?.len(), 0);
    assert_eq!(rt;
        lines(rt.alloc(), b"\n")?.as_slice(),
        [Piece { from: 0, to: 0 }].as_slice()
    );
    Ok(())
}

#[test]
fn parts_end_at_spaces(rt: HostRuntime) -> Result<(), Fail> {
    let three = parts(rt.alloc(), b"x\na  b\n", Piece { from: 2, to: 6 })?;
    let pieces = [
        Piece { from: 2, to: 3 },
        Piece { from: 4, to: 4 },
        Piece { from: 5, to: 6 },
    ];
    assert_eq!(rt; three.as_slice(), pieces.as_slice());
    let none = parts(rt.alloc(), b"x\n\n", Piece { from: 2, to: 2 })?;
    assert_eq!(rt; none.as_slice(), [Piece { from: 2, to: 2 }].as_slice());
    Ok(())
}

// The line that the reader of trials refuses, or 0.
fn refused_trial_line(alloc: Global, text: &[u8]) -> Result<u64, Fail> {
    match read_trial(alloc, text) {
        Err(ScriptFault::Line(line)) => Ok(line),
        Err(ScriptFault::Memory) => Err("memory".into()),
        Ok(_) => Ok(0),
    }
}

#[test]
fn a_trial_has_a_script_for_each_caller(rt: HostRuntime) -> Result<(), Fail> {
    let text = b"trial 1\nlayout split\nblocks 2\ndraws 10\ncaller\npop\npush 5\ncaller\ncaller\n\
        enq 18446744073709551615\ndeq";
    let trial = read_trial(rt.alloc(), text)?;
    assert_eq!(rt; trial.layout, Layout::Split);
    assert_eq!(rt; (trial.blocks, trial.draws), (2, 10));
    assert_eq!(rt; trial.scripts.len(), 3);
    assert_eq!(rt;
        trial.scripts[0].as_slice(),
        [Line::Pop, Line::Push(5)].as_slice()
    );
    assert_eq!(rt; trial.scripts[1].len(), 0);
    assert_eq!(rt;
        trial.scripts[2].as_slice(),
        [Line::Enq(18446744073709551615), Line::Deq].as_slice()
    );
    Ok(())
}

#[test]
fn a_trial_of_the_second_form_may_look(rt: HostRuntime) -> Result<(), Fail> {
    let text = b"trial 2\nlayout split\nblocks 1\ndraws 9\ncaller\npeek\npush 5\nsizes\n";
    let trial = read_trial(rt.alloc(), text)?;
    assert_eq!(rt; trial.scripts.len(), 1);
    assert_eq!(rt;
        trial.scripts[0].as_slice(),
        [Line::Peek, Line::Push(5), Line::Sizes].as_slice()
    );
    Ok(())
}

#[test]
fn the_first_line_that_breaks_the_rules_of_trials_is_named(rt: HostRuntime) -> Result<(), Fail> {
    let rows = [
        ("", 1),
        ("trial 0\n", 1),
        ("trial 3\n", 1),
        ("trial 02\n", 1),
        ("trial 1\n", 2),
        ("trial 2", 2),
        ("trial 1\nlayout torn\nblocks 0\n", 2),
        ("trial 1\nlayout paged \nblocks 2\n", 2),
        ("trial 1\nlayout paged\nblocks 1\ndraws 1\ncaller\n", 3),
        ("trial 1\nlayout paged\nblocks 2\ndraws 1\ncaller\n", 0),
        ("trial 1\nlayout paged\nblocks 16385\ndraws 1\ncaller\n", 3),
        ("trial 1\nlayout split\nblocks 0\n", 3),
        ("trial 1\nlayout split\nblocks 16385\ndraws 1\ncaller\n", 3),
        ("trial 1\nlayout split\nblocks 16384\ndraws 0\n", 4),
        (
            "trial 1\nlayout split\nblocks 1\ndraws 281474976710657\ncaller\n",
            4,
        ),
        (
            "trial 1\nlayout split\nblocks 1\ndraws 281474976710656\n",
            5,
        ),
        ("trial 1\nlayout split\nblocks 1\ndraws 1\npop\n", 5),
        ("trial 1\nlayout split\nblocks 1\ndraws 1\ncaller", 0),
        (
            "trial 1\nlayout split\nblocks 1\ndraws 1\ncaller\npop\npop 1\n",
            7,
        ),
        (
            "trial 1\nlayout split\nblocks 1\ndraws 1\ncaller\npush\n",
            6,
        ),
        (
            "trial 1\nlayout split\nblocks 1\ndraws 1\ncaller\npush 05\n",
            6,
        ),
        ("trial 1\nlayout split\nblocks 1\ndraws 1\ncaller\n\n", 6),
        (
            "trial 1\nlayout split\nblocks 1\ndraws 1\ncaller\nenq 1\ndeq \n",
            7,
        ),
        (
            "trial 1\nlayout split\nblocks 1\ndraws 1\ncaller\npop\npeek\n",
            7,
        ),
        (
            "trial 1\nlayout split\nblocks 1\ndraws 1\ncaller\nsizes\n",
            6,
        ),
        (
            "trial 2\nlayout split\nblocks 1\ndraws 1\ncaller\npeek\npeek 1\n",
            7,
        ),
        (
            "trial 2\nlayout split\nblocks 1\ndraws 1\ncaller\nsizes\npeek\npop\n",
            0,
        ),
        ("trial 2\nlayout split\nblocks 1\ndraws 1\ncaller\n", 0),
    ];
    for (text, line) in rows {
        assert_eq!(rt;
            refused_trial_line(rt.alloc(), text.as_bytes())?,
            line,
            "{text}"
        );
    }
    Ok(())
}

#[test]
fn a_trial_has_64_callers_at_most(rt: HostRuntime) -> Result<(), Fail> {
    let mut text = Vec::new(rt.alloc());
    text.extend_from_slice(b"trial 1\nlayout split\nblocks 1\ndraws 1\n")?;
    for _ in 0..64 {
        text.extend_from_slice(b"caller\npop\n")?;
    }
    assert_eq!(rt; refused_trial_line(rt.alloc(), &text)?, 0);
    text.extend_from_slice(b"caller\n")?;
    assert_eq!(rt; refused_trial_line(rt.alloc(), &text)?, 133);
    Ok(())
}
