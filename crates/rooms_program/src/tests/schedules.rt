//! Schedules, by words and by their own call.
use super::{Attempt, Ended};
use crate::{Status, schedule_run};
use room_core::Refused;
use std::alloc::{AllocError, Global};
use std::sync::Wait;
use std::test::Fail;
use std::thread::Threads;

/// Runs `schedule` on a text, by its words and by its own call: how both ended.
fn scheduled<R: Threads + Wait + Sync>(
    rt: &R,
    alloc: Global,
    text: &[u8],
) -> Result<(Ended, Ended), AllocError> {
    let by_words = Attempt::new(&["schedule"], text).ended(rt, alloc)?;
    let mut called = Ended::before(alloc, text)?;
    called.status = schedule_run(
        alloc,
        &mut called.source,
        &mut called.sink,
        &mut called.notes,
    );
    Ok((by_words, called))
}

#[test]
fn schedule_prints_the_run(rt: HostRuntime) -> Result<(), Fail> {
    let alloc = rt.alloc();
    let one = "schedule 1\nrooms 4\ncallers 1\ndraw 0 0\nstep 0\nstep 0\nstep 0\nstep 0\nstep 0\n";
    let late =
        "schedule 1\nrooms 4\ncallers 2\ndraw 0 0\nstep 0\nstep 0\nstep 0\nstep 0\ndraw 1 0\nstep 0\nstep 1\nstep 1\n";
    let next =
        "schedule 1\nrooms 2\ncallers 3\ndraw 0 0\nstep 0\nstep 0\nstep 0\nstep 0\nstep 0\ndraw 1 0\ndraw 2 1\nleave 0\nstep 0\nstep 0\nstep 0\nstep 0\nstep 0\nstep 2\nstep 2\n";
    let idle =
        "schedule 1\nrooms 2\ncallers 2\ndraw 0 0\nstep 0\nstep 0\nstep 0\nstep 0\nstep 0\nleave 0\nstep 0\ndraw 1 1\nstep 0\nstep 0\nstep 0\nstep 0\nstep 1\nstep 1\nstep 1\nstep 1\nstep 1\n";
    let again =
        "schedule 1\nrooms 2\ncallers 2\ndraw 0 0\nstep 0\nstep 0\nstep 0\nstep 0\nstep 0\ndraw 1 0\nstep 1\nstep 1\nleave 0\nstep 0\nstep 0\nstep 0\nstep 0\nstep 0\nstep 0\nstep 0\nstep 1\nstep 1\n";
    let cases = [
        (one, "open 1 0 0 1\nenter 0 0\nactive 9\ncaller 0 Inside\n"),
        (
            late,
            "open 1 0 0 1\nenter 0 0\nactive 9\ncaller 0 Inside\ncaller 1 Looking\n",
        ),
        (
            next,
            "open 1 0 0 1\nenter 0 0\nleave 0\nexit 0 begin\nexit 0 end\nopen 2 1 0 1\nenter 2 1\nactive 18\ncaller 0 Out\ncaller 1 Looking\ncaller 2 Inside\n",
        ),
        (
            idle,
            "open 1 0 0 1\nenter 0 0\nleave 0\nexit 0 begin\nexit 0 end\nopen 2 1 0 1\nenter 1 1\nactive 18\ncaller 0 Out\ncaller 1 Inside\n",
        ),
        // who leaves finds room 1 without a waiter, and opens room 0 again for the late ticket
        (
            again,
            "open 1 0 0 1\nenter 0 0\nleave 0\nexit 0 begin\nexit 0 end\nopen 2 0 1 2\nenter 1 0\nactive 17\ncaller 0 Out\ncaller 1 Inside\n",
        ),
    ];
    for (text, output) in cases {
        let (by_words, called) = scheduled(&rt, alloc, text.as_bytes())?;
        for ended in [by_words, called] {
            ended.gave(&rt, output.as_bytes());
        }
    }
    Ok(())
}

#[test]
fn schedule_refuses_texts_and_acts(rt: HostRuntime) -> Result<(), Fail> {
    let alloc = rt.alloc();
    let long = vec![in alloc; b'\n'; 1_048_577]?;
    let cases = [
        (
            "schedule 1\nrooms 1\ncallers 1\nleave 0\n".as_bytes(),
            Status::Act(1, Refused::NotIn),
            "act 1 NotIn\n",
        ),
        (b"".as_slice(), Status::Script(1), "script line 1\n"),
        (
            b"schedule 1\nrooms 8\n".as_slice(),
            Status::Script(2),
            "script line 2\n",
        ),
        (long.as_slice(), Status::TooLong, "text too long\n"),
    ];
    for (text, refusal, note) in cases {
        let (by_words, called) = scheduled(&rt, alloc, text)?;
        for ended in [by_words, called] {
            ended.refused(&rt, refusal, note);
        }
    }
    Ok(())
}
