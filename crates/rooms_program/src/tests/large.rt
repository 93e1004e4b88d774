//! Long texts and large images, with what they print worked out by hand.
use super::{Attempt, has_line};
use crate::Status;
use image_mark::mark_one;
use image_reader::{make_image, write_image};
use image_slide::slide_one;
use room_core::Refused;
use std::alloc::{AllocError, Global};
use std::fmt::Write;
use std::test::Fail;

/// A schedule of one room and one caller, which comes and goes so many times, with ten acts each time.
fn stays(alloc: Global, count: u64) -> Result<String, AllocError> {
    let mut text = String::from_str(alloc, "schedule 1\nrooms 1\ncallers 1\n")?;
    for _ in 0..count {
        text.push_str("draw 0 0\nstep 0\nstep 0\nstep 0\nstep 0\nstep 0\n")?;
        text.push_str("leave 0\nstep 0\nstep 0\nstep 0\n")?;
    }
    Ok(text)
}

/// What it prints: five lines for each turn, and the active word, which keeps its turn while idle.
fn printed_stays(alloc: Global, count: u64) -> Result<String, AllocError> {
    let mut text = String::new(alloc);
    for before in 0..count {
        let turn = before + 1;
        writeln!(text, "open {turn} 0 {before} {turn}")?;
        text.push_str("enter 0 0\nleave 0\nexit 0 begin\nexit 0 end\n")?;
    }
    let active = count.saturating_mul(8);
    writeln!(text, "active {active}\ncaller 0 Out")?;
    Ok(text)
}

#[test]
fn a_schedule_of_a_thousand_acts_is_run_to_its_end(rt: HostRuntime) -> Result<(), Fail> {
    let alloc = rt.alloc();
    let mut text = stays(alloc, 100)?;
    let mut attempt = Attempt::new(&["schedule"], text.as_bytes());
    attempt.room = 100_000;
    let ended = attempt.ended(&rt, alloc)?;
    ended.gave(&rt, printed_stays(alloc, 100)?.as_bytes());
    text.push_str("leave 0\n")?;
    let ended = Attempt::new(&["schedule"], text.as_bytes()).ended(&rt, alloc)?;
    ended.refused(&rt, Status::Act(1001, Refused::NotIn), "act 1001 NotIn\n");
    Ok(())
}

/// A trial of callers with one script, of which each line is the next of `push 7`, `pop`, `enq 8`, `deq`.
/// Nobody has two items in a list, so that nothing is full where there are cells for all callers, and
/// nobody finds nothing, since who takes an item put one in before.
#[derive(Clone, Copy)]
struct Crowd {
    head: &'static str,
    callers: usize,
    lines: usize,
    /// How many lines each caller has answered, and the entries of all of them on either list.
    answered: usize,
    pushes: usize,
    enqueues: usize,
}

const CALLS: [&str; 4] = ["push 7\n", "pop\n", "enq 8\n", "deq\n"];

/// The text of a trial.
fn crowded(alloc: Global, crowd: &Crowd) -> Result<String, AllocError> {
    let mut text = String::from_str(alloc, "trial 1\n")?;
    text.push_str(crowd.head)?;
    for _ in 0..crowd.callers {
        text.push_str("caller\n")?;
        for line in 0..crowd.lines {
            text.push_str(CALLS[line % 4])?;
        }
    }
    Ok(text)
}

/// How many lines of the text end so.
fn lines_with_end(text: &[u8], end: &[u8]) -> usize {
    text.split(|byte| *byte == b'\n')
        .filter(|line| line.ends_with(end))
        .count()
}

#[test]
fn each_line_of_many_callers_is_answered(rt: HostRuntime) -> Result<(), Fail> {
    let alloc = rt.alloc();
    let crowds = [
        Crowd {
            head: "layout split\nblocks 1\ndraws 50\n",
            callers: 8,
            lines: 50,
            answered: 50,
            pushes: 104,
            enqueues: 96,
        },
        Crowd {
            head: "layout paged\nblocks 16\ndraws 1000\n",
            callers: 8,
            lines: 50,
            answered: 50,
            pushes: 104,
            enqueues: 96,
        },
        Crowd {
            head: "layout split\nblocks 1\ndraws 10\n",
            callers: 8,
            lines: 50,
            answered: 10,
            pushes: 24,
            enqueues: 16,
        },
        Crowd {
            head: "layout split\nblocks 2\ndraws 4\n",
            callers: 64,
            lines: 4,
            answered: 4,
            pushes: 64,
            enqueues: 64,
        },
    ];
    for crowd in crowds {
        let text = crowded(alloc, &crowd)?;
        let mut attempt = Attempt::new(&["trial"], text.as_bytes());
        attempt.room = 100_000;
        let ended = attempt.ended(&rt, alloc)?;
        let printed = ended.sink.written();
        assert_eq!(rt; ended.status, Status::Good);
        assert_eq!(rt; lines_with_end(printed, b" push 7 ok"), crowd.pushes);
        assert_eq!(rt; lines_with_end(printed, b" pop - 7"), crowd.pushes);
        assert_eq!(rt; lines_with_end(printed, b" enq 8 ok"), crowd.enqueues);
        assert_eq!(rt; lines_with_end(printed, b" deq - 8"), crowd.enqueues);
        let (answered, lines) = (crowd.answered, crowd.lines);
        for caller in 0..crowd.callers {
            let mut line = String::new(alloc);
            write!(line, "caller {caller} answered {answered} of {lines}")?;
            assert!(rt; has_line(printed, line.as_bytes()));
        }
        assert!(rt; printed.ends_with(b"\nstack\nqueue\n"));
        // a line for each entry and each caller, the two lists, and nothing behind the last newline
        let entries = crowd.answered.saturating_mul(crowd.callers);
        let all = entries.saturating_add(crowd.callers).saturating_add(3);
        assert_eq!(rt; lines_with_end(printed, b""), all);
    }
    Ok(())
}

#[test]
fn a_text_of_newlines_is_refused_at_its_first_empty_line(rt: HostRuntime) -> Result<(), Fail> {
    let alloc = rt.alloc();
    let cases = [
        ("schedule", "", 1, "script line 1\n"),
        (
            "schedule",
            "schedule 1\nrooms 1\ncallers 1\n",
            4,
            "script line 4\n",
        ),
        ("trial", "", 1, "script line 1\n"),
        (
            "trial",
            "trial 1\nlayout split\nblocks 1\ndraws 1\ncaller\n",
            6,
            "script line 6\n",
        ),
    ];
    for (command, head, line, note) in cases {
        let mut text = Vec::from_slice(alloc, head.as_bytes())?;
        text.resize(1_048_576, b'\n')?;
        let ended = Attempt::new(&[command], &text).ended(&rt, alloc)?;
        ended.refused(&rt, Status::Script(line), note);
    }
    Ok(())
}

#[test]
fn each_crew_writes_the_slide_of_the_marks(rt: HostRuntime) -> Result<(), Fail> {
    let alloc = rt.alloc();
    let image = make_image(alloc, 100_000, 1)?;
    let live = mark_one(alloc, &image)?;
    let slid = write_image(alloc, &slide_one(alloc, &image, &live)?)?;
    let mut made = Attempt::new(&["make", "100000", "1"], b"");
    made.room = 4_000_000;
    let made = made.ended(&rt, alloc)?;
    assert_eq!(rt; made.status, Status::Good);
    assert!(rt; made.sink.written() == write_image(alloc, &image)?.as_slice());
    // 24 bytes, and 8 for each of 166937 words and 16 roots
    assert_eq!(rt; slid.len(), 1335648);
    let crews: [&[&str]; 4] = [
        &["compact"],
        &["compact", "--workers", "4", "--blocks", "2"],
        &["compact", "--workers=4", "--blocks=2", "--layout=paged"],
        &["compact", "--workers", "16", "--blocks", "1"],
    ];
    for words in crews {
        let mut attempt = Attempt::new(words, made.sink.written());
        attempt.room = slid.len();
        let ended = attempt.ended(&rt, alloc)?;
        assert_eq!(rt; ended.status, Status::Good);
        assert!(rt; ended.sink.written() == slid.as_slice());
    }
    Ok(())
}
