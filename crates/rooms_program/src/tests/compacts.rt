//! Compacting images of both formats, by one worker and by crews.
use super::{Attempt, FIVE_WORDS, WEAK_ITSELF, WEAK_WORDS, framed, image};
use crate::Status;
use halving::Meeting;
use image_core::{ImageFault, ImageKind};
use image_reader::{make_image, write_image};
use std::test::Fail;

#[test]
fn compact_keeps_the_live_objects(rt: HostRuntime) -> Result<(), Fail> {
    let alloc = rt.alloc();
    let cases: [(&[u64], &[u64]); 4] = [
        (&FIVE_WORDS, &[3, 1, 30064771073, 3, 38654705664, 1]),
        (&[0, 0], &[0, 0]),
        (&[4, 0, 4294967297, 3, 4294967297, 1], &[0, 0]),
        (&[2, 2, 21474836481, 1, 0, 1], &[2, 2, 21474836481, 1, 0, 1]),
    ];
    let crews: [&[&str]; 6] = [
        &["compact"],
        &["compact", "--workers", "4"],
        &["compact", "--workers", "4", "--blocks", "1"],
        &["--workers=2", "compact"],
        &["compact", "--blocks", "1", "--workers", "2"],
        &["--layout=paged", "compact", "--blocks", "2"],
    ];
    for (input, output) in cases {
        let input = image(alloc, input)?;
        for words in crews {
            let ended = Attempt::new(words, &input).ended(&rt, alloc)?;
            ended.gave(&rt, image(alloc, output)?.as_slice());
        }
    }
    Ok(())
}

#[test]
fn compact_keeps_no_object_for_a_weak_word(rt: HostRuntime) -> Result<(), Fail> {
    let alloc = rt.alloc();
    let cases: [(&[u64], &[u64]); 3] = [
        (
            &WEAK_WORDS,
            &[5, 1, 1970329131941889, 4, 0, 2533279085363200, 1, 1],
        ),
        (&WEAK_ITSELF, &[0, 1, 0]),
        (&[0, 0], &[0, 0]),
    ];
    let crews: [&[&str]; 3] = [
        &["compact"],
        &["compact", "--workers", "2"],
        &["compact", "--layout=paged", "--workers=4", "--blocks=2"],
    ];
    for (input, output) in cases {
        let input = framed(alloc, b"ROOMIMG2", input)?;
        let output = framed(alloc, b"ROOMIMG2", output)?;
        for words in crews {
            let ended = Attempt::new(words, &input).ended(&rt, alloc)?;
            ended.gave(&rt, output.as_slice());
        }
    }
    Ok(())
}

#[test]
fn weak_words_that_name_nothing_and_other_formats_are_refused(rt: HostRuntime) -> Result<(), Fail> {
    let alloc = rt.alloc();
    let cases: [(Vec<u8>, ImageFault, &str); 2] = [
        (
            framed(alloc, b"ROOMIMG2", &[2, 0, 4294967296, 2])?,
            ImageFault::new(ImageKind::BadRef, 1, 2),
            "image BadRef place 1 value 2\n",
        ),
        (
            framed(alloc, b"ROOMIMG3", &[0, 0])?,
            ImageFault::new(ImageKind::Magic, 7, 51),
            "image Magic place 7 value 51\n",
        ),
    ];
    for (bytes, fault, note) in cases {
        for word in ["compact", "mark", "check"] {
            let ended = Attempt::new(&[word], &bytes).ended(&rt, alloc)?;
            assert_eq!(rt; ended.status, Status::Image(fault));
            assert_eq!(rt; ended.status.code(), 3);
            assert!(rt; ended.sink.written().is_empty());
            assert_eq!(rt; ended.notes.written(), note.as_bytes());
        }
    }
    Ok(())
}

#[test]
fn compact_refuses_what_is_no_image(rt: HostRuntime) -> Result<(), Fail> {
    let alloc = rt.alloc();
    let mut short = image(alloc, &[0, 0])?;
    short.truncate(23);
    let mut long = image(alloc, &[0, 0])?;
    long.push(0)?;
    let cases: [(Vec<u8>, ImageFault, &str); 4] = [
        (
            vec![in alloc; 0u8; 24]?,
            ImageFault::new(ImageKind::Magic, 0, 0),
            "image Magic place 0 value 0\n",
        ),
        (
            short,
            ImageFault::new(ImageKind::Short, 23, 24),
            "image Short place 23 value 24\n",
        ),
        (
            long,
            ImageFault::new(ImageKind::Long, 24, 0),
            "image Long place 24 value 0\n",
        ),
        (
            image(alloc, &[3, 0, 65537, 3, 0])?,
            ImageFault::new(ImageKind::BadRef, 1, 3),
            "image BadRef place 1 value 3\n",
        ),
    ];
    for (bytes, fault, note) in cases {
        let ended = Attempt::new(&["compact"], &bytes).ended(&rt, alloc)?;
        ended.refused(&rt, Status::Image(fault), note);
    }
    Ok(())
}

#[test]
fn a_failed_write_leaves_a_prefix_and_a_note(rt: HostRuntime) -> Result<(), Fail> {
    let alloc = rt.alloc();
    let bytes = image(alloc, &FIVE_WORDS)?;
    let mut attempt = Attempt::new(&["compact"], &bytes);
    attempt.room = 100;
    attempt.failing_write = Some(1);
    let ended = attempt.ended(&rt, alloc)?;
    assert_eq!(rt; ended.status, Status::WriteFault);
    let first = image(alloc, &[3, 1])?;
    assert_eq!(rt; ended.sink.written(), first.as_slice());
    assert_eq!(rt; ended.notes.written(), b"write fault\n".as_slice());
    Ok(())
}

#[test]
fn a_failed_read_leaves_a_note(rt: HostRuntime) -> Result<(), Fail> {
    let alloc = rt.alloc();
    let bytes = image(alloc, &FIVE_WORDS)?;
    let mut attempt = Attempt::new(&["compact"], &bytes);
    attempt.failing_read = Some(0);
    let ended = attempt.ended(&rt, alloc)?;
    ended.refused(&rt, Status::ReadFault, "read fault\n");
    Ok(())
}

#[test]
fn workers_are_under_way_together(rt: HostRuntime) -> Result<(), Fail> {
    let alloc = rt.alloc();
    let bytes = write_image(alloc, &make_image(alloc, 100_000, 1)?)?;
    let mut alone = Attempt::new(&["compact"], &bytes);
    alone.room = bytes.len();
    let mut together = Attempt::new(&["compact", "--workers", "2"], &bytes);
    together.room = bytes.len();
    let gate = Meeting::new();
    let expected = alone.ended(&rt, alloc)?;
    let ended = together.under(&rt, alloc, &gate)?;
    assert!(rt; gate.met(2));
    assert_eq!(rt; expected.status, Status::Good);
    assert_eq!(rt; ended.status, Status::Good);
    assert!(rt; ended.sink.written() == expected.sink.written());
    Ok(())
}
