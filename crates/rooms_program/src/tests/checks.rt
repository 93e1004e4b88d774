//! Checking images, by words and by its own call.
use super::{Attempt, Ended, FIVE_WORDS, ONE_OBJECT, WEAK_ITSELF, WEAK_WORDS, framed, image};
use crate::{Status, check_run};
use image_core::{ImageFault, ImageKind};
use std::alloc::{AllocError, Global};
use std::sync::Wait;
use std::test::Fail;
use std::thread::Threads;

/// Runs `check` on bytes, by its words and by its own call: how both ended.
fn checked<R: Threads + Wait + Sync>(
    rt: &R,
    alloc: Global,
    bytes: &[u8],
) -> Result<[Ended; 2], AllocError> {
    let by_words = Attempt::new(&["check"], bytes).ended(rt, alloc)?;
    let mut called = Ended::before(alloc, bytes)?;
    called.status = check_run(
        alloc,
        &mut called.source,
        &mut called.sink,
        &mut called.notes,
    );
    Ok([by_words, called])
}

#[test]
fn check_tells_how_large_an_image_is(rt: HostRuntime) -> Result<(), Fail> {
    let alloc = rt.alloc();
    let cases: [(&[u64], &str); 3] = [
        (&ONE_OBJECT, "ok words 4 roots 1 objects 1\n"),
        (&FIVE_WORDS, "ok words 5 roots 1 objects 3\n"),
        (&[0, 0], "ok words 0 roots 0 objects 0\n"),
    ];
    for (input, output) in cases {
        for ended in checked(&rt, alloc, &image(alloc, input)?)? {
            ended.gave(&rt, output.as_bytes());
        }
    }
    Ok(())
}

#[test]
fn check_tells_how_large_an_image_of_format_2_is(rt: HostRuntime) -> Result<(), Fail> {
    let alloc = rt.alloc();
    let cases: [(&[u64], &str); 2] = [
        (&WEAK_WORDS, "ok words 7 roots 1 objects 3\n"),
        (&WEAK_ITSELF, "ok words 2 roots 1 objects 1\n"),
    ];
    for (input, output) in cases {
        for ended in checked(&rt, alloc, &framed(alloc, b"ROOMIMG2", input)?)? {
            ended.gave(&rt, output.as_bytes());
        }
    }
    Ok(())
}

#[test]
fn check_refuses_what_is_no_image(rt: HostRuntime) -> Result<(), Fail> {
    let alloc = rt.alloc();
    let fault = ImageFault::new(ImageKind::BadRef, 1, 3);
    let bytes = image(alloc, &[3, 0, 65537, 3, 0])?;
    for ended in checked(&rt, alloc, &bytes)? {
        ended.refused(&rt, Status::Image(fault), "image BadRef place 1 value 3\n");
    }
    Ok(())
}
