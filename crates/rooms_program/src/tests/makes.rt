//! Making images.
use super::{Attempt, Ended, ONE_OBJECT, image};
use crate::{Status, make_run};
use room_io::MemSink;
use std::test::Fail;

#[test]
fn make_writes_the_image_and_reads_nothing(rt: HostRuntime) -> Result<(), Fail> {
    let alloc = rt.alloc();
    let cases: [(u32, u64, &[&str], &[u64]); 2] = [
        (1, 1, &["make", "1", "1"], &ONE_OBJECT),
        (0, 7, &["make", "0", "7"], &[0, 0]),
    ];
    for (objects, seed, words, output) in cases {
        let output = image(alloc, output)?;
        let mut attempt = Attempt::new(words, b"unread");
        attempt.failing_read = Some(0);
        let ended = attempt.ended(&rt, alloc)?;
        ended.gave(&rt, &output);
        assert_eq!(rt; ended.source.left(), b"unread".as_slice());
        assert_eq!(rt; ended.source.faults(), 0);
        let mut called = Ended::before(alloc, b"")?;
        called.status = make_run(alloc, objects, seed, &mut called.sink, &mut called.notes);
        called.gave(&rt, &output);
    }
    Ok(())
}

#[test]
fn a_make_that_cannot_write_leaves_a_note(rt: HostRuntime) -> Result<(), Fail> {
    let alloc = rt.alloc();
    let mut sink = MemSink::new(alloc, 24, Vec::new(alloc), 24)?;
    let mut notes = MemSink::new(alloc, 100, Vec::new(alloc), 7)?;
    let status = make_run(alloc, 1, 1, &mut sink, &mut notes);
    assert_eq!(rt; status, Status::WriteFault);
    assert_eq!(rt; sink.written(), image(alloc, &[4, 1])?.as_slice());
    assert_eq!(rt; notes.written(), b"write fault\n".as_slice());
    Ok(())
}
