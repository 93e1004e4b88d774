//! Trials, whose callers ask a gate before each call.
use super::{Attempt, has_line};
use crate::Status;
use halving::Meeting;
use std::sync::atomic::{AtomicU64, Ordering};
use std::test::Fail;
use work_pool::Gate;

#[test]
fn trial_prints_what_its_callers_did(rt: HostRuntime) -> Result<(), Fail> {
    let alloc = rt.alloc();
    let pops =
        "trial 1\nlayout split\nblocks 1\ndraws 100\ncaller\npop\npush 5\npush 5\npop\npop\npop\n";
    let spent = "trial 1\nlayout split\nblocks 1\ndraws 2\ncaller\npush 1\npop\npop\n";
    let idle = "trial 1\nlayout split\nblocks 1\ndraws 1\ncaller\n";
    let paged = "trial 1\nlayout paged\nblocks 2\ndraws 100\ncaller\npush 5\npop\n";
    let overflow = "trial 1\nlayout paged\nblocks 2\ndraws 1\ncaller\npush 5\n";
    let looks = "trial 2\nlayout split\nblocks 1\ndraws 9\ncaller\npeek\npush 5\npeek\nsizes\n";
    let paged_looks =
        "trial 2\nlayout paged\nblocks 2\ndraws 99\ncaller\nenq 7\nsizes\npeek\ndeq\nsizes\n";
    let cases = [
        (
            pops,
            "1 4294967296 0 pop - empty\n2 4294967296 0 push 5 ok\n3 4294967297 0 push 5 ok\n4 4294967294 0 pop - 5\n5 4294967295 0 pop - 5\n6 4294967296 0 pop - empty\ncaller 0 answered 6 of 6\nstack\nqueue\n",
        ),
        (
            spent,
            "1 4294967296 0 push 1 ok\n2 4294967295 0 pop - 1\ncaller 0 answered 2 of 3\nstack\nqueue\n",
        ),
        (idle, "caller 0 answered 0 of 0\nstack\nqueue\n"),
        (
            paged,
            "2 4294967296 0 push 5 ok\n3 4294967295 0 pop - 5\ncaller 0 answered 2 of 2\nstack\nqueue\n",
        ),
        (overflow, "caller 0 answered 0 of 1\nstack\nqueue\n"),
        (
            looks,
            "1 0 0 peek - empty\n2 4294967296 0 push 5 ok\n3 0 0 peek - 5\n4 0 0 sizes - 1/0\ncaller 0 answered 4 of 4\nstack 5\nqueue\n",
        ),
        (
            paged_looks,
            "2 0 0 enq 7 ok\n3 0 0 sizes - 0/1\n4 0 0 peek - empty\n5 0 0 deq - 7\n6 0 0 sizes - 0/0\ncaller 0 answered 5 of 5\nstack\nqueue\n",
        ),
    ];
    for (text, output) in cases {
        let ended = Attempt::new(&["trial"], text.as_bytes()).ended(&rt, alloc)?;
        ended.gave(&rt, output.as_bytes());
    }
    Ok(())
}

#[test]
fn trial_refuses_texts(rt: HostRuntime) -> Result<(), Fail> {
    let alloc = rt.alloc();
    let long = vec![in alloc; b'\n'; 1_048_577]?;
    let cases = [
        (b"".as_slice(), Status::Script(1), "script line 1\n"),
        (
            b"trial 1\nlayout torn\n".as_slice(),
            Status::Script(2),
            "script line 2\n",
        ),
        (
            b"trial 1\nlayout paged\nblocks 1\n".as_slice(),
            Status::Script(3),
            "script line 3\n",
        ),
        (
            b"trial 3\n".as_slice(),
            Status::Script(1),
            "script line 1\n",
        ),
        (
            b"trial 1\nlayout split\nblocks 1\ndraws 9\ncaller\npush 5\npeek\n".as_slice(),
            Status::Script(7),
            "script line 7\n",
        ),
        (
            b"trial 1\nlayout split\nblocks 1\ndraws 9\ncaller\nsizes\n".as_slice(),
            Status::Script(6),
            "script line 6\n",
        ),
        (
            b"trial 2\nlayout split\nblocks 1\ndraws 9\ncaller\npeek\npeek 1\n".as_slice(),
            Status::Script(7),
            "script line 7\n",
        ),
        (long.as_slice(), Status::TooLong, "text too long\n"),
    ];
    for (text, refusal, note) in cases {
        let ended = Attempt::new(&["trial"], text).ended(&rt, alloc)?;
        ended.refused(&rt, refusal, note);
    }
    Ok(())
}

#[test]
fn callers_are_under_way_together(rt: HostRuntime) -> Result<(), Fail> {
    let alloc = rt.alloc();
    let text =
        b"trial 1\nlayout split\nblocks 1\ndraws 100\ncaller\npush 1\npush 2\ncaller\npush 1\npush 2\n";
    let gate = Meeting::new();
    let ended = Attempt::new(&["trial"], text).under(&rt, alloc, &gate)?;
    assert_eq!(rt; ended.status, Status::Good);
    assert_eq!(rt; (gate.met(1), gate.asked()), (true, 4));
    assert!(rt; has_line(ended.sink.written(), b"caller 0 answered 2 of 2"));
    assert!(rt; has_line(ended.sink.written(), b"caller 1 answered 2 of 2"));
    Ok(())
}

/// A gate that counts its questions.
#[derive(Drop)]
struct Count {
    asked: AtomicU64,
}

impl Gate for Count {
    fn ask(&self, _worker: u32, _take: u64) {
        self.asked.fetch_add(1, Ordering::SeqCst);
    }
}

#[test]
fn a_caller_asks_nothing_after_it_was_spent(rt: HostRuntime) -> Result<(), Fail> {
    let alloc = rt.alloc();
    let text = b"trial 1\nlayout split\nblocks 1\ndraws 2\ncaller\npush 1\npop\npop\npop\n";
    let gate = Count {
        asked: AtomicU64::new(0),
    };
    let ended = Attempt::new(&["trial"], text).under(&rt, alloc, &gate)?;
    assert_eq!(rt; ended.status, Status::Good);
    assert_eq!(rt; gate.asked.load(Ordering::SeqCst), 3);
    assert!(rt; has_line(ended.sink.written(), b"caller 0 answered 2 of 4"));
    Ok(())
}
