//! Whole trials, from their texts to what they print.
use crate::{play, trial};
use room_script::read_trial;
use std::sync::atomic::{AtomicU64, Ordering};
use std::test::Fail;
use work_pool::{Gate, OpenGate};

#[test]
fn a_trial_prints_its_history_and_what_is_left(rt: HostRuntime) -> Result<(), Fail> {
    let cases = [
        (
            "trial 1\nlayout split\nblocks 1\ndraws 100\ncaller\npop\npush 5\npush 5\npop\npop\npop\n",
            "1 4294967296 0 pop - empty\n2 4294967296 0 push 5 ok\n3 4294967297 0 push 5 ok\n4 4294967294 0 pop - 5\n5 4294967295 0 pop - 5\n6 4294967296 0 pop - empty\ncaller 0 answered 6 of 6\nstack\nqueue\n",
        ),
        (
            "trial 1\nlayout split\nblocks 1\ndraws 2\ncaller\npush 1\npop\npop\n",
            "1 4294967296 0 push 1 ok\n2 4294967295 0 pop - 1\ncaller 0 answered 2 of 3\nstack\nqueue\n",
        ),
        (
            "trial 1\nlayout split\nblocks 1\ndraws 1\ncaller\n",
            "caller 0 answered 0 of 0\nstack\nqueue\n",
        ),
        (
            "trial 1\nlayout split\nblocks 1\ndraws 9\ncaller\nenq 3\npush 4\nenq 5\ndeq\ndeq\ndeq\nenq 6\n",
            "1 0 0 enq 3 ok\n2 4294967296 0 push 4 ok\n3 1 0 enq 5 ok\n4 0 0 deq - 3\n5 1 0 deq - 5\n6 2 0 deq - empty\n7 2 0 enq 6 ok\ncaller 0 answered 7 of 7\nstack 4\nqueue 6\n",
        ),
        (
            "trial 1\nlayout paged\nblocks 2\ndraws 100\ncaller\npush 5\npop\n",
            "2 4294967296 0 push 5 ok\n3 4294967295 0 pop - 5\ncaller 0 answered 2 of 2\nstack\nqueue\n",
        ),
        (
            "trial 1\nlayout paged\nblocks 2\ndraws 1\ncaller\npush 5\n",
            "caller 0 answered 0 of 1\nstack\nqueue\n",
        ),
    ];
    for (text, output) in cases {
        let script = read_trial(rt.alloc(), text.as_bytes())?;
        let printed = trial(&rt, rt.alloc(), &script, &OpenGate)?;
        assert_eq!(rt; printed.as_slice(), output.as_bytes());
    }
    Ok(())
}

// A gate that follows the questions of two callers: the number of each one's next question, and how
// many had another number.
#[derive(Drop)]
struct Follows {
    first: AtomicU64,
    second: AtomicU64,
    others: AtomicU64,
}

impl Gate for Follows {
    fn ask(&self, worker: u32, take: u64) {
        let next = if worker == 0 {
            &self.first
        } else {
            &self.second
        };
        if worker > 1 || next.fetch_add(1, Ordering::SeqCst) != take {
            self.others.fetch_add(1, Ordering::SeqCst);
        }
    }
}

// The first caller has a draw for three of its four lines.
const TWO_CALLERS: &str =
    "trial 1\nlayout split\nblocks 1\ndraws 3\ncaller\npush 5\npush 6\npop\nenq 7\ncaller\nenq 8\nenq 9\n";

#[test]
fn each_caller_asks_with_one_number_after_another(rt: HostRuntime) -> Result<(), Fail> {
    let gate = Follows {
        first: AtomicU64::new(0),
        second: AtomicU64::new(0),
        others: AtomicU64::new(0),
    };
    let read = read_trial(rt.alloc(), TWO_CALLERS.as_bytes())?;
    let played = play(&rt, rt.alloc(), &read, &gate)?;
    let asked = (
        gate.first.load(Ordering::SeqCst),
        gate.second.load(Ordering::SeqCst),
        gate.others.load(Ordering::SeqCst),
    );
    assert_eq!(rt; asked, (4, 2, 0));
    assert_eq!(rt; played.entries.get(0).map(|list| list.len()), Some(3));
    assert_eq!(rt; played.entries.get(1).map(|list| list.len()), Some(2));
    assert_eq!(rt; played.closed.stack.len(), 1);
    assert_eq!(rt; played.closed.queue.as_slice(), [8, 9].as_slice());
    assert_eq!(rt; played.closed.live, 6);
    Ok(())
}
