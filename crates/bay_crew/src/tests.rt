//! Two callers in threads.
use crate::{Crowd, Mix, Turn, Watch, crew, timed, timed_handfuls, timed_looks};
use bay_core::Layout;
use room_history::{check, merge};
use std::sync::atomic::{AtomicU64, Ordering};
use std::test::Fail;

#[test]
fn the_entries_of_two_callers_are_the_history(rt: HostRuntime) -> Result<(), Fail> {
    for layout in [Layout::Split, Layout::Paged] {
        let ran = crew(&rt, rt.alloc(), layout, 2, 2, 600, Mix::Both)?;
        let history = merge(rt.alloc(), &ran.entries)?;
        assert_eq!(rt; history.len(), 1200);
        let state = check(rt.alloc(), layout, 2, &history)?;
        let (oldest, newest) = state.queue().as_slices();
        assert_eq!(rt; state.stack(), ran.closed.stack.as_slice());
        assert_eq!(rt; ran.closed.queue.strip_prefix(oldest), Some(newest));
    }
    Ok(())
}

#[test]
fn callers_come_back_from_each_list(rt: HostRuntime) -> Result<(), Fail> {
    for layout in [Layout::Split, Layout::Paged] {
        for mix in [Mix::Stack, Mix::Queue, Mix::Both] {
            assert_eq!(rt; timed(&rt, rt.alloc(), layout, 2, 2, 10, 4, mix)?, 32);
            assert_eq!(rt; timed(&rt, rt.alloc(), layout, 2, 2, 3, 4, mix)?, 0);
        }
    }
    Ok(())
}

// A watch that counts who began and who ended.
#[derive(Drop)]
struct Counts {
    begun: AtomicU64,
    ended: AtomicU64,
}

impl Watch for Counts {
    fn begins(&self) {
        self.begun.fetch_add(1, Ordering::SeqCst);
    }

    fn ends(&self) {
        self.ended.fetch_add(1, Ordering::SeqCst);
    }
}

#[test]
fn callers_come_back_from_handfuls(rt: HostRuntime) -> Result<(), Fail> {
    let counts = Counts {
        begun: AtomicU64::new(0),
        ended: AtomicU64::new(0),
    };
    for layout in [Layout::Split, Layout::Paged] {
        for (turn, calls) in [(Turn::Puts, 256), (Turn::PutsAndTakes, 512)] {
            assert_eq!(rt;
                timed_handfuls(&rt, rt.alloc(), layout, 8, 2, 140, turn, &counts)?,
                calls
            );
            assert_eq!(rt;
                timed_handfuls(&rt, rt.alloc(), layout, 8, 2, 31, turn, &counts)?,
                0
            );
        }
    }
    assert_eq!(rt; counts.begun.load(Ordering::SeqCst), 16);
    assert_eq!(rt; counts.ended.load(Ordering::SeqCst), 16);
    Ok(())
}

#[test]
fn readers_come_back_alone_and_beside_a_writer(rt: HostRuntime) -> Result<(), Fail> {
    let counts = Counts {
        begun: AtomicU64::new(0),
        ended: AtomicU64::new(0),
    };
    for layout in [Layout::Split, Layout::Paged] {
        for crowd in [Crowd::Readers, Crowd::Beside] {
            assert_eq!(rt;
                timed_looks(&rt, rt.alloc(), layout, 2, 2, 50, crowd, &counts)?,
                100
            );
        }
    }
    assert_eq!(rt; counts.begun.load(Ordering::SeqCst), 8);
    assert_eq!(rt; counts.ended.load(Ordering::SeqCst), 8);
    Ok(())
}
