//! Crews of one and of three workers, through both lists of their bay.
ghost use Rattle.work_pool.specs.Crews.{IsCrew};

use crate::works_of;
use bay_core::Layout;
use std::alloc::{AllocError, Global};
use std::sync::Wait;
use std::thread::Threads;
use work_crew::{Ended, run_crew};
use work_pool::{Crew, OpenGate, Way};

// How many items the drives counted, how many were handled, and how many were left.
fn counts<R: Threads + Wait + Sync>(
    rt: &R,
    alloc: Global,
    crew: &Crew,
    way: Way,
) -> Result<(u64, usize, usize), AllocError>
    requires { IsCrew crew.now }
{
    let works = works_of(alloc, crew.workers, 6)?;
    let Ended {
        works,
        drives,
        left,
    } = run_crew(rt, alloc, crew, way, works, &OpenGate)?;
    let mut counted = 0u64;
    for drive in &drives {
        counted = counted
            .saturating_add(drive.shared)
            .saturating_add(drive.kept);
    }
    let mut handled = 0usize;
    for work in &works {
        handled = handled.saturating_add(work.done());
    }
    Ok((counted, handled, left.len()))
}

#[test]
fn what_a_crew_gives_it_does_or_leaves(rt: HostRuntime) -> Result<(), AllocError> {
    for workers in [1, 3] {
        for way in [Way::Stack, Way::Queue] {
            let crew = Crew {
                workers,
                blocks: 2,
                layout: Layout::Split,
                draws: 1 << 20,
            };
            assert_eq!(rt; counts(&rt, rt.alloc(), &crew, way)?, (127, 127, 0));
            let spent = Crew { draws: 3, ..crew };
            let (counted, handled, left) = counts(&rt, rt.alloc(), &spent, way)?;
            assert_eq!(rt; handled.saturating_add(left) as u64, counted);
        }
    }
    Ok(())
}
