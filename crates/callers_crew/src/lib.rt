//! A caller to copy: a work that two workers share, each in a thread of its own. The work is that of
//! `halving`, which is to copy too.
#![tactic(auto)]

ghost use Rattle.std.specs.Prelude.{map, IfOk};
ghost use Rattle.work_crew.specs.Settled.{AreSettled};

use bay_core::Layout;
use halving::{Twice, works_of};
use std::alloc::{AllocError, Global};
use std::sync::Wait;
use std::thread::Threads;
use work_crew::{Ended, run_crew};
use work_pool::{Crew, OpenGate, Way};

/// Has two workers handle a number, then twice the number below it, and so on down to 0. What the works
/// gave was done by one of them or is left, as often as it was given, and no work has anything left to give
/// or to handle. It waits for both workers.
///
/// # Errors
///
/// Want of memory alone.
pub fn two_workers<R: Threads + Wait + Sync>(
    rt: &R,
    alloc: Global,
    from: u64,
) -> Result<Ended<Twice>, AllocError>
    ensures { IfOk result (λ ended. AreSettled (map (λ work. work) ended.works.items) ended.left.items) }
{
    let crew = Crew {
        workers: 2,
        blocks: 2,
        layout: Layout::Split,
        draws: 1_048_576,
    };
    let works = works_of(alloc, 2, from)?;
    run_crew(rt, alloc, &crew, Way::Stack, works, &OpenGate)
}

#[cfg(test)]
mod tests;
