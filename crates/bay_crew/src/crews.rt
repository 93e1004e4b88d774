//! Callers that call at the same time, each in a thread of its own.
ghost use Rattle.std.specs.Prelude.{◌≤◌, IfOk};
ghost use Rattle.bay_core.specs.declared.numbers.TheConstants.{MOST_CALLERS};
ghost use Rattle.room_script.specs.Trials.{IsBlocks};
ghost use Rattle.room_trial.specs.Histories.{IsPlayed};
ghost use Rattle.bay_crew.specs.Mixes.{crew_outline};

use crate::mixes::Mix;
use crate::scripts::scripts;
use bay_core::Layout;
use room_script::Trial;
use room_trial::{Played, play};
use std::alloc::{AllocError, Global};
use std::sync::Wait;
use std::thread::Threads;
use work_pool::OpenGate;

/// How many draws each pass may make: more than there are numbers of calls.
pub(crate) const DRAWS: u64 = 1_099_511_627_776;

/// Sets up a bay of `blocks` blocks, 1 to 16384 and at least 2 with `Paged`, has up to 64 callers make `calls` calls each at the same
/// time, and closes the bay. On each list of `mix` a caller puts, puts, takes, puts, takes and takes,
/// and then again; call k of caller c puts the item c * 2^32 + k. The answer is that of a trial with
/// these calls as its scripts.
///
/// The error is want of memory alone; calls may have been made then. It waits for the callers, each
/// of which runs in a thread of its own where one can be made.
pub fn crew<R: Threads + Wait + Sync>(
    rt: &R,
    alloc: Global,
    layout: Layout,
    blocks: u32,
    callers: u32,
    calls: u32,
    mix: Mix,
) -> Result<Played, AllocError>
    requires blocks { IsBlocks layout blocks }
    requires callers { callers ≤ MOST_CALLERS }
    ensures { IfOk result (λ played. IsPlayed (crew_outline layout blocks callers calls mix) played) }
{
    let trial = Trial {
        layout,
        blocks,
        draws: DRAWS,
        scripts: scripts(alloc, mix, callers, calls)?,
    };
    play(rt, alloc, &trial, &OpenGate)
}
