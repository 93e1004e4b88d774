//! Peeks without entries, to be timed.
ghost use Rattle.std.specs.Prelude.{◌≡◌, ℕ, ◌+◌, ◌*◌, ◌<◌, ◌≤◌, All, vec_len, slice_index_or, IfOk};
ghost use Rattle.bay_core.specs.declared.numbers.TheConstants.{MOST_CALLERS};
ghost use Rattle.room_script.specs.Trials.{IsBlocks};
ghost use Rattle.bay_crew.specs.Timings.{CanCall, Repeats, HadEntries};
ghost use Rattle.bay_crew.specs.Looks.{crowd_line};

use crate::crews::DRAWS;
use crate::mixes::line;
use crate::timings::{call_once, total};
use crate::watches::Watch;
use bay_core::Layout;
use bay_store::{Bay, BayPass};
use room_script::Line;
use std::alloc::{AllocError, Global};
use std::sync::Wait;
use std::thread;
use std::thread::Threads;

/// Which callers only look.
#[derive(Clone, Copy, Debug, PartialEq, Eq)]
pub enum Crowd {
    /// Each looks at the top item of the stack.
    Readers,
    /// Each but caller 0 does so, which puts an item on the stack and takes one by turns.
    Beside,
}

// The call k of a caller that writes or reads.
fn crowd_call(writes: bool, k: u32) -> Line
    ensures { result ≡ crowd_line writes k }
{
    if writes {
        line(true, k % 2 == 0, k as u64)
    } else {
        Line::Peek
    }
}

// Makes so many calls, and answers how many were answered with an entry.
fn repeat_looks<R: Wait>(
    rt: &R,
    bay: &Bay,
    pass: BayPass,
    writes: bool,
    times: u32,
) -> (BayPass, u64)
    requires { CanCall bay.now.usage.layout bay.now.site times pass }
    ensures { Repeats bay.now.usage.layout times times pass result.0 result.1 }
{
    let mut pass = pass;
    let mut made = 0;
    for k in 0..times {
        let (after, calls) = call_once(rt, bay, pass, crowd_call(writes, k));
        pass = after;
        made += calls;
    }
    (pass, made)
}

// Puts an item on the stack, so that there is one, and then makes so many calls, before and after which
// it tells the watch. It answers how many of these were answered with an entry.
fn looks<R: Wait, W: Watch>(
    rt: &R,
    bay: &Bay,
    pass: BayPass,
    times: u32,
    crowd: Crowd,
    watch: &W,
) -> u64
    requires { CanCall bay.now.usage.layout bay.now.site (1 + times) pass }
    ensures { HadEntries bay.now.usage.layout times result }
{
    let writes = crowd == Crowd::Beside && pass.who() == 0;
    let (filled, _) = call_once(rt, bay, pass, Line::Push(0));
    watch.begins();
    let (_done, made) = repeat_looks(rt, bay, filled, writes, times);
    watch.ends();
    made
}

// Makes the calls of all callers, each in a thread.
fn all_looks<R: Threads + Wait + Sync, W: Watch + Sync>(
    rt: &R,
    bay: &Bay,
    passes: Vec<BayPass>,
    times: u32,
    crowd: Crowd,
    watch: &W,
) -> Result<Vec<u64>, AllocError>
    requires can { (i : ℕ) (p : _) → i < vec_len passes → p ≡ slice_index_or passes.items i p → CanCall bay.now.usage.layout bay.now.site (1 + times) p }
    ensures len { IfOk result (λ made. vec_len made ≡ vec_len passes) }
    ensures each { IfOk result (λ made. All (λ calls. HadEntries bay.now.usage.layout times calls) made.items) }
{
    thread::map_vec(
        rt,
        passes,
        &|pass| { looks(rt, bay, pass, times, crowd, watch) },
    )
}

/// Sets up a bay of `blocks` blocks, 1 to 16384 and at least 2 with `Paged`, and has up to 64 callers
/// call at the same time: each puts one item on the stack, tells the watch that it begins, makes `times`
/// calls, and tells the watch that it ends. A reader's calls all look at the top item of the stack; a
/// writer puts an item on the stack and takes one by turns. No entries are kept, and no share is given
/// back. It answers how many of these `times` calls of each were answered with an entry: all of them with
/// `Split`, and with `Paged` all for which there were draws, of which each caller has 2^40.
///
/// The error is want of memory alone. It waits for the callers, each of which runs in a thread of its
/// own where one can be made.
pub fn timed_looks<R: Threads + Wait + Sync, W: Watch + Sync>(
    rt: &R,
    alloc: Global,
    layout: Layout,
    blocks: u32,
    callers: u32,
    times: u32,
    crowd: Crowd,
    watch: &W,
) -> Result<u64, AllocError>
    requires blocks { IsBlocks layout blocks }
    requires callers { callers ≤ MOST_CALLERS }
    ensures { IfOk result (λ calls. HadEntries layout (callers * times) calls) }
{
    let (bay, passes) = Bay::set_up(alloc, layout, blocks, callers, DRAWS)?;
    let made = all_looks(rt, &bay, passes, times, crowd, watch)?;
    Ok(total(&made))
}
