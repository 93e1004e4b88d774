//! Calls without entries, to be timed.
ghost use Rattle.std.specs.Prelude.{◌≡◌, ℕ, ◌<◌, ◌≤◌, ◌*◌, ◌^◌, All, vec_len, slice_index_or, IfOk};
ghost use Rattle.std.specs.List.{sum_by};
ghost use Rattle.bay_core.specs.declared.numbers.TheConstants.{MOST_CALLERS};
ghost use Rattle.room_script.specs.Trials.{IsBlocks};
ghost use Rattle.bay_crew.specs.Timings.{CanCall, Repeats, HadEntries, calls_of};

use crate::crews::DRAWS;
use crate::mixes::{Mix, is_on_stack, line};
use bay_core::Layout;
use bay_store::{Bay, BayPass};
use room_script::Line;
use room_trial::call_line;
use std::alloc::{AllocError, Global};
use std::sync::Wait;
use std::thread;
use std::thread::Threads;

// Makes one call, and answers how many it made: 1 if it was answered with an entry, and else 0.
pub(crate) fn call_once<R: Wait>(rt: &R, bay: &Bay, pass: BayPass, line: Line) -> (BayPass, u64)
    requires { CanCall bay.now.usage.layout bay.now.site 1 pass }
    ensures { Repeats bay.now.usage.layout 1 1 pass result.0 result.1 }
{
    let (pass, receipt) = call_line(rt, bay, pass, line);
    match receipt {
        Some(_) => (pass, 1),
        None => (pass, 0),
    }
}

// Calls so many times on one list, with the items 0, 1 and so on where it puts. It answers how many
// calls were answered with an entry.
pub(crate) fn repeat<R: Wait>(
    rt: &R,
    bay: &Bay,
    pass: BayPass,
    on_stack: bool,
    puts: bool,
    times: u32,
) -> (BayPass, u64)
    requires { CanCall bay.now.usage.layout bay.now.site times pass }
    ensures { Repeats bay.now.usage.layout times times pass result.0 result.1 }
{
    let mut pass = pass;
    let mut made = 0;
    for item in 0..times {
        let (after, calls) = call_once(rt, bay, pass, line(on_stack, puts, item as u64));
        pass = after;
        made += calls;
    }
    (pass, made)
}

// Puts `run` items on a list and takes as many off it.
fn one_run<R: Wait>(rt: &R, bay: &Bay, pass: BayPass, on_stack: bool, run: u32) -> (BayPass, u64)
    requires { CanCall bay.now.usage.layout bay.now.site (2 * run) pass }
    ensures { Repeats bay.now.usage.layout (2 * run) (2 * run) pass result.0 result.1 }
{
    let (full, put) = repeat(rt, bay, pass, on_stack, true, run);
    let (emptied, taken) = repeat(rt, bay, full, on_stack, false, run);
    (emptied, put + taken)
}

// Makes so many runs, and answers how many calls were made.
fn rounds<R: Wait>(rt: &R, bay: &Bay, pass: BayPass, rounds: u32, run: u32, mix: Mix) -> u64
    requires can { CanCall bay.now.usage.layout bay.now.site (rounds * (2 * run)) pass }
    requires few { rounds * (2 * run) < 2 ^ 64 }
    ensures { HadEntries bay.now.usage.layout (rounds * (2 * run)) result }
{
    let mut pass = pass;
    let mut made = 0;
    for round in 0..rounds {
        let (after, calls) = one_run(rt, bay, pass, is_on_stack(mix, round), run);
        pass = after;
        made += calls;
    }
    made
}

// Makes the runs of all callers, each in a thread, and answers how many calls each made.
fn all_rounds<R: Threads + Wait + Sync>(
    rt: &R,
    bay: &Bay,
    passes: Vec<BayPass>,
    times: u32,
    run: u32,
    mix: Mix,
) -> Result<Vec<u64>, AllocError>
    requires few { times * (2 * run) < 2 ^ 64 }
    requires can { (i : ℕ) (p : _) → i < vec_len passes → p ≡ slice_index_or passes.items i p → CanCall bay.now.usage.layout bay.now.site (times * (2 * run)) p }
    ensures len { IfOk result (λ made. vec_len made ≡ vec_len passes) }
    ensures each { IfOk result (λ made. All (λ calls. HadEntries bay.now.usage.layout (times * (2 * run)) calls) made.items) }
{
    thread::map_vec(
        rt,
        passes,
        &|pass| { rounds(rt, bay, pass, times, run, mix) },
    )
}

// The sum of the numbers.
pub(crate) fn total(numbers: &[u64]) -> u64
    requires { sum_by (λ n. n) numbers.now < 2 ^ 64 }
    ensures { result ≡ sum_by (λ n. n) numbers.now }
{
    let mut all = 0;
    for i in 0..numbers.len() {
        all += numbers[i];
    }
    all
}

/// Sets up a bay of `blocks` blocks, 1 to 16384 and at least 2 with `Paged`, and has up to 64 callers call at the same time: each
/// puts `run` items, 1 or more, and takes as many, until it put `items`, rounded down to whole runs.
/// On both lists it takes turns run by run. No entries are kept, and no share is given back. It
/// answers how many calls were answered with an entry: all of them with `Split`, and with `Paged` all
/// for which there were draws, of which each caller has 2^40.
///
/// The error is want of memory alone. It waits for the callers, each of which runs in a thread of its
/// own where one can be made.
pub fn timed<R: Threads + Wait + Sync>(
    rt: &R,
    alloc: Global,
    layout: Layout,
    blocks: u32,
    callers: u32,
    items: u32,
    run: u32,
    mix: Mix,
) -> Result<u64, AllocError>
    requires blocks { IsBlocks layout blocks }
    requires callers { callers ≤ MOST_CALLERS }
    requires some_items { 1 ≤ run }
    ensures { IfOk result (λ calls. HadEntries layout (callers * calls_of items run) calls) }
{
    let (bay, passes) = Bay::set_up(alloc, layout, blocks, callers, DRAWS)?;
    let made = all_rounds(rt, &bay, passes, items / run, run, mix)?;
    Ok(total(&made))
}
