//! Handfuls without entries, to be timed.
ghost use Rattle.std.specs.Prelude.{◌≡◌, ℕ, ◌*◌, ◌/◌, ◌<◌, ◌≤◌, All, length, vec_len, slice_index_or, IfOk};
ghost use Rattle.bay_core.specs.declared.numbers.TheConstants.{MOST_CALLERS, MOST_ITEMS};
ghost use Rattle.room_script.specs.Trials.{IsBlocks};
ghost use Rattle.bay_crew.specs.Timings.{CanCall, Repeats, HadEntries};
ghost use Rattle.bay_crew.specs.Handfuls.{answered_of, draws_in, calls_in};

use crate::crews::DRAWS;
use crate::timings::{repeat, total};
use crate::watches::Watch;
use bay_core::Layout;
use bay_store::{Bay, BayPass, Handful, Stop};
use std::alloc::{AllocError, Global};
use std::sync::Wait;
use std::thread;
use std::thread::Threads;

/// What a caller does by turns.
#[derive(Clone, Copy, Debug, PartialEq, Eq)]
pub enum Turn {
    /// It puts a handful of 32 items.
    Puts,
    /// It puts a handful of 32 items, and then takes 32 one by one.
    PutsAndTakes,
}

// The items of a handful.
const ITEMS: [u64; 32] = [
    0, 1, 2, 3, 4, 5, 6, 7, 8, 9, 10, 11, 12, 13, 14, 15, 16, 17, 18, 19, 20, 21, 22, 23, 24, 25,
    26, 27, 28, 29, 30, 31,
];

// How many of so many items have an entry.
fn answered(handful: &Handful, count: u64) -> u64
    ensures { result ≡ answered_of handful.now.stop handful.now.stored count }
{
    match handful.stop {
        Stop::All | Stop::Full => count,
        Stop::Overflow | Stop::Spent => handful.stored as u64,
    }
}

// Puts the items on the stack by one handful, and answers how many of them have an entry.
fn put<R: Wait>(rt: &R, bay: &Bay, pass: BayPass, items: &[u64]) -> (BayPass, u64)
    requires can { CanCall bay.now.usage.layout bay.now.site 1 pass }
    requires some { 1 ≤ length items.now }
    requires few { length items.now ≤ MOST_ITEMS }
    ensures { Repeats bay.now.usage.layout 1 (length items.now) pass result.0 result.1 }
{
    let (pass, handful) = bay.push_some(rt, pass, items);
    (pass, answered(&handful, items.len() as u64))
}

// Puts a handful, and takes its items where the turn takes. It answers how many puts and takes were
// answered with an entry.
fn one_turn<R: Wait>(rt: &R, bay: &Bay, pass: BayPass, turn: Turn) -> (BayPass, u64)
    requires { CanCall bay.now.usage.layout bay.now.site (draws_in turn) pass }
    ensures { Repeats bay.now.usage.layout (draws_in turn) (calls_in turn) pass result.0 result.1 }
{
    match turn {
        Turn::Puts => put(rt, bay, pass, &ITEMS),
        Turn::PutsAndTakes => {
            let (full, stored) = put(rt, bay, pass, &ITEMS);
            let (emptied, taken) = repeat(rt, bay, full, true, false, 32);
            (emptied, stored + taken)
        }
    }
}

// Takes so many turns, and answers how many puts and takes were answered with an entry.
fn turns<R: Wait, W: Watch>(
    rt: &R,
    bay: &Bay,
    pass: BayPass,
    times: u32,
    turn: Turn,
    watch: &W,
) -> u64
    requires { CanCall bay.now.usage.layout bay.now.site (times * draws_in turn) pass }
    ensures { HadEntries bay.now.usage.layout (times * calls_in turn) result }
{
    watch.begins();
    let mut pass = pass;
    let mut made = 0;
    for _round in 0..times {
        let (after, calls) = one_turn(rt, bay, pass, turn);
        pass = after;
        made += calls;
    }
    watch.ends();
    made
}

// Takes the turns of all callers, each in a thread.
fn all_turns<R: Threads + Wait + Sync, W: Watch + Sync>(
    rt: &R,
    bay: &Bay,
    passes: Vec<BayPass>,
    times: u32,
    turn: Turn,
    watch: &W,
) -> Result<Vec<u64>, AllocError>
    requires can { (i : ℕ) (p : _) → i < vec_len passes → p ≡ slice_index_or passes.items i p → CanCall bay.now.usage.layout bay.now.site (times * draws_in turn) p }
    ensures len { IfOk result (λ made. vec_len made ≡ vec_len passes) }
    ensures each { IfOk result (λ made. All (λ calls. HadEntries bay.now.usage.layout (times * calls_in turn) calls) made.items) }
{
    thread::map_vec(
        rt,
        passes,
        &|pass| { turns(rt, bay, pass, times, turn, watch) },
    )
}

/// Sets up a bay of `blocks` blocks, 1 to 16384 and at least 2 with `Paged`, and has up to 64 callers
/// call at the same time: each puts `items` items, rounded down to whole handfuls of 32, on the stack by
/// handfuls, and after each handful takes as many one by one where the turns do so. Each tells the watch
/// that it begins, and after its last call that it ends. No entries are kept, and no share is given back.
/// It answers how many puts and takes were answered with an entry, an item stored or refused, or taken or
/// not there: all of them with `Split`, and with `Paged` all for which there were draws, of which each
/// caller has 2^40.
///
/// The error is want of memory alone. It waits for the callers, each of which runs in a thread of its
/// own where one can be made.
pub fn timed_handfuls<R: Threads + Wait + Sync, W: Watch + Sync>(
    rt: &R,
    alloc: Global,
    layout: Layout,
    blocks: u32,
    callers: u32,
    items: u32,
    turn: Turn,
    watch: &W,
) -> Result<u64, AllocError>
    requires blocks { IsBlocks layout blocks }
    requires callers { callers ≤ MOST_CALLERS }
    ensures { IfOk result (λ calls. HadEntries layout (callers * (items / 32 * calls_in turn)) calls) }
{
    let (bay, passes) = Bay::set_up(alloc, layout, blocks, callers, DRAWS)?;
    let made = all_turns(rt, &bay, passes, items / 32, turn, watch)?;
    Ok(total(&made))
}
