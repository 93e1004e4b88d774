//! What a call on a list takes.
ghost use Rattle.std.specs.Prelude.{◌≤◌};
ghost use Rattle.room_script.specs.Trials.{IsBlocks};

use crate::words::Blocks;
use bay_crew::{Mix, timed};
use std::alloc::Global;
use std::io;
use std::io::Eprint;
use std::sync::Wait;
use std::thread::Threads;
use std::time::{Clock, Instant};

/// Times the set-up and all calls, of which each thread puts `items` items and takes as many, in whole runs
/// of `run`, 1 or more, and writes the nanoseconds over the number of the calls made, or 0 where there were
/// none. It waits for the threads.
pub fn time_list<R: Threads + Wait + Sync + Clock + Eprint>(
    rt: &R,
    alloc: Global,
    blocks: Blocks,
    threads: u32,
    items: u32,
    run: u32,
    mix: Mix,
) -> io::Result<()>
    requires blocks { IsBlocks blocks.layout blocks.count }
    requires threads { threads ≤ 64 }
    requires run { 1 ≤ run }
{
    let start = Instant::now(rt)?;
    let calls = timed(
        rt,
        alloc,
        blocks.layout,
        blocks.count,
        threads,
        items,
        run,
        mix,
    )?;
    let taken = start.elapsed(rt)?.as_nanos();
    let each = taken.checked_div(u128::from(calls)).unwrap_or(0);
    let list = if mix == Mix::Stack { "stack" } else { "queue" };
    eprintln!(rt; "{list} threads {threads} run {run} ns_per_op {each}")
}
