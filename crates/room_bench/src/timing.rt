//! What a stay takes.
ghost use Rattle.std.specs.Prelude.{◌≤◌, IfSome};

use stay_tally::tally;
use std::alloc::Global;
use std::io;
use std::io::Eprint;
use std::sync::Wait;
use std::thread::Threads;
use std::time::{Clock, Instant};

/// Times so many threads, up to 64, or 1, 2, 4, 8 and 16 where no number is given, that make `stays`
/// stays each, in one room and spread over four, and writes a line for each to standard error. It waits
/// for the threads.
pub fn time_all<R: Threads + Wait + Sync + Clock + Eprint>(
    rt: &R,
    alloc: Global,
    stays: u32,
    threads: Option<u32>,
) -> io::Result<()>
    requires { IfSome threads (λ number. number ≤ 64) }
{
    match threads {
        Some(number) => time_both(rt, alloc, number, stays),
        None => time_usual(rt, alloc, stays),
    }
}

// Times 1, 2, 4, 8 and 16 threads.
fn time_usual<R: Threads + Wait + Sync + Clock + Eprint>(
    rt: &R,
    alloc: Global,
    stays: u32,
) -> io::Result<()> {
    for threads in [1, 2, 4, 8, 16] {
        time_both(rt, alloc, threads, stays)?;
    }
    Ok(())
}

// Times so many threads in one room, and spread over four.
fn time_both<R: Threads + Wait + Sync + Clock + Eprint>(
    rt: &R,
    alloc: Global,
    threads: u32,
    stays: u32,
) -> io::Result<()>
    requires { threads ≤ 64 }
{
    time(rt, alloc, threads, stays, false)?;
    time(rt, alloc, threads, stays, true)
}

// Times set-up, all stays and the close, and writes the nanoseconds over the number of all stays.
fn time<R: Threads + Wait + Sync + Clock + Eprint>(
    rt: &R,
    alloc: Global,
    threads: u32,
    stays: u32,
    spread: bool,
) -> io::Result<()>
    requires { threads ≤ 64 }
{
    let start = Instant::now(rt)?;
    tally(rt, alloc, threads, stays, spread)?;
    let taken = start.elapsed(rt)?.as_nanos();
    let all = u128::from(threads) * u128::from(stays);
    let each = taken.checked_div(all).unwrap_or(0);
    let rooms = if spread { "spread" } else { "one_room" };
    eprintln!(rt; "stay {rooms} threads {threads} ns_per_stay {each}")
}
