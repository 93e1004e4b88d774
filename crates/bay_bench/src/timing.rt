//! Timing a task with each of several numbers of threads.
ghost use Rattle.std.specs.Prelude.{◌≤◌, IfSome, All};
ghost use Rattle.room_script.specs.Trials.{IsBlocks};

use crate::handfuls::time_handfuls;
use crate::lists::time_list;
use crate::looks::time_looks;
use crate::words::{Blocks, Task};
use std::alloc::Global;
use std::io;
use std::io::Eprint;
use std::sync::Wait;
use std::thread::Threads;
use std::time::Clock;

/// Times a task with so many threads, up to 64, or where no number is given with 1, 2 and 4, and where no
/// handfuls are put with 8 and 16 too. A line for each number of threads is written to standard error, and
/// two lines of a list, one of calls one by one and one of runs of 32. It waits for the threads.
pub fn time_all<R: Threads + Wait + Sync + Clock + Eprint>(
    rt: &R,
    alloc: Global,
    blocks: Blocks,
    task: Task,
    threads: Option<u32>,
) -> io::Result<()>
    requires blocks { IsBlocks blocks.layout blocks.count }
    requires threads { IfSome threads (λ number. number ≤ 64) }
{
    match threads {
        Some(number) => time(rt, alloc, blocks, task, number),
        None => time_usual(rt, alloc, blocks, task),
    }
}

// The numbers of threads where none is given.
fn usual_threads(task: Task) -> &'static [u32]
    ensures { All (λ number. number ≤ 64) result.now }
{
    match task {
        Task::Handfuls(_, _) => &[1, 2, 4],
        Task::Lists(_, _) | Task::Looks(_, _) => &[1, 2, 4, 8, 16],
    }
}

// Times the usual numbers of threads.
fn time_usual<R: Threads + Wait + Sync + Clock + Eprint>(
    rt: &R,
    alloc: Global,
    blocks: Blocks,
    task: Task,
) -> io::Result<()>
    requires { IsBlocks blocks.layout blocks.count }
{
    for threads in usual_threads(task) {
        time(rt, alloc, blocks, task, *threads)?;
    }
    Ok(())
}

// Times so many threads.
fn time<R: Threads + Wait + Sync + Clock + Eprint>(
    rt: &R,
    alloc: Global,
    blocks: Blocks,
    task: Task,
    threads: u32,
) -> io::Result<()>
    requires blocks { IsBlocks blocks.layout blocks.count }
    requires threads { threads ≤ 64 }
{
    match task {
        Task::Lists(mix, items) => {
            time_list(rt, alloc, blocks, threads, items, 1, mix)?;
            time_list(rt, alloc, blocks, threads, items, 32, mix)
        }
        Task::Handfuls(turn, items) => time_handfuls(rt, alloc, blocks, threads, items, turn),
        Task::Looks(crowd, calls) => time_looks(rt, alloc, blocks, threads, calls, crowd),
    }
}
