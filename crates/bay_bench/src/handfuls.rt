//! What an item takes that is put by handfuls.
ghost use Rattle.std.specs.Prelude.{◌≤◌};
ghost use Rattle.room_script.specs.Trials.{IsBlocks};

use crate::meetings::Meeting;
use crate::words::Blocks;
use bay_crew::{Turn, timed_handfuls};
use std::alloc::Global;
use std::io;
use std::io::Eprint;
use std::sync::Wait;
use std::thread::Threads;
use std::time::Clock;

/// Times the puts and takes of all threads, each with its part of `items` items, and writes the nanoseconds
/// over their number. A put of an item is one, and so is a take. It waits for the threads.
pub fn time_handfuls<R: Threads + Wait + Sync + Clock + Eprint>(
    rt: &R,
    alloc: Global,
    blocks: Blocks,
    threads: u32,
    items: u32,
    turn: Turn,
) -> io::Result<()>
    requires blocks { IsBlocks blocks.layout blocks.count }
    requires threads { threads ≤ 64 }
{
    let meeting = Meeting::new(rt, threads)?;
    let part = items.checked_div(threads).unwrap_or(0);
    let Blocks { layout, count } = blocks;
    let calls = timed_handfuls(rt, alloc, layout, count, threads, part, turn, &meeting)?;
    let name = match turn {
        Turn::Puts => "handfuls",
        Turn::PutsAndTakes => "mixed",
    };
    meeting.tell(name, threads, 32, calls)
}
