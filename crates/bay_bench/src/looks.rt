//! What a peek takes, of readers alone and of readers beside a writer.
ghost use Rattle.std.specs.Prelude.{◌≤◌};
ghost use Rattle.room_script.specs.Trials.{IsBlocks};

use crate::meetings::Meeting;
use crate::words::Blocks;
use bay_crew::{Crowd, timed_looks};
use std::alloc::Global;
use std::io;
use std::io::Eprint;
use std::sync::Wait;
use std::thread::Threads;
use std::time::Clock;

/// Times so many calls of each thread, and writes the nanoseconds over the number of the calls of all threads.
/// It waits for the threads.
pub fn time_looks<R: Threads + Wait + Sync + Clock + Eprint>(
    rt: &R,
    alloc: Global,
    blocks: Blocks,
    threads: u32,
    calls: u32,
    crowd: Crowd,
) -> io::Result<()>
    requires blocks { IsBlocks blocks.layout blocks.count }
    requires threads { threads ≤ 64 }
{
    let meeting = Meeting::new(rt, threads)?;
    let Blocks { layout, count } = blocks;
    let made = timed_looks(rt, alloc, layout, count, threads, calls, crowd, &meeting)?;
    let name = match crowd {
        Crowd::Readers => "readers",
        Crowd::Beside => "beside",
    };
    meeting.tell(name, threads, 1, made)
}
