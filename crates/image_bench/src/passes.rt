//! The passes of the compactor: what they take, and what they make.
ghost use Rattle.std.specs.Prelude.{IfOk};
ghost use Rattle.image_core.specs.Live.{MarksLive};
ghost use Rattle.work_pool.specs.Crews.{IsCrew};
ghost use Rattle.image_bench.specs.Jobs.{IsJob};

use crate::counts::Count;
use crate::words::Job;
use bay_core::Layout;
use image_core::Image;
use image_mark::{mark_one, mark_with};
use image_reader::{fold, into_image, make_image, write_image};
use image_slide::{slide_one, slide_with};
use std::alloc::Global;
use std::io;
use std::io::{Eprint, ErrorKind, Print};
use std::sync::Wait;
use std::thread::Threads;
use std::time::{Clock, Instant};
use work_pool::{Crew, OpenGate};

/// Times the steps of a job one after the other, and writes a line for each to standard error, in
/// nanoseconds: reading the image's bytes, marking it on one thread, sliding it, writing the slid
/// image's bytes, and marking and sliding with a crew. A last line has how many objects there are and
/// how many are live, and of a second marking, which is not timed, how often its workers asked the gate,
/// how many objects they shared and how many they kept. It fails where the crew's marks are not those
/// of one thread. It waits for the crew's workers.
pub fn time_all<R: Threads + Wait + Sync + Clock + Eprint>(
    rt: &R,
    alloc: Global,
    job: &Job,
) -> io::Result<()>
    requires { IsJob job.now }
{
    let made = make_image(alloc, job.objects, job.seed)?;
    let image = time_read(rt, alloc, &made)?;
    drop(made);
    let live = time_mark_one(rt, alloc, &image)?;
    let slid = time_slide_one(rt, alloc, &image, &live)?;
    time_write(rt, alloc, &slid)?;
    drop(slid);
    let count = time_mark_with(rt, alloc, &image, &job.crew)?;
    time_slide_with(rt, alloc, &image, &live, &job.crew)?;
    let gate = Count::new();
    let marks = mark_with(rt, alloc, &image, &job.crew, &gate)?;
    if marks.live != live || count != marks.count {
        return Err(io::Error::from(ErrorKind::InvalidData));
    }
    eprintln!(rt;
        "objects {} live {} questions {} shared {} kept {}",
        image.objects(),
        marks.count,
        gate.asked(),
        marks.shared,
        marks.kept
    )
}

// Writes how long a step took, which began then.
fn tell<R: Clock + Eprint>(rt: &R, step: &str, start: Instant) -> io::Result<()> {
    let spent = start.elapsed(rt)?.as_nanos();
    eprintln!(rt; "{step} {spent}")
}

// The image that the bytes of this one are, from memory.
fn time_read<R: Clock + Eprint>(rt: &R, alloc: Global, image: &Image) -> io::Result<Image> {
    let bytes = write_image(alloc, image)?;
    let start = Instant::now(rt)?;
    let Ok(read) = into_image(alloc, bytes) else {
        return Err(io::Error::from(ErrorKind::InvalidData));
    };
    tell(rt, "read", start)?;
    Ok(read)
}

// The bytes of an image are made.
fn time_write<R: Clock + Eprint>(rt: &R, alloc: Global, image: &Image) -> io::Result<()> {
    let start = Instant::now(rt)?;
    let _bytes = write_image(alloc, image)?;
    tell(rt, "write", start)
}

// The marks of one thread.
fn time_mark_one<R: Clock + Eprint>(rt: &R, alloc: Global, image: &Image) -> io::Result<Vec<bool>>
    ensures { IfOk result (λ live. MarksLive image.now live.items) }
{
    let start = Instant::now(rt)?;
    let live = mark_one(alloc, image)?;
    tell(rt, "mark_one", start)?;
    Ok(live)
}

// How many objects a crew marks.
fn time_mark_with<R: Threads + Wait + Sync + Clock + Eprint>(
    rt: &R,
    alloc: Global,
    image: &Image,
    crew: &Crew,
) -> io::Result<u32>
    requires { IsCrew crew.now }
{
    let start = Instant::now(rt)?;
    let marks = mark_with(rt, alloc, image, crew, &OpenGate)?;
    tell(rt, "mark_with", start)?;
    Ok(marks.count)
}

// The slid image of one thread.
fn time_slide_one<R: Clock + Eprint>(
    rt: &R,
    alloc: Global,
    image: &Image,
    live: &[bool],
) -> io::Result<Image>
    requires { MarksLive image.now live.now }
{
    let start = Instant::now(rt)?;
    let slid = slide_one(alloc, image, live)?;
    tell(rt, "slide_one", start)?;
    Ok(slid)
}

// The image is slid by a crew.
fn time_slide_with<R: Threads + Wait + Sync + Clock + Eprint>(
    rt: &R,
    alloc: Global,
    image: &Image,
    live: &[bool],
    crew: &Crew,
) -> io::Result<()>
    requires marks { MarksLive image.now live.now }
    requires crew { IsCrew crew.now }
{
    let start = Instant::now(rt)?;
    let _slid = slide_with(rt, alloc, image, live, crew, &OpenGate)?;
    tell(rt, "slide_with", start)
}

/// Prints what a crew of 4 workers over 1 block makes of an image of 1,000 objects: how many of them
/// there are and how many are live, the words before and after the slide, the roots, and the fold of
/// the slid image. It waits for the workers.
pub fn try_small<R: Threads + Wait + Sync + Print>(rt: &R, alloc: Global) -> io::Result<()> {
    let crew = Crew {
        workers: 4,
        blocks: 1,
        layout: Layout::Split,
        draws: 1 << 48,
    };
    let image = make_image(alloc, 1000, 1)?;
    let marks = mark_with(rt, alloc, &image, &crew, &OpenGate)?;
    let slid = slide_with(rt, alloc, &image, &marks.live, &crew, &OpenGate)?;
    println!(rt; "objects {}", image.objects())?;
    println!(rt; "live {}", marks.count)?;
    println!(rt; "words {}", image.words().len())?;
    println!(rt; "kept {}", slid.words().len())?;
    println!(rt; "roots {}", slid.roots().len())?;
    println!(rt; "fold {}", fold(&slid))
}
