//! The command `compact`: an image in, its live objects alone out.
ghost use Rattle.work_pool.specs.Crews.{IsCrew};
ghost use Rattle.rooms_program.specs.Limits.{crew_of};
ghost use Rattle.rooms_program.specs.Runs.{Makes};

use crate::crew::crew_of;
use crate::status::Status;
use command_words::{Command, Options};
use image_mark::mark_with;
use image_reader::{into_image, write_image};
use image_slide::slide_with;
use std::alloc::Global;
use std::sync::Wait;
use std::thread::Threads;
use work_pool::Gate;

/// The bytes of the slid image, which are the same for each crew. They are made when those that it was
/// read from, that image and its marks are gone. It waits for the crew's workers.
pub fn compacted<R: Threads + Wait + Sync, G: Gate + Sync>(
    rt: &R,
    alloc: Global,
    options: &Options,
    bytes: Vec<u8>,
    gate: &G,
) -> Result<Vec<u8>, Status>
    requires { IsCrew (crew_of options.now) }
    ensures { Makes (Command.Compact options.now) bytes.items result }
{
    let image = into_image(alloc, bytes)?;
    let crew = crew_of(options);
    let marks = mark_with(rt, alloc, &image, &crew, gate)?;
    let slid = slide_with(rt, alloc, &image, &marks.live, &crew, gate)?;
    drop(marks);
    drop(image);
    Ok(write_image(alloc, &slid)?)
}
