//! The command `mark`: an image in, or one that is made up, and a summary of it out.
ghost use Rattle.std.specs.Prelude.{◌≡◌, ◌≤◌, ◌^◌, ◌++◌, None, IfOk, IfErr, OnOk, string_bytes, codes};
ghost use Rattle.image_reader.specs.Made.{made};
ghost use Rattle.room_script.specs.Prints.{text_of};
ghost use Rattle.work_pool.specs.Crews.{IsCrew};
ghost use Rattle.rooms_program.specs.Limits.{crew_of};
ghost use Rattle.rooms_program.specs.Runs.{Makes};
ghost use Rattle.rooms_program.specs.Sizes.{IsSummary, named, summary};

use crate::crew::crew_of;
use crate::status::Status;
use command_words::{Command, Made, Options};
use image_core::Image;
use image_mark::mark_with;
use image_reader::{fold, into_image, make_image};
use image_slide::slide_with;
use std::alloc::{AllocError, Global};
use std::fmt::Write;
use std::sync::Wait;
use std::thread::Threads;
use work_pool::{Crew, Gate};

/// The summary of the image that the bytes are, which is the same for each crew. It waits for the
/// crew's workers.
pub fn read_marked<R: Threads + Wait + Sync, G: Gate + Sync>(
    rt: &R,
    alloc: Global,
    options: &Options,
    bytes: Vec<u8>,
    gate: &G,
) -> Result<Vec<u8>, Status>
    requires { IsCrew (crew_of options.now) }
    ensures { Makes (Command.Mark options.now None) bytes.items result }
{
    let image = into_image(alloc, bytes)?;
    Ok(summed(rt, alloc, &image, &crew_of(options), gate)?)
}

/// The summary of an image that is made up. It waits for the crew's workers.
pub fn made_marked<R: Threads + Wait + Sync, G: Gate + Sync>(
    rt: &R,
    alloc: Global,
    options: &Options,
    wanted: Made,
    gate: &G,
) -> Result<Vec<u8>, Status>
    requires crew { IsCrew (crew_of options.now) }
    requires few { wanted.objects ≤ 2 ^ 20 }
    ensures output { IfOk result (λ output. IsSummary (made wanted.objects wanted.seed) output.items) }
    ensures memory { IfErr result (λ why. why ≡ Status.Memory) }
{
    let image = make_image(alloc, wanted.objects, wanted.seed)?;
    Ok(summed(rt, alloc, &image, &crew_of(options), gate)?)
}

/// The summary of an image: how large it is, how many objects are live, and of its slide the words and
/// the fold. It waits for the crew's workers.
fn summed<R: Threads + Wait + Sync, G: Gate + Sync>(
    rt: &R,
    alloc: Global,
    image: &Image,
    crew: &Crew,
    gate: &G,
) -> Result<Vec<u8>, AllocError>
    requires { IsCrew crew.now }
    ensures { IfOk result (λ text. IsSummary image.now text.items) }
{
    let marks = mark_with(rt, alloc, image, crew, gate)?;
    let slid = slide_with(rt, alloc, image, &marks.live, crew, gate)?;
    print_summary(alloc, image, marks.count, &slid)
}

/// The six lines on an image, how many of its objects are live, and its slide.
fn print_summary(
    alloc: Global,
    image: &Image,
    live: u32,
    slid: &Image,
) -> Result<Vec<u8>, AllocError>
    ensures { IfOk result (λ text. text.items ≡ text_of (summary image.now live slid.now)) }
{
    let mut text = String::new(alloc);
    print_number(&mut text, "objects", u64::from(image.objects()))?;
    print_number(&mut text, "live", u64::from(live))?;
    print_number(&mut text, "words", image.words().len() as u64)?;
    print_number(&mut text, "kept", slid.words().len() as u64)?;
    print_number(&mut text, "roots", image.roots().len() as u64)?;
    print_number(&mut text, "fold", fold(slid))?;
    Ok(text.into_bytes())
}

/// Appends a line with a number behind its name.
fn print_number(text: &mut String, name: &str, number: u64) -> Result<(), AllocError>
    ensures { OnOk result (string_bytes text.new ≡ string_bytes text.old ++ (named name.now number ++ codes "\n")) }
{
    writeln!(text, "{name} {number}")
}
