//! Sliding with crews.
ghost use Rattle.work_pool.specs.Crews.{IsCrew};

use crate::crew::moved_with;
use crate::slide::moved_one;
use crate::{slide_one, slide_with};
use bay_core::Layout;
use halving::{Meeting, crew_of};
use image_core::Image;
use image_reader::make_image;
use std::alloc::{AllocError, Global};
use std::process::Abort;
use std::sync::Wait;
use std::test::Fail;
use std::thread::Threads;
use work_pool::{Crew, Gate, OpenGate};

// Marks by which each third object goes.
fn two_of_three(alloc: Global, objects: u32) -> Result<Vec<bool>, AllocError> {
    let mut marks = Vec::new(alloc);
    for object in 0..objects {
        marks.push(object % 3 != 0)?;
    }
    Ok(marks)
}

// Moves marked objects by a crew, and compares what comes with what one thread makes of them.
fn moves_alike<R: Threads + Wait + Sync + Abort, G: Gate + Sync>(
    rt: &R,
    alloc: Global,
    image: &Image,
    crew: Crew,
    gate: &G,
) -> Result<(), AllocError>
    requires { IsCrew crew }
{
    let marks = two_of_three(alloc, image.objects())?;
    let one = moved_one(alloc, image, &marks)?;
    let moved = moved_with(rt, alloc, image, &marks, &crew, gate)?;
    assert!(rt; moved.words == one.words);
    assert!(rt; moved.roots == one.roots);
    assert!(rt; moved.heads == one.heads);
    Ok(())
}

#[test]
fn every_crew_moves_what_one_thread_moves(rt: HostRuntime) -> Result<(), Fail> {
    let alloc = rt.alloc();
    let image = make_image(alloc, 100_000, 1)?;
    moves_alike(
        &rt,
        alloc,
        &image,
        crew_of(1, Layout::Split, 1, 1 << 24),
        &OpenGate,
    )?;
    moves_alike(
        &rt,
        alloc,
        &image,
        crew_of(1, Layout::Split, 64, 1 << 24),
        &OpenGate,
    )?;
    moves_alike(
        &rt,
        alloc,
        &image,
        crew_of(4, Layout::Split, 1, 1 << 24),
        &OpenGate,
    )?;
    moves_alike(
        &rt,
        alloc,
        &image,
        crew_of(4, Layout::Split, 64, 1 << 24),
        &OpenGate,
    )?;
    Ok(())
}

#[test]
fn spent_passes_leave_pieces_that_are_moved_all_the_same(rt: HostRuntime) -> Result<(), Fail> {
    let alloc = rt.alloc();
    let image = make_image(alloc, 2000, 3)?;
    moves_alike(
        &rt,
        alloc,
        &image,
        crew_of(4, Layout::Split, 2, 1),
        &OpenGate,
    )?;
    moves_alike(
        &rt,
        alloc,
        &image,
        crew_of(4, Layout::Split, 2, 2),
        &OpenGate,
    )?;
    moves_alike(
        &rt,
        alloc,
        &image,
        crew_of(16, Layout::Split, 1, 5),
        &OpenGate,
    )?;
    Ok(())
}

#[test]
fn an_image_without_objects_keeps_its_format_and_its_null_roots(
    rt: HostRuntime,
) -> Result<(), Fail> {
    let alloc = rt.alloc();
    let roots = vec![in alloc; 0u64, 0]?;
    let image = Image::lawful(alloc, 2, Vec::new(alloc), roots)?;
    assert_eq!(rt; image.objects(), 0);
    let one = slide_one(alloc, &image, &[])?;
    assert!(rt; one.words().is_empty() && one.format() == 2);
    assert_eq!(rt; one.roots(), [0, 0].as_slice());
    let crew = crew_of(2, Layout::Split, 64, 1 << 24);
    let slid = slide_with(&rt, alloc, &image, &[], &crew, &OpenGate)?;
    assert!(rt; slid.words().is_empty() && slid.format() == 2);
    assert_eq!(rt; slid.roots(), [0, 0].as_slice());
    Ok(())
}

#[test]
fn two_workers_are_under_way_together(rt: HostRuntime) -> Result<(), Fail> {
    let alloc = rt.alloc();
    let image = make_image(alloc, 100_000, 1)?;
    let gate = Meeting::new();
    moves_alike(
        &rt,
        alloc,
        &image,
        crew_of(2, Layout::Split, 64, 1 << 24),
        &gate,
    )?;
    assert!(rt; gate.met(1));
    Ok(())
}
