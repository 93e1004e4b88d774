//! Crews beside one thread, on images that are made up: marking and then sliding.
ghost use Rattle.work_pool.specs.Crews.{IsCrew};

use bay_core::Layout;
use halving::{Meeting, crew_of};
use image_core::Image;
use image_mark::{mark_one, mark_with};
use image_reader::make_image;
use image_slide::{slide_one, slide_with};
use std::alloc::{AllocError, Global};
use std::process::Abort;
use std::sync::Wait;
use std::test::Fail;
use std::thread::Threads;
use work_pool::{Crew, Gate, OpenGate};

// Marks and slides the image with the crew, and compares what comes with what one thread makes of it.
fn compacts_alike<R: Threads + Wait + Sync + Abort, G: Gate + Sync>(
    rt: &R,
    alloc: Global,
    image: &Image,
    crew: Crew,
    gate: &G,
) -> Result<(), AllocError>
    requires { IsCrew crew }
{
    let live = mark_one(alloc, image)?;
    let marks = mark_with(rt, alloc, image, &crew, &OpenGate)?;
    assert!(rt; marks.live == live);
    let one = slide_one(alloc, image, &live)?;
    let slid = slide_with(rt, alloc, image, &live, &crew, gate)?;
    assert!(rt; slid.words() == one.words());
    assert!(rt; slid.roots() == one.roots());
    Ok(())
}

#[test]
fn every_crew_makes_what_one_thread_makes(rt: HostRuntime) -> Result<(), Fail> {
    let alloc = rt.alloc();
    let image = make_image(alloc, 100_000, 1)?;
    for workers in [1, 4] {
        for blocks in [1, 64] {
            let crew = crew_of(workers, Layout::Split, blocks, 1 << 24);
            compacts_alike(&rt, alloc, &image, crew, &OpenGate)?;
        }
    }
    let crew = crew_of(4, Layout::Paged, 64, 1 << 24);
    compacts_alike(&rt, alloc, &image, crew, &OpenGate)?;
    Ok(())
}

#[test]
fn spent_passes_leave_work_that_is_done_all_the_same(rt: HostRuntime) -> Result<(), Fail> {
    let alloc = rt.alloc();
    let image = make_image(alloc, 2000, 3)?;
    for layout in [Layout::Split, Layout::Paged] {
        for draws in [1u64, 2] {
            compacts_alike(&rt, alloc, &image, crew_of(4, layout, 2, draws), &OpenGate)?;
        }
    }
    Ok(())
}

#[test]
fn children_and_roots_name_their_objects(rt: HostRuntime) -> Result<(), Fail> {
    let image = make_image(rt.alloc(), 1, 1)?;
    assert_eq!(rt; (image.objects(), image.roots().len()), (1, 1));
    if image.objects() == 1 && image.roots().len() == 1 && image.get(0).refs == 2 {
        assert_eq!(rt; (image.child(0, 0), image.child(0, 1)), (Some(0), Some(0)));
        assert_eq!(rt; image.root(0), Some(0));
    }
    assert_eq!(rt; image.words(), [65538, 1, 1, 4483995].as_slice());
    Ok(())
}

#[test]
fn two_workers_slide_side_by_side(rt: HostRuntime) -> Result<(), Fail> {
    let alloc = rt.alloc();
    let image = make_image(alloc, 100_000, 1)?;
    let gate = Meeting::new();
    let crew = crew_of(2, Layout::Split, 64, 1 << 24);
    compacts_alike(&rt, alloc, &image, crew, &gate)?;
    assert!(rt; gate.met(1));
    Ok(())
}
