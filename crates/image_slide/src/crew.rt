//! Sliding with a crew.
ghost use Rattle.std.specs.Prelude.{◌≡◌, ◌++◌, ℕ, List, Bool, length, map, All, OnOk, IfOk};
ghost use Rattle.std.specs.List.{flat_map};
ghost use Rattle.room_rule.specs.Use.{IsAt};
ghost use Rattle.bay_core.specs.Times.{times};
ghost use Rattle.image_core.specs.Heap.{Heap};
ghost use Rattle.image_core.specs.Live.{MarksLive};
ghost use Rattle.image_slide.specs.Parts.{IsSlid, AreOnce};
ghost use Rattle.work_pool.specs.Crews.{IsCrew};
ghost use Rattle.image_slide.specs.Slide.{slide};
ghost use Rattle.image_slide.specs.Sliding.{AreOf, Accounts};
ghost use Rattle.image_slide.specs.Moving.{IsMoved};
ghost use Rattle.image_slide.specs.Pieces.{pieces_of};
ghost use Rattle.image_slide.specs.Jobs.{pieces_in};

use crate::jobs::{end_piece, first_piece};
use crate::joins::joined;
use crate::moves::new_names;
use crate::pieces::{Part, pieces_of, slid_piece};
use crate::places::new_places;
use crate::slide::{Moved, slide_one};
use crate::sliders::{Slider, sliders};
use bit_sets::RankedBits;
use image_core::Image;
use std::alloc::{AllocError, Global};
use std::sync::Wait;
use std::thread::Threads;
use work_crew::{Ended, run_crew};
use work_pool::{Crew, Gate, Way};

/// The image with its live objects alone, in order and without gaps, by a crew of workers, each in a
/// thread of its own where one can be made. `live` has a value for each object: whether it is live.
/// The new places are known first. Then the objects are slid in pieces of 256: the workers share
/// ranges of pieces through the queue of one bay, and each piece is slid once. Pieces that spent passes
/// left in the bay are slid after it is closed. A crew of one slides alone. Whatever the crew, the gate and the order of the steps,
/// the answer is that of `slide_one`.
///
/// The gate is asked before each try to take from the bay, by the worker's number. The call waits for
/// the workers. It takes memory for the slid pieces, for the new image and for the live words' bits and counts,
/// and fails only where memory runs out.
pub fn slide_with<R: Threads + Wait + Sync, G: Gate + Sync>(
    rt: &R,
    alloc: Global,
    image: &Image,
    live: &[bool],
    crew: &Crew,
    gate: &G,
) -> Result<Image, AllocError>
    requires marks { MarksLive image.now live.now }
    requires crew { IsCrew crew.now }
    ensures { IfOk result (λ slid. slid ≡ slide image.now live.now) }
{
    if crew.workers == 1 {
        return slide_one(alloc, image, live);
    }
    let moved = moved_with(rt, alloc, image, live, crew, gate)?;
    Image::from_lawful(alloc, image.format(), moved.words, moved.roots, moved.heads)
}

/// Moves the marked objects by a crew.
pub(crate) fn moved_with<R: Threads + Wait + Sync, G: Gate + Sync>(
    rt: &R,
    alloc: Global,
    image: &Image,
    marks: &[bool],
    crew: &Crew,
    gate: &G,
) -> Result<Moved, AllocError>
    requires { IsCrew crew.now }
    ensures { IfOk result (IsMoved image.now marks.now) }
{
    let new = new_places(alloc, image.format(), image.words(), image.heads(), marks)?;
    let ranks = &new.ranks;
    let parts = slid_by(rt, alloc, image, marks, ranks, crew, gate)?;
    let pieces = pieces_of(image.objects()) as usize;
    let words = joined(alloc, parts, pieces, new.size as usize)?;
    let roots = new_names(alloc, image.roots(), ranks)?;
    Ok(Moved {
        words,
        roots,
        heads: new.heads,
    })
}

/// All pieces, each slid once, by a crew.
fn slid_by<R: Threads + Wait + Sync, G: Gate + Sync>(
    rt: &R,
    alloc: Global,
    image: &Image,
    marks: &[bool],
    ranks: &RankedBits,
    crew: &Crew,
    gate: &G,
) -> Result<Vec<Part>, AllocError>
    requires crew { IsCrew crew.now }
    requires ranks { length ranks.now ≡ length image.now.words }
    ensures once { IfOk result (λ parts. AreOnce (pieces_of (length image.now.heads)) (map (λ part. part.piece) parts.items)) }
    ensures slid { IfOk result (λ parts. All (IsSlid image.now marks.now ranks.now) parts.items) }
{
    let works = sliders(alloc, image, marks, ranks, crew.workers)?;
    let Ended { works, left, .. } = run_crew(rt, alloc, crew, Way::Queue, works, gate)?;
    let mut parts = gathered(alloc, works)?;
    slide_left(alloc, image, marks, ranks, left.as_slice(), &mut parts)?;
    Ok(parts)
}

/// The pieces that these workers slid.
fn gathered<'a>(alloc: Global, works: Vec<Slider<'a>>) -> Result<Vec<Part>, AllocError>
    ensures numbers { IfOk result (λ parts. (p : ℕ) → times p (map (λ part. part.piece) parts.items) ≡ times p (flat_map (λ m. m.slid) works.entry.items)) }
    ensures slid { IfOk result (λ parts. (heap : Heap) (marks : List Bool) (ranks : List Bool)
        → AreOf heap marks ranks works.entry.items → All (IsSlid heap marks ranks) parts.items) }
    ensures accounts { IfOk result (λ parts. (i : ℕ) (m : _) → IsAt works.entry.items i m → Accounts m) }
{
    let mut parts = Vec::new(alloc);
    let mut rest = works;
    while let Some(work) = rest.pop() {
        let mut more = work.into_parts();
        parts.append(&mut more)?;
    }
    Ok(parts)
}

/// Slides the pieces of the jobs that were left.
fn slide_left(
    alloc: Global,
    image: &Image,
    marks: &[bool],
    ranks: &RankedBits,
    left: &[u64],
    parts: &mut Vec<Part>,
) -> Result<(), AllocError>
    requires ranks { length ranks.now ≡ length image.now.words }
    requires slid { All (IsSlid image.now marks.now ranks.now) parts.old.items }
    ensures numbers { OnOk result (map (λ part. part.piece) parts.new.items ≡ map (λ part. part.piece) parts.old.items ++ flat_map pieces_in left.now) }
    ensures slid { All (IsSlid image.now marks.now ranks.now) parts.new.items }
{
    for job in left {
        slide_job(alloc, image, marks, ranks, *job, parts)?;
    }
    Ok(())
}

/// Slides the pieces of a job, one after another.
fn slide_job(
    alloc: Global,
    image: &Image,
    marks: &[bool],
    ranks: &RankedBits,
    job: u64,
    parts: &mut Vec<Part>,
) -> Result<(), AllocError>
    requires ranks { length ranks.now ≡ length image.now.words }
    requires slid { All (IsSlid image.now marks.now ranks.now) parts.old.items }
    ensures numbers { OnOk result (map (λ part. part.piece) parts.new.items ≡ map (λ part. part.piece) parts.old.items ++ pieces_in job) }
    ensures slid { All (IsSlid image.now marks.now ranks.now) parts.new.items }
{
    for piece in first_piece(job)..end_piece(job) {
        parts.push(slid_piece(alloc, image, marks, ranks, piece)?)?;
    }
    Ok(())
}
