//! The work of one worker: sliding pieces.
ghost use Rattle.std.specs.Prelude.{◌≡◌, ◌+◌, ◌-◌, ◌<◌, ◌≤◌, ◌^◌, length, map, vec_capacity, All, OnOk, OnErr, IfOk};
ghost use Rattle.image_slide.specs.Jobs.{first_of, end_of, IsLater, DoesJob};
ghost use Rattle.image_slide.specs.Parts.{IsSlid};
ghost use Rattle.image_slide.specs.Sliding.{jobs_first, Begins, AreSliders, Accounts, start_of};

use crate::jobs::{end_piece, first_piece, halve, job};
use crate::pieces::{Part, pieces_of, slid_piece};
use crate::starts::Start;
use bit_sets::RankedBits;
use image_core::Image;
use std::alloc::{AllocError, Global};
use std::marker::Model;
use work_crew::Kept;
use work_pool::Work;

// The halves of its jobs came to be given, and the first `at` of them are given. Those that came back
// are kept. What it slid is its own.
#[derive(Drop)]
pub(crate) struct Slider<'a> {
    alloc: Global,
    image: &'a Image,
    marks: &'a [bool],
    ranks: &'a RankedBits,
    whole: bool,
    parts: Vec<Part>,
    came: Vec<u64>,
    at: usize,
    kept: Kept,
    done: Vec<u64>,
}

impl<'a> Model for Slider<'a> {
    ghost use Rattle.image_slide.specs.Sliding.{Sliding};

    ghost Value = { Sliding };

    ghost use Rattle.image_slide.specs.SliderModel.{sliding_of, IsSlider};

    ghost view = { sliding_of };

    ghost invariant = { IsSlider };
}

// Makes room for `more` jobs that may come, for a piece that is slid and for a job that is done.
fn make_room(
    came: &mut Vec<u64>,
    parts: &mut Vec<Part>,
    done: &mut Vec<u64>,
    more: usize,
) -> Result<(), AllocError>
    ensures came { came.new.items ≡ came.old.items }
    ensures parts { parts.new.items ≡ parts.old.items }
    ensures done { done.new.items ≡ done.old.items }
    ensures came_room { OnOk result (length came.new.items + more ≤ vec_capacity came.new) }
    ensures parts_room { OnOk result (length parts.new.items + 1 ≤ vec_capacity parts.new) }
    ensures done_room { OnOk result (length done.new.items + 1 ≤ vec_capacity done.new) }
{
    came.reserve(more)?;
    parts.reserve(1)?;
    done.reserve(1)?;
    Ok(())
}

// Slides a job's first piece, and halves what is left of the job: the halves come to the jobs. There
// is room for both. A number that is no job is done by doing nothing.
fn do_job(
    alloc: Global,
    image: &Image,
    marks: &[bool],
    ranks: &RankedBits,
    job: u64,
    parts: &mut Vec<Part>,
    jobs: &mut Vec<u64>,
) -> Result<(), AllocError>
    requires ranks { length ranks.now ≡ length image.now.words }
    requires slid { All (IsSlid image.now marks.now ranks.now) parts.old.items }
    requires parts_room { length parts.old.items + 1 ≤ vec_capacity parts.old }
    requires jobs_room { length jobs.old.items + (end_of job - first_of job) ≤ vec_capacity jobs.old }
    ensures does { OnOk result (DoesJob job (map (λ part. part.piece) parts.old.items) (map (λ part. part.piece) parts.new.items) jobs.old.items jobs.new.items) }
    ensures failed { OnErr result ((parts.new.items ≡ parts.old.items) × (jobs.new.items ≡ jobs.old.items)) }
    ensures slid { All (IsSlid image.now marks.now ranks.now) parts.new.items }
{
    let first = first_piece(job);
    let end = end_piece(job);
    if first >= end {
        return Ok(());
    }
    let part = slid_piece(alloc, image, marks, ranks, first)?;
    parts.push_reserved(part);
    halve(first, end, jobs);
    Ok(())
}

impl<'a> Work for Slider<'a> {
    type Made = Start;

    ghost stands = { λ s. s.stands };

    ghost leads = { λ s y x. IsLater y x };

    ghost made = { λ s. start_of s };

    fn handle(&mut self, item: u64) -> Result<(), AllocError> {
        let more = end_piece(item).saturating_sub(first_piece(item)) as usize;
        self.kept.widen(self.came.len() - self.at + more)?;
        make_room(&mut self.came, &mut self.parts, &mut self.done, more)?;
        do_job(
            self.alloc,
            self.image,
            self.marks,
            self.ranks,
            item,
            &mut self.parts,
            &mut self.came,
        )?;
        self.done.push_reserved(item);
        Ok(())
    }

    fn give(&mut self) -> Option<u64> {
        if self.at < self.came.len() {
            let item = self.came[self.at];
            self.at += 1;
            Some(item)
        } else {
            None
        }
    }

    fn keep(&mut self, item: u64) {
        self.kept.keep(item);
    }

    fn kept(&mut self) -> Option<u64> {
        self.kept.hand_out()
    }
}

impl<'a> Slider<'a> {
    // The work of a worker on this image, with its marks and the ranks of its live words. It begins with
    // the job of all pieces, or with nothing.
    pub(crate) fn new(
        alloc: Global,
        image: &'a Image,
        marks: &'a [bool],
        ranks: &'a RankedBits,
        whole: bool,
    ) -> Result<Slider<'a>, AllocError>
        requires { length ranks.now ≡ length image.now.words }
        ensures { IfOk result (Begins image.now marks.now ranks.now whole) }
    {
        let came = first_jobs(alloc, image, whole)?;
        Ok(Slider {
            alloc,
            image,
            marks,
            ranks,
            whole,
            parts: Vec::new(alloc),
            came,
            at: 0,
            kept: Kept::new(alloc, 1)?,
            done: Vec::new(alloc),
        })
    }

    // The pieces that it slid.
    pub(crate) fn into_parts(self) -> Vec<Part>
        ensures numbers { map (λ part. part.piece) result.items ≡ self.entry.slid }
        ensures slid { All (IsSlid self.entry.heap self.entry.marks self.entry.ranks) result.items }
        ensures accounts { Accounts self.entry }
    {
        let Slider { parts, .. } = self;
        parts
    }
}

// The job of all pieces, or none.
fn first_jobs(alloc: Global, image: &Image, whole: bool) -> Result<Vec<u64>, AllocError>
    ensures jobs { IfOk result (λ jobs. jobs.items ≡ jobs_first image.now whole) }
    ensures few { length image.now.heads < 2 ^ 32 }
{
    let pieces = pieces_of(image.objects());
    let mut jobs = Vec::new(alloc);
    if whole {
        jobs.push(job(0, pieces))?;
    }
    Ok(jobs)
}

// The work of so many workers, of which the first begins with the job of all pieces.
pub(crate) fn sliders<'a>(
    alloc: Global,
    image: &'a Image,
    marks: &'a [bool],
    ranks: &'a RankedBits,
    workers: u32,
) -> Result<Vec<Slider<'a>>, AllocError>
    requires { length ranks.now ≡ length image.now.words }
    ensures { IfOk result (λ works. AreSliders image.now marks.now ranks.now workers works.items) }
{
    let mut works = Vec::new(alloc);
    for worker in 0..workers {
        works.push(Slider::new(alloc, image, marks, ranks, worker == 0)?)?;
    }
    Ok(works)
}
