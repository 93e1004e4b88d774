//! Marking on one thread.
ghost use Rattle.std.specs.Prelude.{◌≡◌, ◌+◌, ◌<◌, ◌≤◌, ◌^◌, ◌∷◌, [], length, map, slice_index, slice_index_or, false, All, OnOk, IfOk};
ghost use Rattle.image_core.specs.Live.{MarksLive};
ghost use Rattle.image_core.specs.Object.{refs_at, references_at};
ghost use Rattle.image_mark.specs.Waiting.{MarksNamed};
ghost use Rattle.image_mark.specs.Ahead.{Fills};

use crate::ring::{Next, Ring};
use bit_sets::BitSet;
use image_core::{Image, refs};
use std::alloc::{AllocError, Global};

/// Which objects are live: for each, in the order of their numbers, whether a path of references
/// leads to it from a root. A weak word leads nowhere.
///
/// It waits for nobody, and takes memory: a bit for each word, and places for the objects that wait to
/// be gone through, of which there are never more than objects.
///
/// # Errors
///
/// Want of memory alone.
pub fn mark_one(alloc: Global, image: &Image) -> Result<Vec<bool>, AllocError>
    ensures { IfOk result (λ live. MarksLive image.now live.items) }
{
    let words = image.words();
    let mut marks = BitSet::none(alloc, words.len())?;
    let mut waiting = Vec::new(alloc);
    let mut ring = Ring::new();
    mark_named(image.roots(), &mut marks, &mut waiting)?;
    look_ahead(words, &mut ring, &mut waiting);
    while let Some(next) = ring.take() {
        let named = references_by(words, &next);
        mark_named(named, &mut marks, &mut waiting)?;
        look_ahead(words, &mut ring, &mut waiting);
    }
    let live = marks_at(alloc, &marks, image.heads())?;
    Ok(live)
}

/// Marks the places that words name; each that was not marked waits from now on.
fn mark_named(words: &[u64], marks: &mut BitSet, waiting: &mut Vec<u32>) -> Result<(), AllocError>
    requires few { length marks.old ≤ 2 ^ 22 }
    requires within { All (λ word. word ≤ length marks.old) words.now }
    ensures { OnOk result (MarksNamed words.now marks.old marks.new waiting.old.items waiting.new.items) }
{
    for word in words {
        if *word != 0 {
            mark(*word - 1, marks, waiting)?;
        }
    }
    Ok(())
}

/// Marks a place, which waits from now on if it was not marked.
fn mark(place: u64, marks: &mut BitSet, waiting: &mut Vec<u32>) -> Result<(), AllocError>
    requires few { length marks.old ≤ 2 ^ 22 }
    requires within { place < length marks.old }
    ensures { OnOk result (MarksNamed ((1 + place) ∷ []) marks.old marks.new waiting.old.items waiting.new.items) }
{
    if marks.insert(place as usize) {
        waiting.push(place as u32)?;
    }
    Ok(())
}

/// Takes places from the stack into the ring, each with its header, while there are any and there is
/// room.
fn look_ahead(words: &[u64], ring: &mut Ring, waiting: &mut Vec<u32>)
    requires { All (λ place. place < length words.now) waiting.old.items }
    ensures { Fills words.now ring.old ring.new waiting.old.items waiting.new.items }
{
    while !ring.is_full() {
        let Some(place) = waiting.pop() else { return };
        let header = words[place as usize];
        ring.put(Next { place, header });
    }
}

/// The references of an object, by its header.
#[inline]
fn references_by<'a>(words: &'a [u64], next: &Next) -> &'a [u64]
    requires header { next.now.header ≡ slice_index words.now next.now.place }
    requires fits { next.now.place + refs_at words.now next.now.place < length words.now }
    ensures { result.now ≡ references_at words.now next.now.place }
{
    let from = next.place as usize + 1;
    &words[from..from + refs(next.header) as usize]
}

/// The marks at these places.
fn marks_at(alloc: Global, marks: &BitSet, places: &[u32]) -> Result<Vec<bool>, AllocError>
    requires { All (λ place. place < length marks.now) places.now }
    ensures { IfOk result (λ found. found.items ≡ map (λ place. slice_index_or marks.now place false) places.now) }
{
    let mut found = Vec::with_capacity(alloc, places.len())?;
    for place in places {
        found.push_reserved(marks.contains(*place as usize));
    }
    Ok(found)
}
