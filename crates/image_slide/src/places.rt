//! Where marked objects go when they are slid.
ghost use Rattle.std.specs.Prelude.{◌≤◌, ◌^◌, length, IfOk};
ghost use Rattle.image_slide.specs.Slide.{kept};
ghost use Rattle.image_slide.specs.LiveWords.{InOrder, AreNewPlaces};

use bit_sets::{BitSet, RankedBits};
use image_core::size;
use std::alloc::{AllocError, Global};

/// Where the marked objects go.
#[derive(Drop)]
pub(crate) struct NewPlaces {
    /// For each word whether it is of a marked object, and how many such words stand before it: that
    /// is its new place.
    pub(crate) ranks: RankedBits,
    /// The new places of the marked objects, in order.
    pub(crate) heads: Vec<u32>,
    /// How many words the marked objects have.
    pub(crate) size: u32,
}

/// Where the marked ones of these objects go.
pub(crate) fn new_places(
    alloc: Global,
    format: u8,
    words: &[u64],
    heads: &[u32],
    marks: &[bool],
) -> Result<NewPlaces, AllocError>
    requires few { length words.now ≤ 2 ^ 22 }
    requires order { InOrder format words.now 0 (kept heads.now marks.now) }
    ensures { IfOk result (AreNewPlaces format words.now (kept heads.now marks.now)) }
{
    let mut live = BitSet::none(alloc, words.len())?;
    let mut places = Vec::with_capacity(alloc, heads.len())?;
    let mut next = 0u32;
    for (head, marked) in heads.iter().zip(marks) {
        if *marked {
            let at = *head as usize;
            let size = size(format, words[at]);
            live.insert_run(at, at + size);
            places.push_reserved(next);
            next += size as u32;
        }
    }
    Ok(NewPlaces {
        ranks: RankedBits::from_bits(alloc, live)?,
        heads: places,
        size: next,
    })
}
