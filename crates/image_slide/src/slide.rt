//! Sliding on one thread, and the image that comes of what was moved.
ghost use Rattle.std.specs.Prelude.{◌≡◌, IfOk};
ghost use Rattle.image_core.specs.Live.{MarksLive};
ghost use Rattle.image_slide.specs.Slide.{slide};
ghost use Rattle.image_slide.specs.Moving.{IsMoved};

use crate::moves::{moved_words, new_names};
use crate::places::new_places;
use image_core::Image;
use std::alloc::{AllocError, Global};

/// The marked objects of an image, moved.
#[derive(Drop)]
pub(crate) struct Moved {
    /// Their words, one object after another.
    pub(crate) words: Vec<u64>,
    /// The image's roots, renamed.
    pub(crate) roots: Vec<u64>,
    /// The places of their headers, in order.
    pub(crate) heads: Vec<u32>,
}

/// The image with its live objects alone, in order and without gaps. `live` has a value for each
/// object: whether it is live. The format stays, and a weak word becomes 0 where its object is not live.
///
/// It takes memory for the new image and for the live words' bits and counts, and fails only where memory runs
/// out.
pub fn slide_one(alloc: Global, image: &Image, live: &[bool]) -> Result<Image, AllocError>
    requires { MarksLive image.now live.now }
    ensures { IfOk result (λ slid. slid ≡ slide image.now live.now) }
{
    let moved = moved_one(alloc, image, live)?;
    Image::from_lawful(alloc, image.format(), moved.words, moved.roots, moved.heads)
}

/// Moves the marked objects.
pub(crate) fn moved_one(alloc: Global, image: &Image, marks: &[bool]) -> Result<Moved, AllocError>
    ensures { IfOk result (IsMoved image.now marks.now) }
{
    let format = image.format();
    let words = image.words();
    let heads = image.heads();
    let new = new_places(alloc, format, words, heads, marks)?;
    let ranks = &new.ranks;
    let moved = moved_words(alloc, format, words, heads, marks, ranks, new.size as usize)?;
    let roots = new_names(alloc, image.roots(), ranks)?;
    Ok(Moved {
        words: moved,
        roots,
        heads: new.heads,
    })
}
