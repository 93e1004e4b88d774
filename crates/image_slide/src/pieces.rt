//! Pieces of an image, which are slid one by one.
ghost use Rattle.std.specs.Prelude.{◌≡◌, ◌<◌, ◌^◌, List, Bool, length, IfOk};
ghost use Rattle.std.specs.List.{flat_map, range_with_len};
ghost use Rattle.image_core.specs.Heap.{Heap};
ghost use Rattle.image_slide.specs.Slide.{slide};
ghost use Rattle.image_slide.specs.Pieces.{pieces_of, in_piece, piece_words};
ghost use Rattle.image_slide.specs.Parts.{IsSlid};

use crate::moves::{moved_words, words_of};
use bit_sets::RankedBits;
use image_core::Image;
use std::alloc::{AllocError, Global};

/// How many objects a piece has, the last one perhaps fewer.
const PIECE: usize = 256;

/// A piece that was slid.
#[derive(Drop)]
pub(crate) struct Part {
    /// Its number.
    pub(crate) piece: u64,
    /// The words of its live objects, moved.
    pub(crate) words: Vec<u64>,
}

/// How many pieces so many objects have.
pub(crate) fn pieces_of(objects: u32) -> u64
    ensures value { result ≡ pieces_of objects }
    ensures small { result < 2 ^ 32 }
{
    (objects as u64 + 255) / 256
}

/// Of a list with something for each object, what is of a piece.
fn in_piece<T>(xs: &[T], piece: u64) -> &[T]
    requires { piece < 2 ^ 32 }
    ensures { result.now ≡ in_piece piece xs.now }
{
    let from = piece as usize * PIECE;
    let first = from.min(xs.len());
    let end = (from + PIECE).min(xs.len());
    &xs[first..end]
}

/// The words of a slide are those of its pieces, in the order of their numbers.
pub fn slid_in_pieces()
    ensures { (heap : Heap) (marks : List Bool) → (slide heap marks).words
        ≡ flat_map (piece_words heap marks) (range_with_len 0 (pieces_of (length heap.heads))) }
{}

/// Slides a piece.
pub(crate) fn slid_piece(
    alloc: Global,
    image: &Image,
    marks: &[bool],
    ranks: &RankedBits,
    piece: u64,
) -> Result<Part, AllocError>
    requires small { piece < 2 ^ 32 }
    requires ranks { length ranks.now ≡ length image.now.words }
    ensures number { IfOk result (λ part. part.piece ≡ piece) }
    ensures slid { IfOk result (IsSlid image.now marks.now ranks.now) }
{
    let format = image.format();
    let words = image.words();
    let heads = in_piece(image.heads(), piece);
    let marks = in_piece(marks, piece);
    let count = words_of(format, words, heads, marks);
    let words = moved_words(alloc, format, words, heads, marks, ranks, count)?;
    Ok(Part { piece, words })
}
