//! Pieces put together, in the order of their numbers.
ghost use Rattle.std.specs.Prelude.{◌≡◌, ℕ, List, map, vec_len, IfOk};
ghost use Rattle.std.specs.List.{flat_map, range_with_len};
ghost use Rattle.image_slide.specs.Parts.{HaveWords, AreOnce};

use crate::pieces::Part;
use std::alloc::{AllocError, Global};

/// The words of so many pieces, one piece after another. Each piece is there once. `count` is how many
/// words they have.
pub(crate) fn joined(
    alloc: Global,
    parts: Vec<Part>,
    pieces: usize,
    count: usize,
) -> Result<Vec<u64>, AllocError>
    requires { AreOnce pieces (map (λ part. part.piece) parts.items) }
    ensures { IfOk result (λ words. (words_of : ℕ → List ℕ) → HaveWords words_of parts.items
        → words.items ≡ flat_map words_of (range_with_len 0 pieces)) }
{
    let places = in_places(alloc, parts, pieces)?;
    let mut words = Vec::with_capacity(alloc, count)?;
    for place in places.as_slice() {
        words.extend_from_slice(place)?;
    }
    Ok(words)
}

/// The words of each piece, at the place of its number.
fn in_places(alloc: Global, parts: Vec<Part>, pieces: usize) -> Result<Vec<Vec<u64>>, AllocError>
    requires { AreOnce pieces (map (λ part. part.piece) parts.items) }
    ensures { IfOk result (λ places. (words_of : ℕ → List ℕ) → HaveWords words_of parts.items
        → map (λ place. place.items) places.items ≡ map words_of (range_with_len 0 pieces)) }
{
    let mut places = no_words(alloc, pieces)?;
    let mut rest = parts;
    while let Some(part) = rest.pop() {
        places[part.piece as usize] = part.words;
    }
    Ok(places)
}

/// So many places without words.
fn no_words(alloc: Global, pieces: usize) -> Result<Vec<Vec<u64>>, AllocError>
    ensures { IfOk result (λ places. vec_len places ≡ pieces) }
{
    let mut places = Vec::with_capacity(alloc, pieces)?;
    for _ in 0..pieces {
        places.push(Vec::new(alloc))?;
    }
    Ok(places)
}
