//! The tests of words and roots, in their order: the first that fails is told.
ghost use Rattle.std.specs.Prelude.{◌≤◌, ◌^◌, length, All, IfOk, IfErr, IfSome, IfNone};
ghost use Rattle.image_core.specs.Header.{IsFormat};
ghost use Rattle.image_core.specs.Heap.{IsLawful, Fill, Names, EachReferenceNames};
ghost use Rattle.image_core.specs.Fault.{HasFault, OnFault, IsBadReference, IsFirstUnnamed};

use crate::fault::{ImageFault, ImageKind, ReadImage};
use crate::index::HeaderIndex;
use crate::object::naming;
use crate::walk::walk;
use std::alloc::Global;

/// The most objects of an image.
const MOST_OBJECTS: usize = 1 << 20;

/// The headers of words and roots that are lawful in a format; else the first test that fails.
pub fn headers(
    alloc: Global,
    format: u8,
    words: &[u64],
    roots: &[u64],
) -> Result<HeaderIndex, ReadImage>
    requires format { IsFormat format }
    requires words { length words.now ≤ 2 ^ 22 }
    requires roots { length roots.now ≤ 2 ^ 16 }
    ensures lawful { IfOk result
        (λ heads. IsLawful (record { format = format; words = words.now; roots = roots.now; heads = heads })) }
    ensures fault { IfErr result (λ refusal. OnFault refusal (HasFault format words.now roots.now)) }
{
    let found = walk(alloc, format, words)?;
    if found.heads.len() > MOST_OBJECTS {
        let place = found.heads[MOST_OBJECTS] as usize;
        return Err(ReadImage::Fault(ImageFault::of_word(ImageKind::TooManyObjects, words, place)));
    }
    let index = HeaderIndex::new(alloc, words, found.heads, found.bits)?;
    if let Some(place) = first_bad_reference(format, words, &index) {
        return Err(ReadImage::Fault(ImageFault::of_word(ImageKind::BadRef, words, place)));
    }
    if let Some(place) = first_unnamed(roots, &index) {
        return Err(ReadImage::Fault(ImageFault::of_word(ImageKind::BadRoot, roots, place)));
    }
    Ok(index)
}

/// The place of the first reference or weak word that is neither 0 nor names an object.
fn first_bad_reference(format: u8, words: &[u64], index: &HeaderIndex) -> Option<usize>
    requires { Fill format words.now index.now }
    ensures all { IfNone result (EachReferenceNames format words.now index.now) }
    ensures bad { IfSome result (IsBadReference format words.now index.now) }
{
    for head in index.heads() {
        let place = *head as usize;
        if let Some(k) = first_unnamed(naming(format, words, place), index) {
            return Some(place + 1 + k);
        }
    }
    None
}

/// The place of the first of these words that is neither 0 nor names an object.
fn first_unnamed(words: &[u64], index: &HeaderIndex) -> Option<usize>
    ensures all { IfNone result (All (Names index.now) words.now) }
    ensures bad { IfSome result (IsFirstUnnamed words.now index.now) }
{
    for (place, word) in words.iter().enumerate() {
        if !index.is_name(*word) {
            return Some(place);
        }
    }
    None
}
