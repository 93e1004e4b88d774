//! The words of objects, moved: renamed by the ranks of live words.
ghost use Rattle.std.specs.Prelude.{◌≡◌, ◌+◌, ◌≤◌, ◌^◌, ◌++◌, length, vec_capacity, vec_len, map, sum_by, All, IfOk};
ghost use Rattle.std.specs.List.{flat_map};
ghost use Rattle.image_core.specs.Object.{Fits, size_at, naming_at};
ghost use Rattle.image_slide.specs.Slide.{kept};
ghost use Rattle.image_slide.specs.LiveWords.{AreNames, new_name, moved_by};

use bit_sets::RankedBits;
use image_core::{data, references, size, weak_references};
use std::alloc::{AllocError, Global};

/// How many words the marked ones of these objects have.
pub(crate) fn words_of(format: u8, words: &[u64], heads: &[u32], marks: &[bool]) -> usize
    requires fit { All (Fits format words.now) heads.now }
    requires few { length heads.now ≤ 2 ^ 20 }
    ensures { result ≡ sum_by (size_at format words.now) (kept heads.now marks.now) }
{
    let mut count = 0usize;
    for (head, marked) in heads.iter().zip(marks) {
        if *marked {
            count += size(format, words[*head as usize]);
        }
    }
    count
}

/// The words of the marked ones of these objects, one object after another, renamed by the ranks.
/// `count` is how many they are.
pub(crate) fn moved_words(
    alloc: Global,
    format: u8,
    words: &[u64],
    heads: &[u32],
    marks: &[bool],
    ranks: &RankedBits,
    count: usize,
) -> Result<Vec<u64>, AllocError>
    requires fit { All (Fits format words.now) heads.now }
    requires names { All (λ head. AreNames ranks.now (naming_at format words.now head)) heads.now }
    requires count { sum_by (size_at format words.now) (kept heads.now marks.now) ≤ count }
    ensures { IfOk result (λ moved. moved.items ≡ flat_map (moved_by format words.now ranks.now) (kept heads.now marks.now)) }
{
    let mut out = Vec::with_capacity(alloc, count)?;
    for (head, marked) in heads.iter().zip(marks) {
        if *marked {
            push_moved(format, words, *head as usize, ranks, &mut out);
        }
    }
    Ok(out)
}

/// Appends the words of an object, renamed by the ranks. There is room for them.
fn push_moved(format: u8, words: &[u64], head: usize, ranks: &RankedBits, out: &mut Vec<u64>)
    requires fits { Fits format words.now head }
    requires names { AreNames ranks.now (naming_at format words.now head) }
    requires room { vec_len out.old + size_at format words.now head ≤ vec_capacity out.old }
    ensures items { out.new.items ≡ out.old.items ++ moved_by format words.now ranks.now head }
    ensures capacity { vec_capacity out.new ≡ vec_capacity out.old }
{
    out.push_reserved(words[head]);
    push_names(references(words, head), ranks, out);
    push_names(weak_references(format, words, head), ranks, out);
    push_plain(data(format, words, head), out);
}

/// Appends these words, renamed by the ranks. There is room for them.
#[inline]
fn push_names(names: &[u64], ranks: &RankedBits, out: &mut Vec<u64>)
    requires names { AreNames ranks.now names.now }
    requires room { vec_len out.old + length names.now ≤ vec_capacity out.old }
    ensures items { out.new.items ≡ out.old.items ++ map (new_name ranks.now) names.now }
    ensures capacity { vec_capacity out.new ≡ vec_capacity out.old }
{
    for word in names {
        out.push_reserved(new_name(ranks, *word));
    }
}

/// Appends these words as they are. There is room for them.
#[inline]
fn push_plain(plain: &[u64], out: &mut Vec<u64>)
    requires room { vec_len out.old + length plain.now ≤ vec_capacity out.old }
    ensures items { out.new.items ≡ out.old.items ++ plain.now }
    ensures capacity { vec_capacity out.new ≡ vec_capacity out.old }
{
    for word in plain {
        out.push_reserved(*word);
    }
}

/// These words, renamed by the ranks.
pub(crate) fn new_names(
    alloc: Global,
    words: &[u64],
    ranks: &RankedBits,
) -> Result<Vec<u64>, AllocError>
    requires { AreNames ranks.now words.now }
    ensures { IfOk result (λ names. names.items ≡ map (new_name ranks.now) words.now) }
{
    words
        .iter()
        .map(|word| new_name(ranks, *word))
        .collect(alloc)
}

/// A word that names a live object names it at its new place, the rank of its header; each other word
/// becomes 0.
#[inline]
fn new_name(ranks: &RankedBits, word: u64) -> u64
    requires { word ≤ length ranks.now }
    ensures { result ≡ new_name ranks.now word }
{
    if word == 0 {
        return 0;
    }
    let place = (word - 1) as usize;
    if ranks.contains(place) {
        ranks.rank(place) as u64 + 1
    } else {
        0
    }
}
