//! The walk over the words from header to header.
ghost use Rattle.std.specs.Prelude.{ℕ, ◌≡◌, ◌≤◌, ◌^◌, List, length, IfOk, IfErr};
ghost use Rattle.image_core.specs.Heap.{Fill};
ghost use Rattle.image_core.specs.Fault.{HasFault, OnFault};
ghost use Rattle.image_core.specs.Index.{AreHeads};

use crate::fault::{ImageFault, ImageKind, ReadImage};
use crate::header::size;
use bit_sets::BitSet;
use std::alloc::Global;

/// The headers that a walk came to.
#[derive(Drop)]
pub struct Headers {
    /// Their places, in order.
    pub heads: Vec<u32>,
    /// For each word whether it is one.
    pub bits: BitSet,
}

/// The headers of a format, walking from word 0. `Overrun` where an object ends past the last word,
/// whatever the roots are.
pub fn walk(alloc: Global, format: u8, words: &[u64]) -> Result<Headers, ReadImage>
    requires { length words.now ≤ 2 ^ 22 }
    ensures fill { IfOk result (λ found. Fill format words.now found.heads.items) }
    ensures long { IfOk result (λ found. length found.bits ≡ length words.now) }
    ensures bits { IfOk result (λ found. AreHeads found.heads.items found.bits) }
    ensures overrun { (roots : List ℕ) → IfErr result (λ refusal. OnFault refusal (HasFault format words.now roots)) }
{
    let mut heads = Vec::new(alloc);
    let mut bits = BitSet::none(alloc, words.len())?;
    let mut at = 0;
    while at < words.len() {
        let size = size(format, words[at]);
        if size > words.len() - at {
            return Err(ReadImage::Fault(ImageFault::of_word(ImageKind::Overrun, words, at)));
        }
        heads.push(at as u32)?;
        bits.insert(at);
        at += size;
    }
    Ok(Headers { heads, bits })
}
