//! Where the headers stand, and whose header a word is.
ghost use Rattle.std.specs.Prelude.{ℕ, ◌≡◌, ◌<◌, ◌≤◌, ◌^◌, ◌↔◌, false, length, slice_index_or, IsTrue, IfOk};
ghost use Rattle.image_core.specs.Heap.{Fill, Names};
ghost use Rattle.image_core.specs.Index.{AreHeads};
ghost use Rattle.image_core.specs.Shape.{Target};

use bit_sets::{BitSet, RankedBits};
use std::alloc::{AllocError, Global};
use std::marker::Model;

/// The places of the headers, in order, and for each word whether it is one, and how many stand
/// before it.
#[derive(Drop)]
pub struct HeaderIndex {
    heads: Vec<u32>,
    bits: RankedBits,
}

// Contracts see the places of the headers.
impl Model for HeaderIndex {
    ghost use Rattle.std.specs.Prelude.{List, ℕ};
    ghost use Rattle.image_core.specs.Index.{IsIndex};

    ghost Value = { List ℕ };

    ghost view = { λ i. i.heads.items };

    ghost invariant = { λ i. IsIndex i.heads.items i.bits };
}

impl HeaderIndex {
    /// The index of headers that stand among the words, of whatever format. These are their bits.
    pub fn new(
        alloc: Global,
        words: &[u64],
        heads: Vec<u32>,
        bits: BitSet,
    ) -> Result<HeaderIndex, AllocError>
        requires few { length words.now ≤ 2 ^ 22 }
        requires fill { (format : ℕ) × Fill format words.now heads.items }
        requires long { length bits ≡ length words.now }
        requires bits { AreHeads heads.items bits }
        ensures { IfOk result (λ index. index ≡ heads.items) }
    {
        let bits = RankedBits::from_bits(alloc, bits)?;
        Ok(HeaderIndex { heads, bits })
    }

    /// The index of headers that stand among the words, of whatever format.
    pub fn of_heads(
        alloc: Global,
        words: &[u64],
        heads: Vec<u32>,
    ) -> Result<HeaderIndex, AllocError>
        requires few { length words.now ≤ 2 ^ 22 }
        requires fill { (format : ℕ) × Fill format words.now heads.items }
        ensures { IfOk result (λ index. index ≡ heads.items) }
    {
        let bits = bits_at(alloc, words, heads.as_slice())?;
        HeaderIndex::new(alloc, words, heads, bits)
    }

    /// The places of the headers.
    #[inline]
    pub fn heads(&self) -> &[u32]
        ensures { result.now ≡ self.now }
    {
        self.heads.as_slice()
    }

    /// Whether a word is 0 or names an object.
    #[tactic(auto, using(crate::proofs::Indexing::naming))]
    #[inline]
    pub fn is_name(&self, word: u64) -> bool
        ensures { IsTrue result ↔ Names self.now word }
    {
        word == 0 || has_place(&self.bits, word - 1)
    }

    /// Which object a word names: none where it is 0.
    #[tactic(auto, using(crate::proofs::Indexing::naming))]
    #[inline]
    pub fn target(&self, word: u64) -> Option<u32>
        requires { Names self.now word }
        ensures { Target self.now word result }
    {
        if word == 0 {
            None
        } else {
            Some(self.bits.rank((word - 1) as usize))
        }
    }
}

/// The bits of the words at these places.
fn bits_at(alloc: Global, words: &[u64], heads: &[u32]) -> Result<BitSet, AllocError>
    requires { (format : ℕ) × Fill format words.now heads.now }
    ensures long { IfOk result (λ bits. length bits ≡ length words.now) }
    ensures bits { IfOk result (AreHeads heads.now) }
{
    let mut bits = BitSet::none(alloc, words.len())?;
    for head in heads {
        bits.insert(*head as usize);
    }
    Ok(bits)
}

/// Whether a place has its bit; none past the end has.
#[inline]
fn has_place(bits: &RankedBits, place: u64) -> bool
    ensures { result ≡ slice_index_or bits.now place false }
{
    place < bits.bits().len() as u64 && bits.contains(place as usize)
}
