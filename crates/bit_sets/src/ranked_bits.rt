//! A set with how many of it stand before each 64 numbers.
ghost use Rattle.std.specs.Prelude.{◌≡◌, ◌^◌, ◌<◌, ◌≤◌, false, length, slice_index_or, IfOk};
ghost use Rattle.bit_sets.specs.Rank.{rank};

use crate::bit_set::BitSet;
use std::alloc::{AllocError, Global};
use std::marker::Model;

/// A set of numbers below a length, at most 2^32 - 1, that tells at once how many of them stand below
/// a place. It shows for each number below its length whether it has it.
#[derive(Drop)]
pub struct RankedBits {
    set: BitSet,
    before: Vec<u32>,
}

impl Model for RankedBits {
    ghost use Rattle.std.specs.Prelude.{Bool, List};

    ghost Value = { List Bool };

    ghost use Rattle.bit_sets.specs.RankedModel.{IsCounted};

    ghost view = { λ r. r.set };

    ghost invariant = { IsCounted };
}

impl RankedBits {
    /// Counts the set, whose length is at most 2^32 - 1. It takes memory: 32 bits for each 64 numbers,
    /// and for the rest.
    ///
    /// # Errors
    ///
    /// Want of memory alone; the set is then gone.
    pub fn from_bits(alloc: Global, set: BitSet) -> Result<RankedBits, AllocError>
        requires { length set < 2 ^ 32 }
        ensures { IfOk result (λ ranked. ranked ≡ set) }
    {
        let blocks = set.len() / 64;
        let mut before = Vec::with_capacity(alloc, blocks + 1)?;
        let mut total = 0u32;
        for block in 0..blocks {
            before.push(total)?;
            total += set.block_count(block);
        }
        before.push(total)?;
        Ok(RankedBits { set, before })
    }

    /// Whether the set has the number, which is below the length.
    #[inline]
    pub fn contains(&self, place: usize) -> bool
        requires { place < length self.now }
        ensures { result ≡ slice_index_or self.now place false }
    {
        self.set.contains(place)
    }

    /// How many numbers of the set stand below the place, which is at most the length.
    #[inline]
    pub fn rank(&self, place: usize) -> u32
        requires { place ≤ length self.now }
        ensures { result ≡ rank self.now place }
    {
        self.before[place / 64] + self.set.block_rank(place)
    }

    /// How many numbers the set has in all.
    #[inline]
    pub fn count(&self) -> u32
        ensures { result ≡ rank self.now (length self.now) }
    {
        self.rank(self.set.len())
    }

    /// The set without its counts: its length, and what comes next in it.
    #[inline]
    pub fn bits(&self) -> &BitSet
        ensures { result.now ≡ self.now }
    {
        &self.set
    }
}
