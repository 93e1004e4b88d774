//! A set of numbers, one bit each.
ghost use Rattle.std.specs.Prelude.{◌≡◌, ◌+◌, ◌*◌, ◌/◌, ◌<◌, ◌≤◌, ℕ, true, false, not, length, replicate, slice_index_or, slice_set, IfOk, IfSome, IfNone};
ghost use Rattle.bit_sets.specs.Rank.{rank};
ghost use Rattle.bit_sets.specs.Next.{IsNext};
ghost use Rattle.bit_sets.specs.Run.{with_run};

use std::alloc::{AllocError, Global};
use std::marker::Model;

/// A set of numbers below a length, one bit each. It shows for each number below its length whether
/// it has it.
#[derive(Drop)]
pub struct BitSet {
    words: Vec<u64>,
    len: usize,
}

impl Model for BitSet {
    ghost use Rattle.std.specs.Prelude.{Bool, List};

    ghost Value = { List Bool };

    ghost use Rattle.bit_sets.specs.SetModel.{shown, IsWide};

    ghost view = { shown };

    ghost invariant = { IsWide };
}

impl BitSet {
    /// The empty set of numbers below `bits`. It takes memory: a word of 64 bits for each 64 numbers,
    /// and one for the rest.
    ///
    /// # Errors
    ///
    /// Want of memory alone.
    pub fn none(alloc: Global, bits: usize) -> Result<BitSet, AllocError>
        ensures { IfOk result (λ set. set ≡ replicate bits false) }
    {
        let words = vec![in alloc; 0u64; bits / 64 + 1]?;
        Ok(BitSet { words, len: bits })
    }

    /// The length: all numbers of the set are below it.
    #[inline]
    pub fn len(&self) -> usize
        ensures { result ≡ length self.now }
    {
        self.len
    }

    /// Whether the set has the number, which is below the length.
    #[inline]
    pub fn contains(&self, place: usize) -> bool
        requires { place < length self.now }
        ensures { result ≡ slice_index_or self.now place false }
    {
        (self.words[place / 64] >> (place % 64)) & 1 == 1
    }

    /// Puts the number, which is below the length, into the set, and answers whether it was new. The
    /// set is else as it was.
    #[inline]
    pub fn insert(&mut self, place: usize) -> bool
        requires { place < length self.old }
        ensures set { self.new ≡ slice_set self.old place true }
        ensures fresh { result ≡ not (slice_index_or self.old place false) }
    {
        let was = self.words[place / 64];
        self.words[place / 64] = was | (1u64 << (place % 64));
        (was >> (place % 64)) & 1 == 0
    }

    /// Puts the numbers from `from` up to, and not with, `end` into the set: as many as a word has at
    /// once. The set is else as it was.
    #[inline]
    pub fn insert_run(&mut self, from: usize, end: usize)
        requires order { from ≤ end }
        requires within { end ≤ length self.old }
        ensures { self.new ≡ with_run self.old from end }
    {
        let mut at = from;
        while at < end {
            let next = at + (64 - at % 64).min(end - at);
            self.insert_in_word(at, next);
            at = next;
        }
    }

    // Puts the numbers from `from` up to `end`, all of one word, into the set.
    #[inline]
    fn insert_in_word(&mut self, from: usize, end: usize)
        requires some { from < end }
        requires one { end ≤ 64 * (from / 64) + 64 }
        requires within { end ≤ length self.old }
        ensures { self.new ≡ with_run self.old from end }
    {
        let ones = u64::MAX >> (64 - (end - from));
        let was = self.words[from / 64];
        self.words[from / 64] = was | (ones << (from % 64));
    }

    /// The least number of the set that is not below the place, and none where there is none; the
    /// place is at most the length. It looks at 64 numbers at once.
    #[inline]
    pub fn next_from(&self, place: usize) -> Option<usize>
        requires { place ≤ length self.now }
        ensures found { IfSome result (λ next. IsNext self.now place next) }
        ensures none { IfNone result ((k : ℕ) → place ≤ k → slice_index_or self.now k false ≡ false) }
    {
        let len = self.len;
        let mut block = place / 64;
        let mut rest = self.words[block] & (u64::MAX << (place % 64));
        while rest == 0 {
            block += 1;
            if block == self.words.len() {
                return None;
            }
            rest = self.words[block];
        }
        let first = block * 64;
        let bit = rest.trailing_zeros() as usize;
        if bit < len - first {
            Some(first + bit)
        } else {
            None
        }
    }

    // How many numbers of the set stand in a whole block of 64.
    pub(crate) fn block_count(&self, block: usize) -> u32
        requires { 64 * block + 64 ≤ length self.now }
        ensures { rank self.now (64 * block + 64) ≡ rank self.now (64 * block) + result }
    {
        let word = self.words[block];
        word.count_ones()
    }

    // How many numbers of the set stand in the block of the place and below it.
    #[inline]
    pub(crate) fn block_rank(&self, place: usize) -> u32
        requires { place ≤ length self.now }
        ensures { rank self.now place ≡ rank self.now (64 * (place / 64)) + result }
    {
        let below = (1u64 << (place % 64)) - 1;
        (self.words[place / 64] & below).count_ones()
    }
}
