//! Sets of numbers, one bit each, and how many of a set stand below a place.
#![tactic(auto)]

mod bit_set;
mod ranked_bits;

pub use bit_set::BitSet;
pub use ranked_bits::RankedBits;

#[cfg(test)]
mod tests;
