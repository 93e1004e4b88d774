//! A caller to copy: marks as a set with its ranks, a bit each in place of a byte.
#![tactic(auto)]

ghost use Rattle.std.specs.Prelude.{◌≡◌, ◌^◌, ◌<◌, length, IfOk};

use bit_sets::{BitSet, RankedBits};
use std::alloc::{AllocError, Global};

/// The marks as a counted set, so that the rank of a place is how many marks before it are true. It
/// takes memory: 3 bits for each 2 marks, and for the rest.
///
/// # Errors
///
/// Want of memory alone.
pub fn counted(alloc: Global, marks: &[bool]) -> Result<RankedBits, AllocError>
    requires { length marks.now < 2 ^ 32 }
    ensures { IfOk result (λ set. set ≡ marks.now) }
{
    let mut set = BitSet::none(alloc, marks.len())?;
    for place in 0..marks.len() {
        if marks[place] {
            set.insert(place);
        }
    }
    RankedBits::from_bits(alloc, set)
}

#[cfg(test)]
mod tests;
