//! The rule of the table.
ghost use Rattle.mark_words.specs.Rule.{Ruled};
ghost use Rattle.mark_words.specs.View.{maker};

use crate::views::Known;
use atomic_table::TableRule;

/// What a table of claims is told when it is made.
#[derive(Drop)]
pub struct Plan {
    /// How many bits there are, at most 2^20.
    pub bits: u32,
    /// How many seats there are, 1 to 17.
    pub seats: u32,
}

/// The rule: the bits are exactly the wins of all seats, and each was won once.
pub struct ClaimRule;

impl<S> TableRule<S, Known, Plan> for ClaimRule {
    ghost holds = { Ruled };

    ghost first = { maker };
}
