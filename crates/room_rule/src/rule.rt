//! The rule of the table.
ghost use Rattle.std.specs.Prelude.{◌≡◌, ℕ};

use crate::uses::RoomUse;
use crate::views::Shown;
use atomic_table::TableRule;
use std::marker::PhantomData;

/// What a table of rooms is told when it is made.
#[derive(Drop)]
pub struct Plan<U> {
    /// What the rooms are used for.
    pub usage: U,
    /// How many callers there are, at most 64.
    pub callers: u32,
}

/// The rule: words and views show a state that the protocol reaches, and the user words, the slots
/// and the user views are lawful for the gate of that state.
pub struct RoomRule<U> {
    usage: PhantomData<U>,
}

impl<U: RoomUse> TableRule<Option<U::Slot>, Shown<U::View>, Plan<U>> for RoomRule<U> {
    ghost use Rattle.room_rule.specs.Rule.{Ruled};
    ghost use Rattle.room_rule.specs.View.{maker};

    ghost holds = { Ruled U.meaning U.ROOMS };

    ghost first = { λ _. maker U.meaning.starts };
}
