//! The key of a turn: who left last has it, and nobody is inside.
ghost use Rattle.std.specs.Prelude.{◌≡◌, ◌<◌, ◌≤◌, ◌^◌};

use atomic_table::Seat;
use room_rule::{RoomUse, Shown};
use std::marker::Model;

/// The right of the caller that left last to run the exit code of its turn. It must be given up by
/// `finish`.
pub struct Key<U: RoomUse> {
    pub(crate) seat: Seat<Option<U::Slot>, Shown<U::View>>,
    pub(crate) who: u32,
    pub(crate) draws: u64,
    pub(crate) limit: u64,
    pub(crate) room: usize,
    pub(crate) turn: u64,
}

impl<U: RoomUse> Model for Key<U> {
    ghost use Rattle.room_gate.specs.Shows.{KeyHolder};

    ghost Value = { KeyHolder U.View };

    ghost use Rattle.room_gate.specs.KeyModel.{holder_of, IsKey};

    ghost view = { holder_of };

    ghost invariant = { IsKey U.ROOMS };
}

impl<U: RoomUse> Key<U> {
    /// The room that was left.
    pub fn room(&self) -> usize
        ensures value { result ≡ self.now.opening.room }
        ensures exists { result < U.ROOMS }
    {
        self.room
    }

    /// The turn that ends with it.
    pub fn turn(&self) -> u64
        ensures value { result ≡ self.now.opening.turn }
        ensures small { result ≤ 2 ^ 54 }
    {
        self.turn
    }
}
