//! A caller that is inside a room.
ghost use Rattle.std.specs.Prelude.{◌≡◌, ◌<◌, Some};
ghost use Rattle.room_gate.specs.Entering.{IsLetIn};

use atomic_table::Seat;
use room_rule::{RoomUse, Shown};
use std::marker::Model;

/// A caller that is inside. It must be spent: it leaves by `leave`.
pub struct Inside<U: RoomUse> {
    pub(crate) seat: Seat<Option<U::Slot>, Shown<U::View>>,
    pub(crate) who: u32,
    pub(crate) draws: u64,
    pub(crate) limit: u64,
    pub(crate) room: usize,
    pub(crate) ticket: u64,
    pub(crate) first: u64,
    pub(crate) turn: u64,
    pub(crate) to: u64,
}

impl<U: RoomUse> Model for Inside<U> {
    ghost use Rattle.room_gate.specs.Shows.{Insider};

    ghost Value = { Insider U.Slot U.View };

    ghost use Rattle.room_gate.specs.InsideModel.{insider_of, IsInside};

    ghost view = { insider_of };

    ghost invariant = { IsInside U.ROOMS U.meaning };
}

impl<U: RoomUse> Inside<U> {
    /// The room that it is in.
    pub fn room(&self) -> usize
        ensures value { result ≡ self.now.opening.room }
        ensures exists { result < U.ROOMS }
    {
        self.room
    }

    /// Its ticket of that room.
    pub fn ticket(&self) -> u64
        ensures { result ≡ self.now.ticket }
    {
        self.ticket
    }

    /// The turn of the room's opening: openings count from 1.
    pub fn turn(&self) -> u64
        ensures value { result ≡ self.now.opening.turn }
        ensures let_in { IsLetIn U.ROOMS self.now }
    {
        self.turn
    }

    /// The last ticket that the opening let in.
    pub fn to(&self) -> u64
        ensures { result ≡ self.now.opening.to }
    {
        self.to
    }

    /// The turn in its first look at the active word since its draw.
    pub fn first(&self) -> u64
        ensures { self.now.caller.first ≡ Some result }
    {
        self.first
    }
}
