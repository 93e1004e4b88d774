//! A caller that waits for a room.
ghost use Rattle.std.specs.Prelude.{◌≡◌, ◌<◌};
ghost use Rattle.room_core.specs.declared.phases.Phase.TheVariants as phases;

use atomic_table::Seat;
use room_rule::{RoomUse, Shown};
use std::marker::Model;

/// A caller that drew a ticket and is not inside yet. It must be spent: it enters by `poll`.
pub struct Waiting<U: RoomUse> {
    pub(crate) seat: Seat<Option<U::Slot>, Shown<U::View>>,
    pub(crate) who: u32,
    pub(crate) draws: u64,
    pub(crate) limit: u64,
    pub(crate) room: usize,
    pub(crate) ticket: u64,
    pub(crate) first: Option<u64>,
    pub(crate) grant: u64,
    pub(crate) active: u64,
    pub(crate) found: Option<u64>,
}

impl<U: RoomUse> Model for Waiting<U> {
    ghost use Rattle.room_gate.specs.Shows.{Waiter};

    ghost Value = { Waiter U.View };

    ghost use Rattle.room_gate.specs.WaitingModel.{waiter_of, IsWaiting};

    ghost view = { waiter_of };

    ghost invariant = { IsWaiting U.ROOMS };
}

impl<U: RoomUse> Waiting<U> {
    /// The room that it waits for.
    pub fn room(&self) -> usize
        ensures value { result ≡ self.now.room }
        ensures exists { result < U.ROOMS }
        ensures phase { self.now.phase ≡ phases.Looking self.now.room self.now.ticket self.now.caller.first }
    {
        self.room
    }

    /// Its ticket of that room; the first is 1.
    pub fn ticket(&self) -> u64
        ensures { result ≡ self.now.ticket }
    {
        self.ticket
    }

    /// The turn in its first look at the active word since its draw, if it has looked.
    pub fn first(&self) -> Option<u64>
        ensures { result ≡ self.now.caller.first }
    {
        self.first
    }

    /// The last ticket let in, as its last poll loaded it; 0 before any poll.
    pub fn grant(&self) -> u64
        ensures { result ≡ self.now.grant }
    {
        self.grant
    }

    /// The active word, as its last poll loaded it; 0 before any poll.
    pub fn active(&self) -> u64
        ensures { result ≡ self.now.active }
    {
        self.active
    }

    /// The word that the exchange of its last poll found, if that poll made one.
    pub fn found(&self) -> Option<u64>
        ensures { result ≡ self.now.found }
    {
        self.found
    }
}
