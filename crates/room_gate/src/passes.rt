//! A caller that holds no ticket.
ghost use Rattle.std.specs.Prelude.{◌≡◌, ◌^◌, ◌≤◌};

use atomic_table::Seat;
use room_rule::{RoomUse, Shown};
use std::marker::Model;

/// The right of one caller to draw. It may be dropped; its rooms can then not be closed.
#[derive(Drop)]
pub struct Pass<U: RoomUse> {
    pub(crate) seat: Seat<Option<U::Slot>, Shown<U::View>>,
    pub(crate) who: u32,
    pub(crate) draws: u64,
    pub(crate) limit: u64,
}

impl<U: RoomUse> Model for Pass<U> {
    ghost use Rattle.room_gate.specs.Shows.{Caller};

    ghost Value = { Caller U.View };

    ghost use Rattle.room_gate.specs.PassModel.{caller_of, IsOut};

    ghost view = { caller_of };

    ghost invariant = { IsOut };
}

impl<U: RoomUse> Pass<U> {
    /// The caller's number: the passes of a set-up have 0, 1, 2 and so on.
    pub fn who(&self) -> u32
        ensures { result ≡ self.now.who }
    {
        self.who
    }

    /// How many draws it has made.
    pub fn draws(&self) -> u64
        ensures value { result ≡ self.now.draws }
        ensures limited { result ≤ self.now.limit }
    {
        self.draws
    }

    /// How many draws it may make, chosen at the set-up.
    pub fn limit(&self) -> u64
        ensures value { result ≡ self.now.limit }
        ensures small { result ≤ 2 ^ 48 }
    {
        self.limit
    }
}
