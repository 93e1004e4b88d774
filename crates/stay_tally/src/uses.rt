//! The use, and its laws.
use room_rule::RoomUse;
use std::collections::LinkedList;

/// Four rooms, with a word for each: how many stays in it were counted.
#[derive(Drop)]
pub struct Tally;

/// What a caller knows. No value of it is made.
pub struct Stays {
    /// How many stays it counted, of each room.
    pub counted: LinkedList<u64>,
    /// The turn of the last one, or 0.
    pub last: u64,
}

impl RoomUse for Tally {
    ghost use Rattle.stay_tally.specs.Tally.{tallied};
    ghost use Rattle.stay_tally.specs.Laws.{tallied_laws};

    type View = Stays;

    type Slot = ();

    ghost ROOMS = { 4 };

    const ROOMS: usize = 4;

    ghost meaning = { tallied };

    ghost laws = { tallied_laws };

    fn words(&self) -> usize {
        4
    }

    fn slots(&self) -> usize {
        0
    }

    fn start(&self, _word: usize, _callers: u32) -> u64 {
        0
    }
}
