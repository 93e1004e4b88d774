//! Rooms alone.
use crate::uses::RoomUse;

/// Four rooms, with no words and no slots.
#[derive(Drop)]
pub struct Bare;

impl RoomUse for Bare {
    ghost use Rattle.room_rule.specs.Plainly.{plain, plain_laws};

    type View = ();

    type Slot = ();

    ghost ROOMS = { 4 };

    const ROOMS: usize = 4;

    ghost meaning = { plain tt };

    ghost laws = { plain_laws tt };

    fn words(&self) -> usize {
        0
    }

    fn slots(&self) -> usize {
        0
    }

    fn start(&self, _word: usize, _callers: u32) -> u64 {
        0
    }
}
