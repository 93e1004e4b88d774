//! What a drop box is over rooms: its words, its slot, and what they mean.
use room_rule::RoomUse;
use std::marker::PhantomData;

/// The room of those who put an item in.
pub const PUT: usize = 0;

/// The room of those who take one out.
pub const TAKE: usize = 1;

/// The word that counts who went through the turnstile in this turn.
pub const TURNSTILE: usize = 0;

/// The word that counts how often the bell was rung.
pub const BELL: usize = 1;

/// Two rooms, a turnstile, a bell, and one slot for an item.
#[derive(Drop)]
pub struct BoxUse<T> {
    item: PhantomData<T>,
}

impl<T> BoxUse<T> {
    /// The use, which holds nothing itself.
    pub fn new() -> BoxUse<T> {
        BoxUse { item: PhantomData }
    }
}

/// What a caller's view holds. No value of it is made.
pub struct Visit {
    /// The turn in which it last went through the turnstile, or 0.
    pub last: u64,
    /// Whether it keeps the slot.
    pub keeps: bool,
    /// How often it rang the bell.
    pub rings: u64,
}

impl<T: Drop> RoomUse for BoxUse<T> {
    ghost use Rattle.drop_box.specs.Box.{box_meaning};
    ghost use Rattle.drop_box.specs.Laws.{box_laws};

    type View = Visit;

    type Slot = T;

    ghost ROOMS = { 2 };

    const ROOMS: usize = 2;

    ghost meaning = { box_meaning };

    ghost laws = { box_laws };

    fn words(&self) -> usize {
        2
    }

    fn slots(&self) -> usize {
        1
    }

    fn start(&self, _word: usize, _callers: u32) -> u64 {
        0
    }
}
