//! What a trace consists of: items, events and openings.
use crate::words::Touch;

/// One entry of the trace of a run. Turns count from 1, rooms and callers from 0.
#[derive(Clone, Copy, Debug, PartialEq, Eq)]
pub enum Item {
    /// The room opens in this turn to the tickets above `from` and up to `to`.
    Opened {
        turn: u64,
        room: u8,
        from: u64,
        to: u64,
    },
    /// The caller is inside the room from here on.
    Entered {
        caller: u32,
        room: u8,
    },
    /// The caller is inside no longer.
    Left {
        caller: u32,
    },
    /// The room's exit code begins.
    ExitBegun {
        room: u8,
    },
    /// The room's exit code has ended.
    ExitEnded {
        room: u8,
    },
}

/// What one act did: its one step on one word, and what the trace gains by it, `one` before `two`.
#[derive(Clone, Copy, Debug, PartialEq, Eq)]
pub struct Event {
    /// The step on a word.
    pub touch: Touch,
    /// What the trace gains first, if anything.
    pub one: Option<Item>,
    /// What it gains after that, if anything.
    pub two: Option<Item>,
}

/// One opening of a room: in `turn`, to the tickets above `from` and up to `to`.
#[derive(Clone, Copy, Debug, PartialEq, Eq)]
pub struct Opening {
    /// The number of the opening, from 1.
    pub turn: u64,
    /// The room, from 0.
    pub room: u8,
    /// The last ticket of the room that was let in before.
    pub from: u64,
    /// The last ticket that it lets in.
    pub to: u64,
}
