//! Where a caller stands between two of its acts.

/// Where a caller stands between two of its acts.
///
/// `room`, `k` and `next` are rooms; `ticket` is the caller's ticket of `room`, and 0 for one that
/// opens a room while it leaves another; `first` is the turn in its first load of the active word
/// after its draw; `to` is the last ticket that is let in.
#[derive(Clone, Copy, Debug, PartialEq, Eq)]
pub enum Phase {
    /// Holds no ticket.
    Out,
    /// Is about to load the grant of its room.
    Looking {
        room: u8,
        ticket: u64,
        first: Option<u64>,
    },
    /// Was not let in yet, and is about to load the active word.
    Glancing {
        room: u8,
        ticket: u64,
        first: Option<u64>,
    },
    /// Saw the idle word `idle`, and is about to try to open its room.
    Seizing {
        room: u8,
        ticket: u64,
        first: Option<u64>,
        idle: u64,
    },
    /// Opens its room in `turn`, and is about to load how many tickets were drawn.
    Counting {
        room: u8,
        ticket: u64,
        first: Option<u64>,
        turn: u64,
    },
    /// Opens its room in `turn`, and is about to store the grant.
    Admitting {
        room: u8,
        ticket: u64,
        first: Option<u64>,
        turn: u64,
        to: u64,
    },
    /// Was let in, and is about to load the turn of the open room.
    Turning {
        room: u8,
        ticket: u64,
        first: Option<u64>,
        to: u64,
    },
    /// Is inside the room.
    Inside {
        room: u8,
        ticket: u64,
        first: Option<u64>,
        turn: u64,
        to: u64,
    },
    /// Left last, runs the exit code, and is about to load the wait of the next room.
    Exiting {
        room: u8,
        turn: u64,
    },
    /// Loaded `w` tickets of room `k`, and is about to load its grant.
    Peering {
        room: u8,
        turn: u64,
        k: u8,
        w: u64,
    },
    /// Is about to load the wait of room `k`.
    Scanning {
        room: u8,
        turn: u64,
        k: u8,
    },
    /// Is about to store the active word: for the room `next`, or idle.
    Passing {
        turn: u64,
        next: Option<u8>,
    },
}
