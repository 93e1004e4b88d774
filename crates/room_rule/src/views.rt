//! What a seat at the table knows. No value of these types is made by a running program.
use room_core::{Opening, Phase};
use std::collections::LinkedList;

/// Whose seat it is.
pub enum Role {
    /// The one that makes the passes.
    Maker,
    /// A caller's.
    Pass,
    /// A note's, which shows openings alone.
    Note,
    /// The one that takes in the passes at the close.
    Keeper,
    /// One that was joined to another.
    Gone,
}

/// A caller whose pass was joined away, with its last user view.
pub struct Ended<W> {
    /// The caller's number.
    pub who: u32,
    /// Its last user view.
    pub user: W,
}

/// The view of one seat.
pub struct Shown<W> {
    /// Whose seat it is.
    pub role: Role,
    /// A caller's number; of the maker, how many passes it has made.
    pub who: u32,
    /// A caller's phase.
    pub phase: Phase,
    /// How many draws a caller has made.
    pub draws: u64,
    /// A caller's user view.
    pub user: W,
    /// The openings that it has seen: the first part of the one list of openings.
    pub seen: LinkedList<Opening>,
    /// The openings that it knows of: those seen before its last draw, and those of the notes
    /// that it learned since.
    pub known: LinkedList<Opening>,
    /// The turn in its first load of the active word after its last draw.
    pub first: Option<u64>,
    /// The word that its last load of a grant since its last draw gave, or 0.
    pub grant: u64,
    /// The word that its last load of the active word since its last draw gave, or 0.
    pub active: u64,
    /// The word that its exchange on the active word found, if it made one since its last load
    /// of a grant.
    pub found: Option<u64>,
    /// The old value of its last add on a count of departures, or 0.
    pub done: u64,
    /// How many loads of the active word it has made.
    pub loads: u64,
    /// Of the key's holder: the user words, as they stand but for touch words.
    pub kept: LinkedList<u64>,
    /// Of the keeper at the close: the callers whose passes it took in.
    pub ended: LinkedList<Ended<W>>,
}
