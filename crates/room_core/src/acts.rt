//! What a caller does, and why the core refuses it.

/// What a caller does next.
#[derive(Clone, Copy, Debug, PartialEq, Eq)]
pub enum Act {
    /// Draws a ticket of the room with this number.
    Draw(u64),
    /// Makes the one step that its phase has.
    Step,
    /// Leaves the room that it is inside.
    Leave,
}

/// Why the core refuses an act, in the order in which the reasons are tested.
#[derive(Clone, Copy, Debug, PartialEq, Eq)]
pub enum Refused {
    /// There is no caller with this number.
    NoCaller = 1,
    /// The draw names no room.
    NoRoom = 2,
    /// The draw comes from a caller that is not out.
    NotFree = 3,
    /// The caller that is to leave is not inside.
    NotIn = 4,
    /// The step comes from a caller that is out or inside, where there is none.
    Stuck = 5,
    /// The caller has made all the draws that it may make, which are 2^48.
    Spent = 6,
}
