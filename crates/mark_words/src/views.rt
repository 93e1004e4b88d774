//! What a seat of the table knows. No value of it is made by a running program.
use std::collections::LinkedList;

/// The view of one seat.
pub struct Known {
    /// The number of the seat; of the seat that makes the others, how many it has made.
    pub number: u32,
    /// How many seats of the set-up it stands for: 1 for a seat that claims, those still to be made
    /// for the seat that makes them, and those taken in at the close.
    pub parts: u32,
    /// The bits that it won, newest first.
    pub won: LinkedList<u32>,
    /// The bits that it found set, newest first.
    pub found: LinkedList<u32>,
    /// The word that its last claim found, or 0.
    pub old: u64,
    /// A number that leaves at the division by 64 the place in its word of the bit that it looks at.
    pub aim: u32,
}
