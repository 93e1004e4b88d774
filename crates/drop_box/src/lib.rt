//! A drop box: the worked example of a container on rooms.
//!
//! Its callers put one item in and take it out. Who enters the room of putting or of taking goes
//! through a turnstile, and the first of a turn gets the one slot; the others find that they were
//! late. Beside it there is a bell, which anyone rings at any time.
#![tactic(auto)]

mod boxes;
mod closes;
mod exits;
mod plays;
mod puts;
mod rings;
mod takes;
mod uses;
mod visits;

pub use boxes::DropBox;
pub use puts::Put;
pub use takes::Taken;
pub use uses::{BELL, BoxUse, PUT, TAKE, TURNSTILE, Visit};

#[cfg(test)]
mod tests;
