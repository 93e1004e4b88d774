//! Rooms over a table of atomic words: drawing a ticket, and entering with it.
#![tactic(auto)]

mod closes;
mod draws;
mod enters;
mod exits;
mod inside;
mod key_steps;
mod keys;
mod leaves;
mod leaving_rows;
mod looks;
mod meets;
mod notes;
mod passes;
mod patience;
mod plays;
mod polls;
mod rooms;
mod rows;
mod slots;
mod touches;
mod user_steps;
mod user_words;
mod waiting;

pub use closes::Final;
pub use draws::Drawn;
pub use enters::Entered;
pub use exits::{ExitCode, NoExit};
pub use inside::Inside;
pub use keys::Key;
pub use leaves::Left;
pub use notes::Note;
pub use passes::Pass;
pub use patience::{Patience, Pauses};
pub use polls::Polled;
pub use rooms::Rooms;
pub use waiting::Waiting;

#[cfg(test)]
mod tests;
