//! What stands over rooms, and the one rule that words and views keep, for every use.
#![tactic(auto)]

mod bare;
mod rule;
mod theorems;
mod uses;
mod views;
mod words;

pub use bare::Bare;
pub use rule::{Plan, RoomRule};
pub use theorems::the_table_follows_the_protocol;
pub use uses::{Outcome, RoomUse};
pub use views::{Ended, Role, Shown};
pub use words::{
    ACTIVE_PLACE, code_of, done_place, grant_place, pack, turn_of, user_place, wait_place,
};

#[cfg(test)]
mod tests;
