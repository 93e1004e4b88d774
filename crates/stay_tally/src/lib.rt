//! A use of four rooms, each with a word that counts the stays in it.
#![tactic(auto)]

mod crews;
mod stays;
mod uses;

pub use crews::tally;
pub use stays::stay;
pub use uses::{Stays, Tally};

#[cfg(test)]
mod tests;
