//! Callers of a bay, each in a thread of its own, with calls that are made up by rule.
#![tactic(auto)]

mod crews;
mod handfuls;
mod looks;
mod mixes;
mod scripts;
mod timings;
mod watches;

pub use crews::crew;
pub use handfuls::{Turn, timed_handfuls};
pub use looks::{Crowd, timed_looks};
pub use mixes::Mix;
pub use timings::timed;
pub use watches::Watch;

#[cfg(test)]
mod tests;
