//! Bits that are claimed by several threads, each of which is won once.
#![tactic(auto)]

mod claims;
mod closes;
mod plays;
mod rule;
mod seats;
mod set_ups;
mod views;

pub use seats::ClaimSeat;
pub use set_ups::Claims;

#[cfg(test)]
mod tests;
