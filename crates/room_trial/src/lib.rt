//! Trials: callers of one bay that each make the calls of a script, each in a thread of its own, and
//! their one history in print.
#![tactic(auto)]

mod callers;
mod crews;
mod histories;
mod line_calls;
mod printing;
mod trials;

pub use callers::{CallerEnd, trial_caller};
pub use crews::{Played, play};
pub use line_calls::call_line;
pub use trials::trial;

#[cfg(test)]
mod tests;
