//! Texts: lines, parts and numbers, the readers of schedules and trials, and the printer of a run.
#![tactic(auto)]

mod faults;
mod laws;
mod numbers;
mod pieces;
mod printing;
mod schedule_lines;
mod schedules;
mod trial_lines;
mod trials;

pub use faults::ScriptFault;
pub use laws::{each_text_is_judged, each_trial_is_judged};
pub use numbers::number;
pub use pieces::{Piece, lines, parts};
pub use printing::print_run;
pub use schedules::{Schedule, read_schedule};
pub use trials::{Line, Trial, read_trial};

#[cfg(test)]
mod tests;
