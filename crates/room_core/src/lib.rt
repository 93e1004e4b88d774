//! The pure protocol of a room synchronization: one act of one caller is one step on one word.
#![tactic(auto)]

mod acts;
mod items;
mod laws;
mod machine;
mod phases;
mod runs;
mod words;

pub use acts::{Act, Refused};
pub use items::{Event, Item, Opening};
pub use laws::{
    a_trace_reads_backward, every_run_admits_in_order, every_run_exits_once, every_run_is_apart,
    every_run_is_bounded, every_run_is_cyclic, every_run_is_prompt, nobody_is_passed,
    wrong_runs_are_refused,
};
pub use machine::Core;
pub use phases::Phase;
pub use runs::{Ran, RunFault, openings, run};
pub use words::{Touch, Word};

#[cfg(test)]
mod tests;
