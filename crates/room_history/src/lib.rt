//! The entries of a bay's callers as one history: merged by turn and rank, checked, and printed.
#![tactic(auto)]

mod checking;
mod merging;
mod order;
mod printing;

pub use checking::{CheckFault, check};
pub use merging::{MergeFault, merge};
pub use printing::{print_entries, print_lists, print_state};

#[cfg(test)]
mod tests;
