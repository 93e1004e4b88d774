//! What crews are tested with: a work to copy, crews by their numbers, and a gate at which two workers meet.
//!
//! [`Twice`] is a `Work` of work_pool in its shortest form: each item above 0 leads twice to the one below
//! it. It has the items that came to be given, how many of them are given, those that came back (`Kept` of
//! work_crew) and those handled. Of one item n come 2^(n+1) - 1, so a crew that loses or doubles an item is
//! seen by one number.
#![tactic(auto)]

mod crews;
mod meeting;
mod twice;
mod works;

pub use crews::crew_of;
pub use meeting::Meeting;
pub use twice::Twice;
pub use works::works_of;

#[cfg(test)]
mod tests;
