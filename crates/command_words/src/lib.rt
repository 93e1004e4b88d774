//! The words of the command line: which of them name a command, and which command.
#![tactic(auto)]

mod assign;
mod command;
mod naming;
mod parts;
mod texts;
mod values;

pub use command::{Command, Made, Options};
pub use naming::named_command;

#[cfg(test)]
mod tests;
