//! A pool of work: items that callers share through a bay, which they put in and take out until the
//! bay is quiet. Before each try to take, a caller asks a gate. A drive does a caller's whole work so:
//! it offers what the work gives, over the stack by handfuls, and has it handle what is kept or taken.
#![tactic(auto)]

mod advances;
mod crews;
mod deeds;
mod drives;
mod driving;
mod gates;
mod handfuls;
mod hands;
mod offers;
mod offers_some;
mod pools;
mod puts;
mod steps;
mod takes;
mod tries;
mod works;

pub use crews::Crew;
pub use deeds::Deed;
pub use drives::Drive;
pub use driving::drive;
pub use gates::{Gate, OpenGate};
pub use handfuls::PutSome;
pub use hands::Hand;
pub use pools::{Pool, Way};
pub use puts::Put;
pub use takes::Taken;
pub use works::Work;
