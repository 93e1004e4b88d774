//! Runs of acts, one after another, and their traces.
ghost use Rattle.std.specs.Prelude.{◌≡◌, ◌<◌, ◌≤◌, ◌++◌, ℕ, length, option_to_list, IfOk, OnOk, Err};
ghost use Rattle.room_core.specs.Runs.{run, start};
ghost use Rattle.room_core.specs.Schedule.{AcceptsFirst, FirstRefused};
ghost use Rattle.room_core.specs.Order.{moments, trace_of};
ghost use Rattle.room_core.specs.Apart.{IsApart};
ghost use Rattle.room_core.specs.ExitOnce.{IsOncePerOpening};
ghost use Rattle.room_core.specs.Openings.{opening_of, opened};
ghost use Rattle.room_core.specs.Admission.{IsAdmission};
ghost use Rattle.room_core.specs.Choice.{IsCyclic};
ghost use Rattle.room_core.specs.Bypass.{IsPrompt};

use crate::acts::{Act, Refused};
use crate::items::{Item, Opening};
use crate::machine::Core;
use std::alloc::{AllocError, Global};

/// A core after a run, and the run's trace: the items of its events in their order.
#[derive(Drop)]
pub struct Ran {
    /// The core after the last act.
    pub core: Core,
    /// The items of the run's events, in their order.
    pub trace: Vec<Item>,
}

/// Why there is no run.
#[derive(Clone, Copy, Debug, PartialEq, Eq)]
pub enum RunFault {
    /// The act with the number `at`, counted from 1, is the first that the core refuses.
    Act { at: u64, why: Refused },
    /// Memory was wanting.
    Memory,
}

impl From<AllocError> for RunFault {
    ghost use Rattle.std.specs.Prelude.{◌≡◌};
    ghost use Rattle.room_core.specs.declared.runs.RunFault.TheVariants.{Memory};

    ghost from_gives = { λ _ e. e ≡ Memory };

    fn from(_: AllocError) -> Self {
        RunFault::Memory
    }
}

/// Runs the acts in their order, each a caller's number and what it does, from the start of 1 to 7
/// rooms and up to 64 callers.
///
/// The time grows with the number of acts alone.
///
/// # Errors
///
/// `RunFault::Act` exactly where the core refuses an act, with the first one; `RunFault::Memory` for
/// want of memory.
pub fn run(alloc: Global, rooms: u8, callers: u32, acts: &[(u64, Act)]) -> Result<Ran, RunFault>
    requires some { 0 < rooms }
    requires few { rooms ≤ 7 }
    requires crowd { callers ≤ 64 }
    ensures accepted { OnOk result (AcceptsFirst rooms callers acts.now (length acts.now)) }
    ensures refused { (at : ℕ) (why : Refused) → result ≡ Err (RunFault.Act at why)
        → FirstRefused rooms callers acts.now at why }
    ensures core { IfOk result (λ ran. ran.core ≡ (run acts.now (start rooms callers)).state) }
    ensures trace { IfOk result (λ ran.
        ran.trace.items ≡ trace_of (moments rooms callers acts.now)) }

    // No two rooms are occupied at once, and the exit code of a room runs alone, once for each of
    // its openings.
    ensures apart { IfOk result (λ ran. IsApart ran.trace.items) }
    ensures exit_once { IfOk result (λ ran. IsOncePerOpening ran.trace.items) }

    // Tickets are let in in their order, the next room is chosen in cyclic order, and no ticket is
    // passed by for more than a round.
    ensures admission { OnOk result (IsAdmission (moments rooms callers acts.now)) }
    ensures cyclic { OnOk result (IsCyclic rooms (moments rooms callers acts.now)) }
    ensures prompt { OnOk result (IsPrompt rooms (moments rooms callers acts.now)) }
{
    let mut core = Core::new(alloc, rooms, callers)?;
    let mut trace = Vec::new(alloc);
    for (i, (caller, act)) in acts.iter().enumerate() {
        match core.step(*caller, *act) {
            Ok(event) => {
                push_item(&mut trace, event.one)?;
                push_item(&mut trace, event.two)?;
            }
            Err(why) => return Err(RunFault::Act {
                at: i as u64 + 1,
                why,
            }),
        }
    }
    Ok(Ran { core, trace })
}

fn push_item(trace: &mut Vec<Item>, item: Option<Item>) -> Result<(), AllocError>
    ensures { OnOk result (trace.new.items ≡ trace.old.items ++ option_to_list item) }
{
    if let Some(item) = item {
        trace.push(item)?;
    }
    Ok(())
}

/// The openings of a trace, in their order.
///
/// # Errors
///
/// Want of memory alone.
pub fn openings(alloc: Global, trace: &[Item]) -> Result<Vec<Opening>, AllocError>
    ensures { IfOk result (λ openings. openings.items ≡ opened trace.now) }
{
    trace.iter().filter_map(|item| opening(item)).collect(alloc)
}

fn opening(item: &Item) -> Option<Opening>
    ensures { result ≡ opening_of item.now }
{
    match *item {
        Item::Opened {
            turn,
            room,
            from,
            to,
        } => Some(Opening {
            turn,
            room,
            from,
            to,
        }),
        _ => None,
    }
}
