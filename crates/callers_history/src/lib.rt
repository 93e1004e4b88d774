//! A caller to copy: threads over one bay, and the one history that their entries make.
#![tactic(auto)]

ghost use Rattle.std.specs.Prelude.{◌≡◌, IfOk, reverse};
ghost use Rattle.bay_core.specs.Noted.{entries};
ghost use Rattle.room_script.specs.Trials.{Outline, outline_of, IsWithin};
ghost use Rattle.room_trial.specs.Histories.{IsPlayed};
ghost use Rattle.callers_history.specs.OneHistory.{IsHistoryOf};

use bay_core::Entry;
use room_history::{MergeFault, merge};
use room_script::Trial;
use room_trial::{Played, play};
use std::alloc::{AllocError, Global};
use std::sync::Wait;
use std::thread::Threads;
use work_pool::OpenGate;

/// Has the callers of a trial make the calls of their scripts over one bay, each in a thread of its own,
/// and answers the one history of their calls, by turn and rank. It is legal and roomed, and each caller's
/// entries are those of its first lines, in order, each once. It waits for the callers.
///
/// # Errors
///
/// Want of memory alone.
pub fn one_history<R: Threads + Wait + Sync>(
    rt: &R,
    alloc: Global,
    trial: &Trial,
) -> Result<Vec<Entry>, AllocError>
    requires { IsWithin (outline_of trial.now) }
    ensures { IfOk result (λ es. IsHistoryOf (outline_of trial.now) es.items) }
{
    let played = play(rt, alloc, trial, &OpenGate)?;
    let history = merged(alloc, &played)?;
    Ok(history)
}

// The callers' entries in one list.
fn merged(alloc: Global, played: &Played) -> Result<Vec<Entry>, AllocError>
    requires { (o : Outline) × IsPlayed o played.now }
    ensures { IfOk result (λ es. (o : Outline) (is : IsPlayed o played.now) → es.items ≡ reverse (entries is.bay.history)) }
{
    match merge(alloc, &played.entries) {
        Ok(history) => Ok(history),
        Err(MergeFault::Memory) => Err(AllocError),
        Err(MergeFault::Twin { .. }) => unreachable!(),
    }
}

#[cfg(test)]
mod tests;
