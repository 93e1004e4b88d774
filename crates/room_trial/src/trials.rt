//! A whole trial.
ghost use Rattle.std.specs.Prelude.{IfOk};
ghost use Rattle.room_script.specs.Trials.{outline_of, IsWithin};
ghost use Rattle.room_trial.specs.Texts.{IsTrialText};

use crate::crews::play;
use crate::histories::merged;
use crate::printing::printed;
use room_script::Trial;
use std::alloc::{AllocError, Global};
use std::sync::Wait;
use std::thread::Threads;
use work_pool::Gate;

/// Has the callers of a trial make the calls of their scripts on one bay, as `play` does, and prints
/// what they did: a line for each entry of their one history, how many lines each caller had answered,
/// and the two lists that the bay closed with, which are those that the history leaves.
///
/// The history is legal and roomed, and each caller's entries are those of its first lines, in
/// order, each once: of all lines for which it had a draw. Before line i of caller c the gate is asked
/// with c and i, both counted from 0.
///
/// It waits for the callers.
///
/// # Errors
///
/// Want of memory alone; calls may have been made then, and the bay may be dropped and not closed.
pub fn trial<R: Threads + Wait + Sync, G: Gate + Sync>(
    rt: &R,
    alloc: Global,
    trial: &Trial,
    gate: &G,
) -> Result<Vec<u8>, AllocError>
    requires { IsWithin (outline_of trial.now) }
    ensures { IfOk result (λ text. IsTrialText (outline_of trial.now) text.items) }
{
    let played = play(rt, alloc, trial, gate)?;
    let history = merged(alloc, &played)?;
    printed(alloc, &trial.scripts, &played, &history)
}
