//! The command `trial`: the text of a trial in, the one history of its callers in print out.
ghost use Rattle.rooms_program.specs.Runs.{Makes};

use crate::schedule::MOST_TEXT;
use crate::status::Status;
use command_words::Command;
use room_script::{ScriptFault, read_trial};
use room_trial::trial;
use std::alloc::Global;
use std::sync::Wait;
use std::thread::Threads;
use work_pool::Gate;

/// What the callers of a trial did on one bay, in print. It waits for the callers.
pub fn tried<R: Threads + Wait + Sync, G: Gate + Sync>(
    rt: &R,
    alloc: Global,
    text: &[u8],
    gate: &G,
) -> Result<Vec<u8>, Status>
    ensures { Makes Command.Trial text.now result }
{
    if text.len() > MOST_TEXT {
        return Err(Status::TooLong);
    }
    let script = match read_trial(alloc, text) {
        Ok(script) => script,
        Err(ScriptFault::Line(line)) => return Err(Status::Script(line)),
        Err(ScriptFault::Memory) => return Err(Status::Memory),
    };
    Ok(trial(rt, alloc, &script, gate)?)
}
