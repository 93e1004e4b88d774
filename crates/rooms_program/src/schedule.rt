//! The command `schedule`: the text of a schedule in, its run in print out.
ghost use Rattle.rooms_program.specs.Runs.{Makes};

use crate::status::Status;
use command_words::Command;
use room_core::{RunFault, run};
use room_script::{ScriptFault, print_run, read_schedule};
use std::alloc::Global;

/// The most bytes of a text.
pub const MOST_TEXT: usize = 1_048_576;

/// The run of the protocol on the acts of a schedule, in print.
pub fn scheduled(alloc: Global, text: &[u8]) -> Result<Vec<u8>, Status>
    ensures { Makes Command.Schedule text.now result }
{
    if text.len() > MOST_TEXT {
        return Err(Status::TooLong);
    }
    let schedule = match read_schedule(alloc, text) {
        Ok(schedule) => schedule,
        Err(ScriptFault::Line(line)) => return Err(Status::Script(line)),
        Err(ScriptFault::Memory) => return Err(Status::Memory),
    };
    let ran = match run(alloc, schedule.rooms, schedule.callers, &schedule.acts) {
        Ok(ran) => ran,
        Err(RunFault::Act { at, why }) => return Err(Status::Act(at, why)),
        Err(RunFault::Memory) => return Err(Status::Memory),
    };
    Ok(print_run(alloc, &ran)?)
}
