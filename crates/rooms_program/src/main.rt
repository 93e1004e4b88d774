//! The program: its words name a command, which reads standard input and writes standard output. The
//! workers of `compact` and `mark` and the callers of a trial are held by nobody.
#![tactic(auto)]

mod check;
mod compact;
mod crew;
mod make;
mod mark;
mod notes;
mod perform;
mod run;
mod schedule;
mod status;
mod trial;

use notes::give_note;
use room_io::{StdSink, StdSource};
pub use room_trial::{CallerEnd, trial_caller};
pub use run::{check_run, make_run, run, schedule_run};
pub use status::Status;
use std::alloc::AllocError;
use std::io::ErrorKind;
use std::process::ExitCode;
use work_pool::OpenGate;

fn main(rt: HostRuntime) -> ExitCode {
    let alloc = rt.alloc();
    let mut source = StdSource::new(rt.stdin());
    let mut sink = StdSink::new(rt.stdout());
    let mut notes = StdSink::new(rt.stderr());
    // a command line that is not text names no command
    let words = match std::env::args(&rt) {
        Ok(words) => words.skip(1).collect::<Vec<String>>(alloc),
        Err(error) if error.kind() == ErrorKind::OutOfMemory => Err(AllocError),
        Err(_) => Ok(Vec::new(alloc)),
    };
    let status = match words {
        Ok(words) => run(
            &rt,
            alloc,
            &words,
            &mut source,
            &mut sink,
            &mut notes,
            &OpenGate,
        ),
        Err(_) => {
            give_note(&mut notes, Status::Memory);
            Status::Memory
        }
    };
    ExitCode::from(status.code())
}

#[cfg(test)]
mod tests;
