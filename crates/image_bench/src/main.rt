//! A program that times the compactor's passes on an image that is made up.
//!
//! With the words `OBJECTS SEED WORKERS BLOCKS` it writes to standard error what reading and writing,
//! and marking and sliding on one thread and with a crew take. With no word it prints what a crew makes
//! of a small image.
#![tactic(auto)]

ghost use Rattle.std.specs.Prelude.{IfOk, IfSome};
ghost use Rattle.image_bench.specs.Jobs.{HasJob};

mod counts;
mod passes;
mod words;

use std::alloc::AllocGlobal;
use std::env::Env;
use std::io;
use std::io::Eprint;
use std::process::ExitCode;
use words::{Command, named_command};

// The command that the words of the command line name, if they name one.
fn command<R: Env + AllocGlobal>(rt: &R) -> io::Result<Option<Command>>
    ensures { IfOk result (λ command. IfSome command HasJob) }
{
    let words = std::env::args(rt)?
        .skip(1)
        .collect::<Vec<String>>(rt.alloc())?;
    Ok(named_command(&words))
}

fn main(rt: HostRuntime) -> ExitCode {
    let done = match command(&rt) {
        Ok(Some(Command::Time(job))) => passes::time_all(&rt, rt.alloc(), &job),
        Ok(Some(Command::Try)) => passes::try_small(&rt, rt.alloc()),
        Ok(None) => return refused(&rt),
        Err(error) => Err(error),
    };
    match done {
        Ok(()) => ExitCode::SUCCESS,
        Err(_) => ExitCode::FAILURE,
    }
}

// The status of words that name no command, which it notes.
fn refused<R: Eprint>(rt: &R) -> ExitCode {
    match eprintln!(rt; "words") {
        Ok(()) => ExitCode::from(2),
        Err(_) => ExitCode::FAILURE,
    }
}

#[cfg(test)]
mod tests;
