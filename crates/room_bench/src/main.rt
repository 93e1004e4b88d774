//! A program that times stays in rooms, and counts them.
//!
//! With no word, or with how many stays each thread makes, it writes to standard error what a stay
//! takes with 1, 2, 4, 8 and 16 threads; a second word is a number of threads, from 1 to 64, which is
//! then timed alone. With the word `stress` it prints how many stays of 8 callers were counted in each
//! room.
#![tactic(auto)]

ghost use Rattle.std.specs.Prelude.{IfOk, IfSome};
ghost use Rattle.room_bench.specs.Words.{HasThreads};

mod timing;
mod words;

use stay_tally::tally;
use std::alloc::{AllocGlobal, Global};
use std::env::Env;
use std::io;
use std::io::{Eprint, Print};
use std::process::ExitCode;
use std::sync::Wait;
use std::thread::Threads;
use words::{Command, named_command};

// The command that the words of the command line name, if they name one.
fn command<R: Env + AllocGlobal>(rt: &R) -> io::Result<Option<Command>>
    ensures { IfOk result (λ command. IfSome command HasThreads) }
{
    let words = std::env::args(rt)?
        .skip(1)
        .collect::<Vec<String>>(rt.alloc())?;
    Ok(named_command(&words))
}

// Prints the four words after 20,000 stays of each of 8 callers.
fn stress<R: Threads + Wait + Sync + Print>(rt: &R, alloc: Global) -> io::Result<()> {
    let words = tally(rt, alloc, 8, 20_000, true)?;
    println!(rt; "{} {} {} {}", words[0], words[1], words[2], words[3])
}

fn main(rt: HostRuntime) -> ExitCode {
    let done = match command(&rt) {
        Ok(Some(Command::Time(stays, threads))) => {
            timing::time_all(&rt, rt.alloc(), stays, threads)
        }
        Ok(Some(Command::Stress)) => stress(&rt, rt.alloc()),
        Ok(None) => return refused(&rt),
        Err(error) => Err(error),
    };
    match done {
        Ok(()) => ExitCode::SUCCESS,
        Err(_) => ExitCode::FAILURE,
    }
}

// The status of words that name no command, which it notes.
fn refused<R: Eprint>(rt: &R) -> ExitCode {
    match eprintln!(rt; "words") {
        Ok(()) => ExitCode::from(2),
        Err(_) => ExitCode::FAILURE,
    }
}
