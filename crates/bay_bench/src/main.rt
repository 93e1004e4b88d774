//! A program that prints the history of a bay, and times its calls.
//!
//! With the words `stack N` or `queue N` it writes to standard error what a call takes where each
//! thread puts N items and takes as many, with 1, 2, 4, 8 and 16 threads; a third word is a number of
//! threads, from 1 to 64, which is then timed alone. With the words `history CALLERS CALLS` it prints
//! the entries of all calls and what the bay had left; there are at most 64 callers. After these words
//! two more may stand, `split` or `paged` and the number of blocks; without them it is `split 64`. With
//! no word it makes small histories and checks them.
//!
//! With the words `readers N` it writes what a call takes where each thread looks N times at the top item of
//! the stack, and with `beside N` where one thread puts an item and takes one by turns, N calls in all, and
//! each other thread looks N times; the numbers of threads and further words are as above. Each thread puts
//! an item before. The clock starts when the bay is set up and all threads have come, and stops when all are
//! done.
//!
//! With the words `handfuls N` it writes what an item takes where all threads together put N items on the
//! stack by handfuls of 32, with 1, 2 and 4 threads, and none is taken; with `mixed N` each thread takes
//! 32 items one by one after each handful, and a put of an item is one operation and a take another. The
//! clock starts when the bay is set up and all threads have come, and stops when all are done. N is at
//! most 32 for each block, and 524288 where it is left out; further words are as above, but that without
//! them it is `split 16384`.
#![tactic(auto)]

ghost use Rattle.std.specs.Prelude.{IfOk, IfSome};
ghost use Rattle.bay_bench.specs.Words.{HasBay};

mod handfuls;
mod histories;
mod lists;
mod looks;
mod meetings;
mod timing;
mod words;

use std::alloc::AllocGlobal;
use std::env::Env;
use std::io;
use std::io::Eprint;
use std::process::ExitCode;
use words::{Command, named_command};

// The command that the words of the command line name, if they name one.
fn command<R: Env + AllocGlobal>(rt: &R) -> io::Result<Option<Command>>
    ensures { IfOk result (λ command. IfSome command HasBay) }
{
    let words = std::env::args(rt)?
        .skip(1)
        .collect::<Vec<String>>(rt.alloc())?;
    Ok(named_command(&words))
}

fn main(rt: HostRuntime) -> ExitCode {
    let done = match command(&rt) {
        Ok(Some(Command::History(callers, calls, blocks))) => {
            histories::print_history(&rt, rt.alloc(), blocks, callers, calls)
        }
        Ok(Some(Command::Time(task, threads, blocks))) => {
            timing::time_all(&rt, rt.alloc(), blocks, task, threads)
        }
        Ok(Some(Command::Try)) => histories::try_histories(&rt, rt.alloc()),
        Ok(None) => return refused(&rt),
        Err(error) => Err(error),
    };
    match done {
        Ok(()) => ExitCode::SUCCESS,
        Err(_) => ExitCode::FAILURE,
    }
}

// The status of words that name no command, which it notes.
fn refused<R: Eprint>(rt: &R) -> ExitCode {
    match eprintln!(rt; "words") {
        Ok(()) => ExitCode::from(2),
        Err(_) => ExitCode::FAILURE,
    }
}
