//! The top call.
ghost use Rattle.std.specs.Prelude.{◌≤◌, ◌^◌, map, string_bytes};
ghost use Rattle.command_words.specs.Words.{Names};
ghost use Rattle.rooms_program.specs.Limits.{Is};
ghost use Rattle.rooms_program.specs.Runs.{Leaves, LeavesMade, LeavesNote};

use crate::notes::give_note;
use crate::perform::{perform, perform_alone, perform_make};
use crate::status::Status;
use command_words::{Command, Made, named_command};
use room_io::{Sink, Source};
use std::alloc::Global;
use std::sync::Wait;
use std::thread::Threads;
use work_pool::Gate;

/// Performs the command that the words name, from the source to the sink, and leaves a note of one
/// line for a status other than `Good`. It waits for the workers of `compact` and `mark` and the
/// callers of a trial alone.
///
/// `compact` reads an image and writes its slide: the live objects alone, in order, moved down
/// without gaps. `mark` reads an image, marks and slides it, and prints six lines: its objects, how
/// many of them are live, its words, the words of its slide, its roots and the fold of its slide.
/// `mark OBJECTS SEED` does so with an image that is made up. The crew of both has 1 worker over 64
/// blocks that are split, or as `--workers`, `--blocks` and `--layout` say; what is written is the
/// same for each crew. Before each try to take an object, and again to take a piece that is to be
/// slid, the gate is asked with the worker's number and how often it had asked for one.
///
/// `check` reads an image and prints how large it is. `make OBJECTS SEED` writes the bytes of an image
/// that is made up. `schedule` reads a text of acts and prints the run of the protocol on them.
/// `trial` reads a text of callers' scripts, has each caller make the calls of its script on one
/// bay, in a thread of its own where one can be made, and prints their one history, how many lines
/// each caller had answered, and what is left in the bay. Before line i of caller c the gate is
/// asked with c and i, both counted from 0.
///
/// `make`, and `mark` with operands, leave the source as it was. The output is complete in memory
/// before the first write.
///
/// # Refusals, in their order
///
/// - `Words`: exactly where the words name no command; nothing is read or written.
/// - `ReadFault`: only where a read of this call failed.
/// - `TooLong`: exactly where a text has more than 1,048,576 bytes.
/// - `Image`: exactly where the bytes read are no image.
/// - `Script`: exactly where the text is no schedule or no trial, with the first line that breaks
///   its rules.
/// - `Act`: exactly where the core refuses an act, with the first one.
/// - `WriteFault`: only where a write of this call failed; the sink gained a prefix of the output.
/// - `Memory`: for want of memory, at any point, also of the words; the sink gained nothing.
pub fn run<R: Threads + Wait + Sync, S: Source, K: Sink, N: Sink, G: Gate + Sync>(
    rt: &R,
    alloc: Global,
    words: &[String],
    source: &mut S,
    sink: &mut K,
    notes: &mut N,
    gate: &G,
) -> Status
    ensures leaves { Leaves S.left S.faults K.written K.faults (Names (map string_bytes words.now)) source.old source.new sink.old sink.new result }
    ensures note { LeavesNote N.written N.faults notes.old notes.new result }
{
    let status = answer(rt, alloc, words, source, sink, gate);
    give_note(notes, status);
    status
}

/// Performs the command that the words name, if they name one.
#[tactic(auto, using(crate::proofs::Limits::named_within))]
fn answer<R: Threads + Wait + Sync, S: Source, K: Sink, G: Gate + Sync>(
    rt: &R,
    alloc: Global,
    words: &[String],
    source: &mut S,
    sink: &mut K,
    gate: &G,
) -> Status
    ensures { Leaves S.left S.faults K.written K.faults (Names (map string_bytes words.now)) source.old source.new sink.old sink.new result }
{
    match named_command(alloc, words) {
        Ok(Some(command)) => perform(rt, alloc, command, source, sink, gate),
        Ok(None) => Status::Words,
        Err(_) => Status::Memory,
    }
}

/// Performs `schedule` from the source to the sink, and leaves a note as `run` does. It waits for
/// nobody. Its refusals are those of `run`, but `Words` and `Image`.
pub fn schedule_run<S: Source, K: Sink, N: Sink>(
    alloc: Global,
    source: &mut S,
    sink: &mut K,
    notes: &mut N,
) -> Status
    ensures leaves { Leaves S.left S.faults K.written K.faults (Is Command.Schedule) source.old source.new sink.old sink.new result }
    ensures note { LeavesNote N.written N.faults notes.old notes.new result }
{
    let status = perform_alone(alloc, Command::Schedule, source, sink);
    give_note(notes, status);
    status
}

/// Performs `check` from the source to the sink, and leaves a note as `run` does. It waits for nobody.
/// Its refusals are `Image`, `ReadFault`, `WriteFault` and `Memory`, as those of `run`.
pub fn check_run<S: Source, K: Sink, N: Sink>(
    alloc: Global,
    source: &mut S,
    sink: &mut K,
    notes: &mut N,
) -> Status
    ensures leaves { Leaves S.left S.faults K.written K.faults (Is Command.Check) source.old source.new sink.old sink.new result }
    ensures note { LeavesNote N.written N.faults notes.old notes.new result }
{
    let status = perform_alone(alloc, Command::Check, source, sink);
    give_note(notes, status);
    status
}

/// Performs `make` for this many objects, at most 2^20, and this seed: writes the bytes of the image to
/// the sink, and leaves a note as `run` does. It waits for nobody. Its refusals are `WriteFault` and
/// `Memory`, as those of `run`.
pub fn make_run<K: Sink, N: Sink>(
    alloc: Global,
    objects: u32,
    seed: u64,
    sink: &mut K,
    notes: &mut N,
) -> Status
    requires { objects ≤ 2 ^ 20 }
    ensures leaves { LeavesMade K.written K.faults (Command.Make (record { objects = objects; seed = seed })) sink.old sink.new result }
    ensures note { LeavesNote N.written N.faults notes.old notes.new result }
{
    let status = perform_make(alloc, Made { objects, seed }, sink);
    give_note(notes, status);
    status
}
