//! Performing a command: the input is read, its output made whole in memory, and then written.
ghost use Rattle.std.specs.Prelude.{◌≡◌, ◌⊎◌, ◌+◌, ◌≤◌, ◌^◌, take, IfOk, IfErr, IfSome};
ghost use Rattle.std.specs.Io.KnownBytes.{Appends};
ghost use Rattle.std.specs.Bool.{OnTrue, OnFalse};
ghost use Rattle.room_io.specs.Causes.{Rose, AppendsPrefix};
ghost use Rattle.rooms_program.specs.Commands.{Reads, most_bytes};
ghost use Rattle.rooms_program.specs.Limits.{Is, IsWithin, IsAlone};
ghost use Rattle.rooms_program.specs.Runs.{WasRead, Makes, Leaves, LeavesMade};

use crate::check::checked;
use crate::compact::compacted;
use crate::make::made_bytes;
use crate::mark::{made_marked, read_marked};
use crate::schedule::{MOST_TEXT, scheduled};
use crate::status::Status;
use crate::trial::tried;
use command_words::{Command, Made};
use room_io::{ReadFail, Sink, Source, read_up_to, write_whole};
use std::alloc::Global;
use std::sync::Wait;
use std::thread::Threads;
use work_pool::Gate;

/// The most bytes of an image.
const MOST_IMAGE: usize = 34_078_744;

/// The most bytes of an input that can be accepted.
fn most(command: Command) -> usize
    ensures value { result ≡ most_bytes command }
    ensures small { result ≤ 34078744 }
{
    match command {
        Command::Compact(_) | Command::Mark(_, _) | Command::Check => MOST_IMAGE,
        Command::Make(_) => 0,
        Command::Trial | Command::Schedule => MOST_TEXT,
    }
}

/// Whether a command reads its source; one that makes its image up does not.
fn reads(command: Command) -> bool
    ensures yes { OnTrue result (Reads command) }
    ensures no_ { OnFalse result (¬ Reads command) }
{
    match command {
        Command::Make(_) | Command::Mark(_, Some(_)) => false,
        Command::Mark(_, None) => true,
        Command::Compact(_) | Command::Check | Command::Trial | Command::Schedule => true,
    }
}

/// An output of an input, or why there is none.
fn output<R: Threads + Wait + Sync, G: Gate + Sync>(
    rt: &R,
    alloc: Global,
    command: Command,
    bytes: Vec<u8>,
    gate: &G,
) -> Result<Vec<u8>, Status>
    requires { IsWithin command }
    ensures { Makes command bytes.items result }
{
    match command {
        Command::Compact(options) => compacted(rt, alloc, &options, bytes, gate),
        Command::Mark(options, None) => read_marked(rt, alloc, &options, bytes, gate),
        Command::Mark(options, Some(made)) => made_marked(rt, alloc, &options, made, gate),
        Command::Make(made) => made_bytes(alloc, made),
        Command::Trial => tried(rt, alloc, &bytes, gate),
        Command::Check | Command::Schedule => output_alone(alloc, command, &bytes),
    }
}

/// The same of a command that waits for nobody.
fn output_alone(alloc: Global, command: Command, bytes: &[u8]) -> Result<Vec<u8>, Status>
    requires { IsAlone command }
    ensures { Makes command bytes.now result }
{
    match command {
        Command::Check => checked(alloc, bytes),
        Command::Schedule => scheduled(alloc, bytes),
        Command::Compact(_) | Command::Mark(_, _) | Command::Make(_) | Command::Trial => {
            unreachable!()
        }
    }
}

/// Reads the input to its end, or one byte more than the most that can be accepted.
fn read_input<S: Source>(alloc: Global, command: Command, source: &mut S) -> Result<Vec<u8>, Status>
    ensures read { IfOk result (λ bytes. WasRead (most_bytes command) (S.left source.old) (S.left source.new) bytes.items) }
    ensures known { IfOk result (λ bytes. IfSome (S.left source.old) (λ input. bytes.items ≡ take (most_bytes command + 1) input)) }
    ensures why { IfErr result (λ why. (why ≡ Status.Memory) ⊎ ((why ≡ Status.ReadFault) × Rose (S.faults source.old) (S.faults source.new))) }
{
    match read_up_to(alloc, source, most(command) + 1) {
        Ok(bytes) => Ok(bytes),
        Err(ReadFail::ReadFault) => Err(Status::ReadFault),
        Err(ReadFail::Memory) => Err(Status::Memory),
    }
}

/// The input of a command: none of a command that does not read.
fn input<S: Source>(alloc: Global, command: Command, source: &mut S) -> Result<Vec<u8>, Status>
    ensures read { Reads command → IfOk result (λ bytes. WasRead (most_bytes command) (S.left source.old) (S.left source.new) bytes.items) }
    ensures known { Reads command → IfOk result (λ bytes. IfSome (S.left source.old) (λ input. bytes.items ≡ take (most_bytes command + 1) input)) }
    ensures unread { ¬ Reads command → source.new ≡ source.old }
    ensures why { IfErr result (λ why. (why ≡ Status.Memory) ⊎ ((why ≡ Status.ReadFault) × Reads command × Rose (S.faults source.old) (S.faults source.new))) }
{
    if reads(command) {
        read_input(alloc, command, source)
    } else {
        Ok(Vec::new(alloc))
    }
}

fn write_output<K: Sink>(sink: &mut K, output: &[u8]) -> Status
    ensures good { result ≡ Status.Good → Appends (K.written sink.old) (K.written sink.new) output.now }
    ensures cut { result ≡ Status.WriteFault → AppendsPrefix (K.written sink.old) (K.written sink.new) output.now }
    ensures why { (result ≡ Status.Good) ⊎ ((result ≡ Status.WriteFault) × Rose (K.faults sink.old) (K.faults sink.new)) }
{
    match write_whole(sink, output) {
        Ok(()) => Status::Good,
        Err(_) => Status::WriteFault,
    }
}

/// Writes the output that was made, or says why there is none.
fn write_made<K: Sink>(sink: &mut K, made: Result<Vec<u8>, Status>) -> Status
    ensures good { IfOk made (λ output. result ≡ Status.Good → Appends (K.written sink.old) (K.written sink.new) output.items) }
    ensures cut { IfOk made (λ output. result ≡ Status.WriteFault → AppendsPrefix (K.written sink.old) (K.written sink.new) output.items) }
    ensures why { IfOk made (λ _. (result ≡ Status.Good) ⊎ ((result ≡ Status.WriteFault) × Rose (K.faults sink.old) (K.faults sink.new))) }
    ensures refused { IfErr made (λ why. result ≡ why) }
    ensures unwritten { IfErr made (λ _. sink.new ≡ sink.old) }
{
    match made {
        Ok(output) => write_output(sink, &output),
        Err(status) => status,
    }
}

/// Reads the input of a command, if it reads, and writes an output of it. It waits for the workers
/// of `compact` and `mark` and the callers of a trial alone.
pub fn perform<R: Threads + Wait + Sync, S: Source, K: Sink, G: Gate + Sync>(
    rt: &R,
    alloc: Global,
    command: Command,
    source: &mut S,
    sink: &mut K,
    gate: &G,
) -> Status
    requires { IsWithin command }
    ensures { Leaves S.left S.faults K.written K.faults (Is command) source.old source.new sink.old sink.new result }
{
    let bytes = match input(alloc, command, source) {
        Ok(bytes) => bytes,
        Err(status) => return status,
    };
    let made = output(rt, alloc, command, bytes, gate);
    write_made(sink, made)
}

/// Reads the input of `check` or `schedule`, and writes its output. It waits for nobody.
pub fn perform_alone<S: Source, K: Sink>(
    alloc: Global,
    command: Command,
    source: &mut S,
    sink: &mut K,
) -> Status
    requires { IsAlone command }
    ensures { Leaves S.left S.faults K.written K.faults (Is command) source.old source.new sink.old sink.new result }
{
    let bytes = match read_input(alloc, command, source) {
        Ok(bytes) => bytes,
        Err(status) => return status,
    };
    let made = output_alone(alloc, command, &bytes);
    write_made(sink, made)
}

/// Writes the bytes of an image that is made up. It waits for nobody.
pub fn perform_make<K: Sink>(alloc: Global, wanted: Made, sink: &mut K) -> Status
    requires { wanted.objects ≤ 2 ^ 20 }
    ensures { LeavesMade K.written K.faults (Command.Make wanted) sink.old sink.new result }
{
    let made = made_bytes(alloc, wanted);
    write_made(sink, made)
}
