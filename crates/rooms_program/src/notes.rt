//! The note that a refusal leaves.
ghost use Rattle.std.specs.Prelude.{◌≡◌, ◌≤◌, ◌+◌, ◌++◌, length, decimal};
ghost use Rattle.arrayvec.specs.ArrayString.{array_string_len};
ghost use Rattle.rooms_program.specs.Statuses.{note_of, kind_name, refusal_name};
ghost use Rattle.rooms_program.specs.Runs.{LeavesNote};

use crate::status::Status;
use arrayvec::ArrayString;
use image_core::{ImageFault, ImageKind};
use itoa::Buffer;
use room_core::Refused;
use room_io::{Sink, write_whole};

/// More bytes than any note has.
const LONGEST: usize = 128;

type Line = ArrayString<LONGEST>;

fn kind_name(kind: ImageKind) -> &'static str
    ensures name { result.now ≡ kind_name kind }
    ensures short { length result.now ≤ 20 }
{
    match kind {
        ImageKind::Short => "Short",
        ImageKind::Magic => "Magic",
        ImageKind::TooManyWords => "TooManyWords",
        ImageKind::TooManyRoots => "TooManyRoots",
        ImageKind::Long => "Long",
        ImageKind::Overrun => "Overrun",
        ImageKind::TooManyObjects => "TooManyObjects",
        ImageKind::BadRef => "BadRef",
        ImageKind::BadRoot => "BadRoot",
    }
}

fn refusal_name(why: Refused) -> &'static str
    ensures name { result.now ≡ refusal_name why }
    ensures short { length result.now ≤ 20 }
{
    match why {
        Refused::NoCaller => "NoCaller",
        Refused::NoRoom => "NoRoom",
        Refused::NotFree => "NotFree",
        Refused::NotIn => "NotIn",
        Refused::Stuck => "Stuck",
        Refused::Spent => "Spent",
    }
}

/// Appends a number in decimal digits.
#[tactic(auto, using(crate::proofs::Digits::short))]
fn push_number(line: &mut Line, number: u64)
    requires { array_string_len line.old + 20 ≤ 128 }
    ensures bytes { line.new.bytes ≡ line.old.bytes ++ decimal number }
    ensures len { array_string_len line.new ≤ array_string_len line.old + 20 }
{
    let mut buffer = Buffer::new();
    line.push_str(buffer.format(number));
}

fn image_note(fault: ImageFault) -> Line
    ensures { result.bytes ≡ note_of (Status.Image fault) }
{
    let mut line = Line::new();
    line.push_str("image ");
    line.push_str(kind_name(fault.kind));
    line.push_str(" place ");
    push_number(&mut line, fault.place);
    line.push_str(" value ");
    push_number(&mut line, fault.value);
    line.push_str("\n");
    line
}

fn script_note(number: u64) -> Line
    ensures { result.bytes ≡ note_of (Status.Script number) }
{
    let mut line = Line::new();
    line.push_str("script line ");
    push_number(&mut line, number);
    line.push_str("\n");
    line
}

fn act_note(at: u64, why: Refused) -> Line
    ensures { result.bytes ≡ note_of (Status.Act at why) }
{
    let mut line = Line::new();
    line.push_str("act ");
    push_number(&mut line, at);
    line.push_str(" ");
    line.push_str(refusal_name(why));
    line.push_str("\n");
    line
}

fn plain_note(text: &str) -> Line
    requires { length text.now ≤ 20 }
    ensures { result.bytes ≡ text.now }
{
    let mut line = Line::new();
    line.push_str(text);
    line
}

/// The note of a status.
fn note(status: Status) -> Line
    ensures { result.bytes ≡ note_of status }
{
    match status {
        Status::Good => Line::new(),
        Status::Words => plain_note("words\n"),
        Status::Image(fault) => image_note(fault),
        Status::ReadFault => plain_note("read fault\n"),
        Status::WriteFault => plain_note("write fault\n"),
        Status::Script(number) => script_note(number),
        Status::Act(at, why) => act_note(at, why),
        Status::TooLong => plain_note("text too long\n"),
        Status::Memory => plain_note("out of memory\n"),
    }
}

/// Writes the note of a status that is a refusal. It takes no memory. A note that is cut short
/// by a fault of the notes changes no status.
pub fn give_note<N: Sink>(notes: &mut N, status: Status)
    ensures { LeavesNote N.written N.faults notes.old notes.new status }
{
    if status != Status::Good {
        let line = note(status);
        let _ = write_whole(notes, line.as_bytes());
    }
}
