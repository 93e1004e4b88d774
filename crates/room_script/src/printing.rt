//! The text of a run.
ghost use Rattle.std.specs.Prelude.{◌≡◌, ◌++◌, OnOk, IfOk, string_bytes, codes};
ghost use Rattle.room_script.specs.Prints.{active_line, item_line, phase_name, caller_line, run_lines, text_of};

use room_core::{Item, Phase, Ran, Word};
use std::alloc::{AllocError, Global};
use std::fmt::Write;

/// The text of a run: a line for each item of its trace, the active word, and a line for each
/// caller with the name of its phase. Each line ends with a newline.
///
/// # Errors
///
/// Want of memory alone.
pub fn print_run(alloc: Global, ran: &Ran) -> Result<Vec<u8>, AllocError>
    ensures { IfOk result
        (λ text. text.items ≡ text_of (run_lines ran.now.core ran.now.trace.items)) }
{
    let mut text = String::new(alloc);
    for item in &ran.trace {
        print_item(&mut text, item)?;
    }
    print_active(&mut text, ran.core.word(Word::Active).unwrap())?;
    for caller in 0..ran.core.callers() {
        print_caller(
            &mut text,
            caller,
            ran.core.phase(u64::from(caller)).unwrap(),
        )?;
    }
    Ok(text.into_bytes())
}

fn print_item(text: &mut String, item: &Item) -> Result<(), AllocError>
    ensures { OnOk result
        (string_bytes text.new ≡ string_bytes text.old ++ (item_line item.now ++ codes "\n")) }
{
    match item {
        Item::Opened {
            turn,
            room,
            from,
            to,
        } => writeln!(text, "open {turn} {room} {from} {to}"),
        Item::Entered { caller, room } => writeln!(text, "enter {caller} {room}"),
        Item::Left { caller } => writeln!(text, "leave {caller}"),
        Item::ExitBegun { room } => writeln!(text, "exit {room} begin"),
        Item::ExitEnded { room } => writeln!(text, "exit {room} end"),
    }
}

fn print_active(text: &mut String, word: u64) -> Result<(), AllocError>
    ensures { OnOk result
        (string_bytes text.new ≡ string_bytes text.old ++ (active_line word ++ codes "\n")) }
{
    writeln!(text, "active {word}")
}

fn print_caller(text: &mut String, caller: u32, phase: &Phase) -> Result<(), AllocError>
    ensures { OnOk result
        (string_bytes text.new
        ≡ string_bytes text.old ++ (caller_line caller phase.now ++ codes "\n")) }
{
    let name = phase_name(phase);
    writeln!(text, "caller {caller} {name}")
}

fn phase_name(phase: &Phase) -> &'static str
    ensures { result.now ≡ phase_name phase.now }
{
    match phase {
        Phase::Out => "Out",
        Phase::Looking { .. } => "Looking",
        Phase::Glancing { .. } => "Glancing",
        Phase::Seizing { .. } => "Seizing",
        Phase::Counting { .. } => "Counting",
        Phase::Admitting { .. } => "Admitting",
        Phase::Turning { .. } => "Turning",
        Phase::Inside { .. } => "Inside",
        Phase::Exiting { .. } => "Exiting",
        Phase::Peering { .. } => "Peering",
        Phase::Scanning { .. } => "Scanning",
        Phase::Passing { .. } => "Passing",
    }
}
