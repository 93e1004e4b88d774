//! The text of a trial.
ghost use Rattle.std.specs.Prelude.{◌≡◌, ◌++◌, ℕ, [], length, vec_len, map, slice_index_or, string_bytes, OnOk, IfOk};
ghost use Rattle.std.specs.List.{flat_map, range_with_len};
ghost use Rattle.room_history.specs.Prints.{entry_line, lists_text};
ghost use Rattle.room_trial.specs.Texts.{answered_line, answered_below};
ghost use Rattle.room_trial.specs.Histories.{lists_of};

use crate::crews::Played;
use bay_core::Entry;
use bay_store::Closed;
use room_history::{print_entries, print_lists};
use room_script::Line;
use std::alloc::{AllocError, Global};
use std::fmt::Write;

// The entries, how many lines each caller had answered, and the lists that are left.
pub(crate) fn printed(
    alloc: Global,
    scripts: &[Vec<Line>],
    played: &Played,
    history: &[Entry],
) -> Result<Vec<u8>, AllocError>
    requires { vec_len played.now.entries ≡ length scripts.now }
    ensures { IfOk result (λ text. text.items ≡ flat_map entry_line history.now
        ++ (answered_below (lists_of played.now) (map (λ script. script.items) scripts.now) (length scripts.now)
        ++ lists_text played.now.closed.stack.items played.now.closed.queue.items)) }
{
    let mut text = print_entries(alloc, history)?;
    text.extend_from_slice(&print_answered(alloc, scripts, &played.entries)?)?;
    let Closed { stack, queue, .. } = &played.closed;
    text.extend_from_slice(&print_lists(alloc, stack, queue)?)?;
    Ok(text)
}

// A line for each caller: how many lines of its script it had answered.
fn print_answered(
    alloc: Global,
    scripts: &[Vec<Line>],
    lists: &[Vec<Entry>],
) -> Result<Vec<u8>, AllocError>
    requires { length lists.now ≡ length scripts.now }
    ensures { IfOk result (λ text. text.items
        ≡ answered_below (map (λ list. list.items) lists.now) (map (λ script. script.items) scripts.now) (length scripts.now)) }
{
    let mut text = String::new(alloc);
    for caller in 0..scripts.len() {
        print_caller(
            &mut text,
            caller,
            lists[caller].len(),
            scripts[caller].len(),
        )?;
    }
    Ok(text.into_bytes())
}

// The line of one caller.
fn print_caller(
    text: &mut String,
    caller: usize,
    answered: usize,
    lines: usize,
) -> Result<(), AllocError>
    ensures { OnOk result (string_bytes text.new ≡ string_bytes text.old ++ answered_line caller answered lines) }
{
    writeln!(text, "caller {caller} answered {answered} of {lines}")
}
