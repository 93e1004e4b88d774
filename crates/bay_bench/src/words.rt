//! The words of the command line.
ghost use Rattle.std.specs.Prelude.{◌≤◌, IfSome};
ghost use Rattle.room_script.specs.Trials.{IsBlocks};
ghost use Rattle.bay_bench.specs.Words.{HasBay};

use bay_core::{Layout, MOST_BLOCKS};
use bay_crew::{Crowd, Mix, Turn};

/// The most threads.
const MOST_THREADS: u32 = 64;

/// How many items all threads put by handfuls, where the words say no number.
const USUAL_ITEMS: u32 = 524_288;

/// A layout and a number of blocks that it may have.
#[derive(Clone, Copy)]
pub struct Blocks {
    /// How the blocks are laid out.
    pub layout: Layout,
    /// How many there are, from 1 to 16384, and at least 2 with `Paged`.
    pub count: u32,
}

/// What is timed.
#[derive(Clone, Copy)]
pub enum Task {
    /// Calls on a list, of which each thread puts so many items and takes as many, one by one and in
    /// whole runs of 32.
    Lists(Mix, u32),
    /// Handfuls of 32, by which all threads together put so many items on the stack, each its part rounded
    /// down to whole handfuls; where the turns take too, each thread takes 32 items one by one after each.
    Handfuls(Turn, u32),
    /// So many calls of each thread, after it put one item on the stack: all look at the top item, or all
    /// but one, which puts an item and takes one by turns.
    Looks(Crowd, u32),
}

/// What the program can be told to do.
#[derive(Clone, Copy)]
pub enum Command {
    /// To print the history of so many callers, with so many calls each.
    History(u32, u32, Blocks),
    /// To time a task with so many threads, up to 64, or else with the usual numbers of them. Items that
    /// are put by handfuls are at most 32 for each block.
    Time(Task, Option<u32>, Blocks),
    /// To check small histories.
    Try,
}

/// The command that the words name, if they name one: a number is decimal digits that do not begin
/// with 0.
pub fn named_command(words: &[String]) -> Option<Command>
    ensures { IfSome result HasBay }
{
    match words {
        [] => Some(Command::Try),
        [name] => usual_handfuls(name.as_str()),
        [name, items] => time_of(
            name.as_str(),
            items.as_str(),
            None,
            usual_blocks(name.as_str()),
        ),
        [name, items, layout, count] => time_of(
            name.as_str(),
            items.as_str(),
            None,
            blocks_of(layout.as_str(), count.as_str())?,
        ),
        [name, first, second] => three_words(
            name.as_str(),
            first.as_str(),
            second.as_str(),
            usual_blocks(name.as_str()),
        ),
        [name, first, second, layout, count] => three_words(
            name.as_str(),
            first.as_str(),
            second.as_str(),
            blocks_of(layout.as_str(), count.as_str())?,
        ),
        _ => None,
    }
}

// The blocks where the words name none: as many as hold all items where these are put by handfuls.
fn usual_blocks(name: &str) -> Blocks
    ensures { IsBlocks result.layout result.count }
{
    Blocks {
        layout: Layout::Split,
        count: if turn_of(name).is_some() {
            MOST_BLOCKS
        } else {
            64
        },
    }
}

// The blocks that two words name.
fn blocks_of(layout: &str, count: &str) -> Option<Blocks>
    ensures { IfSome result (λ blocks. IsBlocks blocks.layout blocks.count) }
{
    let (layout, least) = match layout {
        "split" => (Layout::Split, 1),
        "paged" => (Layout::Paged, 2),
        _ => return None,
    };
    let count = number(count)?;
    if count < least || count > MOST_BLOCKS {
        return None;
    }
    Some(Blocks { layout, count })
}

// The command of a name and two numbers: of callers and their calls, or of items and threads.
fn three_words(name: &str, first: &str, second: &str, blocks: Blocks) -> Option<Command>
    requires { IsBlocks blocks.layout blocks.count }
    ensures { IfSome result HasBay }
{
    if name == "history" {
        Some(Command::History(number(first)?, number(second)?, blocks))
    } else {
        time_of(name, first, Some(few(second)?), blocks)
    }
}

// The command to time the task of a name.
fn time_of(name: &str, items: &str, threads: Option<u32>, blocks: Blocks) -> Option<Command>
    requires blocks { IsBlocks blocks.layout blocks.count }
    requires threads { IfSome threads (λ number. number ≤ 64) }
    ensures { IfSome result HasBay }
{
    let items = number(items)?;
    let task = match name {
        "stack" => Task::Lists(Mix::Stack, items),
        "queue" => Task::Lists(Mix::Queue, items),
        "readers" => Task::Looks(Crowd::Readers, items),
        "beside" => Task::Looks(Crowd::Beside, items),
        _ => return handfuls_of(turn_of(name)?, items, threads, blocks),
    };
    Some(Command::Time(task, threads, blocks))
}

// What the callers do by turns, where the word names it.
fn turn_of(name: &str) -> Option<Turn> {
    match name {
        "handfuls" => Some(Turn::Puts),
        "mixed" => Some(Turn::PutsAndTakes),
        _ => None,
    }
}

// The command to time handfuls, where the blocks hold all items.
fn handfuls_of(turn: Turn, items: u32, threads: Option<u32>, blocks: Blocks) -> Option<Command>
    requires blocks { IsBlocks blocks.layout blocks.count }
    requires threads { IfSome threads (λ number. number ≤ 64) }
    ensures { IfSome result HasBay }
{
    if items > 32 * blocks.count {
        return None;
    }
    let task = Task::Handfuls(turn, items);
    Some(Command::Time(task, threads, blocks))
}

// The command to time the usual number of items by handfuls.
fn usual_handfuls(name: &str) -> Option<Command>
    ensures { IfSome result HasBay }
{
    handfuls_of(turn_of(name)?, USUAL_ITEMS, None, usual_blocks(name))
}

// The number of threads that a word names.
fn few(word: &str) -> Option<u32>
    ensures { IfSome result (λ threads. threads ≤ 64) }
{
    let threads = number(word)?;
    if threads > MOST_THREADS {
        return None;
    }
    Some(threads)
}

// The number of a word, which is not 0.
fn number(word: &str) -> Option<u32> {
    match room_script::number(word.as_bytes())? {
        0 => None,
        number => u32::try_from(number).ok(),
    }
}
