//! What the texts say.
ghost use Rattle.std.specs.Prelude.{◌≡◌, ◌≢◌, ◌⊎◌, ℕ, ◌<◌, ◌≤◌, codes, List, ◌++◌, Option, Some, None, MatchOption};
ghost use Rattle.std.specs.Bool.{OnTrue, OnFalse};
ghost use Rattle.bay_core.specs.declared.calls.Layout.{Layout};
ghost use Rattle.bay_core.specs.declared.calls.Layout.TheVariants.{Paged};
ghost use Rattle.command_words.specs.Parts.{Part};
ghost use Rattle.command_words.specs.Texts.{listed, Assigns};
ghost use Rattle.command_words.specs.Words.{IsCalled, IsCount, IsLayout, IsMade, AreOperands, GiveOptions, GiveNone, IsSaid};
ghost use Rattle.command_words.specs.declared.command.Options.{Options};
ghost use Rattle.command_words.specs.declared.command.Made.{Made};
ghost use Rattle.command_words.specs.declared.command.Command.{Command};

use crate::command::{Command, Made, Options};
use crate::texts::Texts;
use bay_core::Layout;
use room_script::number;

const MOST_WORKERS: u32 = 16;

const MOST_BLOCKS: u32 = 16384;

const MOST_OBJECTS: u64 = 1 << 20;

/// The command that the texts say, if they say one.
pub fn said(texts: &Texts) -> Option<Command>
    ensures { (parts : List Part) → Assigns parts texts.now
        → MatchOption result ((other : Command) → ¬ IsSaid parts other) (IsSaid parts) }
{
    let name = texts.command?;
    let made = made(texts.objects, texts.seed)?;
    if takes_options(name) {
        optional(name, options(texts)?, made)
    } else if has_options(texts) {
        None
    } else {
        bare(name, made)
    }
}

/// Whether a command of this name takes options.
fn takes_options(name: &str) -> bool
    ensures yes { OnTrue result ((name.now ≡ codes "compact") ⊎ (name.now ≡ codes "mark")) }
    ensures no_ { OnFalse result ((name.now ≢ codes "compact") × (name.now ≢ codes "mark")) }
{
    name == "compact" || name == "mark"
}

/// The command of this name that takes options.
fn optional(name: &str, options: Options, made: Option<Made>) -> Option<Command>
    ensures { MatchOption result ((other : Command) → ¬ IsCalled name.now (Some options) made other) (IsCalled name.now (Some options) made) }
{
    if name == "compact" && made.is_none() {
        Some(Command::Compact(options))
    } else if name == "mark" {
        Some(Command::Mark(options, made))
    } else {
        None
    }
}

/// The command of this name that takes none.
fn bare(name: &str, made: Option<Made>) -> Option<Command>
    ensures { MatchOption result ((other : Command) → ¬ IsCalled name.now None made other) (IsCalled name.now None made) }
{
    match made {
        Some(made) if name == "make" => Some(Command::Make(made)),
        None if name == "check" => Some(Command::Check),
        None if name == "trial" => Some(Command::Trial),
        None if name == "schedule" => Some(Command::Schedule),
        _ => None,
    }
}

/// Whether an option is given.
fn has_options(texts: &Texts) -> bool
    ensures some { OnTrue result ((parts : List Part) → Assigns parts texts.now → ¬ GiveNone parts) }
    ensures none { OnFalse result ((parts : List Part) → Assigns parts texts.now → GiveNone parts) }
{
    texts.workers.is_some() || texts.blocks.is_some() || texts.layout.is_some()
}

/// The options that the texts say.
fn options(texts: &Texts) -> Option<Options>
    ensures { (parts : List Part) → Assigns parts texts.now
        → MatchOption result ((other : Options) → ¬ GiveOptions parts other) (GiveOptions parts) }
{
    let workers = count(texts.workers, MOST_WORKERS, 1)?;
    let blocks = count(texts.blocks, MOST_BLOCKS, 64)?;
    let layout = layout(texts.layout)?;
    if has_room(layout, blocks) {
        Some(Options {
            workers,
            blocks,
            layout,
        })
    } else {
        None
    }
}

/// Whether there are blocks enough for a layout: two lists that share blocks need two of them.
fn has_room(layout: Layout, blocks: u32) -> bool
    ensures yes { OnTrue result (layout ≡ Paged → 2 ≤ blocks) }
    ensures no_ { OnFalse result ((layout ≡ Paged) × (blocks < 2)) }
{
    match layout {
        Layout::Split => true,
        Layout::Paged => blocks >= 2,
    }
}

/// The number of an option: from 1 to the most, and this one where the option is not given.
fn count(text: Option<&str>, most: u32, without: u32) -> Option<u32>
    ensures { MatchOption result ((n : ℕ) → ¬ IsCount (listed text.entry) most without n) (IsCount (listed text.entry) most without) }
{
    let Some(text) = text else {
        return Some(without);
    };
    let count = number(text.as_bytes())?;
    if count < 1 || count > u64::from(most) {
        return None;
    }
    Some(count as u32)
}

/// The layout that the text says.
fn layout(text: Option<&str>) -> Option<Layout>
    ensures { MatchOption result ((other : Layout) → ¬ IsLayout (listed text.entry) other) (IsLayout (listed text.entry)) }
{
    match text {
        None => Some(Layout::Split),
        Some("split") => Some(Layout::Split),
        Some("paged") => Some(Layout::Paged),
        Some(_) => None,
    }
}

/// Which image the operands say, if there are any. `None` where they are no such operands.
fn made(objects: Option<&str>, seed: Option<&str>) -> Option<Option<Made>>
    ensures { MatchOption result ((other : Option Made) → ¬ AreOperands (listed objects.entry ++ listed seed.entry) other)
        (AreOperands (listed objects.entry ++ listed seed.entry)) }
{
    match (objects, seed) {
        (None, None) => Some(None),
        (Some(objects), Some(seed)) => Some(Some(made_of(objects, seed)?)),
        _ => None,
    }
}

/// Which image two operands say.
fn made_of(objects: &str, seed: &str) -> Option<Made>
    ensures { MatchOption result ((other : Made) → ¬ IsMade objects.now seed.now other) (IsMade objects.now seed.now) }
{
    let count = number(objects.as_bytes())?;
    let seed = number(seed.as_bytes())?;
    if count > MOST_OBJECTS {
        return None;
    }
    Some(Made {
        objects: count as u32,
        seed,
    })
}
