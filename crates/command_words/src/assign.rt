//! Which words the options, the command and its operands get, by a simple command of `clap`.
ghost use Rattle.std.specs.Prelude.{◌≡◌, ℕ, List, IfOk, MatchOption, map, string_bytes};
ghost use Rattle.clap.specs.Words.{app_of, with_rule, new_rule, rows_of, found_of, matches_of, fault_of, FailsBy};
ghost use Rattle.command_words.specs.Clap.{AreMatched, words_app, bare_app, option_rule};
ghost use Rattle.command_words.specs.Parts.{Part, AreParts};
ghost use Rattle.command_words.specs.Texts.{Assigns, AreAssignable};

use crate::texts::Texts;
use clap::error::ErrorKind;
use clap::{Arg, ArgMatches, Command, Error};
use std::alloc::{AllocError, Global};

/// The texts that words give which are options with their values, and plain words. `None` where an
/// option is given twice, or a word stands behind the operands.
///
/// # Errors
///
/// Want of memory alone.
pub fn assigned<'a>(alloc: Global, words: &'a [String]) -> Result<Option<Texts<'a>>, AllocError>
    ensures { (parts : List Part) → AreParts (map string_bytes words.entry.now) parts
        → IfOk result (λ found. MatchOption found (¬ AreAssignable parts) (Assigns parts)) }
{
    match matched(alloc, words) {
        Ok(matches) => Ok(Some(texts_of(&matches))),
        Err(error) if error.kind() == ErrorKind::OutOfMemory => Err(AllocError),
        Err(_) => Ok(None),
    }
}

/// What `clap` makes of the words.
fn matched<'a>(alloc: Global, words: &'a [String]) -> Result<ArgMatches<'a>, Error>
    ensures matches { IfOk result (λ m. rows_of (found_of m) ≡ matches_of words_app (map string_bytes words.entry.now)) }
    ensures faults { FailsBy (fault_of words_app (map string_bytes words.entry.now)) result }
{
    command(alloc)?.try_get_matches_from(words)
}

/// The command, whose options and operands are texts.
fn command<'a>(alloc: Global) -> Result<Command<'a>, AllocError>
    ensures { IfOk result (λ c. app_of c ≡ words_app) }
{
    let workers = with_option(alloc, bare(alloc, "rooms"), "workers")?;
    let blocks = with_option(alloc, workers, "blocks")?;
    let layout = with_option(alloc, blocks, "layout")?;
    let command = with_operand(alloc, layout, "command")?;
    let objects = with_operand(alloc, command, "objects")?;
    with_operand(alloc, objects, "seed")
}

/// A command of which each word counts, without help and version.
fn bare<'a>(alloc: Global, name: &'a str) -> Command<'a>
    ensures { app_of result ≡ bare_app name.entry.now }
{
    Command::new(alloc, name)
        .no_binary_name(true)
        .disable_help_flag(true)
        .disable_version_flag(true)
}

fn with_option<'a>(
    alloc: Global,
    command: Command<'a>,
    name: &'a str,
) -> Result<Command<'a>, AllocError>
    ensures { IfOk result (λ c. app_of c ≡ with_rule (app_of command.entry) (option_rule name.entry.now)) }
{
    command.arg(Arg::new(alloc, name).long(name))
}

fn with_operand<'a>(
    alloc: Global,
    command: Command<'a>,
    name: &'a str,
) -> Result<Command<'a>, AllocError>
    ensures { IfOk result (λ c. app_of c ≡ with_rule (app_of command.entry) (new_rule name.entry.now)) }
{
    command.arg(Arg::new(alloc, name))
}

/// The texts that the matches have.
fn texts_of<'a>(matches: &ArgMatches<'a>) -> Texts<'a>
    ensures { (words : List (List ℕ)) → rows_of (found_of matches.now) ≡ matches_of words_app words → AreMatched words result }
{
    Texts {
        workers: matches.get_str("workers"),
        blocks: matches.get_str("blocks"),
        layout: matches.get_str("layout"),
        command: matches.get_str("command"),
        objects: matches.get_str("objects"),
        seed: matches.get_str("seed"),
    }
}
