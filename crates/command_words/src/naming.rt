//! The one command that words name.
ghost use Rattle.std.specs.Prelude.{◌≡◌, map, string_bytes, IfOk, MatchOption, Some};
ghost use Rattle.command_words.specs.Words.{Names};
ghost use Rattle.command_words.specs.declared.command.Command.{Command};

use crate::assign::assigned;
use crate::command::Command;
use crate::parts::have_parts;
use crate::values::said;
use std::alloc::{AllocError, Global};

/// The command that the words name: those behind the program's name. `None` exactly where they name
/// none. It takes memory.
///
/// Options and operands stand in any order, as `--workers 4` or `--workers=4`; `--workers` is 1 to 16
/// and else 1, `--blocks` 1 to 16384 and else 64, `--layout` is `split` or `paged` and else `split`; with
/// `paged` there are at least 2 blocks. Each stands at most once, and only with `compact` and `mark`. `make` takes two operands, and `mark` may: how many objects, up to
/// 2^20, and a seed. Numbers are decimal digits without a sign and without a leading zero.
///
/// # Errors
///
/// Want of memory alone.
pub fn named_command(alloc: Global, words: &[String]) -> Result<Option<Command>, AllocError>
    ensures names { IfOk result (λ found. MatchOption found
        ((other : Command) → ¬ Names (map string_bytes words.now) other) (Names (map string_bytes words.now))) }
    // The words name no other command.
    ensures only { (command : Command) → Names (map string_bytes words.now) command
        → IfOk result (λ found. found ≡ Some command) }
{
    if !have_parts(words) {
        return Ok(None);
    }
    match assigned(alloc, words)? {
        Some(texts) => Ok(said(&texts)),
        None => Ok(None),
    }
}
