//! The words of the command line.
ghost use Rattle.std.specs.Prelude.{◌≤◌, IfSome};
ghost use Rattle.room_bench.specs.Words.{HasThreads};

/// How many stays each thread makes, where no word says.
const STAYS: u32 = 1000;

/// The most threads.
const MOST_THREADS: u32 = 64;

/// What the program can be told to do.
#[derive(Clone, Copy)]
pub enum Command {
    /// To time that many stays of each thread, with so many threads, up to 64, or else with the usual
    /// numbers of them.
    Time(u32, Option<u32>),
    /// To print what many stays of many callers count.
    Stress,
}

/// The command that the words name, if they name one: a number is decimal digits that do not begin
/// with 0.
pub fn named_command(words: &[String]) -> Option<Command>
    ensures { IfSome result HasThreads }
{
    match words {
        [] => Some(Command::Time(STAYS, None)),
        [word] => one_word(word.as_str()),
        [stays, threads] => two_words(stays.as_str(), threads.as_str()),
        _ => None,
    }
}

// The command of one word.
fn one_word(word: &str) -> Option<Command>
    ensures { IfSome result HasThreads }
{
    if word == "stress" {
        return Some(Command::Stress);
    }
    Some(Command::Time(number(word)?, None))
}

// The command of two words: how many stays, and how many threads.
fn two_words(stays: &str, threads: &str) -> Option<Command>
    ensures { IfSome result HasThreads }
{
    Some(Command::Time(number(stays)?, Some(few(threads)?)))
}

// The number of threads that a word names.
fn few(word: &str) -> Option<u32>
    ensures { IfSome result (λ threads. threads ≤ 64) }
{
    let threads = number(word)?;
    if threads > MOST_THREADS {
        return None;
    }
    Some(threads)
}

// The number of a word, which is not 0.
fn number(word: &str) -> Option<u32> {
    match room_script::number(word.as_bytes())? {
        0 => None,
        number => u32::try_from(number).ok(),
    }
}
