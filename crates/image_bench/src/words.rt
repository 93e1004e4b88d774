//! The words of the command line.
ghost use Rattle.std.specs.Prelude.{◌≤◌, IfSome};
ghost use Rattle.image_bench.specs.Jobs.{IsJob, HasJob};

use bay_core::Layout;
use room_script::number;
use work_pool::Crew;

/// The most objects of an image that is made up.
const MOST_OBJECTS: u32 = 1_048_576;

/// The most workers of a crew.
const MOST_WORKERS: u32 = 16;

/// The most blocks of a crew's bay.
const MOST_BLOCKS: u32 = 16_384;

/// An image that is made up, and a crew that goes through it.
#[derive(Clone, Copy)]
pub struct Job {
    /// How many objects the image has, at most 2^20.
    pub objects: u32,
    /// The seed by which it is made up.
    pub seed: u64,
    /// The crew.
    pub crew: Crew,
}

/// What the program can be told to do.
#[derive(Clone, Copy)]
pub enum Command {
    /// To time a job.
    Time(Job),
    /// To print what a crew makes of a small image.
    Try,
}

/// The command that the words name, if they name one: a number is decimal digits, without a leading
/// zero unless it is `0` alone.
pub fn named_command(words: &[String]) -> Option<Command>
    ensures { IfSome result HasJob }
{
    match words {
        [] => Some(Command::Try),
        [objects, seed, workers, blocks] => {
            let job = job_of(
                number(objects.as_bytes())?,
                number(seed.as_bytes())?,
                number(workers.as_bytes())?,
                number(blocks.as_bytes())?,
            )?;
            Some(Command::Time(job))
        }
        _ => None,
    }
}

// The job of these numbers, where they are within its limits.
fn job_of(objects: u64, seed: u64, workers: u64, blocks: u64) -> Option<Job>
    ensures { IfSome result IsJob }
{
    Some(Job {
        objects: within(0, MOST_OBJECTS, objects)?,
        seed,
        crew: Crew {
            workers: within(1, MOST_WORKERS, workers)?,
            blocks: within(1, MOST_BLOCKS, blocks)?,
            layout: Layout::Split,
            draws: 1 << 48,
        },
    })
}

// The number, where it is within these.
fn within(least: u32, most: u32, number: u64) -> Option<u32>
    ensures { IfSome result (λ value. (least ≤ value) × (value ≤ most)) }
{
    if number >= u64::from(least) && number <= u64::from(most) {
        Some(number as u32)
    } else {
        None
    }
}
