//! The crew of a command.
ghost use Rattle.std.specs.Prelude.{◌≡◌};
ghost use Rattle.rooms_program.specs.Limits.{crew_of};

use command_words::Options;
use work_pool::Crew;

/// How many draws each worker of a crew has: the most that it may have.
const DRAWS: u64 = 1 << 48;

/// The crew of these options.
pub fn crew_of(options: &Options) -> Crew
    ensures { result ≡ crew_of options.now }
{
    Crew {
        workers: options.workers,
        blocks: options.blocks,
        layout: options.layout,
        draws: DRAWS,
    }
}
